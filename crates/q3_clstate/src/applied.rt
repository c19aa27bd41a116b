//! What became of a message that was applied.

use q3_rings::NoBase;
use q3_text::Commands;

/// What became of the snapshot of a message.
#[derive(Clone, Copy, Debug, PartialEq, Eq)]
pub enum SnapOutcome {
    /// The message has none.
    NoSnap,
    /// It was accepted: the number of its base, 0 for none.
    Accepted { base: u32 },
    /// It was read to its end, and nothing of it is kept: the number of its base, 0 where the distance names none, and why
    /// that isn't held.
    Skipped { base: u32, cause: NoBase },
    /// The message's number isn't above the newest accepted since the last gamestate.
    Stale,
}

/// What became of a message: its number, whether it had a gamestate, and what became of its snapshot.
#[derive(Clone, Copy, Debug, PartialEq, Eq)]
pub struct Applied {
    pub number: u32,
    pub game: bool,
    pub snap: SnapOutcome,
}

/// The server's commands that a client executed of one message, by rising number. Whoever applies messages keeps one, and lends
/// it to each call.
#[derive(Drop)]
pub struct Log {
    pub commands: Commands,
}
