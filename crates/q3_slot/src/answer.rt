//! What the server answers where a client's slot is asked.

/// No such client was added.
#[derive(Clone, Copy, Debug, PartialEq, Eq)]
pub struct NoClient;

/// Why the server can't issue a command.
#[derive(Clone, Copy, Debug, PartialEq, Eq)]
pub enum SayError {
    /// No such client was added.
    NoClient,
    /// The command would change config string 1, the server's own.
    Own,
    /// No gamestate of the map was begun for the client.
    NotPrimed,
    /// The command doesn't fit into the client's window.
    WindowFull,
}

/// What the server's emit answers.
#[derive(Clone, Copy, Debug, PartialEq, Eq)]
pub enum Emitted {
    /// No such client was added.
    NoClient,
    /// A datagram with a further piece of the message of this number.
    Fragment {
        number: u32,
    },
    /// Message numbers have ended, or more than 2^62 entities were placed.
    SequenceEnd,
    /// By protocol 68, the next message's leading long takes more than 32 bits, so that a part of it would be scrambled.
    Unclear,
    /// The message has more than 16,384 bytes; its number is used again. The frame of a snapshot stays, and a gamestate stays
    /// owed.
    Overlong,
    /// A datagram with a gamestate, or its first piece: its message's number, and the message's length.
    Game {
        number: u32,
        bytes: usize,
    },
    /// A datagram with a snapshot, or its first piece: its message's number, the number of the base, 0 for none, and the
    /// message's length.
    Snapshot {
        number: u32,
        base: u32,
        bytes: usize,
    },
}
