//! What the slots of a server share.

use q3_chan::LONGEST_MESSAGE;
use q3_frames::Frames;
use q3_map::Map;
use q3_player::SnapHead;
use q3_profile::Profile;

/// What a message to any client is built from, and the places in which that is done. Whoever has slots has one, and lends it to
/// each that emits.
#[derive(Drop)]
pub struct Shared {
    /// By which messages are read and written.
    pub profile: Profile,
    /// What the game handed in for all clients.
    pub map: Map,
    /// The frames that were built for them, and the ring that these share.
    pub frames: Frames,
    /// A place for the head of a snapshot: it holds nothing from one call to another.
    pub head: SnapHead,
    /// A place for a message, likewise.
    pub buffer: Box<[u8; LONGEST_MESSAGE]>,
}
