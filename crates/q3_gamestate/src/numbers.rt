//! What a gamestate says beside its config strings and its baselines.

/// The numbers of a gamestate.
#[derive(Clone, Copy, Debug, PartialEq, Eq)]
pub struct Numbers {
    /// The number of the last server command issued.
    pub command: u32,
    /// The client's slot.
    pub slot: u32,
    /// The checksum feed of the map.
    pub feed: u32,
}
