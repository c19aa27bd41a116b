//! What a state holds, to be put together.

use q3_config::Configs;
use q3_entity::Baselines;
use q3_rings::Rings;
use q3_window::Incoming;

/// All that a state holds but its profile.
#[derive(Drop)]
pub struct Contents {
    /// The number of the last message that was applied, 0 for none.
    pub number: u32,
    /// The server's commands that were executed.
    pub incoming: Incoming,
    /// Whether a gamestate was applied.
    pub has_game: bool,
    /// The id of the map, 0 before one was told.
    pub id: u32,
    /// The client's slot that the last gamestate told, 0 before one.
    pub slot: u32,
    /// The checksum feed that it told, 0 before one.
    pub feed: u32,
    /// The config strings of the last gamestate, with the changes that commands made.
    pub configs: Configs,
    /// The baselines of the last gamestate.
    pub baselines: Baselines,
    /// The snapshots that are held, each accepted since the last gamestate.
    pub rings: Rings,
}
