//! The messages that a server builds for a client: written, and scrambled by protocol 68.
#![tactic(auto)]

pub mod parts;
pub mod writing;

pub use parts::{SnapshotParts, TellingParts, Written};
pub use writing::{is_unclear, write_game, write_snapshot};
