//! What the game hands in for all clients of a server.
#![tactic(auto)]

mod entities;
pub mod laws;
pub mod map;

pub use map::{Late, Map, NotLater};
