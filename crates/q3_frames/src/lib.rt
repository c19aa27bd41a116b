//! The frames of a server: the snapshots that were built for each client, as far as a message may be written against them.
#![tactic(auto)]

pub mod frames;
pub mod laws;

pub use frames::{Base, Frames};
