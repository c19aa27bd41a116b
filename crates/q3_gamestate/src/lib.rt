//! Gamestates: what one says of the server's map, how it is written, and what is read of one.
#![tactic(auto)]

pub mod error;
pub mod laws;
pub mod numbers;
pub mod operations;
pub mod reading;
pub mod writing;

pub use error::GamestateError;
pub use numbers::Numbers;
pub use reading::{BigString, read_gamestate};
pub use writing::write_gamestate;
