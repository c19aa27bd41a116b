//! Client messages: what one says, how it is written, and what is read of one.
#![tactic(auto)]

pub mod error;
pub mod heads;
pub mod laws;
pub mod message;
pub mod moves;
mod operations;
pub mod print;
pub mod reading;
pub mod report;
pub mod writing;

pub use error::ClientIllegible;
pub use heads::{Heads, read_heads};
pub use message::{ClientMessage, SaidParts};
pub use moves::{MOST_MOVES, Move, message_key};
pub use print::print_move;
pub use reading::read_client_message;
pub use writing::{write_client_message, write_said};
