//! Server messages: what one says, how it is written, and what is read of one.
#![tactic(auto)]

pub mod bases;
pub mod error;
pub mod laws;
pub mod message;
mod operations;
pub mod reading;
pub mod report;
pub mod writing;

pub use bases::{BaseView, Bases};
pub use error::Illegible;
pub use message::{GameParts, Section, ServerMessage, SnapParts};
pub use operations::SERVER_COMMAND;
pub use reading::{read_ack, read_server_message};
pub use report::{cause_number, cause_word};
pub use writing::{write_game, write_game_parts, write_parts, write_snap};
