//! The strings of bit messages, and the commands that both ends send each other.
#![tactic(auto)]

pub mod error;
pub mod laws;
pub mod operations;
pub mod reading;
pub mod writing;

pub use error::{OperationError, StringError};
pub use operations::{read_ending, read_row};
pub use reading::{read_bytes, read_command, read_string, read_text};
pub use writing::{write_bytes, write_command, write_commands, write_string};
