//! Config strings: 1,024 strings of bounded size, and the commands that change them.
#![tactic(auto)]

pub mod configs;
pub mod error;
pub mod laws;
pub mod limits;
mod pending;
mod shapes;
mod table;
mod writing;

pub use configs::Configs;
pub use error::ConfigError;
pub use limits::{LONGEST_STRING, MOST_SIZE, STRINGS, SYSTEM_INFO};
pub use shapes::shape;
pub use writing::{piece, pieces};
