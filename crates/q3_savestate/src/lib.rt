//! A client's state as bytes, as an index of a demo keeps it: what is written, what is read, and the place of the first field that is cut short
//! or breaks a rule. The format is this project's own.
#![tactic(auto)]

pub mod append;
pub mod buffer;
pub mod cursor;
mod entities;
pub mod error;
pub mod laws;
mod snapshots;
pub mod state;
mod texts;
mod writing;

pub use append::append_state;
pub use buffer::Buffer;
pub use cursor::Cursor;
pub use error::StateError;
pub use state::read_state;
