//! Player states over a table of fields, and the delta in which a message carries one.
#![tactic(auto)]

pub mod head;
pub mod laws;
pub mod print;
pub mod reading;
pub mod state;
pub mod writing;

pub use head::{MOST_AREA, SnapHead};
pub use print::print_words;
pub use reading::{PlayerError, read_player};
pub use state::PlayerState;
pub use writing::write_player;
