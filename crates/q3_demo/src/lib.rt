//! Demo files: the messages that a client applied, record by record.
#![tactic(auto)]

mod compose;
pub mod error;
pub mod laws;
mod lines;
pub mod player;
mod playing;
pub mod record;
pub mod recorder;
mod state;

pub use compose::{compose_game, compose_whole};
pub use error::DemoError;
pub use player::Player;
pub use playing::play;
pub use record::{LONGEST_RECORD, Piece, next_record, read_whole};
pub use recorder::{Noted, Recorder};
pub use state::print_state;
