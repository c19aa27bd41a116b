//! The script language, this project's own: each line of a script is an event of a replay, of a server or of a client.
#![tactic(auto)]

pub mod cause;
mod course;
pub mod event;
pub mod laws;
mod line;
mod moves;
mod script;

pub use cause::{ScriptError, ScriptKind};
pub use event::Event;
pub use script::{LONGEST_SCRIPT, read_script};
