//! What a run of each command does, but of a replay and of a generated script: why it may end early, how it reads
//! its input, and what it prints and leaves.
#![tactic(auto)]

pub mod demos;
pub mod fault;
pub mod input;
pub mod nodes;

pub use demos::{index, play, seek};
pub use fault::Fault;
pub use input::{load_events, load_profile};
pub use nodes::{join, serve};
