//! What the messages that were applied left at a client: the number of the last, the commands executed, what the last gamestate
//! told, with the changes since then, and the snapshots and baselines that others are read against.
#![tactic(auto)]

pub mod applied;
pub mod contents;
mod holding;
pub mod laws;
pub mod print;
mod settings;
pub mod state;

pub use applied::{Applied, Log, SnapOutcome};
pub use contents::Contents;
pub use print::{print_applied, print_snapshot};
pub use state::ClState;
