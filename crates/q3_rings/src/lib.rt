//! The snapshots that a client holds: those that it accepted, as far as another may be read against them.
#![tactic(auto)]

pub mod laws;
pub mod order;
pub mod rings;
pub mod views;

pub use rings::{NoBase, Rings};
pub use views::{Held, SnapView};
