//! Snapshots whose entities lie in one ring: the ring, and what is kept of each snapshot beside its entities.
#![tactic(auto)]

pub mod kept;
pub mod laws;
pub mod ring;

pub use kept::{Kept, PLACES, Places, copy_head};
pub use ring::Ring;
