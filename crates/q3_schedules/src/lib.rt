//! Laws of every schedule, in which each end gets only what the other made.
#![tactic(auto)]

pub mod laws;
