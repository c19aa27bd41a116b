//! Laws of recordings: what the demo plays to that a client recorded.
#![tactic(auto)]

pub mod laws;
