//! Laws of messages: what was begun is what the other end reads, over any network.
#![tactic(auto)]

pub mod laws;
