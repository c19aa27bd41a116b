//! What a replay counts: the lines that its answers print, by their kind.
#![tactic(auto)]

pub mod counts;

pub use counts::{Counts, lines_in};
