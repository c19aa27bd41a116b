//! Scripts that are made: printed, and generated from a seed.
#![tactic(auto)]

mod draw;
mod drawn;
pub mod laws;
mod make;
pub mod print;

pub use drawn::Drawn;
pub use make::{closing_lines, make_script, opening_lines};
pub use print::print_script;
