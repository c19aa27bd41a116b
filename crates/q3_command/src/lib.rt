//! What the words of the program's command line ask for. It knows no files: names are words.
#![tactic(auto)]

pub mod command;

pub use command::{Command, Draws, parse};
