//! Texts of messages, lists of commands, info strings, numbers in decimal, and texts that are cut at a byte. Only the places
//! of a list of commands take memory.
#![tactic(auto)]

pub mod commands;
pub mod cut;
pub mod info;
pub mod key;
pub mod laws;
pub mod number;
pub mod text;

pub use commands::Commands;
pub use cut::{cut_at, place_of};
pub use info::info_value;
pub use key::hash_key;
pub use number::{decimal, decimal_within, long_decimal};
pub use text::{Command, CommandRun, LONGEST_TEXT, Text, TextError, translate};
