//! The profile: code words, field tables and ring sizes, read from a file that the user writes.
#![tactic(auto)]

mod document;
pub mod error;
pub mod laws;
mod mark;
mod numbers;
pub mod profile;
mod read;

pub use error::{Key, ProfileError};
pub use profile::Profile;
pub use read::{LONGEST_PROFILE, read_profile};
