//! The index of a demo: what every 256th record left, so that a demo is sought without playing it from its first record. What an index is, what
//! opening one and seeking in it mean, and their laws. The format is this project's own.
#![tactic(auto)]

pub mod build;
pub mod error;
pub mod index;
pub mod laws;
pub mod opening;

pub use build::{Built, build_index};
pub use error::{IndexError, SeekError};
pub use index::{Checkpoint, Index};
pub use opening::{Version, open_index};
