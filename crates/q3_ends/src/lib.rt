//! What a line of a script does at one end: what it hands in to a server or to a client, what a server makes of bytes, and what a
//! client shows; and the recordings of clients. Whoever has both ends, and whoever has one, does these lines by the calls of this crate.
#![tactic(auto)]

pub mod client;
pub mod null_files;
pub mod recording;
pub mod server;

pub use null_files::NullFiles;
