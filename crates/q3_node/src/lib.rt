//! Nodes: one end of a connection over a wire, a server or a client, which does the lines of its script turn by turn, each when it is
//! due, and takes what arrives meanwhile.
#![tactic(auto)]

mod client;
mod end;
pub mod error;
pub mod laws;
mod node;
mod server;
mod turns;

pub use error::NodeError;
pub use node::{join_loop, serve_loop};
