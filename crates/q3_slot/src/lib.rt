//! A place for a client at the server: what is sent to one client, and what is done with what it sends.
#![tactic(auto)]

pub mod answer;
mod beginning;
mod emitting;
pub mod joined;
pub mod laws;
pub mod shared;
pub mod slot;
pub mod stage;
pub mod taking;

pub use answer::{Emitted, NoClient, SayError};
pub use shared::Shared;
pub use slot::Slot;
pub use stage::ClientStage;
pub use taking::{Heard, ServerTook};
