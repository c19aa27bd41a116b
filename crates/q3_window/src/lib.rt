//! The windows of reliable commands: those that an end issued and that aren't acknowledged, and which of the other end's
//! commands were executed.
#![tactic(auto)]

pub mod incoming;
pub mod laws;
pub mod outgoing;
pub mod print;

pub use incoming::{Incoming, Taken};
pub use outgoing::{BadAck, Outgoing, WindowFull};
pub use print::{print_command, print_commands};
