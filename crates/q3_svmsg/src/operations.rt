//! The operations of a server's message, of the engine's `svc_ops_e`; a gamestate's are in q3_gamestate.

/// The operation of a command of the server.
pub const SERVER_COMMAND: u32 = 5;

pub(crate) const SNAPSHOT: u32 = 7;
