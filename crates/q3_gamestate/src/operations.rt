//! The operations of a gamestate, of the engine's `svc_ops_e`.

/// A gamestate follows.
pub const GAMESTATE: u32 = 2;

/// Inside a gamestate: a config string follows.
pub const CONFIG_STRING: u32 = 3;

/// Inside a gamestate: a baseline follows.
pub const BASELINE: u32 = 4;

/// The end, of a gamestate's settings as of a message.
pub const EOF: u32 = 8;
