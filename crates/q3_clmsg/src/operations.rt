//! The operations of a client's message, the engine's `clc_ops_e`.

pub(crate) const MOVE: u32 = 2;

pub(crate) const MOVE_NO_DELTA: u32 = 3;

pub(crate) const CLIENT_COMMAND: u32 = 4;

pub(crate) const EOF: u32 = 5;
