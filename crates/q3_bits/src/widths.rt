//! The widths of fields by their names in the engine: `MSG_WriteByte`, `MSG_WriteShort`, `MSG_WriteLong` (msg.c).

/// The bits of a mark, which says that something is so, or follows.
pub const BIT: u32 = 1;

/// The bits of a byte.
pub const BYTE: u32 = 8;

/// The bits of a short.
pub const SHORT: u32 = 16;

/// The bits of a long.
pub const LONG: u32 = 32;
