//! The limits of config strings, and the one that the server keeps for itself.

/// How many config strings a map has room for, at the indexes below it: the engine's `MAX_CONFIGSTRINGS` (q_shared.h).
pub const STRINGS: u32 = 1_024;

/// The index of the string that tells the server's settings, and the map's id among them: the engine's `CS_SYSTEMINFO`
/// (q_shared.h).
pub const SYSTEM_INFO: u32 = 1;

/// The longest string, in bytes.
pub const LONGEST_STRING: usize = 8_191;

/// The greatest size of all: the bytes of each string that isn't empty and one more, and one for all.
pub const MOST_SIZE: usize = 16_000;
