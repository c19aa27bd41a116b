//! How long datagrams and messages are, and how many messages an end sends.

/// A message below this length in bytes goes whole, and no piece is longer. The engine's `FRAGMENT_SIZE`.
pub const FRAGMENT_SIZE: usize = 1_300;

/// The longest message in bytes, the engine's `MAX_MSGLEN`.
pub const LONGEST_MESSAGE: usize = 16_384;

/// The numbers of messages stay below this. The engine has no such end: this project's own.
pub const SEQUENCE_END: u32 = 1 << 30;

/// The bytes that a `Datagram` has room for: a piece and what stands before it, which is at most 14. The engine's packets
/// have room for 1,400, its `MAX_PACKETLEN`.
pub const DATAGRAM_ROOM: usize = 1_320;
