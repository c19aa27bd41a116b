//! The outside: files, a sink for bytes, a wire for datagrams and a clock, as traits whose contracts say what each call changes, those of the system,
//! a line buffer in front of a sink, addresses, and texts that are put together from pieces.
#![tactic(auto)]

pub mod address;
pub mod clock;
pub mod files;
pub mod host;
pub mod laws;
pub mod line;
pub mod print;
pub mod sink;
pub mod wire;

pub use address::Address;
pub use clock::Clock;
pub use files::Files;
pub use host::{HostClock, HostFiles, HostSink, UdpWire};
pub use line::Line;
pub use print::{Piece, print_all, print_hex_word, print_indexed, print_number, print_text};
pub use sink::{Failed, NullSink, Sink};
use std::alloc::AllocError;
pub use wire::Wire;

/// Want of memory, and nothing else.
pub type NoMemory = AllocError;
