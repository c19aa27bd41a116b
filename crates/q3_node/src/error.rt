//! Why a node ended early.

ghost use Rattle.std.specs.Prelude.{◌≡◌};
ghost use Rattle.q3_node.specs.declared.error.NodeError.TheVariants.{NoMemory};

use std::alloc::{AllocError, AllocFailed};
use thiserror::Error;

/// Why a node ended before the line `end` of its script.
#[derive(Clone, Copy, Debug, PartialEq, Eq, Error)]
pub enum NodeError {
    /// Want of memory, before the wire was bound, or at a line `record`.
    #[error("no memory")]
    NoMemory,
    /// The wire failed.
    #[error("wire fault")]
    WireFault,
    /// The sink failed, and took a front of the last turn's lines.
    #[error("write fault")]
    WriteFault,
    /// A file of a recording couldn't be made or written. Nothing of that turn was printed.
    #[error("file fault")]
    FileFault,
    /// 10,000,000 turns passed, and none of them did `end`.
    #[error("turns spent")]
    Turns,
}

impl From<AllocError> for NodeError {
    ghost from_gives = { λ _ e. e ≡ NoMemory };

    fn from(_: AllocError) -> NodeError {
        NodeError::NoMemory
    }
}

impl<T: Drop> From<AllocFailed<T>> for NodeError {
    ghost from_gives = { λ _ e. e ≡ NoMemory };

    fn from(_: AllocFailed<T>) -> NodeError {
        NodeError::NoMemory
    }
}
