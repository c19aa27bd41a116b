//! Why an index isn't opened, and why a demo isn't sought in it.

ghost use Rattle.std.specs.Prelude.{◌≡◌};
ghost use Rattle.q3_index.specs.declared.error.IndexError.TheVariants as opening;
ghost use Rattle.q3_index.specs.declared.error.SeekError.TheVariants as seeking;

use q3_demo::DemoError;
use std::alloc::{AllocError, AllocFailed};
use thiserror::Error;

/// Why an index isn't opened. A place is that of the first field of the index that is cut short or breaks a rule, or of the first byte after
/// the last checkpoint.
#[derive(Clone, Copy, Debug, PartialEq, Eq, Error)]
pub enum IndexError {
    /// The files' count of faults rose in this call.
    #[error("read fault")]
    ReadFault,
    /// The bytes are no index.
    #[error("index: bad at {0}")]
    NotIndex(u64),
    /// The index is of a demo of another length, or by a profile with another mark: both, as the index keeps them and as they are.
    #[error("index: other demo")]
    OtherDemo { kept: (u64, u64), found: (u64, u64) },
    /// The number of an entity has another number of bits in the index than by the profile, whose length and mark agree: both.
    #[error("index: width {kept}, profile {found}")]
    OtherWidth { kept: u8, found: u8 },
    /// Want of memory.
    #[error("no memory")]
    NoMemory,
}

/// Why a demo isn't sought.
#[derive(Clone, Copy, Debug, PartialEq, Eq, Error)]
pub enum SeekError {
    /// The files' count of faults rose in this call.
    #[error("read fault")]
    ReadFault,
    /// The state of a checkpoint is none: the place in the index of its first field that is cut short or breaks a rule, or of the first byte
    /// after it.
    #[error("index: bad at {0}")]
    NotIndex(u64),
    /// Want of memory.
    #[error("no memory")]
    NoMemory,
    /// The index counts fewer records, so many.
    #[error("past end: {0}")]
    PastEnd(u32),
    /// A record that is played is refused, or the demo ends before it, which is `Truncated` at its end.
    #[error("{0}")]
    Demo(DemoError),
}

impl From<AllocError> for IndexError {
    ghost from_gives = { λ _ e. e ≡ opening.NoMemory };

    fn from(_: AllocError) -> IndexError {
        IndexError::NoMemory
    }
}

impl From<AllocError> for SeekError {
    ghost from_gives = { λ _ e. e ≡ seeking.NoMemory };

    fn from(_: AllocError) -> SeekError {
        SeekError::NoMemory
    }
}

impl<T: Drop> From<AllocFailed<T>> for IndexError {
    ghost from_gives = { λ _ e. e ≡ opening.NoMemory };

    fn from(_: AllocFailed<T>) -> IndexError {
        IndexError::NoMemory
    }
}

impl<T: Drop> From<AllocFailed<T>> for SeekError {
    ghost from_gives = { λ _ e. e ≡ seeking.NoMemory };

    fn from(_: AllocFailed<T>) -> SeekError {
        SeekError::NoMemory
    }
}
