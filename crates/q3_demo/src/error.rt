//! Why a demo isn't played to its end.

ghost use Rattle.std.specs.Prelude.{◌≡◌};
ghost use Rattle.q3_demo.specs.declared.error.DemoError.TheVariants.{NoMemory};

use q3_svmsg::Illegible;
use std::alloc::{AllocError, AllocFailed};
use thiserror::Error;

/// Why a demo isn't played to its end. A place is that of a record's first byte in the file.
#[derive(Clone, Copy, Debug, PartialEq, Eq, Error)]
pub enum DemoError {
    /// The files' count of faults rose in this call.
    #[error("read fault")]
    ReadFault,
    /// The file ends in the message of this record, or it goes on beyond 1,073,741,824 bytes, or it stands after 1,048,576
    /// others.
    #[error("demo: truncated at {0}")]
    Truncated(u64),
    /// The length of this record is below -1 or above 16,384.
    #[error("demo: length at {0}")]
    BadLength(u64),
    /// The number of this record isn't above that of the one before it, or is 2^31 or above.
    #[error("demo: number at {0}")]
    BadNumber(u64),
    /// The message of this record isn't legible.
    #[error("demo: illegible at {0}")]
    Message(u64, Illegible),
    /// Want of memory, before the first record was read.
    #[error("no memory")]
    NoMemory,
    /// The sink failed.
    #[error("write fault")]
    WriteFault,
}

impl From<AllocError> for DemoError {
    ghost from_gives = { λ _ e. e ≡ NoMemory };

    fn from(_: AllocError) -> DemoError {
        DemoError::NoMemory
    }
}

impl<T: Drop> From<AllocFailed<T>> for DemoError {
    ghost from_gives = { λ _ e. e ≡ NoMemory };

    fn from(_: AllocFailed<T>) -> DemoError {
        DemoError::NoMemory
    }
}
