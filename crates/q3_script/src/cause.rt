//! Kinds of scripts, and why a script is refused.

ghost use Rattle.std.specs.Prelude.{◌≡◌};
ghost use Rattle.q3_script.specs.declared.cause.ScriptError.TheVariants.{NoMemory};

use q3_words::LineCause;
use std::alloc::{AllocError, AllocFailed};

/// The command that takes the script.
#[derive(Clone, Copy, Debug, PartialEq, Eq)]
pub enum ScriptKind {
    /// A replay: both ends, and the datagrams between them.
    Replay,
    /// A server over a wire.
    Serve,
    /// A client over a wire.
    Join,
}

/// Why no script could be read.
#[derive(Clone, Copy, Debug, PartialEq, Eq)]
pub enum ScriptError {
    NoMemory,
    /// The first bad line, counted from 1, and its first cause.
    Line { line: u32, cause: LineCause },
}

impl From<AllocError> for ScriptError {
    ghost from_gives = { λ _ e. e ≡ NoMemory };

    fn from(_: AllocError) -> ScriptError {
        ScriptError::NoMemory
    }
}

impl<T: Drop> From<AllocFailed<T>> for ScriptError {
    ghost from_gives = { λ _ e. e ≡ NoMemory };

    fn from(_: AllocFailed<T>) -> ScriptError {
        ScriptError::NoMemory
    }
}
