//! Why bytes are no state.

ghost use Rattle.std.specs.Prelude.{◌≡◌};
ghost use Rattle.q3_savestate.specs.declared.error.StateError.TheVariants as errors;

use q3_bits::NoMemory;

/// Why a state wasn't read.
#[derive(Clone, Copy, Debug, PartialEq, Eq)]
pub enum StateError {
    /// Want of memory.
    NoMemory,
    /// The place of the first field that is cut short or breaks a rule of the format, or of the first byte after the state.
    NotState(usize),
}

impl From<NoMemory> for StateError {
    ghost from_gives = { λ _ e. e ≡ errors.NoMemory };

    fn from(_: NoMemory) -> StateError {
        StateError::NoMemory
    }
}
