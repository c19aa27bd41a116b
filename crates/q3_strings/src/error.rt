//! Why a string, or the operations of a message, can't be read.

ghost use Rattle.std.specs.Prelude.{◌≡◌};

use q3_bits::ReadError;

/// The first fault in reading order.
#[derive(Clone, Copy, Debug, PartialEq, Eq)]
pub enum StringError {
    /// The bits don't read.
    Bits(ReadError),
    /// The byte after as many as may be isn't 0.
    Long,
}

impl From<ReadError> for StringError {
    ghost use Rattle.q3_strings.specs.declared.error.StringError.TheVariants.{Bits};

    ghost from_gives = { λ e f. f ≡ Bits e };

    fn from(e: ReadError) -> StringError {
        StringError::Bits(e)
    }
}

/// Why the operations of a message can't be read: the first fault in reading order.
#[derive(Clone, Copy, Debug, PartialEq, Eq)]
pub enum OperationError {
    /// The bits don't read.
    Bits(ReadError),
    /// An operation that may not stand there.
    BadOp(u8),
    /// A string has more than 1,023 bytes.
    TextLong,
    /// There is a 65th command.
    Commands,
}

impl From<ReadError> for OperationError {
    ghost use Rattle.q3_strings.specs.declared.error.OperationError.TheVariants.{Bits};

    ghost from_gives = { λ e f. f ≡ Bits e };

    fn from(e: ReadError) -> OperationError {
        OperationError::Bits(e)
    }
}

impl From<StringError> for OperationError {
    ghost use Rattle.q3_strings.specs.Operations.{string_error};

    ghost from_gives = { λ e f. f ≡ string_error e };

    fn from(e: StringError) -> OperationError {
        match e {
            StringError::Bits(e) => OperationError::Bits(e),
            StringError::Long => OperationError::TextLong,
        }
    }
}
