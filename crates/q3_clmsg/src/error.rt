//! Why a client's message isn't legible.

ghost use Rattle.std.specs.Prelude.{◌≡◌};

use q3_bits::ReadError;
use q3_strings::OperationError;

/// The first fault in reading order.
#[derive(Clone, Copy, Debug, PartialEq, Eq)]
pub enum ClientIllegible {
    /// The bits don't read.
    Bits(ReadError),
    /// An operation that may not stand there.
    BadOp(u8),
    /// The number of moves is 0 or above 32.
    MoveCount(u8),
    /// A string has more than 1,023 bytes.
    TextLong,
    /// There is a 65th command.
    Commands,
    /// The number of the last server command that was executed isn't one that the server's window takes. It comes from
    /// the server's end alone, and from no call of this crate.
    Ack(u32),
}

impl From<ReadError> for ClientIllegible {
    ghost use Rattle.q3_clmsg.specs.declared.error.ClientIllegible.TheVariants.{Bits};

    ghost from_gives = { λ e f. f ≡ Bits e };

    fn from(e: ReadError) -> ClientIllegible {
        ClientIllegible::Bits(e)
    }
}

impl From<OperationError> for ClientIllegible {
    ghost use Rattle.q3_clmsg.specs.Reading.{operation_error};

    ghost from_gives = { λ e f. f ≡ operation_error e };

    fn from(e: OperationError) -> ClientIllegible {
        match e {
            OperationError::Bits(e) => ClientIllegible::Bits(e),
            OperationError::BadOp(operation) => ClientIllegible::BadOp(operation),
            OperationError::TextLong => ClientIllegible::TextLong,
            OperationError::Commands => ClientIllegible::Commands,
        }
    }
}
