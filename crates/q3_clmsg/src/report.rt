//! The words that tell why a client's message isn't legible, as reports print them.

ghost use Rattle.std.specs.Prelude.{◌≡◌};
ghost use Rattle.q3_clmsg.specs.Report as spec;

use crate::error::ClientIllegible;
use q3_bits::bits_word;

/// The word of a cause.
pub fn cause_word(cause: ClientIllegible) -> &'static [u8]
    ensures { result.now ≡ spec.cause_word cause }
{
    match cause {
        ClientIllegible::Bits(e) => bits_word(e),
        ClientIllegible::BadOp(_) => b"op",
        ClientIllegible::MoveCount(_) => b"moves",
        ClientIllegible::TextLong => b"text",
        ClientIllegible::Commands => b"commands",
        ClientIllegible::Ack(_) => b"ack",
    }
}

/// The number that is printed after the word of a cause.
pub fn cause_number(cause: ClientIllegible) -> Option<u32>
    ensures { result ≡ spec.cause_number cause }
{
    match cause {
        ClientIllegible::BadOp(byte) => Some(u32::from(byte)),
        ClientIllegible::MoveCount(count) => Some(u32::from(count)),
        ClientIllegible::Ack(number) => Some(number),
        _ => None,
    }
}
