//! The words that tell why bits don't read, as reports print them.

ghost use Rattle.std.specs.Prelude.{◌≡◌};
ghost use Rattle.q3_bits.specs.Report as spec;

use crate::reader::ReadError;

/// The word of a fault of bits.
pub fn bits_word(e: ReadError) -> &'static [u8]
    ensures { result.now ≡ spec.bits_word e }
{
    match e {
        ReadError::End => b"end",
        ReadError::NoWord => b"noword",
    }
}
