//! How many bits fields take. Keeps the rule "unclear messages", which is this project's own: the leading longs of a
//! message take no more than their plain bits.

ghost use Rattle.std.specs.Prelude.{◌≡◌, ◌^◌, ◌<◌, ◌≤◌, All, length};
ghost use Rattle.q3_bits.specs.Words.{field_bits, row_bits};

use crate::code::Code;
use crate::writer::gather;

impl Code {
    /// How many bits a row of fields takes, each a value and its width.
    pub fn row_length(&self, fields: &[(u32, u32)]) -> usize
        requires widths { All (λ field. (1 ≤ field.1) × (field.1 ≤ 32)) fields.now }
        requires few { length fields.now < 2 ^ 32 }
        ensures { result ≡ length (row_bits self.now fields.now) }
    {
        let mut length = 0;
        for (value, width) in fields {
            length += self.field_length(*value, *width);
        }
        length
    }

    /// How many bits a field takes.
    fn field_length(&self, value: u32, width: u32) -> usize
        requires { width ≤ 32 }
        ensures length { result ≡ length (field_bits self.now width value) }
        ensures short { result ≤ 103 }
    {
        let raw = width % 8;
        let bytes = width / 8;
        let first = bytes.min(2);
        let high = value >> raw;
        let low = gather(self, high, first);
        let rest = gather(self, high >> 16, bytes - first);
        (raw + low.count + rest.count) as usize
    }
}
