//! Kinds of fields. Keeps the rules "field tables" and "normal form", the engine's `netField_t` and its `bits`.

ghost use Rattle.std.specs.Prelude.{◌≡◌, ◌<◌, ◌≤◌, ◌^◌, ◌%◌};
ghost use Rattle.q3_fields.specs.declared.kind.Kind.TheVariants.{Float};
ghost use Rattle.q3_fields.specs.Kinds.{IsKind};
ghost use Rattle.q3_fields.specs.Kinds as spec;

/// What a field holds, and in how many bits.
#[derive(Clone, Copy, Debug, PartialEq, Eq)]
pub enum Kind {
    /// A float, held as its pattern of 32 bits.
    Float,
    /// A number of 1 to 32 bits.
    Unsigned(u8),
    /// A number of 8, 16 or 24 bits, whose last bit is its sign.
    Signed(u8),
}

/// The normal form of a field's word: a float of negative zero becomes 0 and other floats stay, an unsigned word is
/// cut to its bits, and a signed one is cut and its sign extended to 32 bits. That states are kept so is this
/// project's own.
#[tactic(auto, unfolding(crate::specs::Kinds::norm))]
pub fn norm(kind: Kind, word: u32) -> u32
    requires { IsKind kind }
    ensures { result ≡ spec.norm kind word }
{
    match kind {
        Kind::Float => positive_zero(word),
        Kind::Unsigned(width) => cut(word, width),
        Kind::Signed(width) => sign_extended(word, width),
    }
}

/// A float's pattern, with 0 for a negative zero.
#[tactic(auto, unfolding(crate::specs::Kinds::norm))]
pub(crate) fn positive_zero(word: u32) -> u32
    ensures { result ≡ spec.norm Float word }
{
    if word == 1 << 31 { 0 } else { word }
}

/// A word's low bits.
fn cut(word: u32, width: u8) -> u32
    requires some { 1 ≤ width }
    requires most { width ≤ 32 }
    ensures { result ≡ word % 2 ^ width }
{
    if width == 32 {
        return word;
    }
    word % (1 << width)
}

/// A word's low bits, the last of them as its sign.
pub(crate) fn sign_extended(word: u32, width: u8) -> u32
    requires some { 1 ≤ width }
    requires most { width ≤ 24 }
    ensures { result ≡ spec.sign_extended width word }
{
    let low = word % (1 << width);
    if low < 1 << (width - 1) {
        return low;
    }
    low + (u32::MAX - (1 << width) + 1)
}
