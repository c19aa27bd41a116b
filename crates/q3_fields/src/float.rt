//! Small floats. Keeps the rule "small floats", the engine's `FLOAT_INT_BITS` and `FLOAT_INT_BIAS`.

ghost use Rattle.std.specs.Prelude.{◌≡◌, ◌+◌, ◌*◌, ◌^◌, ◌≤◌, ◌<◌, ◌≤ℤ◌, ℕ, ℤ, pos, neg_ℤ};
ghost use Rattle.q3_fields.specs.Floats.{exponent_up_to, magnitude, pattern, small_float};
ghost use Rattle.q3_fields.specs.Texts as spec;
ghost use Rattle.q3_fields.specs.Laws.{IsSmall};

/// The float pattern of a whole number from -4096 to 4095.
#[tactic(auto, unfolding(crate::specs::Floats::pattern))]
#[inline(always)]
pub fn pattern_of(k: i32) -> u32
    requires least { neg_ℤ (pos 4096) ≤ℤ k }
    requires most { k ≤ℤ pos 4095 }
    ensures { result ≡ pattern k }
{
    if k == 0 {
        return 0;
    }
    if k < 0 {
        return (1 << 31) + magnitude_of(k.unsigned_abs());
    }
    magnitude_of(k as u32)
}

/// The whole number from -4096 to 4095 whose pattern a word is. Negative zero is 0.
#[tactic(auto, using(crate::proofs::SmallFloats::small_float_low))]
pub fn small_of(word: u32) -> Option<i32>
    ensures { result ≡ small_float word }
{
    if word == 1 << 31 {
        return Some(0);
    }
    // most floats that aren't small differ from these in the bits far after the point
    if word % (1 << 11) != 0 {
        return None;
    }
    let k = nearest(word);
    if pattern_of(k) != word {
        return None;
    }
    Some(k)
}

/// The exponent and fraction of a number from 1 to 4096.
#[inline(always)]
fn magnitude_of(number: u32) -> u32
    requires some { 1 ≤ number }
    requires most { number ≤ 4096 }
    ensures magnitude { result ≡ magnitude number }
    ensures fits { result < 2 ^ 31 }
{
    let exponent = exponent_of(number);
    ((127 + exponent) << 23) + ((number - (1 << exponent)) << (23 - exponent))
}

/// The exponent of the greatest power of two that is at most a number from 1 to 4096.
#[inline(always)]
fn exponent_of(number: u32) -> u32
    requires some { 1 ≤ number }
    requires most { number ≤ 4096 }
    ensures exponent { result ≡ exponent_up_to 12 number }
    ensures least { 2 ^ result ≤ number }
    ensures most { number < 2 ^ (result + 1) }
    ensures few { result ≤ 12 }
{
    31 - number.leading_zeros()
}

/// The one whole number from -4096 to 4095 whose pattern a word may be.
fn nearest(word: u32) -> i32
    ensures small { IsSmall result }
    ensures only { (k : ℤ) → IsSmall k → pattern k ≡ word → k ≡ result }
{
    let number = leading_bits(word % (1 << 31)) as i32;
    if word >= 1 << 31 {
        return -number;
    }
    number.min(4095)
}

/// The one number from 1 to 4096 whose exponent and fraction these may be: the bits before the point.
/// It is 0 where no such number has the exponent.
fn leading_bits(word: u32) -> u32
    ensures most { result ≤ 4096 }
    ensures zero { word ≡ 0 → result ≡ 0 }
    ensures only { (m : ℕ) → 1 ≤ m → m ≤ 4096 → magnitude m ≡ word → m ≡ result }
{
    let exponent = word >> 23;
    if exponent < 127 || exponent > 139 {
        return 0;
    }
    (((1 << 23) + word % (1 << 23)) >> (150 - exponent)).min(4096)
}

/// A whole number from -4096 to 4095 in the 13 bits that carry it.
pub(crate) fn biased(k: i32) -> u32
    requires { IsSmall k }
    ensures { result ≡ spec.biased k }
{
    (k + 4096) as u32
}

/// The whole number from -4096 to 4095 that 13 bits carry.
pub(crate) fn unbiased(value: u32) -> i32
    requires { value < 2 ^ 13 }
    ensures number { result ≡ spec.unbiased value }
    ensures small { IsSmall result }
{
    value as i32 - 4096
}
