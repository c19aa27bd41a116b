//! Numbers in decimal.

ghost use Rattle.std.specs.Prelude.{◌≡◌, ◌-◌, ◌^◌, ◌≤◌, IfSome};
ghost use Rattle.q3_text.specs.Decimals.{number_at, info_number};

/// The number that a word spells, if it is one from `low` to `high`: digits alone, with no 0 before others.
pub fn decimal_within(word: &[u8], low: u32, high: u32) -> Option<u32>
    ensures value { result ≡ number_at low high word.now }
    ensures within { IfSome result (λ n. (low ≤ n) × (n ≤ high)) }
{
    let value = decimal_up_to(word, u64::from(high))?;
    (u64::from(low) <= value).then_some(value as u32)
}

/// The number below 2^64 that a word spells, if it spells one, as `decimal_within` reads it.
pub fn long_decimal(word: &[u8]) -> Option<u64>
    ensures { result ≡ number_at 0 (2 ^ 64 - 1) word.now }
{
    decimal_up_to(word, u64::MAX)
}

/// The number that a value of an info string spells, if it is one below 2^31, such as a server id.
pub fn decimal(text: &[u8]) -> Option<u32>
    ensures { result ≡ info_number text.now }
{
    decimal_within(text, 0, (1 << 31) - 1)
}

/// The number that a word spells, if it is one up to `high`.
#[tactic(auto, using(crate::proofs::Decimals::none_at_empty, crate::proofs::Decimals::none_at_zero))]
fn decimal_up_to(word: &[u8], high: u64) -> Option<u64>
    ensures value { result ≡ number_at 0 high word.now }
    ensures within { IfSome result (λ n. n ≤ high) }
{
    if word.is_empty() {
        return None;
    }
    if word.len() > 1 && word[0] == b'0' {
        return None;
    }
    let mut value = 0;
    for byte in word {
        if !byte.is_ascii_digit() {
            return None;
        }
        value = 10 * value + u128::from(byte - b'0');
        if value > u128::from(high) {
            return None;
        }
    }
    Some(value as u64)
}
