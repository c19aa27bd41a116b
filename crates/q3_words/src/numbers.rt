//! The numbers in a line.

ghost use Rattle.std.specs.Prelude.{◌≡◌, ◌≤◌, IfOk};
ghost use Rattle.q3_words.specs.Numbers as spec;

use crate::cause::LineCause;
use q3_fields::MOST_END;
use q3_text::decimal_within;

/// The greatest number of an entity, by the widest table.
pub const LAST_ENTITY: u32 = MOST_END as u32 - 1;

/// The number that a word spells, if it is one from `low` to `high`.
pub fn number_word(word: &[u8], low: u32, high: u32) -> Result<u32, LineCause>
    ensures value { result ≡ spec.number_word low high word.now }
    ensures within { IfOk result (λ n. (low ≤ n) × (n ≤ high)) }
{
    decimal_within(word, low, high).ok_or(LineCause::Number)
}

/// The number of an entity, by the widest table.
pub fn entity_word(word: &[u8]) -> Result<u16, LineCause>
    ensures { result ≡ spec.entity_word word.now }
{
    Ok(number_word(word, 0, LAST_ENTITY)? as u16)
}

/// The number of a client.
pub fn client_word(word: &[u8]) -> Result<u8, LineCause>
    ensures { result ≡ spec.client_word word.now }
{
    Ok(number_word(word, 0, 15)? as u8)
}
