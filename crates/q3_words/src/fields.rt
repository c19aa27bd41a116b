//! Fields in a line, and the entity or the player that they make.

ghost use Rattle.std.specs.Prelude.{◌≡◌, ◌≤◌, ◌<◌, ◌^◌, length, IfSome};
ghost use Rattle.q3_fields.specs.Places.{with_changes};
ghost use Rattle.q3_words.specs.Words.{words_left};
ghost use Rattle.q3_words.specs.Fields.{field_at, fields_at, entity_at, player_at};

use crate::cause::LineCause;
use crate::words::{after_prefix, next_word};
use q3_entity::EntityState;
use q3_player::PlayerState;
use q3_player::state::shorts;
use q3_text::{cut_at, decimal_within};

/// The index and the value in a word of this letter: the index is from `least` up to below `limit`.
#[tactic(auto, unfolding(crate::specs::Fields::field_at))]
fn field(letter: &[u8], limit: u32, least: u32, word: &[u8]) -> Option<(u32, u32)>
    requires { 1 ≤ limit }
    ensures value { result ≡ field_at letter.now limit least word.now }
    ensures within { IfSome result (λ field. (least ≤ field.0) × (field.0 < limit)) }
{
    let text = after_prefix(letter, word)?;
    let (index, value) = cut_at(text, b':')?;
    let index = decimal_within(index, least, limit - 1)?;
    Some((index, decimal_within(value, 0, u32::MAX)?))
}

/// Puts the fields in the leading words of this letter over the values, by rising index, and answers what is left
/// after them. A field has no letter; the values of an array have one.
pub fn take_fields<'a>(letter: &[u8], values: &mut [u32], start: &'a [u8]) -> &'a [u8]
    requires { (1 ≤ length values.old) × (length values.old < 2 ^ 32) }
    ensures values { values.new ≡ with_changes values.old (fields_at letter.now (length values.old) 0
        (words_left start.now)).fields }
    ensures left { words_left result.now ≡ (fields_at letter.now (length values.old) 0 (words_left start.now)).left }
{
    let limit = values.len() as u32;
    let mut least = 0;
    let mut left = start;
    while let Some((word, others)) = next_word(left) {
        let Some((index, value)) = field(letter, limit, least, word) else {
            return left;
        };
        values[index as usize] = value;
        least = index + 1;
        left = others;
    }
    left
}

/// The state of the entity of this number that the words that are left spell.
#[tactic(auto, unfolding(crate::specs::Fields::entity_at))]
pub fn entity_state(number: u16, start: &[u8]) -> Result<EntityState, LineCause>
    ensures { result ≡ entity_at number (words_left start.now) }
{
    let mut words = [0; 64];
    let others = take_fields(b"", &mut words, start);
    if !others.is_empty() {
        return Err(LineCause::Fields);
    }
    Ok(EntityState { number, words })
}

/// The player that the words that are left spell.
#[tactic(auto, unfolding(crate::specs::Fields::player_at))]
pub fn player_state(start: &[u8]) -> Result<PlayerState, LineCause>
    ensures { result ≡ player_at (words_left start.now) }
{
    let mut words = [0; 64];
    let mut stats = [0; 16];
    let mut persistant = [0; 16];
    let mut ammo = [0; 16];
    let mut powerups = [0; 16];
    let left = take_fields(b"", &mut words, start);
    let left = take_fields(b"s", &mut stats, left);
    let left = take_fields(b"p", &mut persistant, left);
    let left = take_fields(b"a", &mut ammo, left);
    let left = take_fields(b"u", &mut powerups, left);
    if !left.is_empty() {
        return Err(LineCause::Fields);
    }
    Ok(PlayerState {
        words,
        stats: shorts(&stats),
        persistant: shorts(&persistant),
        ammo: shorts(&ammo),
        powerups,
    })
}
