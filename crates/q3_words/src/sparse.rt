//! Words that are mostly 0: those that aren't, each after its place.

ghost use Rattle.std.specs.Prelude.{◌≡◌, ◌+◌, ◌%◌, ◌≤◌, [], ◌∷◌, ◌++◌, length, replicate, IfOk};
ghost use Rattle.q3_fields.specs.Places.{AreRising, with_changes};
ghost use Rattle.q3_player.specs.Arrays.{changes_from};
ghost use Rattle.q3_player.specs.State.{patterns_of};

use q3_bits::NoMemory;
use q3_fields::agree;

/// Words that aren't 0, each after its place, by rising place.
pub(crate) type Places = Vec<(u8, u32)>;

/// How many words are looked at together.
const BLOCK: usize = 8;

/// How many words aren't 0.
pub(crate) fn count_words(words: &[u32]) -> usize
    requires { length words.now ≤ 256 }
    ensures { result ≤ length words.now }
{
    let mut count = 0;
    for k in 0..words.len() {
        count += u32::from(words[k] != 0);
    }
    count as usize
}

/// Signed values as words of 32 bits.
pub(crate) fn patterns(values: &[i16; 16]) -> [u32; 16]
    ensures { result ≡ patterns_of values.now }
{
    let mut words = [0; 16];
    for k in 0..16 {
        words[k] = i32::from(values[k]).cast_unsigned();
    }
    words
}

/// Puts a word after others, unless it is 0. `Err` is want of memory.
#[inline]
#[tactic(auto, unfolding(q3_player::specs::Arrays::changes_from))]
fn push_word(kept: &mut Places, place: u8, word: u32) -> Result<(), NoMemory>
    ensures { IfOk result (λ _. kept.new.items ≡ kept.old.items ++ changes_from place (0 ∷ []) (word ∷ [])) }
{
    if word == 0 {
        return Ok(());
    }
    kept.push((place, word))?;
    Ok(())
}

/// Puts words after others, one by one; the first of them has this place. `Err` is want of memory.
fn push_each(kept: &mut Places, first: u8, words: &[u32]) -> Result<(), NoMemory>
    requires { first + length words.now ≤ 256 }
    ensures { IfOk result (λ _. kept.new.items ≡ kept.old.items
        ++ changes_from first (replicate (length words.now) 0) words.now) }
{
    for k in 0..words.len() {
        push_word(kept, first + k as u8, words[k])?;
    }
    Ok(())
}

/// The same of a block, which most often is all 0.
#[inline]
fn push_block(kept: &mut Places, first: u8, block: &[u32]) -> Result<(), NoMemory>
    requires block { length block.now ≡ 8 }
    requires within { first ≤ 248 }
    ensures { IfOk result (λ _. kept.new.items ≡ kept.old.items ++ changes_from first (replicate 8 0) block.now) }
{
    if agree(block, &[0; BLOCK]) {
        return Ok(());
    }
    push_each(kept, first, block)
}

/// Puts words after others, block by block; the first of them has this place. `Err` is want of memory.
pub(crate) fn push_words(kept: &mut Places, first: u8, words: &[u32]) -> Result<(), NoMemory>
    requires blocks { length words.now % 8 ≡ 0 }
    requires within { first + length words.now ≤ 256 }
    ensures { IfOk result (λ _. kept.new.items ≡ kept.old.items
        ++ changes_from first (replicate (length words.now) 0) words.now) }
{
    for k in 0..words.len() / BLOCK {
        let start = k * BLOCK;
        push_block(kept, first + start as u8, &words[start..start + BLOCK])?;
    }
    Ok(())
}

/// Puts words over others, each at its place.
pub(crate) fn put(kept: &[(u8, u32)], words: &mut [u32])
    requires { AreRising (length words.old) 0 kept.now }
    ensures { words.new ≡ with_changes words.old kept.now }
{
    for k in 0..kept.len() {
        let (place, word) = kept[k];
        words[usize::from(place)] = word;
    }
}
