//! Code words given as text: a letter for each bit. Keeps the rule "code words".

ghost use Rattle.std.specs.Prelude.{◌≡◌, ◌⊎◌, ◌<◌, ◌≤◌, ◌^◌, IfOk, MatchResult, Some, None, length, map};
ghost use Rattle.std.specs.List.{All, list_all, find, range_with_len};
ghost use Rattle.q3_bits.specs.declared.words.CodeError.TheVariants as errors;
ghost use Rattle.q3_bits.specs.Bits.{number_of};
ghost use Rattle.q3_bits.specs.Table.{bits_of_word, words_of, IsWord};
ghost use Rattle.q3_bits.specs.CodeWords.{texts_of, is_bit, bits_of_text, word_fault, words_fault, clashes};
ghost use Rattle.q3_bits.specs.CodeWords as spec;

use crate::code::Word;
use std::alloc::{AllocError, AllocFailed, Global};

/// Why texts are no code: the first rule that they break.
#[derive(Clone, Copy, Debug, PartialEq, Eq)]
pub enum CodeError {
    /// Want of memory.
    NoMemory,
    /// There aren't 256 words.
    Count,
    /// The word at this place is empty.
    Empty(usize),
    /// The word at this place has more than 24 bytes.
    Long(usize),
    /// The word at this place has a character other than `0` and `1`.
    NotBits(usize),
    /// The word at the first place begins the word at the second.
    Clash(usize, usize),
}

impl From<AllocError> for CodeError {
    ghost from_gives = { λ _ e. e ≡ errors.NoMemory };

    fn from(_: AllocError) -> CodeError {
        CodeError::NoMemory
    }
}

impl<T: Drop> From<AllocFailed<T>> for CodeError {
    ghost from_gives = { λ _ e. e ≡ errors.NoMemory };

    fn from(_: AllocFailed<T>) -> CodeError {
        CodeError::NoMemory
    }
}

/// The words that texts spell.
pub(crate) fn read_words(alloc: Global, texts: &[&str]) -> Result<Vec<Word>, CodeError>
    ensures exact { MatchResult result (λ _. words_fault 0 (texts_of texts.now) ≡ None)
        (λ e. (e ≡ errors.NoMemory) ⊎ (words_fault 0 (texts_of texts.now) ≡ Some e)) }
    ensures words { IfOk result (λ words. words_of words.items ≡ map bits_of_text (texts_of texts.now)) }
    ensures each { IfOk result (λ words. All IsWord words.items) }
{
    let mut words = Vec::with_capacity(alloc, 256)?;
    for (place, text) in texts.iter().enumerate() {
        words.push(read_word(place, text)?)?;
    }
    Ok(words)
}

/// The word that the text at a place spells.
#[tactic(auto, unfolding(crate::specs::CodeWords::word_fault))]
fn read_word(place: usize, text: &str) -> Result<Word, CodeError>
    ensures exact { MatchResult result (λ _. word_fault place text.now ≡ None)
        (λ e. word_fault place text.now ≡ Some e) }
    ensures bits { IfOk result (λ word. bits_of_word word ≡ bits_of_text text.now) }
    ensures word { IfOk result IsWord }
{
    let letters = text.as_bytes();
    if letters.is_empty() {
        return Err(CodeError::Empty(place));
    }
    if letters.len() > 24 {
        return Err(CodeError::Long(place));
    }
    if !are_bits(letters) {
        return Err(CodeError::NotBits(place));
    }
    Ok(Word {
        bits: bits_of(letters),
        length: letters.len() as u8,
    })
}

/// Whether each letter is a bit.
fn are_bits(letters: &[u8]) -> bool
    ensures { result ≡ list_all is_bit letters.now }
{
    for &letter in letters {
        if letter != b'0' && letter != b'1' {
            return false;
        }
    }
    true
}

/// The number that letters spell, first bit least.
fn bits_of(letters: &[u8]) -> u32
    requires { length letters.now ≤ 24 }
    ensures spells { result ≡ number_of (bits_of_text letters.now) }
    ensures fits { result < 2 ^ length letters.now }
{
    let mut bits = 0;
    for k in 0..letters.len() {
        if letters[k] == b'1' {
            bits += 1 << k;
        }
    }
    bits
}

/// The first pair of places whose words clash.
pub(crate) fn first_clash(words: &[Word]) -> Option<(usize, usize)>
    requires { All IsWord words.now }
    ensures { result ≡ spec.first_clash (words_of words.now) }
{
    for i in 0..words.len() {
        if let Some(j) = clash_with(words, i) {
            return Some((i, j));
        }
    }
    None
}

/// The first place at which a word clashes with the word at this place.
fn clash_with(words: &[Word], i: usize) -> Option<usize>
    requires words { All IsWord words.now }
    requires place { i < length words.now }
    ensures { result ≡ find (λ j. clashes (words_of words.now) (i, j)) (range_with_len 0 (length words.now)) }
{
    let word = words[i];
    for j in 0..words.len() {
        if i != j && words[j].starts_with(word.bits, u32::from(word.length)) {
            return Some(j);
        }
    }
    None
}
