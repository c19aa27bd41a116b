//! Code words: the bits that stand for each byte of a message. Keeps the rule "code words".

ghost use Rattle.std.specs.Prelude.{◌≡◌, ◌⊎◌, ◌<◌, ◌≤◌, ◌^◌, Bool, List, All, IfOk, IfErr, IfSome, MatchResult, Some, None, length, map, min, take, drop};
ghost use Rattle.std.specs.Option.{is_some};
ghost use Rattle.q3_bits.specs.declared.words.CodeError.TheVariants as errors;
ghost use Rattle.q3_bits.specs.Bits.{number_of};
ghost use Rattle.q3_bits.specs.CodeWords.{texts_of, bits_of_text, code_fault};
ghost use Rattle.q3_bits.specs.Table.{bits_of_word, unindexed, IsWord, IsEntry, IsIndex};
ghost use Rattle.q3_bits.specs.Found.{found_in};
ghost use Rattle.q3_bits.specs.Words.{IsCode, plain_words, word_of, bits_after, byte_from, begins_word};

use crate::words::{CodeError, first_clash, read_words};
use std::alloc::{AllocError, Global};
use std::marker::Model;

/// Want of memory, and nothing else.
pub type NoMemory = AllocError;

/// The bits of a code word, least first, in the low `length` bits of a number.
#[derive(Clone, Copy)]
pub(crate) struct Word {
    pub(crate) bits: u32,
    pub(crate) length: u8,
}

/// A byte whose word begins some bits, and the word's length; `UNINDEXED` where none is named.
#[derive(Clone, Copy)]
pub(crate) struct Entry {
    pub(crate) byte: u8,
    pub(crate) length: u8,
}

/// Words up to this length are found by the next bits, so many.
const INDEXED: u32 = 12;

/// The length in an entry that names no word, since none of at most 12 bits begins its bits: more than the bits that a reader gathers,
/// so the test whether a word was gathered refuses it too.
pub(crate) const UNINDEXED: u8 = 64;

/// How many entries an index has: one for each 12 bits.
const ENTRIES: usize = 4_096;

impl Word {
    /// Whether these bits begin the word: `count` of them, 25 for more, of which `front` is the number that the first
    /// 24 spell.
    pub(crate) fn starts_with(self, front: u32, count: u32) -> bool
        requires { self.length ≤ 24 }
        ensures { (bits : List Bool) → count ≡ min 25 (length bits) → front ≡ number_of (take 24 bits)
            → result ≡ is_some (bits_after bits (bits_of_word self)) }
    {
        count <= u32::from(self.length) && self.bits % (1 << count) == front
    }
}

/// A table of 256 code words, one for each byte, of which none begins another. To a caller it is the list of the words.
#[derive(Drop)]
pub struct Code {
    words: Vec<Word>,
    index: Vec<Entry>,
}

impl Model for Code {
    ghost use Rattle.std.specs.Prelude.{◌≡◌, Bool, List, length};
    ghost use Rattle.q3_bits.specs.Table.{words_of, IsTable};

    ghost Value = { List (List Bool) };

    ghost view = { λ c. words_of c.words.items };

    ghost invariant = { IsTable };
}

impl Code {
    /// The plain code: the word of a byte is its eight bits, least first.
    /// `Err` is want of memory.
    pub fn plain(alloc: Global) -> Result<Code, NoMemory>
        ensures words { IfOk result (λ code. code ≡ plain_words) }
        ensures is_code { IfOk result IsCode }
    {
        let mut words = Vec::with_capacity(alloc, 256)?;
        for bits in 0..256 {
            words.push(Word { bits, length: 8 })?;
        }
        Ok(Code {
            index: index_of(alloc, &words)?,
            words,
        })
    }

    /// The code whose words these texts spell, the word of a byte at its place: `0` or `1` for each bit, first bit first.
    /// `Err` is want of memory, or the first of: other than 256 words; the first word that is empty, has more
    /// than 24 bytes or a character that is no bit; the first pair of places whose words clash.
    pub fn from_words(alloc: Global, words: &[&str]) -> Result<Code, CodeError>
        ensures exact { MatchResult result (λ _. code_fault (texts_of words.now) ≡ None)
            (λ e. (e ≡ errors.NoMemory) ⊎ (code_fault (texts_of words.now) ≡ Some e)) }
        ensures ok { code_fault (texts_of words.now) ≡ None → IfErr result (λ e. e ≡ errors.NoMemory) }
        ensures whole { IfOk result (λ code. code ≡ map bits_of_text (texts_of words.now)) }
        ensures is_code { IfOk result IsCode }
    {
        if words.len() != 256 {
            return Err(CodeError::Count);
        }
        let words = read_words(alloc, words)?;
        if let Some((i, j)) = first_clash(&words) {
            return Err(CodeError::Clash(i, j));
        }
        Ok(Code {
            index: index_of(alloc, &words)?,
            words,
        })
    }

    /// The same code once more. `Err` is want of memory.
    pub fn copy(&self) -> Result<Code, NoMemory>
        ensures copy { IfOk result (λ copy. copy ≡ self.now) }
        ensures is_code { IsCode self.now }
    {
        Ok(Code {
            words: self.words.clone()?,
            index: self.index.clone()?,
        })
    }

    /// The word of a byte.
    pub(crate) fn word(&self, byte: u8) -> Word
        ensures bits { bits_of_word result ≡ word_of self.now byte }
        ensures word { IsWord result }
        ensures is_code { IsCode self.now }
    {
        self.words[byte as usize]
    }

    /// Whether these bits begin a word: `count` of them, 25 for more, of which `front` is the number that the first 24
    /// spell.
    #[cold]
    #[inline(never)]
    pub(crate) fn begins_with(&self, front: u32, count: u32) -> bool
        ensures { (bits : List Bool) → count ≡ min 25 (length bits) → front ≡ number_of (take 24 bits)
            → result ≡ begins_word self.now bits }
    {
        for word in self.words.iter() {
            if word.starts_with(front, count) {
                return true;
            }
        }
        false
    }

    /// The byte whose word, of at most 12 bits, begins the bits to be read, and the word's length, by the number that
    /// the next 24 bits spell; `UNINDEXED` where none is named.
    pub(crate) fn entry(&self, window: u32) -> Entry
        ensures found { (left : List Bool) → window ≡ number_of (take 24 left) → result.length < unindexed
            → result.length ≤ length left
            → byte_from 0 self.now left ≡ Some (result.byte, drop result.length left) }
        ensures short { (result.length ≡ unindexed) ⊎ (result.length ≤ 12) }
    {
        self.index[(window % (1 << INDEXED)) as usize]
    }

    /// The byte whose word begins the bits to be read, and the word's length, one word after the other: `count` bits are
    /// left, 25 for more, and `window` is the number that the first 24 spell.
    #[cold]
    #[inline(never)]
    pub(crate) fn search(&self, window: u32, count: u32) -> Option<(u8, u8)>
        ensures found { (left : List Bool) → count ≡ min 25 (length left) → window ≡ number_of (take 24 left)
            → found_in left result ≡ byte_from 0 self.now left }
        ensures short { IfSome result (λ found. (found.1 ≤ 24) × (found.1 ≤ count)) }
    {
        for (byte, word) in self.words.iter().enumerate() {
            let length = u32::from(word.length);
            if length <= count && window % (1 << length) == word.bits {
                return Some((byte as u8, word.length));
            }
        }
        None
    }
}

/// The index of these words.
fn index_of(alloc: Global, words: &[Word]) -> Result<Vec<Entry>, NoMemory>
    requires few { length words.now ≡ 256 }
    requires words { All IsWord words.now }
    ensures { IfOk result (λ index. IsIndex words.now index.items) }
{
    let mut entries = Vec::with_capacity(alloc, ENTRIES)?;
    for k in 0..ENTRIES {
        entries.push(entry_of(words, k as u32))?;
    }
    Ok(entries)
}

/// The first word of at most 12 bits that begins these 12; `UNINDEXED` where none does.
fn entry_of(words: &[Word], bits: u32) -> Entry
    requires few { length words.now ≡ 256 }
    requires words { All IsWord words.now }
    ensures { IsEntry words.now bits result }
{
    for (byte, word) in words.iter().enumerate() {
        if u32::from(word.length) <= INDEXED && bits % (1 << word.length) == word.bits {
            return Entry {
                byte: byte as u8,
                length: word.length,
            };
        }
    }
    Entry {
        byte: 0,
        length: UNINDEXED,
    }
}
