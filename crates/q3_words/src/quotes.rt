//! Texts and bytes in quotes. Their spelling is this project's own.

ghost use Rattle.std.specs.Prelude.{◌≡◌, ◌<◌, length, option_map, IfOk, IfSome};
ghost use Rattle.q3_words.specs.Quotes.{coded_at, escaped_at, front_at, few_at, unquoted_at, most_config};
ghost use Rattle.q3_words.specs.Quotes as spec;

use crate::area::has_capital;
use crate::bytes::Bytes;
use crate::cause::LineCause;
use crate::words::{after_prefix, is};
use arrayvec::ArrayVec;
use q3_bits::NoMemory;
use q3_text::{LONGEST_TEXT, Text};
use std::alloc::Global;

/// The most bytes of the text of a config string in a script.
const MOST_CONFIG: usize = 9_000;

/// The byte that two hex digits with small letters spell.
fn hex_byte(high: u8, low: u8) -> Option<u8>
    ensures { result ≡ spec.hex_byte high low }
{
    if has_capital(&[high, low]) {
        return None;
    }
    let mut byte = [0];
    if hex::decode_to_slice([high, low], &mut byte).is_err() {
        return None;
    }
    Some(byte[0])
}

/// The byte that two digits spell, if it is spelled in hex: it doesn't print, and is neither a newline nor 0.
#[tactic(auto, unfolding(crate::specs::Quotes::coded_byte))]
fn coded_byte(high: u8, low: u8) -> Option<u8>
    ensures { result ≡ spec.coded_byte high low }
{
    match hex_byte(high, low)? {
        0 | b'\n' | 32..=126 => None,
        byte => Some(byte),
    }
}

/// The byte of two digits after `\x`, and the text after them.
fn coded(text: &[u8]) -> Option<(u8, &[u8])>
    ensures value { option_map (λ front. (front.0, front.1.now)) result ≡ coded_at text.now }
    ensures shorter { IfSome result (λ front. length front.1.now < length text.now) }
{
    match text {
        [high, low, rest @ ..] => Some((coded_byte(*high, *low)?, rest)),
        _ => None,
    }
}

/// The byte that is spelled by what follows a backslash, and the text after it.
fn escaped(text: &[u8]) -> Option<(u8, &[u8])>
    ensures value { option_map (λ front. (front.0, front.1.now)) result ≡ escaped_at text.now }
    ensures shorter { IfSome result (λ front. length front.1.now < length text.now) }
{
    let (letter, rest) = text.split_first()?;
    match *letter {
        b'"' => Some((b'"', rest)),
        b'\\' => Some((b'\\', rest)),
        b'n' => Some((b'\n', rest)),
        b'x' => coded(rest),
        _ => None,
    }
}

/// The byte whose spelling a text begins with, and the text after it.
#[tactic(auto, unfolding(crate::specs::Quotes::front_at))]
fn front(text: &[u8]) -> Option<(u8, &[u8])>
    ensures value { option_map (λ front. (front.0, front.1.now)) result ≡ front_at text.now }
    ensures shorter { IfSome result (λ front. length front.1.now < length text.now) }
{
    let (byte, rest) = text.split_first()?;
    match *byte {
        b'\\' => escaped(rest),
        b'"' => None,
        32..=126 => Some((*byte, rest)),
        _ => None,
    }
}

/// The bytes that a word in quotes spells, if they are at most `MOST`.
fn unquoted<const MOST: usize>(word: &[u8]) -> Option<ArrayVec<u8, MOST>>
    ensures { option_map (λ bytes. bytes.items) result ≡ few_at MOST word.now }
{
    let mut left = after_prefix(b"\"", word)?;
    let mut bytes = ArrayVec::new();
    while !is(left, b"\"") {
        let (byte, rest) = front(left)?;
        if bytes.is_full() {
            return None;
        }
        bytes.push(byte);
        left = rest;
    }
    Some(bytes)
}

/// How many bytes a word in quotes spells.
fn count_of(word: &[u8]) -> Option<usize>
    ensures { result ≡ option_map length (unquoted_at word.now) }
{
    let mut left = after_prefix(b"\"", word)?;
    let mut count = 0;
    while !is(left, b"\"") {
        left = front(left)?.1;
        count += 1;
    }
    Some(count)
}

/// The bytes that a word in quotes spells, in memory that was taken for `count` of them. `Err` is want of memory.
fn collect(alloc: Global, word: &[u8], count: usize) -> Result<Option<Bytes>, NoMemory>
    ensures { IfOk result (λ bytes. bytes ≡ unquoted_at word.now) }
{
    let Some(mut left) = after_prefix(b"\"", word) else {
        return Ok(None);
    };
    let mut bytes = Vec::with_capacity(alloc, count)?;
    while !is(left, b"\"") {
        let Some((byte, rest)) = front(left) else {
            return Ok(None);
        };
        bytes.push(byte)?;
        left = rest;
    }
    Ok(Some(Bytes::keep(bytes)))
}

/// The bytes of a config string's text that a word in quotes spells, as they are, in as much memory as they are.
/// `Err` is want of memory.
pub fn config_bytes(alloc: Global, word: &[u8]) -> Result<Option<Bytes>, NoMemory>
    ensures { IfOk result (λ bytes. bytes ≡ few_at most_config word.now) }
{
    match count_of(word) {
        Some(count) if count <= MOST_CONFIG => collect(alloc, word, count),
        _ => Ok(None),
    }
}

/// The text that a word in quotes spells, translated.
#[tactic(auto, using(crate::proofs::Coming::text_steps))]
pub fn text_word(word: &[u8]) -> Result<Text, LineCause>
    ensures { result ≡ spec.text_word word.now }
{
    let bytes = unquoted::<LONGEST_TEXT>(word).ok_or(LineCause::Text)?;
    Text::of(&bytes).ok().ok_or(LineCause::Text)
}
