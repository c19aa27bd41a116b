//! Bytes in hex in a line.

ghost use Rattle.std.specs.Prelude.{◌≡◌, option_map, IfOk};
ghost use Rattle.std.specs.List.{list_any};
ghost use Rattle.q3_words.specs.Hex.{is_capital, hex_within, area_at, handed_at};

use crate::bytes::Bytes;
use crate::words::is;
use arrayvec::ArrayVec;
use q3_bits::NoMemory;
use q3_player::MOST_AREA;
use std::alloc::Global;

/// The most bytes that are handed to an end.
const MOST_HANDED: usize = 16_400;

/// Whether a letter of a word is a capital.
pub fn has_capital(word: &[u8]) -> bool
    ensures { result ≡ list_any is_capital word.now }
{
    word.iter().any(|byte| byte.is_ascii_uppercase())
}

/// The bytes that a word spells, if they are at most `MOST`: some in hex with small letters, or none as `-`.
#[tactic(auto, using(crate::proofs::HexWords::none_empty, crate::proofs::HexWords::none_capital))]
pub fn hex_bytes<const MOST: usize>(word: &[u8]) -> Option<ArrayVec<u8, MOST>>
    ensures { option_map (λ bytes. bytes.items) result ≡ hex_within MOST word.now }
{
    if is(word, b"-") {
        return Some(ArrayVec::new());
    }
    if word.is_empty() || has_capital(word) {
        return None;
    }
    let count = word.len() / 2;
    if count > MOST {
        return None;
    }
    let mut bytes = ArrayVec::from([0; MOST]);
    bytes.truncate(count);
    if hex::decode_to_slice(word, bytes.as_mut_slice()).is_err() {
        return None;
    }
    Some(bytes)
}

/// The area bytes that a word spells.
pub fn area_bytes(word: &[u8]) -> Option<ArrayVec<u8, MOST_AREA>>
    ensures { result ≡ area_at word.now }
{
    hex_bytes::<MOST_AREA>(word)
}

/// The bytes that a word spells to be handed to an end, in as much memory as they are. `Err` is want of memory.
pub fn handed_bytes(alloc: Global, word: &[u8]) -> Result<Option<Bytes>, NoMemory>
    ensures { IfOk result (λ bytes. bytes ≡ handed_at word.now) }
{
    if is(word, b"-") {
        return Ok(Some(Bytes::of(alloc, b"")?));
    }
    if word.is_empty() || has_capital(word) || word.len() / 2 > MOST_HANDED {
        return Ok(None);
    }
    let mut bytes = vec![in alloc; 0; word.len() / 2]?;
    if hex::decode_to_slice(word, bytes.as_mut_slice()).is_err() {
        return Ok(None);
    }
    Ok(Some(Bytes::keep(bytes)))
}
