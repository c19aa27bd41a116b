//! Changes of config strings as commands are written: the rule "config changes as commands", the engine's
//! `SV_SendConfigstring` (sv_init.c).

ghost use Rattle.std.specs.Prelude.{◌≡◌, ◌<◌, ◌≤◌, ◌+◌, ◌*◌, ◌++◌, length, map, take, drop, All, IsTrue, if◌then◌else◌, nat_lt};
ghost use Rattle.arrayvec.specs.ArrayVec.{array_vec_len};
ghost use Rattle.q3_text.specs.Texts.{most_bytes, translated};
ghost use Rattle.q3_config.specs.Strings.{places, is_config_byte};
ghost use Rattle.q3_config.specs.Commands.{spelled, piece_count, word_of, change_text, config_piece};
ghost use Rattle.q3_config.specs.Parts.{meant};

use crate::shapes::Word;
use arrayvec::ArrayVec;
use itoa::Buffer;
use q3_text::laws::text_laws;
use q3_text::{LONGEST_TEXT, Text};

/// A text below this length goes whole.
const WHOLE_BELOW: usize = 1_000;

/// So many bytes a piece has, but the last may have fewer.
const PIECE_SIZE: usize = 999;

/// How many commands a change to a text of so many bytes takes.
#[tactic(auto, unfolding(crate::specs::Commands::piece_count))]
pub fn pieces(length: usize) -> usize
    ensures { result ≡ piece_count length }
{
    if length < WHOLE_BELOW {
        1
    } else {
        length.div_ceil(PIECE_SIZE)
    }
}

/// The command at an index k of those that change a string to this text: `cs INDEX "TEXT"` and a newline where the text
/// has fewer than 1,000 bytes. A longer text goes in pieces of 999 bytes, with `bcs0` for the first, `bcs2` for the one
/// after which nothing is left, and `bcs1` between. Each `%` goes out as `.`.
pub fn piece(index: u32, text: &[u8], k: usize) -> Text
    requires index { index < places }
    requires chars { All (λ byte. IsTrue (is_config_byte byte)) text.now }
    requires k { k < piece_count (length text.now) }
    ensures { result ≡ change_text (config_piece index text.now k) }
{
    spell(word_at(pieces(text.len()), k), index, part_at(text, k))
}

/// A change as the text of a command.
fn spell(word: Word, index: u32, text: &[u8]) -> Text
    requires index { index < places }
    requires chars { All (λ byte. IsTrue (is_config_byte byte)) text.now }
    requires short { length text.now ≤ 999 }
    ensures { result ≡ change_text (record { word = meant word; index = index; text = map translated text.now }) }
{
    let mut number = Buffer::new();
    let mut bytes = ArrayVec::new();
    extend(&mut bytes, word.spelled());
    extend(&mut bytes, b" ");
    extend(&mut bytes, number.format(index).as_bytes());
    extend(&mut bytes, b" \"");
    extend(&mut bytes, text);
    extend(&mut bytes, b"\"\n");
    text_laws();
    Text::of(&bytes).unwrap()
}

/// The word of a piece.
#[tactic(auto, unfolding(crate::specs::Commands::word_of))]
fn word_at(count: usize, k: usize) -> Word
    requires { k < count }
    ensures { meant result ≡ word_of count k }
{
    if count == 1 {
        Word::Whole
    } else if k == 0 {
        Word::First
    } else if k + 1 == count {
        Word::Last
    } else {
        Word::Middle
    }
}

/// The bytes of a piece.
fn part_at(text: &[u8], k: usize) -> &[u8]
    requires { k < piece_count (length text.now) }
    ensures { result.now ≡ (if nat_lt (length text.now) 1000 then text.now else take 999 (drop (999 * k) text.now)) }
{
    if text.len() < WHOLE_BELOW {
        return text;
    }
    let rest = &text[PIECE_SIZE * k..];
    &rest[..rest.len().min(PIECE_SIZE)]
}

/// Puts a text after bytes.
fn extend(bytes: &mut ArrayVec<u8, LONGEST_TEXT>, text: &[u8])
    requires { array_vec_len bytes.old + length text.now ≤ most_bytes }
    ensures items { bytes.new.items ≡ bytes.old.items ++ text.now }
    ensures length { array_vec_len bytes.new ≡ array_vec_len bytes.old + length text.now }
{
    let _ = bytes.try_extend_from_slice(text);
}
