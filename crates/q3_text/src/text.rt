//! Texts: the strings of messages. Keeps the rule "strings and their translation", which is the engine's
//! `MSG_WriteString` and `MSG_ReadString` (msg.c).

ghost use Rattle.std.specs.Prelude.{◌≡◌, ◌<◌, ◌==◌, ◌||◌, ◌≤◌, nat_lt, [], ◌∷◌, ◌++◌, length, take, slice_set};
ghost use Rattle.q3_text.specs.Texts.{IsText, most_bytes, translated, text_of};

use crate::cut::place_of;
use arrayvec::ArrayVec;
use std::marker::Model;

/// The most bytes of a text: the engine's buffer has 1,024, and the last is its end.
pub const LONGEST_TEXT: usize = 1_023;

/// Why bytes are no text: the first of these.
#[derive(Clone, Copy, Debug, PartialEq, Eq)]
pub enum TextError {
    /// They are more than 1,023.
    Long,
    /// One of them is 0, at this place first.
    Zero(usize),
}

/// A string of a message: at most 1,023 bytes, each 1 to 127 and none a `%`. To a caller it is the list of its bytes.
#[derive(Debug, PartialEq, Eq, Drop)]
pub struct Text {
    bytes: ArrayVec<u8, LONGEST_TEXT>,
}

impl Model for Text {
    ghost use Rattle.std.specs.Prelude.{ℕ, List};
    ghost use Rattle.q3_text.specs.Texts.{IsText};

    ghost Value = { List ℕ };

    ghost view = { λ text. text.bytes.items };

    ghost invariant = { λ text. IsText text.bytes.items };

    ghost inverse = { λ bytes. record { bytes = record { items = bytes } } };
}

/// A command of the server or of a client, with its number in the row of those that its end issued.
#[derive(Debug, Default, PartialEq, Eq, Drop)]
pub struct Command {
    pub number: u32,
    pub text: Text,
}

/// Commands in two pieces, as a window lends them: `head`, followed by `tail`.
#[derive(Clone, Copy)]
pub struct CommandRun<'a> {
    pub head: &'a [Command],
    pub tail: &'a [Command],
}

impl Command {
    /// Becomes the same as another command. As many bytes are copied as the other's text has.
    pub fn copy_from(&mut self, other: &Command)
        ensures { self.new ≡ other.now }
    {
        self.number = other.number;
        self.text.copy_from(&other.text);
    }
}

impl Default for Text {
    ghost is_default = { λ text. text ≡ [] };

    fn default() -> Text {
        Text::new()
    }
}

/// Whether a text has a `.` in place of this byte.
#[inline]
fn is_dotted(byte: u8) -> bool
    ensures { result ≡ nat_lt 127 byte || byte == 37 }
{
    byte > 127 || byte == b'%'
}

/// A byte as a text keeps it: `.` for a byte above 127 and for `%`, every other byte as it is.
pub fn translate(byte: u8) -> u8
    ensures { result ≡ translated byte }
{
    if is_dotted(byte) { b'.' } else { byte }
}

impl Text {
    /// The text with no bytes.
    pub fn new() -> Text
        ensures { result ≡ [] }
    {
        Text {
            bytes: ArrayVec::new(),
        }
    }

    /// The text of bytes, each translated. `Err` is the first of: more than 1,023 bytes; a byte 0, with its place.
    #[tactic(auto, unfolding(crate::specs::Texts::text_of, crate::specs::Texts::text_fault))]
    pub fn of(bytes: &[u8]) -> Result<Text, TextError>
        ensures exact { result ≡ text_of bytes.now }
    {
        if bytes.len() > LONGEST_TEXT {
            return Err(TextError::Long);
        }
        if let Some(place) = place_of(0, bytes) {
            return Err(TextError::Zero(place));
        }
        let mut kept = ArrayVec::new();
        for byte in bytes {
            kept.push(translate(*byte));
        }
        Ok(Text { bytes: kept })
    }

    /// Has no bytes from now on.
    pub fn clear(&mut self)
        ensures { self.new ≡ [] }
    {
        self.bytes.clear();
    }

    /// Keeps so many of its bytes, the first; all where it has no more.
    pub fn truncate(&mut self, count: usize)
        ensures { self.new ≡ take count self.old }
    {
        self.bytes.truncate(count);
    }

    /// How many bytes the text has.
    pub fn len(&self) -> usize
        ensures count { result ≡ length self.now }
        ensures few { length self.now ≤ most_bytes }
    {
        self.bytes.len()
    }

    /// Writes a byte, translated, over the one at this place.
    #[inline(always)]
    pub fn set(&mut self, place: usize, byte: u8)
        requires there { place < length self.old }
        requires some { 0 < byte }
        ensures { self.new ≡ slice_set self.old place (translated byte) }
    {
        if is_dotted(byte) {
            self.set_dot(place);
            return;
        }
        self.bytes.as_mut_slice()[place] = byte;
    }

    /// Writes a `.` over the byte at this place, as seldom as it is.
    #[cold]
    #[inline(never)]
    fn set_dot(&mut self, place: usize)
        requires { place < length self.old }
        ensures { self.new ≡ slice_set self.old place 46 }
    {
        self.bytes.as_mut_slice()[place] = b'.';
    }

    /// Puts one more byte after the others, translated.
    pub fn push(&mut self, byte: u8)
        requires room { length self.old < most_bytes }
        requires some { 0 < byte }
        ensures { self.new ≡ self.old ++ translated byte ∷ [] }
    {
        if is_dotted(byte) {
            self.push_dot();
            return;
        }
        self.bytes.push(byte);
    }

    /// Puts a `.` after the others, as seldom as it is.
    #[cold]
    #[inline(never)]
    fn push_dot(&mut self)
        requires { length self.old < most_bytes }
        ensures { self.new ≡ self.old ++ 46 ∷ [] }
    {
        self.bytes.push(b'.');
    }

    /// The bytes of the text.
    pub fn bytes(&self) -> &[u8]
        ensures bytes { result.now ≡ self.now }
        ensures is_text { IsText self.now }
    {
        &self.bytes
    }

    /// Becomes the same as another text. As many bytes are copied as the other has.
    #[inline(never)]
    pub fn copy_from(&mut self, other: &Text)
        ensures { self.new ≡ other.now }
    {
        // the bytes of a text as long are written over, and need no clearing
        if self.bytes.len() == other.bytes.len() {
            self.bytes.as_mut_slice().copy_from_slice(&other.bytes);
            return;
        }
        self.bytes.clear();
        let _ = self.bytes.try_extend_from_slice(&other.bytes);
    }

    /// Another text with the same bytes.
    pub fn copy(&self) -> Text
        ensures { result ≡ self.now }
    {
        let mut text = Text::new();
        text.copy_from(self);
        text
    }
}
