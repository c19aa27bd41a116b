//! Bytes that are read field by field.

ghost use Rattle.std.specs.Prelude.{◌≡◌, ◌+◌, ◌<◌, ◌^◌, true, length};
ghost use Rattle.std.specs.List.{list_all};
ghost use Rattle.std.specs.Result.{result_map_both};
ghost use Rattle.q3_fields.specs.Kinds.{IsKind};
ghost use Rattle.q3_savestate.specs.Cursor.{found, field_at, number_at, text_at, end_at};
ghost use Rattle.q3_savestate.specs.Cursor as spec;
ghost use Rattle.q3_savestate.specs.Entities.{word_at};

use byteorder::{ByteOrder, LittleEndian};
use q3_fields::{Kind, norm};
use std::marker::Model;

/// The bytes that are left, and their place. Each call reads a field and moves on past it, or answers the field's place where it is cut
/// short or breaks the rule that the call names; after that nothing is told of the cursor.
#[derive(Drop)]
pub struct Cursor<'a> {
    left: &'a [u8],
    place: usize,
}

impl<'a> Model for Cursor<'a> {
    ghost use Rattle.std.specs.Prelude.{◌+◌, ◌<◌, ◌^◌, length};
    ghost use Rattle.q3_savestate.specs.Cursor.{Cursor};

    ghost Value = { Cursor };

    ghost view = { λ c. record { at = c.place; bytes = c.left.now } };

    ghost invariant = { λ c. c.place + length c.left.now < 2 ^ 64 };
}

impl<'a> Cursor<'a> {
    /// Reads these bytes, the first of which has this place.
    pub fn new(bytes: &'a [u8], place: usize) -> Cursor<'a>
        requires { place + length bytes.now < 2 ^ 64 }
        ensures { result ≡ record { at = place; bytes = bytes.now } }
    {
        Cursor { left: bytes, place }
    }

    /// The place of the next field.
    pub fn place(&self) -> usize
        ensures { result ≡ self.now.at }
    {
        self.place
    }

    /// A byte from `least` to `most`.
    pub fn byte(&mut self, least: u8, most: u8) -> Result<u8, usize>
        ensures { found result self.new ≡ number_at 1 least most self.old }
    {
        let place = self.place;
        let byte = self.take(1)?[0];
        if byte < least || most < byte {
            return Err(place);
        }
        Ok(byte)
    }

    /// A number of two bytes from `least` to `most`.
    pub fn short(&mut self, least: u16, most: u16) -> Result<u16, usize>
        ensures { found result self.new ≡ number_at 2 least most self.old }
    {
        let place = self.place;
        let number = LittleEndian::read_u16(self.take(2)?);
        if number < least || most < number {
            return Err(place);
        }
        Ok(number)
    }

    /// A number of four bytes from `least` to `most`.
    pub fn long(&mut self, least: u32, most: u32) -> Result<u32, usize>
        ensures { found result self.new ≡ number_at 4 least most self.old }
    {
        let place = self.place;
        let number = LittleEndian::read_u32(self.take(4)?);
        if number < least || most < number {
            return Err(place);
        }
        Ok(number)
    }

    /// A number of eight bytes from `least` to `most`.
    pub fn wide(&mut self, least: u64, most: u64) -> Result<u64, usize>
        ensures { found result self.new ≡ number_at 8 least most self.old }
    {
        let place = self.place;
        let number = LittleEndian::read_u64(self.take(8)?);
        if number < least || most < number {
            return Err(place);
        }
        Ok(number)
    }

    /// A field's word of four bytes, in normal form.
    pub fn word(&mut self, kind: Kind) -> Result<u32, usize>
        requires { IsKind kind }
        ensures { found result self.new ≡ word_at kind self.old }
    {
        let place = self.place;
        let word = LittleEndian::read_u32(self.take(4)?);
        if norm(kind, word) != word {
            return Err(place);
        }
        Ok(word)
    }

    /// So many bytes, whatever they are.
    pub fn take(&mut self, count: usize) -> Result<&'a [u8], usize>
        ensures { found (result_map_both (λ bytes. bytes.now) (λ place. place) result) self.new ≡ field_at count
            (λ bytes. bytes) (λ bytes. true) self.old }
    {
        if self.left.len() < count {
            return Err(self.place);
        }
        let (bytes, left) = self.left.split_at(count);
        self.left = left;
        self.place += count;
        Ok(bytes)
    }

    /// So many bytes that a text may hold.
    pub fn text(&mut self, count: usize) -> Result<&'a [u8], usize>
        ensures { found (result_map_both (λ bytes. bytes.now) (λ place. place) result) self.new
            ≡ text_at count self.old }
    {
        let place = self.place;
        let bytes = self.take(count)?;
        if !are_text_bytes(bytes) {
            return Err(place);
        }
        Ok(bytes)
    }

    /// `Err` is the place of the first byte that is left, if any is.
    pub fn end(&self) -> Result<(), usize>
        ensures { result ≡ end_at self.now }
    {
        if self.left.is_empty() {
            Ok(())
        } else {
            Err(self.place)
        }
    }
}

/// Whether a text may hold these bytes.
fn are_text_bytes(bytes: &[u8]) -> bool
    ensures { result ≡ list_all spec.is_text_byte bytes.now }
{
    bytes.iter().all(|byte| is_text_byte(*byte))
}

/// Whether a text may hold a byte.
fn is_text_byte(byte: u8) -> bool
    ensures { result ≡ spec.is_text_byte byte }
{
    matches!(byte, 1..=127) && byte != b'%'
}
