//! A writer of bit messages. Keeps the rules "bit order of a field" and "padding and the longest message".

ghost use Rattle.std.specs.Prelude.{◌≡◌, ◌+◌, ◌*◌, ◌/◌, ◌%◌, ◌^◌, ◌<◌, ◌≤◌, ◌↔◌, ◌++◌, ℕ, [], length, take, drop, IsTrue, OnErr, slice_index, All};
ghost use Rattle.q3_bits.specs.Bits.{low_bits, message_bytes, message_length};
ghost use Rattle.q3_bits.specs.Words.{field_bits, row_bits, bytes_bits};
ghost use Rattle.q3_bits.specs.Streams.{Writes};
ghost use Rattle.q3_bits.specs.Buffer.{bits_within, IsClear};
ghost use Rattle.q3_bits.specs.Table.{bits_of_word, IsWord};
ghost use Rattle.std.specs.Int.{w64, to_le_bytes};

use crate::code::{Code, Word};
use std::marker::Model;

/// The longest message, in bytes, the engine's `MAX_MSGLEN` (qcommon.h).
pub const LONGEST_MESSAGE: usize = 16_384;

/// The field doesn't fit the room of the message.
#[derive(Clone, Copy, Debug, PartialEq, Eq)]
pub struct Overflow;

/// Writes fields of bits, each after the last, into a message of at most `room` bytes.
#[derive(Drop)]
pub struct Writer<'a> {
    code: &'a Code,
    room: usize,
    count: usize,
    bytes: [u8; LONGEST_MESSAGE],
}

impl<'a> Model for Writer<'a> {
    ghost use Rattle.q3_bits.specs.Streams.{Writing};

    ghost Value = { Writing };

    ghost use Rattle.q3_bits.specs.Buffer.{writing_of, IsWritten};

    ghost view = { writing_of };

    ghost invariant = { IsWritten };
}

/// So many zeros.
#[inline(always)]
fn zeros<const N: usize>() -> [u8; N]
    ensures { (k : ℕ) → slice_index result k ≡ 0 }
{
    [0; N]
}

/// So many of the first bytes.
fn front(bytes: &[u8], count: usize) -> &[u8]
    requires { count ≤ length bytes.now }
    ensures front { result.now ≡ take count bytes.now }
    ensures bytes { All (λ byte. byte < 256) bytes.now }
{
    &bytes[..count]
}

impl<'a> Writer<'a> {
    /// A message of at most `room` bytes, 1 to 16,384, with no bits yet.
    pub fn new(code: &'a Code, room: usize) -> Writer<'a>
        requires some { 1 ≤ room }
        requires most { room ≤ 16384 }
        ensures { result ≡ record { words = code.now; bits = []; room = room } }
    {
        Writer {
            code,
            room,
            count: 0,
            bytes: zeros(),
        }
    }

    /// Writes the low `width` bits of a value, 1 to 32, after what is written:
    /// the bits over whole bytes raw, least bit first, then the bytes as their words, least byte first.
    /// `Overflow` comes exactly where the message would be longer than its room; the writer then stays as it was.
    #[inline]
    pub fn put(&mut self, value: u32, width: u32) -> Result<(), Overflow>
        requires some { 1 ≤ width }
        requires most { width ≤ 32 }
        ensures writes { Writes self.old self.new (field_bits self.old.words width value) result }
        ensures err { OnErr result (self.new ≡ self.old) }
    {
        let raw = width % 8;
        if width < 8 {
            return self.put_bits(value % (1 << raw), width);
        }
        self.put_words(value % (1 << raw), raw, value >> raw, width / 8)
    }

    /// Writes a mark of up to 7 bits, and a field of 1 to 32 after it, each as `put` writes it, at once.
    /// `Overflow` comes exactly where the message would be longer than its room; the writer then stays as it was.
    pub fn put_marked(
        &mut self,
        mark: u32,
        count: u32,
        value: u32,
        width: u32,
    ) -> Result<(), Overflow>
        requires short { count ≤ 7 }
        requires some { 1 ≤ width }
        requires most { width ≤ 32 }
        ensures writes { Writes self.old self.new (field_bits self.old.words count mark
            ++ field_bits self.old.words width value) result }
        ensures err { OnErr result (self.new ≡ self.old) }
    {
        let raw = width % 8;
        let bits = mark % (1 << count) + ((value % (1 << raw)) << count);
        self.put_words(bits, count + raw, value >> raw, width / 8)
    }

    /// Writes a field, a mark of up to 7 bits after it, and another field after that, each a value and its width, as
    /// `put` writes them: at once where 56 bits are enough. The fields have at most 15 bits.
    /// `Overflow` comes exactly where the message would be longer than its room; a front of the three then stands there.
    pub fn put_three(
        &mut self,
        first: (u32, u32),
        mark: (u32, u32),
        last: (u32, u32),
    ) -> Result<(), Overflow>
        requires some { 1 ≤ first.1 }
        requires most { first.1 ≤ 15 }
        requires short { mark.1 ≤ 7 }
        requires some_last { 1 ≤ last.1 }
        requires most_last { last.1 ≤ 15 }
        ensures { Writes self.old self.new (field_bits self.old.words first.1 first.0
            ++ (field_bits self.old.words mark.1 mark.0 ++ field_bits self.old.words last.1 last.0)) result }
    {
        let front = short_field(self.code, (0, 0), first);
        let back = short_field(self.code, mark, last);
        let count = front.count + back.count;
        if count > 56 {
            return self.put_apart(first, mark, last);
        }
        if !self.has_room(count) {
            return Err(Overflow);
        }
        let bits = front.bits + (back.bits << front.count);
        self.push(bits, count);
        Ok(())
    }

    /// The same, one after the other.
    #[cold]
    #[inline(never)]
    fn put_apart(
        &mut self,
        first: (u32, u32),
        mark: (u32, u32),
        last: (u32, u32),
    ) -> Result<(), Overflow>
        requires some { 1 ≤ first.1 }
        requires most { first.1 ≤ 15 }
        requires short { mark.1 ≤ 7 }
        requires some_last { 1 ≤ last.1 }
        requires most_last { last.1 ≤ 15 }
        ensures { Writes self.old self.new (field_bits self.old.words first.1 first.0
            ++ (field_bits self.old.words mark.1 mark.0 ++ field_bits self.old.words last.1 last.0)) result }
    {
        self.put(first.0, first.1)?;
        self.put_marked(mark.0, mark.1, last.0, last.1)
    }

    /// Writes raw bits, so many, given as the number that they spell.
    fn put_bits(&mut self, bits: u32, count: u32) -> Result<(), Overflow>
        requires few { count ≤ 7 }
        requires fits { bits < 2 ^ count }
        ensures writes { Writes self.old self.new (low_bits count bits) result }
        ensures err { OnErr result (self.new ≡ self.old) }
    {
        if !self.has_room(count) {
            return Err(Overflow);
        }
        self.push(u64::from(bits), count);
        Ok(())
    }

    /// Writes raw bits, so many, given as the number that they spell, and after them the words of a value's bytes, so
    /// many.
    #[inline(never)]
    fn put_words(&mut self, raw: u32, count: u32, value: u32, bytes: u32) -> Result<(), Overflow>
        requires few { count ≤ 14 }
        requires fits { raw < 2 ^ count }
        requires few_bytes { bytes ≤ 4 }
        ensures writes { Writes self.old self.new (low_bits count raw ++ bytes_bits self.old.words bytes value)
            result }
        ensures err { OnErr result (self.new ≡ self.old) }
    {
        let first = bytes.min(2);
        let low = gather(self.code, value, first);
        let high = gather(self.code, value >> 16, bytes - first);
        if !self.has_room(count + low.count + high.count) {
            return Err(Overflow);
        }
        self.push_words(raw, count, low, high);
        Ok(())
    }

    /// Writes a row of fields, each a value and its width, one after the other, each as `put` writes it.
    /// `Overflow` comes exactly where the message would be longer than its room; a front of the row then stands there.
    pub fn put_all(&mut self, fields: &[(u32, u32)]) -> Result<(), Overflow>
        requires widths { All (λ field. (1 ≤ field.1) × (field.1 ≤ 32)) fields.now }
        ensures { Writes self.old self.new (row_bits self.old.words fields.now) result }
    {
        // what stands there fits the room
        prove!(self.length() > 0);
        for (value, width) in fields {
            self.put(*value, *width)?;
        }
        Ok(())
    }

    /// The message's length in bytes: one more than its bits fill.
    pub fn length(&self) -> usize
        ensures length { result ≡ message_length (length self.now.bits) }
        ensures within { result ≤ self.now.room }
    {
        self.count / 8 + 1
    }

    /// The message: its bits, and zeros to the end of the last byte.
    pub fn bytes(&self) -> &[u8]
        ensures message { result.now ≡ message_bytes self.now.bits }
        ensures within { length result.now ≤ self.now.room }
    {
        front(&self.bytes, self.count / 8 + 1)
    }

    /// Copies the message to the front of a buffer that has room for it, and answers how many bytes it has.
    pub fn copy_to(&self, into: &mut [u8]) -> usize
        requires { message_length (length self.now.bits) ≤ length into.old }
        ensures count { result ≡ message_length (length self.now.bits) }
        ensures copied { into.new ≡ message_bytes self.now.bits ++ drop result into.old }
    {
        let bytes = self.bytes();
        into[..bytes.len()].copy_from_slice(bytes);
        bytes.len()
    }

    /// Whether so many bits more fit.
    fn has_room(&self, count: u32) -> bool
        ensures { IsTrue result ↔ (message_length (length self.now.bits + count) ≤ self.now.room) }
    {
        (self.count + count as usize) / 8 < self.room
    }

    /// Writes raw bits, so many, given as the number that they spell, and words after them: at once where 56 bits are
    /// enough.
    fn push_words(&mut self, raw: u32, count: u32, low: Gathered, high: Gathered)
        requires few { count ≤ 14 }
        requires fits { raw < 2 ^ count }
        requires few_low { low.count ≤ 48 }
        requires low_fits { low.bits < 2 ^ low.count }
        requires few_high { high.count ≤ 48 }
        requires high_fits { high.bits < 2 ^ high.count }
        requires room { message_length (length self.old.bits + (count + low.count + high.count)) ≤ self.old.room }
        ensures { self.new ≡ record self.old {
          bits = self.old.bits
              ++ (low_bits count raw ++ (low_bits low.count low.bits ++ low_bits high.count high.bits));
        } }
    {
        let front = count + low.count;
        if front + high.count <= 56 {
            let bits = u64::from(raw) + (low.bits << count);
            self.push(bits + (high.bits << front), front + high.count);
            return;
        }
        self.push_each(raw, count, low, high);
    }

    /// The same, one after the other.
    #[cold]
    #[inline(never)]
    fn push_each(&mut self, raw: u32, count: u32, low: Gathered, high: Gathered)
        requires few { count ≤ 14 }
        requires fits { raw < 2 ^ count }
        requires few_low { low.count ≤ 48 }
        requires low_fits { low.bits < 2 ^ low.count }
        requires few_high { high.count ≤ 48 }
        requires high_fits { high.bits < 2 ^ high.count }
        requires room { message_length (length self.old.bits + (count + low.count + high.count)) ≤ self.old.room }
        ensures { self.new ≡ record self.old {
          bits = self.old.bits
              ++ (low_bits count raw ++ (low_bits low.count low.bits ++ low_bits high.count high.bits));
        } }
    {
        self.push(u64::from(raw), count);
        self.push(low.bits, low.count);
        self.push(high.bits, high.count);
    }

    /// Writes bits, so many, given as the number that they spell.
    fn push(&mut self, bits: u64, count: u32)
        requires few { count ≤ 56 }
        requires fits { bits < 2 ^ count }
        requires room { message_length (length self.old.bits + count) ≤ self.old.room }
        ensures { self.new ≡ record self.old { bits = self.old.bits ++ low_bits count bits } }
    {
        store(&mut self.bytes, self.count, bits, count);
        self.count += count as usize;
    }
}

/// Bits, so many, given as the number that they spell.
#[derive(Clone, Copy)]
pub(crate) struct Gathered {
    pub(crate) bits: u64,
    pub(crate) count: u32,
}

/// The words of a value's bytes, up to two, least byte first.
pub(crate) fn gather(code: &Code, value: u32, count: u32) -> Gathered
    requires { count ≤ 2 }
    ensures words { low_bits result.count result.bits ≡ bytes_bits code.now count value }
    ensures fits { result.bits < 2 ^ result.count }
    ensures few { result.count ≤ 24 * count }
{
    if count == 0 {
        return Gathered { bits: 0, count: 0 };
    }
    let low = code.word((value % 256) as u8);
    if count == 1 {
        return Gathered {
            bits: u64::from(low.bits),
            count: u32::from(low.length),
        };
    }
    two_words(low, code.word((value / 256 % 256) as u8))
}

/// A mark of up to 7 bits, and a field of at most 15 after it, each a value and its width.
fn short_field(code: &Code, mark: (u32, u32), field: (u32, u32)) -> Gathered
    requires short { mark.1 ≤ 7 }
    requires most { field.1 ≤ 15 }
    ensures text { low_bits result.count result.bits ≡ field_bits code.now mark.1 mark.0
        ++ field_bits code.now field.1 field.0 }
    ensures fits { result.bits < 2 ^ result.count }
    ensures few { result.count ≤ 38 }
{
    let raw = field.1 % 8;
    let low = mark.0 % (1 << mark.1) + ((field.0 % (1 << raw)) << mark.1);
    let words = gather(code, field.0 >> raw, field.1 / 8);
    let count = mark.1 + raw;
    let bits = u64::from(low) + (words.bits << count);
    Gathered {
        bits,
        count: count + words.count,
    }
}

/// Two words, one after the other.
fn two_words(low: Word, high: Word) -> Gathered
    requires low { IsWord low }
    requires high { IsWord high }
    ensures bits { low_bits result.count result.bits ≡ bits_of_word low ++ bits_of_word high }
    ensures fits { result.bits < 2 ^ result.count }
    ensures few { result.count ≤ 48 }
{
    let length = u32::from(low.length);
    Gathered {
        bits: u64::from(low.bits) + (u64::from(high.bits) << length),
        count: length + u32::from(high.length),
    }
}

/// Writes bits after those that lie in the bytes, `place` of them.
fn store(bytes: &mut [u8; LONGEST_MESSAGE], place: usize, bits: u64, count: u32)
    requires few { count ≤ 56 }
    requires fits { bits < 2 ^ count }
    requires within { (place + count) / 8 < 16384 }
    requires clear { IsClear bytes.old place }
    ensures bits { bits_within bytes.new (place + count) ≡ bits_within bytes.old place ++ low_bits count bits }
    ensures clear { IsClear bytes.new (place + count) }
{
    let first = place / 8;
    // all but the last bytes have seven after them, and what follows those that are written is 0
    if first > LONGEST_MESSAGE - 8 {
        return store_each(bytes, place, bits, count);
    }
    let rest = u64::from(bytes[first]) + (bits << (place % 8));
    store_eight(bytes, first, rest);
}

/// Writes the eight bytes of a number from a place on, least byte first.
fn store_eight(bytes: &mut [u8], first: usize, number: u64)
    requires { first + 8 ≤ length bytes.old }
    ensures front { take (first + 8) bytes.new ≡ take first bytes.old ++ to_le_bytes w64 number }
    ensures after { drop (first + 8) bytes.new ≡ drop (first + 8) bytes.old }
    ensures places { length bytes.new ≡ length bytes.old }
{
    bytes[first..first + 8].copy_from_slice(&number.to_le_bytes());
}

/// The same as `store`, byte by byte.
#[cold]
#[inline(never)]
fn store_each(bytes: &mut [u8; LONGEST_MESSAGE], place: usize, bits: u64, count: u32)
    requires few { count ≤ 56 }
    requires fits { bits < 2 ^ count }
    requires within { (place + count) / 8 < 16384 }
    requires clear { IsClear bytes.old place }
    ensures bits { bits_within bytes.new (place + count) ≡ bits_within bytes.old place ++ low_bits count bits }
    ensures clear { IsClear bytes.new (place + count) }
{
    let end = place + count as usize;
    let mut rest = u64::from(bytes[place / 8]) + (bits << (place % 8));
    for k in place / 8..end / 8 {
        bytes[k] = (rest % 256) as u8;
        rest /= 256;
    }
    bytes[end / 8] = rest as u8;
}
