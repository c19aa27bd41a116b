//! A reader of bit messages. Keeps the rules "bit order of a field" and "code words".

ghost use Rattle.std.specs.Prelude.{◌≡◌, ◌+◌, ◌-◌, ◌*◌, ◌/◌, ◌^◌, ◌<◌, ◌≤◌, ℕ, length, IfOk, IfSome, OnOk, OnErr, MatchOption, Ok};
ghost use Rattle.q3_bits.specs.Bits.{bits_of, low_bits};
ghost use Rattle.q3_bits.specs.Words.{IsCode, raw_at, byte_at, bytes_at, field_at, run_at};
ghost use Rattle.q3_bits.specs.Streams.{Reads};
ghost use Rattle.q3_bits.specs.Unread.{bits_ahead, found_ahead, IsFull};

use crate::ahead::Ahead;
use crate::code::{Code, UNINDEXED};
use crate::widths::BYTE;
use std::marker::Model;

/// Why no value could be read.
#[derive(Clone, Copy, Debug, PartialEq, Eq)]
pub enum ReadError {
    /// The bits end in the field or in one of its words.
    End,
    /// The bits of a word begin no word.
    NoWord,
}

/// Reads fields of bits, one after the other, from the bytes of a message.
#[derive(Drop)]
pub struct Reader<'a> {
    code: &'a Code,
    ahead: Ahead<'a>,
    total: usize,
}

impl<'a> Model for Reader<'a> {
    ghost use Rattle.q3_bits.specs.Streams.{Reading};

    ghost Value = { Reading };

    ghost use Rattle.q3_bits.specs.Unread.{reading_of, IsWithin};

    ghost view = { reading_of };

    ghost invariant = { IsWithin };
}

impl<'a> Reader<'a> {
    /// Reads from the first bit of these bytes on, which may be any.
    pub fn new(code: &'a Code, bytes: &'a [u8]) -> Reader<'a>
        ensures { result ≡ record { words = code.now; left = bits_of bytes.now; place = 0 } }
    {
        // it is a code, with a word for each byte
        prove!(code.word(0).length <= 24);
        Reader {
            code,
            ahead: Ahead::new(bytes),
            total: bytes.len(),
        }
    }

    /// Reads a field of `width` bits, 1 to 32.
    /// `End` comes exactly where the bits end in the field or in one of its words, `NoWord` exactly where
    /// those of a word begin no word, the first in reading order; the reader then stays as it was.
    /// It serves any width, and the words of a field are read by a function that isn't inlined.
    #[inline]
    pub fn get(&mut self, width: u32) -> Result<u32, ReadError>
        requires some { 1 ≤ width }
        requires most { width ≤ 32 }
        ensures reads { Reads self.old self.new (field_at self.old.words width self.old.left) result }
        ensures fits { IfOk result (λ value. value < 2 ^ width) }
        ensures err { OnErr result (self.new ≡ self.old) }
        ensures near { OnOk result (self.new.place ≤ self.old.place + 96) }
        ensures code { IsCode self.old.words }
    {
        if self.ahead.count < (width % 8 + 12 * (width / 8)) as u64 {
            self.refill();
        }
        if let Some(value) = self.get_gathered(width) {
            return Ok(value);
        }
        self.get_each(width)
    }

    /// Reads a field of 8 bits, as `get` does.
    /// A loop's own reader, as `copy` makes one, keeps the gathered bits at hand.
    #[inline]
    pub fn get_byte(&mut self) -> Result<u8, ReadError>
        ensures reads { Reads self.old self.new (field_at self.old.words 8 self.old.left) result }
        ensures err { OnErr result (self.new ≡ self.old) }
        ensures code { IsCode self.old.words }
    {
        if self.ahead.count < 12 {
            self.gather();
        }
        if let Some(byte) = self.byte_gathered() {
            return Ok(byte);
        }
        Ok(self.each_apart(BYTE)? as u8)
    }

    /// Reads a field as `get` does, but for its slow way all of it where this is called, so that a loop's own reader keeps
    /// the gathered bits at hand. Where the width is a literal or a constant, the loop over the words falls away.
    #[inline(always)]
    pub fn get_fixed(&mut self, width: u32) -> Result<u32, ReadError>
        requires some { 1 ≤ width }
        requires most { width ≤ 32 }
        ensures reads { Reads self.old self.new (field_at self.old.words width self.old.left) result }
        ensures fits { IfOk result (λ value. value < 2 ^ width) }
        ensures err { OnErr result (self.new ≡ self.old) }
        ensures near { OnOk result (self.new.place ≤ self.old.place + 96) }
        ensures code { IsCode self.old.words }
    {
        if self.ahead.count < (width % 8 + 12 * (width / 8)) as u64 {
            self.gather();
        }
        if let Some(value) = self.spelled_gathered(width % 8, width / 8) {
            return Ok(value);
        }
        self.each_apart(width)
    }

    /// Another reader that stands at the same place.
    #[inline(always)]
    pub fn copy(&self) -> Reader<'a>
        ensures { result ≡ self.now }
    {
        Reader {
            code: self.code,
            ahead: self.ahead.copy(),
            total: self.total,
        }
    }

    /// Passes over marks of 0, at most `limit` (up to 56), and, where there are fewer, over the mark of 1 after them, as
    /// the marks of a delta's fields stand: how many were 0. `MSG_ReadDeltaEntity` reads them one by one.
    /// `End` comes exactly where the bits end before; the reader then stays as it was.
    #[inline(always)]
    pub fn get_run(&mut self, limit: u32) -> Result<u32, ReadError>
        requires { limit ≤ 56 }
        ensures reads { Reads self.old self.new (run_at limit self.old.left) result }
        ensures most { IfOk result (λ count. count ≤ limit) }
        ensures err { OnErr result (self.new ≡ self.old) }
    {
        if let Some(run) = self.ahead.run(limit) {
            self.ahead = self.ahead.skip(run.length);
            return Ok(run.zeros);
        }
        self.run_apart(limit)
    }

    /// How many bits were read.
    pub fn place(&self) -> usize
        requires { self.now.place < 2 ^ 64 }
        ensures { result ≡ self.now.place }
    {
        let ahead = self.ahead;
        let gathered = (ahead.count + 7) / 8;
        8 * (self.total - ahead.rest.len() - gathered as usize)
            + (8 * gathered - ahead.count) as usize
    }

    /// Gathers more. What it calls isn't inlined: `gather` is the half that is.
    fn refill(&mut self)
        ensures { self.new ≡ self.old }
    {
        self.ahead.refill();
    }

    /// Gathers more where eight bytes are left: the half of `refill` that is inlined. Where fewer are left, `each_apart` gathers them.
    #[inline(always)]
    fn gather(&mut self)
        ensures { self.new ≡ self.old }
    {
        self.ahead = self.ahead.fuller();
    }

    /// Reads a field of 8 bits whose word was gathered and is short; where it isn't, nothing.
    #[inline]
    fn byte_gathered(&mut self) -> Option<u8>
        ensures found { MatchOption result (self.new ≡ self.old)
            (λ byte. Reads self.old self.new (field_at self.old.words 8 self.old.left) (Ok byte)) }
    {
        let entry = self.code.entry((self.ahead.bits % (1 << 24)) as u32);
        let length = u64::from(entry.length);
        if length > self.ahead.count {
            return None;
        }
        self.ahead = self.ahead.skip(length);
        Some(entry.byte)
    }

    /// Reads a field whose bits were gathered and whose words are short; where they aren't, nothing.
    fn get_gathered(&mut self, width: u32) -> Option<u32>
        requires some { 1 ≤ width }
        requires most { width ≤ 32 }
        ensures found { MatchOption result (self.new ≡ self.old)
            (λ value. Reads self.old self.new (field_at self.old.words width self.old.left) (Ok value)) }
        ensures fits { IfSome result (λ value. value < 2 ^ width) }
        ensures near { self.new.place ≤ self.old.place + 63 }
    {
        if width < 8 {
            return self.raw_gathered(width);
        }
        self.words_gathered(width % 8, width / 8)
    }

    /// The same of a field that has no words.
    fn raw_gathered(&mut self, width: u32) -> Option<u32>
        requires { width < 8 }
        ensures found { MatchOption result (self.new ≡ self.old)
            (λ value. Reads self.old self.new (field_at self.old.words width self.old.left) (Ok value)) }
        ensures fits { IfSome result (λ value. value < 2 ^ width) }
        ensures near { self.new.place ≤ self.old.place + 63 }
    {
        if self.ahead.count < width as u64 {
            return None;
        }
        let value = (self.ahead.bits % (1 << width)) as u32;
        self.ahead = self.ahead.skip(width as u64);
        Some(value)
    }

    /// The same of a field that has some: `spelled_gathered`, as one function for all calls of `get`. It isn't inlined, since its
    /// loop would grow each of them.
    #[inline(never)]
    fn words_gathered(&mut self, raw: u32, bytes: u32) -> Option<u32>
        requires raw { raw < 8 }
        requires most { raw + 8 * bytes ≤ 32 }
        ensures found { MatchOption result (self.new ≡ self.old)
            (λ value. Reads self.old self.new (field_at self.old.words (raw + 8 * bytes) self.old.left) (Ok value)) }
        ensures fits { IfSome result (λ value. value < 2 ^ (raw + 8 * bytes)) }
        ensures near { self.new.place ≤ self.old.place + 63 }
    {
        self.spelled_gathered(raw, bytes)
    }

    /// The same, inlined in `words_gathered` and in `get_fixed`.
    #[inline(always)]
    fn spelled_gathered(&mut self, raw: u32, bytes: u32) -> Option<u32>
        requires raw { raw < 8 }
        requires most { raw + 8 * bytes ≤ 32 }
        ensures found { MatchOption result (self.new ≡ self.old)
            (λ value. Reads self.old self.new (field_at self.old.words (raw + 8 * bytes) self.old.left) (Ok value)) }
        ensures fits { IfSome result (λ value. value < 2 ^ (raw + 8 * bytes)) }
        ensures near { self.new.place ≤ self.old.place + 63 }
    {
        let spelled = field_in(self.code, self.ahead.bits, raw, bytes);
        if spelled.length > self.ahead.count {
            return None;
        }
        self.ahead = self.ahead.skip(spelled.length);
        Some(spelled.value)
    }

    /// Reads any field, one word after the other.
    #[cold]
    #[inline(never)]
    fn get_each(&mut self, width: u32) -> Result<u32, ReadError>
        requires some { 1 ≤ width }
        requires most { width ≤ 32 }
        ensures reads { Reads self.old self.new (field_at self.old.words width self.old.left) result }
        ensures fits { IfOk result (λ value. value < 2 ^ width) }
        ensures err { OnErr result (self.new ≡ self.old) }
        ensures near { OnOk result (self.new.place ≤ self.old.place + 96) }
    {
        let raw = width % 8;
        let (low, ahead) = raw_from(self.ahead.ready(), raw)?;
        let (high, ahead) = bytes_from(self.code, ahead, width / 8)?;
        self.ahead = ahead;
        Ok(low + (high << raw))
    }

    /// Reads any field as `get_each` does, by a reader apart, so that this one can stay in registers.
    #[inline(always)]
    fn each_apart(&mut self, width: u32) -> Result<u32, ReadError>
        requires some { 1 ≤ width }
        requires most { width ≤ 32 }
        ensures reads { Reads self.old self.new (field_at self.old.words width self.old.left) result }
        ensures fits { IfOk result (λ value. value < 2 ^ width) }
        ensures err { OnErr result (self.new ≡ self.old) }
        ensures near { OnOk result (self.new.place ≤ self.old.place + 96) }
    {
        let mut apart = self.copy();
        let value = apart.get_each(width)?;
        *self = apart.copy();
        Ok(value)
    }

    /// Passes over a run of marks with more gathered, by a reader apart.
    #[inline(always)]
    fn run_apart(&mut self, limit: u32) -> Result<u32, ReadError>
        requires { limit ≤ 56 }
        ensures reads { Reads self.old self.new (run_at limit self.old.left) result }
        ensures most { IfOk result (λ count. count ≤ limit) }
        ensures err { OnErr result (self.new ≡ self.old) }
    {
        let mut apart = self.copy();
        let zeros = apart.run_refilled(limit)?;
        *self = apart.copy();
        Ok(zeros)
    }

    /// Passes over a run of marks as `get_run` does, with more gathered.
    #[inline(never)]
    fn run_refilled(&mut self, limit: u32) -> Result<u32, ReadError>
        requires { limit ≤ 56 }
        ensures reads { Reads self.old self.new (run_at limit self.old.left) result }
        ensures most { IfOk result (λ count. count ≤ limit) }
        ensures err { OnErr result (self.new ≡ self.old) }
    {
        self.ahead.refill();
        let Some(run) = self.ahead.run(limit) else {
            return Err(ReadError::End);
        };
        self.ahead = self.ahead.skip(run.length);
        Ok(run.zeros)
    }
}

/// A field's value, and how many bits its text has: 64 or more where one of its words is longer than 12 bits, or where bits begin no word.
#[derive(Clone, Copy)]
struct Spelled {
    value: u32,
    length: u64,
}

/// The field that begins these bits, fewer than 64. Where its length is more than theirs nothing is said of its value.
#[inline(always)]
fn field_in(code: &Code, bits: u64, raw: u32, bytes: u32) -> Spelled
    requires raw { raw < 8 }
    requires most { raw + 8 * bytes ≤ 32 }
    ensures { (count : ℕ) → count < 64 → bits < 2 ^ count → result.length ≤ count
        → field_at code.now (raw + 8 * bytes) (low_bits count bits) ≡ Ok
        (result.value, low_bits (count - result.length) (bits / 2 ^ result.length)) }
{
    let mut value = (bits % (1 << raw)) as u32;
    let mut left = bits >> raw;
    let mut length = raw as u64;
    for k in 0..bytes {
        let entry = code.entry((left % (1 << 24)) as u32);
        value += u32::from(entry.byte) << (raw + 8 * k);
        // where no word is named the length is 64 at once, and what is left no longer matters
        left >>= entry.length % UNINDEXED;
        length += u64::from(entry.length);
    }
    Spelled { value, length }
}

/// So many raw bits as a number, and what follows them.
fn raw_from(ahead: Ahead, count: u32) -> Result<(u32, Ahead), ReadError>
    requires few { count ≤ 24 }
    requires full { IsFull ahead }
    ensures bits { found_ahead result ≡ raw_at count (bits_ahead ahead.entry) }
    ensures near { IfOk result (λ found. length (bits_ahead ahead.entry) ≤ length (bits_ahead found.1) + count) }
    ensures most { IfOk result (λ found. length (bits_ahead found.1) ≤ length (bits_ahead ahead.entry)) }
    ensures fits { IfOk result (λ found. found.0 < 2 ^ count) }
{
    if !ahead.has(count as u64) {
        return Err(ReadError::End);
    }
    Ok((ahead.window() % (1 << count), ahead.skip(count as u64)))
}

/// The byte whose word comes next, and what follows the word. Short words are found by the next 12 bits, others one by
/// one.
fn byte_from<'a>(code: &Code, ahead: Ahead<'a>) -> Result<(u8, Ahead<'a>), ReadError>
    ensures byte { found_ahead result ≡ byte_at code.now (bits_ahead ahead.entry) }
    ensures near { IfOk result (λ found. length (bits_ahead ahead.entry) ≤ length (bits_ahead found.1) + 24) }
    ensures most { IfOk result (λ found. length (bits_ahead found.1) ≤ length (bits_ahead ahead.entry)) }
    ensures small { IfOk result (λ found. found.0 < 256) }
{
    let ready = ahead.ready();
    let window = ready.window();
    let entry = code.entry(window);
    let short = u64::from(entry.length);
    if entry.length < UNINDEXED && ready.has(short) {
        return Ok((entry.byte, ready.skip(short)));
    }
    let left = ready.left();
    match code.search(window, left) {
        Some((byte, length)) => Ok((byte, ready.skip(u64::from(length)))),
        None if code.begins_with(window, left) => Err(ReadError::End),
        None => Err(ReadError::NoWord),
    }
}

/// So many bytes by their words, least byte first, and what follows them.
fn bytes_from<'a>(code: &Code, ahead: Ahead<'a>, count: u32) -> Result<(u32, Ahead<'a>), ReadError>
    requires few { count ≤ 4 }
    ensures bytes_at { found_ahead result ≡ bytes_at code.now count (bits_ahead ahead.entry) }
    ensures near { IfOk result (λ found. length (bits_ahead ahead.entry) ≤ length (bits_ahead found.1) + 24 * count) }
    ensures most { IfOk result (λ found. length (bits_ahead found.1) ≤ length (bits_ahead ahead.entry)) }
    ensures fits { IfOk result (λ found. found.0 < 256 ^ count) }
{
    let mut number = 0;
    let mut left = ahead;
    for k in 0..count {
        let (byte, after) = byte_from(code, left)?;
        number += u32::from(byte) << (8 * k);
        left = after;
    }
    Ok((number, left))
}
