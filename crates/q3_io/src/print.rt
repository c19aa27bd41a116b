//! Prints numbers, texts, words by their index, and lines that are put together from pieces.
//! Each call writes several times: a `Line` around the sink makes one write of what is printed. Each answers `Failed` as soon as
//! a write to the sink does, and then a front of the text was written.

ghost use Rattle.std.specs.Prelude.{◌≡◌, [], ◌∷◌, ◌++◌, codes};
ghost use Rattle.std.specs.Fmt.{signed_decimal};
ghost use Rattle.std.specs.List.{flat_map};
ghost use Rattle.q3_io.specs.Faults.{HasCause};
ghost use Rattle.q3_io.specs.Written.{Adds};
ghost use Rattle.q3_io.specs.Quoted.{byte_spelling, quoted};
ghost use Rattle.hex.specs.Hex.{encode_lower};
ghost use Rattle.q3_io.specs.Print.{piece_text, words_text, word_text, digits_text, hex_text, hex_word};

use crate::sink::{Failed, Sink};
use itoa::Integer;

/// A piece of a line.
#[derive(Clone, Copy)]
pub enum Piece<'a> {
    /// Bytes as they are.
    Text(&'a [u8]),
    /// A number in decimal.
    Number(u64),
    /// A text in quotes, spelled as in a script.
    Quoted(&'a [u8]),
}

/// Writes a number in decimal, with `-` before a negative one.
pub fn print_number<O: Sink>(value: i128, out: &mut O) -> Result<(), Failed>
    ensures adds { Adds (O.written out.old) (O.written out.new) (signed_decimal value) result }
    ensures cause { HasCause (O.faults out.old) (O.faults out.new) result }
{
    print_decimal(value, out)
}

/// Writes a text as scripts and reports spell it, quotes included. The spelling is this project's own.
/// A byte 0, which no text of a script has, is `\x00`.
pub fn print_text<O: Sink>(text: &[u8], out: &mut O) -> Result<(), Failed>
    ensures adds { Adds (O.written out.old) (O.written out.new) (quoted text.now) result }
    ensures cause { HasCause (O.faults out.old) (O.faults out.new) result }
{
    out.write_all(b"\"")?;
    print_spelled(text, out)?;
    out.write_all(b"\"")
}

/// Writes the pieces, one after the other.
pub fn print_all<O: Sink>(pieces: &[Piece], out: &mut O) -> Result<(), Failed>
    ensures adds { Adds (O.written out.old) (O.written out.new) (flat_map piece_text pieces.now) result }
    ensures cause { HasCause (O.faults out.old) (O.faults out.new) result }
{
    for piece in pieces {
        print_piece(piece, out)?;
    }
    Ok(())
}

/// Writes the words that aren't 0, each after a space, the letter, its index and a colon.
pub fn print_indexed<O: Sink>(letter: &[u8], words: &[u32], out: &mut O) -> Result<(), Failed>
    ensures adds { Adds (O.written out.old) (O.written out.new) (words_text letter.now 0 words.now) result }
    ensures cause { HasCause (O.faults out.old) (O.faults out.new) result }
{
    for (index, word) in words.iter().enumerate() {
        print_word(letter, index, *word, out)?;
    }
    Ok(())
}

/// Writes bytes as a word: each as two hex digits with small letters, and `-` for none.
/// `Failed` comes where the sink failed, after a front of the word.
pub fn print_hex_word<O: Sink>(bytes: &[u8], out: &mut O) -> Result<(), Failed>
    ensures adds { Adds (O.written out.old) (O.written out.new) (hex_word bytes.now) result }
    ensures cause { HasCause (O.faults out.old) (O.faults out.new) result }
{
    if bytes.is_empty() {
        return out.write_all(b"-");
    }
    print_hex(bytes, out)
}

/// Writes each byte as two digits.
fn print_hex<O: Sink>(bytes: &[u8], out: &mut O) -> Result<(), Failed>
    ensures adds { Adds (O.written out.old) (O.written out.new) (hex_text bytes.now) result }
    ensures cause { HasCause (O.faults out.old) (O.faults out.new) result }
{
    for byte in bytes {
        print_digits(*byte, out)?;
    }
    Ok(())
}

fn print_word<O: Sink>(letter: &[u8], index: usize, word: u32, out: &mut O) -> Result<(), Failed>
    ensures adds { Adds (O.written out.old) (O.written out.new) (word_text letter.now index word) result }
    ensures cause { HasCause (O.faults out.old) (O.faults out.new) result }
{
    if word == 0 {
        return Ok(());
    }
    print_all(
        &[
            Piece::Text(b" "),
            Piece::Text(letter),
            Piece::Number(index as u64),
            Piece::Text(b":"),
            Piece::Number(u64::from(word)),
        ],
        out,
    )
}

fn print_piece<O: Sink>(piece: &Piece, out: &mut O) -> Result<(), Failed>
    ensures adds { Adds (O.written out.old) (O.written out.new) (piece_text piece.now) result }
    ensures cause { HasCause (O.faults out.old) (O.faults out.new) result }
{
    match piece {
        Piece::Text(text) => out.write_all(text),
        Piece::Number(number) => print_decimal(*number, out),
        Piece::Quoted(text) => print_text(text, out),
    }
}

fn print_decimal<I: Integer, O: Sink>(number: I, out: &mut O) -> Result<(), Failed>
    ensures adds { Adds (O.written out.old) (O.written out.new) (I.text number) result }
    ensures cause { HasCause (O.faults out.old) (O.faults out.new) result }
{
    let mut digits = itoa::Buffer::new();
    out.write_all(digits.format(number).as_bytes())
}

fn print_spelled<O: Sink>(text: &[u8], out: &mut O) -> Result<(), Failed>
    ensures adds { Adds (O.written out.old) (O.written out.new) (flat_map byte_spelling text.now) result }
    ensures cause { HasCause (O.faults out.old) (O.faults out.new) result }
{
    for byte in text {
        print_byte(*byte, out)?;
    }
    Ok(())
}

fn print_byte<O: Sink>(byte: u8, out: &mut O) -> Result<(), Failed>
    ensures adds { Adds (O.written out.old) (O.written out.new) (byte_spelling byte) result }
    ensures cause { HasCause (O.faults out.old) (O.faults out.new) result }
{
    match byte {
        b'"' => out.write_all(b"\\\""),
        b'\\' => out.write_all(b"\\\\"),
        b'\n' => out.write_all(b"\\n"),
        32..=126 => out.write_all(&[byte]),
        _ => out.write_all(&hex_spelling(byte)),
    }
}

/// `\x` and two digits.
fn hex_spelling(byte: u8) -> [u8; 4]
    ensures { result ≡ codes "\\x" ++ encode_lower (byte ∷ []) }
{
    let mut spelling = *b"\\x00";
    let _ = hex::encode_to_slice([byte], &mut spelling[2..]);
    spelling
}

fn print_digits<O: Sink>(byte: u8, out: &mut O) -> Result<(), Failed>
    ensures adds { Adds (O.written out.old) (O.written out.new) (digits_text byte) result }
    ensures cause { HasCause (O.faults out.old) (O.faults out.new) result }
{
    let mut digits = *b"00";
    let _ = hex::encode_to_slice([byte], &mut digits);
    out.write_all(&digits)
}
