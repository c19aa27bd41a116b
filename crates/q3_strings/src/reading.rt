//! Reads strings and commands. Keeps the rules "strings and their translation" and "commands in messages", the engine's
//! `MSG_ReadString` and `MSG_ReadBigString` (msg.c). The engine cuts a long string; that it is refused is this project's
//! own.

ghost use Rattle.std.specs.Prelude.{◌≡◌, ◌≤◌, All};
ghost use Rattle.q3_bits.specs.Streams.{Reads, holding};
ghost use Rattle.q3_text.specs.Texts.{IsTextByte, most_bytes};
ghost use Rattle.q3_strings.specs.Reading.{string_bytes_at, bounded_string_at, command_at};

use crate::error::StringError;
use arrayvec::ArrayVec;
use q3_bits::{LONG, ReadError, Reader};
use q3_text::{Command, LONGEST_TEXT, Text, translate};

/// Reads so many bytes, as they are. After a refusal `into` may hold any.
/// `End` and `NoWord` come as in `Reader::get`.
pub fn read_bytes<const N: usize>(
    r: &mut Reader,
    count: usize,
    into: &mut ArrayVec<u8, N>,
) -> Result<(), ReadError>
    requires { count ≤ N }
    ensures { Reads r.old r.new (string_bytes_at r.old.words count r.old.left) (holding into.new.items result) }
{
    into.clear();
    let mut own = r.copy();
    for _ in 0..count {
        into.push(own.get_byte()?);
    }
    *r = own;
    Ok(())
}

/// Reads a string of at most as many bytes as there is room for, and translates each. After a refusal `into` may hold
/// any. `Err` is the first in reading order: `Bits` where the bits don't read; `Long` where the byte after the last that
/// there is room for isn't 0.
pub fn read_string<const N: usize>(
    r: &mut Reader,
    into: &mut ArrayVec<u8, N>,
) -> Result<(), StringError>
    ensures reads { Reads r.old r.new (bounded_string_at r.old.words N r.old.left) (holding into.new.items result) }
    ensures each { All IsTextByte into.new.items }
{
    into.clear();
    let mut own = r.copy();
    for _ in 0..N {
        let byte = own.get_byte()?;
        if byte == 0 {
            *r = own;
            return Ok(());
        }
        into.push(translate(byte));
    }
    if own.get_byte()? != 0 {
        return Err(StringError::Long);
    }
    *r = own;
    Ok(())
}

/// Reads a string of at most 1,023 bytes over the one that stands in its place. After a refusal `into` may hold any, and the
/// reader stand anywhere. `Err` comes as in `read_string`.
#[inline(always)]
pub fn read_text(r: &mut Reader, into: &mut Text) -> Result<(), StringError>
    ensures { Reads r.old r.new (bounded_string_at r.old.words most_bytes r.old.left) (holding into.new result) }
{
    let mut own = r.copy();
    // over the bytes that stand there, which nothing blanks before
    for place in 0..into.len() {
        let byte = own.get_byte()?;
        if byte == 0 {
            into.truncate(place);
            *r = own;
            return Ok(());
        }
        into.set(place, byte);
    }
    // and then after them, as far as there is room
    for _ in into.len()..LONGEST_TEXT {
        let byte = own.get_byte()?;
        if byte == 0 {
            *r = own;
            return Ok(());
        }
        into.push(byte);
    }
    if own.get_byte()? != 0 {
        return Err(StringError::Long);
    }
    *r = own;
    Ok(())
}

/// Reads a command after its operation into its place. After a refusal it and the reader are as after `read_text`. `Err` comes
/// as in `read_string`.
#[tactic(auto, unfolding(crate::specs::Reading::command_at))]
#[inline(always)]
pub fn read_command(r: &mut Reader, into: &mut Command) -> Result<(), StringError>
    ensures { Reads r.old r.new (command_at r.old.words r.old.left) (holding into.new result) }
{
    into.number = r.get_fixed(LONG)?;
    read_text(r, &mut into.text)
}
