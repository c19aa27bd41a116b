//! The records of a demo.
//! - Rule: "demo record". Engine: `CL_WriteDemoMessage` and `CL_ReadDemoMessage` (cl_main.c) write and read them so.
//! - Ours: the limits, and that numbers rise.

ghost use Rattle.std.specs.Prelude.{◌≡◌, ◌+◌, ◌<◌, ◌≤◌, ◌^◌, IsTrue, List, ℕ, length, drop, Some, Ok, IfOk};
ghost use Rattle.q3_io.specs.Told.{Told, contents_at};
ghost use Rattle.q3_demo.specs.Records.{longest_record, head_bytes, piece_of};
ghost use Rattle.q3_demo.specs.Running.{HasFrom, OnlyAsks, AsksOf, asked_of, FindsPiece, ReadCause};
ghost use Rattle.q3_demo.specs.Steps.{Fills, FindsHead};

use crate::error::DemoError;
use byteorder::{ByteOrder, LittleEndian};
use q3_bits::LONGEST_MESSAGE;
use q3_io::Files;

/// The longest message of a record, in bytes.
pub const LONGEST_RECORD: usize = LONGEST_MESSAGE;

/// A record's number and length, in bytes.
pub(crate) const HEAD_BYTES: usize = 8;

/// After this place no head ends below 2^64.
const LAST_HEAD: u64 = u64::MAX - 8;

/// The length that ends a demo.
const END_MARK: u32 = u32::MAX;

/// The numbers of records are below this.
const NUMBER_END: u32 = 1 << 31;

/// No record goes beyond this place.
const MOST_BYTES: u64 = 1_073_741_824;

/// What stands at a place of a demo.
#[derive(Clone, Copy, Debug, PartialEq, Eq)]
pub enum Piece {
    /// The demo's end.
    End,
    /// A record: its number, how many bytes its message has, and the place after it.
    Message {
        number: u32,
        length: usize,
        next: u64,
    },
}

/// What a record begins with: its number, and the length of its message as it is written.
#[derive(Clone, Copy)]
pub(crate) struct Head {
    number: u32,
    length: u32,
}

/// Reads what stands at a place of a demo, after a record of the number `last`, 0 for none. The message of a record is put into
/// the first bytes of the buffer. The answer is the first that fits:
/// - `End`: the file ends within the first 8 bytes, or the length is -1.
/// - `BadLength`: the length is below -1 or above 16,384.
/// - `BadNumber`: the number isn't above `last`, or is 2^31 or above.
/// - `Truncated`: the file ends in the message, or the message goes on beyond 1,073,741,824 bytes.
/// - `Message`: a record stands there.
///
/// `ReadFault` comes where the files' count of faults rose. Records aren't counted here. Of a record, its bytes alone are asked
/// for, each once, where every read gives all that it is asked for.
pub fn next_record<F: Files>(
    files: &mut F,
    file: usize,
    at: u64,
    last: u32,
    into: &mut [u8],
) -> Result<Piece, DemoError>
    requires given { file < F.given files.old }
    requires room { length into.old ≡ longest_record }
    ensures finds { (bytes : List ℕ) × HasFrom (F.told files.old) file at bytes
        × FindsPiece bytes at last into.new result }
    ensures room { length into.new ≡ length into.old }
    ensures given { F.given files.new ≡ F.given files.old }
    ensures asks { OnlyAsks (F.told files.old) (F.told files.new) }
    ensures only { AsksOf file (F.told files.old) (F.told files.new) }
    ensures cost { IsTrue F.reads_whole → (told : Told) → F.told files.old ≡ Some told → (number size next : ℕ)
        → piece_of (drop at (contents_at told file)) at last ≡ Ok (Piece.Message number size next)
        → asked_of (F.told files.new) file ≤ asked_of (F.told files.old) file + head_bytes + size }
    ensures cause { ReadCause (F.faults files.old) (F.faults files.new) result }
    ensures others { F.write_faults files.new ≡ F.write_faults files.old }
{
    let Some(head) = read_head(files, file, at)? else {
        return Ok(Piece::End);
    };
    if head.length == END_MARK {
        return Ok(Piece::End);
    }
    let length = head.length as usize;
    if length > LONGEST_RECORD {
        return Err(DemoError::BadLength(at));
    }
    let number = head.number;
    if number <= last || number >= NUMBER_END {
        return Err(DemoError::BadNumber(at));
    }
    let body = at.saturating_add(HEAD_BYTES as u64);
    let next = body.saturating_add(length as u64);
    if next > MOST_BYTES || read_whole(files, file, body, &mut into[..length])? < length {
        return Err(DemoError::Truncated(at));
    }
    Ok(Piece::Message {
        number,
        length,
        next,
    })
}

/// Reads what a record begins with. `None` comes where the file ends within it.
fn read_head<F: Files>(files: &mut F, file: usize, at: u64) -> Result<Option<Head>, DemoError>
    requires given { file < F.given files.old }
    ensures finds { (bytes : List ℕ) × HasFrom (F.told files.old) file at bytes × FindsHead bytes result }
    ensures given { F.given files.new ≡ F.given files.old }
    ensures asks { OnlyAsks (F.told files.old) (F.told files.new) }
    ensures only { AsksOf file (F.told files.old) (F.told files.new) }
    ensures cost { IsTrue F.reads_whole → (told : Told) → F.told files.old ≡ Some told
        → at + head_bytes ≤ length (contents_at told file)
        → asked_of (F.told files.new) file ≤ asked_of (F.told files.old) file + head_bytes }
    ensures cause { ReadCause (F.faults files.old) (F.faults files.new) result }
    ensures others { F.write_faults files.new ≡ F.write_faults files.old }
{
    if at > LAST_HEAD {
        return no_head(files, file);
    }
    let mut head = [0; HEAD_BYTES];
    if read_whole(files, file, at, &mut head)? < HEAD_BYTES {
        return Ok(None);
    }
    Ok(Some(Head {
        number: LittleEndian::read_u32(&head),
        length: LittleEndian::read_u32(&head[4..]),
    }))
}

/// Tells that the file ends before a head after `LAST_HEAD` does, since it has fewer than 2^64 bytes.
fn no_head<F: Files>(files: &mut F, file: usize) -> Result<Option<Head>, DemoError>
    requires given { file < F.given files.old }
    ensures finds { (at : ℕ) → 2 ^ 64 ≤ at + 8 → (bytes : List ℕ) × HasFrom (F.told files.old) file at bytes
        × FindsHead bytes result }
    ensures given { F.given files.new ≡ F.given files.old }
    ensures asks { OnlyAsks (F.told files.old) (F.told files.new) }
    ensures only { AsksOf file (F.told files.old) (F.told files.new) }
    ensures cost { asked_of (F.told files.new) file ≡ asked_of (F.told files.old) file }
    ensures cause { ReadCause (F.faults files.old) (F.faults files.new) result }
    ensures others { F.write_faults files.new ≡ F.write_faults files.old }
{
    match files.size(file) {
        Ok(_) => Ok(None),
        Err(_) => Err(DemoError::ReadFault),
    }
}

/// Reads bytes from a place on until the buffer is full or the file ends, and answers how many came.
pub fn read_whole<F: Files>(
    files: &mut F,
    file: usize,
    at: u64,
    into: &mut [u8],
) -> Result<usize, DemoError>
    requires given { file < F.given files.old }
    requires place { at + length into.old < 2 ^ 64 }
    ensures fills { (bytes : List ℕ) × HasFrom (F.told files.old) file at bytes × Fills bytes into.new result }
    ensures count { IfOk result (λ count. count ≤ length into.old) }
    ensures room { length into.new ≡ length into.old }
    ensures given { F.given files.new ≡ F.given files.old }
    ensures asks { OnlyAsks (F.told files.old) (F.told files.new) }
    ensures only { AsksOf file (F.told files.old) (F.told files.new) }
    ensures cost { IsTrue F.reads_whole → (told : Told) → F.told files.old ≡ Some told
        → at + length into.old ≤ length (contents_at told file)
        → asked_of (F.told files.new) file ≤ asked_of (F.told files.old) file + length into.old }
    ensures cause { ReadCause (F.faults files.old) (F.faults files.new) result }
    ensures others { F.write_faults files.new ≡ F.write_faults files.old }
{
    let mut count = 0;
    while count < into.len() {
        let Ok(more) = files.read_at(file, at + count as u64, &mut into[count..]) else {
            return Err(DemoError::ReadFault);
        };
        if more == 0 {
            return Ok(count);
        }
        count += more;
    }
    Ok(count)
}
