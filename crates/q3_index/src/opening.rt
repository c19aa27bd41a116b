//! Opens the index of a demo: reads its head and the heads of its checkpoints.

ghost use Rattle.std.specs.Prelude.{◌≡◌, ◌+◌, ◌/◌, ◌<◌, ◌≤◌, ◌^◌, Some, length, take, drop, IfOk, IfErr};
ghost use Rattle.q3_io.specs.Told.{Told, contents_at};
ghost use Rattle.q3_savestate.specs.Cursor.{found, number_at};
ghost use Rattle.q3_demo.specs.Running.{OnlyAsks, AsksOf};
ghost use Rattle.q3_index.specs.Text.{spacing};
ghost use Rattle.q3_index.specs.Opening.{version_at, width_at, head_after, head_at, checkpoints_of, open_at};
ghost use Rattle.q3_index.specs.Running.{Opens, OpenCause};
ghost use Rattle.q3_index.specs.Steps.{ArePlaced, IsPlaced, Reads, from_place, value_of, numbers_at, checkpoint_at, least_of, read_to};
ghost use Rattle.q3_index.specs.Steps as spec;

use crate::error::IndexError;
use crate::index::{Checkpoint, Index, SPACING};
use q3_demo::read_whole;
use q3_fields::{LEAST_NUMBER_BITS, MOST_NUMBER_BITS};
use q3_io::Files;
use q3_profile::Profile;
use q3_savestate::Cursor;
use std::alloc::Global;
use std::cmp::min;

/// What an index begins with, by the version that is made now.
pub(crate) const MAGIC: &[u8] = b"Q3INDEX2";

/// And by the first.
const FIRST_MAGIC: &[u8] = b"Q3INDEX1";

/// How many bytes its head has at most.
const HEAD_BYTES: usize = 33;

/// How many bytes that of a checkpoint has.
pub(crate) const CHECKPOINT_BYTES: usize = 16;

/// The version of an index.
#[derive(Clone, Copy, Debug, PartialEq, Eq)]
pub enum Version {
    /// It doesn't tell how many bits an entity's number has, which are the engine's 10.
    First,
    /// It does.
    Second,
}

impl Version {
    ghost use Rattle.std.specs.Prelude.{◌≡◌};
    ghost use Rattle.q3_index.specs.Steps as spec;

    /// How many bytes the head has.
    fn head_size(self) -> usize
        ensures { result ≡ spec.head_size self }
    {
        match self {
            Version::First => HEAD_BYTES - 1,
            Version::Second => HEAD_BYTES,
        }
    }
}

/// The head of an index.
#[derive(Clone, Copy)]
pub(crate) struct Head {
    version: Version,
    length: u64,
    mark: u64,
    /// How many bits an entity's number has.
    width: u8,
    records: u32,
    count: u32,
}

/// Opens the index of a demo: both are numbers of files. The index's file alone is asked for bytes, and of the demo's only the length is
/// asked. `Err` is `NotIndex` exactly where the heads aren't those of an index, with the place of the first field that is cut short or
/// breaks a rule, of a state that goes beyond the file, or of the first byte after the last checkpoint; else `OtherDemo` exactly where the
/// demo has another length or the profile another mark; else `OtherWidth` exactly where an entity's number has another number of bits by
/// the profile.
pub fn open_index<F: Files>(
    alloc: Global,
    profile: &Profile,
    files: &mut F,
    demo: usize,
    index: usize,
) -> Result<Index, IndexError>
    requires demo { demo < F.given files.old }
    requires index { index < F.given files.old }
    ensures opens { (told : Told) → F.told files.old ≡ Some told
        → Opens demo index (open_at (length (contents_at told demo)) profile.now.mark profile.now.entity.number_bits
        (contents_at told index)) result }
    ensures given { F.given files.new ≡ F.given files.old }
    ensures asks { OnlyAsks (F.told files.old) (F.told files.new) }
    ensures only { AsksOf index (F.told files.old) (F.told files.new) }
    ensures numbers { IfOk result (λ opened. (opened.demo ≡ demo) × (opened.index ≡ index)) }
    ensures cause { OpenCause (F.faults files.old) (F.faults files.new) result }
    ensures others { F.write_faults files.new ≡ F.write_faults files.old }
{
    let Ok(length) = files.size(demo) else {
        return Err(IndexError::ReadFault);
    };
    let Ok(end) = files.size(index) else {
        return Err(IndexError::ReadFault);
    };
    let head = read_head(files, index, end)?;
    let checkpoints = read_checkpoints(alloc, files, index, end, head)?;
    if head.length != length || head.mark != profile.mark {
        return Err(IndexError::OtherDemo {
            kept: (head.length, head.mark),
            found: (length, profile.mark),
        });
    }
    let width = profile.entity.bits();
    if head.width != width {
        return Err(IndexError::OtherWidth {
            kept: head.width,
            found: width,
        });
    }
    Ok(Index {
        demo,
        index,
        records: head.records,
        checkpoints,
    })
}

/// Reads the head of an index of so many bytes.
fn read_head<F: Files>(files: &mut F, index: usize, end: u64) -> Result<Head, IndexError>
    requires index { index < F.given files.old }
    ensures reads { (told : Told) → F.told files.old ≡ Some told → end ≡ length (contents_at told index)
        → Reads (λ head. (head, from_place (contents_at told index) (spec.head_size head.version)))
        (head_at (from_place (contents_at told index) 0)) result }
    ensures count { IfOk result (λ head. head.count ≡ head.records / spacing) }
    ensures given { F.given files.new ≡ F.given files.old }
    ensures asks { OnlyAsks (F.told files.old) (F.told files.new) }
    ensures only { AsksOf index (F.told files.old) (F.told files.new) }
    ensures cause { OpenCause (F.faults files.old) (F.faults files.new) result }
    ensures others { F.write_faults files.new ≡ F.write_faults files.old }
{
    let mut bytes = [0; HEAD_BYTES];
    let count = read_some(files, index, end, 0, &mut bytes)?;
    match head_in(&bytes[..count]) {
        Ok(head) => Ok(head),
        Err(place) => Err(IndexError::NotIndex(place as u64)),
    }
}

/// The head that bytes are, or the place of the first field that is cut short or breaks a rule.
#[tactic(auto, unfolding(crate::specs::Opening::head_at))]
fn head_in(bytes: &[u8]) -> Result<Head, usize>
    ensures { result ≡ value_of (head_at (from_place bytes.now 0)) }
{
    let mut cursor = Cursor::new(bytes, 0);
    let version = take_version(&mut cursor)?;
    take_head(version, &mut cursor)
}

/// The version of an index, by what it begins with.
#[tactic(auto, unfolding(crate::specs::Opening::version_at))]
fn take_version(cursor: &mut Cursor) -> Result<Version, usize>
    ensures { found result cursor.new ≡ version_at cursor.old }
{
    let place = cursor.place();
    let bytes = cursor.take(MAGIC.len())?;
    if bytes == FIRST_MAGIC {
        return Ok(Version::First);
    }
    if bytes == MAGIC {
        return Ok(Version::Second);
    }
    Err(place)
}

/// The head after that.
#[tactic(auto, unfolding(crate::specs::Opening::head_after))]
fn take_head(version: Version, cursor: &mut Cursor) -> Result<Head, usize>
    ensures { found result cursor.new ≡ head_after version cursor.old }
{
    let length = cursor.wide(0, u64::MAX)?;
    let mark = cursor.wide(0, u64::MAX)?;
    let width = take_width(version, cursor)?;
    let records = cursor.long(0, u32::MAX)?;
    let count = cursor.long(records / SPACING, records / SPACING)?;
    Ok(Head {
        version,
        length,
        mark,
        width,
        records,
        count,
    })
}

/// How many bits an entity's number has.
fn take_width(version: Version, cursor: &mut Cursor) -> Result<u8, usize>
    ensures { found result cursor.new ≡ width_at version cursor.old }
{
    match version {
        Version::First => Ok(LEAST_NUMBER_BITS),
        Version::Second => cursor.byte(LEAST_NUMBER_BITS, MOST_NUMBER_BITS),
    }
}

/// Reads the heads of the checkpoints of an index of so many bytes, after the last of which nothing stands.
fn read_checkpoints<F: Files>(
    alloc: Global,
    files: &mut F,
    index: usize,
    end: u64,
    head: Head,
) -> Result<Vec<Checkpoint>, IndexError>
    requires index { index < F.given files.old }
    requires count { head.count ≡ head.records / spacing }
    ensures reads { (told : Told) → F.told files.old ≡ Some told → end ≡ length (contents_at told index)
        → Reads (λ checkpoints. checkpoints.items) (checkpoints_of head
        (from_place (contents_at told index) (spec.head_size head.version))) result }
    ensures placed { IfOk result (λ checkpoints. ArePlaced checkpoints.items) }
    ensures given { F.given files.new ≡ F.given files.old }
    ensures asks { OnlyAsks (F.told files.old) (F.told files.new) }
    ensures only { AsksOf index (F.told files.old) (F.told files.new) }
    ensures cause { OpenCause (F.faults files.old) (F.faults files.new) result }
    ensures others { F.write_faults files.new ≡ F.write_faults files.old }
{
    let mut checkpoints = Vec::new(alloc);
    let mut at = head.version.head_size() as u64;
    let mut least = Some(0);
    for k in 0..head.count {
        let found = read_checkpoint(files, index, end, at, (k + 1) * SPACING, least, head.length)?;
        checkpoints.push(found)?;
        at = found.state + u64::from(found.length);
        least = found.place.checked_add(1);
    }
    if at < end {
        return Err(IndexError::NotIndex(at));
    }
    Ok(checkpoints)
}

/// Reads the head of the checkpoint at a place, which stands after so many records. The place of the next record is within bounds, where
/// the least may be beyond all places. The file has as many bytes after it as its state.
fn read_checkpoint<F: Files>(
    files: &mut F,
    index: usize,
    end: u64,
    at: u64,
    number: u32,
    least: Option<u64>,
    most: u64,
) -> Result<Checkpoint, IndexError>
    requires index { index < F.given files.old }
    ensures reads { (told : Told) → F.told files.old ≡ Some told → end ≡ length (contents_at told index)
        → Reads (read_to (contents_at told index)) (checkpoint_at number (least_of least) most
        (from_place (contents_at told index) at)) result }
    ensures placed { IfOk result IsPlaced }
    ensures given { F.given files.new ≡ F.given files.old }
    ensures asks { OnlyAsks (F.told files.old) (F.told files.new) }
    ensures only { AsksOf index (F.told files.old) (F.told files.new) }
    ensures cause { OpenCause (F.faults files.old) (F.faults files.new) result }
    ensures others { F.write_faults files.new ≡ F.write_faults files.old }
{
    let mut bytes = [0; CHECKPOINT_BYTES];
    let count = read_some(files, index, end, at, &mut bytes)?;
    let found = match checkpoint_in(&bytes[..count], at, number, least, most) {
        Ok(found) => found,
        Err(place) => return Err(IndexError::NotIndex(place as u64)),
    };
    if end.saturating_sub(found.state) < u64::from(found.length) {
        return Err(IndexError::NotIndex(found.state));
    }
    Ok(found)
}

#[tactic(auto, unfolding(crate::specs::Steps::numbers_at))]
/// The head of a checkpoint that bytes are, the first of which have this place.
fn checkpoint_in(
    bytes: &[u8],
    at: u64,
    number: u32,
    least: Option<u64>,
    most: u64,
) -> Result<Checkpoint, usize>
    requires place { at + length bytes.now < 2 ^ 64 }
    ensures { result ≡ value_of (numbers_at number (least_of least) most (record { at = at; bytes = bytes.now })) }
{
    let mut cursor = Cursor::new(bytes, at as usize);
    cursor.long(number, number)?;
    let place = place_in(&mut cursor, least, most)?;
    let length = cursor.long(0, u32::MAX)?;
    Ok(Checkpoint {
        place,
        state: cursor.place() as u64,
        length,
    })
}

/// The place of a record, within bounds.
fn place_in(cursor: &mut Cursor, least: Option<u64>, most: u64) -> Result<u64, usize>
    ensures { found result cursor.new ≡ number_at 8 (least_of least) most cursor.old }
{
    match least {
        Some(least) => cursor.wide(least, most),
        None => Err(cursor.place()),
    }
}

/// Reads bytes of an index from a place on, as many as there are up to its end, and answers how many came.
fn read_some<F: Files>(
    files: &mut F,
    index: usize,
    end: u64,
    at: u64,
    into: &mut [u8],
) -> Result<usize, IndexError>
    requires index { index < F.given files.old }
    ensures reads { (told : Told) → F.told files.old ≡ Some told → end ≡ length (contents_at told index)
        → IfOk result (λ count. take count into.new ≡ take (length into.old) (drop at (contents_at told index))) }
    ensures count { IfOk result (λ count. count ≤ length into.old) }
    ensures place { IfOk result (λ count. at + count < 2 ^ 64) }
    ensures room { length into.new ≡ length into.old }
    ensures fault { IfErr result (λ e. e ≡ IndexError.ReadFault) }
    ensures given { F.given files.new ≡ F.given files.old }
    ensures asks { OnlyAsks (F.told files.old) (F.told files.new) }
    ensures only { AsksOf index (F.told files.old) (F.told files.new) }
    ensures cause { OpenCause (F.faults files.old) (F.faults files.new) result }
    ensures others { F.write_faults files.new ≡ F.write_faults files.old }
{
    let room = min(end.saturating_sub(at), into.len() as u64) as usize;
    match read_whole(files, index, at, &mut into[..room]) {
        Ok(count) => Ok(count),
        Err(_) => Err(IndexError::ReadFault),
    }
}
