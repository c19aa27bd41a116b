//! The delta of a state's words over a table: how many fields follow, and each of them. Keeps the rules "entity delta",
//! "player delta" and "normal form" for the words, the engine's `MSG_WriteDeltaEntity` and `MSG_WriteDeltaPlayerstate`
//! and their readers.

ghost use Rattle.std.specs.Prelude.{◌≡◌, ◌≤◌, ◌<◌, ◌↔◌, [], ◌∷◌, ◌++◌, length, take, drop, IsTrue};
ghost use Rattle.q3_bits.specs.Words.{field_bits};
ghost use Rattle.q3_bits.specs.Streams.{Reads, Writes, holding};
ghost use Rattle.q3_fields.specs.Kinds.{IsKind};
ghost use Rattle.q3_fields.specs.States.{normal_words};
ghost use Rattle.q3_fields.specs.declared.delta.DeltaError.TheVariants.{Bits};
ghost use Rattle.q3_fields.specs.Deltas.{last_changed, changed_bits, marked_field_bits, fields_bits, counted_bits, changed_at, marked_field_at, fields_at, words_at};
ghost use Rattle.q3_fields.specs.Deltas as spec;

use crate::kind::{Kind, norm};
use crate::reading::{read_entity_field, read_player_field};
use crate::table::Table;
use crate::writing::{write_marked, write_marked_entity_field};
use q3_bits::{BIT, BYTE, Overflow, ReadError, Reader, Writer, laws};

/// How many words are compared at a time.
const BLOCK: usize = 16;

/// How many marks of unchanged fields are taken at a time.
const RUN: usize = 56;

/// Whose words they are. Of an entity a field that changed to zero takes one bit.
#[derive(Clone, Copy, Debug, PartialEq, Eq)]
pub enum StateKind {
    Entity,
    Player,
}

/// Why no words could be read: the first fault in reading order.
#[derive(Clone, Copy, Debug, PartialEq, Eq)]
pub enum DeltaError {
    /// The bits don't read.
    Bits(ReadError),
    /// The count of fields is above the table's.
    Count(u8),
}

impl From<ReadError> for DeltaError {
    ghost from_gives = { λ e f. f ≡ Bits e };

    fn from(e: ReadError) -> DeltaError {
        DeltaError::Bits(e)
    }
}

/// Puts each word into the normal form of its field, and 0 after the table's fields.
pub fn normalize(table: &Table, words: &mut [u32; 64])
    ensures { words.new ≡ normal_words table.now.kinds words.old }
{
    // its kinds are allowed ones, of which each has 0 as a normal word
    prove!(table.count() <= 64);
    for k in 0..64 {
        // as most words are
        if words[k] == 0 {
            continue;
        }
        words[k] = normal_word(table, k, words[k]);
    }
}

/// A word in the normal form of the table's field at its place, and 0 where the table has none.
#[tactic(auto, using(crate::proofs::NormalWords::normal_word_of_field, crate::proofs::NormalWords::normal_word_of_none))]
fn normal_word(table: &Table, k: usize, word: u32) -> u32
    ensures { normal_words (drop k table.now.kinds) (word ∷ []) ≡ result ∷ [] }
{
    match table.kind(k) {
        Some(kind) => norm(kind, word),
        None => 0,
    }
}

/// The index of the last field of the table whose words differ, plus one; 0 where all agree.
pub fn changed_count(table: &Table, from: &[u32; 64], to: &[u32; 64]) -> usize
    ensures count { result ≡ spec.changed_count table.now.kinds from.now to.now }
    ensures in_table { result ≤ length table.now.kinds }
    ensures few { result ≤ 64 }
{
    let limit = changed_blocks(from, to, table.count());
    changed_words(from, to, limit)
}

/// Whether words agree at every place. All are looked at, with no branch.
pub fn agree(from: &[u32], to: &[u32]) -> bool
    requires { length from.now ≡ length to.now }
    ensures { IsTrue result ↔ (from.now ≡ to.now) }
{
    let mut differ = 0;
    for k in 0..from.len() {
        differ |= from[k] ^ to[k];
    }
    differ == 0
}

/// Takes blocks that agree off the end of the first words, so many, and answers how many are left.
fn changed_blocks(from: &[u32; 64], to: &[u32; 64], count: usize) -> usize
    requires { count ≤ 64 }
    ensures changed { last_changed (take result from.now) (take result to.now) ≡ last_changed (take count from.now)
        (take count to.now) }
    ensures most { result ≤ count }
{
    let mut left = count;
    while left >= BLOCK {
        let start = left - BLOCK;
        if !agree(&from[start..left], &to[start..left]) {
            return left;
        }
        left = start;
    }
    left
}

/// The index of the last of the first words, so many, that differs, plus one; 0 where all agree.
fn changed_words(from: &[u32; 64], to: &[u32; 64], count: usize) -> usize
    requires { count ≤ 64 }
    ensures changed { result ≡ last_changed (take count from.now) (take count to.now) }
    ensures most { result ≤ count }
{
    let mut left = count;
    while left > 0 {
        if from[left - 1] != to[left - 1] {
            return left;
        }
        left -= 1;
    }
    0
}

/// Writes a count, and the first fields, so many: for each a mark, and after a mark of change its text.
/// `Overflow` comes exactly where the text doesn't fit the writer's room; a front of it was then written.
pub fn write_counted(
    w: &mut Writer,
    state: StateKind,
    table: &Table,
    count: usize,
    from: &[u32; 64],
    to: &[u32; 64],
) -> Result<(), Overflow>
    requires in_table { count ≤ length table.now.kinds }
    requires few { count ≤ 64 }
    ensures { Writes w.old w.new (counted_bits state w.old.words table.now.kinds count from.now to.now) result }
{
    laws::texts_are_written();
    w.put(count as u32, BYTE)?;
    write_fields(w, state, table, count, from, to)
}

/// Writes a number and a mark of up to 7 bits, each a value and its width, and after them what `write_counted` does.
/// The number has at most 15 bits.
pub fn write_numbered(
    w: &mut Writer,
    number: (u32, u32),
    mark: (u32, u32),
    state: StateKind,
    table: &Table,
    count: usize,
    from: &[u32; 64],
    to: &[u32; 64],
) -> Result<(), Overflow>
    requires some { 1 ≤ number.1 }
    requires most { number.1 ≤ 15 }
    requires short { mark.1 ≤ 7 }
    requires in_table { count ≤ length table.now.kinds }
    requires few { count ≤ 64 }
    ensures { Writes w.old w.new (field_bits w.old.words number.1 number.0
        ++ (field_bits w.old.words mark.1 mark.0 ++ counted_bits state w.old.words table.now.kinds count from.now
        to.now)) result }
{
    laws::texts_are_written();
    w.put_three(number, mark, (count as u32, BYTE))?;
    write_fields(w, state, table, count, from, to)
}

/// Writes the first fields, so many.
fn write_fields(
    w: &mut Writer,
    state: StateKind,
    table: &Table,
    count: usize,
    from: &[u32; 64],
    to: &[u32; 64],
) -> Result<(), Overflow>
    requires in_table { count ≤ length table.now.kinds }
    requires few { count ≤ 64 }
    ensures { Writes w.old w.new (fields_bits state w.old.words (take count table.now.kinds) from.now to.now) result }
{
    laws::texts_are_written();
    // what stands there fits the room
    prove!(w.length() > 0);
    for k in 0..count {
        write_field(w, state, table.kind_at(k), from[k], to[k])?;
    }
    Ok(())
}

/// Writes a mark, and after a mark of change the field.
fn write_field(
    w: &mut Writer,
    state: StateKind,
    kind: Kind,
    from: u32,
    to: u32,
) -> Result<(), Overflow>
    requires { IsKind kind }
    ensures { Writes w.old w.new (marked_field_bits state w.old.words kind from to) result }
{
    if from == to {
        return w.put(0, BIT);
    }
    write_changed(w, state, kind, to)
}

/// Writes a mark of change, and the changed field.
fn write_changed(w: &mut Writer, state: StateKind, kind: Kind, word: u32) -> Result<(), Overflow>
    requires { IsKind kind }
    ensures { Writes w.old w.new (field_bits w.old.words 1 1 ++ changed_bits state w.old.words kind word) result }
{
    match state {
        StateKind::Entity => write_marked_entity_field(w, kind, word),
        StateKind::Player => write_marked(w, 1, 1, kind, word),
    }
}

/// Reads a count and as many fields over the words that stand there. After a refusal these may be any.
/// `Count` comes exactly where the count is above the table's, before any field is read; `Bits` where the bits don't
/// read.
#[tactic(auto, unfolding(crate::specs::Deltas::words_at))]
pub fn read_counted(
    r: &mut Reader,
    state: StateKind,
    table: &Table,
    words: &mut [u32; 64],
) -> Result<(), DeltaError>
    ensures { Reads r.old r.new (words_at state r.old.words table.now.kinds words.old r.old.left)
        (holding words.new result) }
{
    let count = usize::from(r.get_byte()?);
    if count > table.count() {
        return Err(DeltaError::Count(count as u8));
    }
    read_fields(r, state, table, count, words)?;
    Ok(())
}

/// Reads the first fields, so many, over the words that stand there. The marks of fields that didn't change are taken
/// in runs.
fn read_fields(
    r: &mut Reader,
    state: StateKind,
    table: &Table,
    count: usize,
    words: &mut [u32; 64],
) -> Result<(), ReadError>
    requires in_table { count ≤ length table.now.kinds }
    requires few { count ≤ 64 }
    ensures { Reads r.old r.new (fields_at state r.old.words (take count table.now.kinds) words.old r.old.left)
        (holding words.new result) }
{
    laws::lists_are_read();
    laws::marks_are_bits();
    // a reader of its own stays in registers
    let mut own = r.copy();
    let mut k = 0;
    while k < count {
        let limit = (count - k).min(RUN);
        let same = own.get_run(limit as u32)? as usize;
        k += same;
        if same == limit {
            continue;
        }
        words[k] = read_changed(&mut own, state, table.kind_at(k))?;
        k += 1;
    }
    *r = own;
    Ok(())
}

/// Reads a changed field.
#[inline(always)]
fn read_changed(r: &mut Reader, state: StateKind, kind: Kind) -> Result<u32, ReadError>
    requires { IsKind kind }
    ensures { Reads r.old r.new (changed_at state r.old.words kind r.old.left) result }
{
    match state {
        StateKind::Entity => read_entity_field(r, kind),
        StateKind::Player => read_player_field(r, kind),
    }
}
