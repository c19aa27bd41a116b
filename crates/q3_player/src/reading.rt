//! Reads the player delta, in every spelling that is accepted. Keeps the rules "player delta" and "spellings that a
//! reader accepts", the engine's `MSG_ReadDeltaPlayerstate`.

ghost use Rattle.std.specs.Prelude.{◌≡◌};
ghost use Rattle.q3_bits.specs.Streams.{Reads, holding};
ghost use Rattle.q3_fields.specs.Kinds.{IsKind};
ghost use Rattle.q3_player.specs.Delta.{value_at, values_at, array_at, shorts_at, all_arrays_at, marked_arrays_at, player_at};

use crate::state::{PlayerState, patterns, shorts};
use q3_bits::{BIT, ReadError, Reader, SHORT, laws};
use q3_fields::{DeltaError, Kind, StateKind, Table, read_counted, read_player_field};

/// Why no player could be read: the first fault in reading order. `Bits` where the bits don't read, also those of the
/// arrays; `Count` where the count of fields is above the table's.
pub type PlayerError = DeltaError;

/// Reads a state against another. After a refusal `into` may hold anything.
#[tactic(auto, unfolding(crate::specs::Delta::player_at))]
pub fn read_player(
    r: &mut Reader,
    table: &Table,
    from: &PlayerState,
    into: &mut PlayerState,
) -> Result<(), PlayerError>
    ensures { Reads r.old r.new (player_at r.old.words table.now.kinds from.now r.old.left)
        (holding into.new result) }
{
    *into = *from;
    read_counted(r, StateKind::Player, table, &mut into.words)?;
    read_arrays(r, into)?;
    Ok(())
}

/// Reads a mark for all arrays, and after a mark of change each of them.
#[tactic(auto, unfolding(crate::specs::Delta::marked_arrays_at))]
fn read_arrays(r: &mut Reader, into: &mut PlayerState) -> Result<(), ReadError>
    ensures { Reads r.old r.new (marked_arrays_at r.old.words into.old r.old.left) (holding into.new result) }
{
    if r.get(BIT)? == 0 {
        return Ok(());
    }
    read_each(r, into)
}

/// Reads each array over the one that stands there.
fn read_each(r: &mut Reader, into: &mut PlayerState) -> Result<(), ReadError>
    ensures { Reads r.old r.new (all_arrays_at r.old.words into.old r.old.left) (holding into.new result) }
{
    read_shorts(r, &mut into.stats)?;
    read_shorts(r, &mut into.persistant)?;
    read_shorts(r, &mut into.ammo)?;
    read_array(r, Kind::Unsigned(32), &mut into.powerups)
}

/// Reads an array of signed values over those that stand there.
#[tactic(auto, unfolding(crate::specs::Delta::shorts_at))]
fn read_shorts(r: &mut Reader, values: &mut [i16; 16]) -> Result<(), ReadError>
    ensures { Reads r.old r.new (shorts_at r.old.words values.old r.old.left) (holding values.new result) }
{
    let mut words = patterns(values);
    read_array(r, Kind::Signed(16), &mut words)?;
    *values = shorts(&words);
    Ok(())
}

/// Reads an array over the one that stands there: a mark, and after a mark of change the mask and the values.
#[tactic(auto, using(crate::proofs::PlacesRead::places_after_none), unfolding(crate::specs::Delta::array_at))]
fn read_array(r: &mut Reader, kind: Kind, values: &mut [u32; 16]) -> Result<(), ReadError>
    requires { IsKind kind }
    ensures { Reads r.old r.new (array_at r.old.words kind values.old r.old.left) (holding values.new result) }
{
    if r.get(BIT)? == 0 {
        return Ok(());
    }
    let mask = r.get(SHORT)?;
    read_values(r, kind, mask, values)
}

/// Reads the values of the places that the mask has, over those that stand there.
fn read_values(
    r: &mut Reader,
    kind: Kind,
    mask: u32,
    values: &mut [u32; 16],
) -> Result<(), ReadError>
    requires { IsKind kind }
    ensures { Reads r.old r.new (values_at r.old.words kind mask values.old r.old.left) (holding values.new result) }
{
    laws::lists_are_read();
    for k in 0..16 {
        values[k] = read_place(r, kind, mask >> k, values[k])?;
    }
    Ok(())
}

/// Reads the value of a place whose bit, the mask's next, is 1.
#[tactic(auto, unfolding(crate::specs::Delta::value_at))]
fn read_place(r: &mut Reader, kind: Kind, mask: u32, from: u32) -> Result<u32, ReadError>
    requires { IsKind kind }
    ensures { Reads r.old r.new (value_at r.old.words kind mask from r.old.left) result }
{
    if mask % 2 == 1 {
        return read_player_field(r, kind);
    }
    Ok(from)
}
