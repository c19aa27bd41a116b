//! Writes the player delta. Keeps the rule "player delta", the engine's `MSG_WriteDeltaPlayerstate`.

ghost use Rattle.std.specs.Prelude.{◌≡◌, [], ◌∷◌};
ghost use Rattle.std.specs.List.{flat_map, list_all};
ghost use Rattle.q3_bits.specs.Streams.{Writes};
ghost use Rattle.q3_fields.specs.Kinds.{IsKind};
ghost use Rattle.q3_player.specs.State.{patterns_of};
ghost use Rattle.q3_player.specs.Arrays.{changes, mask_of, player_changes};
ghost use Rattle.q3_player.specs.Delta.{is_empty, values_bits, array_bits, arrays_bits, player_delta};

use crate::state::{PlayerState, patterns};
use q3_bits::{BIT, Overflow, SHORT, Writer, laws};
use q3_fields::{Kind, StateKind, Table, changed_count, write_counted, write_player_field};

/// Writes what changed from one state to another: a byte for how many fields follow, a mark for each of them and the
/// field after a mark of change, and the four arrays, each with a mask of the places that changed and their values.
/// `Overflow` comes exactly where the text doesn't fit the writer's room; a front of it was then written.
#[tactic(auto, unfolding(crate::specs::Delta::player_delta))]
pub fn write_player(
    w: &mut Writer,
    table: &Table,
    from: &PlayerState,
    to: &PlayerState,
) -> Result<(), Overflow>
    ensures { Writes w.old w.new (player_delta w.old.words table.now.kinds from.now to.now) result }
{
    laws::texts_are_written();
    let count = changed_count(table, &from.words, &to.words);
    write_counted(w, StateKind::Player, table, count, &from.words, &to.words)?;
    write_arrays(w, from, to)
}

/// Writes a mark for all arrays, and after a mark of change each of them.
#[tactic(auto, unfolding(crate::specs::Delta::arrays_bits))]
fn write_arrays(w: &mut Writer, from: &PlayerState, to: &PlayerState) -> Result<(), Overflow>
    ensures { Writes w.old w.new (arrays_bits w.old.words (player_changes from.now to.now)) result }
{
    laws::texts_are_written();
    if same_arrays(from, to) {
        return w.put(0, BIT);
    }
    w.put(1, BIT)?;
    write_each(w, from, to)
}

/// Writes each array.
fn write_each(w: &mut Writer, from: &PlayerState, to: &PlayerState) -> Result<(), Overflow>
    ensures { Writes w.old w.new (flat_map (λ array. array_bits w.old.words array.0 array.1)
        (player_changes from.now to.now)) result }
{
    laws::texts_are_written();
    write_shorts(w, &from.stats, &to.stats)?;
    write_shorts(w, &from.persistant, &to.persistant)?;
    write_shorts(w, &from.ammo, &to.ammo)?;
    write_array(w, Kind::Unsigned(32), &from.powerups, &to.powerups)
}

/// Whether no array changed.
fn same_arrays(from: &PlayerState, to: &PlayerState) -> bool
    ensures { result ≡ list_all (λ array. is_empty array.1) (player_changes from.now to.now) }
{
    if !same_shorts(&from.stats, &to.stats) {
        return false;
    }
    if !same_shorts(&from.persistant, &to.persistant) {
        return false;
    }
    if !same_shorts(&from.ammo, &to.ammo) {
        return false;
    }
    same_words(&from.powerups, &to.powerups)
}

/// Whether no place of an array of signed values changed.
fn same_shorts(from: &[i16; 16], to: &[i16; 16]) -> bool
    ensures { result ≡ is_empty (changes (patterns_of from.now) (patterns_of to.now)) }
{
    same_words(&patterns(from), &patterns(to))
}

/// Whether no place of an array of words changed.
fn same_words(from: &[u32; 16], to: &[u32; 16]) -> bool
    ensures { result ≡ is_empty (changes from.now to.now) }
{
    from == to
}

/// Writes an array of signed values.
fn write_shorts(w: &mut Writer, from: &[i16; 16], to: &[i16; 16]) -> Result<(), Overflow>
    ensures { Writes w.old w.new (array_bits w.old.words (Kind.Signed 16)
        (changes (patterns_of from.now) (patterns_of to.now))) result }
{
    write_array(w, Kind::Signed(16), &patterns(from), &patterns(to))
}

/// Writes a mark, and after a mark of change the mask of the places that changed and their values.
fn write_array(w: &mut Writer, kind: Kind, from: &[u32; 16], to: &[u32; 16]) -> Result<(), Overflow>
    requires { IsKind kind }
    ensures { Writes w.old w.new (array_bits w.old.words kind (changes from.now to.now)) result }
{
    laws::texts_are_written();
    let mask = changed_mask(from, to);
    if mask == 0 {
        return w.put(0, BIT);
    }
    w.put(1, BIT)?;
    w.put(mask, SHORT)?;
    write_values(w, kind, from, to)
}

/// A bit for each place that changed.
fn changed_mask(from: &[u32; 16], to: &[u32; 16]) -> u32
    ensures { result ≡ mask_of (changes from.now to.now) }
{
    let mut mask = 0;
    for k in 0..16 {
        if from[k] != to[k] {
            mask += 1 << k;
        }
    }
    mask
}

/// Writes the values of the places that changed.
fn write_values(
    w: &mut Writer,
    kind: Kind,
    from: &[u32; 16],
    to: &[u32; 16],
) -> Result<(), Overflow>
    requires { IsKind kind }
    ensures { Writes w.old w.new (values_bits w.old.words kind (changes from.now to.now)) result }
{
    laws::texts_are_written();
    // what stands there fits the room
    prove!(w.length() > 0);
    for k in 0..16 {
        write_place(w, kind, from[k], to[k])?;
    }
    Ok(())
}

/// Writes the value of a place that changed, and nothing else.
fn write_place(w: &mut Writer, kind: Kind, from: u32, to: u32) -> Result<(), Overflow>
    requires { IsKind kind }
    ensures { Writes w.old w.new (values_bits w.old.words kind (changes (from ∷ []) (to ∷ []))) result }
{
    laws::texts_are_written();
    if from == to {
        // what stands there fits the room
        prove!(w.length() > 0);
        return Ok(());
    }
    write_player_field(w, kind, to)
}
