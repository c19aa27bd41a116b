//! Writes one entity. Keeps the rule "entity delta", the engine's `MSG_WriteDeltaEntity`.

ghost use Rattle.std.specs.Prelude.{◌≡◌, ◌/◌, ◌%◌, ◌≤◌, [], ◌∷◌, length};
ghost use Rattle.q3_bits.specs.Streams.{Writes};
ghost use Rattle.q3_entity.specs.Delta.{opening, entity_delta, removal};
ghost use Rattle.q3_entity.specs.Changed.{changed_delta};

use crate::state::EntityState;
use q3_bits::{BIT, Overflow, Writer, laws};
use q3_fields::{StateKind, Table, changed_count, write_numbered};

/// The marks of an entity that is there and didn't change, and of one that did: first a bit for its removal, then one for
/// a change.
const UNCHANGED: u32 = 0b00;

const CHANGED: u32 = 0b10;

/// Writes what changed of an entity, under the number of `to`. Where nothing changed nothing is written, unless it is
/// forced. `Overflow` comes exactly where the text doesn't fit the writer's room; a front of it was then written.
#[tactic(auto, unfolding(crate::specs::Delta::entity_delta))]
pub fn write_entity(
    w: &mut Writer,
    table: &Table,
    from: &EntityState,
    to: &EntityState,
    force: bool,
) -> Result<(), Overflow>
    ensures { Writes w.old w.new (entity_delta w.old.words table.now from.now to.now force) result }
{
    let count = changed_count(table, &from.words, &to.words);
    if count > 0 {
        return write_changed(w, table, count, from, to);
    }
    if force {
        return write_opening(w, table, to.number, UNCHANGED);
    }
    laws::texts_are_written();
    // what stands there fits the room
    prove!(w.length() > 0);
    Ok(())
}

/// Writes an entity of which the first fields changed, so many.
fn write_changed(
    w: &mut Writer,
    table: &Table,
    count: usize,
    from: &EntityState,
    to: &EntityState,
) -> Result<(), Overflow>
    requires in_table { count ≤ length table.now.kinds }
    requires few { count ≤ 64 }
    ensures { Writes w.old w.new (changed_delta w.old.words table.now count from.now to.now) result }
{
    write_numbered(
        w,
        (u32::from(to.number), u32::from(table.bits())),
        (CHANGED, 2),
        StateKind::Entity,
        table,
        count,
        &from.words,
        &to.words,
    )
}

/// Writes an entity's number, and two marks after it, as the bits of a number, least first.
fn write_opening(w: &mut Writer, table: &Table, number: u16, marks: u32) -> Result<(), Overflow>
    ensures { Writes w.old w.new (opening w.old.words table.now number ((marks % 2, 1) ∷ (marks / 2, 1) ∷ []))
        result }
{
    laws::texts_are_written();
    w.put(u32::from(number), u32::from(table.bits()))?;
    w.put(marks, 2)
}

/// Writes that an entity is gone.
/// `Overflow` comes exactly where the text doesn't fit the writer's room; a front of it was then written.
#[tactic(auto, unfolding(crate::specs::Delta::removal))]
pub fn write_removal(w: &mut Writer, table: &Table, number: u16) -> Result<(), Overflow>
    ensures { Writes w.old w.new (removal w.old.words table.now number) result }
{
    w.put_all(&[(u32::from(number), u32::from(table.bits())), (1, BIT)])
}
