//! Writes a list of entities against a base. Keeps the rule "entity list", the engine's `SV_EmitPacketEntities`.

ghost use Rattle.std.specs.Prelude.{◌≡◌, Some, IfOk};
ghost use Rattle.std.specs.Option.{option_copied};
ghost use Rattle.q3_bits.specs.Streams.{Writes};
ghost use Rattle.q3_entity.specs.Entities.{IsList, run_of};
ghost use Rattle.q3_entity.specs.Lists.{piece, entity_list_bits};
ghost use Rattle.q3_entity.specs.Runs.{from_number};
ghost use Rattle.q3_entity.specs.Merging.{removals, end_bits, entry_bits, left_after, done};

use crate::baselines::Baselines;
use crate::run::{skip_same, split_first, take_number};
use crate::state::{EntityState, Run};
use crate::writing::{write_entity, write_removal};
use q3_bits::{Overflow, Writer, laws};
use q3_fields::{Table, laws as fields};

/// Writes the entities that there are now against those of a base, by rising number: an entity that both have by what
/// changed, a new one by force from its baseline, and a removal for one that is gone; and the end mark after them.
/// `Overflow` comes exactly where the text doesn't fit the writer's room; a front of it was then written.
pub fn write_list(
    w: &mut Writer,
    table: &Table,
    baselines: &Baselines,
    base: Run,
    now: &[EntityState],
) -> Result<(), Overflow>
    requires base { IsList table.now (run_of base) }
    requires now { IsList table.now now.now }
    ensures { Writes w.old w.new (entity_list_bits w.old.words table.now baselines.now (run_of base.entry) now.now)
        result }
{
    write_run(w, table, baselines, base, Run::of(now))
}

/// The same of entities in two pieces, as a ring lends them.
pub fn write_run(
    w: &mut Writer,
    table: &Table,
    baselines: &Baselines,
    base: Run,
    now: Run,
) -> Result<(), Overflow>
    requires base { IsList table.now (run_of base) }
    requires now { IsList table.now (run_of now) }
    ensures { Writes w.old w.new (entity_list_bits w.old.words table.now baselines.now (run_of base.entry)
        (run_of now.entry)) result }
{
    laws::texts_are_written();
    // what stands there fits the room
    prove!(w.length() > 0);
    // an entity that both have as it was is passed over
    fields::last_changed_is_least();
    let (mut left, mut rest) = skip_same(base, now);
    while let Some((entity, others)) = split_first(rest) {
        let after = write_entry(w, table, baselines, left, entity)?;
        (left, rest) = skip_same(after, others);
    }
    write_end(w, table, left)
}

/// Writes that what is left of the base is gone, and the end mark.
fn write_end(w: &mut Writer, table: &Table, base: Run) -> Result<(), Overflow>
    ensures { Writes w.old w.new (end_bits w.old.words table.now (run_of base.entry)) result }
{
    laws::texts_are_written();
    let end = table.end();
    write_gone(w, table, base, end)?;
    w.put(u32::from(end), u32::from(table.bits()))
}

/// Writes an entity, and in front of it what is gone below its number. Lends what is left of the base after it.
fn write_entry<'a>(
    w: &mut Writer,
    table: &Table,
    baselines: &Baselines,
    base: Run<'a>,
    entity: &EntityState,
) -> Result<Run<'a>, Overflow>
    ensures writes { Writes w.old w.new (entry_bits w.old.words table.now baselines.now
        (run_of base.entry) entity.now) (done result) }
    ensures left { IfOk result (λ left. run_of left ≡ left_after entity.now (run_of base.entry)) }
{
    let (from, others) = take_number(base, entity.number);
    if let Some(from) = from {
        write_entity(w, table, from, entity, false)?;
        return Ok(others);
    }
    write_past_gone(w, table, baselines, base, entity)
}

/// The same, where the base doesn't begin with the entity.
fn write_past_gone<'a>(
    w: &mut Writer,
    table: &Table,
    baselines: &Baselines,
    base: Run<'a>,
    entity: &EntityState,
) -> Result<Run<'a>, Overflow>
    ensures writes { Writes w.old w.new (entry_bits w.old.words table.now baselines.now
        (run_of base.entry) entity.now) (done result) }
    ensures left { IfOk result (λ left. run_of left ≡ left_after entity.now (run_of base.entry)) }
{
    laws::texts_are_written();
    let left = write_gone(w, table, base, entity.number)?;
    let (from, others) = take_number(left, entity.number);
    write_present(w, table, baselines, from, entity)?;
    Ok(others)
}

/// Writes that the entities below a number are gone. Lends what is left of the base.
fn write_gone<'a>(
    w: &mut Writer,
    table: &Table,
    base: Run<'a>,
    number: u16,
) -> Result<Run<'a>, Overflow>
    ensures writes { Writes w.old w.new (removals w.old.words table.now number (run_of base.entry)) (done result) }
    ensures left { IfOk result (λ left. run_of left ≡ from_number number (run_of base.entry)) }
{
    laws::texts_are_written();
    // what stands there fits the room
    prove!(w.length() > 0);
    let mut left = base;
    while let Some((gone, others)) = split_first(left) {
        if gone.number >= number {
            return Ok(left);
        }
        write_removal(w, table, gone.number)?;
        left = others;
    }
    Ok(left)
}

/// Writes an entity that there is now, unforced against the base's, or by force from its baseline.
fn write_present(
    w: &mut Writer,
    table: &Table,
    baselines: &Baselines,
    from: Option<&EntityState>,
    entity: &EntityState,
) -> Result<(), Overflow>
    ensures { Writes w.old w.new (piece w.old.words table.now baselines.now entity.now.number
        (option_copied from.entry) (Some entity.now)) result }
{
    match from {
        Some(from) => write_entity(w, table, from, entity, false),
        None => write_entity(w, table, &baselines.state(entity.number), entity, true),
    }
}
