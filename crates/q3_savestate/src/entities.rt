//! Entities and baselines as bytes.

ghost use Rattle.std.specs.Prelude.{◌≡◌, ◌<◌, [], ◌∷◌, length, replicate};
ghost use Rattle.std.specs.List.{flat_map};
ghost use Rattle.q3_io.specs.Faults.{HasCause};
ghost use Rattle.q3_io.specs.Written.{Adds};
ghost use Rattle.q3_entity.specs.Baselines.{most_baselines, no_baselines, set_at, set_baselines};
ghost use Rattle.q3_savestate.specs.Cursor.{found_in};
ghost use Rattle.q3_savestate.specs.Entities.{words_bytes, state_words_at, entity_bytes, entity_at, baselines_bytes, baselines_at};

use crate::cursor::Cursor;
use crate::writing::write_short;
use byteorder::{ByteOrder, LittleEndian};
use q3_entity::{Baselines, EntityState, MOST_BASELINES};
use q3_fields::Table;
use q3_io::{Failed, Sink, laws};

/// Writes the words of a table's fields.
pub(crate) fn write_words<O: Sink>(
    table: &Table,
    words: &[u32; 64],
    out: &mut O,
) -> Result<(), Failed>
    ensures adds { Adds (O.written out.old) (O.written out.new) (words_bytes table.now.kinds words.now) result }
    ensures cause { HasCause (O.faults out.old) (O.faults out.new) result }
{
    let count = table.count();
    let mut bytes = [0; 256];
    LittleEndian::write_u32_into(&words[..count], &mut bytes[..4 * count]);
    out.write_all(&bytes[..4 * count])
}

/// Reads the words of a table's fields. Those after them stay 0.
pub(crate) fn read_words(
    cursor: &mut Cursor,
    table: &Table,
    words: &mut [u32; 64],
) -> Result<(), usize>
    requires { words.old ≡ replicate 64 0 }
    ensures { found_in result words.new cursor.new ≡ state_words_at table.now.kinds cursor.old }
{
    for i in 0..table.count() {
        if let Some(kind) = table.kind(i) {
            words[i] = cursor.word(kind)?;
        }
    }
    Ok(())
}

/// Writes an entity.
pub(crate) fn write_entity<O: Sink>(
    table: &Table,
    entity: &EntityState,
    out: &mut O,
) -> Result<(), Failed>
    ensures adds { Adds (O.written out.old) (O.written out.new) (entity_bytes table.now entity.now) result }
    ensures cause { HasCause (O.faults out.old) (O.faults out.new) result }
{
    laws::texts_follow();
    write_short(entity.number, out)?;
    write_words(table, &entity.words, out)
}

/// Reads an entity, whose number is at least this one.
#[tactic(auto, unfolding(crate::specs::Entities::entity_at, q3_entity::specs::Entities::zero_entity))]
pub(crate) fn read_entity(
    cursor: &mut Cursor,
    table: &Table,
    least: u16,
    entity: &mut EntityState,
) -> Result<(), usize>
    ensures { found_in result entity.new cursor.new ≡ entity_at table.now least cursor.old }
{
    let number = cursor.short(least, table.end() - 1)?;
    *entity = EntityState::zero(number);
    read_words(cursor, table, &mut entity.words)
}

/// Writes the baselines that are set.
pub(crate) fn write_baselines<O: Sink>(
    table: &Table,
    baselines: &Baselines,
    out: &mut O,
) -> Result<(), Failed>
    ensures adds { Adds (O.written out.old) (O.written out.new) (baselines_bytes table.now baselines.now) result }
    ensures cause { HasCause (O.faults out.old) (O.faults out.new) result }
{
    laws::texts_follow();
    write_short(baselines.count(), out)?;
    for number in 0..MOST_BASELINES {
        write_baseline(table, baselines, number, out)?;
    }
    Ok(())
}

/// Writes the baseline of a number, if it is set.
fn write_baseline<O: Sink>(
    table: &Table,
    baselines: &Baselines,
    number: u16,
    out: &mut O,
) -> Result<(), Failed>
    ensures adds { Adds (O.written out.old) (O.written out.new)
        (flat_map (entity_bytes table.now) (set_baselines (set_at baselines.now number ∷ []))) result }
    ensures cause { HasCause (O.faults out.old) (O.faults out.new) result }
    ensures places { length baselines.now ≡ most_baselines }
{
    match baselines.get(number) {
        Some(state) => write_entity(table, state, out),
        None => Ok(()),
    }
}

/// Reads baselines.
#[tactic(auto, unfolding(crate::specs::Entities::baselines_at))]
pub(crate) fn read_baselines(
    cursor: &mut Cursor,
    table: &Table,
    baselines: &mut Baselines,
) -> Result<(), usize>
    requires { baselines.old ≡ no_baselines }
    ensures { found_in result baselines.new cursor.new ≡ baselines_at table.now cursor.old }
{
    let count = cursor.short(0, table.end())?;
    let mut entity = EntityState::zero(0);
    let mut least = 0;
    for _ in 0..count {
        read_entity(cursor, table, least, &mut entity)?;
        baselines.set(&entity);
        least = entity.number + 1;
    }
    Ok(())
}
