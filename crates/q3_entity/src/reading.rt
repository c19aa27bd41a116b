//! Reads one entity, in every spelling that is accepted. Keeps the rules "entity delta" and "spellings that a reader
//! accepts", the engine's `MSG_ReadDeltaEntity`.

ghost use Rattle.std.specs.Prelude.{◌≡◌};
ghost use Rattle.q3_bits.specs.Streams.{Reads};
ghost use Rattle.q3_entity.specs.Delta.{entity_at, with_words};

use crate::error::EntityError;
use crate::state::EntityState;
use q3_bits::{Reader, laws};
use q3_fields::{StateKind, Table, read_counted};

/// What follows an entity's number.
#[derive(Clone, Copy, Debug, PartialEq, Eq)]
pub enum Entry {
    /// The entity is gone.
    Removed,
    /// It has a delta, which may say what was there.
    Changed,
    /// It is as it was.
    Same,
}

/// Reads what follows an entity's number, which stands in `into` and stays there. The words are those of `from`,
/// as far as the delta doesn't change them. After a refusal they may be any.
#[tactic(auto, unfolding(crate::specs::Delta::entity_at))]
pub fn read_entity(
    r: &mut Reader,
    table: &Table,
    from: &EntityState,
    into: &mut EntityState,
) -> Result<Entry, EntityError>
    ensures reads { Reads r.old r.new (entity_at r.old.words table.now from.now.words r.old.left)
        (with_words into.new.words result) }
    ensures number { into.new.number ≡ into.old.number }
{
    laws::marks_are_bits();
    into.words = from.words;
    // how many of two marks are 0: the first removes the entity, the second says that it changed
    match r.get_run(2)? {
        0 => return Ok(Entry::Removed),
        1 => {}
        _ => return Ok(Entry::Same),
    }
    read_counted(r, StateKind::Entity, table, &mut into.words)?;
    Ok(Entry::Changed)
}
