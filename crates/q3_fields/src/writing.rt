//! Writes a changed field. Keeps the rules "entity delta" and "player delta" for one field, the engine's
//! `MSG_WriteDeltaEntity` and `MSG_WriteDeltaPlayerstate`.

ghost use Rattle.std.specs.Prelude.{◌≡◌, ◌<◌, ◌≤◌, ◌^◌, ◌++◌, option_map};
ghost use Rattle.q3_bits.specs.Words.{field_bits};
ghost use Rattle.q3_bits.specs.Streams.{Writes};
ghost use Rattle.q3_fields.specs.Kinds.{IsKind};
ghost use Rattle.q3_fields.specs.Floats.{small_float};
ghost use Rattle.q3_fields.specs.Texts.{float_bits, player_field, entity_field};
ghost use Rattle.q3_fields.specs.Texts as spec;

use crate::float::{biased, small_of};
use crate::kind::{Kind, norm};
use q3_bits::{BIT, LONG, Overflow, Writer, laws};

/// Writes a changed field of a player delta.
/// `Overflow` comes exactly where the text doesn't fit the writer's room; a front of it was then written.
pub fn write_player_field(w: &mut Writer, kind: Kind, word: u32) -> Result<(), Overflow>
    requires { IsKind kind }
    ensures { Writes w.old w.new (player_field w.old.words kind word) result }
{
    laws::marks_are_joined();
    write_marked(w, 0, 0, kind, word)
}

/// Writes a changed field of an entity delta.
/// `Overflow` comes exactly where the text doesn't fit the writer's room; a front of it was then written.
#[tactic(auto, unfolding(crate::specs::Texts::entity_field))]
pub fn write_entity_field(w: &mut Writer, kind: Kind, word: u32) -> Result<(), Overflow>
    requires { IsKind kind }
    ensures { Writes w.old w.new (entity_field w.old.words kind word) result }
{
    if norm(kind, word) == 0 {
        return w.put(0, BIT);
    }
    write_marked(w, 1, 1, kind, word)
}

/// Writes a mark of change, and a changed field of an entity delta after it.
#[tactic(auto, unfolding(crate::specs::Texts::entity_field))]
pub(crate) fn write_marked_entity_field(
    w: &mut Writer,
    kind: Kind,
    word: u32,
) -> Result<(), Overflow>
    requires { IsKind kind }
    ensures { Writes w.old w.new (field_bits w.old.words 1 1 ++ entity_field w.old.words kind word) result }
{
    laws::marks_are_joined();
    if norm(kind, word) == 0 {
        return w.put(0b01, 2);
    }
    write_marked(w, 0b11, 2, kind, word)
}

/// Writes a mark of up to 6 bits, and a changed field of a player delta after it.
#[tactic(auto, unfolding(crate::specs::Texts::player_field))]
pub(crate) fn write_marked(
    w: &mut Writer,
    mark: u32,
    count: u32,
    kind: Kind,
    word: u32,
) -> Result<(), Overflow>
    requires kind { IsKind kind }
    requires few { count ≤ 6 }
    requires fits { mark < 2 ^ count }
    ensures { Writes w.old w.new (field_bits w.old.words count mark ++ player_field w.old.words kind word) result }
{
    match kind {
        Kind::Float => write_float(w, mark, count, word),
        Kind::Unsigned(width) => w.put_marked(mark, count, word, u32::from(width)),
        Kind::Signed(width) => w.put_marked(mark, count, word, u32::from(width)),
    }
}

/// Writes a mark of up to 6 bits, and a float: bit 0 and 13 bits where it is small, else bit 1 and its pattern.
fn write_float(w: &mut Writer, mark: u32, count: u32, word: u32) -> Result<(), Overflow>
    requires few { count ≤ 6 }
    requires fits { mark < 2 ^ count }
    ensures { Writes w.old w.new (field_bits w.old.words count mark ++ float_bits w.old.words word (small_float word))
        result }
{
    laws::marks_are_joined();
    let Some(carried) = carried_in_13(word) else {
        return w.put_marked(mark + (1 << count), count + 1, word, LONG);
    };
    w.put_marked(mark, count + 1, carried, 13)
}

/// The 13 bits that carry a small float.
fn carried_in_13(word: u32) -> Option<u32>
    ensures { result ≡ option_map spec.biased (small_float word) }
{
    match small_of(word) {
        None => None,
        Some(k) => Some(biased(k)),
    }
}
