//! The state of an entity, and lists of them. Keeps the rule "normal form", the engine's `entityState_t`.

ghost use Rattle.std.specs.Prelude.{◌≡◌};
ghost use Rattle.q3_entity.specs.Entities.{zero_entity, normal_entity, run_of};

use arrayvec::ArrayVec;
use q3_fields::{Table, normalize};

/// An entity as the game hands it in and as a snapshot carries it.
#[derive(Clone, Copy, Debug, PartialEq, Eq)]
pub struct EntityState {
    /// The entity's number, below the end mark of its table.
    pub number: u16,
    /// The word of each field of the table, at its place; a float is its pattern.
    pub words: [u32; 64],
}

/// How many entities a list may have: `MAX_ENTITIES_IN_SNAPSHOT` (cg_public.h) is the limit of the engine's client game, and
/// that a 257th entity is refused is this project's own rule.
pub const MOST_ENTITIES: usize = 256;

/// Entities by rising number.
pub type List = ArrayVec<EntityState, MOST_ENTITIES>;

/// Entities by rising number in two pieces, as a ring lends them: `head`, followed by `tail`.
#[derive(Clone, Copy)]
pub struct Run<'a> {
    pub head: &'a [EntityState],
    pub tail: &'a [EntityState],
}

impl<'a> Run<'a> {
    /// Entities in one piece.
    pub fn of(entities: &'a [EntityState]) -> Run<'a>
        ensures { run_of result ≡ entities.now }
    {
        Run {
            head: entities,
            tail: &[],
        }
    }
}

impl Default for EntityState {
    ghost is_default = { λ state. state ≡ zero_entity 0 };

    fn default() -> EntityState {
        EntityState::zero(0)
    }
}

impl EntityState {
    /// The state with nothing in it, under a number.
    #[tactic(auto, unfolding(crate::specs::Entities::zero_entity))]
    pub fn zero(number: u16) -> EntityState
        ensures { result ≡ zero_entity number }
    {
        EntityState {
            number,
            words: [0; 64],
        }
    }

    /// Puts the words into the normal form of their fields, and 0 after the table's fields.
    pub fn normalize(&mut self, table: &Table)
        ensures { self.new ≡ normal_entity table.now self.old }
    {
        normalize(table, &mut self.words);
    }
}
