//! An entity in an event.

ghost use Rattle.std.specs.Prelude.{◌≡◌, IfOk};
ghost use Rattle.std.proofs.Common.{rules};
ghost use Rattle.std.specs.Cmp.Rules.{comparing};

use crate::sparse::{Places, count_words, push_words, put};
use q3_bits::NoMemory;
use q3_entity::EntityState;
use q3_player::laws::arrays_are_kept;
use std::alloc::Global;
use std::marker::Model;

/// An entity in as much memory as it has words that aren't 0: eight bytes for each, and none where there are none.
/// To a caller it is the entity.
#[derive(Debug, Drop)]
pub struct KeptEntity {
    number: u16,
    words: Places,
}

impl Model for KeptEntity {
    ghost use Rattle.std.specs.Prelude.{◌≢◌, All};
    ghost use Rattle.q3_entity.specs.declared.state.EntityState.{EntityState};
    ghost use Rattle.q3_fields.specs.Places.{AreRising};
    ghost use Rattle.q3_words.specs.Fields.{entity_of};

    ghost Value = { EntityState };

    ghost view = { λ kept. entity_of kept.number kept.words.items };

    ghost invariant = { λ kept. AreRising 64 0 kept.words.items × All (λ change. change.1 ≢ 0) kept.words.items };
}

impl PartialEq for KeptEntity {
    ghost use Rattle.std.specs.Prelude.{◌==◌};
    ghost use Rattle.std.specs.Cmp.Lexicographic.{pointwise};
    ghost use Rattle.std.specs.Ordering.{on, eq_of_both};

    ghost eq = { eq_of_both (on (λ e. e.number) ◌==◌) (on (λ e. e.words) (pointwise ◌==◌)) };

    ghost laws = { Prim.search (comparing, rules) };

    fn eq(&self, other: &KeptEntity) -> bool {
        self.state() == other.state()
    }
}

impl Eq for KeptEntity {
    ghost laws = { Prim.search (comparing, rules) };
}

impl KeptEntity {
    /// Keeps an entity. `Err` is want of memory.
    pub fn of(alloc: Global, state: &EntityState) -> Result<KeptEntity, NoMemory>
        ensures { IfOk result (λ kept. kept ≡ state.now) }
    {
        arrays_are_kept();
        let mut words = Vec::with_capacity(alloc, count_words(&state.words))?;
        push_words(&mut words, 0, &state.words)?;
        Ok(KeptEntity {
            number: state.number,
            words,
        })
    }

    /// The entity.
    pub fn state(&self) -> EntityState
        ensures { result ≡ self.now }
    {
        let mut state = EntityState::zero(self.number);
        put(&self.words, &mut state.words);
        state
    }
}
