//! What a message is read against.

ghost use Rattle.std.specs.Prelude.{◌≡◌, ◌≤◌, None, IfOk};
ghost use Rattle.q3_entity.specs.Baselines.{no_baselines};
ghost use Rattle.q3_entity.specs.Entities.{Rises};
ghost use Rattle.q3_rings.specs.Rings.{no_snapshots, held_snapshot};
ghost use Rattle.q3_clstate.specs.State.{skipped_for};
ghost use Rattle.q3_clstate.specs.State as spec;
ghost use Rattle.q3_clstate.specs.Kept.{held_after, read_outcome, skipped_outcome};

use crate::applied::SnapOutcome;
use q3_bits::NoMemory;
use q3_entity::Baselines;
use q3_rings::{NoBase, Rings};
use q3_svmsg::{BaseView, Bases, ServerMessage};
use std::alloc::Global;
use std::mem::swap;

/// What a message is read against.
#[derive(Drop)]
pub(crate) struct Holding {
    /// The snapshots that are held, each accepted since the last gamestate.
    pub rings: Rings,
    /// Those of the last gamestate.
    pub baselines: Baselines,
}

impl Holding {
    /// Nothing is held, in a ring for 512 to 65,536 entities, and no baseline is set. `Err` is want of memory.
    pub fn new(alloc: Global, ring: u32) -> Result<Holding, NoMemory>
        requires least { 512 ≤ ring }
        requires most { ring ≤ 65536 }
        ensures held { IfOk result (λ holding. holding.rings.held ≡ no_snapshots ring) }
        ensures baselines { IfOk result (λ holding. holding.baselines ≡ no_baselines) }
        ensures none { IfOk result (λ holding. holding.rings.begun ≡ None) }
        ensures placed { IfOk result (λ holding. holding.rings.placed ≡ 0) }
    {
        Ok(Holding {
            rings: Rings::new(alloc, ring)?,
            baselines: Baselines::new(alloc)?,
        })
    }

    /// A gamestate was read: nothing of before is held any more, no entity counts as placed, and its baselines take the place of
    /// the others.
    pub fn start(&mut self, message: &mut ServerMessage)
        ensures held { self.new.rings.held ≡ no_snapshots self.old.rings.held.ring }
        ensures baselines { self.new.baselines ≡ message.old.baselines }
        ensures none { self.new.rings.begun ≡ None }
        ensures placed { self.new.rings.placed ≡ 0 }
    {
        self.rings.wipe();
        swap(&mut self.baselines, &mut message.baselines);
    }

    /// What becomes of a snapshot that was read under a number: it is accepted where it is newer than all others.
    pub fn accept(&mut self, number: u32, base: u32, message: &ServerMessage) -> SnapOutcome
        requires number { message.now.head.number ≡ number }
        requires rises { Rises message.now.entities.value.items }
        requires none { self.old.rings.begun ≡ None }
        ensures held { self.new.rings.held ≡ held_after self.old.rings.held number
            (record { head = message.now.head; entities = message.now.entities.value.items }) }
        ensures baselines { self.new.baselines ≡ self.old.baselines }
        ensures none { self.new.rings.begun ≡ None }
        ensures outcome { result ≡ read_outcome self.old.rings.held number base }
    {
        if self.is_stale(number) {
            return SnapOutcome::Stale;
        }
        self.rings.accept(&message.head, &message.entities);
        SnapOutcome::Accepted { base }
    }

    /// What is told of a snapshot of a number that was skipped, since its base isn't held.
    pub fn skip(&self, number: u32, base: u32) -> SnapOutcome
        ensures { result ≡ skipped_outcome self.now.rings.held number base }
    {
        if self.is_stale(number) {
            return SnapOutcome::Stale;
        }
        let cause = self.cause(base);
        SnapOutcome::Skipped { base, cause }
    }

    /// Whether a snapshot isn't newer than all that were accepted.
    fn is_stale(&self, number: u32) -> bool
        ensures { result ≡ spec.is_stale self.now.rings.held number }
    {
        number <= self.rings.newest()
    }

    /// Why a snapshot isn't held.
    fn cause(&self, number: u32) -> NoBase
        ensures { result ≡ skipped_for (held_snapshot self.now.rings.held number) }
    {
        match self.rings.base(number) {
            Ok(_) => NoBase::NeverHeld,
            Err(cause) => cause,
        }
    }
}

impl Bases for Holding {
    ghost use Rattle.q3_clstate.specs.State.{context_of};

    ghost context = { λ h. context_of h.rings.held h.baselines };

    fn base(&self, number: u32) -> Option<BaseView<'_>> {
        let view = self.rings.view(number)?;
        Some(BaseView {
            player: view.player,
            entities: view.entities,
        })
    }

    fn baselines(&self) -> &Baselines {
        &self.baselines
    }
}
