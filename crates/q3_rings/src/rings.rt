//! The snapshots that a client holds. Keeps the rule "held snapshots of a client", the engine's `CL_ParseSnapshot`
//! (cl_parse.c); which bases are held is this project's own.

ghost use Rattle.std.specs.Prelude.{◌≡◌, ◌+◌, ◌<◌, ◌≤◌, ◌^◌, [], ◌∷◌, ◌++◌, length, option_map, slice_index_or, None, IfOk, IfSome, MatchOption};
ghost use Rattle.q3_entity.specs.Entities.{Rises, run_of};
ghost use Rattle.q3_entity_ring.specs.Places.{at_number};
ghost use Rattle.q3_rings.specs.Loans.{snapshot_of};
ghost use Rattle.q3_rings.specs.Rings.{AreHeldSnapshots, CanPutBack, no_rings, held_snapshot, view_at, accept_in, restored, put_back_in, begin_in, place_in, end_in};
ghost use Rattle.q3_rings.specs.ByNumber.{GoneAreEmpty};

use crate::views::{Held, SnapView};
use q3_entity::{EntityState, MOST_ENTITIES, Run};
use q3_entity_ring::laws::{others_stay, placed_is_there, put_is_next, put_leaves_others};
use q3_entity_ring::{Kept, Places, Ring, copy_head};
use q3_player::SnapHead;
use std::alloc::{AllocError as NoMemory, Global};
use std::marker::Model;

/// Why a snapshot isn't held.
#[derive(Clone, Copy, Debug, PartialEq, Eq)]
pub enum NoBase {
    /// No snapshot stands in its place, or the number is 0.
    NeverHeld,
    /// The one in its place has this other number.
    Overwritten(u32),
    /// Its entities are gone: its age, which is above the ring's room less 256.
    EntitiesGone(u64),
}

/// A snapshot that is being put back.
#[derive(Drop)]
pub(crate) struct Back {
    head: SnapHead,
    /// How many entities count as placed before its own.
    first: u64,
    /// How many it is to have.
    count: usize,
    /// How many were placed by now.
    placed: usize,
}

/// The newest snapshots accepted, 32 at most, each in the place of its number modulo 32. Their entities lie in one ring.
/// After `new` no call takes memory.
#[derive(Drop)]
pub struct Rings {
    ring: Ring,
    places: Places,
    newest: u32,
    begun: Option<Back>,
}

impl Model for Rings {
    ghost use Rattle.q3_rings.specs.Rings.{RingsState};

    ghost Value = { RingsState };

    ghost use Rattle.q3_rings.specs.KeptRings.{rings_in, AreKept};

    ghost view = { rings_in };

    ghost invariant = { AreKept };
}

impl Rings {
    ghost use Rattle.q3_rings.specs.Loans.{snapshot_of, viewed, head_of, head_from, before_end};

    /// No snapshot was accepted. The ring has room for 512 to 65,536 entities. `Err` is want of memory.
    pub fn new(alloc: Global, ring: u32) -> Result<Rings, NoMemory>
        requires least { 512 ≤ ring }
        requires most { ring ≤ 65536 }
        ensures { IfOk result (λ rings. rings ≡ no_rings ring) }
    {
        Ok(Rings {
            ring: Ring::new(alloc, ring)?,
            places: Places::new(alloc)?,
            newest: 0,
            begun: None,
        })
    }

    /// Lends the snapshot of a number. `NeverHeld` comes exactly where the number is 0 or no snapshot stands in its place,
    /// else `Overwritten` exactly where that one has another number, which it carries, and else `EntitiesGone` exactly where
    /// its age, which it carries, is above the ring's room less 256. Of its entities, in their order, the first piece has
    /// exactly those up to the ring's end, and the second the others, on from the ring's first place.
    pub fn base(&self, number: u32) -> Result<SnapView<'_>, NoBase>
        ensures base { viewed result ≡ held_snapshot self.now.held number }
        ensures rises { IfOk result (λ view. Rises (run_of view.entities)) }
        ensures head { IfOk result (λ view. IfSome (at_number self.now.held.places number)
            (λ held. length view.entities.head.now ≡ before_end self.now held)) }
    {
        if number == 0 {
            return Err(NoBase::NeverHeld);
        }
        let Some(kept) = self.places.at(number) else {
            return Err(NoBase::NeverHeld);
        };
        if kept.head.number != number {
            return Err(NoBase::Overwritten(kept.head.number));
        }
        let age = self.ring.placed() - kept.first;
        if age > (self.ring.room() - MOST_ENTITIES) as u64 {
            return Err(NoBase::EntitiesGone(age));
        }
        Ok(view_of(kept, self.ring.lend(kept.first, kept.count)))
    }

    /// Lends the snapshot of a number, if it is held, as `base` does.
    pub fn view(&self, number: u32) -> Option<SnapView<'_>>
        ensures view { option_map snapshot_of result ≡ view_at self.now.held number }
        ensures rises { IfSome result (λ view. Rises (run_of view.entities)) }
        ensures head { IfSome result (λ view. IfSome (at_number self.now.held.places number)
            (λ held. length view.entities.head.now ≡ before_end self.now held)) }
    {
        self.base(number).ok()
    }

    /// Lends the head of the snapshot in a place below 32, and its age, also where its entities are gone. `None` comes
    /// exactly where none stands there.
    pub fn held(&self, place: u8) -> Option<Held<'_>>
        requires { place < 32 }
        ensures { option_map head_of result ≡ option_map head_from (slice_index_or self.now.held.places place None) }
    {
        let kept = self.places.at(u32::from(place))?;
        Some(Held {
            head: &kept.head,
            age: self.ring.placed() - kept.first,
        })
    }

    /// Accepts a snapshot, whose number is above the newest: all others are older by its entities. What stood in the place
    /// of its number is gone. The entities rise by number, and there are at most 256. None is being put back.
    pub fn accept(&mut self, head: &SnapHead, entities: &[EntityState])
        requires newer { self.old.held.newest < head.now.number }
        requires rises { Rises entities.now }
        requires none { self.old.begun ≡ None }
        ensures { self.new ≡ accept_in self.old (record { head = head.now; entities = entities.now }) }
    {
        placed_is_there();
        others_stay();
        let first = self.ring.placed();
        self.ring.place(entities);
        self.places.keep(head, first, entities.len(), first);
        self.newest = head.number;
    }

    /// Holds nothing more, and counts entities anew.
    pub fn wipe(&mut self)
        ensures { self.new ≡ no_rings self.old.held.ring }
    {
        self.ring.clear();
        self.places.clear();
        self.newest = 0;
        self.begun = None;
    }

    /// Holds nothing more, and so many entities, 2^32 at most, count as placed: snapshots of at most this age may be put back.
    pub fn restore(&mut self, placed: u64)
        requires { placed ≤ 2 ^ 32 }
        ensures { self.new ≡ restored self.old placed }
    {
        self.wipe();
        self.ring.restore(placed);
    }

    /// Holds a snapshot again, at the age that it had: `begin_back`, `place_back` and `end_back` at once.
    pub fn put_back(&mut self, head: &SnapHead, age: u64, entities: &[EntityState])
        requires none { self.old.begun ≡ None }
        requires placed { age ≤ self.old.placed }
        requires can { CanPutBack self.old.held head.now.number age (length entities.now) }
        requires rises { Rises entities.now }
        ensures { self.new ≡ put_back_in self.old
            (record { snapshot = record { head = head.now; entities = entities.now }; age = age }) }
    {
        self.begin_back(head, age, entities.len());
        for entity in entities {
            self.place_back(entity);
        }
        self.end_back();
    }

    /// Begins to put back a snapshot that had this age, and so many entities. It is held only once all of them are placed. Its
    /// number is above the newest; its age is at most the count of entities placed, and at least its own entities, of which it
    /// has none where they are gone by its age; and all that is held is older than that, each by its own entities.
    pub fn begin_back(&mut self, head: &SnapHead, age: u64, count: usize)
        requires none { self.old.begun ≡ None }
        requires placed { age ≤ self.old.placed }
        requires can { CanPutBack self.old.held head.now.number age count }
        ensures { self.new ≡ begin_in self.old head.now age count }
    {
        self.begun = Some(Back {
            head: copy_head(head),
            first: self.ring.placed() - age,
            count,
            placed: 0,
        });
    }

    /// Places the next entity of the snapshot that is being put back. Its number is above that of the one before.
    pub fn place_back(&mut self, entity: &EntityState)
        requires { MatchOption self.old.begun ⊥ (λ begun. (length begun.entities < begun.count)
            × Rises (begun.entities ++ entity.now ∷ [])) }
        ensures { self.new ≡ place_in self.old entity.now }
    {
        put_is_next();
        put_leaves_others();
        if let Some(back) = &mut self.begun {
            self.ring.put(back.first + back.placed as u64, entity);
            back.placed += 1;
        }
    }

    /// The snapshot that is being put back has all its entities, and is held from now on. What stood in the place of its number
    /// is gone.
    pub fn end_back(&mut self)
        requires { MatchOption self.old.begun ⊥ (λ begun. length begun.entities ≡ begun.count) }
        ensures { self.new ≡ end_in self.old }
    {
        if let Some(back) = self.begun.take() {
            self.places
                .keep(&back.head, back.first, back.count, back.first);
            self.newest = back.head.number;
        }
    }

    /// How many entities were placed since `new` or the last `wipe`, or count as placed by `restore` and were placed since.
    pub fn placed(&self) -> u64
        ensures { result ≡ self.now.placed }
    {
        self.ring.placed()
    }

    /// The newest number accepted or put back since `new`, the last `wipe` or the last `restore`, 0 for none.
    pub fn newest(&self) -> u32
        ensures newest { result ≡ self.now.held.newest }
        ensures held { AreHeldSnapshots self.now.held }
        ensures gone { GoneAreEmpty self.now.held }
    {
        self.newest
    }
}

/// What is kept of a snapshot, and its entities, as a view.
fn view_of<'a>(kept: &'a Kept, entities: Run<'a>) -> SnapView<'a>
    ensures snapshot { snapshot_of result ≡ record { head = kept.now.head; entities = run_of entities.entry } }
    ensures head { length result.entities.head.now ≡ length entities.entry.head.now }
{
    SnapView {
        number: kept.head.number,
        time: kept.head.time,
        flags: kept.head.flags,
        area: &kept.head.area,
        player: &kept.head.player,
        entities,
    }
}
