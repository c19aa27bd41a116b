//! The frames of each slot. Keeps the rules "server frames and their shared entity ring" and "choice of the delta base", the
//! engine's `SV_BuildClientSnapshot` and `SV_WriteSnapshotToClient` (sv_snapshot.c); the comparisons are this project's own.

ghost use Rattle.std.specs.Prelude.{◌≡◌, ◌+◌, ◌^◌, ◌<◌, ◌≤◌, length, option_map, replicate, IfOk, IfSome};
ghost use Rattle.q3_entity.specs.Entities.{Rises, run_of};
ghost use Rattle.q3_entity_ring.specs.Places.{no_places};
ghost use Rattle.q3_entity_ring.specs.Ring.{PlacesOnce};
ghost use Rattle.q3_frames.specs.Frames.{no_frames, base_of, build_at};
ghost use Rattle.q3_frames.specs.Frames as spec;

use q3_entity::{EntityState, Run};
use q3_entity_ring::{Places, Ring, laws};
use q3_player::{PlayerState, SnapHead};
use std::alloc::{AllocError as NoMemory, Global};
use std::marker::Model;

/// A base is nearer to its message than this: the engine's `PACKET_BACKUP - 3`.
const DISTANCE_END: u32 = 29;

/// A frame that a message is written against, where it lies.
#[derive(Clone, Copy)]
pub struct Base<'a> {
    pub number: u32,
    pub player: &'a PlayerState,
    /// By rising number.
    pub entities: Run<'a>,
}

/// For each slot its newest frames, 32 at most, each in the place of its number modulo 32. The entities of all frames lie in
/// one ring, and those of frames that are built one after the other for several slots from the same entities lie there once.
/// After `new` no call takes memory.
#[derive(Drop)]
pub struct Frames {
    ring: Ring,
    slots: Vec<Places>,
    /// How many entities the frames had, all together: no fewer than were placed in the ring.
    placed: u64,
    /// Whether a change was noted since entities were placed last.
    changed: bool,
    /// The slot of the frame that was built last.
    last: u8,
}

impl Model for Frames {
    ghost use Rattle.q3_frames.specs.Frames.{FramesState};

    ghost Value = { FramesState };

    ghost use Rattle.q3_frames.specs.KeptFrames.{frames_in, AreKept};

    ghost view = { frames_in };

    ghost invariant = { AreKept };
}

impl Frames {
    ghost use Rattle.q3_frames.specs.Frames.{AreFrames};
    ghost use Rattle.q3_frames.specs.Loans.{loan_of, loan_from};

    /// Frames of 1 to 16 slots, with a ring for 256 to 262,144 entities. `Err` is want of memory.
    pub fn new(alloc: Global, slots: u8, ring: u32) -> Result<Frames, NoMemory>
        requires some { 1 ≤ slots }
        requires most { slots ≤ 16 }
        requires ring_least { 256 ≤ ring }
        requires ring_most { ring ≤ 262144 }
        ensures { IfOk result (λ frames. frames ≡ no_frames slots ring) }
    {
        Ok(Frames {
            ring: Ring::new(alloc, ring)?,
            slots: empty_slots(alloc, slots)?,
            placed: 0,
            changed: false,
            last: 0,
        })
    }

    /// Notes that the entities of the next frames may be others than those of the last one, so that the next that are placed
    /// aren't compared with these. What frames there are stays.
    pub fn note_change(&mut self)
        ensures { self.new ≡ self.old }
    {
        self.changed = true;
    }

    /// Builds a frame of a slot: its head, and its entities, which count after those of all frames before it. What stood in
    /// the place of its number is gone. The entities rise by number, and there are at most 256.
    pub fn build(&mut self, slot: u8, head: &SnapHead, entities: &[EntityState])
        requires slot { slot < length self.old.slots }
        requires placed { self.old.placed ≤ 2 ^ 62 }
        requires rises { Rises entities.now }
        ensures { self.new ≡ build_at self.old slot (record { head = head.now; entities = entities.now }) }
    {
        laws::placed_is_there();
        laws::others_stay();
        // a slot that comes again begins another round
        let first = place_or_share(&mut self.ring, entities, self.changed || slot == self.last);
        self.slots[slot as usize].keep(head, first, entities.len(), self.placed);
        self.placed += entities.len() as u64;
        self.changed = self.changed && entities.is_empty();
        self.last = slot;
    }

    /// Lends the base of a slot's message, whose own frame was built before: the frame of the client's delta number, 0 for
    /// none. `None` comes exactly where there is no such slot, where that isn't below the message, or by more than 28, where no
    /// frame of this very number stands in its place, or where its first entity with the ring's room isn't above the count of entities placed.
    pub fn base_for(&self, slot: u8, number: u32, delta: u32) -> Option<Base<'_>>
        ensures base { option_map loan_of result ≡ option_map loan_from (base_of self.now slot number delta) }
        ensures rises { IfSome result (λ base. Rises (run_of base.entities)) }
    {
        if !is_near(number, delta) {
            return None;
        }
        let frame = self.slots.get(slot as usize)?.at(delta)?;
        if frame.head.number != delta || self.placed - frame.counted >= self.ring.room() as u64 {
            return None;
        }
        Some(Base {
            number: delta,
            player: &frame.head.player,
            entities: self.ring.lend(frame.first, frame.count),
        })
    }

    /// How many entities were ever placed, those of all slots together.
    pub fn placed(&self) -> u64
        ensures placed { result ≡ self.now.placed }
        ensures frames { AreFrames self.now }
    {
        self.placed
    }
}

/// Places entities in a ring, or lets them share the places of those that were placed last, if these are the same, and answers how
/// many were placed before them. Fresh ones are placed with no comparison.
fn place_or_share(ring: &mut Ring, entities: &[EntityState], fresh: bool) -> u64
    requires few { length entities.now ≤ length ring.old.recent }
    requires count { ring.old.placed + length entities.now < 2 ^ 64 }
    ensures { PlacesOnce ring.old ring.new entities.now result }
{
    if !fresh {
        return ring.place_once(entities);
    }
    let first = ring.placed();
    ring.place(entities);
    first
}

/// Whether the frame of a number may be the base of a message, by the numbers.
fn is_near(number: u32, base: u32) -> bool
    ensures { result ≡ spec.is_near number base }
{
    0 < base && base < number && number - base < DISTANCE_END
}

/// Slots for which nothing was built. `Err` is want of memory.
fn empty_slots(alloc: Global, count: u8) -> Result<Vec<Places>, NoMemory>
    ensures { IfOk result (λ made. made.items ≡ replicate count no_places) }
{
    let mut made = Vec::with_capacity(alloc, count as usize)?;
    for _ in 0..count {
        made.push(Places::new(alloc)?)?;
    }
    Ok(made)
}
