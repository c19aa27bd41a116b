//! Entities in one ring. Keeps the rules "server frames and their shared entity ring" and "held snapshots of a client", the
//! engine's `svs.snapshotEntities` (sv_snapshot.c) and `cl.parseEntities` (cl_parse.c).

ghost use Rattle.std.specs.Prelude.{◌≡◌, ◌+◌, ◌-◌, ◌%◌, ◌^◌, ◌<◌, ◌≤◌, ◌++◌, length, take, drop, min, max, vec_capacity, IfOk, IsTrue};
ghost use Rattle.q3_entity.specs.Entities.{zero_entity, run_of};
ghost use Rattle.q3_entity_ring.specs.Ring.{new_ring, with_entities, with_entity_at, entities_from, EndsWith, PlacesOnce};
ghost use Rattle.q3_entity_ring.specs.Turned.{turned, filled};

use q3_entity::{EntityState, Run, count_same};
use std::alloc::{AllocError as NoMemory, Global};
use std::marker::Model;

/// Entities, in as many places as there is room for: the one that was placed k-th of all, counted from 0, lies in the
/// place k modulo their number. It has memory of its own, which `new` takes and no other call does. A place is written when
/// the first entity comes to it, and not before.
#[derive(Drop)]
pub struct Ring {
    /// The places that were ever written: they are the first ones.
    cells: Vec<EntityState>,
    room: usize,
    placed: u64,
}

impl Model for Ring {
    ghost use Rattle.q3_entity_ring.specs.Ring.{RingState};

    ghost Value = { RingState };

    ghost use Rattle.q3_entity_ring.specs.Cells.{ring_in, IsRing};

    ghost view = { ring_in };

    ghost invariant = { IsRing };
}

impl Ring {
    /// Room for so many entities, and none was placed. `Err` is want of memory.
    pub fn new(alloc: Global, room: u32) -> Result<Ring, NoMemory>
        requires { 0 < room }
        ensures { IfOk result (λ ring. ring ≡ new_ring room) }
    {
        Ok(Ring {
            cells: Vec::with_capacity(alloc, room as usize)?,
            room: room as usize,
            placed: 0,
        })
    }

    /// How many entities were placed since `new` or the last `clear`.
    pub fn placed(&self) -> u64
        ensures { result ≡ self.now.placed }
    {
        self.placed
    }

    /// For how many entities there is room.
    pub fn room(&self) -> usize
        ensures room { result ≡ length self.now.recent }
        ensures some { 0 < result }
    {
        self.room
    }

    /// Places entities after all others. Each takes the place of the one that was placed `room` before it.
    pub fn place(&mut self, entities: &[EntityState])
        requires few { length entities.now ≤ length self.old.recent }
        requires count { self.old.placed + length entities.now < 2 ^ 64 }
        ensures { self.new ≡ with_entities self.old entities.now }
    {
        let start = (self.placed % self.room as u64) as usize;
        put_round(&mut self.cells, self.room, start, entities);
        self.placed += entities.len() as u64;
    }

    /// Places entities after all others, unless those that were placed last are the same, which then lie there for both.
    /// Answers how many were placed before them.
    pub fn place_once(&mut self, entities: &[EntityState]) -> u64
        requires few { length entities.now ≤ length self.old.recent }
        requires count { self.old.placed + length entities.now < 2 ^ 64 }
        ensures { PlacesOnce self.old self.new entities.now result }
    {
        if self.ends_with(entities) {
            return self.placed - entities.len() as u64;
        }
        let first = self.placed;
        self.place(entities);
        first
    }

    /// Whether the entities that were placed last are these.
    fn ends_with(&self, entities: &[EntityState]) -> bool
        requires { length entities.now ≤ length self.now.recent }
        ensures { IsTrue result → EndsWith self.now entities.now (self.now.placed - length entities.now) }
    {
        let count = entities.len();
        if self.placed < count as u64 {
            return false;
        }
        let last = self.lend(self.placed - count as u64, count);
        is_run(last, entities)
    }

    /// Lends so many entities from one on, which has its number among all that were placed, from 0. All of them were
    /// placed, and none has another in its place by now. `head` goes to the ring's end at most, and `tail` on from the
    /// ring's first place.
    pub fn lend(&self, first: u64, count: usize) -> Run<'_>
        requires placed { first + count ≤ self.now.placed }
        requires there { self.now.placed ≤ first + length self.now.recent }
        ensures entities { run_of result ≡ entities_from self.now first count }
        ensures head { length result.head.now ≡ min count (length self.now.recent - first % length self.now.recent) }
    {
        let start = (first % self.room as u64) as usize;
        let after = self.room - start;
        if count <= after {
            return Run {
                head: &self.cells[start..][..count],
                tail: &[],
            };
        }
        Run {
            head: &self.cells[start..],
            tail: &self.cells[..count - after],
        }
    }

    /// Forgets all entities: the next is placed as the first.
    pub fn clear(&mut self)
        ensures placed { self.new.placed ≡ 0 }
        ensures room { length self.new.recent ≡ length self.old.recent }
    {
        self.placed = 0;
    }

    /// So many count as placed, whichever these were: `put` says what lies where. Places that weren't written yet are, as far as
    /// so many entities take them.
    pub fn restore(&mut self, placed: u64)
        ensures placed { self.new.placed ≡ placed }
        ensures room { length self.new.recent ≡ length self.old.recent }
    {
        fill_up(&mut self.cells, placed.min(self.room as u64) as usize);
        self.placed = placed;
    }

    /// Puts an entity where one lies that was placed: this one has its number among all that were placed, from 0, and none was
    /// placed over it.
    pub fn put(&mut self, number: u64, entity: &EntityState)
        requires placed { number < self.old.placed }
        requires there { self.old.placed ≤ number + length self.old.recent }
        ensures { self.new ≡ with_entity_at self.old number entity.now }
    {
        let place = (number % self.room as u64) as usize;
        self.cells[place] = *entity;
    }
}

/// Zero states after the cells that there are, up to so many.
fn fill_up(cells: &mut Vec<EntityState>, count: usize)
    requires room { count ≤ vec_capacity cells.old }
    ensures least { count ≤ length cells.new.items }
    ensures most { length cells.new.items ≤ max count (length cells.old.items) }
    ensures room { vec_capacity cells.old ≤ vec_capacity cells.new }
{
    if cells.len() < count {
        cells.resize_with(count, || EntityState::zero(0)).unwrap();
    }
}

/// Puts entities into the places from one on, and after the last of so many into those from the first.
fn put_round(cells: &mut Vec<EntityState>, room: usize, start: usize, entities: &[EntityState])
    requires within { start < room }
    requires written { start ≤ length cells.old.items }
    requires most { length cells.old.items ≤ room }
    requires capacity { room ≤ vec_capacity cells.old }
    requires few { length entities.now ≤ room }
    ensures most { length cells.new.items ≤ room }
    ensures same { length cells.old.items ≤ length cells.new.items }
    ensures written { min (start + length entities.now) room ≤ length cells.new.items }
    ensures capacity { room ≤ vec_capacity cells.new }
    ensures cells { turned ((start + length entities.now) % room) (filled (zero_entity 0) room cells.new.items)
        ≡ drop (length entities.now) (turned start (filled (zero_entity 0) room cells.old.items) ++ entities.now) }
{
    let after = room - start;
    if entities.len() <= after {
        put_at(cells, start, entities);
        return;
    }
    put_at(cells, start, &entities[..after]);
    put_at(cells, 0, &entities[after..]);
}

/// Puts entities into the places from one on, as far as they were written, and the others after all of these.
fn put_at(cells: &mut Vec<EntityState>, place: usize, entities: &[EntityState])
    requires within { place ≤ length cells.old.items }
    requires room { place + length entities.now ≤ vec_capacity cells.old }
    ensures cells { cells.new.items ≡ take place cells.old.items ++ entities.now ++ drop
        (place + length entities.now) cells.old.items }
    ensures room { vec_capacity cells.old ≤ vec_capacity cells.new }
{
    let inside = entities.len().min(cells.len() - place);
    put_over(cells, place, &entities[..inside]);
    cells.extend_from_slice(&entities[inside..]).unwrap();
}

/// Puts entities into the places from one on, all of which were written.
fn put_over(cells: &mut Vec<EntityState>, place: usize, entities: &[EntityState])
    requires within { place + length entities.now ≤ length cells.old.items }
    ensures cells { cells.new.items ≡ take place cells.old.items ++ entities.now ++ drop
        (place + length entities.now) cells.old.items }
    ensures room { vec_capacity cells.new ≡ vec_capacity cells.old }
{
    cells[place..place + entities.len()].copy_from_slice(entities);
}

/// Whether the entities that are lent are these.
fn is_run(run: Run, entities: &[EntityState]) -> bool
    ensures { IsTrue result → run_of run.entry ≡ entities.now }
{
    let after = count_same(run.head, entities);
    let most = run.head.len();
    after == most && is_piece(run.tail, &entities[after..])
}

/// The same of entities that lie in one piece.
fn is_piece(piece: &[EntityState], entities: &[EntityState]) -> bool
    ensures { IsTrue result → piece.now ≡ entities.now }
{
    let same = count_same(piece, entities);
    same == piece.len() && same == entities.len()
}
