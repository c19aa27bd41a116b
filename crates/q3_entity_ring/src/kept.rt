//! What is kept of snapshots beside their entities. Keeps the rules "server frames and their shared entity ring" and "held
//! snapshots of a client", the engine's `PACKET_BACKUP` frames of a client (server.h) and snapshots (client.h).

ghost use Rattle.std.specs.Prelude.{◌≡◌, length, IfOk};
ghost use Rattle.std.specs.Option.{option_copied};
ghost use Rattle.q3_entity_ring.specs.Places.{most_places, no_places, at_number, put_at_number};

use arrayvec::ArrayVec;
use q3_player::SnapHead;
use std::alloc::{AllocError as NoMemory, Global};
use std::marker::Model;

/// How many snapshots are kept, the engine's `PACKET_BACKUP` (qcommon.h).
pub const PLACES: u32 = 32;

/// A snapshot whose entities lie in a ring.
#[derive(Drop)]
pub struct Kept {
    pub head: SnapHead,
    /// How many entities were placed in the ring before its own.
    pub first: u64,
    /// How many it has.
    pub count: usize,
    /// How many were counted before its own: more than were placed where some lie in the ring once for several snapshots.
    pub counted: u64,
}

/// 32 places for what is kept of snapshots: each has the place of its number modulo 32. `new` takes memory, and no other
/// call does.
#[derive(Drop)]
pub struct Places {
    places: Vec<Option<Kept>>,
}

impl Model for Places {
    ghost use Rattle.std.specs.Prelude.{◌≡◌, List, length, Option};
    ghost use Rattle.q3_entity_ring.specs.declared.kept.Kept.{Kept};
    ghost use Rattle.q3_entity_ring.specs.Places.{most_places};

    ghost Value = { List (Option Kept) };

    ghost view = { λ p. p.places.items };

    ghost invariant = { λ p. length p.places.items ≡ most_places };
}

impl Places {
    /// Nothing is kept. `Err` is want of memory.
    pub fn new(alloc: Global) -> Result<Places, NoMemory>
        ensures { IfOk result (λ places. places ≡ no_places) }
    {
        let mut places = Vec::with_capacity(alloc, PLACES as usize)?;
        for _ in 0..PLACES {
            places.push(None)?;
        }
        Ok(Places { places })
    }

    /// What stands in the place of a number, whatever number it has itself.
    pub fn at(&self, number: u32) -> Option<&Kept>
        ensures kept { option_copied result ≡ at_number self.now number }
        ensures places { length self.now ≡ most_places }
    {
        self.places[(number % PLACES) as usize].as_ref()
    }

    /// Keeps a snapshot's head, with how many entities were placed before its own, how many it has, and how many were counted
    /// before them. What stood in the place of its number is gone.
    pub fn keep(&mut self, head: &SnapHead, first: u64, count: usize, counted: u64)
        ensures { self.new ≡ put_at_number self.old head.now.number
            (record { head = head.now; first = first; count = count; counted = counted }) }
    {
        self.places[(head.number % PLACES) as usize] = Some(Kept {
            head: copy_head(head),
            first,
            count,
            counted,
        });
    }

    /// Keeps nothing more.
    pub fn clear(&mut self)
        ensures { self.new ≡ no_places }
    {
        for place in self.places.iter_mut() {
            *place = None;
        }
    }
}

/// A head like this one.
pub fn copy_head(head: &SnapHead) -> SnapHead
    ensures { result ≡ head.now }
{
    let mut area = ArrayVec::new();
    let _ = area.try_extend_from_slice(&head.area);
    SnapHead {
        number: head.number,
        time: head.time,
        flags: head.flags,
        area,
        player: head.player,
    }
}
