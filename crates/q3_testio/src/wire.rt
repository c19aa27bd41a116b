//! A wire in memory.

ghost use Rattle.std.specs.Prelude.{◌≡◌, ◌-◌, ◌<◌, ◌≤◌, [], ◌∷◌, ◌++◌, length, take, min, Option, Some, None, IfOk, IfSome, is_ok, is_some, false, true, option_map, slice_get};
ghost use Rattle.q3_io.specs.Faults.{HasCause};
ghost use Rattle.q3_io.specs.Traffic.{Binds, Sends, Receives};
ghost use Rattle.q3_testio.specs.MemoryCalls.{one_more};
ghost use Rattle.q3_testio.specs.Parcels.{found_of};
ghost use Rattle.q3_testio.specs.MemoryWire.{no_traffic, goes, after_bind, sends, after_send, after_receive, can_tell, after_telling};

use crate::calls::Calls;
use crate::parcels::Parcels;
use q3_io::{Address, Failed, NoMemory, Wire};
use std::alloc::Global;
use std::marker::Model;

/// Nobody's address, of an arrival that isn't ready.
const NOBODY: Address = Address { host: 0, port: 0 };

/// Gives the arrivals that it was told of, one a receive, and keeps what is sent, as far as its room goes.
#[derive(Drop)]
pub struct MemWire {
    at: Option<Address>,
    ready: Vec<bool>,
    arrivals: Parcels,
    next: usize,
    sent: Parcels,
    room: usize,
    calls: Calls,
    faults: u64,
}

impl Model for MemWire {
    ghost use Rattle.std.specs.Prelude.{◌≡◌, ◌≤◌, ◌+◌, length, drop, vec_capacity};
    ghost use Rattle.q3_testio.specs.Parcels.{arrivals_of};
    ghost use Rattle.q3_testio.specs.MemoryWire.{WireState};

    ghost Value = { WireState };

    ghost view = { λ w. record {
      traffic = record {
        at = w.at;
        arrivals = drop w.next (arrivals_of w.ready.items w.arrivals.parcels);
        sent = w.sent.parcels;
      };
      arrivals = w.arrivals.spare;
      sends = w.sent.spare;
      room = w.room;
      calls = w.calls;
      faults = w.faults;
    } };

    ghost invariant = { λ w. (length w.ready.items ≡ length w.arrivals.parcels) × (w.next ≤ length w.ready.items)
        × (length w.arrivals.parcels + w.arrivals.spare ≤ vec_capacity w.ready) × (w.room ≤ w.arrivals.room)
        × (w.room ≤ w.sent.room) };
}

impl MemWire {
    /// A wire with room for so many arrivals and so many sendings, and for so many bytes of both, whose calls with these numbers fail,
    /// counted from 1 over `bind`, `send` and `receive`. `Err` is want of memory.
    #[tactic(auto, unfolding(crate::specs::Parcels::arrivals_of))]
    pub fn new(
        alloc: Global,
        arrivals: usize,
        sends: usize,
        room: usize,
        fails: &[u64],
    ) -> Result<MemWire, NoMemory>
        ensures { IfOk result (λ wire. wire ≡ no_traffic arrivals sends room fails.now) }
    {
        Ok(MemWire {
            at: None,
            ready: Vec::with_capacity(alloc, arrivals)?,
            arrivals: Parcels::new(alloc, arrivals, room)?,
            next: 0,
            sent: Parcels::new(alloc, sends, room)?,
            room,
            calls: Calls::new(alloc, fails)?,
            faults: 0,
        })
    }

    /// One further `receive` finds this datagram, after all that was told before. False exactly where the room is spent.
    pub fn ready(&mut self, from: Address, bytes: &[u8]) -> bool
        ensures told { result ≡ can_tell self.old bytes.now }
        ensures whole { self.new ≡ after_telling self.old (Some (record { address = from; bytes = bytes.now }))
            bytes.now }
    {
        if self.arrivals.spare() == 0 || bytes.len() > self.room {
            return false;
        }
        self.tell(true, from, bytes);
        true
    }

    /// One further `receive` finds nothing ready. False exactly where the room is spent.
    pub fn not_ready(&mut self) -> bool
        ensures told { result ≡ can_tell self.old [] }
        ensures whole { self.new ≡ after_telling self.old None [] }
    {
        if self.arrivals.spare() == 0 {
            return false;
        }
        self.tell(false, NOBODY, &[]);
        true
    }

    /// The datagram that was sent at this place, counted from 0: where it went to, and its bytes.
    pub fn sent(&self, k: usize) -> Option<(Address, &[u8])>
        ensures { option_map (λ sent. record { address = sent.0; bytes = sent.1.now }) result
            ≡ slice_get self.now.traffic.sent k }
    {
        if k >= self.sent.count() {
            return None;
        }
        Some((self.sent.address(k), self.sent.bytes(k)))
    }

    /// Puts what one further `receive` finds after the others.
    #[tactic(auto, using(crate::proofs::ParcelPlaces::told_more))]
    fn tell(&mut self, ready: bool, from: Address, bytes: &[u8])
        requires spare { 0 < self.old.arrivals }
        requires room { length bytes.now ≤ self.old.room }
        ensures { self.new ≡ record self.old {
          traffic = record self.old.traffic {
            arrivals = self.old.traffic.arrivals ++ found_of ready (record { address = from; bytes = bytes.now }) ∷ [];
          };
          arrivals = self.old.arrivals - 1;
          room = self.old.room - length bytes.now;
        } }
    {
        self.arrivals.push(from, bytes);
        self.ready.push_reserved(ready);
        self.room -= bytes.len();
    }

    fn fault<T>(&mut self) -> Result<T, Failed>
        ensures whole { self.new ≡ record self.old { faults = one_more self.old.faults } }
        ensures failed { is_ok result ≡ false }
        ensures cause { HasCause self.old.faults self.new.faults result }
    {
        self.faults = self.faults.saturating_add(1);
        Err(Failed)
    }
}

/// Copies the first bytes of a datagram, as many as the buffer holds, and answers how many.
fn copy_into(bytes: &[u8], into: &mut [u8]) -> usize
    ensures count { result ≡ min (length bytes.now) (length into.old) }
    ensures bytes { take result into.new ≡ take result bytes.now }
    ensures length { length into.new ≡ length into.old }
{
    let count = bytes.len().min(into.len());
    into[..count].copy_from_slice(&bytes[..count]);
    count
}

impl Wire for MemWire {
    ghost faults = { λ w. w.faults };

    ghost bound = { λ w. is_some w.traffic.at };

    ghost told = { λ w. Some w.traffic };

    /// An address is taken, also one that another wire has.
    fn bind(&mut self, at: Address) -> Result<(), Failed>
        requires { is_some self.old.traffic.at ≡ false }
        ensures bound { is_some self.new.traffic.at ≡ is_ok result }
        ensures told { Binds (Some self.old.traffic) (Some self.new.traffic) at result }
        ensures cause { HasCause self.old.faults self.new.faults result }
        ensures whole { self.new ≡ after_bind self.old at }
        ensures answer { is_ok result ≡ goes self.old }
    {
        if self.calls.next_fails() {
            return self.fault();
        }
        self.at = Some(at);
        Ok(())
    }

    /// A sending past the room is a fault.
    fn send(&mut self, to: Address, bytes: &[u8]) -> Result<(), Failed>
        requires { is_some self.old.traffic.at ≡ true }
        ensures bound { is_some self.new.traffic.at ≡ true }
        ensures told { Sends (Some self.old.traffic) (Some self.new.traffic) to bytes.now result }
        ensures cause { HasCause self.old.faults self.new.faults result }
        ensures whole { self.new ≡ after_send self.old to bytes.now }
        ensures answer { is_ok result ≡ sends self.old bytes.now }
    {
        let fails = self.calls.next_fails();
        if fails || self.sent.spare() == 0 || bytes.len() > self.room {
            return self.fault();
        }
        self.sent.push(to, bytes);
        self.room -= bytes.len();
        Ok(())
    }

    #[tactic(auto, using(crate::proofs::ParcelPlaces::found_at, crate::proofs::ParcelPlaces::none_left))]
    fn receive(&mut self, into: &mut [u8]) -> Result<Option<(Address, usize)>, Failed>
        requires { is_some self.old.traffic.at ≡ true }
        ensures bound { is_some self.new.traffic.at ≡ true }
        ensures count { IfOk result (λ found. IfSome found (λ arrival. arrival.1 ≤ length into.old)) }
        ensures told { Receives (Some self.old.traffic) (Some self.new.traffic) into.old into.new result }
        ensures length { length into.new ≡ length into.old }
        ensures cause { HasCause self.old.faults self.new.faults result }
        ensures whole { self.new ≡ after_receive self.old }
        ensures answer { is_ok result ≡ goes self.old }
    {
        if self.calls.next_fails() {
            return self.fault();
        }
        let k = self.next;
        if k == self.ready.len() {
            return Ok(None);
        }
        self.next += 1;
        if !self.ready[k] {
            return Ok(None);
        }
        let count = copy_into(self.arrivals.bytes(k), into);
        Ok(Some((self.arrivals.address(k), count)))
    }
}
