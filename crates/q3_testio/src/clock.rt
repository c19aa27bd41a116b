//! A clock in memory.

ghost use Rattle.std.specs.Prelude.{◌≡◌, ◌<◌, ◌≤◌, Some, length, IfOk};
ghost use Rattle.q3_io.specs.Readings.{Reads, DontFall};
ghost use Rattle.q3_testio.specs.MemoryClock.{after_reading};

use q3_io::{Clock, NoMemory};
use std::alloc::Global;
use std::marker::Model;

/// Gives the readings that it was made with, one after the other, and the last of them again and again.
#[derive(Drop)]
pub struct MemClock {
    readings: Vec<u64>,
    next: usize,
    last: u64,
}

impl Model for MemClock {
    ghost use Rattle.std.specs.Prelude.{◌<◌, length, drop};
    ghost use Rattle.q3_io.specs.Readings.{DontFall};
    ghost use Rattle.q3_testio.specs.MemoryClock.{ClockState};

    ghost Value = { ClockState };

    ghost view = { λ c. record { last = c.last; readings = drop c.next c.readings.items } };

    ghost invariant = { λ c. (c.next < length c.readings.items) × DontFall c.last (drop c.next c.readings.items) };
}

impl MemClock {
    /// A clock with these readings in milliseconds: at least one, and none less than the one before. `Err` is want of memory.
    pub fn new(alloc: Global, readings: &[u64]) -> Result<MemClock, NoMemory>
        requires some { 0 < length readings.now }
        requires rise { DontFall 0 readings.now }
        ensures { IfOk result (λ clock. clock ≡ record { last = 0; readings = readings.now }) }
    {
        Ok(MemClock {
            readings: Vec::from_slice(alloc, readings)?,
            next: 0,
            last: 0,
        })
    }
}

impl Clock for MemClock {
    ghost last = { λ clock. clock.last };

    ghost readings = { λ clock. Some clock.readings };

    #[tactic(auto, using(crate::proofs::Readings::rest_of))]
    fn now(&mut self) -> u64
        ensures later { self.old.last ≤ result }
        ensures last { self.new.last ≡ result }
        ensures told { Reads (Some self.old.readings) (Some self.new.readings) result }
        ensures some { 0 < length self.new.readings }
        ensures whole { self.new ≡ after_reading self.old }
    {
        let reading = self.readings[self.next];
        if self.next + 1 < self.readings.len() {
            self.next += 1;
        }
        self.last = reading;
        reading
    }
}
