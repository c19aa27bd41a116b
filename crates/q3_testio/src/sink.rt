//! A sink in memory.

ghost use Rattle.std.specs.Prelude.{◌≡◌, [], Some, IfOk, is_ok, true};
ghost use Rattle.q3_io.specs.Faults.{HasCause};
ghost use Rattle.q3_io.specs.Written.{Adds, NothingWaits, all_sent};
ghost use Rattle.q3_testio.specs.MemorySink.{takes, after_write};

use crate::calls::Calls;
use q3_io::{Failed, NoMemory, Sink};
use std::alloc::Global;
use std::marker::Model;

/// Keeps what is written to it, as far as its room goes.
#[derive(Drop)]
pub struct MemSink {
    written: Vec<u8>,
    room: usize,
    calls: Calls,
    faults: u64,
}

impl Model for MemSink {
    ghost use Rattle.std.specs.Prelude.{◌≤◌, length, vec_capacity};
    ghost use Rattle.q3_testio.specs.MemorySink.{SinkState};

    ghost Value = { SinkState };

    ghost view = { λ s. record { written = s.written.items; room = s.room; calls = s.calls; faults = s.faults } };

    ghost invariant = { λ s. (length s.written.items ≤ s.room) × (s.room ≤ vec_capacity s.written) };
}

impl MemSink {
    /// A sink with room for so many bytes, whose calls with these numbers fail, counted from 1.
    pub fn new(alloc: Global, room: usize, fails: &[u64]) -> Result<MemSink, NoMemory>
        ensures { IfOk result (λ sink. sink ≡ record {
          written = [];
          room = room;
          calls = record { made = 0; fails = fails.now };
          faults = 0;
        }) }
    {
        Ok(MemSink {
            written: Vec::with_capacity(alloc, room)?,
            room,
            calls: Calls::new(alloc, fails)?,
            faults: 0,
        })
    }

    /// What was written.
    pub fn bytes(&self) -> &[u8]
        ensures { result.now ≡ self.now.written }
    {
        &self.written
    }
}

impl Sink for MemSink {
    ghost faults = { λ s. s.faults };

    ghost written = { λ s. Some (all_sent s.written) };

    /// Nothing is written by a call that fails, or whose bytes are more than the room that is left.
    fn write_all(&mut self, bytes: &[u8]) -> Result<(), Failed>
        ensures adds { Adds (Some (all_sent self.old.written)) (Some (all_sent self.new.written)) bytes.now result }
        ensures cause { HasCause self.old.faults self.new.faults result }
        ensures whole { self.new ≡ after_write self.old bytes.now }
        ensures takes { is_ok result ≡ takes self.old bytes.now }
    {
        let fails = self.calls.next_fails();
        if fails || bytes.len() > self.room - self.written.len() {
            self.faults = self.faults.saturating_add(1);
            return Err(Failed);
        }
        if self.written.extend_from_slice(bytes).is_err() {
            return Err(Failed);
        }
        Ok(())
    }

    fn flush(&mut self) -> Result<(), Failed>
        ensures adds { Adds (Some (all_sent self.old.written)) (Some (all_sent self.new.written)) [] result }
        ensures flushed { NothingWaits (Some (all_sent self.new.written)) }
        ensures cause { HasCause self.old.faults self.new.faults result }
        ensures whole { self.new ≡ self.old }
        ensures ok { is_ok result ≡ true }
    {
        Ok(())
    }
}
