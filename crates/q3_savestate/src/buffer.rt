//! A sink that keeps what is written to it, as long as memory can be had.

ghost use Rattle.std.specs.Prelude.{◌≡◌, true, [], Some, is_ok};
ghost use Rattle.q3_io.specs.Faults.{HasCause};
ghost use Rattle.q3_io.specs.Written.{Adds, NothingWaits, all_sent};

use q3_io::{Failed, Sink};
use std::marker::Model;

/// Bytes that were written, one after the other. A write fails where it finds no memory.
#[derive(Drop)]
pub struct Buffer {
    bytes: Vec<u8>,
    faults: u64,
}

impl Model for Buffer {
    ghost use Rattle.q3_savestate.specs.Buffers.{BufferState};

    ghost Value = { BufferState };

    ghost view = { λ b. record { bytes = b.bytes.items; faults = b.faults } };
}

impl Buffer {
    /// Writes go after these bytes.
    pub fn appending(bytes: Vec<u8>) -> Buffer
        ensures { result ≡ record { bytes = bytes.items; faults = 0 } }
    {
        Buffer { bytes, faults: 0 }
    }

    /// The bytes.
    pub fn into_bytes(self) -> Vec<u8>
        ensures { result.items ≡ self.bytes }
    {
        self.bytes
    }
}

impl Sink for Buffer {
    ghost faults = { λ b. b.faults };

    ghost written = { λ b. Some (all_sent b.bytes) };

    fn write_all(&mut self, bytes: &[u8]) -> Result<(), Failed>
        ensures adds { Adds (Some (all_sent self.old.bytes)) (Some (all_sent self.new.bytes)) bytes.now result }
        ensures cause { HasCause self.old.faults self.new.faults result }
    {
        if self.bytes.extend_from_slice(bytes).is_err() {
            self.faults = self.faults.saturating_add(1);
            return Err(Failed);
        }
        Ok(())
    }

    fn flush(&mut self) -> Result<(), Failed>
        ensures adds { Adds (Some (all_sent self.old.bytes)) (Some (all_sent self.new.bytes)) [] result }
        ensures flushed { NothingWaits (Some (all_sent self.new.bytes)) }
        ensures cause { HasCause self.old.faults self.new.faults result }
        ensures whole { self.new ≡ self.old }
        ensures ok { is_ok result ≡ true }
    {
        Ok(())
    }
}
