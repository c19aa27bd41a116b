//! A line buffer: a sink that hands on what is written to it in few writes.

ghost use Rattle.std.specs.Prelude.{◌≡◌, ◌↔◌, ◌+◌, ◌<◌, ◌≤◌, [], ◌++◌, length, if◌then◌else◌, IsOk, IsTrue};
ghost use Rattle.q3_io.specs.Faults.{HasCause};
ghost use Rattle.q3_io.specs.Written.{Adds, NothingWaits};
ghost use Rattle.q3_io.specs.Line.{most_held, held_alone, with_held};

use crate::sink::{Failed, Sink};
use std::marker::Model;

/// For so many bytes there is room.
const ROOM: usize = 1_024;

/// A sink that holds bytes back, at most 1,024, and hands them on to another in one write: at a flush, or before bytes
/// that don't fit after them. More than 1,024 bytes at once go straight on, in a write of their own.
/// After `Failed` it holds nothing. What it holds when it is dropped is lost.
#[derive(Drop)]
pub struct Line<O> {
    sink: O,
    held: Held,
}

impl<O> Model for Line<O> {
    ghost use Rattle.q3_io.specs.Line.{LineState};

    ghost Value = { LineState O };

    ghost view = { λ l. record { sink = l.sink; held = l.held } };
}

impl<O: Sink> Line<O> {
    /// A line buffer in front of this sink, which holds nothing yet.
    pub fn new(sink: O) -> Line<O>
        ensures { result ≡ record { sink = sink; held = [] } }
    {
        Line {
            sink,
            held: Held::new(),
        }
    }

    /// The sink that bytes are handed on to.
    pub fn sink(&self) -> &O
        ensures { result.now ≡ self.now.sink }
    {
        &self.sink
    }

    /// Hands on the bytes that are held, in one write if there are any.
    fn hand_on(&mut self) -> Result<(), Failed>
        ensures adds { Adds (O.written self.old.sink) (O.written self.new.sink) self.old.held result }
        ensures cause { HasCause (O.faults self.old.sink) (O.faults self.new.sink) result }
        ensures held { self.new.held ≡ [] }
    {
        if self.held.is_empty() {
            return Ok(());
        }
        let written = self.held.write(&mut self.sink);
        self.held.clear();
        written
    }

    /// Hands these bytes on, in a write of their own.
    fn pass_on(&mut self, bytes: &[u8]) -> Result<(), Failed>
        ensures adds { Adds (O.written self.old.sink) (O.written self.new.sink) bytes.now result }
        ensures cause { HasCause (O.faults self.old.sink) (O.faults self.new.sink) result }
        ensures held { self.new.held ≡ self.old.held }
    {
        self.sink.write_all(bytes)
    }
}

impl<O: Sink> Sink for Line<O> {
    ghost faults = { λ l. O.faults l.sink };

    ghost written = { λ l. with_held (O.written l.sink) l.held };

    /// Bytes that fit beside what is held wait with it, and nothing is handed on. Otherwise what is held is handed on,
    /// and then the bytes wait alone, or go straight on where they are more than 1,024.
    fn write_all(&mut self, bytes: &[u8]) -> Result<(), Failed>
        ensures adds { Adds (with_held (O.written self.old.sink) self.old.held)
            (with_held (O.written self.new.sink) self.new.held) bytes.now result }
        ensures cause { HasCause (O.faults self.old.sink) (O.faults self.new.sink) result }
        ensures holds { length self.old.held + length bytes.now ≤ most_held
            → IsOk result × (self.new ≡ record self.old { held = self.old.held ++ bytes.now }) }
        ensures alone { most_held < length self.old.held + length bytes.now
            → self.new.held ≡ held_alone bytes.now result }
    {
        if self.held.keep(bytes) {
            return Ok(());
        }
        self.hand_on()?;
        if !self.held.keep(bytes) {
            return self.pass_on(bytes);
        }
        Ok(())
    }

    fn flush(&mut self) -> Result<(), Failed>
        ensures adds { Adds (with_held (O.written self.old.sink) self.old.held)
            (with_held (O.written self.new.sink) self.new.held) [] result }
        ensures flushed { NothingWaits (with_held (O.written self.new.sink) self.new.held) }
        ensures cause { HasCause (O.faults self.old.sink) (O.faults self.new.sink) result }
        ensures empty { self.new.held ≡ [] }
    {
        self.hand_on()?;
        self.sink.flush()
    }
}

/// Bytes that are held back.
#[derive(Drop)]
struct Held {
    bytes: [u8; ROOM],
    length: usize,
}

impl Model for Held {
    ghost use Rattle.std.specs.Prelude.{◌≤◌, ℕ, List, take};
    ghost use Rattle.q3_io.specs.Line.{most_held};

    ghost Value = { List ℕ };

    ghost view = { λ h. take h.length h.bytes };

    ghost invariant = { λ h. h.length ≤ most_held };
}

impl Held {
    fn new() -> Held
        ensures { result ≡ [] }
    {
        Held {
            bytes: [0; ROOM],
            length: 0,
        }
    }

    fn is_empty(&self) -> bool
        ensures { IsTrue result ↔ (self.now ≡ []) }
    {
        self.length == 0
    }

    /// Holds the bytes after the others, where they fit.
    fn keep(&mut self, bytes: &[u8]) -> bool
        ensures fits { IsTrue result ↔ (length self.old + length bytes.now ≤ most_held) }
        ensures held { self.new ≡ (if result then self.old ++ bytes.now else self.old) }
    {
        if bytes.len() > ROOM - self.length {
            return false;
        }
        self.bytes[self.length..self.length + bytes.len()].copy_from_slice(bytes);
        self.length += bytes.len();
        true
    }

    fn clear(&mut self)
        ensures { self.new ≡ [] }
    {
        self.length = 0;
    }

    fn write<O: Sink>(&self, out: &mut O) -> Result<(), Failed>
        ensures adds { Adds (O.written out.old) (O.written out.new) self.now result }
        ensures cause { HasCause (O.faults out.old) (O.faults out.new) result }
    {
        out.write_all(&self.bytes[..self.length])
    }
}
