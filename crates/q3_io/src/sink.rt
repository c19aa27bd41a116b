//! Where bytes are written to.

ghost use Rattle.std.specs.Prelude.{◌≡◌, ℕ, [], Option, None, is_ok, true};
ghost use Rattle.q3_io.specs.Faults.{HasCause};
ghost use Rattle.q3_io.specs.Written.{Written, Adds, NothingWaits};

/// The outside failed, and its count of faults rose.
#[derive(Clone, Copy, Debug, PartialEq, Eq)]
pub struct Failed;

/// Takes bytes, as standard output does. A sink may hold bytes back until a later call, as a line buffer does.
pub trait Sink {
    /// How often a call has failed. It never falls.
    ghost faults: { Self → ℕ };

    /// The bytes handed on and those held back, where they are told.
    ghost written: { Self → Option Written };

    /// Takes all of the bytes, or answers `Failed`: then a front of what was held back and of the bytes was handed on,
    /// and the rest is lost.
    fn write_all(&mut self, bytes: &[u8]) -> Result<(), Failed>
        ensures adds { Adds (written self.old) (written self.new) bytes.now result }
        ensures cause { HasCause (faults self.old) (faults self.new) result };

    /// Hands on all that was held back, or a front of it and answers `Failed`: then the rest is lost.
    fn flush(&mut self) -> Result<(), Failed>
        ensures adds { Adds (written self.old) (written self.new) [] result }
        ensures flushed { NothingWaits (written self.new) }
        ensures cause { HasCause (faults self.old) (faults self.new) result };
}

/// Takes every write and keeps nothing.
#[derive(Clone, Copy, Debug, PartialEq, Eq)]
pub struct NullSink;

impl Sink for NullSink {
    ghost faults = { λ s. 0 };

    ghost written = { λ s. None };

    fn write_all(&mut self, bytes: &[u8]) -> Result<(), Failed>
        ensures adds { Adds None None bytes.now result }
        ensures cause { HasCause 0 0 result }
        ensures ok { is_ok result ≡ true }
    {
        Ok(())
    }

    fn flush(&mut self) -> Result<(), Failed>
        ensures adds { Adds None None [] result }
        ensures flushed { NothingWaits None }
        ensures cause { HasCause 0 0 result }
        ensures ok { is_ok result ≡ true }
    {
        Ok(())
    }
}
