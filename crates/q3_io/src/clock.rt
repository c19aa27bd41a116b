//! A clock.

ghost use Rattle.std.specs.Prelude.{◌≡◌, ◌<◌, ◌≤◌, ℕ, Option, List, length, IfSome};
ghost use Rattle.q3_io.specs.Readings.{Reads};

/// A clock that never goes back.
pub trait Clock {
    /// The reading that was given last, 0 before the first.
    ghost last: { Self → ℕ };

    /// The readings that are still to come, where they are told. The last of them is given again and again.
    ghost readings: { Self → Option (List ℕ) };

    /// Milliseconds since some time in the past, never fewer than before.
    fn now(&mut self) -> u64
        ensures later { last self.old ≤ result }
        ensures last { last self.new ≡ result }
        ensures told { Reads (readings self.old) (readings self.new) result }
        ensures some { IfSome (readings self.new) (λ list. 0 < length list) };
}
