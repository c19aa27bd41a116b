//! Datagrams over a network.

ghost use Rattle.std.specs.Prelude.{◌≡◌, ◌≤◌, ℕ, Bool, true, false, ◌||◌, Option, Some, None, length, is_ok, IfOk, IfSome};
ghost use Rattle.q3_io.specs.Faults.{HasCause};
ghost use Rattle.q3_io.specs.Traffic.{Traffic, Binds, Sends, Receives};

use crate::address::Address;
use crate::sink::Failed;

/// An end of a network for datagrams, at an address that is bound once.
pub trait Wire {
    /// How often a call has failed. It never falls.
    ghost faults: { Self → ℕ };

    /// Whether a `bind` succeeded.
    ghost bound: { Self → Bool };

    /// What is still to arrive and what was sent, where it is told.
    ghost told: { Self → Option Traffic };

    /// Takes an address, which later datagrams are sent from and arrive at. No `bind` has succeeded before.
    fn bind(&mut self, at: Address) -> Result<(), Failed>
        requires { bound self.old ≡ false }
        ensures bound { bound self.new ≡ is_ok result }
        ensures told { Binds (told self.old) (told self.new) at result }
        ensures cause { HasCause (faults self.old) (faults self.new) result };

    /// Sends a datagram. That it arrives isn't promised.
    fn send(&mut self, to: Address, bytes: &[u8]) -> Result<(), Failed>
        requires { bound self.old ≡ true }
        ensures bound { bound self.new ≡ true }
        ensures told { Sends (told self.old) (told self.new) to bytes.now result }
        ensures cause { HasCause (faults self.old) (faults self.new) result };

    /// Takes an arrival, if one is ready: where it comes from, and how many of the buffer's first bytes it has. One that is longer
    /// than the buffer is cut to it.
    fn receive(&mut self, into: &mut [u8]) -> Result<Option<(Address, usize)>, Failed>
        requires { bound self.old ≡ true }
        ensures bound { bound self.new ≡ true }
        ensures count { IfOk result (λ found. IfSome found (λ arrival. arrival.1 ≤ length into.old)) }
        ensures told { Receives (told self.old) (told self.new) into.old into.new result }
        ensures length { length into.new ≡ length into.old }
        ensures cause { HasCause (faults self.old) (faults self.new) result };
}
