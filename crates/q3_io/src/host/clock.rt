//! The system's clock.

ghost use Rattle.std.specs.Prelude.{◌≡◌, None};

use crate::clock::Clock;
use std::marker::Model;
use std::time::{Clock as SystemClock, Instant};

/// A clock of the system that never goes back, in milliseconds since its first reading. Where the system's can't be read, it gives its
/// last reading again.
#[derive(Drop)]
pub struct HostClock<R> {
    rt: R,
    start: Option<Instant>,
    last: u64,
}

impl<R> Model for HostClock<R> {
    ghost use Rattle.std.specs.Prelude.{ℕ};

    ghost Value = { ℕ };

    ghost view = { λ clock. clock.last };
}

impl<R: SystemClock> HostClock<R> {
    /// No reading was given.
    pub fn new(rt: R) -> HostClock<R>
        ensures { result ≡ 0 }
    {
        HostClock {
            rt,
            start: None,
            last: 0,
        }
    }
}

/// Milliseconds between two times, as far as 64 bits count.
fn milliseconds(start: Instant, time: Instant) -> u64 {
    u64::try_from(time.saturating_duration_since(start).as_millis()).unwrap_or(u64::MAX)
}

impl<R: SystemClock> Clock for HostClock<R> {
    ghost last = { λ clock. clock };

    ghost readings = { λ clock. None };

    fn now(&mut self) -> u64 {
        if let Ok(time) = Instant::now(&self.rt) {
            let start = *self.start.get_or_insert(time);
            self.last = self.last.max(milliseconds(start, time));
        }
        self.last
    }
}
