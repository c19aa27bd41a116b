//! Standard output.

ghost use Rattle.std.specs.Prelude.{◌≡◌, None};

use super::counted;
use crate::sink::{Failed, Sink};

/// Standard output. Each write goes to the system at once: after `Ok` the bytes are handed over.
#[derive(Drop)]
pub struct HostSink<R> {
    rt: R,
    faults: u64,
}

impl<R: Print> HostSink<R> {
    /// Nothing was written yet, and nothing failed.
    pub fn new(rt: R) -> HostSink<R>
        ensures faults { ⟦<HostSink<R> as Sink>⟧.faults result ≡ 0 }
    {
        HostSink { rt, faults: 0 }
    }
}

impl<R: Print> Sink for HostSink<R> {
    ghost faults = { λ s. s.faults };

    ghost written = { λ s. None };

    fn write_all(&mut self, bytes: &[u8]) -> Result<(), Failed> {
        let written = self.rt.write_all(bytes);
        counted(written.map_err(|_| Failed), &mut self.faults)
    }

    fn flush(&mut self) -> Result<(), Failed> {
        Ok(())
    }
}
