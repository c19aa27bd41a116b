//! The real files, standard output, socket and clock: thin, and trusted. They tell nothing of contents.

ghost use Rattle.std.specs.Prelude.{◌≡◌};
ghost use Rattle.q3_io.specs.Faults.{HasCause};

pub mod clock;
pub mod files;
pub mod sink;
pub mod wire;

use crate::sink::Failed;
pub use clock::HostClock;
pub use files::HostFiles;
pub use sink::HostSink;
pub use wire::UdpWire;

/// Counts a fault, and answers what it is given.
fn counted<T>(answer: Result<T, Failed>, faults: &mut u64) -> Result<T, Failed>
    ensures same { result ≡ answer }
    ensures cause { HasCause faults.old faults.new answer }
{
    if answer.is_err() {
        *faults = faults.saturating_add(1);
    }
    answer
}
