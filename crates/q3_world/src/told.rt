//! What a step tells: the answer is counted and printed, or why it failed.

ghost use Rattle.q3_report.specs.Tellings.{answered_of};
ghost use Rattle.q3_world.specs.Doing.{Tells};

use q3_counts::{Counts, lines_in};
use q3_io::{Failed, Sink};
use q3_report::{Answer, print_answer};

/// Why a step failed.
#[derive(Clone, Copy, Debug, PartialEq, Eq)]
pub enum StepError {
    /// Want of memory, at an event that makes a client, a datagram or a recording; the world is as it was.
    NoMemory,
    /// The sink failed, and took a front of the event's lines.
    WriteFault,
    /// The file of a recording can't be made, or can't be written; nothing was printed.
    FileFault,
}

/// Counts the lines of an answer, and prints them.
pub(crate) fn tell<O: Sink>(
    answer: &Answer,
    counts: &mut Counts,
    out: &mut O,
) -> Result<(), StepError>
    ensures { Tells counts.old counts.new (O.written out.old) (O.written out.new) (O.faults out.old)
        (O.faults out.new) (answered_of answer.now) result }
{
    *counts = counts.with(lines_in(answer));
    match print_answer(answer, out) {
        Ok(()) => Ok(()),
        Err(Failed) => Err(StepError::WriteFault),
    }
}
