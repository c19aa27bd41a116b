//! Prints the lines of a record. The spelling is this project's own.

ghost use Rattle.std.specs.Prelude.{◌≡◌, [], ◌∷◌, codes, decimal};
ghost use Rattle.std.specs.List.{concat};
ghost use Rattle.q3_io.specs.Faults.{HasCause};
ghost use Rattle.q3_io.specs.Written.{Adds};
ghost use Rattle.q3_clstate.specs.Report.{applied_text};

use q3_clstate::{Applied, ClState, Log, print_applied};
use q3_io::{Failed, Piece, Sink, laws, print_all};

/// Prints the lines of a record, by the state after it: its index among all and its number, and what became of its message.
pub(crate) fn print_record<O: Sink>(
    index: u32,
    number: u32,
    state: &ClState,
    applied: &Applied,
    log: &Log,
    out: &mut O,
) -> Result<(), Failed>
    ensures adds { Adds (O.written out.old) (O.written out.new)
        (concat (codes "record " ∷ decimal index ∷ codes " number " ∷ decimal number ∷ codes "\n"
        ∷ applied_text state.now applied.now log.now.commands ∷ [])) result }
    ensures cause { HasCause (O.faults out.old) (O.faults out.new) result }
{
    laws::texts_follow();
    print_line(index, number, out)?;
    print_applied(state, applied, log, out)
}

/// Prints the first line of a record.
fn print_line<O: Sink>(index: u32, number: u32, out: &mut O) -> Result<(), Failed>
    ensures adds { Adds (O.written out.old) (O.written out.new)
        (concat (codes "record " ∷ decimal index ∷ codes " number " ∷ decimal number ∷ codes "\n" ∷ [])) result }
    ensures cause { HasCause (O.faults out.old) (O.faults out.new) result }
{
    print_all(
        &[
            Piece::Text(b"record "),
            Piece::Number(u64::from(index)),
            Piece::Text(b" number "),
            Piece::Number(u64::from(number)),
            Piece::Text(b"\n"),
        ],
        out,
    )
}
