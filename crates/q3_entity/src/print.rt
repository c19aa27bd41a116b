//! Prints an entity's words as scripts and reports spell them.

ghost use Rattle.q3_io.specs.Faults.{HasCause};
ghost use Rattle.q3_io.specs.Written.{Adds};
ghost use Rattle.q3_entity.specs.Report.{fields_text};

use q3_io::{Failed, Sink, print_indexed};

/// Prints the words that aren't 0, each as `I:W` with a space before it. The spelling is this project's own.
/// `Failed` comes only where the sink's count rose.
pub fn print_fields<O: Sink>(words: &[u32; 64], out: &mut O) -> Result<(), Failed>
    ensures adds { Adds (O.written out.old) (O.written out.new) (fields_text words.now) result }
    ensures cause { HasCause (O.faults out.old) (O.faults out.new) result }
{
    print_indexed(b"", words, out)
}
