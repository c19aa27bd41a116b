//! Laws of made scripts, each the contract of a call that does nothing.

ghost use Rattle.q3_make.specs.Printed.{PrintedIsSpelled};
ghost use Rattle.q3_make.specs.Generated.{GeneratedAreEvents};

use q3_player::laws::arrays_are_kept;
use q3_text::laws::text_laws;

/// What is printed of events spells the same events.
pub fn printed_is_spelled()
    ensures { PrintedIsSpelled }
{
    arrays_are_kept();
    text_laws();
}

/// What a seed makes is a script of a replay.
pub fn generated_are_events()
    ensures { GeneratedAreEvents }
{
    text_laws();
}
