//! Laws of scripts, each the contract of a call that does nothing.

ghost use Rattle.q3_script.specs.Laws.{ReadIsSpelled, BadIsNotSpelled, EventsAreInRange};

use q3_words::laws::word_laws;

/// What is read of a script is what it spells, and what it spells is read.
pub fn read_is_spelled()
    ensures { ReadIsSpelled }
{
    word_laws();
}

/// Where a line is bad, the bytes are a script of no events.
pub fn bad_is_not_spelled()
    ensures { BadIsNotSpelled }
{
    read_is_spelled();
}

/// An event that a script may have is within its ranges.
pub fn events_are_in_range()
    ensures { EventsAreInRange }
{}
