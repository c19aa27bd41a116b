//! Laws of gamestates, each the contract of a call that does nothing but cite the laws below it.

ghost use Rattle.q3_gamestate.specs.Laws.{WrittenIsSpelled, ReadIsSpelled, SpelledIsRead};

use q3_bits::laws as bits;
use q3_entity::laws as entity;
use q3_strings::laws as strings;

/// What is written of a gamestate spells it.
pub fn written_is_spelled()
    ensures { WrittenIsSpelled }
{
    strings::string_is_spelled();
    entity::zero_is_normal();
    entity::forced_is_spelled();
}

/// What is read as a gamestate is one that an end may send, and was spelled so.
pub fn read_is_spelled()
    ensures { ReadIsSpelled }
{
    bits::read_was_put();
    strings::string_read_is_spelled();
    entity::zero_is_normal();
    entity::none_are_baselines();
    entity::baseline_is_added();
    entity::entry_read_is_spelled();
}

/// What is spelled so is read, with whatever follows it. So where a reader refuses, no front of the bits is spelled so.
pub fn spelled_is_read()
    ensures { SpelledIsRead }
{
    bits::put_is_read();
    strings::turns_are_taken();
    strings::string_spelled_is_read();
    entity::zero_is_normal();
    entity::entry_spelled_is_read();
}
