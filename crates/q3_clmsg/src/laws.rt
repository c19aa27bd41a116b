//! Laws of moves and of client messages, each the contract of a call that does nothing but cite the laws below it.

ghost use Rattle.q3_clmsg.specs.Laws.{WrittenIsSpelled, ReadIsSpelled, SpelledIsRead, WrittenIsRead, HeadsAreRead};
ghost use Rattle.q3_clmsg.specs.Moves.{IsHeldMove, IsMove};
ghost use Rattle.std.specs.Prelude.{◌≢◌, ◌<◌, ◌^◌, All, pos, neg_ℤ};

use crate::moves::Move;
use q3_bits::laws as bits;
use q3_strings::laws as strings;

/// What the types of its fields tell of a move: it is one that the program's type holds, and an end may send it, unless forward,
/// right or up is -128.
pub fn is_held_move(one: &Move)
    ensures held { IsHeldMove one.now }
    ensures sent { one.now.forward ≢ neg_ℤ (pos 128) → one.now.right ≢ neg_ℤ (pos 128) → one.now.up ≢ neg_ℤ (pos 128)
        → IsMove one.now }
{
    numbers_fit(*one);
}

/// The same of a move that is passed by value: only of such a one the prover learns the ranges of all fields.
fn numbers_fit(one: Move)
    ensures { IsHeldMove one }
{
    angles_fit(&one.angles);
}

/// Angles have 16 bits, as their type tells.
fn angles_fit(angles: &[u16])
    ensures { All (λ angle. angle < 2 ^ 16) angles.now }
{}

/// What is written of a message spells it by the same key.
pub fn written_is_spelled()
    ensures { WrittenIsSpelled }
{
    strings::commands_are_spelled();
}

/// What is read as a message was spelled so, and is one that an end may send.
pub fn read_is_spelled()
    ensures { ReadIsSpelled }
{
    bits::read_was_put();
    strings::row_read_is_spelled();
    strings::ending_read_is_spelled();
}

/// What is spelled so is read, with whatever follows it. So where a reader refuses, no front of the bits is spelled so.
pub fn spelled_is_read()
    ensures { SpelledIsRead }
{
    bits::put_is_read();
    strings::nops_are_nops();
    strings::row_spelled_is_read();
    strings::ending_spelled_is_read();
}

/// What is written of a message is read back by the same key, with whatever follows it.
pub fn written_is_read()
    ensures { WrittenIsRead }
{
    written_is_spelled();
    spelled_is_read();
}

/// The leading longs of what is written of a message are read back, with whatever follows it.
pub fn heads_are_read()
    ensures { HeadsAreRead }
{
    bits::put_is_read();
}
