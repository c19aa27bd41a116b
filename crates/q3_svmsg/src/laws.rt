//! Laws of server messages, each the contract of a call that does nothing but cite the laws below it.

ghost use Rattle.q3_svmsg.specs.Laws.{WrittenIsSpelled, ReadIsSpelled, SpelledIsRead, WrittenIsRead, ReadIsSkipped};

use q3_bits::laws as bits;
use q3_entity::laws as entity;
use q3_gamestate::laws as gamestate;
use q3_player::laws as player;
use q3_strings::laws as strings;

/// What is written of a message spells it under its number, its states in normal form.
pub fn written_is_spelled()
    ensures { WrittenIsSpelled }
{
    strings::commands_are_spelled();
    gamestate::written_is_spelled();
    player::zero_is_normal();
    player::normal_is_normal();
    player::written_is_spelled();
    entity::list_is_spelled();
}

/// What is read as a message is well formed, its states in normal form, and was spelled so.
pub fn read_is_spelled()
    ensures { ReadIsSpelled }
{
    bits::read_was_put();
    strings::bytes_were_put();
    strings::row_read_is_spelled();
    strings::ending_read_is_spelled();
    gamestate::read_is_spelled();
    player::zero_is_normal();
    player::read_is_spelled();
    entity::list_read_is_spelled();
    entity::skipped_is_spelled();
}

/// What is spelled so is read, with whatever follows it. So where a reader refuses, no front of the bits is spelled so.
pub fn spelled_is_read()
    ensures { SpelledIsRead }
{
    bits::put_is_read();
    strings::bytes_are_read();
    strings::nops_are_nops();
    strings::row_spelled_is_read();
    strings::ending_spelled_is_read();
    gamestate::spelled_is_read();
    player::zero_is_normal();
    player::spelled_is_read();
    entity::list_spelled_is_read();
    entity::spelled_is_skipped();
}

/// What is written of a message is read back under its number, against the same snapshots and baselines, its states in
/// normal form, with whatever follows it.
pub fn written_is_read()
    ensures { WrittenIsRead }
{
    written_is_spelled();
    spelled_is_read();
}

/// A message whose snapshot is read against a base is read to the same place where that base isn't held, and nothing of
/// the snapshot is kept.
pub fn read_is_skipped()
    ensures { ReadIsSkipped }
{
    player::zero_is_normal();
    player::spelled_is_read();
    player::players_end_alike();
    player::read_is_spelled();
    entity::list_spelled_is_read();
    entity::read_is_skipped();
    entity::skipped_is_spelled();
    read_is_spelled();
    spelled_is_read();
}
