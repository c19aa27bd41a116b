//! Laws of bytes, of strings, of commands and of operations, each the contract of a call that does nothing but cite the laws below it.

ghost use Rattle.q3_strings.specs.Laws.{BytesWerePut, BytesAreRead, StringIsSpelled, StringReadIsSpelled, StringSpelledIsRead, CommandIsSpelled, CommandReadIsSpelled, CommandSpelledIsRead, CommandsAreSpelled, NumberedAreCommands, NopIsSpelled, NopsAreNops, TurnsAreTaken, RowReadIsSpelled, RowSpelledIsRead, EndingReadIsSpelled, EndingSpelledIsRead};

use q3_bits::laws;

/// Bytes that are read were put.
pub fn bytes_were_put()
    ensures { BytesWerePut }
{
    laws::read_was_put();
}

/// Bytes that are put are read, with whatever follows them.
pub fn bytes_are_read()
    ensures { BytesAreRead }
{
    laws::put_is_read();
}

/// What is written of bytes that a text may hold spells them.
pub fn string_is_spelled()
    ensures { StringIsSpelled }
{}

/// What is read as a string was spelled so.
pub fn string_read_is_spelled()
    ensures { StringReadIsSpelled }
{
    laws::read_was_put();
}

/// A string that is spelled so is read, with whatever follows it. So where a reader refuses, no front of the bits is
/// spelled so.
pub fn string_spelled_is_read()
    ensures { StringSpelledIsRead }
{
    laws::put_is_read();
}

/// What is written of a command spells it.
pub fn command_is_spelled()
    ensures { CommandIsSpelled }
{
    string_is_spelled();
}

/// What is read as a command was spelled so.
pub fn command_read_is_spelled()
    ensures { CommandReadIsSpelled }
{
    laws::read_was_put();
    string_read_is_spelled();
}

/// A command that is spelled so is read, with whatever follows it.
pub fn command_spelled_is_read()
    ensures { CommandSpelledIsRead }
{
    laws::put_is_read();
    string_spelled_is_read();
}

/// What is written of commands spells them.
pub fn commands_are_spelled()
    ensures { CommandsAreSpelled }
{
    command_is_spelled();
}

/// Texts under numbers of 32 bits are as many commands.
pub fn numbered_are_commands()
    ensures { NumberedAreCommands }
{}

/// A nop before commands, and before the nops after them, is a nop of theirs.
pub fn nop_is_spelled()
    ensures { NopIsSpelled }
{}

/// Nops after nops are nops.
pub fn nops_are_nops()
    ensures { NopsAreNops }
{}

/// Operations that are read one after the other are at most as many as bits.
pub fn turns_are_taken()
    ensures { TurnsAreTaken }
{
    laws::read_was_put();
    laws::ends_cut_short();
}

/// What is read as a row of nops and commands, up to another operation, was spelled so.
pub fn row_read_is_spelled()
    ensures { RowReadIsSpelled }
{
    laws::read_was_put();
    command_read_is_spelled();
    nop_is_spelled();
}

/// A row that is spelled so is read, with whatever follows it.
pub fn row_spelled_is_read()
    ensures { RowSpelledIsRead }
{
    laws::put_is_read();
    turns_are_taken();
    command_spelled_is_read();
}

/// What is read as an ending was spelled so.
pub fn ending_read_is_spelled()
    ensures { EndingReadIsSpelled }
{
    laws::read_was_put();
}

/// An ending that is spelled so is read, with whatever follows it.
pub fn ending_spelled_is_read()
    ensures { EndingSpelledIsRead }
{
    laws::put_is_read();
    turns_are_taken();
}
