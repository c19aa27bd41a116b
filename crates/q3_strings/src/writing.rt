//! Writes strings and commands. Keeps the rules "strings and their translation" and "commands in messages", the engine's
//! `MSG_WriteString` and `MSG_WriteBigString` (msg.c).

ghost use Rattle.std.specs.Prelude.{◌≡◌, ◌+◌, ◌*◌, ◌≤◌, Bool, List, length, take, drop};
ghost use Rattle.q3_bits.specs.Streams.{Writes};
ghost use Rattle.q3_bits.specs.Words.{field_bits};
ghost use Rattle.q3_text.specs.Commands.{commands_of};
ghost use Rattle.q3_strings.specs.Texts.{bytes_row, string_bits, command_bits};
ghost use Rattle.q3_strings.specs.Commands.{issued_bits, commands_bits};

use q3_bits::{BYTE, LONG, Overflow, Writer, laws};
use q3_text::{Command, CommandRun};

/// Writes bytes, four at a time as far as there are four.
/// `Overflow` comes exactly where the text doesn't fit the writer's room; a front of it was then written.
pub fn write_bytes(w: &mut Writer, bytes: &[u8]) -> Result<(), Overflow>
    ensures { Writes w.old w.new (bytes_row w.old.words bytes.now) result }
{
    laws::texts_are_written();
    let fours = bytes.len() / 4;
    write_fours(w, bytes, fours)?;
    write_each(w, &bytes[4 * fours..])
}

/// Writes so many times four of the first bytes.
fn write_fours(w: &mut Writer, bytes: &[u8], count: usize) -> Result<(), Overflow>
    requires { 4 * count ≤ length bytes.now }
    ensures { Writes w.old w.new (bytes_row w.old.words (take (4 * count) bytes.now)) result }
{
    laws::texts_are_written();
    // what stands there fits the room
    prove!(w.length() > 0);
    for k in 0..count {
        let four = four_at(bytes, 4 * k);
        w.put(four, LONG)?;
    }
    Ok(())
}

/// The number whose four bytes, least byte first, stand at a place.
fn four_at(bytes: &[u8], place: usize) -> u32
    requires { place + 4 ≤ length bytes.now }
    ensures { (words : List (List Bool)) → field_bits words 32 result ≡ bytes_row words
        (take 4 (drop place bytes.now)) }
{
    u32::from_le_bytes([
        bytes[place],
        bytes[place + 1],
        bytes[place + 2],
        bytes[place + 3],
    ])
}

/// Writes bytes, one at a time.
fn write_each(w: &mut Writer, bytes: &[u8]) -> Result<(), Overflow>
    ensures { Writes w.old w.new (bytes_row w.old.words bytes.now) result }
{
    laws::texts_are_written();
    // what stands there fits the room
    prove!(w.length() > 0);
    for byte in bytes {
        w.put(u32::from(*byte), BYTE)?;
    }
    Ok(())
}

/// Writes a string of any bytes, as they are, and a 0. `Overflow` comes as in `write_bytes`.
pub fn write_string(w: &mut Writer, text: &[u8]) -> Result<(), Overflow>
    ensures { Writes w.old w.new (string_bits w.old.words text.now) result }
{
    laws::texts_are_written();
    write_bytes(w, text)?;
    w.put_all(&[(0, BYTE)])
}

/// Writes a command after its operation: its number, and its string. `Overflow` comes as in `write_bytes`.
pub fn write_command(w: &mut Writer, command: &Command) -> Result<(), Overflow>
    ensures { Writes w.old w.new (command_bits w.old.words command.now) result }
{
    laws::texts_are_written();
    w.put_all(&[(command.number, LONG)])?;
    write_string(w, command.text.bytes())
}

/// Writes commands, each after the operation of its end: those of `head`, followed by those of `tail`. `Overflow`
/// comes as in `write_bytes`.
pub fn write_commands(w: &mut Writer, operation: u8, commands: CommandRun) -> Result<(), Overflow>
    ensures { Writes w.old w.new (commands_bits w.old.words operation (commands_of commands.entry)) result }
{
    laws::texts_are_written();
    write_row(w, operation, commands.head)?;
    write_row(w, operation, commands.tail)
}

/// Writes commands that lie in one row. `Overflow` comes as in `write_bytes`.
fn write_row(w: &mut Writer, operation: u8, commands: &[Command]) -> Result<(), Overflow>
    ensures { Writes w.old w.new (commands_bits w.old.words operation commands.now) result }
{
    laws::texts_are_written();
    // what stands there fits the room
    prove!(w.length() > 0);
    for command in commands {
        write_issued(w, operation, command)?;
    }
    Ok(())
}

/// Writes an operation, and a command after it.
fn write_issued(w: &mut Writer, operation: u8, command: &Command) -> Result<(), Overflow>
    ensures { Writes w.old w.new (issued_bits w.old.words operation command.now) result }
{
    laws::texts_are_written();
    w.put_all(&[(u32::from(operation), BYTE)])?;
    write_command(w, command)
}
