//! Writes a client's message. Keeps the rules "layout of a client message" and "move section", the engine's
//! `CL_WritePacket` (cl_input.c).

ghost use Rattle.std.specs.Prelude.{◌≡◌, ◌≤◌, length};
ghost use Rattle.q3_bits.specs.Streams.{Writes, Fills};
ghost use Rattle.q3_clmsg.specs.Values.{said_of, parts_said};
ghost use Rattle.q3_clmsg.specs.Texts.{move_operation, move_section_bits, client_message_bits};

use crate::message::{ClientMessage, SaidParts};
use crate::moves::{Move, write_moves};
use crate::operations::{CLIENT_COMMAND, EOF, MOVE, MOVE_NO_DELTA};
use q3_bits::{BYTE, Code, LONG, Overflow, Writer, laws};
use q3_strings::write_commands;
use q3_text::CommandRun;

/// Writes a message to the front of a buffer of 1 to 16,384 bytes, and answers how many bytes it has; those after it
/// stay. `key` is that of its moves, as `message_key` gives it. Without moves `delta` isn't written.
/// `Overflow` comes exactly where the message is longer than the buffer.
pub fn write_client_message(
    code: &Code,
    message: &ClientMessage,
    key: u32,
    into: &mut [u8],
) -> Result<usize, Overflow>
    requires some { 1 ≤ length into.old }
    requires most { length into.old ≤ 16384 }
    ensures { Fills into.old into.new (client_message_bits code.now key (said_of message.now)) result }
{
    write_said(code, parts_of(message), key, into)
}

/// Writes a message whose parts are lent, as `write_client_message` writes one. It has at most 32 moves, as many as a server
/// reads.
pub fn write_said(
    code: &Code,
    parts: SaidParts,
    key: u32,
    into: &mut [u8],
) -> Result<usize, Overflow>
    requires some { 1 ≤ length into.old }
    requires most { length into.old ≤ 16384 }
    requires few { length parts.moves.now ≤ 32 }
    ensures { Fills into.old into.new (client_message_bits code.now key (parts_said parts.entry)) result }
{
    let mut w = Writer::new(code, into.len());
    write_message(&mut w, parts, key)?;
    Ok(w.copy_to(into))
}

/// The parts of a message; its commands are one piece.
fn parts_of(message: &ClientMessage) -> SaidParts<'_>
    ensures few { length result.moves.now ≤ 32 }
    ensures parts { parts_said result ≡ said_of message.now }
{
    SaidParts {
        id: message.id,
        acknowledged: message.acknowledged,
        command: message.command,
        commands: CommandRun {
            head: message.commands.as_slice(),
            tail: &[],
        },
        delta: message.delta,
        moves: &message.moves,
    }
}

/// Writes the three longs, the commands, the moves, and the end.
#[tactic(auto, unfolding(crate::specs::Texts::client_message_bits))]
fn write_message(w: &mut Writer, parts: SaidParts, key: u32) -> Result<(), Overflow>
    requires few { length parts.moves.now ≤ 32 }
    ensures { Writes w.old w.new (client_message_bits w.old.words key (parts_said parts.entry)) result }
{
    laws::texts_are_written();
    w.put_all(&[
        (parts.id, LONG),
        (parts.acknowledged, LONG),
        (parts.command, LONG),
    ])?;
    write_commands(w, CLIENT_COMMAND as u8, parts.commands)?;
    write_section(w, key, parts.delta, parts.moves)?;
    w.put_all(&[(EOF, BYTE)])
}

/// Writes the moves, and before them their operation and how many they are; nothing where there are none.
fn write_section(w: &mut Writer, key: u32, delta: bool, moves: &[Move]) -> Result<(), Overflow>
    requires few { length moves.now ≤ 32 }
    ensures { Writes w.old w.new (move_section_bits w.old.words key delta moves.now) result }
{
    laws::texts_are_written();
    // what stands there fits the room
    prove!(w.length() > 0);
    if moves.is_empty() {
        return Ok(());
    }
    let count = moves.len() as u32;
    w.put_all(&[(operation_of(delta), BYTE), (count, BYTE)])?;
    write_moves(w, key, moves)
}

/// The operation of moves.
fn operation_of(delta: bool) -> u32
    ensures { result ≡ move_operation delta }
{
    if delta { MOVE } else { MOVE_NO_DELTA }
}
