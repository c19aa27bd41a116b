//! Reads a client's message. Keeps the rules "layout of a client message" and "move section", the engine's
//! `SV_ExecuteClientMessage` and `SV_UserMove` (sv_client.c). That nops are taken, and what is refused, is this
//! project's own.

ghost use Rattle.std.specs.Prelude.{◌≡◌};
ghost use Rattle.q3_bits.specs.Bits.{bits_of};
ghost use Rattle.q3_bits.specs.Words.{IsCode};
ghost use Rattle.q3_bits.specs.Streams.{Reads, holding};
ghost use Rattle.q3_clmsg.specs.Values.{said_of};
ghost use Rattle.q3_clmsg.specs.Reading.{section_at, moved_at, operations_at, client_message_in};

use crate::error::ClientIllegible;
use crate::heads::heads_from;
use crate::message::ClientMessage;
use crate::moves::{MOST_MOVES, Move, read_moves};
use crate::operations::{CLIENT_COMMAND, EOF, MOVE, MOVE_NO_DELTA};
use arrayvec::ArrayVec;
use q3_bits::{BYTE, Code, Reader};
use q3_strings::{read_ending, read_row};

/// Reads the moves after their operation, and how many there are.
#[tactic(auto, unfolding(crate::specs::Reading::section_at))]
fn read_section(
    r: &mut Reader,
    key: u32,
    into: &mut ArrayVec<Move, MOST_MOVES>,
) -> Result<(), ClientIllegible>
    ensures { Reads r.old r.new (section_at r.old.words key r.old.left) (holding into.new.items result) }
{
    let count = r.get(BYTE)?;
    if count < 1 || count > MOST_MOVES as u32 {
        return Err(ClientIllegible::MoveCount(count as u8));
    }
    read_moves(r, key, count, into)?;
    Ok(())
}

/// Reads the moves after their operation, and the message to its end.
#[tactic(auto, unfolding(crate::specs::Reading::moved_at))]
fn read_moved(
    r: &mut Reader,
    key: u32,
    delta: bool,
    into: &mut ClientMessage,
) -> Result<(), ClientIllegible>
    requires { IsCode r.old.words }
    ensures { Reads r.old r.new (moved_at r.old.words key delta (said_of into.old) r.old.left)
        (holding (said_of into.new) result) }
{
    read_section(r, key, &mut into.moves)?;
    into.delta = delta;
    read_ending(r, EOF)?;
    Ok(())
}

/// Reads what follows the leading longs: nops and commands, and the end of the message or its moves.
#[tactic(auto, unfolding(crate::specs::Reading::rest_at, crate::specs::Reading::operations_at))]
fn read_operations(
    r: &mut Reader,
    key: u32,
    into: &mut ClientMessage,
) -> Result<(), ClientIllegible>
    requires { IsCode r.old.words }
    ensures { Reads r.old r.new (operations_at r.old.words key (said_of into.old) r.old.left)
        (holding (said_of into.new) result) }
{
    match read_row(r, CLIENT_COMMAND, &mut into.commands)? {
        EOF => Ok(()),
        MOVE => read_moved(r, key, true, into),
        MOVE_NO_DELTA => read_moved(r, key, false, into),
        operation => Err(ClientIllegible::BadOp(operation as u8)),
    }
}

/// Reads a client's message by the key of its moves, as `message_key` gives it. Without moves `delta` is false. After a
/// refusal `into` may hold anything.
///
/// `Err` is the first fault in reading order: `Bits` where the bits don't read; `BadOp` for an operation that may not
/// stand there: before the moves others than nop, command, moves and the end, and after them others than nop and the
/// end; `Commands` for a 65th command; `TextLong` where the byte after 1,023 of a string isn't 0; `MoveCount` for no
/// move or more than 32.
#[tactic(auto, unfolding(crate::specs::Reading::client_message_at))]
pub fn read_client_message(
    code: &Code,
    bytes: &[u8],
    key: u32,
    into: &mut ClientMessage,
) -> Result<(), ClientIllegible>
    ensures { holding (said_of into.new) result ≡ client_message_in code.now key (bits_of bytes.now) }
{
    let mut r = Reader::new(code, bytes);
    let heads = heads_from(&mut r)?;
    into.id = heads.id;
    into.acknowledged = heads.acknowledged;
    into.command = heads.command;
    into.commands.clear();
    into.delta = false;
    into.moves.clear();
    read_operations(&mut r, key, into)
}
