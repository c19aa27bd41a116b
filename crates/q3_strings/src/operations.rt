//! Reads the operations that both ends' messages share. Keeps the rule "commands in messages", the engine's
//! `CL_ParseServerMessage` (cl_parse.c) and `SV_ExecuteClientMessage` (sv_client.c). That nops are taken between any two
//! operations, and what is refused, is this project's own.

ghost use Rattle.std.specs.Prelude.{◌≡◌, ◌<◌, length, IfOk};
ghost use Rattle.q3_bits.specs.Words.{IsCode, field_at};
ghost use Rattle.q3_bits.specs.Streams.{Reads, holding};
ghost use Rattle.q3_strings.specs.Operations.{rowed, commands_at, row_at, ending_at};

use crate::error::OperationError;
use crate::laws;
use crate::reading::read_command;
use q3_bits::{ReadError, Reader};
use q3_text::Commands;

/// The operation that says nothing.
const NOP: u32 = 1;

/// Reads nops and commands, these after the operation `command`, up to the first other operation, which is the answer. The
/// commands are put after those that there are. After a refusal `commands` may hold any.
///
/// `Err` is the first fault in reading order: `Bits` where the bits don't read; `TextLong` where the byte after 1,023 of a
/// string isn't 0; `Commands` for a 65th command, before it is read.
#[inline(never)]
pub fn read_row(
    r: &mut Reader,
    command: u32,
    commands: &mut Commands,
) -> Result<u32, OperationError>
    requires { IsCode r.old.words }
    ensures reads { Reads r.old r.new (row_at r.old.words command (length r.old.left) commands.old r.old.left)
        (rowed commands.new result) }
    ensures byte { IfOk result (λ operation. operation < 256) }
{
    laws::turns_are_taken();
    laws::command_read_is_spelled();
    let mut own = r.copy();
    loop {
        let operation = read_operation(&mut own)?;
        if operation == NOP {
            continue;
        }
        if operation != command {
            *r = own;
            return Ok(operation);
        }
        read_next_command(&mut own, commands)?;
    }
}

/// Reads an operation's byte.
#[inline]
fn read_operation(r: &mut Reader) -> Result<u32, ReadError>
    ensures reads { Reads r.old r.new (field_at r.old.words 8 r.old.left) result }
    ensures fits { IfOk result (λ operation. operation < 256) }
{
    Ok(u32::from(r.get_byte()?))
}

/// Reads one command more after its operation. A 65th is refused before it is read.
#[tactic(auto, unfolding(crate::specs::Operations::commands_at))]
#[inline(always)]
fn read_next_command(r: &mut Reader, commands: &mut Commands) -> Result<(), OperationError>
    ensures { Reads r.old r.new (commands_at r.old.words commands.old r.old.left) (holding commands.new result) }
{
    if commands.is_full() {
        return Err(OperationError::Commands);
    }
    read_command(r, commands.next())?;
    Ok(())
}

/// Reads what follows a message's section: nops, and the operation `end`.
/// `Err` is the first fault in reading order: `Bits` where the bits don't read; `BadOp` for any other operation.
pub fn read_ending(r: &mut Reader, end: u32) -> Result<(), OperationError>
    requires { IsCode r.old.words }
    ensures { Reads r.old r.new (ending_at r.old.words end (length r.old.left) r.old.left) result }
{
    laws::turns_are_taken();
    loop {
        let operation = read_operation(r)?;
        if operation == end {
            return Ok(());
        }
        if operation != NOP {
            return Err(OperationError::BadOp(operation as u8));
        }
    }
}
