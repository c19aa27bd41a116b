//! Prints commands that were executed, as reports have them.

ghost use Rattle.q3_io.specs.Faults.{HasCause};
ghost use Rattle.q3_io.specs.Written.{Adds};
ghost use Rattle.q3_window.specs.Report.{command_text, commands_text};

use q3_io::{Failed, Piece, Sink, laws, print_all};
use q3_text::Command;

/// Prints a line for each command, under the line of what carried them. `Failed` comes where the sink failed, after a front of
/// the lines.
pub fn print_commands<O: Sink>(commands: &[Command], out: &mut O) -> Result<(), Failed>
    ensures adds { Adds (O.written out.old) (O.written out.new) (commands_text commands.now) result }
    ensures cause { HasCause (O.faults out.old) (O.faults out.new) result }
{
    laws::items_follow::<Command>();
    for command in commands {
        print_command(command, out)?;
    }
    Ok(())
}

/// Prints the line of a command. `Failed` comes where the sink failed, after a front of it.
pub fn print_command<O: Sink>(command: &Command, out: &mut O) -> Result<(), Failed>
    ensures adds { Adds (O.written out.old) (O.written out.new) (command_text command.now) result }
    ensures cause { HasCause (O.faults out.old) (O.faults out.new) result }
{
    print_all(
        &[
            Piece::Text(b"+ command "),
            Piece::Number(u64::from(command.number)),
            Piece::Text(b" "),
            Piece::Quoted(command.text.bytes()),
            Piece::Text(b"\n"),
        ],
        out,
    )
}
