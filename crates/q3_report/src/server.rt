//! Prints what the server's end answers, as reports have it: what it begins and hands out, and what it took, executed and ran.

ghost use Rattle.std.specs.Prelude.{◌≡◌, [], ◌∷◌, ◌++◌, codes, decimal};
ghost use Rattle.std.specs.List.{concat, flat_map};
ghost use Rattle.q3_io.specs.Faults.{HasCause};
ghost use Rattle.q3_io.specs.Written.{Adds};
ghost use Rattle.q3_clmsg.specs.Report.{move_text};
ghost use Rattle.q3_clmsg.specs.Report as report_spec;
ghost use Rattle.q3_slot.specs.declared.answer.Emitted.TheVariants as emitted;
ghost use Rattle.q3_report.specs.ServerLines.{serve_text, slot_text, illegible_text, gap_text, ignored_text, owed_text, entered_text, ran_text, server_text};
ghost use Rattle.q3_window.specs.Report.{commands_text};

use q3_clmsg::report::{cause_number, cause_word};
use q3_clmsg::{ClientIllegible, Move, print_move};
use q3_io::{Failed, Piece, Sink, laws, print_all};
use q3_slot::{Emitted, Heard, ServerTook};
use q3_text::Command;
use q3_window::print_commands;

/// Prints the line of a `serve`. The datagram's number is used where one was handed out. `Failed` comes where the sink
/// failed, after a front of the line.
pub(crate) fn print_emitted<O: Sink>(
    slot: u8,
    emitted: &Emitted,
    datagram: u32,
    out: &mut O,
) -> Result<(), Failed>
    ensures adds { Adds (O.written out.old) (O.written out.new) (serve_text slot emitted.now datagram) result }
    ensures cause { HasCause (O.faults out.old) (O.faults out.new) result }
{
    let word: &[u8] = match emitted {
        Emitted::Snapshot {
            number,
            base,
            bytes,
        } => return print_snapshot(slot, *number, *base, *bytes, datagram, out),
        Emitted::Game { number, bytes } => {
            return print_game(slot, *number, *bytes, datagram, out);
        }
        Emitted::Fragment { number } => return print_fragment(slot, *number, datagram, out),
        Emitted::NoClient => b" noclient\n",
        Emitted::SequenceEnd => b" sequenceend\n",
        Emitted::Unclear => b" unclear\n",
        Emitted::Overlong => b" overlong\n",
    };
    print_all(
        &[
            Piece::Text(b"serve "),
            Piece::Number(u64::from(slot)),
            Piece::Text(word),
        ],
        out,
    )
}

/// Prints the line of a snapshot that was begun.
fn print_snapshot<O: Sink>(
    slot: u8,
    number: u32,
    base: u32,
    bytes: usize,
    datagram: u32,
    out: &mut O,
) -> Result<(), Failed>
    ensures adds { Adds (O.written out.old) (O.written out.new)
        (serve_text slot (emitted.Snapshot number base bytes) datagram) result }
    ensures cause { HasCause (O.faults out.old) (O.faults out.new) result }
{
    print_all(
        &[
            Piece::Text(b"serve "),
            Piece::Number(u64::from(slot)),
            Piece::Text(b" snapshot "),
            Piece::Number(u64::from(number)),
            Piece::Text(b" base "),
            Piece::Number(u64::from(base)),
            Piece::Text(b" bytes "),
            Piece::Number(bytes as u64),
            Piece::Text(b" datagram "),
            Piece::Number(u64::from(datagram)),
            Piece::Text(b"\n"),
        ],
        out,
    )
}

/// Prints the line of a gamestate that was begun.
fn print_game<O: Sink>(
    slot: u8,
    number: u32,
    bytes: usize,
    datagram: u32,
    out: &mut O,
) -> Result<(), Failed>
    ensures adds { Adds (O.written out.old) (O.written out.new)
        (serve_text slot (emitted.Game number bytes) datagram) result }
    ensures cause { HasCause (O.faults out.old) (O.faults out.new) result }
{
    print_all(
        &[
            Piece::Text(b"serve "),
            Piece::Number(u64::from(slot)),
            Piece::Text(b" gamestate "),
            Piece::Number(u64::from(number)),
            Piece::Text(b" bytes "),
            Piece::Number(bytes as u64),
            Piece::Text(b" datagram "),
            Piece::Number(u64::from(datagram)),
            Piece::Text(b"\n"),
        ],
        out,
    )
}

/// Prints the line of a further piece of a message.
fn print_fragment<O: Sink>(slot: u8, number: u32, datagram: u32, out: &mut O) -> Result<(), Failed>
    ensures adds { Adds (O.written out.old) (O.written out.new)
        (serve_text slot (emitted.Fragment number) datagram) result }
    ensures cause { HasCause (O.faults out.old) (O.faults out.new) result }
{
    print_all(
        &[
            Piece::Text(b"serve "),
            Piece::Number(u64::from(slot)),
            Piece::Text(b" fragment "),
            Piece::Number(u64::from(number)),
            Piece::Text(b" datagram "),
            Piece::Number(u64::from(datagram)),
            Piece::Text(b"\n"),
        ],
        out,
    )
}

/// Prints what stands after `deliver D`, or `arrive`, where the server took a datagram: the rest of that line, and a line
/// for each command and each move that it ran, one between them where the client entered the map, and one under an ignored
/// message where a gamestate is owed, all of which `heard` holds since that take. `Failed` comes where the sink failed, after a
/// front of it.
pub(crate) fn print_took<O: Sink>(
    took: &ServerTook,
    heard: &Heard,
    out: &mut O,
) -> Result<(), Failed>
    ensures adds { Adds (O.written out.old) (O.written out.new) (server_text took.now heard.now) result }
    ensures cause { HasCause (O.faults out.old) (O.faults out.new) result }
{
    match took {
        ServerTook::Runt => out.write_all(b" server runt\n"),
        ServerTook::Connectionless => out.write_all(b" server connectionless\n"),
        ServerTook::Stranger => out.write_all(b" server stranger\n"),
        ServerTook::Old(slot) => print_word(*slot, b"old", out),
        ServerTook::OutOfOrder(slot) => print_word(*slot, b"outoforder", out),
        ServerTook::BadFragment(slot) => print_word(*slot, b"badfragment", out),
        ServerTook::BadCheck(slot) => print_word(*slot, b"badcheck", out),
        ServerTook::Partial(slot) => print_word(*slot, b"partial", out),
        ServerTook::Illegible(slot, cause) => print_illegible(*slot, *cause, out),
        ServerTook::Ignored { slot, id } => print_ignored(*slot, *id, heard.owed, out),
        ServerTook::Gap { slot, number } => print_gap(*slot, *number, out),
        ServerTook::Ran { slot, number } => print_ran(
            *slot,
            *number,
            heard.commands.as_slice(),
            heard.entered,
            &heard.moves,
            out,
        ),
    }
}

/// Prints the line of a slot's answer.
fn print_word<O: Sink>(slot: u8, word: &[u8], out: &mut O) -> Result<(), Failed>
    ensures adds { Adds (O.written out.old) (O.written out.new) (slot_text slot word.now) result }
    ensures cause { HasCause (O.faults out.old) (O.faults out.new) result }
{
    print_all(
        &[
            Piece::Text(b" server "),
            Piece::Number(u64::from(slot)),
            Piece::Text(b" "),
            Piece::Text(word),
            Piece::Text(b"\n"),
        ],
        out,
    )
}

/// Prints the line of a message that isn't legible.
fn print_illegible<O: Sink>(slot: u8, cause: ClientIllegible, out: &mut O) -> Result<(), Failed>
    ensures adds { Adds (O.written out.old) (O.written out.new)
        (illegible_text slot (report_spec.cause_word cause) (report_spec.cause_number cause)) result }
    ensures cause { HasCause (O.faults out.old) (O.faults out.new) result }
{
    let Some(number) = cause_number(cause) else {
        return print_all(
            &[
                Piece::Text(b" server "),
                Piece::Number(u64::from(slot)),
                Piece::Text(b" illegible "),
                Piece::Text(cause_word(cause)),
                Piece::Text(b"\n"),
            ],
            out,
        );
    };
    print_all(
        &[
            Piece::Text(b" server "),
            Piece::Number(u64::from(slot)),
            Piece::Text(b" illegible "),
            Piece::Text(cause_word(cause)),
            Piece::Text(b" "),
            Piece::Number(u64::from(number)),
            Piece::Text(b"\n"),
        ],
        out,
    )
}

/// Prints the line of a message that leaves a gap before one of its commands.
fn print_gap<O: Sink>(slot: u8, number: u32, out: &mut O) -> Result<(), Failed>
    ensures adds { Adds (O.written out.old) (O.written out.new) (gap_text slot number) result }
    ensures cause { HasCause (O.faults out.old) (O.faults out.new) result }
{
    print_all(
        &[
            Piece::Text(b" server "),
            Piece::Number(u64::from(slot)),
            Piece::Text(b" gap "),
            Piece::Number(u64::from(number)),
            Piece::Text(b"\n"),
        ],
        out,
    )
}

/// Prints the line of a message of another map, and one under it where a gamestate is owed.
fn print_ignored<O: Sink>(slot: u8, id: u32, owed: bool, out: &mut O) -> Result<(), Failed>
    ensures adds { Adds (O.written out.old) (O.written out.new) (ignored_text slot id ++ owed_text owed) result }
    ensures cause { HasCause (O.faults out.old) (O.faults out.new) result }
{
    laws::texts_follow();
    print_id(slot, id, out)?;
    out.write_all(owed_line(owed))
}

/// Prints the line of a message of another map.
fn print_id<O: Sink>(slot: u8, id: u32, out: &mut O) -> Result<(), Failed>
    ensures adds { Adds (O.written out.old) (O.written out.new) (ignored_text slot id) result }
    ensures cause { HasCause (O.faults out.old) (O.faults out.new) result }
{
    print_all(
        &[
            Piece::Text(b" server "),
            Piece::Number(u64::from(slot)),
            Piece::Text(b" ignored "),
            Piece::Number(u64::from(id)),
            Piece::Text(b"\n"),
        ],
        out,
    )
}

/// The line under an ignored message where a gamestate is owed.
fn owed_line(owed: bool) -> &'static [u8]
    ensures { result.now ≡ owed_text owed }
{
    if owed { b"+ owed\n" } else { b"" }
}

/// Prints the line of a message that was run, and the lines under it.
fn print_ran<O: Sink>(
    slot: u8,
    number: u32,
    commands: &[Command],
    entered: Option<u32>,
    moves: &[Move],
    out: &mut O,
) -> Result<(), Failed>
    ensures adds { Adds (O.written out.old) (O.written out.new)
        (ran_text slot number ++ concat (commands_text commands.now ∷ entered_text entered
        ∷ flat_map move_text moves.now ∷ [])) result }
    ensures cause { HasCause (O.faults out.old) (O.faults out.new) result }
{
    laws::texts_follow();
    print_front(slot, number, commands, out)?;
    print_entered(entered, out)?;
    print_moves(moves, out)
}

/// Prints the line of the move with which a client entered the map, if it did.
fn print_entered<O: Sink>(entered: Option<u32>, out: &mut O) -> Result<(), Failed>
    ensures adds { Adds (O.written out.old) (O.written out.new) (entered_text entered) result }
    ensures cause { HasCause (O.faults out.old) (O.faults out.new) result }
{
    match entered {
        Some(time) => print_all(
            &[
                Piece::Text(b"+ entered "),
                Piece::Number(u64::from(time)),
                Piece::Text(b"\n"),
            ],
            out,
        ),
        None => print_all(&[], out),
    }
}

/// Prints the line of a message that was run, and a line for each command.
fn print_front<O: Sink>(
    slot: u8,
    number: u32,
    commands: &[Command],
    out: &mut O,
) -> Result<(), Failed>
    ensures adds { Adds (O.written out.old) (O.written out.new)
        (ran_text slot number ++ commands_text commands.now) result }
    ensures cause { HasCause (O.faults out.old) (O.faults out.new) result }
{
    laws::texts_follow();
    print_number(slot, number, out)?;
    print_commands(commands, out)
}

/// Prints the line of a message that was run.
fn print_number<O: Sink>(slot: u8, number: u32, out: &mut O) -> Result<(), Failed>
    ensures adds { Adds (O.written out.old) (O.written out.new) (ran_text slot number) result }
    ensures cause { HasCause (O.faults out.old) (O.faults out.new) result }
{
    print_all(
        &[
            Piece::Text(b" server "),
            Piece::Number(u64::from(slot)),
            Piece::Text(b" ran "),
            Piece::Number(u64::from(number)),
            Piece::Text(b"\n"),
        ],
        out,
    )
}

/// Prints a line for each move.
fn print_moves<O: Sink>(moves: &[Move], out: &mut O) -> Result<(), Failed>
    ensures adds { Adds (O.written out.old) (O.written out.new) (flat_map move_text moves.now) result }
    ensures cause { HasCause (O.faults out.old) (O.faults out.new) result }
{
    laws::items_follow::<Move>();
    for one in moves {
        print_run_move(*one, out)?;
    }
    Ok(())
}

/// Prints the line of a move.
fn print_run_move<O: Sink>(one: Move, out: &mut O) -> Result<(), Failed>
    ensures adds { Adds (O.written out.old) (O.written out.new) (move_text one) result }
    ensures cause { HasCause (O.faults out.old) (O.faults out.new) result }
{
    laws::texts_follow();
    out.write_all(b"+ move")?;
    print_move(one, out)?;
    out.write_all(b"\n")
}
