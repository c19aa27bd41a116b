//! Prints what a client's end answers, as reports have it: what it took and applied, what it sent, and why it issues no move.

ghost use Rattle.std.specs.Prelude.{◌≡◌, [], ◌∷◌, codes, decimal};
ghost use Rattle.std.specs.List.{concat};
ghost use Rattle.q3_io.specs.Faults.{HasCause};
ghost use Rattle.q3_io.specs.Written.{Adds};
ghost use Rattle.q3_svmsg.specs.Report as report_spec;
ghost use Rattle.q3_report.specs.ClientLines.{illegible_text, client_text, move_error_text, send_text};

use q3_client::{Client, ClientTook, MoveError, Sent};
use q3_clstate::{Applied, ClState, Log, print_applied};
use q3_io::{Failed, Piece, Sink, laws, print_all};
use q3_svmsg::{Illegible, cause_number, cause_word};

/// Prints what stands after `deliver D`, or `arrive`, where a client took a datagram, with the client after it: the rest of that
/// line, and the lines of the commands that it executed, of the gamestate and of the snapshot. `Failed` comes where the sink
/// failed, after a front of it.
pub(crate) fn print_took<O: Sink>(
    client: &Client,
    c: u8,
    took: &ClientTook,
    log: &Log,
    out: &mut O,
) -> Result<(), Failed>
    ensures adds { Adds (O.written out.old) (O.written out.new)
        (client_text client.now.state c took.now log.now.commands) result }
    ensures cause { HasCause (O.faults out.old) (O.faults out.new) result }
{
    let word: &[u8] = match took {
        ClientTook::Applied(applied) => return print_delivered(
            client.state(),
            c,
            applied,
            log,
            out,
        ),
        ClientTook::Illegible(cause) => return print_illegible(c, *cause, out),
        ClientTook::Dropped(_) => b" dropped\n",
        ClientTook::Runt => b" runt\n",
        ClientTook::Connectionless => b" connectionless\n",
        ClientTook::Old => b" old\n",
        ClientTook::OutOfOrder => b" outoforder\n",
        ClientTook::BadFragment => b" badfragment\n",
        ClientTook::BadCheck => b" badcheck\n",
        ClientTook::Partial => b" partial\n",
    };
    print_all(
        &[
            Piece::Text(b" client "),
            Piece::Number(u64::from(c)),
            Piece::Text(word),
        ],
        out,
    )
}

/// Prints the line of a delivery of what isn't legible.
fn print_illegible<O: Sink>(c: u8, cause: Illegible, out: &mut O) -> Result<(), Failed>
    ensures adds { Adds (O.written out.old) (O.written out.new)
        (concat (codes " client " ∷ decimal c
        ∷ illegible_text (report_spec.cause_word cause) (report_spec.cause_number cause) ∷ [])) result }
    ensures cause { HasCause (O.faults out.old) (O.faults out.new) result }
{
    let Some(number) = cause_number(cause) else {
        return print_all(
            &[
                Piece::Text(b" client "),
                Piece::Number(u64::from(c)),
                Piece::Text(b" illegible "),
                Piece::Text(cause_word(cause)),
                Piece::Text(b"\n"),
            ],
            out,
        );
    };
    print_all(
        &[
            Piece::Text(b" client "),
            Piece::Number(u64::from(c)),
            Piece::Text(b" illegible "),
            Piece::Text(cause_word(cause)),
            Piece::Text(b" "),
            Piece::Number(u64::from(number)),
            Piece::Text(b"\n"),
        ],
        out,
    )
}

/// Prints the lines of a delivery of what was applied.
fn print_delivered<O: Sink>(
    state: &ClState,
    c: u8,
    applied: &Applied,
    log: &Log,
    out: &mut O,
) -> Result<(), Failed>
    ensures adds { Adds (O.written out.old) (O.written out.new)
        (client_text state.now c (ClientTook.Applied applied.now) log.now.commands) result }
    ensures cause { HasCause (O.faults out.old) (O.faults out.new) result }
{
    laws::texts_follow();
    print_number(c, applied.number, out)?;
    print_applied(state, applied, log, out)
}

fn print_number<O: Sink>(c: u8, number: u32, out: &mut O) -> Result<(), Failed>
    ensures adds { Adds (O.written out.old) (O.written out.new)
        (concat (codes " client " ∷ decimal c ∷ codes " applied " ∷ decimal number ∷ codes "\n" ∷ [])) result }
    ensures cause { HasCause (O.faults out.old) (O.faults out.new) result }
{
    print_all(
        &[
            Piece::Text(b" client "),
            Piece::Number(u64::from(c)),
            Piece::Text(b" applied "),
            Piece::Number(u64::from(number)),
            Piece::Text(b"\n"),
        ],
        out,
    )
}

/// Prints why a move can't be issued: a word, and the time of the last move. `Failed` comes where the sink failed, after a
/// front of it.
pub(crate) fn print_move_error<O: Sink>(error: MoveError, out: &mut O) -> Result<(), Failed>
    ensures adds { Adds (O.written out.old) (O.written out.new) (move_error_text error) result }
    ensures cause { HasCause (O.faults out.old) (O.faults out.new) result }
{
    match error {
        MoveError::NoGame => print_all(&[Piece::Text(b"nogame")], out),
        MoveError::NotLater(last) => print_all(
            &[Piece::Text(b"notlater "), Piece::Number(u64::from(last))],
            out,
        ),
        MoveError::Range => print_all(&[Piece::Text(b"range")], out),
    }
}

/// Prints the line of a `send`. The datagram's number is used where one was handed out. `Failed` comes where the sink
/// failed, after a front of the line.
pub(crate) fn print_sent<O: Sink>(
    c: u8,
    answer: &Sent,
    datagram: u32,
    out: &mut O,
) -> Result<(), Failed>
    ensures adds { Adds (O.written out.old) (O.written out.new) (send_text c answer.now datagram) result }
    ensures cause { HasCause (O.faults out.old) (O.faults out.new) result }
{
    let word: &[u8] = match answer {
        Sent::Message { number, bytes } => {
            return print_all(
                &[
                    Piece::Text(b"send "),
                    Piece::Number(u64::from(c)),
                    Piece::Text(b" message "),
                    Piece::Number(u64::from(*number)),
                    Piece::Text(b" bytes "),
                    Piece::Number(*bytes as u64),
                    Piece::Text(b" datagram "),
                    Piece::Number(u64::from(datagram)),
                    Piece::Text(b"\n"),
                ],
                out,
            );
        }
        Sent::Fragment { number } => {
            return print_all(
                &[
                    Piece::Text(b"send "),
                    Piece::Number(u64::from(c)),
                    Piece::Text(b" fragment "),
                    Piece::Number(u64::from(*number)),
                    Piece::Text(b" datagram "),
                    Piece::Number(u64::from(datagram)),
                    Piece::Text(b"\n"),
                ],
                out,
            );
        }
        Sent::Dropped(_) => b" dropped\n",
        Sent::SequenceEnd => b" sequenceend\n",
        Sent::Unclear => b" unclear\n",
        Sent::Overlong => b" overlong\n",
    };
    print_all(
        &[
            Piece::Text(b"send "),
            Piece::Number(u64::from(c)),
            Piece::Text(word),
        ],
        out,
    )
}
