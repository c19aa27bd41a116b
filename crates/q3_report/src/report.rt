//! Prints the lines of an answer, those of `lines_of` to the letter, and hands them on after the last: one write, where a line
//! buffer has room for them.

ghost use Rattle.std.specs.Prelude.{[], ◌∷◌, ◌++◌, codes, decimal, option_map, OnOk};
ghost use Rattle.std.specs.List.{concat};
ghost use Rattle.q3_io.specs.Faults.{HasCause};
ghost use Rattle.q3_io.specs.Print.{hex_word};
ghost use Rattle.q3_io.specs.Written.{Adds, NothingWaits};
ghost use Rattle.q3_clstate.specs.Report.{snapshot_text};
ghost use Rattle.q3_report.specs.ClientLines.{client_text};
ghost use Rattle.q3_rings.specs.Loans.{snapshot_of};
ghost use Rattle.q3_report.specs.AnswerLines.{lines_of, handed_lines, front_text, untaken_text, taking_text, handed_in_text, issued_text, bytes_text, showing_text, ended_text};
ghost use Rattle.q3_report.specs.Tellings.{answered_of, taking_of, showing_of};

use crate::answer::{Answer, Front, HandedIn, Shown, TakeRefused, Taker};
use crate::client::print_sent;
use crate::refusals::Refusal;
use crate::server::print_emitted;
use crate::{client, server};
use q3_client::{Client, ClientTook};
use q3_clstate::{Log, print_snapshot};
use q3_io::{Failed, Piece, Sink, laws, print_all, print_hex_word};
use q3_rings::SnapView;
use q3_server::NoClient;

/// Prints the lines of an answer, with what it lends. It hands them on, or a front of them and answers `Failed`.
pub fn print_answer<O: Sink>(answer: &Answer, out: &mut O) -> Result<(), Failed>
    ensures adds { Adds (O.written out.old) (O.written out.new) (lines_of (answered_of answer.now)) result }
    ensures flushed { OnOk result (NothingWaits (O.written out.new)) }
    ensures cause { HasCause (O.faults out.old) (O.faults out.new) result }
{
    laws::texts_follow();
    print_lines(answer, out)?;
    out.flush()
}

/// Prints the lines of an answer.
#[tactic(auto, unfolding(crate::specs::AnswerLines::lines_of))]
fn print_lines<O: Sink>(answer: &Answer, out: &mut O) -> Result<(), Failed>
    ensures adds { Adds (O.written out.old) (O.written out.new) (lines_of (answered_of answer.now)) result }
    ensures cause { HasCause (O.faults out.old) (O.faults out.new) result }
{
    match answer {
        Answer::HandedIn(handed) => print_handed_in(handed, out),
        Answer::Serve {
            c,
            emitted,
            datagram,
        } => print_emitted(*c, emitted, *datagram, out),
        Answer::Send {
            c,
            sent: Ok(sent),
            datagram,
        } => print_sent(*c, sent, *datagram, out),
        Answer::Send {
            c,
            sent: Err(NoClient),
            ..
        } => print_line(b"send ", u32::from(*c), b" noclient\n", out),
        Answer::Took { front, taker } => print_taken(front, taker, out),
        Answer::Untaken { front, cause } => print_untaken(front, cause, out),
        Answer::Show { c, shown } => print_shown(*c, *shown, out),
        Answer::Bytes { datagram, bytes } => print_bytes(*datagram, *bytes, out),
    }
}

/// Prints the line of what was handed in.
fn print_handed_in<O: Sink>(handed: &HandedIn, out: &mut O) -> Result<(), Failed>
    ensures adds { Adds (O.written out.old) (O.written out.new) (handed_lines handed.now) result }
    ensures cause { HasCause (O.faults out.old) (O.faults out.new) result }
{
    match handed {
        HandedIn::Client { c, outcome } => print_outcome(b"client ", u32::from(*c), outcome, out),
        HandedIn::Port { c, outcome } => print_outcome(b"port ", u32::from(*c), outcome, out),
        HandedIn::Map { id, outcome } => print_outcome(b"map ", *id, outcome, out),
        HandedIn::Entity { number, outcome } => {
            print_outcome(b"entity ", u32::from(*number), outcome, out)
        }
        HandedIn::Remove { number, outcome } => {
            print_outcome(b"remove ", u32::from(*number), outcome, out)
        }
        HandedIn::Baseline { number, outcome } => {
            print_outcome(b"baseline ", u32::from(*number), outcome, out)
        }
        HandedIn::Config { index, outcome } => print_outcome(b"config ", *index, outcome, out),
        HandedIn::Player { c, outcome } => print_outcome(b"player ", u32::from(*c), outcome, out),
        HandedIn::Area { c, outcome } => print_outcome(b"area ", u32::from(*c), outcome, out),
        HandedIn::Time => print_all(&[Piece::Text(b"time ok\n")], out),
        HandedIn::Say { c, outcome } => print_issued(b"say ", *c, outcome, out),
        HandedIn::TypeText { c, outcome } => print_issued(b"type ", *c, outcome, out),
        HandedIn::Move { c, outcome } => print_outcome(b"move ", u32::from(*c), outcome, out),
        HandedIn::Record { c, outcome } => print_outcome(b"record ", u32::from(*c), outcome, out),
        HandedIn::Stop { c, outcome } => print_outcome(b"stop ", u32::from(*c), outcome, out),
    }
}

/// Prints a line, or its front: a word, the number of what it is about, and the rest.
fn print_line<'a, O: Sink>(
    word: &'a [u8],
    number: u32,
    rest: &'a [u8],
    out: &mut O,
) -> Result<(), Failed>
    ensures adds { Adds (O.written out.old) (O.written out.new)
        (concat (word.now ∷ decimal number ∷ rest.now ∷ [])) result }
    ensures cause { HasCause (O.faults out.old) (O.faults out.new) result }
{
    print_all(
        &[
            Piece::Text(word),
            Piece::Number(u64::from(number)),
            Piece::Text(rest),
        ],
        out,
    )
}

/// Prints the line of what the game, or a client, hands in: it is taken over, or refused.
fn print_outcome<E: Refusal, O: Sink>(
    word: &[u8],
    number: u32,
    outcome: &Result<(), E>,
    out: &mut O,
) -> Result<(), Failed>
    ensures adds { Adds (O.written out.old) (O.written out.new)
        (concat (word.now ∷ decimal number ∷ handed_in_text E.told outcome.now ∷ [])) result }
    ensures cause { HasCause (O.faults out.old) (O.faults out.new) result }
{
    match outcome {
        Ok(()) => print_line(word, number, b" ok\n", out),
        Err(refusal) => print_refused(word, number, refusal, out),
    }
}

/// Prints the line of a command that is issued under a number, or refused.
fn print_issued<E: Refusal, O: Sink>(
    word: &[u8],
    c: u8,
    outcome: &Result<u32, E>,
    out: &mut O,
) -> Result<(), Failed>
    ensures adds { Adds (O.written out.old) (O.written out.new)
        (concat (word.now ∷ decimal c ∷ issued_text E.told outcome.now ∷ [])) result }
    ensures cause { HasCause (O.faults out.old) (O.faults out.new) result }
{
    match outcome {
        Ok(number) => print_command(word, c, *number, out),
        Err(refusal) => print_refused(word, u32::from(c), refusal, out),
    }
}

/// Prints the line of a command that was issued, with its number.
fn print_command<O: Sink>(word: &[u8], c: u8, number: u32, out: &mut O) -> Result<(), Failed>
    ensures adds { Adds (O.written out.old) (O.written out.new)
        (concat (word.now ∷ decimal c ∷ concat (codes " ok " ∷ decimal number ∷ codes "\n" ∷ []) ∷ [])) result }
    ensures cause { HasCause (O.faults out.old) (O.faults out.new) result }
{
    print_all(
        &[
            Piece::Text(word),
            Piece::Number(u64::from(c)),
            Piece::Text(b" ok "),
            Piece::Number(u64::from(number)),
            Piece::Text(b"\n"),
        ],
        out,
    )
}

/// Prints the line of what is refused: the reason stands after the word and the number of what it is about.
fn print_refused<E: Refusal, O: Sink>(
    word: &[u8],
    number: u32,
    refusal: &E,
    out: &mut O,
) -> Result<(), Failed>
    ensures adds { Adds (O.written out.old) (O.written out.new)
        (concat (word.now ∷ decimal number
        ∷ concat (codes " refused " ∷ E.told refusal.now ∷ codes "\n" ∷ []) ∷ [])) result }
    ensures cause { HasCause (O.faults out.old) (O.faults out.new) result }
{
    laws::texts_follow();
    print_line(word, number, b" refused ", out)?;
    refusal.print(out)?;
    out.write_all(b"\n")
}

/// Prints the lines of bytes that an end took.
fn print_taken<O: Sink>(front: &Front, taker: &Taker, out: &mut O) -> Result<(), Failed>
    ensures adds { Adds (O.written out.old) (O.written out.new)
        (front_text front.now ++ taking_text (taking_of taker.now)) result }
    ensures cause { HasCause (O.faults out.old) (O.faults out.new) result }
{
    laws::texts_follow();
    print_front(front, out)?;
    print_taking(taker, out)
}

/// Prints the line of bytes that nobody took.
fn print_untaken<O: Sink>(front: &Front, cause: &TakeRefused, out: &mut O) -> Result<(), Failed>
    ensures adds { Adds (O.written out.old) (O.written out.new)
        (front_text front.now ++ untaken_text cause.now) result }
    ensures cause { HasCause (O.faults out.old) (O.faults out.new) result }
{
    laws::texts_follow();
    print_front(front, out)?;
    print_cause(cause, out)
}

/// Prints what stands in front of what an end made of bytes.
fn print_front<O: Sink>(front: &Front, out: &mut O) -> Result<(), Failed>
    ensures adds { Adds (O.written out.old) (O.written out.new) (front_text front.now) result }
    ensures cause { HasCause (O.faults out.old) (O.faults out.new) result }
{
    match front {
        Front::Deliver { datagram } => print_numbered(b"deliver ", *datagram, out),
        Front::Toclient { c } => print_numbered(b"toclient ", u32::from(*c), out),
        Front::Toserver { c } => print_numbered(b"toserver ", u32::from(*c), out),
        Front::Arrive => out.write_all(b"arrive"),
    }
}

/// Prints why nobody took bytes, to the end of the line.
fn print_cause<O: Sink>(cause: &TakeRefused, out: &mut O) -> Result<(), Failed>
    ensures adds { Adds (O.written out.old) (O.written out.new) (untaken_text cause.now) result }
    ensures cause { HasCause (O.faults out.old) (O.faults out.new) result }
{
    match cause {
        TakeRefused::Unknown => out.write_all(b" unknown\n"),
        TakeRefused::NoClient => out.write_all(b" noclient\n"),
        TakeRefused::Stranger { c } => {
            print_line(b" client ", u32::from(*c), b" stranger\n", out)
        }
    }
}

/// Prints what an end made of bytes: the rest of that line, and the lines under it.
fn print_taking<O: Sink>(taker: &Taker, out: &mut O) -> Result<(), Failed>
    ensures adds { Adds (O.written out.old) (O.written out.new) (taking_text (taking_of taker.now)) result }
    ensures cause { HasCause (O.faults out.old) (O.faults out.new) result }
{
    match taker {
        Taker::Client {
            c,
            took,
            client,
            log,
            ended,
        } => print_client_took(client, *c, took, log, *ended, out),
        Taker::Server { took, heard } => server::print_took(took, heard, out),
    }
}

/// Prints what a client made of bytes, and that its recording ended by itself.
fn print_client_took<O: Sink>(
    client: &Client,
    c: u8,
    took: &ClientTook,
    log: &Log,
    ended: bool,
    out: &mut O,
) -> Result<(), Failed>
    ensures adds { Adds (O.written out.old) (O.written out.new)
        (client_text client.now.state c took.now log.now.commands ++ ended_text ended) result }
    ensures cause { HasCause (O.faults out.old) (O.faults out.new) result }
{
    laws::texts_follow();
    client::print_took(client, c, took, log, out)?;
    if !ended {
        return Ok(());
    }
    out.write_all(b"+ recording ended\n")
}

/// Prints a word, and the number of what the line is about.
fn print_numbered<O: Sink>(word: &[u8], number: u32, out: &mut O) -> Result<(), Failed>
    ensures adds { Adds (O.written out.old) (O.written out.new) (concat (word.now ∷ decimal number ∷ [])) result }
    ensures cause { HasCause (O.faults out.old) (O.faults out.new) result }
{
    print_all(&[Piece::Text(word), Piece::Number(u64::from(number))], out)
}

/// Prints the line of a datagram's bytes.
fn print_bytes<O: Sink>(datagram: u32, bytes: Option<&[u8]>, out: &mut O) -> Result<(), Failed>
    ensures adds { Adds (O.written out.old) (O.written out.new)
        (concat (codes "bytes " ∷ decimal datagram
        ∷ bytes_text (option_map (λ bytes. bytes.now) bytes.entry) ∷ [])) result }
    ensures cause { HasCause (O.faults out.old) (O.faults out.new) result }
{
    match bytes {
        Some(bytes) => print_all_bytes(datagram, bytes, out),
        None => print_line(b"bytes ", datagram, b" unknown\n", out),
    }
}

/// Prints the line of a datagram's bytes, where it was made.
fn print_all_bytes<O: Sink>(datagram: u32, bytes: &[u8], out: &mut O) -> Result<(), Failed>
    ensures adds { Adds (O.written out.old) (O.written out.new)
        (concat (codes "bytes " ∷ decimal datagram
        ∷ concat (codes " " ∷ hex_word bytes.now ∷ codes "\n" ∷ []) ∷ [])) result }
    ensures cause { HasCause (O.faults out.old) (O.faults out.new) result }
{
    laws::texts_follow();
    print_line(b"bytes ", datagram, b" ", out)?;
    print_hex_word(bytes, out)?;
    out.write_all(b"\n")
}

/// Prints the lines of a `show`.
fn print_shown<O: Sink>(c: u8, shown: Shown, out: &mut O) -> Result<(), Failed>
    ensures adds { Adds (O.written out.old) (O.written out.new)
        (concat (codes "show " ∷ decimal c ∷ showing_text (showing_of shown.entry) ∷ [])) result }
    ensures cause { HasCause (O.faults out.old) (O.faults out.new) result }
{
    match shown {
        Shown::NoClient => print_line(b"show ", u32::from(c), b" noclient\n", out),
        Shown::Nothing => print_line(b"show ", u32::from(c), b" none\n", out),
        Shown::Newest(snapshot) => print_newest(c, snapshot, out),
    }
}

/// Prints the lines of a `show` that shows a snapshot.
fn print_newest<O: Sink>(c: u8, snapshot: SnapView, out: &mut O) -> Result<(), Failed>
    ensures adds { Adds (O.written out.old) (O.written out.new)
        (concat (codes "show " ∷ decimal c ∷ snapshot_text (snapshot_of snapshot.entry) ∷ [])) result }
    ensures cause { HasCause (O.faults out.old) (O.faults out.new) result }
{
    laws::texts_follow();
    print_numbered(b"show ", u32::from(c), out)?;
    print_snapshot(snapshot, out)
}
