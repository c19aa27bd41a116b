//! The lines of a script that are a client's own: what it issues, records and shows.

ghost use Rattle.std.specs.Prelude.{◌≡◌, true, Some, is_some, IfOk, IsErr, IsSome, None, OnOk};
ghost use Rattle.q3_report.specs.Tellings.{answered_of, showing_of};
ghost use Rattle.q3_demo.specs.Recorder.{done};
ghost use Rattle.q3_ends.specs.AtClient.{showing};
ghost use Rattle.q3_ends.specs.AtClient as at_client_spec;
ghost use Rattle.q3_ends.specs.ClientLine.{fresh_of, client_after, recording_after, answer_in, acts_in, answer_with};
ghost use Rattle.q3_ends.specs.ClientLine as spec;
ghost use Rattle.q3_ends.specs.Recording.{HasFile, WritesFiles};

use crate::recording::{Recording, begin, stop};
use q3_bits::NoMemory;
use q3_client::Client;
use q3_clmsg::Move;
use q3_io::{Failed, Files};
use q3_report::{Answer, HandedIn, MoveRefused, RecordRefused, Shown, StopRefused, TypeRefused};
use q3_script::Event;
use q3_text::Text;
use q3_window::WindowFull;
use std::alloc::Global;

/// What a line of a client's own answers.
#[derive(Clone, Copy, Debug, PartialEq, Eq)]
pub enum LineAnswer {
    /// Something was handed in.
    HandedIn(HandedIn),
    /// What the client shows is to be told.
    Shows { c: u8 },
}

/// The client that a line names, if it is one of a client's own.
pub fn client_named(event: &Event) -> Option<u8>
    ensures { result ≡ spec.client_named event.now }
{
    match event {
        Event::TypeText { c, .. } => Some(*c),
        Event::Move { c, .. } => Some(*c),
        Event::RecordTo { c, .. } => Some(*c),
        Event::Stop { c } => Some(*c),
        Event::Show { c } => Some(*c),
        _ => None,
    }
}

/// What is answered to a line of a client's own where there is no such client.
pub fn unjoined(event: &Event) -> Answer<'_>
    requires { IsSome (spec.client_named event.now) }
    ensures { Some (answered_of result) ≡ spec.unjoined event.now }
{
    match event {
        Event::TypeText { c, .. } => Answer::HandedIn(HandedIn::TypeText {
            c: *c,
            outcome: Err(TypeRefused::NoClient),
        }),
        Event::Move { c, .. } => Answer::HandedIn(HandedIn::Move {
            c: *c,
            outcome: Err(MoveRefused::NoClient),
        }),
        Event::RecordTo { c, .. } => Answer::HandedIn(HandedIn::Record {
            c: *c,
            outcome: Err(RecordRefused::NoClient),
        }),
        Event::Stop { c } => Answer::HandedIn(HandedIn::Stop {
            c: *c,
            outcome: Err(StopRefused::NoClient),
        }),
        Event::Show { c } => Answer::Show {
            c: *c,
            shown: Shown::NoClient,
        },
        _ => unreachable!(),
    }
}

/// The recording that a line would begin: all the memory that a line of a client's own takes. `Err` is want of it.
pub fn fresh_for(alloc: Global, event: &Event) -> Result<Option<Recording>, NoMemory>
    ensures made { IfOk result (λ made. made ≡ fresh_of event.now) }
    ensures memory { IsErr result → is_some (fresh_of event.now) ≡ true }
{
    match event {
        Event::RecordTo { name, .. } => Ok(Some(Recording::new(alloc, &name.name())?)),
        _ => Ok(None),
    }
}

/// Does a line of a client's own. `fresh` is the recording that it would begin, and `number` that of the file of the client's
/// recording, also after it. `Failed` comes where a recording's file can't be made or written; no recording goes on then.
pub fn client_line<F: Files>(
    client: &mut Client,
    recording: &mut Option<Recording>,
    event: &Event,
    fresh: Option<Recording>,
    number: &mut usize,
    files: &mut F,
) -> Result<LineAnswer, Failed>
    requires line { IsSome (spec.client_named event.now) }
    requires fresh { fresh ≡ fresh_of event.now }
    requires file { HasFile (F.told files.old) (F.given files.old) number.old recording.old }
    ensures client { client.new ≡ client_after client.old (spec.client_line client.old recording.old event.now) }
    ensures recording { OnOk result (recording.new
        ≡ recording_after recording.old (spec.client_line client.old recording.old event.now)) }
    ensures answer { IfOk result (λ answer. Some (answer_with answer client.new)
        ≡ answer_in (spec.client_line client.old recording.old event.now)) }
    ensures files { WritesFiles (F.told files.old) (F.told files.new) (F.given files.old) (F.given files.new)
        (F.faults files.old) (F.faults files.new)
        (F.write_faults files.old) (F.write_faults files.new)
        (acts_in (spec.client_line client.old recording.old event.now)) (done result) }
    ensures file { HasFile (F.told files.new) (F.given files.new) number.new recording.new }
    ensures given_up { IsErr result → recording.new ≡ None }
{
    match event {
        Event::TypeText { c, text } => {
            Ok(LineAnswer::HandedIn(type_text(client, *c, &text.text())))
        }
        Event::Move { c, one } => Ok(LineAnswer::HandedIn(add_move(client, *c, one))),
        Event::RecordTo { c, .. } => {
            let fresh = fresh.unwrap();
            let outcome = begin(client, recording, fresh, number, files)?;
            Ok(LineAnswer::HandedIn(HandedIn::Record { c: *c, outcome }))
        }
        Event::Stop { c } => {
            let outcome = stop(recording, *number, files)?;
            Ok(LineAnswer::HandedIn(HandedIn::Stop { c: *c, outcome }))
        }
        Event::Show { c } => Ok(LineAnswer::Shows { c: *c }),
        _ => unreachable!(),
    }
}

/// The answer of a line of a client's own, with what the client shows after it.
pub fn line_answer(client: &Client, answer: LineAnswer) -> Answer<'_>
    ensures { answered_of result ≡ answer_with answer client.now }
{
    match answer {
        LineAnswer::HandedIn(handed) => Answer::HandedIn(handed),
        LineAnswer::Shows { c } => Answer::Show {
            c,
            shown: show(client),
        },
    }
}

/// A client issues a command.
fn type_text(client: &mut Client, c: u8, text: &Text) -> HandedIn
    ensures client { client.new ≡ (at_client_spec.type_text client.old c text.now).client }
    ensures answer { result ≡ (at_client_spec.type_text client.old c text.now).answer }
{
    match client.type_command(text) {
        Ok(number) => HandedIn::TypeText {
            c,
            outcome: Ok(number),
        },
        Err(WindowFull) => HandedIn::TypeText {
            c,
            outcome: Err(TypeRefused::WindowFull),
        },
    }
}

/// A client issues a move.
fn add_move(client: &mut Client, c: u8, one: &Move) -> HandedIn
    ensures client { client.new ≡ (at_client_spec.add_move client.old c one.now).client }
    ensures answer { result ≡ (at_client_spec.add_move client.old c one.now).answer }
{
    match client.add_move(one) {
        Ok(()) => HandedIn::Move { c, outcome: Ok(()) },
        Err(error) => HandedIn::Move {
            c,
            outcome: Err(MoveRefused::Error(error)),
        },
    }
}

/// What a client shows: the newest snapshot that it accepted since its last gamestate, where it lies.
fn show(client: &Client) -> Shown<'_>
    ensures { showing_of result ≡ showing client.now }
{
    match client.view(client.state().newest()) {
        Some(snapshot) => Shown::Newest(snapshot),
        None => Shown::Nothing,
    }
}
