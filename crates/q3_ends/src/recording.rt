//! A client records the messages that it applies into a file.

ghost use Rattle.std.specs.Prelude.{◌≡◌, ◌<◌, ℕ, List, Some, None, IfOk, IsErr, OnOk};
ghost use Rattle.q3_io.specs.Faults.{HasCause};
ghost use Rattle.q3_chan.specs.Sending.{HandsOut};
ghost use Rattle.q3_window.specs.Outgoing.{issued_of};
ghost use Rattle.q3_clstate.specs.State.{AppliedState};
ghost use Rattle.q3_clstate.specs.Standing.{IsApplied};
ghost use Rattle.q3_clstate.specs.declared.applied.Applied.{Applied as AppliedSo};
ghost use Rattle.q3_client.specs.Client.{take_at};
ghost use Rattle.q3_client.specs.Sending.{emit_at};
ghost use Rattle.q3_demo.specs.Recorder.{done, AppendsBytes};
ghost use Rattle.q3_demo.specs.Recording.{composed, game_bits, note_at, closing};
ghost use Rattle.q3_ends.specs.Recording.{new_recording, waits_in, asking, begin_at, stop_at, recorder_took, note_taken, extends, HasFile, WritesFiles};

use q3_bits::NoMemory;
use q3_chan::Datagram;
use q3_client::laws::takes_messages;
use q3_client::{Client, ClientTook, Sent};
use q3_clstate::{ClState, Log};
use q3_demo::laws::applied_may_be_noted;
use q3_demo::{Noted, Recorder};
use q3_io::{Failed, Files};
use q3_report::{RecordRefused, StopRefused};
use q3_words::Name;
use std::alloc::Global;
use std::marker::Model;

/// A recording that goes on. The number of its file comes with each call.
#[derive(Drop)]
pub struct Recording {
    /// Of its file.
    name: Name,
    recorder: Recorder,
}

impl Model for Recording {
    ghost use Rattle.q3_ends.specs.Recording.{RecordingState};

    ghost Value = { RecordingState };

    ghost view = { λ r. record { name = r.name; stage = r.recorder.stage } };
}

impl Recording {
    /// A recording into a file of this name, which isn't made yet, that waits for a whole snapshot. `Err` is want of memory.
    pub fn new(alloc: Global, name: &Name) -> Result<Recording, NoMemory>
        ensures { IfOk result (λ made. made ≡ new_recording name.now) }
    {
        let recorder = Recorder::new(alloc)?;
        Ok(Recording {
            name: name.copy(),
            recorder,
        })
    }

    /// Its client takes bytes, and what it made of them is noted.
    fn take<F: Files>(
        &mut self,
        client: &mut Client,
        bytes: &[u8],
        log: &mut Log,
        number: usize,
        files: &mut F,
    ) -> Result<(ClientTook, bool), Failed>
        requires file { HasFile (F.told files.old) (F.given files.old) number (Some self.old) }
        ensures client { client.new ≡ (take_at client.old bytes.now).client }
        ensures log { log.new.commands ≡ (take_at client.old bytes.now).heard }
        ensures name { self.new.name ≡ self.old.name }
        ensures stage { OnOk result (self.new.stage ≡ (recorder_took self.old.stage client.old
            (take_at client.old bytes.now) (take_at client.old bytes.now).answer).stage) }
        ensures answer { IfOk result (λ took. took ≡ (
          (take_at client.old bytes.now).answer,
          (recorder_took self.old.stage client.old (take_at client.old bytes.now)
              (take_at client.old bytes.now).answer).ended,
        )) }
        ensures files { WritesFiles (F.told files.old) (F.told files.new) (F.given files.old) (F.given files.new)
            (F.faults files.old) (F.faults files.new)
            (F.write_faults files.old) (F.write_faults files.new)
            (extends self.old.name (recorder_took self.old.stage client.old (take_at client.old bytes.now)
            (take_at client.old bytes.now).answer).bytes) (done result) }
        ensures file { HasFile (F.told files.new) (F.given files.new) number (Some self.new) }
    {
        record_taken(&mut self.recorder, client, bytes, log, number, files)
    }

    /// It has its end.
    fn stop<F: Files>(mut self, number: usize, files: &mut F) -> Result<(), Failed>
        requires file { HasFile (F.told files.old) (F.given files.old) number (Some self) }
        ensures files { WritesFiles (F.told files.old) (F.told files.new) (F.given files.old) (F.given files.new)
            (F.faults files.old) (F.faults files.new)
            (F.write_faults files.old) (F.write_faults files.new) (extends self.name (closing self.stage)) result }
    {
        self.recorder.stop(number, files)
    }
}

/// Keeps the gamestate that a client has, while its recording waits.
fn prepare(recorder: &mut Recorder, client: &Client)
    ensures stage { recorder.new.stage ≡ recorder.old.stage }
    ensures game { (state : AppliedState) (applied : AppliedSo) (message : List ℕ)
        → note_at recorder.new.stage recorder.new.game state applied message
        ≡ note_at recorder.old.stage
        (composed (game_bits client.now.state (issued_of client.now.issued))) state applied message }
{
    if recorder.waiting() {
        recorder.prepare(client.state(), client.issued());
    }
}

/// A client takes bytes, and what it made of them is noted; and whether the recording has its end by then.
fn record_taken<F: Files>(
    recorder: &mut Recorder,
    client: &mut Client,
    bytes: &[u8],
    log: &mut Log,
    number: usize,
    files: &mut F,
) -> Result<(ClientTook, bool), Failed>
    requires given { number < F.given files.old }
    ensures client { client.new ≡ (take_at client.old bytes.now).client }
    ensures log { log.new.commands ≡ (take_at client.old bytes.now).heard }
    ensures stage { OnOk result (recorder.new.stage ≡ (recorder_took recorder.old.stage client.old
        (take_at client.old bytes.now) (take_at client.old bytes.now).answer).stage) }
    ensures answer { IfOk result (λ took. took ≡ (
      (take_at client.old bytes.now).answer,
      (recorder_took recorder.old.stage client.old (take_at client.old bytes.now)
          (take_at client.old bytes.now).answer).ended,
    )) }
    ensures adds { AppendsBytes (F.told files.old) (F.told files.new) number
        (recorder_took recorder.old.stage client.old (take_at client.old bytes.now)
        (take_at client.old bytes.now).answer).bytes (done result) }
    ensures given { F.given files.new ≡ F.given files.old }
    ensures cause { HasCause (F.write_faults files.old) (F.write_faults files.new) result }
    ensures others { F.faults files.new ≡ F.faults files.old }
{
    takes_messages();
    applied_may_be_noted();
    stands(client.state());
    prepare(recorder, client);
    let took = client.take(bytes, log);
    let ClientTook::Applied(applied) = took else {
        return Ok((took, false));
    };
    let noted = recorder.note(client.state(), &applied, client.message(), number, files)?;
    Ok((took, noted == Noted::Ended))
}

/// What every client has is well formed.
fn stands(state: &ClState)
    ensures { IsApplied state.now }
{
    let _profile = state.profile();
}

/// A client begins to record: the file of this recording is made, and `number` is its number from then on. `Failed` comes where
/// the file can't be made; no recording goes on then. It is refused for the first of these that fits, and nothing changes then:
/// - `NoGame`: the client never had a gamestate.
/// - `Already`: its recording goes on.
pub fn begin<F: Files>(
    client: &Client,
    recording: &mut Option<Recording>,
    fresh: Recording,
    number: &mut usize,
    files: &mut F,
) -> Result<Result<(), RecordRefused>, Failed>
    requires file { HasFile (F.told files.old) (F.given files.old) number.old recording.old }
    ensures recording { OnOk result (recording.new ≡ (begin_at client.now recording.old fresh).recording) }
    ensures answer { IfOk result (λ answer. answer ≡ (begin_at client.now recording.old fresh).answer) }
    ensures files { WritesFiles (F.told files.old) (F.told files.new) (F.given files.old) (F.given files.new)
        (F.faults files.old) (F.faults files.new)
        (F.write_faults files.old) (F.write_faults files.new) (begin_at client.now recording.old fresh).acts
        (done result) }
    ensures file { HasFile (F.told files.new) (F.given files.new) number.new recording.new }
    ensures none { IsErr result → recording.new ≡ None }
{
    if !client.state().has_game() {
        return Ok(Err(RecordRefused::NoGame));
    }
    if recording.is_some() {
        return Ok(Err(RecordRefused::Already));
    }
    *number = files.create(fresh.name.as_str())?;
    *recording = Some(fresh);
    Ok(Ok(()))
}

/// A client's recording has its end, and isn't there any more. Refused is a client that doesn't record; nothing changes then.
/// `Failed` comes where the end can't be written; the recording is given up then.
pub fn stop<F: Files>(
    recording: &mut Option<Recording>,
    number: usize,
    files: &mut F,
) -> Result<Result<(), StopRefused>, Failed>
    requires file { HasFile (F.told files.old) (F.given files.old) number recording.old }
    ensures recording { recording.new ≡ (stop_at recording.old).recording }
    ensures answer { IfOk result (λ answer. answer ≡ (stop_at recording.old).answer) }
    ensures files { WritesFiles (F.told files.old) (F.told files.new) (F.given files.old) (F.given files.new)
        (F.faults files.old) (F.faults files.new)
        (F.write_faults files.old) (F.write_faults files.new) (stop_at recording.old).acts (done result) }
{
    let Some(going) = recording.take() else {
        return Ok(Err(StopRefused::NotRecording));
    };
    going.stop(number, files)?;
    Ok(Ok(()))
}

/// A client takes bytes, and records the message that it applied, if it did. It tells what it made of them, and whether its
/// recording ended by itself: it isn't there any more then. `log` may hold anything before. `Failed` comes where the file can't
/// be written; how far the recording is then isn't said.
pub fn take<F: Files>(
    client: &mut Client,
    recording: &mut Option<Recording>,
    bytes: &[u8],
    log: &mut Log,
    number: usize,
    files: &mut F,
) -> Result<(ClientTook, bool), Failed>
    requires file { HasFile (F.told files.old) (F.given files.old) number recording.old }
    ensures client { client.new ≡ (take_at client.old bytes.now).client }
    ensures log { log.new.commands ≡ (take_at client.old bytes.now).heard }
    ensures recording { OnOk result (recording.new ≡ (note_taken recording.old client.old
        (take_at client.old bytes.now)).recording) }
    ensures answer { IfOk result
        (λ took. took ≡ (
          (take_at client.old bytes.now).answer,
          (note_taken recording.old client.old
              (take_at client.old bytes.now)).ended,
        )) }
    ensures files { WritesFiles (F.told files.old) (F.told files.new) (F.given files.old) (F.given files.new)
        (F.faults files.old) (F.faults files.new)
        (F.write_faults files.old) (F.write_faults files.new)
        (note_taken recording.old client.old (take_at client.old bytes.now)).acts (done result) }
    ensures file { HasFile (F.told files.new) (F.given files.new) number recording.new }
{
    let Some(going) = recording else {
        return Ok((client.take(bytes, log), false));
    };
    let (took, ended) = going.take(client, bytes, log, number, files)?;
    if ended {
        *recording = None;
    }
    Ok((took, ended))
}

/// A client makes a datagram. It asks for whole snapshots exactly while its recording waits.
pub fn emit(client: &mut Client, recording: &Option<Recording>, out: &mut Datagram) -> Sent
    ensures client { client.new ≡ (emit_at (asking client.old recording.now)).client }
    ensures answer { result ≡ (emit_at (asking client.old recording.now)).answer }
    ensures piece { HandsOut (emit_at (asking client.old recording.now)).piece out.new.items }
{
    client.ask_whole(waits(recording));
    client.emit(out)
}

/// Whether a recording waits for its first whole snapshot.
fn waits(recording: &Option<Recording>) -> bool
    ensures { result ≡ waits_in recording.now }
{
    match recording {
        None => false,
        Some(going) => going.recorder.waiting(),
    }
}
