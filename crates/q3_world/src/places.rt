//! Places for clients.

ghost use Rattle.std.specs.Prelude.{◌≡◌, ◌<◌, Some, None, length, replicate, slice_set, IfOk};
ghost use Rattle.q3_chan.specs.Sending.{HandsOut};
ghost use Rattle.q3_client.specs.Sending.{emit_at};
ghost use Rattle.q3_server.specs.Server.{places};

use crate::told::{StepError, tell};
use q3_bits::NoMemory;
use q3_chan::Datagram;
use q3_client::{Client, Sent};
use q3_clstate::Log;
use q3_counts::Counts;
use q3_ends::client::{client_line, line_answer};
use q3_ends::recording::{Recording, emit, stop, take};
use q3_io::{Address, Failed, Files, Sink};
use q3_profile::Profile;
use q3_report::{Answer, Front, StopRefused, Taker};
use q3_script::Event;
use q3_server::MOST_SLOTS;
use std::alloc::Global;

/// A client, at its own end.
#[derive(Drop)]
pub struct Place {
    pub client: Client,
    /// Where its datagrams come from.
    pub address: Address,
    /// The recording that goes on, if one does.
    pub recording: Option<Recording>,
}

impl Place {
    ghost use Rattle.q3_profile.specs.Profile.{IsProfile};
    ghost use Rattle.q3_client.specs.Client.{new_client, take_at};
    ghost use Rattle.std.specs.Prelude.{OnOk, IfOk, IsErrOf, IsSome};
    ghost use Rattle.q3_ends.specs.AtClient.{taken_by_client};
    ghost use Rattle.q3_ends.specs.ClientLine.{client_named, fresh_of, acts_in};
    ghost use Rattle.q3_ends.specs.ClientLine as lines_spec;
    ghost use Rattle.q3_ends.specs.Recording.{stop_at, note_taken, asking, HasFile, WritesFiles};
    ghost use Rattle.q3_demo.specs.Recorder.{done};
    ghost use Rattle.q3_world.specs.Doing.{Tells, LineAt, TakesAt};
    ghost use Rattle.q3_world.specs.Files.{DoesFiles};

    /// A new client, which sends from this address and records nothing. `Err` is want of memory.
    pub(crate) fn new(
        alloc: Global,
        profile: &Profile,
        challenge: u32,
        qport: u16,
        dup: u8,
        address: Address,
    ) -> Result<Place, NoMemory>
        requires { IsProfile profile.now }
        ensures { IfOk result (λ place. place ≡ record {
          client = new_client profile.now challenge qport dup;
          address = address;
          recording = None;
        }) }
    {
        Ok(Place {
            client: Client::new(alloc, profile, challenge, qport, dup)?,
            address,
            recording: None,
        })
    }

    /// The client does a line of its own, and its answer is told. `fresh` is the recording that the line would begin, and `number`
    /// that of the recording's file, also after it.
    pub(crate) fn line<F: Files, O: Sink>(
        &mut self,
        event: &Event,
        fresh: Option<Recording>,
        number: &mut usize,
        counts: &mut Counts,
        files: &mut F,
        out: &mut O,
    ) -> Result<(), StepError>
        requires line { IsSome (client_named event.now) }
        requires fresh { fresh ≡ fresh_of event.now }
        requires file { HasFile (F.told files.old) (F.given files.old) number.old self.old.recording }
        ensures does { LineAt self.old (lines_spec.client_line self.old.client self.old.recording event.now) self.new
            counts.old counts.new (O.written out.old) (O.written out.new)
            (O.faults out.old) (O.faults out.new) result }
        ensures files { DoesFiles (F.told files.old) (F.told files.new) (F.given files.old) (F.given files.new)
            (F.faults files.old) (F.faults files.new)
            (F.write_faults files.old) (F.write_faults files.new)
            (acts_in (lines_spec.client_line self.old.client self.old.recording event.now)) result }
        ensures file { HasFile (F.told files.new) (F.given files.new) number.new self.new.recording }
    {
        let Ok(answer) = client_line(
            &mut self.client,
            &mut self.recording,
            event,
            fresh,
            number,
            files,
        ) else {
            return Err(StepError::FileFault);
        };
        tell(&line_answer(&self.client, answer), counts, out)
    }

    /// The client's recording has its end.
    pub(crate) fn stop<F: Files>(
        &mut self,
        number: usize,
        files: &mut F,
    ) -> Result<Result<(), StopRefused>, Failed>
        requires file { HasFile (F.told files.old) (F.given files.old) number self.old.recording }
        ensures place { self.new ≡ record self.old { recording = (stop_at self.old.recording).recording } }
        ensures answer { IfOk result (λ answer. answer ≡ (stop_at self.old.recording).answer) }
        ensures files { WritesFiles (F.told files.old) (F.told files.new) (F.given files.old) (F.given files.new)
            (F.faults files.old) (F.faults files.new)
            (F.write_faults files.old) (F.write_faults files.new) (stop_at self.old.recording).acts (done result) }
    {
        stop(&mut self.recording, number, files)
    }

    /// The client takes bytes and records what it applied, and what it made of them is told. `log` may hold anything before.
    pub(crate) fn take<F: Files, O: Sink>(
        &mut self,
        front: Front,
        c: u8,
        bytes: &[u8],
        log: &mut Log,
        number: usize,
        counts: &mut Counts,
        files: &mut F,
        out: &mut O,
    ) -> Result<(), StepError>
        requires file { HasFile (F.told files.old) (F.given files.old) number self.old.recording }
        ensures takes { TakesAt self.old (take_at self.old.client bytes.now) self.new front c counts.old counts.new
            (O.written out.old) (O.written out.new)
            (O.faults out.old) (O.faults out.new) result }
        ensures files { DoesFiles (F.told files.old) (F.told files.new) (F.given files.old) (F.given files.new)
            (F.faults files.old) (F.faults files.new)
            (F.write_faults files.old) (F.write_faults files.new)
            (note_taken self.old.recording self.old.client (take_at self.old.client bytes.now)).acts result }
        ensures file { HasFile (F.told files.new) (F.given files.new) number self.new.recording }
    {
        let Ok((took, ended)) = take(
            &mut self.client,
            &mut self.recording,
            bytes,
            log,
            number,
            files,
        ) else {
            return Err(StepError::FileFault);
        };
        let client = &self.client;
        let taker = Taker::Client {
            c,
            took,
            client,
            log,
            ended,
        };
        tell(&Answer::Took { front, taker }, counts, out)
    }

    /// The client makes a datagram, which it sends from this address.
    pub(crate) fn send(&mut self, out: &mut Datagram) -> (Sent, Address)
        ensures place { self.new ≡ record self.old {
          client = (emit_at
              (asking self.old.client self.old.recording)).client;
        } }
        ensures answer { result ≡ ((emit_at (asking self.old.client self.old.recording)).answer, self.old.address) }
        ensures piece { HandsOut (emit_at (asking self.old.client self.old.recording)).piece out.new.items }
    {
        let sent = emit(&mut self.client, &self.recording, out);
        (sent, self.address)
    }
}

/// Puts a client into a place.
pub(crate) fn put_place(clients: &mut Vec<Option<Place>>, c: usize, place: Place)
    requires { c < length clients.old.items }
    ensures { clients.new.items ≡ slice_set clients.old.items c (Some place) }
{
    clients[c] = Some(place);
}

/// A place for each client, with nobody in it. `Err` is want of memory.
pub(crate) fn no_places(alloc: Global) -> Result<Vec<Option<Place>>, NoMemory>
    ensures { IfOk result (λ made. made.items ≡ replicate places None) }
{
    let mut made = Vec::with_capacity(alloc, MOST_SLOTS as usize)?;
    for _ in 0..MOST_SLOTS {
        made.push(None)?;
    }
    Ok(made)
}
