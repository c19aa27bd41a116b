//! A client at its end of a wire.

ghost use Rattle.std.specs.Prelude.{◌≡◌, ◌≤◌, IfOk, IsSome};
ghost use Rattle.q3_profile.specs.Profile.{IsProfile};
ghost use Rattle.q3_client.specs.Client.{new_client};
ghost use Rattle.q3_ends.specs.ClientLine as lines_spec;
ghost use Rattle.q3_ends.specs.Recording.{HasFile};
ghost use Rattle.q3_node.specs.Running.{effects, DoesLine, WireCause, WriteCause, FileCause};
ghost use Rattle.q3_node.specs.AtClient.{client_rules, client_of, new_end, own_done};
ghost use Rattle.q3_node.specs.AtClient as spec;

use crate::end::{End, hand_over, tell, tell_line};
use crate::error::NodeError;
use q3_bits::NoMemory;
use q3_chan::Datagram;
use q3_client::Client;
use q3_clstate::Log;
use q3_ends::client::{client_line, client_named, fresh_for, line_answer};
use q3_ends::recording::{self, Recording};
use q3_io::{Address, Failed, Files, Sink, Wire};
use q3_profile::Profile;
use q3_report::{Answer, Front, HandedIn, TakeRefused, Taker};
use q3_script::Event;
use q3_text::Commands;
use std::alloc::Global;
use std::marker::Model;

/// A client at its end of a wire.
#[derive(Drop)]
pub(crate) struct ClientEnd {
    /// Its number in the script.
    c: u8,
    client: Client,
    /// The address of its server.
    server: Address,
    /// The recording that goes on, if one does.
    recording: Option<Recording>,
    /// What it executed last.
    log: Box<Log>,
}

impl Model for ClientEnd {
    ghost use Rattle.q3_node.specs.AtClient.{ClientEnd as EndValue};

    ghost Value = { EndValue };

    ghost view = { λ e. record { c = e.c; client = e.client; server = e.server; recording = e.recording } };
}

/// Whether two addresses are one.
fn is_address(one: Address, other: Address) -> bool
    ensures { result ≡ spec.is_address one other }
{
    one.host == other.host && one.port == other.port
}

impl ClientEnd {
    ghost use Rattle.std.specs.Prelude.{ℕ, true, Option, Some, None, OnOk};
    ghost use Rattle.q3_io.specs.Told.{Told};
    ghost use Rattle.q3_io.specs.Traffic.{Traffic};
    ghost use Rattle.q3_io.specs.Written.{Written, NothingWaits};
    ghost use Rattle.q3_script.specs.Grammar.{IsOneClient};

    /// A client that has taken nothing, of the server at this address. Each message repeats the moves of `dup` messages before
    /// it. `Err` is want of memory.
    pub(crate) fn new(
        alloc: Global,
        profile: &Profile,
        c: u8,
        challenge: u32,
        qport: u16,
        dup: u8,
        server: Address,
    ) -> Result<ClientEnd, NoMemory>
        requires { IsProfile profile.now }
        ensures { IfOk result (λ made. made ≡ new_end c (new_client profile.now challenge qport dup) server) }
    {
        let client = Client::new(alloc, profile, challenge, qport, dup)?;
        let commands = Commands::new(alloc)?;
        let log = Box::new(alloc, Log { commands })?;
        Ok(ClientEnd {
            c,
            client,
            server,
            recording: None,
            log,
        })
    }

    /// The client of a script, which its first line joins. `Err` is want of memory.
    pub(crate) fn of_script(
        alloc: Global,
        profile: &Profile,
        events: &[Event],
        server: Address,
    ) -> Result<ClientEnd, NoMemory>
        requires profile { IsProfile profile.now }
        requires client { IsOneClient events.now }
        ensures made { IfOk result (λ made. client_of profile.now server events.now ≡ Some made) }
        ensures none { IfOk result (λ made. made.recording ≡ None) }
    {
        let [
            Event::Client {
                c,
                challenge,
                qport,
                dup,
                ..
            },
            ..
        ] = events
        else {
            unreachable!()
        };
        ClientEnd::new(alloc, profile, *c, *challenge, *qport, *dup, server)
    }

    /// Makes a datagram, and sends it to the server.
    fn send<W: Wire, O: Sink>(
        &mut self,
        c: u8,
        number: u32,
        wire: &mut W,
        out: &mut O,
    ) -> Result<bool, NodeError>
        requires bound { W.bound wire.old ≡ true }
        ensures bound { W.bound wire.new ≡ true }
        ensures recording { self.new.recording ≡ self.old.recording }
        ensures does { (told : Option Told) → DoesLine (spec.send self.old c number) self.new
            (effects (O.written out.old) (W.told wire.old) told)
            (effects (O.written out.new) (W.told wire.new) told) result }
        ensures flushed { OnOk result (NothingWaits (O.written out.new)) }
        ensures wire_cause { WireCause (W.faults wire.old) (W.faults wire.new) result }
        ensures write_cause { WriteCause (O.faults out.old) (O.faults out.new) result }
        ensures file_cause { (faults : ℕ) → FileCause faults faults result }
    {
        let mut made = Datagram::new();
        let sent = recording::emit(&mut self.client, &self.recording, &mut made);
        let answer = Answer::Send {
            c,
            sent: Ok(sent),
            datagram: number,
        };
        hand_over(Some(self.server), &made, &answer, wire, out)
    }

    /// Does a line of the client's own.
    fn own_line<F: Files, O: Sink>(
        &mut self,
        alloc: Global,
        event: &Event,
        file: &mut usize,
        files: &mut F,
        out: &mut O,
    ) -> Result<bool, NodeError>
        requires line { IsSome (lines_spec.client_named event.now) }
        requires file { HasFile (F.told files.old) (F.given files.old) file.old self.old.recording }
        ensures does { (wire : Option Traffic)
            → DoesLine (own_done self.old event.now
            (lines_spec.client_line self.old.client self.old.recording event.now)) self.new
            (effects (O.written out.old) wire (F.told files.old))
            (effects (O.written out.new) wire (F.told files.new)) result }
        ensures file { OnOk result (HasFile (F.told files.new) (F.given files.new) file.new self.new.recording) }
        ensures flushed { OnOk result (NothingWaits (O.written out.new)) }
        ensures wire_cause { (faults : ℕ) → WireCause faults faults result }
        ensures write_cause { WriteCause (O.faults out.old) (O.faults out.new) result }
        ensures file_cause { FileCause (F.write_faults files.old) (F.write_faults files.new) result }
        ensures reads { F.faults files.new ≡ F.faults files.old }
        ensures numbers { F.given files.old ≤ F.given files.new }
    {
        let fresh = fresh_for(alloc, event)?;
        let Ok(answer) = client_line(
            &mut self.client,
            &mut self.recording,
            event,
            fresh,
            file,
            files,
        ) else {
            return Err(NodeError::FileFault);
        };
        tell_line(&line_answer(&self.client, answer), out)
    }

    /// Ends the recording, if one goes on, with the node's own end.
    fn finish<F: Files>(&mut self, file: usize, files: &mut F) -> Result<bool, NodeError>
        requires file { HasFile (F.told files.old) (F.given files.old) file self.old.recording }
        ensures does { (written : Option Written) (wire : Option Traffic) → DoesLine (spec.finish self.old) self.new
            (effects written wire (F.told files.old)) (effects written wire (F.told files.new)) result }
        ensures none { self.new.recording ≡ None }
        ensures wire_cause { (faults : ℕ) → WireCause faults faults result }
        ensures write_cause { (faults : ℕ) → WriteCause faults faults result }
        ensures file_cause { FileCause (F.write_faults files.old) (F.write_faults files.new) result }
        ensures reads { F.faults files.new ≡ F.faults files.old }
        ensures numbers { F.given files.old ≤ F.given files.new }
    {
        match recording::stop(&mut self.recording, file, files) {
            Ok(_) => Ok(false),
            Err(Failed) => Err(NodeError::FileFault),
        }
    }
}

impl End for ClientEnd {
    ghost rules = { client_rules };

    ghost records = { λ end. end.recording };

    fn line<F: Files, W: Wire, O: Sink>(
        &mut self,
        alloc: Global,
        event: &Event,
        number: u32,
        file: &mut usize,
        files: &mut F,
        wire: &mut W,
        out: &mut O,
    ) -> Result<bool, NodeError> {
        match event {
            Event::Send { c } => self.send(*c, number, wire, out),
            Event::End { .. } => self.finish(*file, files),
            Event::Client { c, .. } => {
                let outcome = Ok(());
                tell_line(&Answer::HandedIn(HandedIn::Client { c: *c, outcome }), out)
            }
            _ => {
                if client_named(event).is_none() {
                    return Ok(false);
                }
                self.own_line(alloc, event, file, files, out)
            }
        }
    }

    fn arrive<F: Files, O: Sink>(
        &mut self,
        from: Address,
        bytes: &[u8],
        file: usize,
        files: &mut F,
        out: &mut O,
    ) -> Result<(), NodeError> {
        let front = Front::Arrive;
        if !is_address(from, self.server) {
            let cause = TakeRefused::Stranger { c: self.c };
            return tell(&Answer::Untaken { front, cause }, out);
        }
        let Ok((took, ended)) = recording::take(
            &mut self.client,
            &mut self.recording,
            bytes,
            &mut self.log,
            file,
            files,
        ) else {
            return Err(NodeError::FileFault);
        };
        let taker = Taker::Client {
            c: self.c,
            took,
            client: &self.client,
            log: &self.log,
            ended,
        };
        tell(&Answer::Took { front, taker }, out)
    }
}
