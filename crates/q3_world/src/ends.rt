//! Both ends of every client, and what a line of a script does at them.

ghost use Rattle.std.specs.Prelude.{◌≡◌, ◌<◌, ◌≤◌, ◌+◌, ◌-◌, [], None, length, slice_get, slice_set, vec_capacity, IfOk, IfSome, IsSome, IsErrOf, OnErr, OnOk};
ghost use Rattle.q3_profile.specs.Profile.{IsProfile, IsCodec};
ghost use Rattle.q3_script.specs.Grammar.{IsReplayEvent};
ghost use Rattle.q3_server.specs.Server.{places, emit_at};
ghost use Rattle.q3_report.specs.Answers.{Given};
ghost use Rattle.q3_ends.specs.AtServer as at_server_spec;
ghost use Rattle.q3_ends.specs.ClientLine.{fresh_of};
ghost use Rattle.q3_ends.specs.ClientLine as lines_spec;
ghost use Rattle.q3_ends.specs.Recording.{HasFile};
ghost use Rattle.q3_world.specs.Ends.{recording_at};

use crate::made::{Direction, Made, keep};
use crate::places::{Place, no_places, put_place};
use crate::told::{StepError, tell};
use q3_bits::NoMemory;
use q3_chan::{DATAGRAM_ROOM, Datagram};
use q3_clstate::Log;
use q3_counts::Counts;
use q3_ends::client::{client_named, fresh_for, unjoined};
use q3_ends::recording::Recording;
use q3_ends::server::{server_line, server_takes};
use q3_io::{Address, Failed, Files, Sink};
use q3_profile::Profile;
use q3_report::{Answer, Front, HandedIn, TakeRefused};
use q3_script::Event;
use q3_script::laws::events_are_in_range;
use q3_server::{Heard, MOST_SLOTS, NoClient, Server};
use std::alloc::Global;
use std::marker::Model;

/// Both ends of every client.
#[derive(Drop)]
pub(crate) struct Ends {
    server: Server,
    /// A place for each of 16 clients, and in it the one that was added.
    clients: Vec<Option<Place>>,
}

impl Model for Ends {
    ghost use Rattle.std.specs.Prelude.{◌≡◌, length};
    ghost use Rattle.q3_server.specs.Server.{places};
    ghost use Rattle.q3_world.specs.Ends as spec;

    ghost Value = { spec.Ends };

    ghost view = { λ e. record { server = e.server; clients = e.clients.items } };

    ghost invariant = { λ e. length e.clients.items ≡ places };
}

impl Ends {
    ghost use Rattle.q3_world.specs.Ends.{place_at, new_ends, game_step, client_step, client_or_game_step, step_in, line_of};
    ghost use Rattle.q3_world.specs.Ends as spec;
    ghost use Rattle.q3_world.specs.Kept.{Kept, most_datagrams, deliver_at, kept_serve, kept_send};
    ghost use Rattle.q3_world.specs.Doing.{Tells, EndsDo};
    ghost use Rattle.q3_world.specs.Files.{AreNumbered, DoesFiles, without, ended, client_or_game_acts, place_acts, stop_acts, take_acts, deliver_acts, line_acts, ending_acts};
    ghost use Rattle.q3_world.specs.Outcome.{TakesMemory};
    ghost use Rattle.q3_ends.specs.Recording.{WritesFiles};

    /// A server by this profile, and no client. `Err` is want of memory.
    pub fn new(alloc: Global, profile: &Profile) -> Result<Ends, NoMemory>
        requires { IsProfile profile.now }
        ensures made { IfOk result (λ made. made ≡ new_ends profile.now) }
        ensures codec { OnOk result (IsCodec profile.now) }
    {
        Ok(Ends {
            server: Server::new(alloc, profile, MOST_SLOTS)?,
            clients: no_places(alloc)?,
        })
    }

    /// What a line does that hands something in, hands bytes to an end, or shows a client; and its answer is told. Both lists may
    /// hold anything before.
    /// - `NoMemory` comes at `client` and `record` alone, and changes nothing.
    /// - `FileFault` comes where a recording's file can't be made, or what it adds can't be written, with nothing told.
    /// - `WriteFault` comes where the lines can't be written.
    #[tactic(auto, unfolding(crate::specs::Ends::line_of, crate::specs::Files::line_acts, q3_ends::specs::AtServer::server_line))]
    pub fn line<F: Files, O: Sink>(
        &mut self,
        alloc: Global,
        profile: &Profile,
        event: &Event,
        numbers: &mut [usize; 16],
        log: &mut Log,
        heard: &mut Heard,
        counts: &mut Counts,
        files: &mut F,
        out: &mut O,
    ) -> Result<(), StepError>
        requires profile { IsProfile profile.now }
        requires event { IsReplayEvent event.now }
        requires line { IsSome (step_in (line_of profile.now self.old event.now)) }
        requires numbered { AreNumbered (F.told files.old) (F.given files.old) numbers.old self.old }
        ensures does { IfSome (step_in (line_of profile.now self.old event.now))
            (λ step. EndsDo self.old self.new counts.old counts.new (O.written out.old) (O.written out.new)
            (O.faults out.old) (O.faults out.new) step result) }
        ensures memory { IsErrOf result StepError.NoMemory → TakesMemory event.now }
        ensures files { DoesFiles (F.told files.old) (F.told files.new) (F.given files.old) (F.given files.new)
            (F.faults files.old) (F.faults files.new)
            (F.write_faults files.old) (F.write_faults files.new) (line_acts self.old event.now) result }
        ensures numbered { AreNumbered (F.told files.new) (F.given files.new) numbers.new self.new }
        ensures same { IsErrOf result StepError.NoMemory → numbers.new ≡ numbers.old }
    {
        match event {
            Event::Client {
                c,
                challenge,
                qport,
                dup,
                address,
            } => {
                let Ok(handed) = self.join(alloc, profile, *c, *challenge, *qport, *dup, *address)
                else {
                    return Err(StepError::NoMemory);
                };
                tell(&Answer::HandedIn(handed), counts, out)
            }
            Event::Port { c, port } => {
                let handed = self.set_port(*c, *port);
                tell(&Answer::HandedIn(handed), counts, out)
            }
            Event::Toclient { c, bytes } => {
                let front = Front::Toclient { c: *c };
                self.client_takes(front, *c, bytes.bytes(), numbers, log, counts, files, out)
            }
            Event::Toserver { c, bytes } => {
                self.hand_server(*c, bytes.bytes(), heard, counts, out)
            }
            _ => self.client_or_game_line(alloc, event, numbers, counts, files, out),
        }
    }

    /// A client joins, at both ends. The memory of its own end is taken first.
    fn join(
        &mut self,
        alloc: Global,
        profile: &Profile,
        c: u8,
        challenge: u32,
        qport: u16,
        dup: u8,
        address: Address,
    ) -> Result<HandedIn, NoMemory>
        requires profile { IsProfile profile.now }
        requires place { c < places }
        ensures ok { IfOk result (λ handed. spec.join profile.now self.old c challenge qport dup address
            ≡ record { ends = self.new; answer = Given handed }) }
        ensures err { OnErr result (self.new ≡ self.old) }
    {
        let place = Place::new(alloc, profile, challenge, qport, dup, address)?;
        Ok(self.join_with(c, challenge, qport, place))
    }

    /// A client that was made joins, at both ends.
    fn join_with(&mut self, c: u8, challenge: u32, qport: u16, place: Place) -> HandedIn
        requires place { c < places }
        ensures { spec.join_with self.old c challenge qport place ≡ record { ends = self.new; answer = Given result } }
    {
        if let Err(error) = self.server.add_client(c, challenge, qport, place.address) {
            return HandedIn::Client {
                c,
                outcome: Err(error),
            };
        }
        put_place(&mut self.clients, c as usize, place);
        HandedIn::Client { c, outcome: Ok(()) }
    }

    /// A client's later datagrams come from another port.
    fn set_port(&mut self, c: u8, port: u16) -> HandedIn
        requires { c < places }
        ensures { spec.set_port self.old c port ≡ record { ends = self.new; answer = Given result } }
    {
        let Some(place) = &mut self.clients[c as usize] else {
            return HandedIn::Port {
                c,
                outcome: Err(NoClient),
            };
        };
        place.address.port = port;
        HandedIn::Port { c, outcome: Ok(()) }
    }

    /// A line of the game, at the server.
    fn game_line<O: Sink>(
        &mut self,
        event: &Event,
        counts: &mut Counts,
        out: &mut O,
    ) -> Result<(), StepError>
        requires event { IsReplayEvent event.now }
        requires line { IsSome (at_server_spec.server_line self.old.server event.now) }
        ensures ends { self.new ≡ (game_step self.old (at_server_spec.server_line self.old.server event.now)).ends }
        ensures told { Tells counts.old counts.new (O.written out.old) (O.written out.new) (O.faults out.old)
            (O.faults out.new)
            (game_step self.old (at_server_spec.server_line self.old.server event.now)).answer result }
    {
        events_are_in_range();
        let handed = server_line(&mut self.server, event).unwrap();
        tell(&Answer::HandedIn(handed), counts, out)
    }

    /// A line of the client that it names, or of the game.
    fn client_or_game_line<F: Files, O: Sink>(
        &mut self,
        alloc: Global,
        event: &Event,
        numbers: &mut [usize; 16],
        counts: &mut Counts,
        files: &mut F,
        out: &mut O,
    ) -> Result<(), StepError>
        requires event { IsReplayEvent event.now }
        requires line { lines_spec.client_named event.now ≡ None
            → IsSome (at_server_spec.server_line self.old.server event.now) }
        requires numbered { AreNumbered (F.told files.old) (F.given files.old) numbers.old self.old }
        ensures does { EndsDo self.old self.new counts.old counts.new (O.written out.old) (O.written out.new)
            (O.faults out.old) (O.faults out.new)
            (client_or_game_step self.old event.now (lines_spec.client_named event.now)) result }
        ensures memory { IsErrOf result StepError.NoMemory → TakesMemory event.now }
        ensures files { DoesFiles (F.told files.old) (F.told files.new) (F.given files.old) (F.given files.new)
            (F.faults files.old) (F.faults files.new)
            (F.write_faults files.old) (F.write_faults files.new)
            (client_or_game_acts self.old event.now (lines_spec.client_named event.now)) result }
        ensures numbered { AreNumbered (F.told files.new) (F.given files.new) numbers.new self.new }
        ensures same { IsErrOf result StepError.NoMemory → numbers.new ≡ numbers.old }
    {
        let Some(c) = client_named(event) else {
            return self.game_line(event, counts, out);
        };
        let Ok(fresh) = fresh_for(alloc, event) else {
            return Err(StepError::NoMemory);
        };
        self.client_line(c, event, fresh, numbers, counts, files, out)
    }

    /// A line of a client's own, at its end, if it is there.
    fn client_line<F: Files, O: Sink>(
        &mut self,
        c: u8,
        event: &Event,
        fresh: Option<Recording>,
        numbers: &mut [usize; 16],
        counts: &mut Counts,
        files: &mut F,
        out: &mut O,
    ) -> Result<(), StepError>
        requires place { c < places }
        requires line { IsSome (lines_spec.client_named event.now) }
        requires fresh { fresh ≡ fresh_of event.now }
        requires numbered { AreNumbered (F.told files.old) (F.given files.old) numbers.old self.old }
        ensures does { EndsDo self.old self.new counts.old counts.new (O.written out.old) (O.written out.new)
            (O.faults out.old) (O.faults out.new) (client_step self.old c event.now) result }
        ensures memory { IsErrOf result StepError.NoMemory → ⊥ }
        ensures files { DoesFiles (F.told files.old) (F.told files.new) (F.given files.old) (F.given files.new)
            (F.faults files.old) (F.faults files.new)
            (F.write_faults files.old) (F.write_faults files.new)
            (place_acts (place_at self.old c) event.now) result }
        ensures numbered { AreNumbered (F.told files.new) (F.given files.new) numbers.new self.new }
    {
        let Some(place) = &mut self.clients[c as usize] else {
            return tell(&unjoined(event), counts, out);
        };
        let mut number = numbers[c as usize];
        let done = place.line(event, fresh, &mut number, counts, files, out);
        numbers[c as usize] = number;
        done
    }

    /// The recording of the client at a place has its end, if the client is there and one goes on.
    fn end_at<F: Files>(&mut self, c: u8, number: usize, files: &mut F) -> Result<(), Failed>
        requires place { c < places }
        requires file { HasFile (F.told files.old) (F.given files.old) number (recording_at (place_at self.old c)) }
        ensures ends { self.new ≡ record self.old {
          clients = slice_set self.old.clients c
              (without (place_at self.old c));
        } }
        ensures files { WritesFiles (F.told files.old) (F.told files.new) (F.given files.old) (F.given files.new)
            (F.faults files.old) (F.faults files.new)
            (F.write_faults files.old) (F.write_faults files.new) (stop_acts (place_at self.old c)) result }
    {
        let Some(place) = &mut self.clients[c as usize] else {
            return Ok(());
        };
        let _ = place.stop(number, files)?;
        Ok(())
    }

    /// Every recording that goes on has its end, by client. `Failed` comes where one can't be written.
    pub fn finish<F: Files>(&mut self, numbers: &[usize; 16], files: &mut F) -> Result<(), Failed>
        requires numbered { AreNumbered (F.told files.old) (F.given files.old) numbers.now self.old }
        ensures files { WritesFiles (F.told files.old) (F.told files.new) (F.given files.old) (F.given files.new)
            (F.faults files.old) (F.faults files.new)
            (F.write_faults files.old) (F.write_faults files.new) (ending_acts self.old) result }
        ensures ended { OnOk result (self.new ≡ ended self.old) }
        ensures numbered { AreNumbered (F.told files.new) (F.given files.new) numbers.now self.new }
    {
        self.stands();
        for c in 0..MOST_SLOTS {
            self.end_at(c, numbers[c as usize], files)?;
        }
        Ok(())
    }

    /// There is a place for each client.
    fn stands(&self)
        ensures { length self.now.clients ≡ places }
    {
        let _clients = &self.clients;
    }

    /// The client at a place takes bytes, if it is there, and records what it applied.
    fn client_takes<F: Files, O: Sink>(
        &mut self,
        front: Front,
        c: u8,
        bytes: &[u8],
        numbers: &[usize; 16],
        log: &mut Log,
        counts: &mut Counts,
        files: &mut F,
        out: &mut O,
    ) -> Result<(), StepError>
        requires place { c < places }
        requires numbered { AreNumbered (F.told files.old) (F.given files.old) numbers.now self.old }
        ensures does { EndsDo self.old self.new counts.old counts.new (O.written out.old) (O.written out.new)
            (O.faults out.old) (O.faults out.new)
            (spec.client_takes self.old c front bytes.now (place_at self.old c)) result }
        ensures memory { IsErrOf result StepError.NoMemory → ⊥ }
        ensures files { DoesFiles (F.told files.old) (F.told files.new) (F.given files.old) (F.given files.new)
            (F.faults files.old) (F.faults files.new)
            (F.write_faults files.old) (F.write_faults files.new) (take_acts (place_at self.old c) bytes.now) result }
        ensures numbered { AreNumbered (F.told files.new) (F.given files.new) numbers.now self.new }
    {
        let Some(place) = &mut self.clients[c as usize] else {
            let cause = TakeRefused::NoClient;
            return tell(&Answer::Untaken { front, cause }, counts, out);
        };
        place.take(
            front,
            c,
            bytes,
            log,
            numbers[c as usize],
            counts,
            files,
            out,
        )
    }

    /// The server takes bytes from the address of a client, if it is there.
    fn hand_server<O: Sink>(
        &mut self,
        c: u8,
        bytes: &[u8],
        heard: &mut Heard,
        counts: &mut Counts,
        out: &mut O,
    ) -> Result<(), StepError>
        requires { c < places }
        ensures ends { self.new ≡ (spec.hand_server self.old c bytes.now).ends }
        ensures told { Tells counts.old counts.new (O.written out.old) (O.written out.new) (O.faults out.old)
            (O.faults out.new)
            (spec.hand_server self.old c bytes.now).answer result }
    {
        let front = Front::Toserver { c };
        let Some(place) = &self.clients[c as usize] else {
            let cause = TakeRefused::NoClient;
            return tell(&Answer::Untaken { front, cause }, counts, out);
        };
        let from = place.address;
        self.server_takes(front, from, bytes, heard, counts, out)
    }

    /// The server takes bytes from an address.
    fn server_takes<O: Sink>(
        &mut self,
        front: Front,
        from: Address,
        bytes: &[u8],
        heard: &mut Heard,
        counts: &mut Counts,
        out: &mut O,
    ) -> Result<(), StepError>
        ensures ends { self.new ≡ (spec.server_takes self.old front from bytes.now).ends }
        ensures told { Tells counts.old counts.new (O.written out.old) (O.written out.new) (O.faults out.old)
            (O.faults out.new)
            (spec.server_takes self.old front from bytes.now).answer result }
    {
        tell(
            &server_takes(&mut self.server, front, from, bytes, heard),
            counts,
            out,
        )
    }

    /// The datagram of a number, if it was made, arrives: the end that it goes to takes it.
    pub fn deliver<F: Files, O: Sink>(
        &mut self,
        number: u32,
        datagrams: &[Made],
        numbers: &[usize; 16],
        log: &mut Log,
        heard: &mut Heard,
        counts: &mut Counts,
        files: &mut F,
        out: &mut O,
    ) -> Result<(), StepError>
        requires number { 1 ≤ number }
        requires numbered { AreNumbered (F.told files.old) (F.given files.old) numbers.now self.old }
        ensures does { EndsDo self.old self.new counts.old counts.new (O.written out.old) (O.written out.new)
            (O.faults out.old) (O.faults out.new)
            (deliver_at self.old number (slice_get datagrams.now (number - 1))) result }
        ensures memory { IsErrOf result StepError.NoMemory → ⊥ }
        ensures files { DoesFiles (F.told files.old) (F.told files.new) (F.given files.old) (F.given files.new)
            (F.faults files.old) (F.faults files.new)
            (F.write_faults files.old) (F.write_faults files.new)
            (deliver_acts self.old (slice_get datagrams.now (number - 1))) result }
        ensures numbered { AreNumbered (F.told files.new) (F.given files.new) numbers.now self.new }
    {
        let front = Front::Deliver { datagram: number };
        let Some(sent) = datagrams.get(number as usize - 1) else {
            let cause = TakeRefused::Unknown;
            return tell(&Answer::Untaken { front, cause }, counts, out);
        };
        match sent.direction {
            Direction::ToServer { from } => {
                self.server_takes(front, from, &sent.bytes, heard, counts, out)
            }
            Direction::ToClient => {
                self.client_takes(
                    front,
                    sent.client,
                    &sent.bytes,
                    numbers,
                    log,
                    counts,
                    files,
                    out,
                )
            }
        }
    }

    /// The server makes a datagram for a client, which is kept after the others under the next number, if it is handed out.
    pub fn serve<O: Sink>(
        &mut self,
        c: u8,
        datagrams: &mut Vec<Made>,
        bytes: Vec<u8>,
        counts: &mut Counts,
        out: &mut O,
    ) -> Result<(), StepError>
        requires place { c < places }
        requires few { length datagrams.old.items < most_datagrams }
        requires room { length datagrams.old.items + 1 ≤ vec_capacity datagrams.old }
        requires bytes { (bytes.items ≡ []) × (DATAGRAM_ROOM ≤ vec_capacity bytes) }
        ensures kept { (kept : Kept) → kept.ends ≡ self.old → kept.datagrams ≡ datagrams.old.items
            → (kept_serve kept c (emit_at kept.ends.server c)).kept
            ≡ record kept { ends = self.new; datagrams = datagrams.new.items } }
        ensures told { (kept : Kept) → kept.ends ≡ self.old → kept.datagrams ≡ datagrams.old.items
            → Tells counts.old counts.new (O.written out.old) (O.written out.new) (O.faults out.old)
            (O.faults out.new)
            (kept_serve kept c (emit_at kept.ends.server c)).answer result }
    {
        let datagram = datagrams.len() as u32 + 1;
        let mut made = Datagram::new();
        let emitted = self.server.emit(c, &mut made);
        keep(datagrams, c, Direction::ToClient, bytes, &made);
        let answer = Answer::Serve {
            c,
            emitted,
            datagram,
        };
        tell(&answer, counts, out)
    }

    /// A client makes a datagram, which is kept likewise.
    pub fn send<O: Sink>(
        &mut self,
        c: u8,
        datagrams: &mut Vec<Made>,
        bytes: Vec<u8>,
        counts: &mut Counts,
        out: &mut O,
    ) -> Result<(), StepError>
        requires place { c < places }
        requires few { length datagrams.old.items < most_datagrams }
        requires room { length datagrams.old.items + 1 ≤ vec_capacity datagrams.old }
        requires bytes { (bytes.items ≡ []) × (DATAGRAM_ROOM ≤ vec_capacity bytes) }
        ensures kept { (kept : Kept) → kept.ends ≡ self.old → kept.datagrams ≡ datagrams.old.items
            → (kept_send kept c (place_at kept.ends c)).kept
            ≡ record kept { ends = self.new; datagrams = datagrams.new.items } }
        ensures told { (kept : Kept) → kept.ends ≡ self.old → kept.datagrams ≡ datagrams.old.items
            → Tells counts.old counts.new (O.written out.old) (O.written out.new) (O.faults out.old)
            (O.faults out.new)
            (kept_send kept c (place_at kept.ends c)).answer result }
    {
        let datagram = datagrams.len() as u32 + 1;
        let Some(place) = &mut self.clients[c as usize] else {
            let sent = Err(NoClient);
            return tell(&Answer::Send { c, sent, datagram }, counts, out);
        };
        let mut made = Datagram::new();
        let (sent, from) = place.send(&mut made);
        keep(datagrams, c, Direction::ToServer { from }, bytes, &made);
        let answer = Answer::Send {
            c,
            sent: Ok(sent),
            datagram,
        };
        tell(&answer, counts, out)
    }
}
