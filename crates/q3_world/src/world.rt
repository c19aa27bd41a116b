//! Both ends over a schedule of events: the world of a replay.

ghost use Rattle.std.specs.Prelude.{◌≡◌, ◌+◌, ◌-◌, ◌<◌, ◌≤◌, ℕ, List, [], ◌∷◌, Option, drop, length, slice_get, option_map, IfOk, IfSome, IsSome, OnOk, IsErrOf};
ghost use Rattle.q3_profile.specs.declared.profile.Profile.{Profile as ProfileValue};
ghost use Rattle.q3_profile.specs.Profile.{IsProfile, IsCodec};
ghost use Rattle.q3_script.specs.Grammar.{IsReplayEvent};
ghost use Rattle.q3_io.specs.Written.{NothingWaits};
ghost use Rattle.q3_server.specs.Server.{places, emit_at};
ghost use Rattle.q3_report.specs.AnswerLines.{lines_of};
ghost use Rattle.q3_report.specs.Answers.{Bytes};
ghost use Rattle.q3_counts.specs.Counts.{no_counts, counted};
ghost use Rattle.q3_world.specs.Forgetting.{TellsLast, AreSilentOf, AreWanted, AreWantedBefore, LetsGo};
ghost use Rattle.q3_script.specs.declared.event.Event.{Event as EventValue};
ghost use Rattle.q3_world.specs.Ends.{place_at, step_in, line_of};
ghost use Rattle.q3_world.specs.Kept.{most_datagrams, opening_kept, deliver_at, kept_bytes, kept_ends, kept_serve, kept_send, kept_step};
ghost use Rattle.q3_world.specs.World.{Whole, opening};
ghost use Rattle.q3_world.specs.World as spec;
ghost use Rattle.q3_world.specs.StandsFor.{StandsFor};
ghost use Rattle.q3_world.specs.Outcome.{TakesMemory, Prints, HasStepCause};

use crate::ends::Ends;
use crate::later::{Later, named};
use crate::laws;
use crate::made::{Made, forget_at, room_for_one};
use crate::told::{StepError, tell};
use q3_bits::NoMemory;
use q3_clstate::Log;
use q3_counts::Counts;
use q3_io::{Failed, Files, Sink};
use q3_profile::Profile;
use q3_report::Answer;
use q3_script::Event;
use q3_server::Heard;
use q3_text::Commands;
use std::alloc::Global;
use std::marker::Model;

/// A replay of a schedule.
#[derive(Drop)]
pub struct World {
    /// Where memory for clients, datagrams and recordings comes from.
    alloc: Global,
    /// A copy of the one by which all ends work.
    profile: Profile,
    /// The server, and each client that was added.
    ends: Ends,
    /// Every datagram that was made, that of the number 1 first. Those that were forgotten have no bytes any more.
    datagrams: Vec<Made>,
    /// Of the lines that were printed.
    counts: Counts,
    /// What a client executed last, in a box.
    log: Box<Log>,
    /// What the server executed and ran last, in a box.
    heard: Box<Heard>,
    /// For each client's place the number of the file that it records into.
    numbers: [usize; 16],
}

impl Model for World {
    ghost use Rattle.q3_profile.specs.Profile.{IsProfile};
    ghost use Rattle.q3_world.specs.Counting.{Counting};

    ghost Value = { Counting };

    ghost view = { λ w. record {
      kept = record { profile = w.profile; ends = w.ends; datagrams = w.datagrams.items };
      counts = w.counts;
      numbers = w.numbers;
    } };

    ghost invariant = { λ w. IsProfile w.profile };
}

impl World {
    ghost use Rattle.q3_world.specs.Doing.{Does, LeavesRecordings};
    ghost use Rattle.q3_world.specs.Files.{AreNumbered, DoesFiles, ended, acts_of, line_acts, deliver_acts, ending_acts};
    ghost use Rattle.q3_ends.specs.Recording.{WritesFiles};
    ghost use Rattle.q3_io.specs.Told.{Told};

    /// A world by this profile, with no client, nothing sent, and the time 0. `Err` is want of memory.
    pub fn new(alloc: Global, profile: &Profile) -> Result<World, NoMemory>
        requires { IsProfile profile.now }
        ensures stands { IfOk result (λ world. StandsFor profile.now world.kept (opening profile.now)) }
        ensures counts { IfOk result (λ world. world.counts ≡ no_counts) }
        ensures numbered { IfOk result (λ world. (told : Option Told) (given : ℕ)
            → AreNumbered told given world.numbers world.kept.ends) }
    {
        laws::layers();
        let world = World::empty(alloc, profile)?;
        Ok(world)
    }

    /// What a world begins as.
    fn empty(alloc: Global, profile: &Profile) -> Result<World, NoMemory>
        requires { IsProfile profile.now }
        ensures made { IfOk result (λ world. (world.kept ≡ opening_kept profile.now) × (world.counts ≡ no_counts)) }
        ensures codec { OnOk result (IsCodec profile.now) }
    {
        let (log, heard) = room_to_hear(alloc)?;
        let copy = profile.copy()?;
        let ends = Ends::new(alloc, profile)?;
        Ok(World {
            alloc,
            profile: copy,
            ends,
            datagrams: Vec::new(alloc),
            counts: Counts::none(),
            log,
            heard,
            numbers: [0; 16],
        })
    }

    /// Does one event, writes what a client records to its file, and prints the event's lines.
    /// - `NoMemory` comes at `client`, `serve`, `send` and `record` alone, and the world is then as it was; nothing is printed.
    /// - `FileFault` comes where the file of a recording can't be made or written, before a line is printed.
    /// - `WriteFault` comes where the sink failed.
    ///
    /// After the last two the world has no promised state, and no promised counts.
    pub fn step<F: Files, O: Sink>(
        &mut self,
        event: &Event,
        files: &mut F,
        out: &mut O,
    ) -> Result<(), StepError>
        requires event { IsReplayEvent event.now }
        requires few { length self.old.kept.datagrams < most_datagrams }
        requires numbered { AreNumbered (F.told files.old) (F.given files.old) self.old.numbers self.old.kept.ends }
        ensures stands { OnOk result ((profile : ProfileValue) (whole : Whole) → StandsFor profile self.old.kept whole
            → StandsFor profile self.new.kept (spec.step profile whole event.now).whole) }
        ensures kept { OnOk result (self.new.kept ≡ (kept_step self.old.kept event.now).kept) }
        ensures counts { OnOk result (self.new.counts ≡ counted self.old.counts
            (kept_step self.old.kept event.now).answer) }
        ensures counts_whole { OnOk result ((profile : ProfileValue) (whole : Whole)
            → StandsFor profile self.old.kept whole
            → self.new.counts ≡ counted self.old.counts (spec.step profile whole event.now).answer) }
        ensures printed { Prints (O.written out.old) (O.written out.new)
            (lines_of (kept_step self.old.kept event.now).answer) result }
        ensures lines { (profile : ProfileValue) (whole : Whole) → StandsFor profile self.old.kept whole
            → Prints (O.written out.old) (O.written out.new)
            (lines_of (spec.step profile whole event.now).answer) result }
        ensures flushed { OnOk result (NothingWaits (O.written out.new)) }
        ensures cause { HasStepCause (O.faults out.old) (O.faults out.new) result }
        ensures no_memory { IsErrOf result StepError.NoMemory
            → TakesMemory event.now × (self.new ≡ self.old) × (O.written out.new ≡ O.written out.old) }
        ensures few { length self.new.kept.datagrams ≤ length self.old.kept.datagrams + 1 }
        ensures files { DoesFiles (F.told files.old) (F.told files.new) (F.given files.old) (F.given files.new)
            (F.faults files.old) (F.faults files.new)
            (F.write_faults files.old) (F.write_faults files.new) (acts_of self.old.kept event.now) result }
        ensures numbered { AreNumbered (F.told files.new) (F.given files.new) self.new.numbers self.new.kept.ends }
    {
        // What the clauses on the whole world cite.
        laws::step_follows();
        self.act(event, files, out)
    }

    /// Does one event.
    #[tactic(auto, unfolding(crate::specs::Kept::kept_step, crate::specs::Ends::line_of, crate::specs::Files::acts_of, crate::specs::Files::line_acts, q3_ends::specs::AtServer::server_line))]
    fn act<F: Files, O: Sink>(
        &mut self,
        event: &Event,
        files: &mut F,
        out: &mut O,
    ) -> Result<(), StepError>
        requires event { IsReplayEvent event.now }
        requires few { length self.old.kept.datagrams < most_datagrams }
        requires numbered { AreNumbered (F.told files.old) (F.given files.old) self.old.numbers self.old.kept.ends }
        ensures does { Does self.old self.new (O.written out.old) (O.written out.new) (O.faults out.old)
            (O.faults out.new) (kept_step self.old.kept event.now) result }
        ensures memory { IsErrOf result StepError.NoMemory → TakesMemory event.now }
        ensures files { DoesFiles (F.told files.old) (F.told files.new) (F.given files.old) (F.given files.new)
            (F.faults files.old) (F.faults files.new)
            (F.write_faults files.old) (F.write_faults files.new) (acts_of self.old.kept event.now) result }
        ensures numbered { AreNumbered (F.told files.new) (F.given files.new) self.new.numbers self.new.kept.ends }
    {
        match event {
            Event::Serve { c } => self.serve(*c, out),
            Event::Send { c } => self.send(*c, out),
            Event::Deliver { datagram } => self.deliver(*datagram, files, out),
            Event::Bytes { datagram } => self.tell_bytes(*datagram, out),
            _ => self.hand_in(event, files, out),
        }
    }

    /// What a line does that hands something in, hands bytes to an end, or shows a client.
    fn hand_in<F: Files, O: Sink>(
        &mut self,
        event: &Event,
        files: &mut F,
        out: &mut O,
    ) -> Result<(), StepError>
        requires event { IsReplayEvent event.now }
        requires line { IsSome (step_in (line_of self.old.kept.profile self.old.kept.ends event.now)) }
        requires numbered { AreNumbered (F.told files.old) (F.given files.old) self.old.numbers self.old.kept.ends }
        ensures does { IfSome (step_in (line_of self.old.kept.profile self.old.kept.ends event.now))
            (λ step. Does self.old self.new (O.written out.old) (O.written out.new) (O.faults out.old)
            (O.faults out.new) (kept_ends self.old.kept step) result) }
        ensures memory { IsErrOf result StepError.NoMemory → TakesMemory event.now }
        ensures files { DoesFiles (F.told files.old) (F.told files.new) (F.given files.old) (F.given files.new)
            (F.faults files.old) (F.faults files.new)
            (F.write_faults files.old) (F.write_faults files.new) (line_acts self.old.kept.ends event.now) result }
        ensures numbered { AreNumbered (F.told files.new) (F.given files.new) self.new.numbers self.new.kept.ends }
    {
        self.ends.line(
            self.alloc,
            &self.profile,
            event,
            &mut self.numbers,
            &mut self.log,
            &mut self.heard,
            &mut self.counts,
            files,
            out,
        )
    }

    /// The server makes a datagram for a client, whose memory is taken first.
    fn serve<O: Sink>(&mut self, c: u8, out: &mut O) -> Result<(), StepError>
        requires place { c < places }
        requires few { length self.old.kept.datagrams < most_datagrams }
        ensures does { Does self.old self.new (O.written out.old) (O.written out.new) (O.faults out.old)
            (O.faults out.new)
            (kept_serve self.old.kept c (emit_at self.old.kept.ends.server c)) result }
        ensures leaves { LeavesRecordings self.old self.new result }
    {
        let Ok(bytes) = room_for_one(self.alloc, &mut self.datagrams) else {
            return Err(StepError::NoMemory);
        };
        self.ends
            .serve(c, &mut self.datagrams, bytes, &mut self.counts, out)
    }

    /// A client makes a datagram, whose memory is taken first.
    fn send<O: Sink>(&mut self, c: u8, out: &mut O) -> Result<(), StepError>
        requires place { c < places }
        requires few { length self.old.kept.datagrams < most_datagrams }
        ensures does { Does self.old self.new (O.written out.old) (O.written out.new) (O.faults out.old)
            (O.faults out.new)
            (kept_send self.old.kept c (place_at self.old.kept.ends c)) result }
        ensures leaves { LeavesRecordings self.old self.new result }
    {
        let Ok(bytes) = room_for_one(self.alloc, &mut self.datagrams) else {
            return Err(StepError::NoMemory);
        };
        self.ends
            .send(c, &mut self.datagrams, bytes, &mut self.counts, out)
    }

    /// A datagram arrives: the end that it goes to takes the stored bytes.
    fn deliver<F: Files, O: Sink>(
        &mut self,
        number: u32,
        files: &mut F,
        out: &mut O,
    ) -> Result<(), StepError>
        requires number { 1 ≤ number }
        requires numbered { AreNumbered (F.told files.old) (F.given files.old) self.old.numbers self.old.kept.ends }
        ensures does { Does self.old self.new (O.written out.old) (O.written out.new) (O.faults out.old)
            (O.faults out.new)
            (kept_ends self.old.kept (deliver_at self.old.kept.ends number
            (slice_get self.old.kept.datagrams (number - 1)))) result }
        ensures memory { IsErrOf result StepError.NoMemory → ⊥ }
        ensures files { DoesFiles (F.told files.old) (F.told files.new) (F.given files.old) (F.given files.new)
            (F.faults files.old) (F.faults files.new)
            (F.write_faults files.old) (F.write_faults files.new)
            (deliver_acts self.old.kept.ends (slice_get self.old.kept.datagrams (number - 1))) result }
        ensures numbered { AreNumbered (F.told files.new) (F.given files.new) self.new.numbers self.new.kept.ends }
    {
        self.ends.deliver(
            number,
            &self.datagrams,
            &self.numbers,
            &mut self.log,
            &mut self.heard,
            &mut self.counts,
            files,
            out,
        )
    }

    /// The bytes of the datagram of a number are printed, if it was made.
    fn tell_bytes<O: Sink>(&mut self, number: u32, out: &mut O) -> Result<(), StepError>
        requires { 1 ≤ number }
        ensures does { Does self.old self.new (O.written out.old) (O.written out.new) (O.faults out.old)
            (O.faults out.new)
            (record { kept = self.old.kept; answer = Bytes number (kept_bytes self.old.kept.datagrams number) })
            result }
        ensures memory { IsErrOf result StepError.NoMemory → ⊥ }
        ensures leaves { LeavesRecordings self.old self.new result }
    {
        let bytes = bytes_of(&self.datagrams, number);
        let answer = Answer::Bytes {
            datagram: number,
            bytes,
        };
        tell(&answer, &mut self.counts, out)
    }

    /// Each recording that goes on has its end, by client, and nothing else changes; it is called after the last event. `Failed`
    /// comes where one can't be written.
    pub fn finish<F: Files>(&mut self, files: &mut F) -> Result<(), Failed>
        requires numbered { AreNumbered (F.told files.old) (F.given files.old) self.old.numbers self.old.kept.ends }
        ensures files { WritesFiles (F.told files.old) (F.told files.new) (F.given files.old) (F.given files.new)
            (F.faults files.old) (F.faults files.new)
            (F.write_faults files.old) (F.write_faults files.new) (ending_acts self.old.kept.ends) result }
        ensures ended { OnOk result
            (self.new ≡ record self.old { kept = record self.old.kept { ends = ended self.old.kept.ends } }) }
        ensures numbered { AreNumbered (F.told files.new) (F.given files.new) self.new.numbers self.new.kept.ends }
    {
        self.ends.finish(&self.numbers, files)
    }

    /// After a line of a script, with which so many of its lines are done: the datagram that it named, and the newest one, are let go, each if
    /// none of the others names it. Those do then as they would have done.
    pub fn forget_unnamed(&mut self, later: &Later, event: &Event, done: usize)
        ensures lets_go { LetsGo later.now done self.old self.new }
        ensures wanted { (all : List EventValue) → TellsLast later.now all
            → length self.old.kept.datagrams ≤ length all
            → AreWantedBefore (event.now ∷ drop done all) self.old.kept.datagrams
            → AreWanted (drop done all) self.new.kept.datagrams }
    {
        self.forget(later, named(event), done);
        let newest = self.datagrams.len().checked_sub(1);
        self.forget(later, newest, done);
    }

    /// The bytes of the datagram at a place, if one is told, are let go, if no line after so many names it.
    fn forget(&mut self, later: &Later, at: Option<usize>, done: usize)
        ensures lets_go { LetsGo later.now done self.old self.new }
        ensures gone { (all : List EventValue) → TellsLast later.now all
            → IfSome at (λ at. at < length all → AreSilentOf (drop done all) at
            → IfSome (slice_get self.new.kept.datagrams at) (λ sent. sent.bytes ≡ [])) }
    {
        let Some(at) = at else {
            return;
        };
        if later.is_silent(at, done) {
            forget_at(&mut self.datagrams, at);
        }
    }

    /// What was counted of the lines of all events so far.
    pub fn counts(&self) -> Counts
        ensures { result ≡ self.now.counts }
    {
        self.counts
    }
}

/// The bytes of the datagram of a number, if it was made.
fn bytes_of(datagrams: &[Made], number: u32) -> Option<&[u8]>
    requires { 1 ≤ number }
    ensures { option_map (λ bytes. bytes.now) result ≡ kept_bytes datagrams.now number }
{
    let sent = datagrams.get(number as usize - 1)?;
    Some(&sent.bytes)
}

/// Room for what a client and the server execute. `Err` is want of memory.
fn room_to_hear(alloc: Global) -> Result<(Box<Log>, Box<Heard>), NoMemory> {
    let commands = Commands::new(alloc)?;
    let log = Box::new(alloc, Log { commands })?;
    let heard = Heard::new(alloc)?;
    let heard = Box::new(alloc, heard)?;
    Ok((log, heard))
}
