//! Seeks in a demo by its index.

ghost use Rattle.std.specs.Prelude.{◌≡◌, ◌≢◌, ◌+◌, ◌*◌, ◌-◌, ◌/◌, ◌<◌, ◌≤◌, IsTrue, length, Some, Ok, Err, IfOk, IfErr, IfSome, OnOk};
ghost use Rattle.q3_io.specs.Told.{Told, contents_at};
ghost use Rattle.q3_savestate.specs.Applied.{saved_in};
ghost use Rattle.q3_demo.specs.Playing.{Played, Stepped, records_of, step, play_first};
ghost use Rattle.q3_demo.specs.Running.{OnlyAsks, AsksOf, asked_of};
ghost use Rattle.q3_bits.specs.ResultBind.{fault_as};
ghost use Rattle.q3_index.specs.Text.{spacing};
ghost use Rattle.q3_index.specs.Seeking.{restored, start_at, seek_at, bytes_between};
ghost use Rattle.q3_index.specs.Seeking as spec;
ghost use Rattle.q3_index.specs.Running.{Seeks, SeekCause, RefusesDemo, AsksOfTwo, IsMade, PlaysSo};
ghost use Rattle.q3_index.specs.Steps.{Answers, IsPlaced, saved_at, played_by, play_one};
ghost use Rattle.q3_index.specs.Steps as steps_spec;

use crate::error::SeekError;
use crate::laws;
use q3_clstate::ClState;
use q3_demo::laws::refused_for_its_bytes;
use q3_demo::{DemoError, Player, read_whole};
use q3_io::Files;
use q3_profile::Profile;
use q3_savestate::{StateError, read_state};
use std::alloc::Global;
use std::marker::Model;

/// How many records lie between two checkpoints.
pub const SPACING: u32 = 256;

/// What an index says of a checkpoint.
#[derive(Clone, Copy, Debug, PartialEq, Eq)]
pub struct Checkpoint {
    /// The place in the demo of the next record.
    pub place: u64,
    /// The place in the index of its state.
    pub state: u64,
    /// How many bytes its state has.
    pub length: u32,
}

/// An index that was opened: the numbers of its file and of the demo's, how many records it counts, and its checkpoints.
#[derive(Drop)]
pub struct Index {
    pub(crate) demo: usize,
    pub(crate) index: usize,
    pub(crate) records: u32,
    pub(crate) checkpoints: Vec<Checkpoint>,
}

impl Model for Index {
    ghost use Rattle.q3_index.specs.Running.{IndexState};
    ghost use Rattle.q3_index.specs.Steps.{ArePlaced};

    ghost Value = { IndexState };

    ghost view = { λ i. record {
      demo = i.demo;
      index = i.index;
      records = i.records;
      checkpoints = i.checkpoints.items;
    } };

    ghost invariant = { λ i. ArePlaced i.checkpoints.items };
}

impl Index {
    /// How many records the index counts.
    pub fn records(&self) -> u32
        ensures { result ≡ self.now.records }
    {
        self.records
    }

    /// What so many records of the demo leave: the state of the greatest checkpoint at or below that is restored, or the beginning, and the
    /// records from there on are played. `Err` is `PastEnd` exactly where the index counts fewer, which is decided before anything is read;
    /// else `NotIndex` exactly where the state that is read is none; else `Demo` exactly where a record that is played is refused, or the demo
    /// ends before so many; it never carries a fault or want of memory. Of the demo no more bytes are asked for than the records have that are
    /// played, where every read gives all that it is asked for. Of an index that was made of the demo they are those after the last 256th
    /// record at or below so many. Of no file but the demo's and the index's anything is asked for.
    pub fn seek<F: Files>(
        &self,
        profile: &Profile,
        files: &mut F,
        number: u32,
    ) -> Result<ClState, SeekError>
        requires least { 512 ≤ profile.now.parse_ring }
        requires most { profile.now.parse_ring ≤ 65536 }
        requires demo { self.now.demo < F.given files.old }
        requires index { self.now.index < F.given files.old }
        ensures seeks { (told : Told) → F.told files.old ≡ Some told
            → Seeks profile.now self.now (contents_at told self.now.demo)
            (contents_at told self.now.index) number result }
        ensures plays { (told : Told) → F.told files.old ≡ Some told
            → IsMade profile.now self.now (contents_at told self.now.demo) (contents_at told self.now.index)
            → number ≤ length (records_of profile.now (contents_at told self.now.demo))
            → PlaysSo profile.now (contents_at told self.now.demo) number result }
        ensures cost { IsTrue F.reads_whole → self.now.demo ≢ self.now.index → (told : Told)
            → F.told files.old ≡ Some told → (start played : Played)
            → start_at profile.now (contents_at told self.now.index) self.now.checkpoints number ≡ Ok start
            → seek_at profile.now (contents_at told self.now.demo) (contents_at told self.now.index)
            self.now.records self.now.checkpoints number ≡ Ok played
            → asked_of (F.told files.new) self.now.demo + start.at
            ≤ asked_of (F.told files.old) self.now.demo + played.at }
        ensures cheap { IsTrue F.reads_whole → self.now.demo ≢ self.now.index → (told : Told)
            → F.told files.old ≡ Some told
            → IsMade profile.now self.now (contents_at told self.now.demo) (contents_at told self.now.index)
            → number ≤ length (records_of profile.now (contents_at told self.now.demo))
            → asked_of (F.told files.new) self.now.demo
            ≤ asked_of (F.told files.old) self.now.demo
            + bytes_between profile.now (contents_at told self.now.demo) (spacing * (number / spacing)) number }
        ensures past { self.now.records < number → result ≡ Err (SeekError.PastEnd self.now.records) }
        ensures untouched { self.now.records < number → F.told files.new ≡ F.told files.old }
        ensures refusal { IfErr result RefusesDemo }
        ensures given { F.given files.new ≡ F.given files.old }
        ensures asks { OnlyAsks (F.told files.old) (F.told files.new) }
        ensures only { AsksOfTwo self.now.demo self.now.index (F.told files.old) (F.told files.new) }
        ensures cause { SeekCause (F.faults files.old) (F.faults files.new) result }
        ensures others { F.write_faults files.new ≡ F.write_faults files.old }
    {
        laws::seeking_is_playing();
        laws::seeking_goes_on();
        if number > self.records {
            return Err(SeekError::PastEnd(self.records));
        }
        let mut player = self.start(profile, files, number)?;
        go_on(&mut player, files, self.demo, number)?;
        Ok(player.into_state())
    }

    /// Where the greatest checkpoint at or below so many records leaves a demo, or its beginning.
    #[tactic(auto, using(crate::proofs::Asking::asks_same))]
    fn start<F: Files>(
        &self,
        profile: &Profile,
        files: &mut F,
        number: u32,
    ) -> Result<Player, SeekError>
        requires least { 512 ≤ profile.now.parse_ring }
        requires most { profile.now.parse_ring ≤ 65536 }
        requires index { self.now.index < F.given files.old }
        ensures starts { (told : Told) → F.told files.old ≡ Some told
            → Answers played_by (start_at profile.now (contents_at told self.now.index) self.now.checkpoints number)
            result }
        ensures few { IfOk result (λ player. player.played.records ≤ number) }
        ensures refusal { IfErr result RefusesDemo }
        ensures given { F.given files.new ≡ F.given files.old }
        ensures asks { OnlyAsks (F.told files.old) (F.told files.new) }
        ensures only { AsksOf self.now.index (F.told files.old) (F.told files.new) }
        ensures cause { SeekCause (F.faults files.old) (F.faults files.new) result }
        ensures others { F.write_faults files.new ≡ F.write_faults files.old }
    {
        let alloc = *self.checkpoints.allocator();
        match self.greatest(number) {
            None => Ok(Player::new(alloc, profile)?),
            Some(checkpoint) => restore(
                alloc,
                profile,
                files,
                self.index,
                checkpoint,
                number / SPACING * SPACING,
            ),
        }
    }

    /// The greatest checkpoint at or below so many records.
    fn greatest(&self, number: u32) -> Option<Checkpoint>
        ensures is { result ≡ spec.greatest self.now.checkpoints number }
        ensures placed { IfSome result IsPlaced }
    {
        if number < SPACING {
            return None;
        }
        self.checkpoints
            .get((number / SPACING - 1) as usize)
            .copied()
    }
}

/// Where a checkpoint after so many records leaves a demo.
fn restore<F: Files>(
    alloc: Global,
    profile: &Profile,
    files: &mut F,
    index: usize,
    checkpoint: Checkpoint,
    records: u32,
) -> Result<Player, SeekError>
    requires least { 512 ≤ profile.now.parse_ring }
    requires most { profile.now.parse_ring ≤ 65536 }
    requires index { index < F.given files.old }
    requires placed { IsPlaced checkpoint }
    ensures restores { (told : Told) → F.told files.old ≡ Some told
        → Answers played_by (restored profile.now (contents_at told index) records checkpoint) result }
    ensures records { IfOk result (λ player. player.played.records ≡ records) }
    ensures refusal { IfErr result RefusesDemo }
    ensures given { F.given files.new ≡ F.given files.old }
    ensures asks { OnlyAsks (F.told files.old) (F.told files.new) }
    ensures only { AsksOf index (F.told files.old) (F.told files.new) }
    ensures cause { SeekCause (F.faults files.old) (F.faults files.new) result }
    ensures others { F.write_faults files.new ≡ F.write_faults files.old }
{
    let state = checkpoint_state(alloc, profile, files, index, checkpoint)?;
    Ok(Player::from_state(alloc, state, records, checkpoint.place)?)
}

/// The state of a checkpoint.
#[tactic(auto, using(crate::proofs::Asking::asks_same))]
fn checkpoint_state<F: Files>(
    alloc: Global,
    profile: &Profile,
    files: &mut F,
    index: usize,
    checkpoint: Checkpoint,
) -> Result<ClState, SeekError>
    requires least { 512 ≤ profile.now.parse_ring }
    requires most { profile.now.parse_ring ≤ 65536 }
    requires index { index < F.given files.old }
    requires placed { IsPlaced checkpoint }
    ensures reads { (told : Told) → F.told files.old ≡ Some told
        → Answers saved_in (saved_at profile.now (contents_at told index) checkpoint) result }
    ensures profile { IfOk result (λ state. state.profile ≡ profile.now) }
    ensures refusal { IfErr result RefusesDemo }
    ensures given { F.given files.new ≡ F.given files.old }
    ensures asks { OnlyAsks (F.told files.old) (F.told files.new) }
    ensures only { AsksOf index (F.told files.old) (F.told files.new) }
    ensures cause { SeekCause (F.faults files.old) (F.faults files.new) result }
    ensures others { F.write_faults files.new ≡ F.write_faults files.old }
{
    let mut bytes = vec![in alloc; 0; checkpoint.length as usize]?;
    let count = match read_whole(files, index, checkpoint.state, &mut bytes) {
        Ok(count) => count,
        Err(_) => return Err(SeekError::ReadFault),
    };
    match read_state(alloc, profile, &bytes[..count]) {
        Ok(state) => Ok(state),
        Err(StateError::NoMemory) => Err(SeekError::NoMemory),
        Err(StateError::NotState(place)) => Err(SeekError::NotIndex(
            checkpoint.state + place as u64,
        )),
    }
}

/// Plays on up to so many records.
fn go_on<F: Files>(
    player: &mut Player,
    files: &mut F,
    demo: usize,
    number: u32,
) -> Result<(), SeekError>
    requires demo { demo < F.given files.old }
    requires few { player.old.played.records ≤ number }
    ensures goes { (told : Told) → F.told files.old ≡ Some told
        → Answers (λ _. player.new.played) (fault_as SeekError.Demo
        (play_first (number - player.old.played.records) (contents_at told demo) player.old.played)) result }
    ensures refusal { IfErr result RefusesDemo }
    ensures given { F.given files.new ≡ F.given files.old }
    ensures asks { OnlyAsks (F.told files.old) (F.told files.new) }
    ensures only { AsksOf demo (F.told files.old) (F.told files.new) }
    ensures cost { IsTrue F.reads_whole → (told : Told) → F.told files.old ≡ Some told → (last : Played)
        → play_first (number - player.old.played.records) (contents_at told demo) player.old.played ≡ Ok last
        → asked_of (F.told files.new) demo + player.old.played.at ≤ asked_of (F.told files.old) demo + last.at }
    ensures cause { SeekCause (F.faults files.old) (F.faults files.new) result }
    ensures others { F.write_faults files.new ≡ F.write_faults files.old }
{
    for _ in player.records()..number {
        play_next(player, files, demo)?;
    }
    Ok(())
}

/// Plays one record more.
fn play_next<F: Files>(player: &mut Player, files: &mut F, demo: usize) -> Result<(), SeekError>
    requires demo { demo < F.given files.old }
    requires few { player.old.played.records < 4294967295 }
    ensures plays { (told : Told) → F.told files.old ≡ Some told
        → Answers (λ _. player.new.played) (play_one (contents_at told demo) player.old.played) result }
    ensures records { OnOk result (player.new.played.records ≡ player.old.played.records + 1) }
    ensures refusal { IfErr result RefusesDemo }
    ensures given { F.given files.new ≡ F.given files.old }
    ensures asks { OnlyAsks (F.told files.old) (F.told files.new) }
    ensures only { AsksOf demo (F.told files.old) (F.told files.new) }
    ensures cost { IsTrue F.reads_whole → (told : Told) → F.told files.old ≡ Some told → (stepped : Stepped)
        → step (contents_at told demo) player.old.played ≡ Ok (Some stepped)
        → asked_of (F.told files.new) demo + player.old.played.at
        ≤ asked_of (F.told files.old) demo + stepped.played.at }
    ensures cause { SeekCause (F.faults files.old) (F.faults files.new) result }
    ensures others { F.write_faults files.new ≡ F.write_faults files.old }
{
    refused_for_its_bytes();
    match player.next(files, demo) {
        Ok(Some(_)) => Ok(()),
        Ok(None) => Err(SeekError::Demo(DemoError::Truncated(player.place()))),
        Err(error) => Err(refused_as(error)),
    }
}

/// What a refusal counts as: a read fault stays one, and else the demo is refused.
fn refused_as(error: DemoError) -> SeekError
    ensures { result ≡ steps_spec.refused_as error }
{
    match error {
        DemoError::ReadFault => SeekError::ReadFault,
        _ => SeekError::Demo(error),
    }
}
