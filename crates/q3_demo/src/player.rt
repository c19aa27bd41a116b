//! Plays a demo record by record.

ghost use Rattle.std.specs.Prelude.{◌≡◌, ◌≢◌, ◌+◌, ◌<◌, ◌≤◌, IsTrue, List, ℕ, [], length, drop, Some, Ok, IfOk, IfErr};
ghost use Rattle.q3_io.specs.Told.{Told, contents_at};
ghost use Rattle.q3_bits.specs.ResultBind.{fault_as};
ghost use Rattle.q3_clstate.specs.State.{apply_at, state_after_message, answered, heard_in};
ghost use Rattle.q3_demo.specs.Player.{PlaysOn, step_of_all};
ghost use Rattle.q3_demo.specs.Player as spec;
ghost use Rattle.q3_demo.specs.Playing.{Stepped, unplayed, step};
ghost use Rattle.q3_demo.specs.Records.{longest_record};
ghost use Rattle.q3_demo.specs.Running.{HasFrom, OnlyAsks, AsksOf, asked_of, ReadCause};

use crate::error::DemoError;
use crate::record::{LONGEST_RECORD, Piece, next_record};
use q3_bits::NoMemory;
use q3_clstate::{Applied, ClState, Log};
use q3_io::Files;
use q3_profile::Profile;
use q3_text::Commands;
use std::alloc::Global;
use std::marker::Model;

/// How many records are played at most.
pub(crate) const MOST_RECORDS: u32 = 1_048_576;

/// How far a demo was played. After `new` and `from_state` no call takes memory.
#[derive(Drop)]
pub struct Player {
    /// What the messages left that were played.
    state: ClState,
    /// How many they are.
    records: u32,
    /// The number of the last, 0 for none.
    last: u32,
    /// The place after them, in bytes.
    at: u64,
    /// The commands that the last executed.
    log: Log,
    /// A place for the message of a record: 16,384 bytes.
    message: Vec<u8>,
}

impl Model for Player {
    ghost use Rattle.std.specs.Prelude.{◌≡◌, length};
    ghost use Rattle.q3_demo.specs.Records.{longest_record};
    ghost use Rattle.q3_demo.specs.Player.{PlayerState};

    ghost Value = { PlayerState };

    ghost view = { λ p. record {
      played = record { state = p.state; records = p.records; last = p.last; at = p.at };
      heard = p.log.commands;
    } };

    ghost invariant = { λ p. length p.message.items ≡ longest_record };
}

impl Player {
    /// Plays from a demo's first record on. The profile's ring for a client's entities has 512 to 65,536 places. `Err` is want of
    /// memory.
    pub fn new(alloc: Global, profile: &Profile) -> Result<Player, NoMemory>
        requires least { 512 ≤ profile.now.parse_ring }
        requires most { profile.now.parse_ring ≤ 65536 }
        ensures { IfOk result (λ player. player ≡ record { played = unplayed profile.now; heard = [] }) }
    {
        let state = ClState::new(alloc, profile)?;
        Player::from_state(alloc, state, 0, 0)
    }

    /// Goes on after so many records, at the place of the next one, from what they left. `Err` is want of memory.
    pub fn from_state(
        alloc: Global,
        state: ClState,
        records: u32,
        at: u64,
    ) -> Result<Player, NoMemory>
        ensures { IfOk result
            (λ player. player ≡ record {
              played = record {
                state = state;
                records = records;
                last = state.number;
                at = at;
              };
              heard = [];
            }) }
    {
        let (log, message) = buffers(alloc)?;
        let last = state.number();
        Ok(Player {
            state,
            records,
            last,
            at,
            log,
            message,
        })
    }

    /// Plays the next record, and tells what became of its message; `None` comes at the demo's end. `Err` is as `next_record`
    /// says, or `Message` exactly where the message isn't legible; after any `Err` the demo was played as far as before. Of the
    /// demo no more bytes are asked for than the record has, where every read gives all that it is asked for.
    pub fn next<F: Files>(
        &mut self,
        files: &mut F,
        file: usize,
    ) -> Result<Option<Applied>, DemoError>
        requires given { file < F.given files.old }
        requires few { self.old.played.records < 4294967295 }
        ensures plays { (bytes : List ℕ) × HasFrom (F.told files.old) file self.old.played.at bytes
            × ((demo : List ℕ) → drop self.old.played.at demo ≡ bytes
            → PlaysOn (step demo self.old.played) self.old self.new result) }
        ensures kept { IfErr result (λ e. self.new.played ≡ self.old.played) }
        ensures given { F.given files.new ≡ F.given files.old }
        ensures asks { OnlyAsks (F.told files.old) (F.told files.new) }
        ensures only { AsksOf file (F.told files.old) (F.told files.new) }
        ensures cost { IsTrue F.reads_whole → (told : Told) → F.told files.old ≡ Some told → (stepped : Stepped)
            → step (contents_at told file) self.old.played ≡ Ok (Some stepped)
            → asked_of (F.told files.new) file + self.old.played.at ≤ asked_of
            (F.told files.old) file + stepped.played.at }
        ensures read_cause { ReadCause (F.faults files.old) (F.faults files.new) result }
        ensures others { F.write_faults files.new ≡ F.write_faults files.old }
    {
        let piece = next_record(files, file, self.at, self.last, &mut self.message)?;
        let Piece::Message {
            number,
            length,
            next,
        } = piece
        else {
            return Ok(None);
        };
        let applied = apply(
            self.at,
            number,
            &self.message[..length],
            &mut self.state,
            &mut self.log,
        )?;
        self.records += 1;
        self.last = number;
        self.at = next;
        Ok(Some(applied))
    }

    /// The same of a demo that is played from its first record on: after 1,048,576 records anything but the demo's end is
    /// refused, as `Truncated`.
    pub fn next_of_all<F: Files>(
        &mut self,
        files: &mut F,
        file: usize,
    ) -> Result<Option<Applied>, DemoError>
        requires given { file < F.given files.old }
        ensures plays { (bytes : List ℕ) × HasFrom (F.told files.old) file self.old.played.at bytes
            × ((demo : List ℕ) → drop self.old.played.at demo ≡ bytes
            → PlaysOn (step_of_all demo self.old.played) self.old self.new result) }
        ensures kept { IfErr result (λ e. self.new.played ≡ self.old.played) }
        ensures given { F.given files.new ≡ F.given files.old }
        ensures asks { OnlyAsks (F.told files.old) (F.told files.new) }
        ensures only { AsksOf file (F.told files.old) (F.told files.new) }
        ensures read_cause { ReadCause (F.faults files.old) (F.faults files.new) result }
        ensures others { F.write_faults files.new ≡ F.write_faults files.old }
    {
        if self.records < MOST_RECORDS {
            return self.next(files, file);
        }
        let piece = next_record(files, file, self.at, self.last, &mut self.message);
        end_alone(self.at, piece)
    }

    /// What the messages left.
    pub fn state(&self) -> &ClState
        ensures { result.now ≡ self.now.played.state }
    {
        &self.state
    }

    /// What the messages left, and nothing else.
    pub fn into_state(self) -> ClState
        ensures { result ≡ self.played.state }
    {
        self.state
    }

    /// How many records were played.
    pub fn records(&self) -> u32
        ensures { result ≡ self.now.played.records }
    {
        self.records
    }

    /// The place after them, in bytes.
    pub fn place(&self) -> u64
        ensures { result ≡ self.now.played.at }
    {
        self.at
    }

    /// The number of the last of them, 0 for none.
    pub fn last(&self) -> u32
        ensures { result ≡ self.now.played.last }
    {
        self.last
    }

    /// The commands that the last message executed.
    pub fn log(&self) -> &Log
        ensures { result.now.commands ≡ self.now.heard }
    {
        &self.log
    }
}

/// Applies the message of a record at this place.
fn apply(
    at: u64,
    number: u32,
    message: &[u8],
    state: &mut ClState,
    log: &mut Log,
) -> Result<Applied, DemoError>
    ensures state { state.new ≡ state_after_message state.old (apply_at state.old number message.now) }
    ensures answer { result ≡ fault_as (λ cause. DemoError.Message at cause)
        (answered (apply_at state.old number message.now)) }
    ensures log { log.new.commands ≡ heard_in (apply_at state.old number message.now) }
    ensures kept { IfErr result (λ e. state.new ≡ state.old) }
    ensures reads { IfErr result (λ e. e ≢ DemoError.ReadFault) }
{
    match state.apply(number, message, log) {
        Ok(applied) => Ok(applied),
        Err(cause) => Err(DemoError::Message(at, cause)),
    }
}

/// What a piece counts as after the last record that may be played: anything but the demo's end is refused, and a read fault
/// stays one.
fn end_alone(at: u64, piece: Result<Piece, DemoError>) -> Result<Option<Applied>, DemoError>
    ensures { result ≡ spec.end_alone at piece }
{
    match piece {
        Ok(Piece::End) => Ok(None),
        Ok(Piece::Message { .. }) => Err(DemoError::Truncated(at)),
        Err(DemoError::ReadFault) => Err(DemoError::ReadFault),
        Err(_) => Err(DemoError::Truncated(at)),
    }
}

/// Room for the commands that a record executes, and for its message. `Err` is want of memory.
fn buffers(alloc: Global) -> Result<(Log, Vec<u8>), NoMemory>
    ensures { IfOk result (λ made. (made.0.commands ≡ []) × (length made.1.items ≡ longest_record)) }
{
    let log = Log {
        commands: Commands::new(alloc)?,
    };
    let message = vec![in alloc; 0; LONGEST_RECORD]?;
    Ok((log, message))
}
