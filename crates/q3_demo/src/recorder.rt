//! Records what a client applies.
//! - Rule: "recorder".
//! - Engine: `CL_Record_f` and `CL_WriteDemoMessage` (cl_main.c) begin so too.
//! - Ours: that the first gamestate is that of the moment before the first whole snapshot; that a message whose base lies before
//!   that is written anew.

ghost use Rattle.std.specs.Prelude.{◌≡◌, ◌<◌, ◌≤◌, ◌+◌, ◌++◌, [], length, take, None, Some, IfOk, option_map};
ghost use Rattle.q3_io.specs.Faults.{HasCause};
ghost use Rattle.q3_demo.specs.Records.{longest_record};
ghost use Rattle.q3_demo.specs.Recording.{composed, game_bits, note_at, closing, record_bytes};
ghost use Rattle.q3_demo.specs.Recording as spec;
ghost use Rattle.q3_demo.specs.Recorder.{new_recorder, most_added, is_waiting, MayNote, AppendsBytes, noted_as, done};

use crate::compose::{compose_game, compose_whole};
use crate::record::{HEAD_BYTES, LONGEST_RECORD};
use byteorder::{ByteOrder, LittleEndian};
use q3_bits::{NoMemory, Overflow};
use q3_clstate::{Applied, ClState, SnapOutcome};
use q3_io::{Failed, Files};
use q3_text::Commands;
use std::alloc::Global;
use std::marker::Model;

/// What ends a demo.
const END: [u8; HEAD_BYTES] = [255; HEAD_BYTES];

/// At most so many bytes are added at once: the gamestate and the first message.
const MOST_ADDED: usize = 2 * (HEAD_BYTES + LONGEST_RECORD);

/// How far a recording is.
#[derive(Clone, Copy, Debug, PartialEq, Eq)]
pub enum Stage {
    /// No whole snapshot was accepted since it began.
    Waits,
    /// It goes on since the message of this number.
    Runs { first: u32 },
    /// It has its end: it was stopped, or a message that it had to compose was too long.
    Ended,
}

/// What became of a message in a recording.
#[derive(Clone, Copy, Debug, PartialEq, Eq)]
pub enum Noted {
    /// The recording still waits for a whole snapshot.
    Waits,
    /// The message was recorded.
    Wrote,
    /// The recording has its end: it was written before this message, which had to be composed and is too long, or the recording
    /// had it before.
    Ended,
}

/// A recording into a file, whose number comes with each call. After `new` no call takes memory.
#[derive(Drop)]
pub struct Recorder {
    stage: Stage,

    // the gamestate that was kept for the case that the next message has a whole snapshot
    /// Its bytes, in the first of 16,384.
    game: Vec<u8>,
    /// How many they are; none where it would have more, and before one was kept.
    game_length: Option<usize>,

    // places that hold nothing from one call to another
    /// For the commands of a message that is composed anew.
    commands: Commands,
    /// For that message: 16,384 bytes.
    message: Vec<u8>,
    /// For what is added to the file at once: two records at most.
    bytes: Vec<u8>,
}

impl Model for Recorder {
    ghost use Rattle.std.specs.Prelude.{◌≡◌, ◌≤◌, length, take, option_map, IfSome, ℕ};
    ghost use Rattle.q3_demo.specs.Records.{longest_record};
    ghost use Rattle.q3_demo.specs.Recorder.{RecorderState, most_added};

    ghost Value = { RecorderState };

    ghost view = { λ r. record {
      stage = r.stage;
      game = option_map (λ (count : ℕ). take count r.game.items) r.game_length;
    } };

    ghost invariant = { λ r. (length r.game.items ≡ longest_record) × (length r.message.items ≡ longest_record)
        × (length r.bytes.items ≡ most_added)
        × IfSome r.game_length (λ count. count ≤ longest_record) };
}

impl Recorder {
    ghost use Rattle.std.specs.Prelude.{OnOk, IsOk, IsSome};
    ghost use Rattle.q3_rings.specs.Rings.{view_at};
    ghost use Rattle.q3_demo.specs.Recording.{begins, goes_on, recomposed, composed_whole, whole_of, front_at, end_bytes};

    /// A recording that waits for a whole snapshot. The file of its calls is empty before the first of them. `Err` is want of
    /// memory.
    pub fn new(alloc: Global) -> Result<Recorder, NoMemory>
        ensures { IfOk result (λ made. made ≡ new_recorder) }
    {
        let game = vec![in alloc; 0; LONGEST_RECORD]?;
        let message = vec![in alloc; 0; LONGEST_RECORD]?;
        let bytes = vec![in alloc; 0; MOST_ADDED]?;
        Ok(Recorder {
            stage: Stage::Waits,
            game,
            game_length: None,
            commands: Commands::new(alloc)?,
            message,
            bytes,
        })
    }

    /// Whether it waits for a whole snapshot.
    pub fn waiting(&self) -> bool
        ensures { result ≡ is_waiting self.now.stage }
    {
        self.stage == Stage::Waits
    }

    /// Keeps the gamestate that the client has, for the case that the next message has a whole snapshot. `issued` is the number
    /// of the last command that the client issued, 0 for none. It is called before each message while the recording waits.
    pub fn prepare(&mut self, state: &ClState, issued: u32)
        ensures { self.new ≡ record self.old { game = composed (game_bits state.now issued) } }
    {
        self.game_length = match compose_game(state, issued, &mut self.game) {
            Ok(count) => Some(count),
            Err(Overflow) => None,
        };
    }

    /// Records a message that the client applied, the last one: `applied` is what became of it, and `state` is what the client
    /// has after it. While the recording waits, `prepare` was called with the state before the message. After the recording's end
    /// nothing is added. `Failed` comes where a write of the files failed; the recording isn't used any more then.
    pub fn note<F: Files>(
        &mut self,
        state: &ClState,
        applied: &Applied,
        message: &[u8],
        file: usize,
        files: &mut F,
    ) -> Result<Noted, Failed>
        requires given { file < F.given files.old }
        requires short { length message.now ≤ longest_record }
        requires number { 0 < applied.now.number }
        requires applied { MayNote self.old.stage state.now applied.now message.now }
        ensures stage { OnOk result
            (self.new ≡ record self.old {
              stage = (note_at self.old.stage self.old.game state.now applied.now
                  message.now).stage;
            }) }
        ensures answer { IfOk result (λ noted. noted ≡ noted_as
            (note_at self.old.stage self.old.game state.now applied.now message.now).stage) }
        ensures adds { AppendsBytes (F.told files.old) (F.told files.new) file
            (note_at self.old.stage self.old.game state.now applied.now message.now).bytes (done result) }
        ensures given { F.given files.new ≡ F.given files.old }
        ensures cause { HasCause (F.write_faults files.old) (F.write_faults files.new) result }
        ensures others { F.faults files.new ≡ F.faults files.old }
    {
        match self.stage {
            Stage::Waits if is_whole(applied.snap) => self.begin(
                applied.number,
                message,
                file,
                files,
            ),
            Stage::Waits => Ok(Noted::Waits),
            Stage::Runs { first } if is_before(first, applied.snap) => {
                self.recompose(state, first, applied.number, message, file, files)
            }
            Stage::Runs { first } => self.go_on(first, applied.number, message, file, files),
            Stage::Ended => Ok(Noted::Ended),
        }
    }

    /// Writes the gamestate that was kept, and the first message.
    fn begin<F: Files>(
        &mut self,
        number: u32,
        message: &[u8],
        file: usize,
        files: &mut F,
    ) -> Result<Noted, Failed>
        requires given { file < F.given files.old }
        requires short { length message.now ≤ longest_record }
        requires number { 0 < number }
        ensures stage { OnOk result
            (self.new ≡ record self.old { stage = (begins number message.now self.old.game).stage }) }
        ensures answer { IfOk result (λ noted. noted ≡ noted_as (begins number message.now self.old.game).stage) }
        ensures adds { AppendsBytes (F.told files.old) (F.told files.new) file
            (begins number message.now self.old.game).bytes (done result) }
        ensures given { F.given files.new ≡ F.given files.old }
        ensures cause { HasCause (F.write_faults files.old) (F.write_faults files.new) result }
        ensures others { F.faults files.new ≡ F.faults files.old }
    {
        let Some(count) = self.game_length else {
            return self.end(file, files);
        };
        let place = put_record(&mut self.bytes, 0, number - 1, &self.game[..count]);
        let place = put_record(&mut self.bytes, place, number, message);
        files.append(file, &self.bytes[..place])?;
        self.stage = Stage::Runs { first: number };
        Ok(Noted::Wrote)
    }

    /// Writes a message that stays as it is.
    fn go_on<F: Files>(
        &mut self,
        first: u32,
        number: u32,
        message: &[u8],
        file: usize,
        files: &mut F,
    ) -> Result<Noted, Failed>
        requires given { file < F.given files.old }
        requires short { length message.now ≤ longest_record }
        ensures stage { OnOk result
            (self.new ≡ record self.old { stage = (goes_on first number message.now).stage }) }
        ensures answer { IfOk result (λ noted. noted ≡ noted_as (goes_on first number message.now).stage) }
        ensures adds { AppendsBytes (F.told files.old) (F.told files.new) file
            (goes_on first number message.now).bytes (done result) }
        ensures given { F.given files.new ≡ F.given files.old }
        ensures cause { HasCause (F.write_faults files.old) (F.write_faults files.new) result }
        ensures others { F.faults files.new ≡ F.faults files.old }
    {
        let place = put_record(&mut self.bytes, 0, number, message);
        files.append(file, &self.bytes[..place])?;
        self.stage = Stage::Runs { first };
        Ok(Noted::Wrote)
    }

    /// Writes a message anew, with its snapshot whole.
    fn recompose<F: Files>(
        &mut self,
        state: &ClState,
        first: u32,
        number: u32,
        message: &[u8],
        file: usize,
        files: &mut F,
    ) -> Result<Noted, Failed>
        requires given { file < F.given files.old }
        requires front { IsOk (front_at state.now.profile.code message.now) }
        requires held { IsSome (view_at state.now.held state.now.number) }
        ensures stage { OnOk result
            (self.new ≡ record self.old {
              stage = (recomposed first number
                  (composed_whole state.now (whole_of state.now message.now))).stage;
            }) }
        ensures answer { IfOk result (λ noted. noted ≡ noted_as
            (recomposed first number (composed_whole state.now (whole_of state.now message.now))).stage) }
        ensures adds { AppendsBytes (F.told files.old) (F.told files.new) file
            (recomposed first number (composed_whole state.now (whole_of state.now message.now))).bytes
            (done result) }
        ensures given { F.given files.new ≡ F.given files.old }
        ensures cause { HasCause (F.write_faults files.old) (F.write_faults files.new) result }
        ensures others { F.faults files.new ≡ F.faults files.old }
    {
        let Ok(count) = compose_whole(state, message, &mut self.commands, &mut self.message) else {
            return self.end(file, files);
        };
        let place = put_record(&mut self.bytes, 0, number, &self.message[..count]);
        files.append(file, &self.bytes[..place])?;
        self.stage = Stage::Runs { first };
        Ok(Noted::Wrote)
    }

    /// Writes the demo's end before a message that is too long.
    fn end<F: Files>(&mut self, file: usize, files: &mut F) -> Result<Noted, Failed>
        requires given { file < F.given files.old }
        ensures stage { OnOk result (self.new ≡ record self.old { stage = Stage.Ended }) }
        ensures answer { IfOk result (λ noted. noted ≡ Noted.Ended) }
        ensures adds { AppendsBytes (F.told files.old) (F.told files.new) file end_bytes (done result) }
        ensures given { F.given files.new ≡ F.given files.old }
        ensures cause { HasCause (F.write_faults files.old) (F.write_faults files.new) result }
        ensures others { F.faults files.new ≡ F.faults files.old }
    {
        files.append(file, &END)?;
        self.stage = Stage::Ended;
        Ok(Noted::Ended)
    }

    /// Ends the recording: writes the demo's end, unless it ended by itself. `Failed` comes where a write of the files failed.
    pub fn stop<F: Files>(&mut self, file: usize, files: &mut F) -> Result<(), Failed>
        requires given { file < F.given files.old }
        ensures stage { OnOk result (self.new ≡ record self.old { stage = Stage.Ended }) }
        ensures adds { AppendsBytes (F.told files.old) (F.told files.new) file (closing self.old.stage) result }
        ensures given { F.given files.new ≡ F.given files.old }
        ensures cause { HasCause (F.write_faults files.old) (F.write_faults files.new) result }
        ensures others { F.faults files.new ≡ F.faults files.old }
    {
        if self.stage == Stage::Ended {
            return Ok(());
        }
        files.append(file, &END)?;
        self.stage = Stage::Ended;
        Ok(())
    }
}

/// Whether a snapshot was accepted that is whole.
fn is_whole(outcome: SnapOutcome) -> bool
    ensures { result ≡ spec.is_whole outcome }
{
    matches!(outcome, SnapOutcome::Accepted { base: 0 })
}

/// Whether a snapshot was accepted against one before the first that is recorded.
fn is_before(first: u32, outcome: SnapOutcome) -> bool
    ensures { result ≡ spec.is_before first outcome }
{
    match outcome {
        SnapOutcome::Accepted { base } => 0 < base && base < first,
        _ => false,
    }
}

/// Puts a record at a place of a buffer, and answers the place after it.
fn put_record(buffer: &mut Vec<u8>, place: usize, number: u32, message: &[u8]) -> usize
    requires fits { place + length message.now + 8 ≤ length buffer.old.items }
    requires short { length message.now ≤ longest_record }
    ensures put { take result buffer.new.items ≡ take place buffer.old.items ++ record_bytes number message.now }
    ensures place { result ≡ place + length message.now + 8 }
    ensures long { length buffer.new.items ≡ length buffer.old.items }
{
    let mut head = [0; HEAD_BYTES];
    LittleEndian::write_u32(&mut head, number);
    LittleEndian::write_u32(&mut head[4..], message.len() as u32);
    put_at(buffer, place, &head);
    put_at(buffer, place + HEAD_BYTES, message);
    place + HEAD_BYTES + message.len()
}

/// Puts bytes at a place of a buffer.
fn put_at(buffer: &mut Vec<u8>, place: usize, bytes: &[u8])
    requires fits { place + length bytes.now ≤ length buffer.old.items }
    ensures put { take (place + length bytes.now) buffer.new.items ≡ take place buffer.old.items ++ bytes.now }
    ensures long { length buffer.new.items ≡ length buffer.old.items }
{
    buffer[place..place + bytes.len()].copy_from_slice(bytes);
}
