//! Plays demos, makes their indexes, and seeks in them.

ghost use Rattle.std.specs.Prelude.{◌≡◌, ◌≢◌, ◌/◌, ◌<◌, ◌≤◌, ◌^◌, IsTrue, IfOk, IfErr, OnOk};
ghost use Rattle.q3_io.specs.Faults.{HasCause};
ghost use Rattle.q3_io.specs.Told.{Creates};
ghost use Rattle.q3_profile.specs.Profile.{IsCodec};
ghost use Rattle.q3_demo.specs.Report.{state_text};
ghost use Rattle.q3_index.specs.Text.{spacing};
ghost use Rattle.q3_runs.specs.Faults.{ReadCause, WriteCause, FileCause};
ghost use Rattle.q3_runs.specs.Faults as spec;
ghost use Rattle.q3_runs.specs.Input.{as_told};
ghost use Rattle.q3_runs.specs.Verdict.{IsPlayVerdict, IsIndexVerdict, IsSeekVerdict, indexed_text};
ghost use Rattle.q3_runs.specs.Run.{SeekEndsWithPlayedState, SeekAsksFromCheckpoint, Executes, LeavesFiles, PrintsAll};

use crate::fault::Fault;
use crate::input::{find_file, load_profile};
use q3_bits::{BIT, Reader};
use q3_clstate::ClState;
use q3_demo::{DemoError, print_state};
use q3_index::{Built, build_index, open_index};
use q3_io::{Files, Piece, Sink, print_all};
use q3_profile::Profile;
use std::alloc::Global;

/// Plays the demo of this name by the profile of that name, and prints what its records do and what they leave.
pub fn play<F: Files, O: Sink>(
    alloc: Global,
    profile: &str,
    demo: &str,
    files: &mut F,
    out: &mut O,
) -> Result<(), Fault>
    ensures executes { Executes (IsPlayVerdict (F.told files.old) profile.now demo.now) (O.written out.old)
        (O.written out.new) result }
    ensures gives { LeavesFiles (IsPlayVerdict (F.told files.old) profile.now demo.now) (F.told files.old)
        (F.told files.new) result }
    ensures writes { F.write_faults files.new ≡ F.write_faults files.old }
    ensures read_cause { ReadCause (F.faults files.old) (F.faults files.new) result }
    ensures write_cause { WriteCause (O.faults out.old) (O.faults out.new) result }
{
    q3_io::laws::texts_follow();
    let profile = load_profile(alloc, profile, files)?;
    let file = find_file(demo, files)?;
    q3_demo::play(alloc, &profile, files, file, out)?;
    Ok(())
}

/// Makes the index of the demo of this name, by the profile of that name, and prints how many records and checkpoints it counts.
pub fn index<F: Files, O: Sink>(
    alloc: Global,
    profile: &str,
    demo: &str,
    index: &str,
    files: &mut F,
    out: &mut O,
) -> Result<(), Fault>
    requires other { index.now ≢ demo.now }
    ensures executes { Executes (IsIndexVerdict (F.told files.old) profile.now demo.now index.now) (O.written out.old)
        (O.written out.new) result }
    ensures gives { LeavesFiles (IsIndexVerdict (F.told files.old) profile.now demo.now index.now) (F.told files.old)
        (F.told files.new) result }
    ensures file_cause { FileCause (F.write_faults files.old) (F.write_faults files.new) result }
    ensures read_cause { ReadCause (F.faults files.old) (F.faults files.new) result }
    ensures write_cause { WriteCause (O.faults out.old) (O.faults out.new) result }
{
    q3_io::laws::texts_follow();
    let profile = load_profile(alloc, profile, files)?;
    let demo = find_file(demo, files)?;
    let index = make_file(index, files)?;
    let built = match build_index(alloc, &profile, files, demo, index) {
        Ok(built) => built,
        Err(e) => return Err(build_fault(e)),
    };
    print_built(built, out)
}

/// Why no index was made: what can't be written is its file.
fn build_fault(e: DemoError) -> Fault
    ensures { result ≡ spec.build_fault e }
{
    match e {
        DemoError::WriteFault => Fault::FileWrite,
        e => Fault::from(e),
    }
}

/// Makes an empty file of this name, and answers its number. `FileWrite` comes where the files' count of failed writes rose.
fn make_file<F: Files>(name: &str, files: &mut F) -> Result<usize, Fault>
    ensures given { IfOk result (λ file. file < F.given files.new) }
    ensures more { OnOk result (F.given files.old ≤ F.given files.new) }
    ensures creates { Creates (F.told files.old) (F.told files.new) name.now (as_told result) }
    ensures fault { IfErr result (λ e. e ≡ Fault.FileWrite) }
    ensures cause { HasCause (F.write_faults files.old) (F.write_faults files.new) result }
    ensures others { F.faults files.new ≡ F.faults files.old }
{
    match files.create(name) {
        Ok(file) => Ok(file),
        Err(_) => Err(Fault::FileWrite),
    }
}

/// Prints how many records and checkpoints an index counts.
fn print_built<O: Sink>(built: Built, out: &mut O) -> Result<(), Fault>
    requires spaced { built.checkpoints ≡ built.records / spacing }
    ensures prints { PrintsAll (indexed_text built.records) (O.written out.old) (O.written out.new) result }
    ensures write_cause { WriteCause (O.faults out.old) (O.faults out.new) result }
{
    print_all(
        &[
            Piece::Text(b"indexed "),
            Piece::Number(u64::from(built.records)),
            Piece::Text(b" records "),
            Piece::Number(u64::from(built.checkpoints)),
            Piece::Text(b" checkpoints\n"),
        ],
        out,
    )
    .map_err(|_| Fault::Write)
}

/// Prints what so many records of the demo of this name leave, by the index of that name. Where every read gives all that it is asked for,
/// nothing was asked for by a number that isn't given, the index was made of the demo and counts as many records, and the demo's name is
/// neither the profile's nor the index's, no more of the demo is asked for than its records have after the last 256th at or below so many,
/// up to so many.
pub fn seek<F: Files, O: Sink>(
    alloc: Global,
    profile: &str,
    demo: &str,
    index: &str,
    records: u32,
    files: &mut F,
    out: &mut O,
) -> Result<(), Fault>
    ensures executes { Executes (IsSeekVerdict (F.told files.old) profile.now demo.now index.now records)
        (O.written out.old) (O.written out.new) result }
    ensures gives { LeavesFiles (IsSeekVerdict (F.told files.old) profile.now demo.now index.now records)
        (F.told files.old) (F.told files.new) result }
    ensures sought { SeekEndsWithPlayedState (F.told files.old) profile.now demo.now index.now records (O.written out.old)
        (O.written out.new) result }
    ensures cheap { IsTrue F.reads_whole → SeekAsksFromCheckpoint (F.told files.old) (F.told files.new) profile.now
        demo.now index.now records }
    ensures writes { F.write_faults files.new ≡ F.write_faults files.old }
    ensures read_cause { ReadCause (F.faults files.old) (F.faults files.new) result }
    ensures write_cause { WriteCause (O.faults out.old) (O.faults out.new) result }
{
    q3_io::laws::texts_follow();
    q3_index::laws::index_opens();
    q3_index::laws::seeking_is_playing();
    let profile = load_profile(alloc, profile, files)?;
    codec_stands(&profile);
    let demo = find_file(demo, files)?;
    let index = find_file(index, files)?;
    let opened = open_index(alloc, &profile, files, demo, index)?;
    let state = opened.seek(&profile, files, records)?;
    print_left(&state, records, out)
}

/// What a profile's types tell of it.
fn codec_stands(profile: &Profile)
    ensures codec { IsCodec profile.now }
    ensures mark { profile.now.mark < 2 ^ 64 }
{
    let _mark = profile.mark;
    let _bit = Reader::new(&profile.code, &[]).get(BIT);
    let _entity = profile.entity.copy();
    let _player = profile.player.copy();
}

/// Prints what so many records of a demo left.
fn print_left<O: Sink>(state: &ClState, records: u32, out: &mut O) -> Result<(), Fault>
    ensures prints { PrintsAll (state_text state.now records) (O.written out.old) (O.written out.new) result }
    ensures write_cause { WriteCause (O.faults out.old) (O.faults out.new) result }
{
    print_state(state, records, out).map_err(|_| Fault::Write)
}
