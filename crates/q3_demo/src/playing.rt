//! Plays a demo.

ghost use Rattle.std.specs.Prelude.{◌≡◌, ◌≢◌, ◌+◌, ◌<◌, ◌≤◌, List, ℕ, drop, OnOk, IfErr};
ghost use Rattle.q3_io.specs.Written.{Adds};
ghost use Rattle.q3_demo.specs.Records.{piece_of};
ghost use Rattle.q3_demo.specs.Report.{state_text};
ghost use Rattle.q3_demo.specs.Playing.{most_records, at_most, play_of, play_from, step};
ghost use Rattle.q3_demo.specs.Running.{HasFrom, OnlyAsks, Plays, ReadCause, WriteCause};
ghost use Rattle.q3_demo.specs.Steps.{TakesStep};
ghost use Rattle.q3_demo.specs.Steps as spec;

use crate::error::DemoError;
use crate::lines::print_record;
use crate::player::{MOST_RECORDS, Player};
use crate::state::print_state;
use q3_io::{Failed, Files, Sink, laws};
use q3_profile::Profile;
use std::alloc::Global;

/// Plays a demo: prints the lines of each record, and after the last what they left. The file is read as it plays, and memory is
/// taken before that alone. `Err` is the first record that is refused, as `next_record` says, or `Message` exactly where its
/// message isn't legible; or `Truncated` exactly where anything but the demo's end stands after 1,048,576 records.
pub fn play<F: Files, O: Sink>(
    alloc: Global,
    profile: &Profile,
    files: &mut F,
    file: usize,
    out: &mut O,
) -> Result<(), DemoError>
    requires least { 512 ≤ profile.now.parse_ring }
    requires most { profile.now.parse_ring ≤ 65536 }
    requires given { file < F.given files.old }
    ensures plays { (demo : List ℕ) × HasFrom (F.told files.old) file 0 demo
        × Plays (play_of profile.now demo) (O.written out.old) (O.written out.new) result }
    ensures given { F.given files.new ≡ F.given files.old }
    ensures asks { OnlyAsks (F.told files.old) (F.told files.new) }
    ensures read_cause { ReadCause (F.faults files.old) (F.faults files.new) result }
    ensures write_cause { WriteCause (O.faults out.old) (O.faults out.new) result }
    ensures others { F.write_faults files.new ≡ F.write_faults files.old }
{
    let mut player = Player::new(alloc, profile)?;
    play_records(files, file, &mut player, out)
}

/// Plays the records of a demo, from its first byte on.
fn play_records<F: Files, O: Sink>(
    files: &mut F,
    file: usize,
    player: &mut Player,
    out: &mut O,
) -> Result<(), DemoError>
    requires given { file < F.given files.old }
    requires none { player.old.played.records ≡ 0 }
    requires first { player.old.played.at ≡ 0 }
    ensures plays { (demo : List ℕ) × HasFrom (F.told files.old) file 0 demo
        × Plays (play_from most_records demo player.old.played) (O.written out.old) (O.written out.new) result }
    ensures given { F.given files.new ≡ F.given files.old }
    ensures asks { OnlyAsks (F.told files.old) (F.told files.new) }
    ensures read_cause { ReadCause (F.faults files.old) (F.faults files.new) result }
    ensures write_cause { WriteCause (O.faults out.old) (O.faults out.new) result }
    ensures others { F.write_faults files.new ≡ F.write_faults files.old }
{
    laws::texts_follow();
    for _ in 0..MOST_RECORDS {
        if play_next(files, file, player, out)? {
            return Ok(());
        }
    }
    end_here(files, file, player, out)
}

/// Plays the next record, and prints its lines; at the demo's end, which it answers, it prints what all of them left.
fn play_next<F: Files, O: Sink>(
    files: &mut F,
    file: usize,
    player: &mut Player,
    out: &mut O,
) -> Result<bool, DemoError>
    requires given { file < F.given files.old }
    requires few { player.old.played.records < most_records }
    ensures takes { (bytes : List ℕ) × HasFrom (F.told files.old) file player.old.played.at bytes
        × ((demo : List ℕ) → drop player.old.played.at demo ≡ bytes → TakesStep (step demo player.old.played)
        player.old.played player.new.played (O.written out.old) (O.written out.new) result) }
    ensures records { OnOk result (player.new.played.records ≤ player.old.played.records + 1) }
    ensures given { F.given files.new ≡ F.given files.old }
    ensures asks { OnlyAsks (F.told files.old) (F.told files.new) }
    ensures read_cause { ReadCause (F.faults files.old) (F.faults files.new) result }
    ensures write_cause { WriteCause (O.faults out.old) (O.faults out.new) result }
    ensures others { F.write_faults files.new ≡ F.write_faults files.old }
{
    let index = player.records();
    let Some(applied) = player.next(files, file)? else {
        end(player, out)?;
        return Ok(true);
    };
    let number = player.last();
    let state = player.state();
    let log = player.log();
    match print_record(index, number, state, &applied, log, out) {
        Ok(()) => Ok(false),
        Err(Failed) => Err(DemoError::WriteFault),
    }
}

/// After the last record that may be played, anything but the demo's end is refused.
fn end_here<F: Files, O: Sink>(
    files: &mut F,
    file: usize,
    player: &mut Player,
    out: &mut O,
) -> Result<(), DemoError>
    requires given { file < F.given files.old }
    requires few { player.old.played.records ≤ most_records }
    ensures ends { (bytes : List ℕ) × HasFrom (F.told files.old) file player.old.played.at bytes
        × Plays (at_most player.old.played (piece_of bytes player.old.played.at player.old.played.last))
        (O.written out.old) (O.written out.new) result }
    ensures memory { IfErr result (λ e. e ≢ DemoError.NoMemory) }
    ensures given { F.given files.new ≡ F.given files.old }
    ensures asks { OnlyAsks (F.told files.old) (F.told files.new) }
    ensures read_cause { ReadCause (F.faults files.old) (F.faults files.new) result }
    ensures write_cause { WriteCause (O.faults out.old) (O.faults out.new) result }
    ensures others { F.write_faults files.new ≡ F.write_faults files.old }
{
    laws::texts_follow();
    let at = player.place();
    match player.next(files, file) {
        Ok(None) => end(player, out),
        Ok(Some(_)) => Err(DemoError::Truncated(at)),
        Err(error) => Err(after_limit(at, error)),
    }
}

/// What a refusal counts as after the last record that may be played: a read fault stays one.
fn after_limit(at: u64, error: DemoError) -> DemoError
    ensures { result ≡ spec.after_limit at error }
{
    match error {
        DemoError::ReadFault => DemoError::ReadFault,
        _ => DemoError::Truncated(at),
    }
}

/// Prints what the records left, at the demo's end.
fn end<O: Sink>(player: &Player, out: &mut O) -> Result<(), DemoError>
    ensures adds { Adds (O.written out.old) (O.written out.new)
        (state_text player.now.played.state player.now.played.records) result }
    ensures only { IfErr result (λ e. e ≡ DemoError.WriteFault) }
    ensures cause { WriteCause (O.faults out.old) (O.faults out.new) result }
{
    let records = player.records();
    match print_state(player.state(), records, out) {
        Ok(()) => Ok(()),
        Err(Failed) => Err(DemoError::WriteFault),
    }
}
