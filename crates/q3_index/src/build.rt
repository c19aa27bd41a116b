//! Makes the index of a demo. The demo is read twice, since the head counts its records.

ghost use Rattle.std.specs.Prelude.{◌≡◌, ◌≢◌, ◌+◌, ◌*◌, ◌/◌, ◌<◌, ◌≤◌, [], length, true, false, Ok, Some, None, IfOk, IfErr};
ghost use Rattle.q3_io.specs.Told.{Told, contents_at, contents_of, name_of};
ghost use Rattle.q3_clstate.specs.Standing.{IsApplied};
ghost use Rattle.q3_savestate.specs.Lending.{HasAges};
ghost use Rattle.q3_demo.specs.Player.{step_of_all};
ghost use Rattle.q3_demo.specs.Playing.{most_records, records_of, play_of, step};
ghost use Rattle.q3_demo.specs.Running.{OnlyAsks};
ghost use Rattle.q3_index.specs.declared.opening.Version.TheVariants as Version;
ghost use Rattle.q3_index.specs.Text.{spacing, head_bytes, checkpoint_bytes};
ghost use Rattle.q3_index.specs.Running.{Builds, BuildCause, BuildWrites};
ghost use Rattle.q3_index.specs.Steps.{HasIndex, Extends, IsAged, Counts, CountsNext, WritesNext, numbers_bytes, checkpoints_bytes};

use crate::index::SPACING;
use crate::opening::MAGIC;
use q3_clstate::ClState;
use q3_clstate::laws::within_stays;
use q3_demo::{DemoError, Player};
use q3_io::Files;
use q3_profile::Profile;
use q3_savestate::append_state;
use std::alloc::Global;

/// How many records and how many checkpoints an index has.
#[derive(Clone, Copy, Debug, PartialEq, Eq)]
pub struct Built {
    pub records: u32,
    pub checkpoints: u32,
}

/// Makes the index of a demo in a file that is empty, and another than the demo's: both are numbers of files. `Err` is as `play` answers; then
/// nothing was written where a record is refused, and else a front of the index. `WriteFault` comes only where the files' count of failed
/// writes rose.
pub fn build_index<F: Files>(
    alloc: Global,
    profile: &Profile,
    files: &mut F,
    demo: usize,
    index: usize,
) -> Result<Built, DemoError>
    requires least { 512 ≤ profile.now.parse_ring }
    requires most { profile.now.parse_ring ≤ 65536 }
    requires demo { demo < F.given files.old }
    requires index { index < F.given files.old }
    requires other { (told : Told) → F.told files.old ≡ Some told
        → (name_of told demo ≢ name_of told index) × (contents_of told.files (name_of told index) ≡ Some []) }
    ensures builds { (told : Told) → F.told files.old ≡ Some told
        → Builds profile.now told demo index (F.told files.new) result }
    ensures spaced { IfOk result (λ built. built.checkpoints ≡ built.records / spacing) }
    ensures untold { F.told files.old ≡ None → F.told files.new ≡ None }
    ensures given { F.given files.new ≡ F.given files.old }
    ensures cause { BuildCause (F.faults files.old) (F.faults files.new) result }
    ensures writes { BuildWrites (F.write_faults files.old) (F.write_faults files.new) result }
{
    let Ok(length) = files.size(demo) else {
        return Err(DemoError::ReadFault);
    };
    let records = count_records(alloc, profile, files, demo)?;
    let built = Built {
        records,
        checkpoints: records / SPACING,
    };
    let width = profile.entity.bits();
    write_head(length, profile.mark, width, built, files, index)?;
    write_checkpoints(alloc, profile, files, demo, index, built.checkpoints)?;
    Ok(built)
}

/// Plays all records of a demo, and counts them.
fn count_records<F: Files>(
    alloc: Global,
    profile: &Profile,
    files: &mut F,
    demo: usize,
) -> Result<u32, DemoError>
    requires least { 512 ≤ profile.now.parse_ring }
    requires most { profile.now.parse_ring ≤ 65536 }
    requires demo { demo < F.given files.old }
    ensures counts { (told : Told) → F.told files.old ≡ Some told
        → Counts (play_of profile.now (contents_at told demo)).ending
        (length (records_of profile.now (contents_at told demo))) result }
    ensures few { IfOk result (λ records. records ≤ most_records) }
    ensures given { F.given files.new ≡ F.given files.old }
    ensures asks { OnlyAsks (F.told files.old) (F.told files.new) }
    ensures cause { BuildCause (F.faults files.old) (F.faults files.new) result }
    ensures reads { IfErr result (λ e. e ≢ DemoError.WriteFault) }
    ensures others { F.write_faults files.new ≡ F.write_faults files.old }
{
    let mut player = Player::new(alloc, profile)?;
    while count_next(&mut player, files, demo)? {}
    Ok(player.records())
}

/// Plays the next record of all, if there is one.
fn count_next<F: Files>(player: &mut Player, files: &mut F, demo: usize) -> Result<bool, DemoError>
    requires demo { demo < F.given files.old }
    ensures counts { (told : Told) → F.told files.old ≡ Some told
        → CountsNext (step_of_all (contents_at told demo) player.old.played) player.new.played result }
    ensures more { result ≡ Ok true → (player.new.played.records ≡ player.old.played.records + 1)
        × (player.old.played.records < most_records) }
    ensures end { result ≡ Ok false → player.new.played ≡ player.old.played }
    ensures given { F.given files.new ≡ F.given files.old }
    ensures asks { OnlyAsks (F.told files.old) (F.told files.new) }
    ensures cause { BuildCause (F.faults files.old) (F.faults files.new) result }
    ensures reads { IfErr result (λ e. e ≢ DemoError.WriteFault) }
    ensures others { F.write_faults files.new ≡ F.write_faults files.old }
{
    Ok(player.next_of_all(files, demo)?.is_some())
}

/// Writes the head of an index.
fn write_head<F: Files>(
    length: u64,
    mark: u64,
    width: u8,
    built: Built,
    files: &mut F,
    index: usize,
) -> Result<(), DemoError>
    requires index { index < F.given files.old }
    requires checkpoints { built.checkpoints ≡ built.records / spacing }
    ensures writes { (told : Told) → F.told files.old ≡ Some told
        → Extends told (F.told files.new) index (head_bytes Version.Second length mark width built.records) result }
    ensures untold { F.told files.old ≡ None → F.told files.new ≡ None }
    ensures given { F.given files.new ≡ F.given files.old }
    ensures count { BuildWrites (F.write_faults files.old) (F.write_faults files.new) result }
    ensures fault { IfErr result (λ e. e ≡ DemoError.WriteFault) }
    ensures others { F.faults files.new ≡ F.faults files.old }
{
    append(files, index, MAGIC)?;
    append(files, index, &length.to_le_bytes())?;
    append(files, index, &mark.to_le_bytes())?;
    append(files, index, &width.to_le_bytes())?;
    append(files, index, &built.records.to_le_bytes())?;
    append(files, index, &built.checkpoints.to_le_bytes())
}

/// Plays the records up to the last of so many checkpoints again, and writes what every 256th left. A demo that ends before, as it may only
/// where nothing is told of the files, is refused there, so that no index counts more records than were played.
fn write_checkpoints<F: Files>(
    alloc: Global,
    profile: &Profile,
    files: &mut F,
    demo: usize,
    index: usize,
    checkpoints: u32,
) -> Result<(), DemoError>
    requires least { 512 ≤ profile.now.parse_ring }
    requires most { profile.now.parse_ring ≤ 65536 }
    requires demo { demo < F.given files.old }
    requires index { index < F.given files.old }
    requires few { checkpoints * spacing ≤ most_records }
    ensures writes { (told : Told) → F.told files.old ≡ Some told → HasIndex told index
        → name_of told demo ≢ name_of told index
        → checkpoints ≡ length (records_of profile.now (contents_at told demo)) / spacing
        → Extends told (F.told files.new) index (checkpoints_bytes profile.now
        (records_of profile.now (contents_at told demo))) result }
    ensures untold { F.told files.old ≡ None → F.told files.new ≡ None }
    ensures given { F.given files.new ≡ F.given files.old }
    ensures cause { BuildCause (F.faults files.old) (F.faults files.new) result }
    ensures count { BuildWrites (F.write_faults files.old) (F.write_faults files.new) result }
{
    within_stays();
    let mut player = Player::new(alloc, profile)?;
    let mut bytes = Vec::new(alloc);
    for _ in 0..checkpoints * SPACING {
        if !write_next(&mut player, files, demo, index, &mut bytes)? {
            return Err(DemoError::Truncated(player.place()));
        }
    }
    Ok(())
}

/// Plays the next record, if there is one, and writes a checkpoint after every 256th. The bytes are a place for it.
fn write_next<F: Files>(
    player: &mut Player,
    files: &mut F,
    demo: usize,
    index: usize,
    bytes: &mut Vec<u8>,
) -> Result<bool, DemoError>
    requires demo { demo < F.given files.old }
    requires index { index < F.given files.old }
    requires few { player.old.played.records < most_records }
    requires aged { IsAged player.old.played }
    ensures writes { (told : Told) → F.told files.old ≡ Some told → HasIndex told index
        → WritesNext player.old.played.state.profile told (F.told files.new) index
        (step (contents_at told demo) player.old.played) player.new.played result }
    ensures more { result ≡ Ok true → (player.new.played.records ≡ player.old.played.records + 1)
        × IsAged player.new.played
        × (player.new.played.state.profile ≡ player.old.played.state.profile) }
    ensures untold { F.told files.old ≡ None → F.told files.new ≡ None }
    ensures given { F.given files.new ≡ F.given files.old }
    ensures cause { BuildCause (F.faults files.old) (F.faults files.new) result }
    ensures count { BuildWrites (F.write_faults files.old) (F.write_faults files.new) result }
{
    if !play_next(player, files, demo)? {
        return Ok(false);
    }
    if player.records() % SPACING == 0 {
        write_checkpoint(player, files, index, bytes)?;
    }
    Ok(true)
}

/// Plays the next record, if there is one.
fn play_next<F: Files>(player: &mut Player, files: &mut F, demo: usize) -> Result<bool, DemoError>
    requires demo { demo < F.given files.old }
    requires few { player.old.played.records < most_records }
    requires aged { IsAged player.old.played }
    ensures plays { (told : Told) → F.told files.old ≡ Some told
        → CountsNext (step (contents_at told demo) player.old.played) player.new.played result }
    ensures more { result ≡ Ok true → (player.new.played.records ≡ player.old.played.records + 1)
        × IsAged player.new.played
        × (player.new.played.state.profile ≡ player.old.played.state.profile) }
    ensures given { F.given files.new ≡ F.given files.old }
    ensures asks { OnlyAsks (F.told files.old) (F.told files.new) }
    ensures cause { BuildCause (F.faults files.old) (F.faults files.new) result }
    ensures reads { IfErr result (λ e. e ≢ DemoError.WriteFault) }
    ensures others { F.write_faults files.new ≡ F.write_faults files.old }
{
    within_stays();
    stands(player.state());
    Ok(player.next(files, demo)?.is_some())
}

/// All that a state holds is well formed and in range.
fn stands(state: &ClState)
    ensures { IsApplied state.now }
{
    let _newest = state.newest();
}

/// Writes a checkpoint: how many records, the place of the next one, and what they left, after its length. The bytes are a place for it.
fn write_checkpoint<F: Files>(
    player: &Player,
    files: &mut F,
    index: usize,
    bytes: &mut Vec<u8>,
) -> Result<(), DemoError>
    requires index { index < F.given files.old }
    requires ages { HasAges player.now.played.state.held }
    ensures writes { (told : Told) → F.told files.old ≡ Some told → HasIndex told index
        → Extends told (F.told files.new) index (checkpoint_bytes player.now.played.state.profile player.now.played)
        result }
    ensures untold { F.told files.old ≡ None → F.told files.new ≡ None }
    ensures given { F.given files.new ≡ F.given files.old }
    ensures count { BuildWrites (F.write_faults files.old) (F.write_faults files.new) result }
    ensures fault { IfErr result (λ e. e ≢ DemoError.ReadFault) }
    ensures others { F.faults files.new ≡ F.faults files.old }
{
    bytes.clear();
    append_state(player.state(), bytes)?;
    write_numbers(player.records(), player.place(), bytes.len(), files, index)?;
    append(files, index, bytes)
}

/// Writes what stands in front of a checkpoint's state. Its length has four bytes.
fn write_numbers<F: Files>(
    records: u32,
    place: u64,
    length: usize,
    files: &mut F,
    index: usize,
) -> Result<(), DemoError>
    requires index { index < F.given files.old }
    ensures writes { (told : Told) → F.told files.old ≡ Some told
        → Extends told (F.told files.new) index (numbers_bytes records place length) result }
    ensures untold { F.told files.old ≡ None → F.told files.new ≡ None }
    ensures given { F.given files.new ≡ F.given files.old }
    ensures count { BuildWrites (F.write_faults files.old) (F.write_faults files.new) result }
    ensures fault { IfErr result (λ e. e ≡ DemoError.WriteFault) }
    ensures others { F.faults files.new ≡ F.faults files.old }
{
    append(files, index, &records.to_le_bytes())?;
    append(files, index, &place.to_le_bytes())?;
    append(files, index, &length.to_le_bytes()[..4])
}

/// Puts bytes after those of the index.
fn append<F: Files>(files: &mut F, index: usize, bytes: &[u8]) -> Result<(), DemoError>
    requires index { index < F.given files.old }
    ensures writes { (told : Told) → F.told files.old ≡ Some told
        → Extends told (F.told files.new) index bytes.now result }
    ensures untold { F.told files.old ≡ None → F.told files.new ≡ None }
    ensures given { F.given files.new ≡ F.given files.old }
    ensures count { BuildWrites (F.write_faults files.old) (F.write_faults files.new) result }
    ensures fault { IfErr result (λ e. e ≡ DemoError.WriteFault) }
    ensures others { F.faults files.new ≡ F.faults files.old }
{
    match files.append(index, bytes) {
        Ok(()) => Ok(()),
        Err(_) => Err(DemoError::WriteFault),
    }
}
