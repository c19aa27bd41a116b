//! Replays the schedule of a script by a profile.

ghost use Rattle.std.specs.Prelude.{◌≡◌, ◌+◌, ◌<◌, [], All, IsOk, length};
ghost use Rattle.q3_profile.specs.declared.profile.Profile.{Profile as ProfileValue};
ghost use Rattle.q3_script.specs.Grammar.{IsReplayEvent};
ghost use Rattle.q3_io.specs.Faults.{HasCause};
ghost use Rattle.q3_world.specs.Files.{AreNumbered, acts_from, by_files, ending_acts};
ghost use Rattle.q3_world.specs.Outcome.{HasStepCause};
ghost use Rattle.q3_world.specs.Forgetting.{AreWanted};
ghost use Rattle.q3_world.specs.Kept.{most_datagrams};
ghost use Rattle.q3_world.specs.World.{Whole, answers};
ghost use Rattle.q3_world.specs.StandsFor.{StandsFor};
ghost use Rattle.q3_runs.specs.Faults.{ReadCause, WriteCause, FileCause};
ghost use Rattle.q3_runs.specs.Run.{Executes, LeavesFiles};
ghost use Rattle.q3net.specs.Faults as spec;
ghost use Rattle.q3net.specs.Verdict.{IsReplayVerdict};
ghost use Rattle.q3net.specs.Run.{AddsLines, DoesFirst};

use q3_io::{Files, Sink};
use q3_runs::{Fault, load_events, load_profile};
use q3_script::{Event, ScriptKind};
use q3_world::{Later, StepError, World, laws};
use std::alloc::Global;

/// Replays the script of this name by the profile of that name, prints its report, and writes what clients record.
pub fn replay<F: Files, O: Sink>(
    alloc: Global,
    profile: &str,
    script: &str,
    files: &mut F,
    out: &mut O,
) -> Result<(), Fault>
    ensures executes { Executes (IsReplayVerdict (F.told files.old) profile.now script.now) (O.written out.old)
        (O.written out.new) result }
    ensures gives { LeavesFiles (IsReplayVerdict (F.told files.old) profile.now script.now) (F.told files.old)
        (F.told files.new) result }
    ensures file_cause { FileCause (F.write_faults files.old) (F.write_faults files.new) result }
    ensures read_cause { ReadCause (F.faults files.old) (F.faults files.new) result }
    ensures write_cause { WriteCause (O.faults out.old) (O.faults out.new) result }
{
    q3_io::laws::texts_follow();
    let profile = load_profile(alloc, profile, files)?;
    let events = load_events(alloc, ScriptKind::Replay, script, files)?;
    let mut world = World::new(alloc, &profile)?;
    if let Err(e) = step_all(alloc, &mut world, &events, files, out) {
        return Err(step_fault(e));
    }
    let Ok(()) = world.finish(files) else {
        return Err(Fault::FileWrite);
    };
    Ok(())
}

/// Why a step ended the run.
fn step_fault(e: StepError) -> Fault
    ensures { result ≡ spec.step_fault e }
{
    match e {
        StepError::NoMemory => Fault::NoMemory,
        StepError::WriteFault => Fault::Write,
        StepError::FileFault => Fault::FileWrite,
    }
}

/// Steps over the events: prints their lines, and writes what clients record. Datagrams that no later line names are forgotten.
fn step_all<F: Files, O: Sink>(
    alloc: Global,
    world: &mut World,
    events: &[Event],
    files: &mut F,
    out: &mut O,
) -> Result<(), StepError>
    requires events { All IsReplayEvent events.now }
    requires few { length world.old.kept.datagrams + length events.now < most_datagrams }
    requires numbered { AreNumbered (F.told files.old) (F.given files.old) world.old.numbers world.old.kept.ends }
    ensures adds { (profile : ProfileValue) (whole : Whole) → StandsFor profile world.old.kept whole
        → AddsLines (answers profile whole events.now) (O.written out.old) (O.written out.new) result }
    ensures cause { HasStepCause (O.faults out.old) (O.faults out.new) result }
    ensures files { DoesFirst (F.told files.old) (F.told files.new) (acts_from world.old.kept events.now)
        (ending_acts world.new.kept.ends) result }
    ensures file_cause { HasCause (F.write_faults files.old) (F.write_faults files.new) (by_files result) }
    ensures reads { F.faults files.new ≡ F.faults files.old }
    ensures numbered { AreNumbered (F.told files.new) (F.given files.new) world.new.numbers world.new.kept.ends }
    ensures forgets { length world.old.kept.datagrams ≡ 0 → IsOk result → AreWanted [] world.new.kept.datagrams }
{
    q3_io::laws::texts_follow();
    laws::step_follows();
    laws::forgetting_is_alike();
    let later = match Later::of(alloc, events) {
        Ok(later) => later,
        Err(_) => return Err(StepError::NoMemory),
    };
    let mut done = 0;
    for event in events {
        world.step(event, files, out)?;
        done += 1;
        world.forget_unnamed(&later, event, done);
    }
    Ok(())
}
