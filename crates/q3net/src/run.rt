//! The top call: does all that the program does.

ghost use Rattle.std.specs.Prelude.{◌≡◌, ◌⊎◌, ◌≤◌, true, false, IsTrue, map, Err, IfErr, IsNone, IsOk, OnOk};
ghost use Rattle.std.specs.String.{string_bytes};
ghost use Rattle.q3_io.specs.Faults.{HasCause, Rose};
ghost use Rattle.q3_io.specs.Written.{Adds, NothingWaits};
ghost use Rattle.q3_command.specs.Command.{command_of};
ghost use Rattle.q3_runs.specs.Faults.{ReadCause, WriteCause, FileCause, WireCause};
ghost use Rattle.q3_runs.specs.Lines.{fault_line, ending_line, ending_status};
ghost use Rattle.q3_runs.specs.Verdict.{outside};
ghost use Rattle.q3_runs.specs.Run.{PrintsAll, left_so, ExecutesWired, LeavesFiles, MayBind};
ghost use Rattle.q3net.specs.Verdict.{IsVerdict};
ghost use Rattle.q3net.specs.Run.{SeekReportsPlayedState, CommandEndsWithPlayedState, CommandAsksFromCheckpoint, Took, Prints, Reports, FilesFail, IsDecided, IsComplete, HasLeft, Touched, Settles};

use crate::generated::{make, trial};
use crate::replay::replay;
use q3_command::{Command, parse};
use q3_io::{Clock, Failed, Files, Sink, Wire};
use q3_runs::{Fault, index, join, play, seek, serve};
use std::alloc::Global;

const HELP: &[u8] =
    b"q3net replays schedules of Quake III's connected protocols 68 and 71, and serves and joins by them over UDP\n\nq3net replay PROFILE SCRIPT                replays the schedule of the script by the profile, and prints its report\nq3net serve PROFILE SCRIPT ADDRESS         is a server at the address, by the script whose lines are done when they are due\nq3net join PROFILE SCRIPT ADDRESS SERVER   is a client at the address, of the server at that one, likewise\nq3net play PROFILE DEMO                    plays a demo, and prints what its records do and what they leave\nq3net index PROFILE DEMO INDEX             makes the index of a demo, by which it is sought\nq3net seek PROFILE DEMO INDEX RECORD       prints what so many records of a demo leave, by its index\nq3net make NUMBER SEED                     prints a generated script, of which so many events are drawn from the seed\nq3net trial PROFILE NUMBER SEED            replays that script by the profile, and prints what the report counts\nq3net --help                               prints this text\nq3net --version                            prints the version\n";

const VERSION: &[u8] = b"q3net 0.1.0\n";

/// Runs the command that the words after the program's name are, and answers its status:
/// 0 done, 1 no memory, 2 usage, 3 read fault, 4 write fault, 5 bad profile, 6 bad script, 7 bad demo, 8 bad index,
/// 9 wire fault, 10 past the end, 11 turns spent.
/// Want of memory comes where the command's verdict says that it may; no clause says that memory suffices.
pub fn run<F: Files, W: Wire, C: Clock, O: Sink>(
    alloc: Global,
    words: &[String],
    files: &mut F,
    wire: &mut W,
    clock: &mut C,
    out: &mut O,
) -> u8
    requires unbound { W.bound wire.old ≡ false }

    // Where 0 is answered, what was written is the text of the verdict: the report, by the profile that the one
    // file's bytes spell, of the events that the other's spell; the generated script; what the report of its replay
    // counts; the lines of a node's turns, by the readings of the clock and the arrivals that were to come; or the text that was asked for.
    // What was sent then are the datagrams of these turns.
    ensures report { result ≡ 0 → Reports (command_of (map string_bytes words.now))
        (outside (F.told files.old) (W.told wire.old) (C.readings clock.old)) (O.written out.old) (O.written out.new)
        (W.told wire.new) }
    // Ended early, it is a front of that, and the fault line, `write fault` exactly where a write of the files failed;
    // where the sink failed, a front of both. Of the wire, and of the files, a node left what goes with that: what was sent and done by the
    // turns whose lines were printed, and in the one in which it ended.
    ensures prints { Prints (command_of (map string_bytes words.now))
        (outside (F.told files.old) (W.told wire.old) (C.readings clock.old)) (F.write_faults files.old)
        (F.write_faults files.new) (O.written out.old) (O.written out.new)
        (left_so (W.told wire.new) (F.told files.new)) result }

    // The words that name files are given to `lookup`, once each and in the order in which they are read, and then the files
    // that the verdict makes are created: those into which clients record, or an index. Its acts are done, one after the other, or the
    // first of them where the run ends early, the last of these maybe with a front of its bytes; every other file stays. A write of
    // files fails only in a command whose verdict has such acts.
    ensures touches { Touched (command_of (map string_bytes words.now))
        (outside (F.told files.old) (W.told wire.old) (C.readings clock.old)) (F.told files.new) }
    ensures leaves { HasLeft (command_of (map string_bytes words.now))
        (outside (F.told files.old) (W.told wire.old) (C.readings clock.old)) (F.told files.new) result }
    ensures writes { (F.write_faults files.new ≡ F.write_faults files.old)
        ⊎ FilesFail (command_of (map string_bytes words.now))
        (outside (F.told files.old) (W.told wire.old) (C.readings clock.old)) (F.write_faults files.old)
        (F.write_faults files.new) }

    // An address is bound only by a command that has one, and the clock is read after that alone.
    ensures binds { W.bound wire.new ≡ true → MayBind (IsVerdict (outside (F.told files.old) (W.told wire.old)
        (C.readings clock.old)) (command_of (map string_bytes words.now))) }
    ensures unbound { W.bound wire.new ≡ false → clock.new ≡ clock.old }

    // What is sought in a demo by the index that was made of it is what playing leaves, and such an index is never refused.
    ensures sought { SeekReportsPlayedState (command_of (map string_bytes words.now))
        (outside (F.told files.old) (W.told wire.old) (C.readings clock.old)) (O.written out.old)
        (O.written out.new) result }
    // Where every read gives all that it is asked for, nothing was asked for by a number that isn't given, the index was made of the demo and
    // counts as many records, and the demo's word is neither the profile's nor the index's, no more of the demo is asked for than its records
    // have after the last 256th at or below RECORD, up to RECORD.
    ensures cheap { IsTrue F.reads_whole → CommandAsksFromCheckpoint (command_of (map string_bytes words.now))
        (F.told files.old) (F.told files.new) }

    // When each status comes: it is that of the verdict, or 1, 3, 4 or 9 by something from outside.
    ensures statuses { result ≤ 11 }
    ensures decided { IsDecided (command_of (map string_bytes words.now))
        (outside (F.told files.old) (W.told wire.old) (C.readings clock.old)) result }
    ensures usage { result ≡ 2 → IsNone (command_of (map string_bytes words.now)) }
    ensures no_command { IsNone (command_of (map string_bytes words.now)) → (result ≡ 2) ⊎ (result ≡ 4) }
    ensures read_fault { result ≡ 3 → Rose (F.faults files.old) (F.faults files.new) }
    ensures write_fault { result ≡ 4 → Rose (O.faults out.old) (O.faults out.new)
        ⊎ FilesFail (command_of (map string_bytes words.now))
        (outside (F.told files.old) (W.told wire.old) (C.readings clock.old)) (F.write_faults files.old)
        (F.write_faults files.new) }
    ensures wire_fault { result ≡ 9 → Rose (W.faults wire.old) (W.faults wire.new) }
    // No fault is passed over: where the sink's count changed, or the files' one of failed writes, the status is 4, and where
    // the files' one of failed reads did, 3 or 4, and where the wire's did, 9 or 4.
    ensures no_read_fault_passed { (F.faults files.new ≡ F.faults files.old) ⊎ ((result ≡ 3) ⊎ (result ≡ 4)) }
    ensures no_write_fault_passed { ((O.faults out.new ≡ O.faults out.old)
        × (F.write_faults files.new ≡ F.write_faults files.old)) ⊎ (result ≡ 4) }
    ensures no_wire_fault_passed { (W.faults wire.new ≡ W.faults wire.old) ⊎ ((result ≡ 9) ⊎ (result ≡ 4)) }
    // Where no count rises, the run ends as its verdict says, unless memory runs out.
    ensures complete { ¬ Rose (F.faults files.old) (F.faults files.new) → ¬ Rose (O.faults out.old) (O.faults out.new)
        → ¬ Rose (W.faults wire.old) (W.faults wire.new)
        → ¬ FilesFail (command_of (map string_bytes words.now))
        (outside (F.told files.old) (W.told wire.old) (C.readings clock.old)) (F.write_faults files.old)
        (F.write_faults files.new)
        → IsComplete (command_of (map string_bytes words.now))
        (outside (F.told files.old) (W.told wire.old) (C.readings clock.old)) result }
{
    q3_io::laws::texts_follow();
    let ended = execute(alloc, words, files, wire, clock, out);
    end(ended, out)
}

/// Runs a command, without the fault line.
#[tactic(auto, unfolding(crate::specs::Lines::help_text, crate::specs::Lines::version_text))]
fn execute<F: Files, W: Wire, C: Clock, O: Sink>(
    alloc: Global,
    words: &[String],
    files: &mut F,
    wire: &mut W,
    clock: &mut C,
    out: &mut O,
) -> Result<(), Fault>
    requires unbound { W.bound wire.old ≡ false }
    ensures executes { ExecutesWired (IsVerdict (outside (F.told files.old) (W.told wire.old)
        (C.readings clock.old)) (command_of (map string_bytes words.now)))
        (outside (F.told files.old) (W.told wire.old) (C.readings clock.old)) (O.written out.old) (O.written out.new)
        (left_so (W.told wire.new) (F.told files.new)) result }
    ensures sought { CommandEndsWithPlayedState (command_of (map string_bytes words.now))
        (outside (F.told files.old) (W.told wire.old) (C.readings clock.old)) (O.written out.old)
        (O.written out.new) result }
    ensures cheap { IsTrue F.reads_whole → CommandAsksFromCheckpoint (command_of (map string_bytes words.now))
        (F.told files.old) (F.told files.new) }
    ensures gives { LeavesFiles (IsVerdict (outside (F.told files.old) (W.told wire.old) (C.readings clock.old))
        (command_of (map string_bytes words.now))) (F.told files.old) (F.told files.new) result }
    ensures file_cause { FileCause (F.write_faults files.old) (F.write_faults files.new) result }
    ensures read_cause { ReadCause (F.faults files.old) (F.faults files.new) result }
    ensures write_cause { WriteCause (O.faults out.old) (O.faults out.new) result }
    ensures binds { W.bound wire.new ≡ true → MayBind (IsVerdict (outside (F.told files.old) (W.told wire.old)
        (C.readings clock.old)) (command_of (map string_bytes words.now))) }
    ensures unbound { W.bound wire.new ≡ false → clock.new ≡ clock.old }
    ensures wire_cause { WireCause (W.faults wire.old) (W.faults wire.new) result }
{
    q3_io::laws::texts_follow();
    match parse(words) {
        None => Err(Fault::Usage),
        Some(Command::Help) => print(HELP, out),
        Some(Command::Version) => print(VERSION, out),
        Some(Command::Replay { profile, script }) => replay(alloc, profile, script, files, out),
        Some(Command::Make(draws)) => make(alloc, draws, out),
        Some(Command::Trial { profile, draws }) => trial(alloc, profile, draws, files, out),
        Some(
            Command::Serve {
                profile,
                script,
                at,
            },
        ) => serve(alloc, profile, script, at, files, wire, clock, out),
        Some(
            Command::Join {
                profile,
                script,
                at,
                server,
            },
        ) => join(alloc, profile, script, at, server, files, wire, clock, out),
        Some(Command::Play { profile, demo }) => play(alloc, profile, demo, files, out),
        Some(
            Command::Index {
                profile,
                demo,
                index: name,
            },
        ) => index(alloc, profile, demo, name, files, out),
        Some(
            Command::Seek {
                profile,
                demo,
                index: name,
                records,
            },
        ) => seek(alloc, profile, demo, name, records, files, out),
    }
}

/// The status of a run, or of a start without one: then its fault line is printed.
pub(crate) fn settle<O: Sink>(started: Result<u8, Fault>, out: &mut O) -> u8
    ensures took { IfErr started (λ fault. Took (Err fault) (fault_line fault) (O.written out.old)
        (O.written out.new) result) }
    ensures nothing_more { OnOk started (O.written out.new ≡ O.written out.old) }
    ensures status { Settles started (O.faults out.old) (O.faults out.new) result }
{
    match started {
        Ok(status) => status,
        Err(fault) => end(Err(fault), out),
    }
}

/// Prints the fault line of a run that ended early, hands on all that waits, and answers the status.
fn end<O: Sink>(ended: Result<(), Fault>, out: &mut O) -> u8
    ensures took { Took ended (ending_line ended) (O.written out.old) (O.written out.new) result }
    ensures status { ((result ≡ ending_status ended) × (O.faults out.new ≡ O.faults out.old))
        ⊎ ((result ≡ 4) × (O.faults out.old ≤ O.faults out.new) × Rose (O.faults out.old) (O.faults out.new)) }
{
    if close(ended, out).is_err() {
        return Fault::Write.status();
    }
    match ended {
        Ok(()) => 0,
        Err(fault) => fault.status(),
    }
}

/// Prints the fault line, if any, and hands on all that waits.
fn close<O: Sink>(ended: Result<(), Fault>, out: &mut O) -> Result<(), Failed>
    ensures adds { Adds (O.written out.old) (O.written out.new) (ending_line ended) result }
    ensures flushed { IsOk result → NothingWaits (O.written out.new) }
    ensures cause { HasCause (O.faults out.old) (O.faults out.new) result }
{
    q3_io::laws::texts_follow();
    if let Err(fault) = ended {
        fault.print(out)?;
    }
    out.flush()
}

/// Prints a text of the program's own.
fn print<O: Sink>(text: &[u8], out: &mut O) -> Result<(), Fault>
    ensures prints { PrintsAll text.now (O.written out.old) (O.written out.new) result }
    ensures write_cause { WriteCause (O.faults out.old) (O.faults out.new) result }
{
    out.write_all(text).map_err(|_| Fault::Write)
}
