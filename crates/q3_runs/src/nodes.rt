//! A server, and a client, over a wire.

ghost use Rattle.std.specs.Prelude.{◌≡◌, true, false};
ghost use Rattle.q3_runs.specs.Faults.{ReadCause, WriteCause, FileCause, WireCause};
ghost use Rattle.q3_runs.specs.Verdict.{outside, IsServeVerdict, IsJoinVerdict};
ghost use Rattle.q3_runs.specs.Run.{left_so, ExecutesWired, LeavesFiles, MayBind};

use crate::fault::Fault;
use crate::input::{load_events, load_profile};
use q3_io::{Address, Clock, Files, Sink, Wire};
use q3_node::laws::server_is_frugal;
use q3_node::{join_loop, serve_loop};
use q3_script::ScriptKind;
use std::alloc::Global;

/// Is a server at an address, by the profile and the script of these names, and prints its lines.
pub fn serve<F: Files, W: Wire, C: Clock, O: Sink>(
    alloc: Global,
    profile: &str,
    script: &str,
    at: Address,
    files: &mut F,
    wire: &mut W,
    clock: &mut C,
    out: &mut O,
) -> Result<(), Fault>
    requires unbound { W.bound wire.old ≡ false }
    ensures executes { ExecutesWired (IsServeVerdict (outside (F.told files.old) (W.told wire.old) (C.readings clock.old))
        profile.now script.now at) (outside (F.told files.old) (W.told wire.old) (C.readings clock.old))
        (O.written out.old) (O.written out.new) (left_so (W.told wire.new) (F.told files.new)) result }
    ensures gives { LeavesFiles (IsServeVerdict (outside (F.told files.old) (W.told wire.old) (C.readings clock.old))
        profile.now script.now at) (F.told files.old) (F.told files.new) result }
    ensures binds { W.bound wire.new ≡ true → MayBind (IsServeVerdict
        (outside (F.told files.old) (W.told wire.old) (C.readings clock.old)) profile.now script.now at) }
    ensures unbound { W.bound wire.new ≡ false → clock.new ≡ clock.old }
    ensures writes { F.write_faults files.new ≡ F.write_faults files.old }
    ensures file_cause { FileCause (F.write_faults files.old) (F.write_faults files.new) result }
    ensures read_cause { ReadCause (F.faults files.old) (F.faults files.new) result }
    ensures write_cause { WriteCause (O.faults out.old) (O.faults out.new) result }
    ensures wire_cause { WireCause (W.faults wire.old) (W.faults wire.new) result }
{
    q3_io::laws::texts_follow();
    let profile = load_profile(alloc, profile, files)?;
    let events = load_events(alloc, ScriptKind::Serve, script, files)?;
    server_is_frugal();
    serve_loop(alloc, &profile, &events, at, wire, clock, out)?;
    Ok(())
}

/// Is a client at an address, of the server at another, likewise, and writes what it records.
pub fn join<F: Files, W: Wire, C: Clock, O: Sink>(
    alloc: Global,
    profile: &str,
    script: &str,
    at: Address,
    server: Address,
    files: &mut F,
    wire: &mut W,
    clock: &mut C,
    out: &mut O,
) -> Result<(), Fault>
    requires unbound { W.bound wire.old ≡ false }
    ensures executes { ExecutesWired (IsJoinVerdict (outside (F.told files.old) (W.told wire.old) (C.readings clock.old))
        profile.now script.now at server) (outside (F.told files.old) (W.told wire.old) (C.readings clock.old))
        (O.written out.old) (O.written out.new) (left_so (W.told wire.new) (F.told files.new)) result }
    ensures gives { LeavesFiles (IsJoinVerdict (outside (F.told files.old) (W.told wire.old) (C.readings clock.old))
        profile.now script.now at server) (F.told files.old) (F.told files.new) result }
    ensures binds { W.bound wire.new ≡ true → MayBind (IsJoinVerdict
        (outside (F.told files.old) (W.told wire.old) (C.readings clock.old)) profile.now script.now at server) }
    ensures unbound { W.bound wire.new ≡ false → clock.new ≡ clock.old }
    ensures file_cause { FileCause (F.write_faults files.old) (F.write_faults files.new) result }
    ensures read_cause { ReadCause (F.faults files.old) (F.faults files.new) result }
    ensures write_cause { WriteCause (O.faults out.old) (O.faults out.new) result }
    ensures wire_cause { WireCause (W.faults wire.old) (W.faults wire.new) result }
{
    q3_io::laws::texts_follow();
    let profile = load_profile(alloc, profile, files)?;
    let events = load_events(alloc, ScriptKind::Join, script, files)?;
    join_loop(
        alloc, &profile, &events, at, server, files, wire, clock, out,
    )?;
    Ok(())
}
