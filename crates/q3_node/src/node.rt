//! A server's loop, and a client's.

ghost use Rattle.std.specs.Prelude.{◌≡◌, ◌≤◌, ℕ, None, false, length, All, Some, IsErrOf, IfErr, is_ok};
ghost use Rattle.q3_profile.specs.Profile.{IsProfile};
ghost use Rattle.q3_script.specs.declared.cause.ScriptKind.TheVariants as kinds;
ghost use Rattle.q3_script.specs.Grammar.{IsEventOf, IsInRange, IsOneClient};
ghost use Rattle.q3_script.specs.Script.{most_events};
ghost use Rattle.q3_server.specs.Server.{places, new_server};
ghost use Rattle.q3_node.specs.Node.{new_node};
ghost use Rattle.q3_node.specs.AtServer.{server_rules};
ghost use Rattle.q3_node.specs.AtClient.{ClientEnd as EndValue, client_rules, client_of};
ghost use Rattle.q3_node.specs.Running.{effects, BindsAt, RanBound, StaysFlushed, WireCause, WriteCause, FileCause};

use crate::client::ClientEnd;
use crate::end::End;
use crate::error::NodeError;
use crate::server::ServerEnd;
use crate::turns::{RECEIVE_ROOM, run_turns};
use q3_ends::NullFiles;
use q3_io::{Address, Clock, Failed, Files, Sink, Wire};
use q3_profile::Profile;
use q3_script::Event;
use q3_script::laws::events_are_in_range;
use std::alloc::Global;

/// Runs a server by the lines of its script, each when it is due, in milliseconds since the first reading of the clock; what
/// arrives meanwhile is taken. The wire is bound to `at` once, after memory was taken and before the first reading. Each turn
/// takes one reading and does one thing, and its lines are handed on at once. `Ok` comes where `end` was done.
pub fn serve_loop<W: Wire, C: Clock, O: Sink>(
    alloc: Global,
    profile: &Profile,
    events: &[Event],
    at: Address,
    wire: &mut W,
    clock: &mut C,
    out: &mut O,
) -> Result<(), NodeError>
    requires profile { IsProfile profile.now }
    requires events { All (IsEventOf kinds.Serve) events.now }
    requires few { length events.now ≤ most_events }
    requires unbound { W.bound wire.old ≡ false }
    ensures ran { RanBound (W.bound wire.new) server_rules (new_node (new_server profile.now places) events.now) at
        (C.readings clock.old) (C.readings clock.new)
        (effects (O.written out.old) (W.told wire.old) None)
        (effects (O.written out.new) (W.told wire.new) None) result }
    ensures unbound { W.bound wire.new ≡ false → (clock.new ≡ clock.old) × (out.new ≡ out.old) }
    ensures flushed { StaysFlushed (O.written out.old) (O.written out.new) result }
    ensures wire_cause { WireCause (W.faults wire.old) (W.faults wire.new) result }
    ensures write_cause { WriteCause (O.faults out.old) (O.faults out.new) result }
    ensures file_cause { (faults : ℕ) → FileCause faults faults result }
    // No memory is wanted once the address is bound.
    ensures no_memory { IsErrOf result NodeError.NoMemory → wire.new ≡ wire.old }
{
    events_are_in_range();
    let mut end = ServerEnd::new(alloc, profile)?;
    run(
        alloc,
        &mut end,
        events,
        at,
        &mut NullFiles,
        wire,
        clock,
        out,
    )
}

/// Runs a client of the server at `server`, likewise. The client is that of the first line. An arrival from another address isn't
/// taken. What it records is written to `files`, of which no number is taken back; memory may be wanted at a line `record` too.
pub fn join_loop<F: Files, W: Wire, C: Clock, O: Sink>(
    alloc: Global,
    profile: &Profile,
    events: &[Event],
    at: Address,
    server: Address,
    files: &mut F,
    wire: &mut W,
    clock: &mut C,
    out: &mut O,
) -> Result<(), NodeError>
    requires profile { IsProfile profile.now }
    requires events { All (IsEventOf kinds.Join) events.now }
    requires client { IsOneClient events.now }
    requires few { length events.now ≤ most_events }
    requires unbound { W.bound wire.old ≡ false }
    ensures ran { (end : EndValue) → client_of profile.now server events.now ≡ Some end
        → RanBound (W.bound wire.new) client_rules (new_node end events.now) at (C.readings clock.old)
        (C.readings clock.new)
        (effects (O.written out.old) (W.told wire.old) (F.told files.old))
        (effects (O.written out.new) (W.told wire.new) (F.told files.new)) result }
    ensures unbound { W.bound wire.new ≡ false → (clock.new ≡ clock.old) × (out.new ≡ out.old) }
    ensures flushed { StaysFlushed (O.written out.old) (O.written out.new) result }
    ensures wire_cause { WireCause (W.faults wire.old) (W.faults wire.new) result }
    ensures write_cause { WriteCause (O.faults out.old) (O.faults out.new) result }
    ensures file_cause { FileCause (F.write_faults files.old) (F.write_faults files.new) result }
    ensures reads { F.faults files.new ≡ F.faults files.old }
    ensures numbers { F.given files.old ≤ F.given files.new }
    ensures no_memory { IsErrOf result NodeError.NoMemory → W.bound wire.new ≡ false → wire.new ≡ wire.old }
{
    events_are_in_range();
    let mut end = ClientEnd::of_script(alloc, profile, events, server)?;
    run(alloc, &mut end, events, at, files, wire, clock, out)
}

/// Takes room for arrivals, binds the wire, and runs the node of an end that records nothing yet.
fn run<E: End, F: Files, W: Wire, C: Clock, O: Sink>(
    alloc: Global,
    end: &mut E,
    events: &[Event],
    at: Address,
    files: &mut F,
    wire: &mut W,
    clock: &mut C,
    out: &mut O,
) -> Result<(), NodeError>
    requires lines { All IsInRange events.now }
    requires few { length events.now ≤ most_events }
    requires unbound { W.bound wire.old ≡ false }
    requires none { E.records end.old ≡ None }
    ensures ran { RanBound (W.bound wire.new) E.rules (new_node end.old events.now) at (C.readings clock.old)
        (C.readings clock.new)
        (effects (O.written out.old) (W.told wire.old) (F.told files.old))
        (effects (O.written out.new) (W.told wire.new) (F.told files.new)) result }
    ensures unbound { W.bound wire.new ≡ false → (clock.new ≡ clock.old) × (out.new ≡ out.old) }
    ensures flushed { StaysFlushed (O.written out.old) (O.written out.new) result }
    ensures wire_cause { WireCause (W.faults wire.old) (W.faults wire.new) result }
    ensures write_cause { WriteCause (O.faults out.old) (O.faults out.new) result }
    ensures file_cause { FileCause (F.write_faults files.old) (F.write_faults files.new) result }
    ensures reads { F.faults files.new ≡ F.faults files.old }
    ensures numbers { F.given files.old ≤ F.given files.new }
    ensures no_memory { IsErrOf result NodeError.NoMemory → W.bound wire.new ≡ false → wire.new ≡ wire.old }
{
    let mut buffer = vec![in alloc; 0; RECEIVE_ROOM]?;
    bind(at, wire)?;
    run_turns(alloc, end, events, &mut buffer, files, wire, clock, out)
}

/// Binds the wire to an address.
#[tactic(auto, using(crate::proofs::Parts::bound_so, crate::proofs::Parts::unbound_so))]
fn bind<W: Wire>(at: Address, wire: &mut W) -> Result<(), NodeError>
    requires unbound { W.bound wire.old ≡ false }
    ensures bound { W.bound wire.new ≡ is_ok result }
    ensures only { IfErr result (λ e. e ≡ NodeError.WireFault) }
    ensures told { BindsAt (W.told wire.old) (W.told wire.new) at result }
    ensures cause { WireCause (W.faults wire.old) (W.faults wire.new) result }
{
    match wire.bind(at) {
        Ok(()) => Ok(()),
        Err(Failed) => Err(NodeError::WireFault),
    }
}
