//! A server over a wire, a clock and a sink in memory.

ghost use Rattle.std.specs.Prelude.{◌≡◌, false};

use crate::profiles::plain_profile;
use q3_io::{Address, Clock, Sink, Wire};
use q3_node::{NodeError, serve_loop};
use q3_script::{ScriptKind, read_script};
use q3_testio::{MemClock, MemSink, MemWire};
use std::alloc::Global;
use std::process::Abort;
use std::test::*;

/// Runs a server by a script.
fn serve<W: Wire, C: Clock, O: Sink>(
    rt: &impl Abort,
    alloc: Global,
    script: &[u8],
    wire: &mut W,
    clock: &mut C,
    out: &mut O,
) -> Result<(), NodeError>
    requires { W.bound wire.old ≡ false }
{
    let profile = plain_profile(rt, alloc);
    let events = read_script(alloc, ScriptKind::Serve, script).expect(rt, "a script");
    let at = Address {
        host: 0x7f00_0001,
        port: 27_960,
    };
    serve_loop(alloc, &profile, &events, at, wire, clock, out)
}

const ALONE: &[u8] = b"client 0 17 5000 1 10.0.0.1:27960\nserve 0\nend 5\n";

/// The `end` is due five milliseconds after the first reading; nothing arrives.
#[test]
fn a_server_sends_to_its_client(rt: HostRuntime) {
    let mut wire = MemWire::new(rt.alloc(), 0, 2, 64, &[]).expect(&rt, "memory");
    let mut out = MemSink::new(rt.alloc(), 256, &[]).expect(&rt, "memory");
    let mut clock = MemClock::new(rt.alloc(), &[7, 7, 7, 11, 12]).expect(&rt, "memory");
    let ended = serve(&rt, rt.alloc(), ALONE, &mut wire, &mut clock, &mut out);
    assert_eq!(rt; ended, Ok(()));
    let client = Address {
        host: 0x0a00_0001,
        port: 27_960,
    };
    assert!(rt;
        wire.sent(0)
            .is_some_and(|sent| sent.0 == client && sent.1.len() == 20)
    );
    assert!(rt; wire.sent(1).is_none());
    assert_eq!(rt;
        out.bytes(),
        b"client 0 ok\nserve 0 snapshot 1 base 0 bytes 16 datagram 1\n".as_slice()
    );
}

/// The second call of the wire is the first `send`.
#[test]
fn a_wire_that_fails_ends_a_server(rt: HostRuntime) {
    let mut wire = MemWire::new(rt.alloc(), 0, 2, 64, &[2]).expect(&rt, "memory");
    let mut out = MemSink::new(rt.alloc(), 256, &[]).expect(&rt, "memory");
    let mut clock = MemClock::new(rt.alloc(), &[0]).expect(&rt, "memory");
    let ended = serve(&rt, rt.alloc(), ALONE, &mut wire, &mut clock, &mut out);
    assert_eq!(rt; ended, Err(NodeError::WireFault));
    assert!(rt; wire.sent(0).is_none());
    assert_eq!(rt; out.bytes(), b"client 0 ok\n".as_slice());
}

#[test]
fn a_sink_that_fails_ends_a_server(rt: HostRuntime) {
    let mut wire = MemWire::new(rt.alloc(), 0, 2, 64, &[]).expect(&rt, "memory");
    let mut out = MemSink::new(rt.alloc(), 256, &[2]).expect(&rt, "memory");
    let mut clock = MemClock::new(rt.alloc(), &[0]).expect(&rt, "memory");
    let ended = serve(&rt, rt.alloc(), ALONE, &mut wire, &mut clock, &mut out);
    assert_eq!(rt; ended, Err(NodeError::WriteFault));
    assert!(rt; wire.sent(0).is_none());
}

#[test]
fn a_clock_that_stands_still_spends_the_turns(rt: HostRuntime) {
    let mut wire = MemWire::new(rt.alloc(), 0, 0, 0, &[]).expect(&rt, "memory");
    let mut out = MemSink::new(rt.alloc(), 0, &[]).expect(&rt, "memory");
    let mut clock = MemClock::new(rt.alloc(), &[4]).expect(&rt, "memory");
    let ended = serve(&rt, rt.alloc(), b"end 1\n", &mut wire, &mut clock, &mut out);
    assert_eq!(rt; ended, Err(NodeError::Turns));
}
