//! Wires and clocks, in memory and of the system.

ghost use Rattle.std.specs.Prelude.{◌≡◌, true};

use crate::fixtures::here;
use q3_io::{Clock, Failed, HostClock, UdpWire, Wire};
use q3_testio::{MemClock, MemWire};
use std::test::*;

#[test]
fn a_wire_in_memory_gives_what_it_was_told(rt: HostRuntime) {
    let mut wire = MemWire::new(rt.alloc(), 2, 1, 8, &[3]).expect(&rt, "memory");
    assert!(rt; wire.ready(here(1), b"abc"));
    assert!(rt; wire.not_ready());
    assert!(rt; !wire.not_ready());
    assert_eq!(rt; wire.bind(here(9)), Ok(()));
    let mut into = [0; 2];
    assert_eq!(rt; wire.receive(&mut into), Ok(Some((here(1), 2))));
    assert_eq!(rt; into, *b"ab");
    assert_eq!(rt; wire.receive(&mut into), Err(Failed));
    assert_eq!(rt; wire.receive(&mut into), Ok(None));
    assert_eq!(rt; wire.send(here(1), b"wxyz"), Ok(()));
    assert_eq!(rt; wire.send(here(1), b""), Err(Failed));
    assert!(rt;
        wire.sent(0)
            .is_some_and(|sent| sent.0 == here(1) && sent.1 == b"wxyz".as_slice())
    );
}

#[test]
fn a_clock_in_memory_gives_its_last_reading_again(rt: HostRuntime) {
    let mut clock = MemClock::new(rt.alloc(), &[3, 3, 7]).expect(&rt, "memory");
    let read = [clock.now(), clock.now(), clock.now(), clock.now()];
    assert_eq!(rt; read, [3, 3, 7, 7]);
}

/// Ports outside the range from which the system gives others.
const ONE: u16 = 21_968;

const OTHER: u16 = 21_969;

const NOBODYS: u16 = 21_970;

/// Whether forty receives, one after the other, find nothing.
fn nothing_comes<W: Wire>(wire: &mut W) -> bool
    requires { W.bound wire.old ≡ true }
    ensures { W.bound wire.new ≡ true }
{
    let mut into = [0; 2];
    for _ in 0..40 {
        if wire.receive(&mut into) != Ok(None) {
            return false;
        }
    }
    true
}

#[test]
fn sockets_of_the_system_send_and_receive(rt: HostRuntime) {
    let mut one = UdpWire::new(&rt);
    let mut other = UdpWire::new(&rt);
    let mut clock = HostClock::new(&rt);
    let mut into = [0; 2];
    assert_eq!(rt; one.bind(here(ONE)), Ok(()));
    assert_eq!(rt; other.bind(here(OTHER)), Ok(()));
    let first = clock.now();
    assert!(rt; nothing_comes(&mut other));
    // each of the forty waits a millisecond, and no second: a machine that stalls for some seconds passes
    let last = clock.now();
    assert!(rt; last > first);
    assert!(rt; last - first < 30_000);
    assert_eq!(rt; one.send(here(OTHER), b"abc"), Ok(()));
    assert_eq!(rt; other.receive(&mut into), Ok(Some((here(ONE), 2))));
    assert_eq!(rt; into, *b"ab");
    assert_eq!(rt; one.send(here(NOBODYS), b"abc"), Ok(()));
    assert_eq!(rt; one.receive(&mut into), Ok(None));
}

#[test]
fn a_port_that_is_taken_is_a_fault(rt: HostRuntime) {
    let mut one = UdpWire::new(&rt);
    let mut other = UdpWire::new(&rt);
    assert_eq!(rt; one.bind(here(NOBODYS + 1)), Ok(()));
    assert_eq!(rt; other.bind(here(NOBODYS + 1)), Err(Failed));
}
