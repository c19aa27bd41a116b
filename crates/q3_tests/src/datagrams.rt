//! Messages that are cut into datagrams, and datagrams that are put together, with bytes worked by hand.

ghost use Rattle.std.specs.Prelude.{◌≡◌, length};

use crate::fixtures::datagram;
use q3_chan::{Datagram, Gathered, Gatherer, SEQUENCE_END, Sender, Side};
use std::alloc::Global;
use std::process::Abort;
use std::test::*;

/// A message of so many bytes is sent as so many datagrams, the last of which begins so and has so many bytes.
fn cuts(rt: &impl Abort, alloc: Global, length: usize, count: usize, begins: &[u8], bytes: usize) {
    assert!(rt; 1 <= length && length <= 16_384);
    let message = vec![in alloc; 9; length].expect(rt, "memory");
    let mut sender = Sender::new(alloc, Side::Server, 0).expect(rt, "memory");
    let mut last = Datagram::new();
    assert!(rt; sender.idle() && sender.number() < SEQUENCE_END - 1);
    sender.start(&message);
    for _ in 0..count {
        assert!(rt; !sender.idle());
        sender.next(&mut last);
    }
    assert!(rt; sender.idle());
    assert!(rt; last.as_slice().starts_with(begins));
    assert_eq!(rt; last.len(), bytes);
}

#[test]
fn messages_are_cut(rt: HostRuntime) {
    let alloc = rt.alloc();
    cuts(&rt, alloc, 1_299, 1, &[1, 0, 0, 0, 9], 1_303);
    cuts(&rt, alloc, 1_300, 2, &[1, 0, 0, 0x80, 0x14, 0x05, 0, 0], 8);
    cuts(&rt, alloc, 2_600, 3, &[1, 0, 0, 0x80, 0x28, 0x0a, 0, 0], 8);
    let thirteenth = [1, 0, 0, 0x80, 0xf0, 0x3c, 0x10, 0x03];
    cuts(&rt, alloc, 16_384, 13, &thirteenth, 792);
}

/// Room for the longest message.
fn longest(rt: &impl Abort, alloc: Global) -> Vec<u8>
    ensures { length result.items ≡ 16384 }
{
    vec![in alloc; 0; 16_384].expect(rt, "memory")
}

/// Datagrams that a client takes one after the other: their first bytes, how many more there are, and what each is.
fn pieces() -> [(&'static [u8], usize, Gathered); 9] {
    let first_of_7: &[u8] = &[7, 0, 0, 0x80, 0, 0, 0x14, 0x05];
    let second_of_7: &[u8] = &[7, 0, 0, 0x80, 0x14, 0x05, 0xc8, 0];
    let first_of_8: &[u8] = &[8, 0, 0, 0x80, 0, 0, 0x14, 0x05];
    let second_of_8: &[u8] = &[8, 0, 0, 0x80, 0x14, 0x05, 0xc8, 0];
    let whole = |number, length| Gathered::Whole { number, length };
    [
        (&[6, 0, 0, 0], 3, whole(6, 3)),
        (first_of_7, 1_300, Gathered::Partial),
        (first_of_8, 1_300, Gathered::Partial),
        (second_of_7, 200, Gathered::OutOfOrder),
        (second_of_8, 200, Gathered::OutOfOrder),
        (first_of_8, 1_300, Gathered::Partial),
        (second_of_8, 200, whole(8, 1_500)),
        (second_of_8, 200, Gathered::Old),
        (first_of_7, 1_300, Gathered::Old),
    ]
}

#[test]
fn pieces_out_of_order(rt: HostRuntime) {
    let alloc = rt.alloc();
    let mut gatherer = Gatherer::new(alloc, Side::Server).expect(&rt, "memory");
    let mut memory = longest(&rt, alloc);
    let into = memory.as_mut_slice();
    for (begins, more, wanted) in pieces() {
        let bytes = datagram(alloc, begins, more).expect(&rt, "memory");
        assert_eq!(rt; gatherer.take(&bytes, into), wanted, "at {begins:?}");
    }
}
