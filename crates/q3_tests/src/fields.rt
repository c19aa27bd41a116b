//! Floats by the plain code.

use q3_bits::{Code, Reader, Writer};
use q3_fields::{Kind, read_player_field, small_of, write_player_field};
use std::alloc::Global;
use std::process::Abort;
use std::test::*;

/// A float has this small number, if any, is written as these bytes, and is read of them as this pattern.
fn goes(rt: &impl Abort, alloc: Global, word: u32, number: Option<i32>, bytes: &[u8], back: u32) {
    assert_eq!(rt; small_of(word), number);
    let code = Code::plain(alloc).expect(rt, "memory");
    let mut writer = Writer::new(&code, 8);
    assert_eq!(rt; write_player_field(&mut writer, Kind::Float, word), Ok(()));
    assert_eq!(rt; writer.bytes(), bytes);
    let mut reader = Reader::new(&code, bytes);
    assert_eq!(rt; read_player_field(&mut reader, Kind::Float), Ok(back));
}

#[test]
fn small_floats_go_in_13_bits(rt: HostRuntime) {
    let alloc = rt.alloc();
    goes(&rt, alloc, 0x3f80_0000, Some(1), &[0x02, 0x20], 0x3f80_0000);
    goes(&rt, alloc, 0xc580_0000, Some(-4096), &[0, 0], 0xc580_0000);
    let greatest = [0xfe, 0x3f];
    goes(&rt, alloc, 0x457f_f000, Some(4095), &greatest, 0x457f_f000);
    let in_full = [0x01, 0x00, 0x00, 0x8b, 0x00];
    goes(&rt, alloc, 0x4580_0000, None, &in_full, 0x4580_0000);
    goes(&rt, alloc, 0x8000_0000, Some(0), &[0x00, 0x20], 0);
}
