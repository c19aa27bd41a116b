//! A profile that is read of a file, and its mark, a number over the file's bytes.

ghost use Rattle.q3_profile.specs.Profile.{IsProfile};

use q3_profile::{Profile, read_profile};
use std::alloc::{AllocError, Global};
use std::process::Abort;
use std::test::*;

/// The lines of a profile but for its code.
fn front() -> &'static str {
    "protocol = 68\nserver_ring = 262144\nparse_ring = 65536\nentity = [0, 32, -24]\nplayer = [8]\ncode = ["
}

/// Adds the eight bits of a byte as a text, least first.
fn add_word(text: &mut String, byte: u32) -> Result<(), AllocError> {
    text.push_str("\"")?;
    for bit in 0..8u32 {
        text.push(if byte >> bit & 1 == 1 { '1' } else { '0' })?;
    }
    text.push_str("\", ")
}

/// A profile with the plain code, and with a key that is passed over.
pub(crate) fn text_of_profile(alloc: Global) -> Result<String, AllocError> {
    let mut text = String::from_str(alloc, front())?;
    for byte in 0..256 {
        add_word(&mut text, byte)?;
    }
    text.push_str("]\nother = 1\n")?;
    Ok(text)
}

/// The profile that is read of that text.
pub(crate) fn plain_profile(rt: &impl Abort, alloc: Global) -> Profile
    ensures { IsProfile result }
{
    let text = text_of_profile(alloc).expect(rt, "memory");
    read_profile(alloc, text.as_bytes()).expect(rt, "a profile")
}

/// The mark of a copy of it.
fn mark_of_copy(rt: &impl Abort, alloc: Global) -> u64 {
    let copy = plain_profile(rt, alloc).copy().expect(rt, "memory");
    copy.mark
}

#[test]
fn mark_of_a_profile(rt: HostRuntime) {
    assert_eq!(rt; mark_of_copy(&rt, rt.alloc()), 0x1614_8384_62d3_c0d6);
}
