//! Keys of texts.

use q3_text::{Text, hash_key};
use std::process::Abort;
use std::test::*;

fn has_key(rt: &impl Abort, text: &[u8], key: u32) {
    let text = Text::of(text).expect(rt, "a text");
    assert_eq!(rt; hash_key(&text), key);
}

#[test]
fn keys_of_texts(rt: HostRuntime) {
    has_key(&rt, b"", 0);
    has_key(&rt, b"cs", 25_589);
    has_key(&rt, b"a%", 17_079);
    // only the first 32 bytes count
    has_key(&rt, b"aaaaaaaaaaaaaaaaaaaaaaaaaaaaaaaa", 417_607);
    has_key(&rt, b"aaaaaaaaaaaaaaaaaaaaaaaaaaaaaaaab", 417_607);
}
