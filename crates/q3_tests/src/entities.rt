//! Changes of entity 5, by the plain code and field widths 0, 8 and -16.

use crate::fixtures::entity;
use q3_bits::{Code, Reader, Writer};
use q3_entity::{Baselines, EntityError, List, Run, read_list, write_entity};
use q3_fields::Table;
use std::alloc::Global;
use std::process::Abort;
use std::test::*;

/// What is written where field 1 of entity 5 changes from zero to this word, or, by force, also where it doesn't.
fn writes(rt: &impl Abort, alloc: Global, word: u32, force: bool, bytes: &[u8]) {
    let code = Code::plain(alloc).expect(rt, "memory");
    let table = Table::of(&[0, 8, -16]).expect(rt, "a table");
    let mut writer = Writer::new(&code, 8);
    let (from, to) = (entity(0), entity(word));
    assert_eq!(rt;
        write_entity(&mut writer, &table, &from, &to, force),
        Ok(())
    );
    assert_eq!(rt; writer.bytes(), bytes);
}

/// Reads a list of entities that are all new.
fn read(rt: &impl Abort, alloc: Global, bytes: &[u8], into: &mut List) -> Result<(), EntityError> {
    let code = Code::plain(alloc).expect(rt, "memory");
    let table = Table::of(&[0, 8, -16]).expect(rt, "a table");
    let baselines = Baselines::new(alloc).expect(rt, "memory");
    let none = Run {
        head: &[],
        tail: &[],
    };
    let mut reader = Reader::new(&code, bytes);
    read_list(&mut reader, &table, &baselines, none, into)
}

/// A list is read as entity 5 alone, whose field 1 is 7.
fn reads_seven(rt: &impl Abort, alloc: Global, bytes: &[u8]) {
    let mut into = List::new();
    assert_eq!(rt; read(rt, alloc, bytes, &mut into), Ok(()));
    assert_eq!(rt; into.as_slice(), [entity(7)].as_slice());
}

#[test]
fn entity_without_change_and_with_one(rt: HostRuntime) {
    let alloc = rt.alloc();
    writes(&rt, alloc, 0, false, &[0x00]);
    writes(&rt, alloc, 0, true, &[0x05, 0x00]);
    writes(&rt, alloc, 7, false, &[0x05, 0x28, 0xe0, 0x03]);
}

#[test]
fn count_of_fields_may_be_larger(rt: HostRuntime) {
    let alloc = rt.alloc();
    reads_seven(&rt, alloc, &[0x05, 0x28, 0xe0, 0x83, 0xff, 0x01]);
    reads_seven(&rt, alloc, &[0x05, 0x38, 0xe0, 0x03, 0xff, 0x03]);
    let too_large = read(&rt, alloc, &[0x05, 0x48, 0x00], &mut List::new());
    assert_eq!(rt; too_large, Err(EntityError::Count(4)));
}
