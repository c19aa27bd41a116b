//! The objects in memory.

use q3_io::{Failed, Files, Sink};
use q3_testio::{MemFiles, MemSink};
use std::alloc::Global;
use std::process::Abort;
use std::test::*;

#[test]
fn what_fails_or_does_not_fit_is_not_written(rt: HostRuntime) {
    let mut sink = MemSink::new(rt.alloc(), 8, &[2]).expect(&rt, "memory");
    assert_eq!(rt; sink.write_all(b"first"), Ok(()));
    assert_eq!(rt; sink.write_all(b"two"), Err(Failed));
    assert_eq!(rt; sink.write_all(b"more"), Err(Failed));
    assert_eq!(rt; sink.write_all(b"end"), Ok(()));
    assert_eq!(rt; sink.bytes(), b"firstend".as_slice());
}

/// Files of which one, `map`, is there.
fn with_map(rt: &impl Abort, alloc: Global) -> MemFiles {
    let mut files = MemFiles::new(alloc, 2, 64, 2, &[]).expect(rt, "memory");
    assert!(rt; files.store("map", b"01234"));
    files
}

/// Makes the file `log` with these bytes in it.
fn write_log(files: &mut impl Files, bytes: &[u8]) -> Result<(), Failed> {
    let log = files.create("log")?;
    files.append(log, bytes)
}

/// What is read of the file `map` from this place on, up to four bytes.
fn read_map(files: &mut impl Files, at: u64) -> Result<[u8; 4], Failed> {
    let map = files.lookup("map")?;
    let mut into = [0; 4];
    files.read_at(map, at, &mut into)?;
    Ok(into)
}

/// The file `log` has these bytes.
fn has_written(rt: &impl Abort, files: &MemFiles, bytes: &[u8]) {
    assert_eq!(rt; files.contents("log"), Some(bytes));
}

#[test]
fn files_in_memory_are_written_and_read(rt: HostRuntime) {
    let mut files = with_map(&rt, rt.alloc());
    assert_eq!(rt; write_log(&mut files, b"one two"), Ok(()));
    has_written(&rt, &files, b"one two");
    assert_eq!(rt; read_map(&mut files, 3), Ok(*b"34\0\0"));
}
