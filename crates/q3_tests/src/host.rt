//! The files of the system. A test runs in a folder of its own.

use q3_io::{Failed, Files, HostFiles};
use std::process::Abort;
use std::test::*;

/// Makes the file `log` and puts bytes one after another into it. Answers whether it can't be read under this number.
fn write_log(files: &mut impl Files) -> Result<bool, Failed> {
    let log = files.create("log")?;
    files.append(log, b"one ")?;
    files.append(log, b"two")?;
    let unread = files.read_at(log, 0, &mut [0; 4]).is_err();
    files.append(log, b"!")?;
    Ok(unread)
}

/// Up to four bytes of the file `log` from a place on, and how many there are.
fn read_log(files: &mut impl Files, at: u64) -> Result<([u8; 4], usize), Failed> {
    let log = files.lookup("log")?;
    let mut into = [0; 4];
    files.read_at(log, at, &mut into)?;
    // the same place once more
    let count = files.read_at(log, at, &mut into)?;
    Ok((into, count))
}

/// The file `log` gets each number from this one to 31, and no other.
fn numbers_end_at_32(rt: &impl Abort, files: &mut impl Files, first: usize) {
    for number in first..32 {
        assert_eq!(rt; files.lookup("log"), Ok(number));
    }
    assert_eq!(rt; files.lookup("log"), Err(Failed));
}

#[test]
fn files_of_the_system_are_written_and_read(rt: HostRuntime) {
    let mut files = HostFiles::new(rt.alloc(), &rt).expect(&rt, "memory");
    assert_eq!(rt; write_log(&mut files), Ok(true));
    assert_eq!(rt; read_log(&mut files, 4), Ok((*b"two!", 4)));
    assert_eq!(rt; read_log(&mut files, 8), Ok(([0; 4], 0)));
    numbers_end_at_32(&rt, &mut files, 3);
}

/// How many bytes a new file `long` has once these were put into it.
fn size_of_new(files: &mut impl Files, bytes: &[u8]) -> Result<u64, Failed> {
    let file = files.create("long")?;
    files.append(file, bytes)?;
    let file = files.lookup("long")?;
    files.size(file)
}

/// What is read of the file `long` where no file ends.
fn read_far_past_the_end(files: &mut impl Files) -> Result<usize, Failed> {
    let file = files.lookup("long")?;
    files.read_at(file, u64::MAX, &mut [0; 4])
}

#[test]
fn a_long_file_of_the_system(rt: HostRuntime) {
    let long = vec![in rt.alloc(); b'.'; 2_000].expect(&rt, "memory");
    let mut files = HostFiles::new(rt.alloc(), &rt).expect(&rt, "memory");
    assert_eq!(rt; size_of_new(&mut files, &long), Ok(2_000));
    assert_eq!(rt; read_far_past_the_end(&mut files), Err(Failed));
}

/// Whether bytes are put into a file of this name.
fn takes_bytes(files: &mut impl Files, name: &str) -> Result<bool, Failed> {
    let file = files.create(name)?;
    Ok(files.append(file, b"lost").is_ok())
}

/// Whether a file of this name is read.
fn gives_bytes(files: &mut impl Files, name: &str) -> Result<bool, Failed> {
    let file = files.lookup(name)?;
    Ok(files.read_at(file, 0, &mut [0; 4]).is_ok())
}

#[test]
fn faults_of_the_system_are_told(rt: HostRuntime) {
    let mut files = HostFiles::new(rt.alloc(), &rt).expect(&rt, "memory");
    assert_eq!(rt; gives_bytes(&mut files, "."), Err(Failed));
    assert_eq!(rt; takes_bytes(&mut files, "/dev/full"), Ok(false));
    assert_eq!(rt; gives_bytes(&mut files, "/proc/self/mem"), Ok(false));
}
