//! Standard output.

use q3_io::{Failed, HostSink, NullSink, Sink};
use std::cell::Cell;
use std::fmt::Display;
use std::io;
use std::test::*;

/// Stands for standard output: it keeps the last write, of four bytes, and fails at each other one.
#[derive(Drop)]
struct Paper {
    word: Cell<[u8; 4]>,
}

impl Print for Paper {
    fn print<D: Display + Drop>(&self, _value: D) -> io::Result<()> {
        Err(io::Error::from(io::ErrorKind::Unsupported))
    }

    fn println<D: Display + Drop>(&self, _value: D) -> io::Result<()> {
        Err(io::Error::from(io::ErrorKind::Unsupported))
    }

    fn write_all(&self, bytes: &[u8]) -> io::Result<()> {
        match <[u8; 4]>::try_from(bytes) {
            Ok(word) => {
                self.word.set(word);
                Ok(())
            }
            Err(_) => Err(io::Error::from(io::ErrorKind::StorageFull)),
        }
    }
}

/// Each write goes out at once and as it is, and one that fails is told.
#[test]
fn standard_output_takes_bytes(rt: HostRuntime) {
    let paper = Paper {
        word: Cell::new(*b"none"),
    };
    let mut sink = HostSink::new(&paper);
    assert_eq!(rt; sink.write_all(b"one\n"), Ok(()));
    assert_eq!(rt; paper.word.get(), *b"one\n");
    assert_eq!(rt; sink.write_all(b"\x00\xff\"\\"), Ok(()));
    assert_eq!(rt; paper.word.get(), *b"\x00\xff\"\\");
    assert_eq!(rt; sink.flush(), Ok(()));
    assert_eq!(rt; sink.write_all(b"three"), Err(Failed));
    assert_eq!(rt; paper.word.get(), *b"\x00\xff\"\\");
    assert_eq!(rt; HostSink::new(&rt).write_all(b""), Ok(()));
    assert_eq!(rt; NullSink.write_all(b"any bytes"), Ok(()));
}
