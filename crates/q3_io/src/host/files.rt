//! Files of the system.

ghost use Rattle.std.specs.Prelude.{◌≡◌, ◌+◌, ◌≤◌, false, None, IfOk, IsErr, length, vec_len};
ghost use Rattle.q3_io.specs.Faults.{HasCause};
ghost use Rattle.q3_io.specs.HostCounts.{most_files};
ghost use Rattle.q3_io.specs.Told.{IsGiven, LooksUp, Creates};

use super::counted;
use crate::NoMemory;
use crate::files::Files;
use crate::sink::Failed;
use std::alloc::Global;
use std::fs;
use std::fs::{Metadata, OpenFile, OpenOptions};
use std::io::{Read, Seek, SeekFrom, Write};
use std::marker::Model;
use std::os::unix::fs::MetadataExt;

/// How many files there may be at most: a lookup or a create beyond is a fault.
const MOST_FILES: usize = 32;

/// What a file is opened for.
#[derive(Clone, Copy, PartialEq, Eq)]
enum Purpose {
    Reading,
    Writing,
}

/// An open file. One for writing stands after what was written to it and isn't read; of one for reading it is kept
/// where it stands, as far as that is known.
#[derive(Drop)]
struct OpenedFile<F> {
    file: F,
    purpose: Purpose,
    place: Option<u64>,
}

/// Files of the system by their paths, relative to the folder that the program was started in.
/// A file that was created is written alone: to read it, look it up. One that is read isn't created anew, under whatever name: it would
/// lose its bytes.
#[derive(Drop)]
pub struct HostFiles<R: std::rt::Files> {
    rt: R,
    files: Vec<OpenedFile<R::File>>,
    faults: u64,
    write_faults: u64,
}

impl<R: std::rt::Files> Model for HostFiles<R> {
    ghost use Rattle.std.specs.Prelude.{vec_len};
    ghost use Rattle.q3_io.specs.HostCounts.{HostCounts};

    ghost Value = { HostCounts };

    ghost view = { λ h. record { given = vec_len h.files; faults = h.faults; write_faults = h.write_faults } };
}

impl<R: std::rt::Files> HostFiles<R> {
    /// No file is open yet, and nothing failed.
    pub fn new(alloc: Global, rt: R) -> Result<HostFiles<R>, NoMemory>
    where
        R: Drop,
        ensures { IfOk result (λ host. host ≡ record { given = 0; faults = 0; write_faults = 0 }) }
    {
        Ok(HostFiles {
            files: Vec::with_capacity(alloc, MOST_FILES)?,
            rt,
            faults: 0,
            write_faults: 0,
        })
    }
}

/// Opens one more file for reading, or creates an empty one for writing, unless there are as many as there may be.
/// A folder is refused, and so is a file for writing that is read.
fn keep<R: std::rt::Files>(
    rt: &R,
    files: &mut Vec<OpenedFile<R::File>>,
    name: &str,
    purpose: Purpose,
) -> Result<usize, Failed>
    ensures given { IsGiven (vec_len files.old) (vec_len files.new) result }
    ensures next { IfOk result (λ file. (file ≡ vec_len files.old) × (vec_len files.new ≡ file + 1)) }
    ensures most { most_files ≤ vec_len files.old → IsErr result }
{
    let number = files.len();
    if number >= MOST_FILES {
        return Err(Failed);
    }
    let file = match purpose {
        Purpose::Reading => open(rt, name)?,
        Purpose::Writing => create(rt, files, name)?,
    };
    let place = Some(0);
    match files.push(OpenedFile {
        file,
        purpose,
        place,
    }) {
        Ok(()) => Ok(number),
        Err(_) => Err(Failed),
    }
}

/// Opens a file for reading. A folder is refused.
fn open<R: std::rt::Files>(rt: &R, name: &str) -> Result<R::File, Failed> {
    let Ok(file) = fs::open(rt, name) else {
        return Err(Failed);
    };
    match file.metadata() {
        Ok(metadata) if !metadata.is_dir() => Ok(file),
        _ => Err(Failed),
    }
}

/// Creates an empty file for writing, also where there was one. One that is read is refused, and keeps its bytes.
fn create<R: std::rt::Files>(
    rt: &R,
    files: &[OpenedFile<R::File>],
    name: &str,
) -> Result<R::File, Failed> {
    let Ok(file) = OpenOptions::new().write(true).create(true).open(rt, name) else {
        return Err(Failed);
    };
    let Ok(metadata) = file.metadata() else {
        return Err(Failed);
    };
    if metadata.is_file() && (may_be_read(files, &metadata) || file.set_len(0).is_err()) {
        return Err(Failed);
    }
    Ok(file)
}

/// Whether a file may be one of those that are read.
fn may_be_read<F: OpenFile>(files: &[OpenedFile<F>], metadata: &Metadata) -> bool {
    for opened in files {
        if opened.purpose == Purpose::Reading && may_be_same(&opened.file, metadata) {
            return true;
        }
    }
    false
}

/// Whether a file may be the same: it has the same number on the same device, or can't tell.
fn may_be_same<F: OpenFile>(file: &F, metadata: &Metadata) -> bool {
    match file.metadata() {
        Ok(other) => other.dev() == metadata.dev() && other.ino() == metadata.ino(),
        Err(_) => true,
    }
}

/// Reads from a place on. It only seeks where the file doesn't stand there: so a pipe can be read in order.
fn read_at<F: Read + Seek>(
    opened: &mut OpenedFile<F>,
    at: u64,
    into: &mut [u8],
) -> Result<usize, Failed>
    ensures { IfOk result (λ count. count ≤ length into.old) }
{
    let stands = opened.place == Some(at);
    opened.place = None;
    if opened.purpose == Purpose::Writing
        || (!stands && opened.file.seek(SeekFrom::Start(at)).is_err())
    {
        return Err(Failed);
    }
    let Ok(count) = opened.file.read(into) else {
        return Err(Failed);
    };
    opened.place = at.checked_add(count as u64);
    Ok(count)
}

impl<R: std::rt::Files> Files for HostFiles<R> {
    ghost faults = { λ s. s.faults };

    ghost write_faults = { λ s. s.write_faults };

    ghost given = { λ s. s.given };

    ghost told = { λ s. None };

    ghost reads_whole = { false };

    ghost numbered = { λ s t is. absurd Prim.cc };

    fn lookup(&mut self, name: &str) -> Result<usize, Failed>
        ensures given { IsGiven self.old.given self.new.given result }
        ensures told { LooksUp None None name.now result }
        ensures cause { HasCause self.old.faults self.new.faults result }
        ensures others { self.new.write_faults ≡ self.old.write_faults }
        ensures next { IfOk result (λ file. (file ≡ self.old.given) × (self.new.given ≡ file + 1)) }
        ensures most { most_files ≤ self.old.given → IsErr result }
    {
        let kept = keep(&self.rt, &mut self.files, name, Purpose::Reading);
        counted(kept, &mut self.faults)
    }

    fn size(&mut self, file: usize) -> Result<u64, Failed> {
        let size = match self.files[file].file.metadata() {
            Ok(metadata) => Ok(metadata.len()),
            Err(_) => Err(Failed),
        };
        counted(size, &mut self.faults)
    }

    fn read_at(&mut self, file: usize, at: u64, into: &mut [u8]) -> Result<usize, Failed> {
        let read = read_at(&mut self.files[file], at, into);
        counted(read, &mut self.faults)
    }

    fn create(&mut self, name: &str) -> Result<usize, Failed>
        ensures given { IsGiven self.old.given self.new.given result }
        ensures told { Creates None None name.now result }
        ensures cause { HasCause self.old.write_faults self.new.write_faults result }
        ensures others { self.new.faults ≡ self.old.faults }
        ensures next { IfOk result (λ file. (file ≡ self.old.given) × (self.new.given ≡ file + 1)) }
        ensures most { most_files ≤ self.old.given → IsErr result }
    {
        let kept = keep(&self.rt, &mut self.files, name, Purpose::Writing);
        counted(kept, &mut self.write_faults)
    }

    fn append(&mut self, file: usize, bytes: &[u8]) -> Result<(), Failed> {
        let written = self.files[file].file.write_all(bytes);
        counted(written.map_err(|_| Failed), &mut self.write_faults)
    }
}
