//! Files in memory.

ghost use Rattle.std.specs.Prelude.{◌≡◌, ◌<◌, ◌≤◌, true, IsTrue, [], Some, None, MatchOption, IfOk, is_ok, length, not};
ghost use Rattle.q3_io.specs.Faults.{HasCause};
ghost use Rattle.q3_io.specs.Told.{contents_of, contents_at, IsGiven, LooksUp, Measures, ReadsAt, GivesAll, Creates, Appends};
ghost use Rattle.q3_testio.specs.MemoryCalls.{next_fails};
ghost use Rattle.q3_testio.specs.FileStore.{read_count};
ghost use Rattle.q3_testio.specs.MemoryFiles.{no_files, finds, after_lookup, after_size, reads, after_read, creates, after_create, appends, after_append, stores, after_store};

use crate::calls::Calls;
use crate::numbers::Numbers;
use crate::store::Store;
use q3_io::{Failed, Files, NoMemory};
use std::alloc::Global;
use std::marker::Model;

/// Files in memory, with room for so many files, numbers and bytes. It takes memory in proportion to these.
/// Each name takes its bytes once for its file and once for each number that it is given.
/// Room that was taken isn't given back. A call that fails names no file.
#[derive(Drop)]
pub struct MemFiles {
    store: Store,
    numbers: Numbers,
    calls: Calls,
    faults: u64,
    write_faults: u64,
}

impl Model for MemFiles {
    ghost use Rattle.std.specs.Prelude.{◌≤◌, IsSome};
    ghost use Rattle.std.specs.List.{All};
    ghost use Rattle.q3_io.specs.Told.{contents_of};
    ghost use Rattle.q3_testio.specs.MemoryFiles.{FilesState, files_state};

    ghost Value = { FilesState };

    ghost view = { λ m. files_state m.store m.numbers m.calls m.faults m.write_faults };

    ghost invariant = { λ m. (m.store.room ≤ m.numbers.room)
        × All (λ name. IsSome (contents_of m.store.files name)) m.numbers.numbers };
}

impl MemFiles {
    /// No files, with room for so many, for so many bytes of names and contents, and for so many numbers.
    /// The calls with the numbers `fails` fail: calls of the five of `Files` are counted from 1.
    pub fn new(
        alloc: Global,
        files: usize,
        room: usize,
        calls: usize,
        fails: &[u64],
    ) -> Result<MemFiles, NoMemory>
        ensures { IfOk result (λ new. new ≡ no_files files room calls fails.now) }
    {
        Ok(MemFiles {
            store: Store::new(alloc, files, room)?,
            numbers: Numbers::new(alloc, calls, room)?,
            calls: Calls::new(alloc, fails)?,
            faults: 0,
            write_faults: 0,
        })
    }

    /// Puts a file there before a run, and answers false where it doesn't fit.
    pub fn store(&mut self, name: &str, bytes: &[u8]) -> bool
        ensures fits { result ≡ stores self.old name.now bytes.now }
        ensures whole { self.new ≡ after_store self.old name.now bytes.now }
    {
        self.store.put(name.as_bytes(), bytes, bytes.len())
    }

    /// What the file of this name holds.
    pub fn contents(&self, name: &str) -> Option<&[u8]>
        ensures { MatchOption result (contents_of self.now.told.files name.now ≡ None)
            (λ bytes. contents_of self.now.told.files name.now ≡ Some bytes.now) }
    {
        let place = self.store.find(name.as_bytes())?;
        Some(self.store.contents(place))
    }
}

impl Files for MemFiles {
    ghost faults = { λ m. m.faults };

    ghost write_faults = { λ m. m.write_faults };

    ghost given = { λ m. length m.told.numbers };

    ghost told = { λ m. Some m.told };

    ghost reads_whole = { true };

    ghost numbered = { λ m t is. Prim.cc };

    fn lookup(&mut self, name: &str) -> Result<usize, Failed>
        ensures given { IsGiven (length self.old.told.numbers) (length self.new.told.numbers) result }
        ensures told { LooksUp (Some self.old.told) (Some self.new.told) name.now result }
        ensures cause { HasCause self.old.faults self.new.faults result }
        ensures others { self.new.write_faults ≡ self.old.write_faults }
        ensures whole { self.new ≡ after_lookup self.old name.now }
        ensures finds { is_ok result ≡ finds self.old name.now }
    {
        let name = name.as_bytes();
        let fails = self.calls.next_fails();
        if fails
            || !self.store.has(name)
            || self.store.room() < name.len()
            || self.numbers.spare() == 0
        {
            self.faults = self.faults.saturating_add(1);
            return Err(Failed);
        }
        self.store.take(name.len());
        Ok(self.numbers.give(name, false))
    }

    fn size(&mut self, file: usize) -> Result<u64, Failed>
        requires { file < length self.old.told.numbers }
        ensures given { length self.new.told.numbers ≡ length self.old.told.numbers }
        ensures told { Measures (Some self.old.told) (Some self.new.told) file result }
        ensures cause { HasCause self.old.faults self.new.faults result }
        ensures others { self.new.write_faults ≡ self.old.write_faults }
        ensures whole { self.new ≡ after_size self.old }
        ensures ok { is_ok result ≡ not (next_fails self.old.calls) }
    {
        if self.calls.next_fails() {
            self.faults = self.faults.saturating_add(1);
            return Err(Failed);
        }
        Ok(self.store.size(self.numbers.name(file)) as u64)
    }

    fn read_at(&mut self, file: usize, at: u64, into: &mut [u8]) -> Result<usize, Failed>
        requires { file < length self.old.told.numbers }
        ensures given { length self.new.told.numbers ≡ length self.old.told.numbers }
        ensures count { IfOk result (λ count. count ≤ length into.old) }
        ensures told { ReadsAt (Some self.old.told) (Some self.new.told) file at into.old into.new result }
        ensures all { IsTrue true → GivesAll (Some self.old.told) file at (length into.old) result }
        ensures cause { HasCause self.old.faults self.new.faults result }
        ensures others { self.new.write_faults ≡ self.old.write_faults }
        ensures whole { self.new ≡ after_read self.old file (length into.old) }
        ensures reads { is_ok result ≡ reads self.old file (length into.old) }
        ensures exact { IfOk result (λ count. count ≡ read_count (contents_at self.old.told file) at into.old) }
    {
        let fails = self.calls.next_fails();
        let counted = self.numbers.ask(file, into.len());
        if fails || !counted {
            self.faults = self.faults.saturating_add(1);
            return Err(Failed);
        }
        Ok(self.store.read(self.numbers.name(file), at, into))
    }

    fn create(&mut self, name: &str) -> Result<usize, Failed>
        ensures given { IsGiven (length self.old.told.numbers) (length self.new.told.numbers) result }
        ensures told { Creates (Some self.old.told) (Some self.new.told) name.now result }
        ensures cause { HasCause self.old.write_faults self.new.write_faults result }
        ensures others { self.new.faults ≡ self.old.faults }
        ensures whole { self.new ≡ after_create self.old name.now }
        ensures creates { is_ok result ≡ creates self.old name.now }
    {
        let name = name.as_bytes();
        let fails = self.calls.next_fails();
        if fails || self.numbers.spare() == 0 {
            self.write_faults = self.write_faults.saturating_add(1);
            return Err(Failed);
        }
        if !self.store.put(name, &[], name.len()) {
            self.write_faults = self.write_faults.saturating_add(1);
            return Err(Failed);
        }
        Ok(self.numbers.give(name, true))
    }

    fn append(&mut self, file: usize, bytes: &[u8]) -> Result<(), Failed>
        requires { file < length self.old.told.numbers }
        ensures given { length self.new.told.numbers ≡ length self.old.told.numbers }
        ensures told { Appends (Some self.old.told) (Some self.new.told) file bytes.now result }
        ensures cause { HasCause self.old.write_faults self.new.write_faults result }
        ensures others { self.new.faults ≡ self.old.faults }
        ensures whole { self.new ≡ after_append self.old file bytes.now }
        ensures appends { is_ok result ≡ appends self.old bytes.now }
    {
        if self.calls.next_fails() {
            self.write_faults = self.write_faults.saturating_add(1);
            return Err(Failed);
        }
        if !self.store.append(self.numbers.name(file), bytes) {
            self.write_faults = self.write_faults.saturating_add(1);
            return Err(Failed);
        }
        Ok(())
    }
}
