//! Files by name.

ghost use Rattle.std.specs.Prelude.{◌≡◌, ◌<◌, ◌≤◌, ℕ, Bool, IsTrue, Option, Some, length, IfOk};
ghost use Rattle.q3_io.specs.Faults.{HasCause};
ghost use Rattle.q3_io.specs.Told.{Told, IsGiven, LooksUp, Measures, ReadsAt, GivesAll, Creates, Appends};

use crate::sink::Failed;

/// Files that are looked up or created by name, and then known by a number.
/// A number is one of those given so far; each call that takes a number has that as its condition.
pub trait Files {
    /// How often `lookup`, `size` or `read_at` has failed. It never falls.
    ghost faults: { Self → ℕ };

    /// How often `create` or `append` has failed. It never falls.
    ghost write_faults: { Self → ℕ };

    /// How many numbers were given: file numbers are those below it. It never falls.
    ghost given: { Self → ℕ };

    /// The files, what each number stands for, and what was asked, where it is told.
    ghost told: { Self → Option Told };

    /// Whether each read gives all that it is asked for and the file has: what is asked of a file is then known.
    ghost reads_whole: { Bool };

    /// The number of the file of this name. A missing file is a fault.
    fn lookup(&mut self, name: &str) -> Result<usize, Failed>
        ensures given { IsGiven (given self.old) (given self.new) result }
        ensures told { LooksUp (told self.old) (told self.new) name.now result }
        ensures cause { HasCause (faults self.old) (faults self.new) result }
        ensures others { write_faults self.new ≡ write_faults self.old };

    /// How many bytes the file has. `Failed` where the outside can't tell.
    fn size(&mut self, file: usize) -> Result<u64, Failed>
        requires { file < given self.old }
        ensures given { given self.new ≡ given self.old }
        ensures told { Measures (told self.old) (told self.new) file result }
        ensures cause { HasCause (faults self.old) (faults self.new) result }
        ensures others { write_faults self.new ≡ write_faults self.old };

    /// Reads bytes of the file from a place on, and answers how many; 0 for a buffer that isn't empty is the file's end.
    /// `Failed` where the outside can't read there; what the buffer holds then isn't said.
    fn read_at(&mut self, file: usize, at: u64, into: &mut [u8]) -> Result<usize, Failed>
        requires { file < given self.old }
        ensures given { given self.new ≡ given self.old }
        ensures count { IfOk result (λ count. count ≤ length into.old) }
        ensures told { ReadsAt (told self.old) (told self.new) file at into.old into.new result }
        ensures all { IsTrue reads_whole → GivesAll (told self.old) file at (length into.old) result }
        ensures cause { HasCause (faults self.old) (faults self.new) result }
        ensures others { write_faults self.new ≡ write_faults self.old };

    /// The number of an empty file of this name, also where there was one. `Failed` where the outside can't make it, or keeps its bytes.
    fn create(&mut self, name: &str) -> Result<usize, Failed>
        ensures given { IsGiven (given self.old) (given self.new) result }
        ensures told { Creates (told self.old) (told self.new) name.now result }
        ensures cause { HasCause (write_faults self.old) (write_faults self.new) result }
        ensures others { faults self.new ≡ faults self.old };

    /// Writes bytes after those of the file, or a front of them and answers `Failed`.
    fn append(&mut self, file: usize, bytes: &[u8]) -> Result<(), Failed>
        requires { file < given self.old }
        ensures given { given self.new ≡ given self.old }
        ensures told { Appends (told self.old) (told self.new) file bytes.now result }
        ensures cause { HasCause (write_faults self.old) (write_faults self.new) result }
        ensures others { faults self.new ≡ faults self.old };

    /// Where it is told what the numbers stand for, those given are told.
    ghost numbered: { (files : Self) (t : Told) → told files ≡ Some t → length t.numbers ≡ given files };
}
