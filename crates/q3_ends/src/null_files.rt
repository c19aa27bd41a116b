//! Files that take every write and keep nothing.

ghost use Rattle.std.specs.Prelude.{true, None};

use q3_io::{Failed, Files};

/// Every name is that of one file, which takes all bytes, and is empty for whoever reads it.
#[derive(Drop)]
pub struct NullFiles;

impl Files for NullFiles {
    ghost faults = { λ files. 0 };

    ghost write_faults = { λ files. 0 };

    ghost given = { λ files. 1 };

    ghost told = { λ files. None };

    ghost reads_whole = { true };

    fn lookup(&mut self, _name: &str) -> Result<usize, Failed> {
        Ok(0)
    }

    fn size(&mut self, _file: usize) -> Result<u64, Failed> {
        Ok(0)
    }

    fn read_at(&mut self, _file: usize, _at: u64, _into: &mut [u8]) -> Result<usize, Failed> {
        Ok(0)
    }

    fn create(&mut self, _name: &str) -> Result<usize, Failed> {
        Ok(0)
    }

    fn append(&mut self, _file: usize, _bytes: &[u8]) -> Result<(), Failed> {
        Ok(())
    }

    ghost numbered = { λ files t same. absurd Prim.cc };
}
