//! The calls of an object, some of which are made to fail.

ghost use Rattle.std.specs.Prelude.{◌≡◌, [], IfOk};
ghost use Rattle.q3_testio.specs.MemoryCalls.{after_call};
ghost use Rattle.q3_testio.specs.MemoryCalls as spec;

use q3_io::NoMemory;
use std::alloc::Global;
use std::marker::Model;

/// How many calls were made, and the numbers of those that fail.
#[derive(Drop)]
pub struct Calls {
    made: u64,
    fails: Vec<u64>,
}

impl Model for Calls {
    ghost use Rattle.q3_testio.specs.MemoryCalls.{MadeCalls};

    ghost Value = { MadeCalls };

    ghost view = { λ c. record { made = c.made; fails = c.fails.items } };
}

impl Calls {
    /// No call was made yet. Calls are counted from 1.
    pub fn new(alloc: Global, fails: &[u64]) -> Result<Calls, NoMemory>
        ensures { IfOk result (λ calls. calls ≡ record { made = 0; fails = fails.now }) }
    {
        Ok(Calls {
            made: 0,
            fails: Vec::from_slice(alloc, fails)?,
        })
    }

    /// Counts the next call, and answers whether it is one of those that fail.
    pub fn next_fails(&mut self) -> bool
        ensures answer { result ≡ spec.next_fails self.old }
        ensures whole { self.new ≡ after_call self.old }
    {
        self.made = self.made.saturating_add(1);
        self.fails.contains(&self.made)
    }
}
