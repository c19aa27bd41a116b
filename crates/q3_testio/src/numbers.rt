//! The numbers that files are known by.

ghost use Rattle.std.specs.Prelude.{◌≡◌, ◌-◌, ◌≤◌, ◌<◌, [], ◌∷◌, ◌++◌, length, slice_index_or, IfOk};
ghost use Rattle.q3_io.specs.Told.{can_ask, with_asked};
ghost use Rattle.q3_testio.specs.FileNumbers.{call_of};

use crate::texts::Texts;
use q3_io::NoMemory;
use std::alloc::Global;
use std::marker::Model;

/// Numbers, as many as there is room for: of each the name that was given, by which call, and how many bytes were asked
/// for.
#[derive(Drop)]
pub struct Numbers {
    names: Texts,
    creates: Vec<bool>,
    asked: Vec<u64>,
}

impl Model for Numbers {
    ghost use Rattle.std.specs.Prelude.{◌≡◌, ◌≤◌, ◌+◌, length, vec_capacity};
    ghost use Rattle.q3_testio.specs.FileNumbers.{NumbersState, named_of};

    ghost Value = { NumbersState };

    ghost view = { λ n. record {
      numbers = n.names.texts;
      asked = n.asked.items;
      named = named_of n.names.texts n.creates.items;
      spare = n.names.spare;
      room = n.names.room;
    } };

    ghost invariant = { λ n. (length n.creates.items ≡ length n.names.texts)
        × (length n.asked.items ≡ length n.names.texts)
        × (length n.names.texts + n.names.spare ≤ vec_capacity n.creates)
        × (length n.names.texts + n.names.spare ≤ vec_capacity n.asked) };
}

impl Numbers {
    /// No numbers, with room for so many, and for names of so many bytes.
    #[tactic(auto, unfolding(crate::specs::FileNumbers::named_of))]
    pub fn new(alloc: Global, numbers: usize, room: usize) -> Result<Numbers, NoMemory>
        ensures { IfOk result (λ new. new ≡ record {
          numbers = [];
          asked = [];
          named = [];
          spare = numbers;
          room = room;
        }) }
    {
        Ok(Numbers {
            names: Texts::new(alloc, numbers, room)?,
            creates: Vec::with_capacity(alloc, numbers)?,
            asked: Vec::with_capacity(alloc, numbers)?,
        })
    }

    /// There may be so many numbers more.
    pub fn spare(&self) -> usize
        ensures { result ≡ self.now.spare }
    {
        self.names.spare()
    }

    /// Gives a name the next number.
    #[tactic(auto, using(crate::proofs::Numbered::named_more))]
    pub fn give(&mut self, name: &[u8], creates: bool) -> usize
        requires spare { 0 < self.old.spare }
        requires room { length name.now ≤ self.old.room }
        ensures number { result ≡ length self.old.numbers }
        ensures numbers { self.new.numbers ≡ self.old.numbers ++ name.now ∷ [] }
        ensures asked { self.new.asked ≡ self.old.asked ++ 0 ∷ [] }
        ensures named { self.new.named ≡ self.old.named ++ record { name = name.now; call = call_of creates } ∷ [] }
        ensures left { self.new.spare ≡ self.old.spare - 1 }
        ensures room { self.new.room ≡ self.old.room - length name.now }
    {
        let file = self.names.count();
        self.names.push(name);
        self.creates.push_reserved(creates);
        self.asked.push_reserved(0);
        file
    }

    /// The name that a number stands for.
    pub fn name(&self, file: usize) -> &[u8]
        requires { file < length self.now.numbers }
        ensures { result.now ≡ slice_index_or self.now.numbers file [] }
    {
        self.names.get(file)
    }

    /// Counts the bytes that are asked for, as far as 64 bits count.
    pub fn ask(&mut self, file: usize, count: usize) -> bool
        requires { file < length self.old.numbers }
        ensures fits { result ≡ can_ask self.old.asked file count }
        ensures asked { self.new.asked ≡ with_asked self.old.asked file count }
        ensures numbers { self.new.numbers ≡ self.old.numbers }
        ensures named { self.new.named ≡ self.old.named }
        ensures left { self.new.spare ≡ self.old.spare }
        ensures room { self.new.room ≡ self.old.room }
    {
        let Some(asked) = self.asked[file].checked_add(count as u64) else {
            return false;
        };
        self.asked[file] = asked;
        true
    }
}
