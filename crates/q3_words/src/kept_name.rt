//! The name of a file in an event.

ghost use Rattle.std.specs.Prelude.{◌≡◌, IfOk, bytes_eq};
ghost use Rattle.std.specs.Cmp.{partial_equiv_from_equiv};
ghost use Rattle.std.specs.Cmp.Lexicographic.{nat_list_eq_equiv};
ghost use Rattle.q3_words.specs.Names.{IsName};

use crate::bytes::Bytes;
use crate::name::Name;
use q3_bits::NoMemory;
use std::alloc::Global;
use std::marker::Model;

/// A name in as much memory as it has bytes. To a caller it is the list of its bytes, as the name is.
#[derive(Debug, Drop)]
pub struct KeptName {
    bytes: Bytes,
}

impl Model for KeptName {
    ghost use Rattle.std.specs.Prelude.{ℕ, List};
    ghost use Rattle.q3_words.specs.Names.{IsName};

    ghost Value = { List ℕ };

    ghost view = { λ kept. kept.bytes };

    ghost invariant = { λ kept. IsName kept.bytes };
}

impl PartialEq for KeptName {
    ghost eq = { λ a b. bytes_eq a b };

    ghost laws = { partial_equiv_from_equiv nat_list_eq_equiv };

    fn eq(&self, other: &KeptName) -> bool {
        self.bytes() == other.bytes()
    }
}

impl Eq for KeptName {
    ghost laws = { nat_list_eq_equiv };
}

impl KeptName {
    /// Keeps a name. `Err` is want of memory.
    pub fn of(alloc: Global, name: &Name) -> Result<KeptName, NoMemory>
        ensures { IfOk result (λ kept. kept ≡ name.now) }
    {
        Ok(KeptName {
            bytes: Bytes::of(alloc, name.bytes())?,
        })
    }

    /// The bytes of the name.
    pub fn bytes(&self) -> &[u8]
        ensures bytes { result.now ≡ self.now }
        ensures is_name { IsName self.now }
    {
        self.bytes.bytes()
    }

    /// The name.
    pub fn name(&self) -> Name
        ensures { result ≡ self.now }
    {
        Name::copy_of(self.bytes())
    }
}
