//! The name of a file in a line.

ghost use Rattle.std.specs.Prelude.{◌≡◌, bytes_eq};
ghost use Rattle.std.specs.Cmp.{partial_equiv_from_equiv};
ghost use Rattle.std.specs.Cmp.Lexicographic.{nat_list_eq_equiv};
ghost use Rattle.q3_words.specs.Names.{IsName, name_at};
ghost use Rattle.q3_words.specs.Names as spec;
ghost use Rattle.std.specs.List.{list_all};

use arrayvec::ArrayVec;
use std::marker::Model;

/// The most bytes of a name.
const LONGEST_NAME: usize = 200;

/// The name of a file: 1 to 200 bytes, each 33 to 126. To a caller it is the list of its bytes.
#[derive(Debug, Drop)]
pub struct Name {
    bytes: ArrayVec<u8, LONGEST_NAME>,
}

impl Model for Name {
    ghost use Rattle.std.specs.Prelude.{ℕ, List};
    ghost use Rattle.q3_words.specs.Names.{IsName};

    ghost Value = { List ℕ };

    ghost view = { λ n. n.bytes.items };

    ghost invariant = { λ n. IsName n.bytes.items };
}

impl PartialEq for Name {
    ghost eq = { λ a b. bytes_eq a b };

    ghost laws = { partial_equiv_from_equiv nat_list_eq_equiv };

    fn eq(&self, other: &Name) -> bool {
        self.bytes() == other.bytes()
    }
}

impl Eq for Name {
    ghost laws = { nat_list_eq_equiv };
}

/// Whether a byte may stand in a name: it prints, and is no space.
fn is_name_byte(byte: u8) -> bool
    ensures { result ≡ spec.is_name_byte byte }
{
    byte >= 33 && byte <= 126
}

/// Whether each byte may stand in a name.
fn are_name_bytes(word: &[u8]) -> bool
    ensures { result ≡ list_all spec.is_name_byte word.now }
{
    word.iter().all(|byte| is_name_byte(*byte))
}

/// Whether a word is a name.
#[tactic(auto, unfolding(crate::specs::Names::is_name))]
fn is_name(word: &[u8]) -> bool
    ensures { result ≡ spec.is_name word.now }
{
    !word.is_empty() && word.len() <= LONGEST_NAME && are_name_bytes(word)
}

impl Name {
    /// The name that a word is, if it is one.
    #[tactic(auto, unfolding(crate::specs::Names::name_at), using(crate::proofs::NameWords::named))]
    pub fn of(word: &[u8]) -> Option<Name>
        ensures { result ≡ name_at word.now }
    {
        if !is_name(word) {
            return None;
        }
        let bytes = ArrayVec::try_from(word).ok()?;
        Some(Name { bytes })
    }

    /// The name of these bytes.
    pub(crate) fn copy_of(name: &[u8]) -> Name
        requires { IsName name.now }
        ensures { result ≡ name.now }
    {
        let mut bytes = ArrayVec::new();
        let _ = bytes.try_extend_from_slice(name);
        Name { bytes }
    }

    /// A copy.
    pub fn copy(&self) -> Name
        ensures { result ≡ self.now }
    {
        Name::copy_of(&self.bytes)
    }

    /// The name as text.
    pub fn as_str(&self) -> &str
        ensures { result.now ≡ self.now }
    {
        str::from_utf8(&self.bytes).unwrap()
    }

    /// The bytes of the name.
    pub fn bytes(&self) -> &[u8]
        ensures bytes { result.now ≡ self.now }
        ensures is_name { IsName self.now }
    {
        &self.bytes
    }
}
