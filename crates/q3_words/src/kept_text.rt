//! A text in an event.

ghost use Rattle.std.specs.Prelude.{◌≡◌, IfOk, bytes_eq};
ghost use Rattle.std.specs.Cmp.{partial_equiv_from_equiv};
ghost use Rattle.std.specs.Cmp.Lexicographic.{nat_list_eq_equiv};
ghost use Rattle.q3_text.specs.Texts.{IsText};

use crate::bytes::Bytes;
use q3_bits::NoMemory;
use q3_text::Text;
use std::alloc::Global;
use std::marker::Model;

/// A text in as much memory as it has bytes. To a caller it is the list of its bytes, as the text is.
#[derive(Debug, Drop)]
pub struct KeptText {
    bytes: Bytes,
}

impl Model for KeptText {
    ghost use Rattle.std.specs.Prelude.{ℕ, List};
    ghost use Rattle.q3_text.specs.Texts.{IsText};

    ghost Value = { List ℕ };

    ghost view = { λ kept. kept.bytes };

    ghost invariant = { λ kept. IsText kept.bytes };
}

impl PartialEq for KeptText {
    ghost eq = { λ a b. bytes_eq a b };

    ghost laws = { partial_equiv_from_equiv nat_list_eq_equiv };

    fn eq(&self, other: &KeptText) -> bool {
        self.bytes() == other.bytes()
    }
}

impl Eq for KeptText {
    ghost laws = { nat_list_eq_equiv };
}

impl KeptText {
    /// Keeps a text. `Err` is want of memory.
    pub fn of(alloc: Global, text: &Text) -> Result<KeptText, NoMemory>
        ensures { IfOk result (λ kept. kept ≡ text.now) }
    {
        Ok(KeptText {
            bytes: Bytes::of(alloc, text.bytes())?,
        })
    }

    /// The bytes of the text.
    pub fn bytes(&self) -> &[u8]
        ensures bytes { result.now ≡ self.now }
        ensures is_text { IsText self.now }
    {
        self.bytes.bytes()
    }

    /// The text.
    pub fn text(&self) -> Text
        ensures { result ≡ self.now }
    {
        q3_text::laws::texts_are_texts();
        Text::of(self.bytes()).unwrap_or_default()
    }
}
