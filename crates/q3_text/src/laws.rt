//! Laws of texts, numbers and cuts, each the contract of a call that does nothing.

ghost use Rattle.q3_text.specs.Laws.{TextsAreTexts, TextsStay, FewBytesMakeTexts, DecimalsAreNumbers, CutsAreFirst, TextLaws};

/// What comes of bytes is a text, the text of a text is itself, and few bytes, none of them 0, make one.
pub fn texts_are_texts()
    ensures texts { TextsAreTexts }
    ensures stay { TextsStay }
    ensures made { FewBytesMakeTexts }
{}

/// What is read as a number is its decimal, and that is read as it; it has digits alone.
pub fn decimals_are_numbers()
    ensures { DecimalsAreNumbers }
{}

/// A text that was cut is what stood before and after the first such byte, and where one stands after a text without it, that is
/// cut there.
pub fn cuts_are_first()
    ensures { CutsAreFirst }
{}

/// All of these, for proofs of crates above.
pub fn text_laws()
    ensures { TextLaws }
{
    texts_are_texts();
    decimals_are_numbers();
    cuts_are_first();
}
