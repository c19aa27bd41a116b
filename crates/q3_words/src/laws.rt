//! Laws of words, each the contract of a call that does nothing.

ghost use Rattle.q3_words.specs.Laws.{WordLaws};

use q3_text::laws::text_laws;

/// Whatever kind of word a line has: what is read was spelled so, and what is spelled so is read.
pub fn word_laws()
    ensures { WordLaws }
{
    text_laws();
}
