//! Laws of config strings and their commands, each the contract of a call that does nothing.

ghost use Rattle.q3_config.specs.Laws.{SpelledIsRead, ReadIsSpelled, PiecesAreTexts, PiecesMakeChange, AdmittedMayGo, PiecesAreChanges, SizesAddUp, StringsStay, TextsStay};

use q3_text::laws::text_laws;

/// What is spelled as a change is read as it.
pub fn spelled_is_read()
    ensures { SpelledIsRead }
{
    text_laws();
}

/// What is read as a change was spelled so.
pub fn read_is_spelled()
    ensures { ReadIsSpelled }
{
    text_laws();
}

/// A text with which nothing is wrong may go out: in bytes that a command may carry, and with room for it.
pub fn admitted_may_go()
    ensures { AdmittedMayGo }
{}

/// The pieces of a text in such bytes are changes as a text may carry them.
pub fn pieces_are_changes()
    ensures { PiecesAreChanges }
{}

/// What empty strings take, and what another string adds.
pub fn sizes_add_up()
    ensures { SizesAddUp }
{}

/// The pieces of a text that may go out are texts of commands.
pub fn pieces_are_texts()
    ensures { PiecesAreTexts }
{
    text_laws();
}

/// The pieces of a text that may go out, in their order, make that one change of strings that are within their limits, and where
/// they are several, nothing pends then.
pub fn pieces_make_change()
    ensures { PiecesMakeChange }
{
    text_laws();
}

/// Strings are within their limits at first, and stay so, whatever is set and whatever a command does.
pub fn strings_stay()
    ensures { StringsStay }
{
    text_laws();
}

/// Strings of bytes that a text may hold stay so, whatever text without a byte 0 is set, and whatever a command does.
pub fn texts_stay()
    ensures { TextsStay }
{
    text_laws();
}
