//! Changes of config strings as commands are read: the rule "config commands at the client". The four words are those of
//! the engine's `CL_GetServerCommand` (cl_cgame.c); that the text has exactly this shape is this project's own.

ghost use Rattle.std.specs.Prelude.{◌≡◌, ◌<◌, ◌≤◌, length, option_map, IfSome};
ghost use Rattle.std.specs.Str.{bytes_eq};
ghost use Rattle.q3_config.specs.Strings.{places};
ghost use Rattle.q3_config.specs.Commands.{word_in, quoted_in, change_in};
ghost use Rattle.q3_config.specs.Commands as spec;
ghost use Rattle.q3_config.specs.Parts.{meant, told};

use crate::limits::STRINGS;
use q3_text::{Text, cut_at, decimal_within};

/// What a command begins with: the word of a whole change, or of the first, a middle or the last piece of one.
#[derive(Clone, Copy, Debug, PartialEq, Eq)]
pub(crate) enum Word {
    Whole,
    First,
    Middle,
    Last,
}

impl Word {
    /// How it is spelled.
    pub fn spelled(self) -> &'static [u8]
        ensures { result.now ≡ spec.spelled (meant self) }
    {
        match self {
            Word::Whole => b"cs",
            Word::First => b"bcs0",
            Word::Middle => b"bcs1",
            Word::Last => b"bcs2",
        }
    }
}

/// A change of the string at an index, or a piece of one: what stands between the quotes.
#[derive(Clone, Copy)]
pub(crate) struct Change<'a> {
    pub word: Word,
    pub index: u32,
    pub text: &'a [u8],
}

/// The index of a text that has the shape of a config command: one of the four words, an index from 0 to 1,023 in
/// decimal, and a text in quotes with no quote in it, with one space between them, and nothing or a newline at the end.
/// `None` for every other text.
pub fn shape(text: &Text) -> Option<u32>
    ensures { result ≡ option_map (λ change. change.index) (change_in text.now) }
{
    Some(change_of(text.bytes())?.index)
}

/// The change that a text is.
#[tactic(auto, unfolding(crate::specs::Commands::change_in))]
pub(crate) fn change_of(text: &[u8]) -> Option<Change<'_>>
    ensures change { option_map told result ≡ change_in text.now }
    ensures index { IfSome result (λ change. change.index < places) }
    ensures length { IfSome result (λ change. length change.text.now ≤ length text.now) }
{
    let (word, after) = cut_at(text, b' ')?;
    let word = word_of(word)?;
    let (index, after) = cut_at(after, b' ')?;
    let index = decimal_within(index, 0, STRINGS - 1)?;
    let text = quoted(after)?;
    Some(Change { word, index, text })
}

/// The word that a text spells.
#[tactic(auto, unfolding(crate::specs::Commands::word_in))]
fn word_of(text: &[u8]) -> Option<Word>
    ensures { option_map meant result ≡ word_in text.now }
{
    if is(text, b"cs") {
        Some(Word::Whole)
    } else if is(text, b"bcs0") {
        Some(Word::First)
    } else if is(text, b"bcs1") {
        Some(Word::Middle)
    } else if is(text, b"bcs2") {
        Some(Word::Last)
    } else {
        None
    }
}

/// What stands between the quotes, where the text begins with one and nothing or a newline follows the next.
#[tactic(auto, unfolding(crate::specs::Commands::quoted_in))]
fn quoted(text: &[u8]) -> Option<&[u8]>
    ensures quoted { option_map (λ body. body.now) result ≡ quoted_in text.now }
    ensures length { IfSome result (λ body. length body.now ≤ length text.now) }
{
    let [b'"', text @ ..] = text else {
        return None;
    };
    let (body, after) = cut_at(text, b'"')?;
    if is(after, b"") || is(after, b"\n") {
        Some(body)
    } else {
        None
    }
}

/// Whether a text is this one.
fn is(text: &[u8], other: &[u8]) -> bool
    ensures { result ≡ bytes_eq text.now other.now }
{
    text == other
}
