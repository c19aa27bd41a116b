//! The words of a line, one after the other, and what follows a prefix.

ghost use Rattle.std.specs.Prelude.{◌≡◌, ◌∷◌, option_map};
ghost use Rattle.std.specs.Str.{bytes_eq};
ghost use Rattle.q3_words.specs.Words.{words_of, words_left, next_of, three_of, only_of, text_from};
ghost use Rattle.q3_words.specs.Words as spec;

use q3_text::place_of;

/// The first word of a text, and what is left after it: nothing, or a space and the next words.
pub fn first_word(text: &[u8]) -> (&[u8], &[u8])
    ensures { words_of text.now ≡ result.0.now ∷ words_left result.1.now }
{
    match place_of(b' ', text) {
        Some(end) => text.split_at(end),
        None => (text, &[]),
    }
}

/// The next word in what is left of a line, and what is left after it.
pub fn next_word(left: &[u8]) -> Option<(&[u8], &[u8])>
    ensures { option_map (λ next. (next.0.now, words_left next.1.now)) result ≡ next_of (words_left left.now) }
{
    match left {
        [] => None,
        [_, text @ ..] => Some(first_word(text)),
    }
}

/// The next three words in what is left of a line, and what is left after them.
pub fn next_three(left: &[u8]) -> Option<(&[u8], &[u8], &[u8], &[u8])>
    ensures { option_map (λ next. (next.0.now, next.1.now, next.2.now, words_left next.3.now)) result ≡ three_of
        (words_left left.now) }
{
    let (first, left) = next_word(left)?;
    let (second, left) = next_word(left)?;
    let (third, left) = next_word(left)?;
    Some((first, second, third, left))
}

/// The word in what is left of a line, if it is the only one.
pub fn only_word(left: &[u8]) -> Option<&[u8]>
    ensures { option_map (λ word. word.now) result ≡ only_of (words_left left.now) }
{
    let (word, after) = next_word(left)?;
    if after.is_empty() { Some(word) } else { None }
}

/// All that is left of a line after a space, as one text. `None` where nothing is left.
pub fn text_left(left: &[u8]) -> Option<&[u8]>
    ensures { option_map (λ text. text.now) result ≡ text_from (words_left left.now) }
{
    match left {
        [] => None,
        [_, text @ ..] => Some(text),
    }
}

/// Whether a word is this text.
pub fn is(word: &[u8], text: &[u8]) -> bool
    ensures { result ≡ bytes_eq text.now word.now }
{
    text == word
}

/// What follows a prefix.
#[tactic(auto, unfolding(crate::specs::Words::after_prefix))]
pub fn after_prefix<'a>(prefix: &[u8], text: &'a [u8]) -> Option<&'a [u8]>
    ensures { option_map (λ rest. rest.now) result ≡ spec.after_prefix prefix.now text.now }
{
    text.strip_prefix(prefix)
}
