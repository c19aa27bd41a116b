//! Info strings: keys and values that take turns, with a backslash before each.
//! Keeps the rule "info strings and the server id", the engine's `Info_ValueForKey` (q_shared.c).

ghost use Rattle.std.specs.Prelude.{◌≡◌, ◌<◌, ◌∷◌, length, option_map, IfSome};
ghost use Rattle.q3_text.specs.Info.{parts_of, parts_after, info_of};
ghost use Rattle.q3_text.specs.Info as spec;

use crate::cut::place_of;

/// The value of the first pair with this key. The text may begin with a backslash; a last key with no backslash after
/// it has no value. Keys are compared byte by byte.
pub fn info_value<'a>(text: &'a [u8], key: &[u8]) -> Option<&'a [u8]>
    ensures { option_map (λ value. value.now) result ≡ info_of text.now key.now }
{
    let mut left = Some(after_backslash(text));
    while let Some(pairs) = left {
        let (name, after) = first_part(pairs);
        let (value, after) = first_part(after?);
        if name == key {
            return Some(value);
        }
        left = after;
    }
    None
}

/// The text without the backslash that it may begin with.
fn after_backslash(text: &[u8]) -> &[u8]
    ensures { result.now ≡ spec.after_backslash text.now }
{
    match text {
        [b'\\', rest @ ..] => rest,
        _ => text,
    }
}

/// What stands before the first backslash, or the whole text, and what follows it.
fn first_part(text: &[u8]) -> (&[u8], Option<&[u8]>)
    ensures parts { parts_of text.now ≡ result.0.now ∷ parts_after (option_map (λ rest. rest.now) result.1) }
    ensures shorter { IfSome result.1 (λ rest. length rest.now < length text.now) }
{
    match place_of(b'\\', text) {
        Some(place) => (&text[..place], Some(&text[place + 1..])),
        None => (text, None),
    }
}
