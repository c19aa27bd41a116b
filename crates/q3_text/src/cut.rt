//! Texts that are cut at a byte: this project's own.

ghost use Rattle.std.specs.Prelude.{◌≡◌, ◌==◌, ◌≤◌, length, position, option_map, IfSome};
ghost use Rattle.q3_text.specs.Cuts as spec;

/// What stands before and after the first such byte. `None` where there is none.
#[tactic(auto, unfolding(crate::specs::Cuts::cut_at))]
pub fn cut_at(text: &[u8], byte: u8) -> Option<(&[u8], &[u8])>
    ensures cut { option_map (λ parts. (parts.0.now, parts.1.now)) result ≡ spec.cut_at byte text.now }
    ensures before { IfSome result (λ parts. length parts.0.now ≤ length text.now) }
    ensures after { IfSome result (λ parts. length parts.1.now ≤ length text.now) }
{
    let place = place_of(byte, text)?;
    Some((&text[..place], &text[place + 1..]))
}

/// The place of the first such byte. `None` where there is none.
pub fn place_of(byte: u8, text: &[u8]) -> Option<usize>
    ensures { result ≡ position (λ other. other == byte) text.now }
{
    text.iter().position(|other| *other == byte)
}
