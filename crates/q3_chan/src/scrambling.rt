//! Scrambling of messages. Keeps the rule "scrambling", the engine's `SV_Netchan_Encode`, `SV_Netchan_Decode`
//! (sv_net_chan.c), `CL_Netchan_Encode` and `CL_Netchan_Decode` (cl_net_chan.c).

ghost use Rattle.std.specs.Prelude.{◌≡◌, ◌+◌, ◌-◌, ◌%◌, ◌<◌, ◌≤◌, ℕ, [], length, All};
ghost use Rattle.q3_chan.specs.Scrambling.{scrambled, GoesOn, Went, Repeats};

use arrayvec::ArrayVec;
use q3_text::Text;

/// Room for a short text several times.
const COPIES: usize = 32;

/// A text of fewer bytes is short.
const SHORT: usize = 16;

/// Scrambles a message from a place on, or clears it: twice is the identity. Both ends call it, a server from byte 4 on and
/// a client from byte 12. The start is the low byte of what the sides agree on, and the text that of a command which both
/// know. A place after the end changes nothing.
pub fn scramble(bytes: &mut [u8], from: usize, start: u8, text: &Text)
    ensures { bytes.new ≡ scrambled from start text.now bytes.old }
{
    let text = text.bytes();
    if text.is_empty() {
        add_start(bytes, from, start);
    } else if text.len() < SHORT {
        add_short(bytes, from, start, text);
    } else {
        add_text(bytes, from, start, text);
    }
}

/// Under an empty text each key is the start.
fn add_start(bytes: &mut [u8], from: usize, start: u8)
    ensures { bytes.new ≡ scrambled from start [] bytes.old }
{
    for place in from..bytes.len() {
        bytes[place] ^= start;
    }
}

/// Goes through a short text several times at once.
fn add_short(bytes: &mut [u8], from: usize, start: u8, text: &[u8])
    requires some { 0 < length text.now }
    requires short { length text.now < 16 }
    requires seven_bits { All (λ byte. byte < 128) text.now }
    ensures { bytes.new ≡ scrambled from start text.now bytes.old }
{
    let copies = copies(text);
    add_text(bytes, from, start, &copies);
}

/// A short text as often as there is room for it.
fn copies(text: &[u8]) -> ArrayVec<u8, COPIES>
    requires some { 0 < length text.now }
    requires short { length text.now < 16 }
    ensures { Repeats text.now result.items }
{
    let count = COPIES / text.len() * text.len();
    let mut copies = ArrayVec::new();
    for place in 0..count {
        copies.push(text[place % text.len()]);
    }
    copies
}

/// Goes through the text again and again.
fn add_text(bytes: &mut [u8], from: usize, start: u8, text: &[u8])
    requires some { 0 < length text.now }
    requires seven_bits { All (λ byte. byte < 128) text.now }
    ensures { bytes.new ≡ scrambled from start text.now bytes.old }
{
    let mut place = from;
    let mut key = start;
    while place < bytes.len() {
        let count = text.len().min(bytes.len() - place);
        key = add_part(bytes, place, key, &text[..count]);
        place += count;
    }
}

/// Goes through the text once, from a place on. Answers the key after it.
fn add_part(bytes: &mut [u8], place: usize, key: u8, text: &[u8]) -> u8
    requires some { 0 < length text.now }
    requires room { place + length text.now ≤ length bytes.old }
    requires seven_bits { All (λ byte. byte < 128) text.now }
    ensures { (keys : ℕ → ℕ) → GoesOn keys place key text.now
        → Went keys place bytes.old (place + length text.now) result bytes.new }
{
    if place % 2 == 0 {
        return add_pairs(bytes, place, key, text);
    }
    let key = key ^ (text[0] * 2);
    bytes[place] ^= key;
    add_pairs(bytes, place + 1, key, &text[1..])
}

/// Goes through the text once, from an even place on, by two bytes at a time. Answers the key after it.
fn add_pairs(bytes: &mut [u8], place: usize, key: u8, text: &[u8]) -> u8
    requires even { place % 2 ≡ 0 }
    requires room { place + length text.now ≤ length bytes.old }
    requires seven_bits { All (λ byte. byte < 128) text.now }
    ensures { (keys : ℕ → ℕ) → GoesOn keys place key text.now
        → Went keys place bytes.old (place + length text.now) result bytes.new }
{
    let mut key = key;
    for pair in 0..text.len() / 2 {
        let even = 2 * pair;
        key ^= text[even];
        bytes[place + even] ^= key;
        key ^= text[even + 1] * 2;
        bytes[place + even + 1] ^= key;
    }
    if text.len() % 2 == 1 {
        let last = text.len() - 1;
        key ^= text[last];
        bytes[place + last] ^= key;
    }
    key
}
