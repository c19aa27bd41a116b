//! The key that a text gives for hiding moves. Keeps the rule "move key and text hash", the engine's `MSG_HashKey`
//! (msg.c).

ghost use Rattle.std.specs.Prelude.{◌≡◌, ◌≤◌, length};
ghost use Rattle.q3_text.specs.Keys.{weighted, key_of};

use crate::text::Text;

/// How many bytes of a text count.
const COUNTED: usize = 32;

/// The weight of the first byte.
const FIRST_WEIGHT: u32 = 119;

/// The key of a text: its first 32 bytes, each times a weight that rises by one from 119, mixed with its own high bits.
#[tactic(auto, unfolding(crate::specs::Keys::key_of))]
pub fn hash_key(text: &Text) -> u32
    ensures { result ≡ key_of text.now }
{
    let bytes = text.bytes();
    let sum = weigh(&bytes[..bytes.len().min(COUNTED)]);
    sum ^ (sum >> 10) ^ (sum >> 20)
}

/// The bytes, each times its weight.
fn weigh(bytes: &[u8]) -> u32
    requires { length bytes.now ≤ 32 }
    ensures { result ≡ weighted 119 bytes.now }
{
    let mut sum = 0;
    let mut weight = FIRST_WEIGHT;
    for byte in bytes {
        sum += u32::from(*byte) * weight;
        weight += 1;
    }
    sum
}
