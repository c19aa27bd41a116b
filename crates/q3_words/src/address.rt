//! Addresses.

ghost use Rattle.std.specs.Prelude.{◌≡◌};
ghost use Rattle.q3_words.specs.Addresses.{address_at};

use q3_io::Address;
use q3_text::{cut_at, decimal_within};

/// The address that a word spells: `a.b.c.d:port`, four numbers up to 255, and a port from 1 on.
#[tactic(auto, unfolding(crate::specs::Addresses::address_at))]
pub fn read_address(word: &[u8]) -> Option<Address>
    ensures { result ≡ address_at word.now }
{
    let (host, port) = cut_at(word, b':')?;
    let (a, others) = cut_at(host, b'.')?;
    let (b, others) = cut_at(others, b'.')?;
    let (c, d) = cut_at(others, b'.')?;
    let a = decimal_within(a, 0, 255)?;
    let b = decimal_within(b, 0, 255)?;
    let c = decimal_within(c, 0, 255)?;
    let d = decimal_within(d, 0, 255)?;
    let port = decimal_within(port, 1, 65_535)? as u16;
    Some(Address {
        host: (a << 24) + (b << 16) + (c << 8) + d,
        port,
    })
}
