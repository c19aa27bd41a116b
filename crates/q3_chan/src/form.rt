//! What each datagram of an end has in its header beside the number of its message. Keeps the rule "the check of protocol 71", which
//! is this project's own, after ioquake3's `NETCHAN_GENCHECKSUM` (qcommon.h) and `Netchan_Process` (net_chan.c).

ghost use Rattle.std.specs.Prelude.{◌≡◌};
ghost use Rattle.q3_chan.specs.Checks as spec;

use crate::side::Side;

/// The protocol by which a check goes with each datagram and nothing is scrambled. By every other nothing is checked, and messages
/// are scrambled.
const CHECKED_PROTOCOL: u32 = 71;

/// What each datagram of an end has in its header.
#[derive(Clone, Copy)]
pub struct Form {
    /// The end that sends: with what a client sends its qport goes.
    pub side: Side,
    /// The challenge of which each datagram has a check, or none where it has none.
    pub check: Option<u32>,
}

/// Whether a check goes with each datagram by a protocol, and nothing is scrambled.
pub fn is_checked(protocol: u32) -> bool
    ensures { result ≡ spec.is_checked protocol }
{
    protocol == CHECKED_PROTOCOL
}

/// By what each datagram between a server and the client that joined with a challenge is checked: the challenge, or nothing.
pub fn check_for(protocol: u32, challenge: u32) -> Option<u32>
    ensures { result ≡ spec.check_for protocol challenge }
{
    if is_checked(protocol) {
        Some(challenge)
    } else {
        None
    }
}

/// The check of a message's number.
pub(crate) fn check_of(challenge: u32, number: u32) -> u32
    ensures { result ≡ spec.check_of challenge number }
{
    let product = u64::from(number) * u64::from(challenge);
    ((u64::from(challenge) ^ product) % (1 << 32)) as u32
}
