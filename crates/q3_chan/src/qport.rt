//! Which client sent a datagram, as far as the datagram tells. Keeps the rule "how a datagram finds its slot", the
//! engine's `SV_PacketEvent` (sv_main.c), which reads the qport before it looks for the client.

ghost use Rattle.std.specs.Prelude.{◌≡◌, ◌≤◌, length};
ghost use Rattle.q3_chan.specs.Senders as spec;

use crate::header::{is_connectionless, lacks_header};
use crate::side::Side;
use byteorder::{ByteOrder, LittleEndian};

/// Why a datagram has no qport.
#[derive(Clone, Copy, Debug, PartialEq, Eq)]
pub enum NoQport {
    /// The datagram is shorter than its header.
    Runt,
    /// The datagram begins with four bytes of 255: it belongs to no connection.
    Connectionless,
}

/// The qport of a datagram that came from a client, with a check or without. `Err` is the first of: `Runt` below 4 bytes; `Connectionless`;
/// `Runt` where it has fewer bytes than its header.
#[tactic(auto, unfolding(crate::specs::Senders::qport_of))]
pub fn qport_of(checked: bool, datagram: &[u8]) -> Result<u16, NoQport>
    ensures { result ≡ spec.qport_of checked datagram.now }
{
    if datagram.len() < 4 {
        return Err(NoQport::Runt);
    }
    if is_connectionless(datagram) {
        return Err(NoQport::Connectionless);
    }
    if lacks_header(Side::Client, checked, datagram) {
        return Err(NoQport::Runt);
    }
    Ok(qport_in(datagram))
}

/// The qport after the number of a client's message.
fn qport_in(datagram: &[u8]) -> u16
    requires { 6 ≤ length datagram.now }
    ensures { result ≡ spec.qport_in datagram.now }
{
    LittleEndian::read_u16(&datagram[4..])
}
