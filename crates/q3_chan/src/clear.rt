//! Which bytes of either end's messages stay clear, and the others scrambled. Keeps the rules "scrambling" and "unclear
//! messages": the engine's `SV_Netchan_Encode`, `SV_Netchan_Decode` (sv_net_chan.c), `CL_Netchan_Encode` and
//! `CL_Netchan_Decode` (cl_net_chan.c). That the leading longs must fit into the bytes that stay clear is this project's own,
//! and so is protocol 71, by which nothing is scrambled.

ghost use Rattle.std.specs.Prelude.{◌≡◌};
ghost use Rattle.q3_chan.specs.Keys.{server_key, client_key, side_scrambled, server_scrambled, client_scrambled, start_by};
ghost use Rattle.q3_chan.specs.Keys as spec;

use crate::form::is_checked;
use crate::scrambling::scramble;
use crate::side::Side;
use crate::starts::{client_start, server_start};
use q3_text::Text;

/// How many bytes of a message stay clear: its leading longs, one of a server's and three of a client's.
fn clear_bytes(side: Side) -> usize
    ensures { result ≡ spec.clear_bytes side }
{
    match side {
        Side::Server => 4,
        Side::Client => 12,
    }
}

/// Whether so many bits of leading longs are more than stay clear, so that scrambling would hide a part of them: never by a protocol
/// that scrambles nothing.
pub fn is_unclear(protocol: u32, side: Side, bits: usize) -> bool
    ensures { result ≡ spec.is_unclear protocol side bits }
{
    !is_checked(protocol) && bits > 8 * clear_bytes(side)
}

/// Scrambles a server's message under a number to the client that joined with a challenge, or clears it, by the text of the
/// last client command executed. By a protocol that scrambles nothing it stays as it is.
pub fn scramble_server(bytes: &mut [u8], protocol: u32, challenge: u32, number: u32, text: &Text)
    ensures { bytes.new ≡ server_scrambled (server_key protocol challenge number text.now) bytes.old }
{
    let start = server_start(challenge, number);
    scramble_side(Side::Server, bytes, protocol, start, text);
}

/// Scrambles a message of the client that joined with a challenge, or clears it, by its server id, the number of the newest
/// server message that it acknowledges, and the text of the server command that it acknowledges. By a protocol that scrambles
/// nothing it stays as it is.
pub fn scramble_client(
    bytes: &mut [u8],
    protocol: u32,
    challenge: u32,
    id: u32,
    acknowledged: u32,
    text: &Text,
)
    ensures { bytes.new ≡ client_scrambled (client_key protocol challenge id acknowledged text.now) bytes.old }
{
    let start = client_start(challenge, id, acknowledged);
    scramble_side(Side::Client, bytes, protocol, start, text);
}

/// Scrambles a message of an end after its leading longs, by a protocol that scrambles.
fn scramble_side(side: Side, bytes: &mut [u8], protocol: u32, start: u8, text: &Text)
    ensures { bytes.new ≡ side_scrambled side (record { start = start_by protocol start; text = text.now })
        bytes.old }
{
    if !is_checked(protocol) {
        scramble(bytes, clear_bytes(side), start, text);
    }
}
