//! From which number the keys of a message start. Keeps the rule "scrambling", the engine's `SV_Netchan_Encode` and
//! `CL_Netchan_Encode` (sv_net_chan.c, cl_net_chan.c).

ghost use Rattle.std.specs.Prelude.{◌≡◌};
ghost use Rattle.q3_chan.specs.Keys as spec;

/// The start of the keys of a server's message under a number, to the client that joined with a challenge.
pub fn server_start(challenge: u32, number: u32) -> u8
    ensures { result ≡ spec.server_start challenge number }
{
    ((challenge ^ number) % 256) as u8
}

/// The start of the keys of a client's message, by the challenge with which it joined, the server id, and the number of the newest
/// server message that it acknowledges.
pub fn client_start(challenge: u32, id: u32, acknowledged: u32) -> u8
    ensures { result ≡ spec.client_start challenge id acknowledged }
{
    ((challenge ^ id ^ acknowledged) % 256) as u8
}
