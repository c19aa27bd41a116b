//! A message as a client says it.
//! - Rules: "what a client sends", "layout of a client message", "scrambling", "unclear messages".
//! - Engine: `CL_WritePacket` (cl_input.c), `CL_Netchan_Encode` (cl_net_chan.c).
//! - Ours: that an unclear message isn't sent.

ghost use Rattle.std.specs.Prelude.{◌≡◌, ◌≤◌, [], ◌∷◌, length};
ghost use Rattle.q3_bits.specs.Words.{row_bits};
ghost use Rattle.q3_chan.specs.Datagrams.{longest_message};
ghost use Rattle.q3_chan.specs.Keys.{client_key};
ghost use Rattle.q3_chan.specs.Keys as keys_spec;
ghost use Rattle.q3_chan.specs.declared.side.Side.TheVariants.{Client};
ghost use Rattle.q3_window.specs.Outgoing.{IsOutgoing};
ghost use Rattle.q3_window.specs.Outgoing as outgoing_spec;
ghost use Rattle.q3_clmsg.specs.Moves as moves_spec;
ghost use Rattle.q3_clmsg.specs.Texts.{client_message_bits};
ghost use Rattle.q3_clmsg.specs.Values.{parts_said};
ghost use Rattle.q3_clstate.specs.Standing.{IsApplied};
ghost use Rattle.q3_client.specs.Moves.{most_moves};
ghost use Rattle.q3_client.specs.Sending.{message_with};
ghost use Rattle.q3_client.specs.Saying.{FillsScrambled};

use q3_bits::{LONG, Overflow};
use q3_chan::{Side, scramble_client};
use q3_clmsg::{Move, SaidParts, message_key, write_said};
use q3_clstate::ClState;
use q3_window::Outgoing;

/// Whether by protocol 68 the leading longs of the message that goes to the server next take more bits than stay clear: never by
/// protocol 71.
pub(crate) fn is_unclear(state: &ClState, acknowledged: u32) -> bool
    ensures { result ≡ keys_spec.is_unclear state.now.profile.protocol Client
        (length (row_bits state.now.profile.code ((state.now.id, 32) ∷ (acknowledged, 32)
        ∷ (state.now.executed.executed, 32) ∷ []))) }
{
    let longs = [
        (state.id(), LONG),
        (acknowledged, LONG),
        (state.executed(), LONG),
    ];
    let profile = state.profile();
    q3_chan::is_unclear(
        profile.protocol,
        Side::Client,
        profile.code.row_length(&longs),
    )
}

/// Writes the message that goes to the server next, with these moves, to the front of a buffer, and answers how many bytes it
/// has, scrambled by protocol 68. It has the map's id, by which the keys start too, and its moves are hidden by the checksum
/// feed. `Overflow` comes exactly where the message is longer than 16,384 bytes.
pub(crate) fn write_scrambled(
    state: &ClState,
    outgoing: &Outgoing,
    challenge: u32,
    acknowledged: u32,
    delta: bool,
    moves: &[Move],
    into: &mut [u8],
) -> Result<usize, Overflow>
    requires room { length into.old ≡ longest_message }
    requires few { length moves.now ≤ most_moves }
    ensures stands { IsApplied state.now }
    ensures window { IsOutgoing outgoing.now }
    ensures fills { FillsScrambled (client_key state.now.profile.protocol challenge state.now.id acknowledged
        state.now.executed.last)
        (client_message_bits state.now.profile.code
        (moves_spec.message_key state.now.feed acknowledged state.now.executed.last)
        (message_with state.now.id acknowledged state.now.executed.executed
        (outgoing_spec.carried outgoing.now) delta moves.now)) into.new result }
{
    let text = state.last_text();
    let key = message_key(state.feed(), acknowledged, text);
    let parts = parts_of(state, outgoing, acknowledged, delta, moves);
    let bytes = write_said(&state.profile().code, parts, key, into)?;
    let id = state.id();
    let protocol = state.profile().protocol;
    let front = &mut into[..bytes];
    scramble_client(front, protocol, challenge, id, acknowledged, text);
    Ok(bytes)
}

/// The parts of the message that goes to the server next.
fn parts_of<'a>(
    state: &ClState,
    outgoing: &'a Outgoing,
    acknowledged: u32,
    delta: bool,
    moves: &'a [Move],
) -> SaidParts<'a>
    ensures window { IsOutgoing outgoing.now }
    ensures parts { parts_said result ≡ message_with state.now.id acknowledged state.now.executed.executed
        (outgoing_spec.carried outgoing.now) delta moves.now }
{
    SaidParts {
        id: state.id(),
        acknowledged,
        command: state.executed(),
        commands: outgoing.waiting(),
        delta: delta && !moves.is_empty(),
        moves,
    }
}
