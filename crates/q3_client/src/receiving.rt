//! A message that came whole, as a client receives it.
//! - Rules: "reliable command windows", "scrambling".
//! - Engine: `CL_Netchan_Decode` (cl_net_chan.c), `CL_ParseServerMessage` (cl_parse.c).

ghost use Rattle.std.specs.Prelude.{◌≡◌, ◌≤◌, [], length, take, IfOk};
ghost use Rattle.q3_chan.specs.Datagrams.{longest_message};
ghost use Rattle.q3_chan.specs.Gathering.{gathered, Delivers};
ghost use Rattle.q3_window.specs.Outgoing.{issued_of};
ghost use Rattle.q3_client.specs.Client.{cleared, receive_by};
ghost use Rattle.q3_client.specs.Receiving.{state_received, issued_received, answer_received, heard_received, message_received};
ghost use Rattle.q3_client.specs.Receiving as spec;

use q3_bits::Code;
use q3_chan::{Gathered, Gatherer, scramble_server};
use q3_clstate::{Applied, ClState, Log};
use q3_svmsg::{Illegible, read_ack};
use q3_text::Text;
use q3_window::Outgoing;

/// Takes a datagram. A message that it completes stands at the front of `whole`. It takes the `Vec` whole for the prover: by its
/// clauses the caller knows the bytes, and their length, without the slice that is lent here.
pub(crate) fn gather(gatherer: &mut Gatherer, datagram: &[u8], whole: &mut Vec<u8>) -> Gathered
    requires { length whole.old.items ≡ longest_message }
    ensures gathering { gatherer.new ≡ (gathered gatherer.old datagram.now).gathering }
    ensures answer { result ≡ (gathered gatherer.old datagram.now).answer }
    ensures message { Delivers result whole.new.items (gathered gatherer.old datagram.now).message }
    ensures room { length whole.new.items ≡ longest_message }
{
    gatherer.take(datagram, whole)
}

/// Receives the message of a number that stands in the first bytes of `whole`, so many: its acknowledgement is read, by protocol
/// 68 they are cleared by the text of the command that it acknowledges, what they say is applied, and only then the
/// acknowledgement is taken. `Err` is why it isn't legible; nothing changes then but the bytes.
pub(crate) fn receive(
    state: &mut ClState,
    outgoing: &mut Outgoing,
    challenge: u32,
    number: u32,
    whole: &mut Vec<u8>,
    count: usize,
    log: &mut Log,
) -> Result<Applied, Illegible>
    requires within { count ≤ length whole.old.items }
    requires empty { log.old.commands ≡ [] }
    ensures state { state.new ≡ state_received state.old (receive_by state.old outgoing.old challenge number
        (take count whole.old.items)) }
    ensures issued { outgoing.new ≡ issued_received outgoing.old
        (receive_by state.old outgoing.old challenge number (take count whole.old.items)) }
    ensures answer { result ≡ answer_received (receive_by state.old outgoing.old challenge number
        (take count whole.old.items)) }
    ensures log { log.new.commands ≡ heard_received (receive_by state.old outgoing.old challenge number
        (take count whole.old.items)) }
    ensures message { IfOk result (λ applied. take count whole.new.items ≡ message_received
        (receive_by state.old outgoing.old challenge number (take count whole.old.items))) }
    ensures room { length whole.new.items ≡ length whole.old.items }
{
    let ack = acknowledged_by(&state.profile().code, outgoing, &whole[..count])?;
    let protocol = state.profile().protocol;
    clear_front(
        whole.as_mut_slice(),
        count,
        protocol,
        challenge,
        number,
        outgoing.text(ack),
    );
    let applied = state.apply(number, &whole[..count], log)?;
    let _ = outgoing.acknowledge(ack);
    Ok(applied)
}

/// Clears by protocol 68 the message that stands in the first of these bytes, so many. It is apart since its `cleared` tells the
/// caller of the front what a slice that the caller itself lends for the call leaves unknown.
fn clear_front(
    bytes: &mut [u8],
    count: usize,
    protocol: u32,
    challenge: u32,
    number: u32,
    text: &Text,
)
    requires { count ≤ length bytes.old }
    ensures cleared { take count bytes.new ≡ cleared protocol challenge number text.now (take count bytes.old) }
    ensures long { length bytes.new ≡ length bytes.old }
{
    scramble_server(&mut bytes[..count], protocol, challenge, number, text);
}

/// The number of the command that a message acknowledges. `Err` where its bits don't read, or with `Ack` where the window
/// doesn't take it.
fn acknowledged_by(code: &Code, outgoing: &Outgoing, bytes: &[u8]) -> Result<u32, Illegible>
    ensures number { result ≡ spec.acknowledged_by code.now outgoing.now bytes.now }
    ensures known { IfOk result (λ ack. (outgoing.now.acknowledged ≤ ack) × (ack ≤ issued_of outgoing.now)) }
{
    let (ack, _) = read_ack(code, bytes)?;
    if ack < outgoing.acknowledged() || outgoing.issued() < ack {
        return Err(Illegible::Ack(ack));
    }
    Ok(ack)
}
