//! What a client's message does to its slot.
//! - Rules: "scrambling", "unclear messages", "move key and text hash", of what is read; "messages of another map; owed
//!   gamestates"; "reliable command windows", "gaps in command numbers"; "which moves run", "choice of the delta base".
//! - Engine: `SV_ExecuteClientMessage` and `SV_UserMove` (sv_client.c), `SV_Netchan_Decode` (sv_net_chan.c).
//! - Ours: that a move runs exactly where its time is above that of the last one run; that before the first map each id is
//!   another one.

ghost use Rattle.std.specs.Prelude.{◌≡◌, ◌≤◌, [], false, length, IfOk};
ghost use Rattle.q3_bits.specs.Streams.{holding};
ghost use Rattle.q3_clmsg.specs.Values.{said_of};
ghost use Rattle.q3_window.specs.Incoming.{executes, fresh_of, gap_in};
ghost use Rattle.q3_window.specs.Outgoing.{acknowledge_at, issued_of};
ghost use Rattle.q3_slot.specs.Slots.{came_of};
ghost use Rattle.q3_slot.specs.Taking.{ack_taken, came_under, said_under, with_heads, runs, last_run_of, nothing_heard};
ghost use Rattle.q3_slot.specs.Taking as spec;

use arrayvec::ArrayVec;
use q3_bits::NoMemory;
use q3_chan::scramble_client;
use q3_clmsg::{
    ClientIllegible, ClientMessage, Heads, MOST_MOVES, Move, message_key, read_client_message,
};
use q3_map::Map;
use q3_profile::Profile;
use q3_text::{Commands, Text};
use q3_window::{Incoming, Outgoing};
use std::alloc::Global;

/// What the server's take answers.
#[derive(Clone, Copy, Debug, PartialEq, Eq)]
pub enum ServerTook {
    /// The datagram has fewer bytes than its header.
    Runt,
    /// It begins with four bytes of 255.
    Connectionless,
    /// No client has the datagram's host and qport.
    Stranger,
    /// By protocol 71, the check isn't that of the number and of the challenge of the client in this slot.
    BadCheck(u8),
    /// The message's number isn't above the newest taken from the client in this slot.
    Old(u8),
    /// A piece that doesn't start where what was gathered ends.
    OutOfOrder(u8),
    /// A piece, or a message, that is longer than may be, or than is there.
    BadFragment(u8),
    /// A piece that isn't the last of its message.
    Partial(u8),
    /// A message that came whole and isn't legible: its slot, and the first fault in reading order.
    Illegible(u8, ClientIllegible),
    /// A message that came whole, of another map than the server's: its slot, and that map's id. Its acknowledgement was taken,
    /// and nothing else of it was read.
    Ignored { slot: u8, id: u32 },
    /// A message that came whole, one of whose commands leaves a gap: its slot, and the first such command's number. Nothing
    /// of the message was run.
    Gap { slot: u8, number: u32 },
    /// The message was run: its slot and number.
    Ran { slot: u8, number: u32 },
}

/// What a take ran of a client's message.
#[derive(Drop)]
pub struct Heard {
    /// By rising number.
    pub commands: Commands,
    /// By rising time.
    pub moves: ArrayVec<Move, MOST_MOVES>,
    /// The time of the move with which the client entered the map, in milliseconds, if it did.
    pub entered: Option<u32>,
    /// Whether a gamestate is owed to the client.
    pub owed: bool,
}

impl Heard {
    /// Nothing was run. `Err` is want of memory.
    pub fn new(alloc: Global) -> Result<Heard, NoMemory>
        ensures { IfOk result (λ heard. heard ≡ nothing_heard false) }
    {
        Ok(Heard {
            commands: Commands::new(alloc)?,
            moves: ArrayVec::new(),
            entered: None,
            owed: false,
        })
    }

    /// Nothing was run, as after `new`.
    pub fn clear(&mut self)
        ensures { self.new ≡ nothing_heard false }
    {
        self.commands.clear();
        self.moves.clear();
        self.entered = None;
        self.owed = false;
    }
}

/// Which map a message is of.
#[derive(Clone, Copy)]
pub(crate) enum Origin {
    /// The server's.
    Map,
    /// Another: the leading longs, which alone were read.
    Other(Heads),
}

/// Refuses the acknowledgement of a command that the window doesn't take.
pub(crate) fn check_ack(issued: &Outgoing, command: u32) -> Result<(), ClientIllegible>
    ensures taken { result ≡ ack_taken command (acknowledge_at issued.now command).answer }
    ensures within { IfOk result (λ _. (issued.now.acknowledged ≤ command) × (command ≤ issued_of issued.now)) }
{
    if command < issued.acknowledged() || issued.issued() < command {
        return Err(ClientIllegible::Ack(command));
    }
    Ok(())
}

/// Reads what comes after these leading longs, by the text of the command that they acknowledge, where they are of the map.
pub(crate) fn read_after(
    profile: &Profile,
    map: &Map,
    challenge: u32,
    heads: Heads,
    text: &Text,
    bytes: &mut [u8],
    into: &mut ClientMessage,
) -> Result<Origin, ClientIllegible>
    ensures { came_of (said_of into.new) result ≡ came_under profile.now map.now challenge heads text.now bytes.old }
{
    if map.is_other(heads.id) {
        return Ok(Origin::Other(heads));
    }
    read_under(profile, map.feed(), challenge, heads, text, bytes, into)?;
    Ok(Origin::Map)
}

/// Reads a message with these leading longs, by the map's checksum feed and the text of the command that they acknowledge.
fn read_under(
    profile: &Profile,
    feed: u32,
    challenge: u32,
    heads: Heads,
    text: &Text,
    bytes: &mut [u8],
    into: &mut ClientMessage,
) -> Result<(), ClientIllegible>
    ensures { holding (said_of into.new) result ≡ said_under profile.now feed challenge heads text.now bytes.old }
{
    let protocol = profile.protocol;
    scramble_client(
        bytes,
        protocol,
        challenge,
        heads.id,
        heads.acknowledged,
        text,
    );
    let key = message_key(feed, heads.acknowledged, text);
    read_client_message(&profile.code, bytes, key, into)?;
    put_heads(into, heads);
    Ok(())
}

/// The leading longs as they were read before the rest was cleared.
fn put_heads(message: &mut ClientMessage, heads: Heads)
    ensures { said_of message.new ≡ with_heads heads (said_of message.old) }
{
    message.id = heads.id;
    message.acknowledged = heads.acknowledged;
    message.command = heads.command;
}

/// The number of the first command of a message that leaves a gap.
pub(crate) fn gap_before(executed: &Incoming, message: &ClientMessage) -> Option<u32>
    ensures { result ≡ gap_in executed.now.executed (said_of message.now).commands }
{
    executed.gap_in(message.commands.as_slice())
}

/// Executes those commands of a message that weren't executed, and puts them into a list that is empty.
pub(crate) fn execute_commands(
    executed: &mut Incoming,
    message: &ClientMessage,
    into: &mut Commands,
)
    requires empty { into.old ≡ [] }
    ensures window { executed.new ≡ executes executed.old (said_of message.now).commands }
    ensures ran { into.new ≡ fresh_of executed.old.executed (said_of message.now).commands }
{
    executed.execute(message.commands.as_slice(), into);
}

/// Puts the moves that run after the last one into a list that is empty, and answers the time of the last one run.
pub(crate) fn run_moves(last: u32, moves: &[Move], into: &mut ArrayVec<Move, MOST_MOVES>) -> u32
    requires few { length moves.now ≤ 32 }
    requires empty { into.old.items ≡ [] }
    ensures moves { into.new.items ≡ runs last moves.now }
    ensures last { result ≡ last_run_of last moves.now }
{
    let mut last = last;
    for one in moves {
        if one.time > last {
            last = one.time;
            into.push(*one);
        }
    }
    last
}

/// The number of the snapshot that a client asks for after a message: the one that its message acknowledges, or 0; a message
/// without moves doesn't say.
pub(crate) fn delta_after(before: u32, message: &ClientMessage) -> u32
    ensures { result ≡ spec.delta_after before (said_of message.now) }
{
    if message.moves.is_empty() {
        return before;
    }
    if !message.delta {
        return 0;
    }
    message.acknowledged
}
