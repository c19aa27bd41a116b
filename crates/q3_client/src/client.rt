//! A client's end: pure state, one call an event.
//! - Rules: "what a client keeps", "what a gamestate resets"; "which moves may be issued", "which moves a message carries"; "when
//!   a command may be issued"; "what a client sends", "the check of protocol 71"; "end of message numbers", "messages that are too
//!   long".
//! - Ours: the last two.

ghost use Rattle.std.specs.Prelude.{◌≡◌, ◌≤◌, [], length, None, IfOk, IfSome, option_map};
ghost use Rattle.q3_window.specs.Outgoing.{issued_of, new_outgoing};
ghost use Rattle.q3_entity.specs.Entities.{Rises, run_of};
ghost use Rattle.q3_chan.specs.Datagrams.{client_form, longest_message, server_form};
ghost use Rattle.q3_chan.specs.Gathering.{new_gathering};
ghost use Rattle.q3_chan.specs.Sending.{HandsOut, new_sending};
ghost use Rattle.q3_rings.specs.Loans.{snapshot_of};
ghost use Rattle.q3_rings.specs.Rings.{view_at};
ghost use Rattle.q3_client.specs.Client.{new_client, type_at, take_at, moves_after};
ghost use Rattle.q3_client.specs.Client as client_spec;
ghost use Rattle.q3_client.specs.Moves.{add_move_at, most_moves};
ghost use Rattle.q3_client.specs.Sending.{emit_at, IsSaid};
ghost use Rattle.q3_client.specs.Sending as spec;

use crate::moves::{Issued, carry, is_issuable};
use crate::receiving::{gather, receive};
use crate::saying::{is_unclear, write_scrambled};
use arrayvec::ArrayVec;
use circular_buffer::HeapCircularBuffer;
use q3_bits::NoMemory;
use q3_chan::{
    Datagram, Gathered, Gatherer, LONGEST_MESSAGE, SEQUENCE_END, Sender, Side, check_for,
};
use q3_clmsg::{MOST_MOVES, Move};
use q3_clstate::{Applied, ClState, Log, SnapOutcome};
use q3_profile::Profile;
use q3_rings::SnapView;
use q3_strings::laws;
use q3_svmsg::Illegible;
use q3_text::Text;
use q3_window::{Outgoing, WindowFull};
use std::alloc::Global;
use std::marker::Model;
use std::mem::swap;

/// What a client's take answers.
#[derive(Clone, Copy, Debug, PartialEq, Eq)]
pub enum ClientTook {
    /// A message before wasn't legible, the first of them for this cause; nothing is taken any more.
    Dropped(Illegible),
    /// The datagram has fewer bytes than its header.
    Runt,
    /// It begins with four bytes of 255.
    Connectionless,
    /// By protocol 71, the check isn't that of the number and of the client's challenge.
    BadCheck,
    /// The message's number isn't above the newest taken.
    Old,
    /// A piece that doesn't start where what was gathered ends.
    OutOfOrder,
    /// A piece, or a message, that is longer than may be, or than is there.
    BadFragment,
    /// A piece that isn't the last of its message.
    Partial,
    /// The message isn't legible. The client is dropped.
    Illegible(Illegible),
    /// The message was applied: what became of it.
    Applied(Applied),
}

/// Why a move can't be issued.
#[derive(Clone, Copy, Debug, PartialEq, Eq)]
pub enum MoveError {
    /// No gamestate was applied.
    NoGame,
    /// Its time isn't above that of the last move issued, which is this, in milliseconds.
    NotLater(u32),
    /// Forward, right or up is -128, or the time is 2^31 or above.
    Range,
}

/// What a client's emit answers.
#[derive(Clone, Copy, Debug, PartialEq, Eq)]
pub enum Sent {
    /// A message wasn't legible, the first of them for this cause; nothing is sent any more.
    Dropped(Illegible),
    /// A datagram with a further piece of the message of this number.
    Fragment { number: u32 },
    /// Message numbers have ended.
    SequenceEnd,
    /// By protocol 68, the message's leading longs take more bits than stay clear, so that scrambling would hide a part of them;
    /// its number is used again.
    Unclear,
    /// The message has more than 16,384 bytes; its number is used again.
    Overlong,
    /// A datagram with a message, or its first piece: the message's number and its length.
    Message { number: u32, bytes: usize },
}

/// A client. After `new` no call takes memory.
#[derive(Drop)]
pub struct Client {
    // what the messages that were applied left
    /// With a copy of the profile.
    state: ClState,
    /// The bytes of the last, cleared, in the first so many of 16,384.
    message: Vec<u8>,
    /// How many they are, 0 before the first.
    message_length: usize,

    // how it joined
    challenge: u32,
    qport: u16,
    /// Of how many messages before it each message repeats the moves.
    dup: u8,

    // what it takes
    gatherer: Gatherer,
    /// A place for the bytes of a message that came whole: 16,384.
    whole: Vec<u8>,
    /// Whether the snapshot of the last message that was applied was accepted.
    delta: bool,
    /// Whether it asks for whole snapshots, whatever was accepted.
    asks_whole: bool,
    /// The cause for which it was dropped, if it was: from then on it takes and sends nothing.
    dropped: Option<Illegible>,

    // what it sends
    sender: Sender,
    /// The commands that it issued.
    outgoing: Outgoing,
    /// The moves that it issued since the last gamestate: the newest 32.
    moves: HeapCircularBuffer<Issued>,
    /// The time of the last move that it issued on any map, in milliseconds, 0 for none.
    last_time: u32,
    /// A place for the moves of a message.
    carried: ArrayVec<Move, MOST_MOVES>,
    /// A place for the bytes of a message that is written: 16,384.
    buffer: Vec<u8>,
}

impl Model for Client {
    ghost use Rattle.std.specs.Prelude.{◌≡◌, ◌<◌, ◌≤◌, length, take};
    ghost use Rattle.q3_chan.specs.Datagrams.{longest_message, sequence_end};
    ghost use Rattle.q3_client.specs.Client.{ClientState};
    ghost use Rattle.q3_client.specs.Moves.{most_moves};
    ghost use Rattle.q3_client.specs.Standing.{AreMoves};

    ghost Value = { ClientState };

    ghost view = { λ c. record {
      state = c.state;
      message = take c.message_length c.message.items;
      challenge = c.challenge;
      qport = c.qport;
      dup = c.dup;
      gathering = c.gatherer;
      delta = c.delta;
      asks_whole = c.asks_whole;
      dropped = c.dropped;
      sending = c.sender;
      issued = c.outgoing;
      moves = c.moves.items;
      last_time = c.last_time;
    } };

    ghost invariant = { λ c. (length c.whole.items ≡ longest_message) × (length c.buffer.items ≡ longest_message)
        × (c.sender.number < sequence_end)
        × (c.moves.capacity ≡ most_moves) × AreMoves c.moves.items × (length c.message.items ≡ longest_message)
        × (c.message_length ≤ longest_message) };
}

impl Client {
    /// A client that has taken nothing. Each message repeats the moves of `dup` messages before it. The profile's ring for a
    /// client's entities has 512 to 65,536 places. `Err` is want of memory.
    #[tactic(auto, using(crate::proofs::Begins::no_moves))]
    pub fn new(
        alloc: Global,
        profile: &Profile,
        challenge: u32,
        qport: u16,
        dup: u8,
    ) -> Result<Client, NoMemory>
        requires least { 512 ≤ profile.now.parse_ring }
        requires most { profile.now.parse_ring ≤ 65536 }
        ensures { IfOk result (λ client. client ≡ new_client profile.now challenge qport dup) }
    {
        let (message, whole, buffer) = buffers(alloc)?;
        let check = check_for(profile.protocol, challenge);
        let (gatherer, sender) = netchan(alloc, check, qport)?;
        let (outgoing, moves) = nothing_issued(alloc)?;
        let state = ClState::new(alloc, profile)?;
        Ok(Client {
            state,
            message,
            message_length: 0,
            challenge,
            qport,
            dup,
            gatherer,
            whole,
            delta: false,
            asks_whole: false,
            dropped: None,
            sender,
            outgoing,
            moves,
            last_time: 0,
            carried: ArrayVec::new(),
            buffer,
        })
    }

    /// Takes a datagram, any bytes, and tells which of the server's commands it executed. The answer is the first that fits:
    /// - `Dropped`: the client was dropped before. Nothing changes.
    /// - `Runt`, `Connectionless`, `BadCheck`, `Old`: as the gathering answers.
    /// - `OutOfOrder`, `BadFragment`, `Partial`: likewise, no message came whole by it.
    /// - `Illegible`: a message that came whole isn't legible. The client is dropped, and beside the number taken and what was
    ///   gathered nothing else changes.
    /// - `Applied`: the message was applied, and what became of it.
    #[tactic(auto, unfolding(crate::specs::Client::take_at))]
    pub fn take(&mut self, datagram: &[u8], log: &mut Log) -> ClientTook
        ensures client { self.new ≡ (take_at self.old datagram.now).client }
        ensures answer { result ≡ (take_at self.old datagram.now).answer }
        ensures log { log.new.commands ≡ (take_at self.old datagram.now).heard }
    {
        log.commands.clear();
        if let Some(cause) = self.dropped {
            return ClientTook::Dropped(cause);
        }
        let (number, length) = match gather(&mut self.gatherer, datagram, &mut self.whole) {
            Gathered::Whole { number, length } => (number, length),
            Gathered::Partial => return ClientTook::Partial,
            Gathered::Old => return ClientTook::Old,
            Gathered::OutOfOrder => return ClientTook::OutOfOrder,
            Gathered::BadFragment => return ClientTook::BadFragment,
            Gathered::BadCheck => return ClientTook::BadCheck,
            Gathered::Runt => return ClientTook::Runt,
            Gathered::Connectionless => return ClientTook::Connectionless,
        };
        match receive(
            &mut self.state,
            &mut self.outgoing,
            self.challenge,
            number,
            &mut self.whole,
            length,
            log,
        ) {
            Ok(applied) => {
                swap(&mut self.whole, &mut self.message);
                self.message_length = length;
                self.note(&applied);
                ClientTook::Applied(applied)
            }
            Err(cause) => {
                self.dropped = Some(cause);
                ClientTook::Illegible(cause)
            }
        }
    }

    /// Notes of a message that was applied whether its snapshot was accepted. A gamestate wipes the moves, and keeps the time of
    /// the last one.
    #[tactic(auto, using(crate::proofs::Begins::no_moves))]
    fn note(&mut self, applied: &Applied)
        ensures { self.new ≡ record self.old {
          delta = client_spec.is_accepted applied.now.snap;
          moves = moves_after applied.now.game self.old.moves;
        } }
    {
        self.delta = is_accepted(applied.snap);
        if applied.game {
            self.moves.clear();
        }
    }

    /// Issues a move: the messages that are begun next carry it. `Err` is the first of these that fits, and nothing changes then:
    /// - `NoGame`: no gamestate was applied.
    /// - `NotLater`: its time isn't above that of the last move issued, also of one before the last gamestate, or 0 before the
    ///   first.
    /// - `Range`: forward, right or up is -128, or the time is 2^31 or above.
    pub fn add_move(&mut self, one: &Move) -> Result<(), MoveError>
        ensures { add_move_at self.old one.now ≡ record { client = self.new; answer = result } }
    {
        if !self.state.has_game() {
            return Err(MoveError::NoGame);
        }
        if one.time <= self.last_time {
            return Err(MoveError::NotLater(self.last_time));
        }
        if !is_issuable(one) {
            return Err(MoveError::Range);
        }
        self.moves.push_back(Issued {
            begun: self.sender.number(),
            one: *one,
        });
        self.last_time = one.time;
        Ok(())
    }

    /// Issues a command, whose number is the answer: the messages that are begun next carry it, until it is acknowledged. A
    /// client that was dropped issues commands too. `WindowFull` comes exactly where it doesn't fit, and nothing changes then.
    pub fn type_command(&mut self, text: &Text) -> Result<u32, WindowFull>
        ensures { type_at self.old text.now ≡ record { client = self.new; answer = result } }
    {
        self.outgoing.issue(text)
    }

    /// The number of the last command that it issued, 0 for none.
    pub fn issued(&self) -> u32
        ensures { result ≡ issued_of self.now.issued }
    {
        self.outgoing.issued()
    }

    /// From here on the messages that are begun ask for whole snapshots, or for deltas again.
    pub fn ask_whole(&mut self, on: bool)
        ensures { self.new ≡ record self.old { asks_whole = on } }
    {
        self.asks_whole = on;
    }

    /// Makes the next datagram for the server: it is empty where nothing is handed out. A message that it begins is well formed,
    /// whatever the client took before. The answer is the first that fits, and after each but `Fragment` and `Message` nothing
    /// has changed:
    /// - `Dropped`: the client was dropped.
    /// - `Fragment`: pieces of a message are left, of which the next is handed out.
    /// - `SequenceEnd`: message numbers have ended.
    /// - `Unclear`: by protocol 68, the next message's leading longs take more bits than stay clear.
    /// - `Overlong`: the next message has more than 16,384 bytes.
    /// - `Message`: one is begun.
    #[tactic(auto, unfolding(crate::specs::Sending::emit_at))]
    pub fn emit(&mut self, out: &mut Datagram) -> Sent
        ensures client { self.new ≡ (emit_at self.old).client }
        ensures answer { result ≡ (emit_at self.old).answer }
        ensures piece { HandsOut (emit_at self.old).piece out.new.items }
        ensures began { IfSome (emit_at self.old).began (IsSaid self.old.state.profile self.old.challenge) }
    {
        out.clear();
        if let Some(cause) = self.dropped {
            return Sent::Dropped(cause);
        }
        if !self.sender.idle() {
            self.sender.next(out);
            return Sent::Fragment {
                number: self.sender.number(),
            };
        }
        self.emit_new(out)
    }

    /// The same of a client that wasn't dropped, where nothing is left of a message.
    fn emit_new(&mut self, out: &mut Datagram) -> Sent
        requires idle { self.old.sending.under_way ≡ None }
        requires out { out.old.items ≡ [] }
        ensures client { self.new ≡ (spec.emit_new self.old).client }
        ensures answer { result ≡ (spec.emit_new self.old).answer }
        ensures piece { HandsOut (spec.emit_new self.old).piece out.new.items }
        ensures began { IfSome (spec.emit_new self.old).began (IsSaid self.old.state.profile self.old.challenge) }
    {
        let number = self.sender.number() + 1;
        if number >= SEQUENCE_END {
            return Sent::SequenceEnd;
        }
        let acknowledged = self.gatherer.taken();
        if is_unclear(&self.state, acknowledged) {
            return Sent::Unclear;
        }
        laws::numbered_are_commands();
        // a ring holds no more than it has room for
        prove!(self.moves.len() <= MOST_MOVES);
        carry(&self.moves, number, self.dup, &mut self.carried);
        let delta = self.wants_delta();
        let Ok(bytes) = write_scrambled(
            &self.state,
            &self.outgoing,
            self.challenge,
            acknowledged,
            delta,
            &self.carried,
            &mut self.buffer,
        ) else {
            return Sent::Overlong;
        };
        self.sender.start(&self.buffer[..bytes]);
        self.sender.next(out);
        Sent::Message { number, bytes }
    }

    /// Whether the message that is begun next may ask for a delta.
    fn wants_delta(&self) -> bool
        ensures { result ≡ spec.wants_delta self.now }
    {
        self.delta && !self.asks_whole
    }

    /// The bytes of the last message that was applied, cleared; none before the first.
    pub fn message(&self) -> &[u8]
        ensures message { result.now ≡ self.now.message }
        ensures short { length result.now ≤ longest_message }
    {
        &self.message[..self.message_length]
    }

    /// What the messages that were applied left.
    pub fn state(&self) -> &ClState
        ensures { result.now ≡ self.now.state }
    {
        &self.state
    }

    /// Lends the snapshot of a number, if it is held.
    pub fn view(&self, number: u32) -> Option<SnapView<'_>>
        ensures view { option_map snapshot_of result ≡ view_at self.now.state.held number }
        ensures rises { IfSome result (λ view. Rises (run_of view.entities)) }
    {
        self.state.view(number)
    }
}

/// Whether a snapshot was accepted.
fn is_accepted(outcome: SnapOutcome) -> bool
    ensures { result ≡ client_spec.is_accepted outcome }
{
    matches!(outcome, SnapOutcome::Accepted { .. })
}

/// What receives and what sends, with a check of this challenge or none.
fn netchan(alloc: Global, check: Option<u32>, qport: u16) -> Result<(Gatherer, Sender), NoMemory>
    ensures { IfOk result (λ made. (made.0 ≡ new_gathering (server_form check))
        × (made.1 ≡ new_sending (client_form check) qport)) }
{
    let mut gatherer = Gatherer::new(alloc, Side::Server)?;
    gatherer.set_check(check);
    let mut sender = Sender::new(alloc, Side::Client, qport)?;
    sender.set_check(check);
    Ok((gatherer, sender))
}

/// A window and a ring in which nothing was issued. `Err` is want of memory.
fn nothing_issued(alloc: Global) -> Result<(Outgoing, HeapCircularBuffer<Issued>), NoMemory>
    ensures commands { IfOk result (λ issued. issued.0 ≡ new_outgoing) }
    ensures moves { IfOk result (λ issued. (issued.1.items ≡ []) × (issued.1.capacity ≡ most_moves)) }
{
    let outgoing = Outgoing::new(alloc)?;
    let moves = HeapCircularBuffer::with_capacity(alloc, MOST_MOVES)?;
    Ok((outgoing, moves))
}

/// Room for the last message that was applied, for one that came whole and for one that is written.
fn buffers(alloc: Global) -> Result<(Vec<u8>, Vec<u8>, Vec<u8>), NoMemory>
    ensures { IfOk result (λ made. (length made.0.items ≡ longest_message) × (length made.1.items ≡ longest_message)
        × (length made.2.items ≡ longest_message)) }
{
    let message = vec![in alloc; 0; LONGEST_MESSAGE]?;
    let whole = vec![in alloc; 0; LONGEST_MESSAGE]?;
    let written = vec![in alloc; 0; LONGEST_MESSAGE]?;
    Ok((message, whole, written))
}
