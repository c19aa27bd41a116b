//! A client that joined, and what is done for it alone.
//! - Rules: "new map", "snapshot flags", "snapshot for a client that is not active", "messages of another map; owed gamestates",
//!   "client states: connected, primed, active".
//! - Engine: `SV_SpawnServer` (sv_init.c), `SV_BuildClientSnapshot` (sv_snapshot.c), `SV_ExecuteClientMessage` and
//!   `SV_ClientEnterWorld` (sv_client.c).
//! - Ours: that a snapshot for a client that isn't active has nothing but the time and the flags in it; that with a new map the
//!   last gamestate's number, the delta number and a debt go.

ghost use Rattle.std.specs.Prelude.{◌≡◌, ◌+◌, ◌^◌, ◌<◌, ◌≤◌, ◌||◌, [], false, length, None, Some};
ghost use Rattle.q3_chan.specs.Datagrams.{client_form};
ghost use Rattle.q3_chan.specs.Gathering.{Gathering, new_gathering};
ghost use Rattle.q3_chan.specs.Sending.{Sending};
ghost use Rattle.q3_clmsg.specs.Values.{said_of};
ghost use Rattle.q3_fields.specs.Kinds.{Layout, end_mark};
ghost use Rattle.q3_entity.specs.Entities.{IsList, RiseFrom, Rises};
ghost use Rattle.q3_player.specs.State.{normal_player, zero_player};
ghost use Rattle.q3_window.specs.Incoming.{executes, fresh_of};
ghost use Rattle.q3_window.specs.Outgoing.{OutgoingState, acknowledge_at, new_outgoing};
ghost use Rattle.q3_slot.specs.declared.stage.ClientStage.TheVariants.{Connected, Primed, Active};
ghost use Rattle.q3_slot.specs.Emitting.{next_snapshot, snapshot_flags};
ghost use Rattle.q3_slot.specs.Slot.{game_of};
ghost use Rattle.q3_slot.specs.Slot as slot_spec;
ghost use Rattle.q3_slot.specs.Slots.{slot_of, slot_with, came_of, goes_with, played};
ghost use Rattle.q3_slot.specs.Taking.{ignores, last_run_of, leading_of, nothing_heard, run_read, runs, said_by};
ghost use Rattle.q3_slot.specs.Taking as spec;

use crate::stage::ClientStage;
use crate::taking::{
    Heard, Origin, ServerTook, check_ack, delta_after, execute_commands, gap_before, read_after,
    run_moves,
};
use arrayvec::ArrayVec;
use q3_chan::Sender;
use q3_clmsg::{ClientIllegible, ClientMessage, Heads, Move, read_heads};
use q3_entity::EntityState;
use q3_io::Address;
use q3_map::Map;
use q3_player::{MOST_AREA, PlayerState, SnapHead};
use q3_profile::Profile;
use q3_window::{Incoming, Outgoing};

/// The flag of a snapshot that rate control delayed, the engine's `SNAPFLAG_RATE_DELAYED` (q_shared.h).
const RATE_DELAYED: u8 = 1;

/// The flag of a snapshot for a client that isn't active, the engine's `SNAPFLAG_NOT_ACTIVE` (q_shared.h).
const NOT_ACTIVE: u8 = 2;

/// The flag that changes with each map, the engine's `SNAPFLAG_SERVERCOUNT` (q_shared.h).
const SERVER_COUNT: u8 = 4;

/// What is kept of a client beside what is sent to it, what was gathered of what it sends, and the commands issued to it.
#[derive(Drop)]
pub(crate) struct Joined {
    // how it joined
    pub challenge: u32,
    /// From where it joined, and then from where its last datagram came.
    pub address: Address,
    pub qport: u16,

    // how far it came on the map
    pub stage: ClientStage,
    /// Whether a gamestate is owed to it: its message goes before any other.
    pub owed: bool,

    // what came of its messages
    /// Which of its commands were executed.
    pub executed: Incoming,
    /// The number of the snapshot that it asks to write the next one against, 0 for none.
    pub delta: u32,
    /// The time of its last move that was run, or of the one with which it entered the map, in milliseconds; 0 before one.
    pub last_run: u32,

    // what was handed in for it alone
    /// In normal form.
    pub player: PlayerState,
    /// The area bytes.
    pub area: ArrayVec<u8, MOST_AREA>,
    /// Whether its snapshots are delayed by rate control.
    pub delayed: bool,
}

impl Joined {
    /// Takes over the player, in normal form.
    pub fn set_player(&mut self, profile: &Profile, player: &PlayerState)
        ensures { self.new ≡ record self.old { player = normal_player profile.now.player.kinds player.now } }
    {
        self.player = player.normal(&profile.player);
    }

    /// Takes over the area bytes.
    pub fn set_area(&mut self, area: &[u8])
        requires { length area.now ≤ 32 }
        ensures { self.new ≡ record self.old { area = record { items = area.now } } }
    {
        copy_area(area, &mut self.area);
    }

    /// The client's snapshots are delayed by rate control from now on, or aren't.
    pub fn set_delayed(&mut self, on: bool)
        ensures { self.new ≡ record self.old { delayed = on } }
    {
        self.delayed = on;
    }

    /// A new map begins: the client is connected to it, and of the last one stays alone the time of the last move run, and
    /// whether snapshots are delayed.
    pub fn begin_map(&mut self)
        ensures { self.new ≡ record self.old {
          stage = Connected;
          owed = false;
          delta = 0;
          player = zero_player;
          area = record { items = [] };
        } }
    {
        self.stage = ClientStage::Connected;
        self.owed = false;
        self.delta = 0;
        self.player = PlayerState::zero();
        self.area.clear();
    }

    /// The gamestate that was owed is begun, under a number: the client is primed.
    pub fn prime(&mut self, number: u32)
        ensures { self.new ≡ record self.old { stage = Primed number; owed = false } }
    {
        self.stage = ClientStage::Primed { game: number };
        self.owed = false;
    }

    /// Takes over the address.
    pub fn set_address(&mut self, address: Address)
        ensures { self.new ≡ record self.old { address = address } }
    {
        self.address = address;
    }

    /// Reads a message of the client, by the commands that were issued to it: what its leading longs say counts, and by
    /// protocol 68 the bytes after them are cleared in their place by the text of the command that they acknowledge. Of a
    /// message of another map no more is read. After a refusal, and after a message of another map, `into` may hold anything.
    ///
    /// `Err` is the first of these:
    /// - `Bits`: the leading longs don't read.
    /// - `Ack`: the window doesn't take the acknowledgement.
    /// - What `read_client_message` refuses, of a message of the map.
    pub fn read(
        &self,
        profile: &Profile,
        map: &Map,
        issued: &Outgoing,
        bytes: &mut [u8],
        into: &mut ClientMessage,
    ) -> Result<Origin, ClientIllegible>
        ensures { came_of (said_of into.new) result ≡ said_by profile.now map.now
            (slot_with issued.now self.now) bytes.old }
    {
        let heads = read_heads(&profile.code, bytes)?;
        check_ack(issued, heads.command)?;
        let text = issued.text(heads.command);
        read_after(profile, map, self.challenge, heads, text, bytes, into)
    }

    /// Runs what was read of a message of the client in a slot, under a number. The answer is the first that fits:
    /// - `Illegible`: it isn't legible. Nothing changes.
    /// - `Ignored`: it is of another map. Its acknowledgement is taken, and a gamestate may be owed from then on.
    /// - `Gap`: one of its commands leaves a gap. Nothing changes.
    /// - `Ran`: it was run.
    pub fn run(
        &mut self,
        issued: &mut Outgoing,
        map: &Map,
        slot: u8,
        number: u32,
        read: Result<Origin, ClientIllegible>,
        message: &ClientMessage,
        heard: &mut Heard,
    ) -> ServerTook
        requires heard { heard.old ≡ nothing_heard self.old.owed }
        ensures slot { (sending : Sending) (gathering : Gathering) → slot_of sending gathering issued.new self.new
            ≡ (run_read map.now (slot_of sending gathering issued.old self.old) slot number
            (came_of (said_of message.now) read)).slot }
        ensures answer { (sending : Sending) (gathering : Gathering)
            → result ≡ (run_read map.now (slot_of sending gathering issued.old self.old) slot number
            (came_of (said_of message.now) read)).answer }
        ensures heard { (sending : Sending) (gathering : Gathering)
            → heard.new ≡ (run_read map.now (slot_of sending gathering issued.old self.old) slot number
            (came_of (said_of message.now) read)).heard }
    {
        let origin = match read {
            Ok(origin) => origin,
            Err(cause) => return ServerTook::Illegible(slot, cause),
        };
        if let Origin::Other(heads) = origin {
            return self.ignore(issued, map, slot, heads, heard);
        }
        if let Some(number) = gap_before(&self.executed, message) {
            return ServerTook::Gap { slot, number };
        }
        self.run_whole(issued, message, heard);
        ServerTook::Ran { slot, number }
    }

    /// Takes the acknowledgement of a message of another map, by which a gamestate may be owed from then on.
    fn ignore(
        &mut self,
        issued: &mut Outgoing,
        map: &Map,
        slot: u8,
        heads: Heads,
        heard: &mut Heard,
    ) -> ServerTook
        requires heard { heard.old ≡ nothing_heard self.old.owed }
        ensures slot { (sending : Sending) (gathering : Gathering) → slot_of sending gathering issued.new self.new
            ≡ (ignores map.now (slot_of sending gathering issued.old self.old) slot (leading_of heads)).slot }
        ensures answer { (sending : Sending) (gathering : Gathering)
            → result ≡ (ignores map.now (slot_of sending gathering issued.old self.old) slot
            (leading_of heads)).answer }
        ensures heard { (sending : Sending) (gathering : Gathering)
            → heard.new ≡ (ignores map.now (slot_of sending gathering issued.old self.old) slot
            (leading_of heads)).heard }
    {
        // it was within the window where the message was read
        let _ = issued.acknowledge(heads.command);
        self.owed = self.owes_after(map, heads);
        heard.owed = self.owed;
        ServerTook::Ignored { slot, id: heads.id }
    }

    /// Whether a gamestate is owed after a message of another map.
    fn owes_after(&self, map: &Map, heads: Heads) -> bool
        ensures { result ≡ (self.now.owed || spec.asks_game map.now (slot_with new_outgoing self.now) (leading_of heads)) }
    {
        self.owed || self.asks_game(map, heads)
    }

    /// Whether a message of another map makes a gamestate owed.
    fn asks_game(&self, map: &Map, heads: Heads) -> bool
        ensures { result ≡ spec.asks_game map.now (slot_with new_outgoing self.now) (leading_of heads) }
    {
        map.has_map() && !self.stage.is_active() && self.is_after_game(heads.acknowledged)
    }

    /// Whether a message number is above that of the last gamestate of the map, if one was begun.
    fn is_after_game(&self, number: u32) -> bool
        ensures { result ≡ spec.is_after_game number (game_of self.now.stage) }
    {
        match self.stage.game() {
            Some(game) => game < number,
            None => true,
        }
    }

    /// Runs a message that leaves no gap: its moves are run, its acknowledgement is taken, and its commands are executed.
    fn run_whole(&mut self, issued: &mut Outgoing, message: &ClientMessage, heard: &mut Heard)
        requires no_commands { heard.old.commands ≡ [] }
        requires no_moves { heard.old.moves.items ≡ [] }
        requires no_entered { heard.old.entered ≡ None }
        ensures client { (sending : Sending) (gathering : Gathering) → self.new
            ≡ record (played self.old (goes_with sending gathering issued.old self.old (said_of message.now))) {
              executed = executes self.old.executed (said_of message.now).commands;
            } }
        ensures issued { issued.new ≡ (acknowledge_at issued.old (said_of message.now).command).window }
        ensures commands { heard.new.commands ≡ fresh_of self.old.executed.executed (said_of message.now).commands }
        ensures moves { (sending : Sending) (gathering : Gathering)
            → heard.new.moves.items ≡ (goes_with sending gathering issued.old self.old (said_of message.now)).moves }
        ensures entered { (sending : Sending) (gathering : Gathering)
            → heard.new.entered ≡ (goes_with sending gathering issued.old self.old (said_of message.now)).entered }
        ensures owed { heard.new.owed ≡ heard.old.owed }
    {
        self.play(message, heard);
        // it was within the window where the message was read
        let _ = issued.acknowledge(message.command);
        execute_commands(&mut self.executed, message, &mut heard.commands);
    }

    /// Runs the moves of a message, by how far the client came.
    fn play(&mut self, message: &ClientMessage, heard: &mut Heard)
        requires no_moves { heard.old.moves.items ≡ [] }
        requires no_entered { heard.old.entered ≡ None }
        ensures client { (sending : Sending) (gathering : Gathering) (issued : OutgoingState) → self.new
            ≡ played self.old (goes_with sending gathering issued self.old (said_of message.now)) }
        ensures executed { self.new.executed ≡ self.old.executed }
        ensures moves { (sending : Sending) (gathering : Gathering) (issued : OutgoingState) → heard.new.moves.items
            ≡ (goes_with sending gathering issued self.old (said_of message.now)).moves }
        ensures entered { (sending : Sending) (gathering : Gathering) (issued : OutgoingState) → heard.new.entered
            ≡ (goes_with sending gathering issued self.old (said_of message.now)).entered }
        ensures commands { heard.new.commands ≡ heard.old.commands }
        ensures owed { heard.new.owed ≡ heard.old.owed }
    {
        let Some((first, rest)) = message.moves.split_first() else {
            return;
        };
        match self.stage {
            ClientStage::Connected => self.delta = 0,
            ClientStage::Primed { game } => self.enter(game, first.time, rest, heard),
            ClientStage::Active { .. } => self.go_on(message, heard),
        }
    }

    /// Enters the map under a gamestate, with a move of this time, which isn't run, and runs those after it.
    fn enter(&mut self, game: u32, time: u32, rest: &[Move], heard: &mut Heard)
        requires few { length rest.now ≤ 32 }
        requires no_moves { heard.old.moves.items ≡ [] }
        ensures client { self.new ≡ record self.old {
          stage = Active game;
          delta = 0;
          last_run = last_run_of time rest.now;
        } }
        ensures moves { heard.new.moves.items ≡ runs time rest.now }
        ensures entered { heard.new.entered ≡ Some time }
        ensures commands { heard.new.commands ≡ heard.old.commands }
        ensures owed { heard.new.owed ≡ heard.old.owed }
    {
        self.stage = ClientStage::Active { game };
        self.delta = 0;
        self.last_run = run_moves(time, rest, &mut heard.moves);
        heard.entered = Some(time);
    }

    /// Runs the moves of a message of a client that plays.
    fn go_on(&mut self, message: &ClientMessage, heard: &mut Heard)
        requires no_moves { heard.old.moves.items ≡ [] }
        ensures client { self.new ≡ record self.old {
          delta = spec.delta_after self.old.delta (said_of message.now);
          last_run = last_run_of self.old.last_run (said_of message.now).moves;
        } }
        ensures moves { heard.new.moves.items ≡ runs self.old.last_run (said_of message.now).moves }
        ensures entered { heard.new.entered ≡ heard.old.entered }
        ensures commands { heard.new.commands ≡ heard.old.commands }
        ensures owed { heard.new.owed ≡ heard.old.owed }
    {
        self.delta = delta_after(self.delta, message);
        self.last_run = run_moves(self.last_run, &message.moves, &mut heard.moves);
    }

    /// Fills in the head of the snapshot that this sender sends to the client next. What was gathered and the commands
    /// don't count.
    pub fn fill(&self, sender: &Sender, map: &Map, head: &mut SnapHead)
        requires { sender.now.number + 1 < 2 ^ 32 }
        ensures head { head.new ≡ (next_snapshot map.now (slot_of sender.now
            (new_gathering (client_form None)) new_outgoing self.now)).head }
        ensures number { head.new.number ≡ sender.now.number + 1 }
    {
        head.number = sender.number() + 1;
        head.time = map.time();
        head.flags = flags_of(map.count(), self.delayed, self.stage);
        if !self.stage.is_active() {
            head.area.clear();
            head.player = PlayerState::zero();
            return;
        }
        copy_area(&self.area, &mut head.area);
        head.player = self.player;
    }

    /// The entities of the snapshot that the client gets next: none, as long as it doesn't play.
    pub fn seen<'a>(&self, map: &'a Map) -> &'a [EntityState]
        ensures seen { (sending : Sending) (gathering : Gathering) (issued : OutgoingState)
            → result.now ≡ (next_snapshot map.now (slot_of sending gathering issued self.now)).entities }
        ensures rises { Rises result.now }
        ensures listed { (table : Layout) → RiseFrom (end_mark table) 0 map.now.entities → IsList table result.now }
    {
        if self.stage.is_active() {
            map.lowest()
        } else {
            &[]
        }
    }

    /// The number of the snapshot against which the next one may be written, 0 for none: the one that the client asks for, as
    /// long as it plays.
    pub fn asked(&self) -> u32
        ensures { result ≡ slot_spec.asked (slot_with new_outgoing self.now) }
    {
        if self.stage.is_active() {
            self.delta
        } else {
            0
        }
    }
}

/// The flags of a client's snapshots.
fn flags_of(count: bool, delayed: bool, stage: ClientStage) -> u8
    ensures { result ≡ snapshot_flags count delayed stage }
{
    let late = if delayed { RATE_DELAYED } else { 0 };
    let waiting = if stage.is_active() { 0 } else { NOT_ACTIVE };
    late + waiting + if count { SERVER_COUNT } else { 0 }
}

fn copy_area(from: &[u8], into: &mut ArrayVec<u8, MOST_AREA>)
    requires { length from.now ≤ 32 }
    ensures { into.new.items ≡ from.now }
{
    into.clear();
    into.try_extend_from_slice(from).unwrap();
}
