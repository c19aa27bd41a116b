//! A place for a client at the server.
//! - Rules: "how a datagram finds its slot", "the check of protocol 71"; "when a command may be issued", "config changes as
//!   commands"; "what the server sends", and of "end of message numbers" and "unclear messages" where they are asked.
//! - Engine: `SV_SendConfigstring` (sv_init.c), for config changes.
//! - Ours: the end of message numbers; that a primed client is told of config changes at once.

ghost use Rattle.std.specs.Prelude.{◌≡◌, ◌<◌, ◌≤◌, ◌+◌, [], false, true, None, Some, All, IfOk, IfSome, IsSome, IsTrue, length, option_map, is_some};
ghost use Rattle.q3_chan.specs.Datagrams.{sequence_end};
ghost use Rattle.q3_chan.specs.Sending.{HandsOut, IsIdle};
ghost use Rattle.q3_fields.specs.Kinds.{end_mark};
ghost use Rattle.q3_entity.specs.Entities.{RiseFrom};
ghost use Rattle.q3_config.specs.Strings.{is_config_byte, places};
ghost use Rattle.q3_config.specs.Laws.{piece_texts};
ghost use Rattle.q3_window.specs.Outgoing.{fits, total_of, with_texts};
ghost use Rattle.q3_slot.specs.Slot.{SlotState, new_slot, sending_of, with_area, with_delayed, with_player};
ghost use Rattle.q3_slot.specs.Slot as spec;
ghost use Rattle.q3_slot.specs.Standing.{IsSlot};
ghost use Rattle.q3_slot.specs.Slots.{HoldLists, game_for, given, slot_saying, said_of_slot, lacks_places, tells, slot_after, map_after, frames_after, answer_of, piece_of, slot_after_datagram, answer_to, heard_of};
ghost use Rattle.q3_slot.specs.Slots as slots_spec;
ghost use Rattle.q3_slot.specs.Taking.{nothing_heard};

use crate::answer::{Emitted, NoClient, SayError};
use crate::beginning::{begin_game, begin_snapshot};
use crate::emitting::{Recipient, has_ended};
use crate::joined::Joined;
use crate::laws;
use crate::shared::Shared;
use crate::stage::ClientStage;
use crate::taking::{Heard, ServerTook};
use arrayvec::ArrayVec;
use q3_bits::NoMemory;
use q3_built::is_unclear;
use q3_chan::{Datagram, Gathered, Gatherer, LONGEST_MESSAGE, Sender, Side, check_for};
use q3_clmsg::ClientMessage;
use q3_config::{SYSTEM_INFO, piece, pieces, shape};
use q3_io::Address;
use q3_map::Map;
use q3_player::PlayerState;
use q3_profile::Profile;
use q3_text::Text;
use q3_window::{Incoming, Outgoing, WindowFull};
use std::alloc::Global;
use std::marker::Model;

/// A place, and the client in it, once one has joined. After `new` no call takes memory.
#[derive(Drop)]
pub struct Slot {
    /// Cuts the messages that go to the client.
    sender: Sender,
    /// Gathers the datagrams that come from it.
    gatherer: Gatherer,
    /// The window of the commands that are issued to it.
    pub(crate) issued: Outgoing,
    /// The client at the other end of these three, which are as they were at first until it joins.
    pub(crate) client: Option<Joined>,
}

impl Model for Slot {
    ghost use Rattle.std.specs.Prelude.{◌≡◌, ◌<◌, Option, None, option_map, MatchOption, ⊤};
    ghost use Rattle.q3_chan.specs.Datagrams.{sequence_end, server_form, client_form};
    ghost use Rattle.q3_chan.specs.Gathering.{new_gathering};
    ghost use Rattle.q3_chan.specs.Sending.{new_sending};
    ghost use Rattle.q3_window.specs.Outgoing.{new_outgoing};
    ghost use Rattle.q3_slot.specs.Slot.{SlotState};
    ghost use Rattle.q3_slot.specs.Slots.{slot_of};

    ghost Value = { Option SlotState };

    ghost view = { λ s. option_map (slot_of s.sender s.gatherer s.issued) s.client };

    ghost invariant = { λ s. (s.sender.number < sequence_end)
        × MatchOption s.client ((s.sender ≡ new_sending (server_form None) 0)
        × (s.gatherer ≡ new_gathering (client_form None)) × (s.issued ≡ new_outgoing)) (λ client. ⊤) };
}

impl Slot {
    /// A place with no client. `Err` is want of memory.
    pub fn new(alloc: Global) -> Result<Slot, NoMemory>
        ensures { IfOk result (λ slot. slot ≡ None) }
    {
        Ok(Slot {
            sender: Sender::new(alloc, Side::Server, 0)?,
            gatherer: Gatherer::new(alloc, Side::Client)?,
            issued: Outgoing::new(alloc)?,
            client: None,
        })
    }

    /// Whether a client has joined.
    pub fn is_taken(&self) -> bool
        ensures { result ≡ is_some self.now }
    {
        self.client.is_some()
    }

    /// Whether the client has this host and qport.
    pub fn is_of(&self, host: u32, qport: u16) -> bool
        ensures { result ≡ spec.is_of host qport self.now }
    {
        match &self.client {
            Some(client) => client.address.host == host && client.qport == qport,
            None => false,
        }
    }

    /// A client joins by a protocol, from an address.
    pub fn join(&mut self, protocol: u32, challenge: u32, qport: u16, address: Address)
        requires { self.old ≡ None }
        ensures { self.new ≡ Some (new_slot protocol challenge qport address) }
    {
        let check = check_for(protocol, challenge);
        self.sender.set_check(check);
        self.gatherer.set_check(check);
        self.client = Some(Joined {
            challenge,
            address,
            qport,
            stage: ClientStage::Connected,
            owed: false,
            executed: Incoming::new(),
            delta: 0,
            last_run: 0,
            player: PlayerState::zero(),
            area: ArrayVec::new(),
            delayed: false,
        });
    }

    /// The address of the client.
    pub fn address(&self) -> Option<Address>
        ensures { result ≡ option_map (λ slot. slot.address) self.now }
    {
        Some(self.client.as_ref()?.address)
    }

    /// Takes over the client's player, in normal form.
    pub fn set_player(&mut self, profile: &Profile, player: &PlayerState) -> Result<(), NoClient>
        ensures slot { self.new ≡ option_map (λ slot. with_player profile.now slot player.now) self.old }
        ensures answer { result ≡ given self.old }
    {
        let Some(client) = &mut self.client else {
            return Err(NoClient);
        };
        client.set_player(profile, player);
        Ok(())
    }

    /// Takes over the client's area bytes.
    pub fn set_area(&mut self, area: &[u8]) -> Result<(), NoClient>
        requires { length area.now ≤ 32 }
        ensures slot { self.new ≡ option_map (λ slot. with_area slot area.now) self.old }
        ensures answer { result ≡ given self.old }
    {
        let Some(client) = &mut self.client else {
            return Err(NoClient);
        };
        client.set_area(area);
        Ok(())
    }

    /// The client's snapshots are delayed by rate control from now on, or aren't; as long as they are, each has a flag for it.
    pub fn set_delayed(&mut self, on: bool) -> Result<(), NoClient>
        ensures slot { self.new ≡ option_map (λ slot. with_delayed slot on) self.old }
        ensures answer { result ≡ given self.old }
    {
        let Some(client) = &mut self.client else {
            return Err(NoClient);
        };
        client.set_delayed(on);
        Ok(())
    }

    /// The number of the message of which pieces are left: `None` exactly where none are, and where there is no client.
    pub fn sending(&self) -> Option<u32>
        ensures { result ≡ sending_of self.now }
    {
        if !self.is_taken() || self.sender.idle() {
            return None;
        }
        Some(self.sender.number())
    }

    /// A new map begins: the client is connected to it, and of the last one stays alone the time of the last move run, and
    /// whether snapshots are delayed.
    pub fn on_new_map(&mut self)
        ensures { self.new ≡ option_map spec.on_new_map self.old }
    {
        let Some(client) = &mut self.client else {
            return;
        };
        client.begin_map();
    }

    /// Issues a command to the client, whose number is the answer: the messages that are begun next carry it, until the
    /// client acknowledges it. `Err` is the first of these that fits, and nothing changes then:
    /// - `NoClient`: there is no client.
    /// - `Own`: the text would change config string 1.
    /// - `NotPrimed`: the client is connected.
    /// - `WindowFull`: it doesn't fit into the window.
    pub fn say(&mut self, text: &Text) -> Result<u32, SayError>
        ensures slot { self.new ≡ slot_saying text.now self.old }
        ensures answer { result ≡ said_of_slot text.now self.old }
    {
        let Some(client) = &self.client else {
            return Err(SayError::NoClient);
        };
        if changes_own(text) {
            return Err(SayError::Own);
        }
        if client.stage.is_connected() {
            return Err(SayError::NotPrimed);
        }
        match self.issued.issue(text) {
            Ok(number) => Ok(number),
            Err(WindowFull) => Err(SayError::WindowFull),
        }
    }

    /// Whether there is a client that is told of config changes and has no room for so many commands, whose texts have so many
    /// bytes together.
    pub fn lacks_room(&self, count: u32, bytes: u32) -> bool
        ensures { result ≡ lacks_places count bytes self.now }
    {
        let Some(client) = &self.client else {
            return false;
        };
        !client.stage.is_connected() && !self.issued.fits(count, bytes)
    }

    /// Tells the client of a change of a config string, for whose commands there is room: they are issued one after the other,
    /// unless the client is connected.
    pub fn tell(&mut self, index: u32, text: &[u8])
        requires index { index < places }
        requires chars { All (λ byte. IsTrue (is_config_byte byte)) text.now }
        requires room { slots_spec.lacks_room (piece_texts index text.now) self.old ≡ false }
        ensures { self.new ≡ option_map (tells (piece_texts index text.now)) self.old }
    {
        let Some(client) = &self.client else {
            return;
        };
        if !client.stage.is_connected() {
            issue_pieces(&mut self.issued, index, text);
        }
    }

    /// Takes a datagram of the client in this slot, from an address, which it takes over. The answer is the first that fits:
    /// - `Stranger`: there is no client.
    /// - `Runt`, `Connectionless`, `BadCheck`, `Old`, `OutOfOrder`, `BadFragment`, `Partial`: no message came whole, as the
    ///   gatherer answers.
    /// - `Illegible`: the leading longs don't read, or acknowledge a command that the window doesn't take. Nothing else changes.
    /// - `Ignored`: the message is of another map. Its acknowledgement is taken, and a gamestate may be owed from then on.
    /// - `Illegible`: the rest isn't legible. Nothing else changes.
    /// - `Gap`: one of its commands leaves a gap. Nothing else changes.
    /// - `Ran`: the message was run.
    pub fn take(
        &mut self,
        profile: &Profile,
        map: &Map,
        slot: u8,
        from: Address,
        datagram: &[u8],
        whole: &mut [u8; LONGEST_MESSAGE],
        message: &mut ClientMessage,
        heard: &mut Heard,
    ) -> ServerTook
        requires heard { heard.old ≡ nothing_heard false }
        ensures slot { self.new ≡ slot_after_datagram profile.now map.now slot from datagram.now self.old }
        ensures answer { result ≡ answer_to profile.now map.now slot from datagram.now self.old }
        ensures heard { heard.new ≡ heard_of profile.now map.now slot from datagram.now self.old }
    {
        let Some(client) = &mut self.client else {
            return ServerTook::Stranger;
        };
        client.set_address(from);
        heard.owed = client.owed;
        let (number, length) = match self.gatherer.take(datagram, whole) {
            Gathered::Whole { number, length } => (number, length),
            Gathered::Partial => return ServerTook::Partial(slot),
            Gathered::Old => return ServerTook::Old(slot),
            Gathered::OutOfOrder => return ServerTook::OutOfOrder(slot),
            Gathered::BadFragment => return ServerTook::BadFragment(slot),
            Gathered::BadCheck => return ServerTook::BadCheck(slot),
            Gathered::Runt => return ServerTook::Runt,
            Gathered::Connectionless => return ServerTook::Connectionless,
        };
        let read = client.read(profile, map, &self.issued, &mut whole[..length], message);
        client.run(&mut self.issued, map, slot, number, read, message, heard)
    }

    /// Hands out what is left of a message, or begins the next and hands out its first piece: the gamestate, where one is owed,
    /// and else a snapshot, whose frame is built. The answer is the first that fits:
    /// - `NoClient`: there is no client.
    /// - `Fragment`: pieces of a message were left, of which the next is handed out.
    /// - `SequenceEnd`: message numbers have ended, or more than 2^62 entities were placed.
    /// - `Unclear`: by protocol 68, the next message's leading long takes more bits than stay clear.
    /// - `Overlong`: the next message has more than 16,384 bytes. Nothing changes, but that the frame of a snapshot stays built.
    /// - `Game`: a gamestate is owed. The client is primed by it.
    /// - `Snapshot`: none is owed.
    pub fn emit(&mut self, slot: u8, shared: &mut Shared, out: &mut Datagram) -> Emitted
        requires out { out.old.items ≡ [] }
        requires slot { slot < length shared.old.frames.slots }
        requires lists { HoldLists shared.old.profile.entity shared.old.frames }
        requires numbers { RiseFrom (end_mark shared.old.profile.entity) 0 shared.old.map.entities }
        ensures slot { self.new ≡ slot_after shared.old.profile shared.old.map shared.old.frames slot self.old }
        ensures profile { shared.new.profile ≡ shared.old.profile }
        ensures map { shared.new.map ≡ map_after shared.old.profile shared.old.map shared.old.frames slot self.old }
        ensures frames { shared.new.frames
            ≡ frames_after shared.old.profile shared.old.map shared.old.frames slot self.old }
        ensures slots { length shared.new.frames.slots ≡ length shared.old.frames.slots }
        ensures lists { HoldLists shared.old.profile.entity shared.new.frames }
        ensures answer { result ≡ answer_of shared.old.profile shared.old.map shared.old.frames slot self.old }
        ensures piece { HandsOut (piece_of shared.old.profile shared.old.map shared.old.frames slot self.old)
            out.new.items }
        ensures stands { IfSome self.old IsSlot }
    {
        // what the types of its parts tell
        laws::slot_stands(self);
        let Some(client) = &self.client else {
            return Emitted::NoClient;
        };
        if !self.sender.idle() {
            self.sender.next(out);
            return Emitted::Fragment {
                number: self.sender.number(),
            };
        }
        if has_ended(self.sender.number() + 1, shared.frames.placed()) {
            return Emitted::SequenceEnd;
        }
        if is_unclear(&shared.profile, client.executed.executed()) {
            return Emitted::Unclear;
        }
        if client.owed {
            return self.begin_owed(slot, shared, out);
        }
        let issued = &self.issued;
        let to = Recipient {
            slot,
            client,
            issued,
        };
        begin_snapshot(&mut self.sender, to, shared, out)
    }

    /// Begins the message with the gamestate that is owed to the client, and hands out its first piece.
    fn begin_owed(&mut self, slot: u8, shared: &mut Shared, out: &mut Datagram) -> Emitted
        requires client { IsSome self.old }
        requires idle { IfSome self.old (λ slot. IsIdle slot.sending) }
        requires number { IfSome self.old (λ slot. slot.sending.number + 1 < sequence_end) }
        requires out { out.old.items ≡ [] }
        ensures slot { (found : SlotState) → self.old ≡ Some found
            → self.new ≡ Some (game_for shared.old slot found).slot }
        ensures profile { shared.new.profile ≡ shared.old.profile }
        ensures map { (found : SlotState) → self.old ≡ Some found
            → shared.new.map ≡ (game_for shared.old slot found).map }
        ensures frames { shared.new.frames ≡ shared.old.frames }
        ensures head { shared.new.head ≡ shared.old.head }
        ensures answer { (found : SlotState) → self.old ≡ Some found
            → result ≡ (game_for shared.old slot found).answer }
        ensures piece { (found : SlotState) → self.old ≡ Some found
            → HandsOut (game_for shared.old slot found).piece out.new.items }
    {
        let Some(client) = &mut self.client else {
            unreachable!();
        };
        begin_game(&mut self.sender, &self.issued, client, slot, shared, out)
    }
}

/// Whether a command's text would change config string 1, the server's own.
fn changes_own(text: &Text) -> bool
    ensures { result ≡ slots_spec.changes_own text.now }
{
    match shape(text) {
        Some(index) => index == SYSTEM_INFO,
        None => false,
    }
}

/// Issues the commands of a change of a config string, for which there is room.
fn issue_pieces(issued: &mut Outgoing, index: u32, text: &[u8])
    requires index { index < places }
    requires chars { All (λ byte. IsTrue (is_config_byte byte)) text.now }
    requires fits { fits issued.old (length (piece_texts index text.now))
        (total_of (piece_texts index text.now)) ≡ true }
    ensures { issued.new ≡ with_texts issued.old (piece_texts index text.now) }
{
    for k in 0..pieces(text.len()) {
        let _ = issued.issue(&piece(index, text, k));
    }
}
