//! The server's end: pure state, one call an event. What is sent and what is done with a datagram is q3_slot's, and what the game
//! hands in for all clients is q3_map's.
//! - Rules: "how a datagram finds its slot", "config changes as commands".
//! - Engine: `SV_PacketEvent` (sv_main.c), `SV_SetConfigstring` (sv_init.c).
//! - Ours: that config string 1 can't be changed so; that a change is refused whose text a command can't carry, or for which a
//!   client has no room.

ghost use Rattle.std.specs.Prelude.{◌≡◌, ◌^◌, ◌<◌, ◌≤◌, None, IfOk, IfSome, option_map, length, nat_lt, position, replicate};
ghost use Rattle.q3_chan.specs.Sending.{HandsOut};
ghost use Rattle.q3_frames.specs.Frames.{no_frames};
ghost use Rattle.q3_fields.specs.Kinds.{Layout, end_mark, least_end};
ghost use Rattle.q3_slot.specs.Slot.{is_of};
ghost use Rattle.q3_slot.specs.Slots.{HoldLists};
ghost use Rattle.q3_server.specs.Standing.{BeginsBuilt, IsServer};
ghost use Rattle.q3_server.specs.Server.{places, new_server, add_client_at, new_map_at, set_time_at, set_entity_at, remove_entity_at, set_baseline_at, set_config_at, set_player_at, set_area_at, set_delayed_at, sending_at, say_at, emit_at, slot_at};
ghost use Rattle.q3_server.specs.Server as spec;
ghost use Rattle.q3_server.specs.Taking.{take_at};

use crate::laws;
use crate::slots::{begin_map, first_without_room, tell_all};
use q3_bits::NoMemory;
use q3_chan::{Datagram, LONGEST_MESSAGE, NoQport, is_checked, qport_of};
use q3_clmsg::ClientMessage;
use q3_config::{ConfigError, Configs, SYSTEM_INFO};
use q3_entity::EntityState;
use q3_fields::laws::are_words;
use q3_frames::Frames;
use q3_io::Address;
use q3_map::{Late, Map, NotLater};
use q3_player::laws::is_state;
use q3_player::{PlayerState, SnapHead};
use q3_profile::Profile;
use q3_slot::laws::nothing_is_listed;
use q3_slot::{Emitted, Heard, NoClient, SayError, ServerTook, Shared, Slot};
use q3_text::Text;
use std::alloc::Global;
use std::marker::Model;

/// How many slots a server may have.
pub const MOST_SLOTS: u8 = 16;

/// Why a client can't join.
#[derive(Clone, Copy, Debug, PartialEq, Eq)]
pub enum SlotError {
    /// The server has no such slot.
    Range,
    /// The slot has a client.
    Taken,
    /// The client in this slot, and in none below it, has the same host and qport.
    Twin(u8),
}

/// Why a config string can't be changed: the first of these, in this order. An index above 1,023 isn't 1, so that the first
/// two never come together.
#[derive(Clone, Copy, Debug, PartialEq, Eq)]
pub enum ConfigRefused {
    /// The index is above 1,023.
    Index,
    /// The string is the server's own.
    Own,
    /// A byte that a config command can't carry, the first of the text: a quote, or one outside 32 to 126.
    Chars(u8),
    /// The text has more than 8,191 bytes.
    Long,
    /// The strings with this one would have a size above 16,000.
    Full,
    /// A client for which a gamestate was begun has no room for all commands of the change: the least slot of such a client.
    WindowFull(u8),
}

/// The server. After `new` no call takes memory.
#[derive(Drop)]
pub struct Server {
    /// A place for each client, 16 at most.
    slots: Vec<Slot>,
    /// A copy of the profile, what the game handed in for all clients, their frames, and the places in which a message is written.
    shared: Shared,

    // places that hold nothing from one call to another
    /// For what is read of a client's message.
    said: ClientMessage,
    /// For the bytes of one that came whole, where they are cleared.
    whole: Box<[u8; LONGEST_MESSAGE]>,
}

impl Model for Server {
    ghost use Rattle.std.specs.Prelude.{◌≡◌, ◌≤◌, length};
    ghost use Rattle.q3_server.specs.Server.{ServerState, places};
    ghost use Rattle.q3_server.specs.Standing.{IsServer};
    ghost use Rattle.q3_slot.specs.Slots.{HoldLists};

    ghost Value = { ServerState };

    ghost view = { λ s. record {
      profile = s.shared.profile;
      map = s.shared.map;
      slots = s.slots.items;
      frames = s.shared.frames;
    } };

    ghost invariant = { λ s. (length s.slots.items ≤ places) × (length s.shared.frames.slots ≡ length s.slots.items)
        × HoldLists s.shared.profile.entity s.shared.frames
        × IsServer s.shared.profile s.shared.map s.slots.items s.shared.frames };
}

impl Server {
    /// A server with 1 to 16 slots and no client, at the time 0. The profile's ring for the frames' entities has 256 to 262,144
    /// places. `Err` is want of memory.
    pub fn new(alloc: Global, profile: &Profile, slots: u8) -> Result<Server, NoMemory>
        requires some { 1 ≤ slots }
        requires most { slots ≤ places }
        requires ring_least { 256 ≤ profile.now.server_ring }
        requires ring_most { profile.now.server_ring ≤ 262144 }
        ensures { IfOk result (λ server. server ≡ new_server profile.now slots) }
    {
        laws::below();
        let copy = profile.copy()?;
        let map = Map::new(alloc)?;
        let empty = empty_slots(alloc, slots)?;
        let frames = empty_frames(alloc, slots, profile.server_ring)?;
        let buffer = Box::new(alloc, [0; LONGEST_MESSAGE])?;
        let shared = Shared {
            profile: copy,
            map,
            frames,
            head: SnapHead::new(),
            buffer,
        };
        let whole = Box::new(alloc, [0; LONGEST_MESSAGE])?;
        let said = ClientMessage::new(alloc)?;
        Ok(of_parts(empty, shared, said, whole))
    }

    /// Whether the server has such a slot.
    fn has(&self, slot: u8) -> bool
        ensures { result ≡ nat_lt slot (length self.now.slots) }
    {
        (slot as usize) < self.slots.len()
    }

    /// A client joins in a slot, from an address. `Err` is the first of these that fits, and nothing changes then:
    /// - `Range`: the server has no such slot.
    /// - `Taken`: the slot has a client.
    /// - `Twin`: a client has this host and qport. It carries the least slot of such a client.
    #[tactic(auto, using(crate::proofs::KeepsClients::server_joined))]
    pub fn add_client(
        &mut self,
        slot: u8,
        challenge: u32,
        qport: u16,
        from: Address,
    ) -> Result<(), SlotError>
        ensures { add_client_at self.old slot challenge qport from ≡ record { server = self.new; answer = result } }
    {
        laws::below();
        if !self.has(slot) {
            return Err(SlotError::Range);
        }
        if self.slots[slot as usize].is_taken() {
            return Err(SlotError::Taken);
        }
        if let Some(twin) = slot_of(&self.slots, from.host, qport) {
            return Err(SlotError::Twin(twin));
        }
        let protocol = self.shared.profile.protocol;
        self.slots[slot as usize].join(protocol, challenge, qport, from);
        Ok(())
    }

    /// A new map begins, with a checksum feed: each client is connected to it. Entities, baselines, players, areas and config
    /// strings are none then, but for the config string that tells its id; the time stays, and so does each client's time of the
    /// last move that was run, and whether its snapshots are delayed. `NotLater` comes exactly where the id isn't above the last
    /// one, 0 where there was none, and nothing changes then.
    pub fn new_map(&mut self, id: u32, feed: u32) -> Result<(), NotLater>
        requires { id < 2 ^ 31 }
        ensures { new_map_at self.old id feed ≡ record { server = self.new; answer = result } }
    {
        laws::below();
        self.shared.map.new_map(id, feed)?;
        begin_map(&mut self.slots);
        self.shared.frames.note_change();
        Ok(())
    }

    /// Takes over the baseline of an entity, whose number isn't 0 and is below the end mark of the profile's entity table. `Late`
    /// comes exactly where a gamestate of the map was begun, and nothing changes then.
    pub fn set_baseline(&mut self, state: &EntityState) -> Result<(), Late>
        requires some { 1 ≤ state.now.number }
        requires most { state.now.number < end_mark self.old.profile.entity }
        ensures { set_baseline_at self.old state.now ≡ record { server = self.new; answer = result } }
    {
        laws::below();
        are_words(&state.words);
        self.shared
            .map
            .set_baseline(&self.shared.profile.entity, state)
    }

    /// The config strings of the map.
    pub fn configs(&self) -> &Configs
        ensures { result.now ≡ self.now.map.strings }
    {
        self.shared.map.configs()
    }

    /// Changes a config string, and tells each client of it for which a gamestate of the map was begun, by commands that go with
    /// its next messages. A text that is there already changes nothing. `Err` is the first cause in the order of `ConfigRefused`,
    /// and nothing changes then.
    pub fn set_config(&mut self, index: u32, text: &[u8]) -> Result<(), ConfigRefused>
        ensures { set_config_at self.old index text.now ≡ record { server = self.new; answer = result } }
    {
        laws::below();
        if index == SYSTEM_INFO {
            return Err(ConfigRefused::Own);
        }
        if let Err(error) = self.shared.map.configs().admit(index, text) {
            return Err(refused_for(error));
        }
        if self.shared.map.configs().has(index, text) {
            return Ok(());
        }
        if let Some(slot) = first_without_room(&self.slots, index, text) {
            return Err(ConfigRefused::WindowFull(slot));
        }
        self.shared.map.set_config(index, text);
        tell_all(&mut self.slots, index, text);
        Ok(())
    }

    /// The time, in milliseconds.
    pub fn set_time(&mut self, time: u32)
        ensures { self.new ≡ set_time_at self.old time }
    {
        self.shared.map.set_time(time);
    }

    /// The end mark of the profile's entity table: entities have the numbers below it.
    pub fn end(&self) -> u16
        ensures mark { result ≡ end_mark self.now.profile.entity }
        ensures least { least_end ≤ result }
    {
        self.shared.profile.entity.end()
    }

    /// Takes over the state of an entity, whose number is below the end mark of the profile's entity table.
    pub fn set_entity(&mut self, state: &EntityState)
        requires { state.now.number < end_mark self.old.profile.entity }
        ensures { self.new ≡ set_entity_at self.old state.now }
    {
        laws::below();
        are_words(&state.words);
        self.shared
            .map
            .set_entity(&self.shared.profile.entity, state);
        self.shared.frames.note_change();
    }

    /// Takes an entity away. An absent one changes nothing.
    pub fn remove_entity(&mut self, number: u16)
        ensures { self.new ≡ remove_entity_at self.old number }
    {
        laws::below();
        self.shared.map.remove_entity(number);
        self.shared.frames.note_change();
    }

    /// Takes over the player of a client. `NoClient` comes exactly where no client was added in the slot.
    pub fn set_player(&mut self, slot: u8, player: &PlayerState) -> Result<(), NoClient>
        ensures { set_player_at self.old slot player.now ≡ record { server = self.new; answer = result } }
    {
        laws::below();
        is_state(player);
        if !self.has(slot) {
            return Err(NoClient);
        }
        self.slots[slot as usize].set_player(&self.shared.profile, player)
    }

    /// Takes over the area bytes of a client, at most 32. `NoClient` comes exactly where no client was added in the slot.
    #[tactic(auto, using(crate::proofs::KeepsClients::server_area))]
    pub fn set_area(&mut self, slot: u8, area: &[u8]) -> Result<(), NoClient>
        requires { length area.now ≤ 32 }
        ensures { set_area_at self.old slot area.now ≡ record { server = self.new; answer = result } }
    {
        laws::is_area(area);
        if !self.has(slot) {
            return Err(NoClient);
        }
        self.slots[slot as usize].set_area(area)
    }

    /// The snapshots of a client are delayed by rate control from now on, or aren't; as long as they are, each has a flag for it.
    /// `NoClient` comes exactly where no client was added in the slot.
    #[tactic(auto, using(crate::proofs::KeepsClients::server_delayed))]
    pub fn set_delayed(&mut self, slot: u8, on: bool) -> Result<(), NoClient>
        ensures { set_delayed_at self.old slot on ≡ record { server = self.new; answer = result } }
    {
        if !self.has(slot) {
            return Err(NoClient);
        }
        self.slots[slot as usize].set_delayed(on)
    }

    /// The number of the message to a client of which pieces are left: `None` exactly where none are, and where no client was
    /// added in the slot.
    pub fn sending(&self, slot: u8) -> Option<u32>
        ensures { result ≡ sending_at self.now slot }
    {
        if !self.has(slot) {
            return None;
        }
        self.slots[slot as usize].sending()
    }

    /// Issues a command to a client, whose number is the answer: the messages that are begun for it next carry the command, until
    /// the client acknowledges it. `Err` is the first of these that fits, and nothing changes then:
    /// - `NoClient`: no client was added in the slot.
    /// - `Own`: the text would change config string 1.
    /// - `NotPrimed`: no gamestate of the map was begun for the client.
    /// - `WindowFull`: the command doesn't fit into the client's window.
    pub fn say(&mut self, slot: u8, text: &Text) -> Result<u32, SayError>
        ensures { say_at self.old slot text.now ≡ record { server = self.new; answer = result } }
    {
        if !self.has(slot) {
            return Err(SayError::NoClient);
        }
        self.slots[slot as usize].say(text)
    }

    /// The address of a client, with the port that its last datagram came from: `None` exactly where no client was added
    /// in the slot.
    pub fn address(&self, slot: u8) -> Option<Address>
        ensures { result ≡ option_map (λ joined. joined.address) (slot_at self.now slot) }
    {
        if !self.has(slot) {
            return None;
        }
        self.slots[slot as usize].address()
    }

    /// Takes a datagram from an address, any bytes, and tells what it ran. Its client is found by host and qport, and takes
    /// over the port, also where the datagram proves old or its check bad. The answer is the first that fits:
    /// - `Runt`, `Connectionless`: the datagram has no qport.
    /// - `Stranger`: no client has that host and qport.
    /// - `BadCheck`, `Old`: as the gathering of the client's slot answers.
    /// - `OutOfOrder`, `BadFragment`, `Partial`: likewise, no message came whole by it.
    /// - `Illegible`: the leading longs of a message that came whole don't read, or acknowledge a command that the client's
    ///   window doesn't take.
    /// - `Ignored`: the message is of another map. The acknowledgement is taken, and a gamestate may be owed to the client from
    ///   then on.
    /// - `Illegible`: the rest isn't legible.
    /// - `Gap`: one of its commands leaves a gap.
    /// - `Ran`: the message was run. The first move of a primed client enters the map.
    ///
    /// With `Illegible` and `Gap` only the newest number, the port and what was gathered have changed.
    #[tactic(auto, unfolding(crate::specs::Taking::take_at))]
    pub fn take(&mut self, from: Address, datagram: &[u8], heard: &mut Heard) -> ServerTook
        ensures server { self.new ≡ (take_at self.old from datagram.now).server }
        ensures answer { result ≡ (take_at self.old from datagram.now).answer }
        ensures heard { heard.new ≡ (take_at self.old from datagram.now).heard }
    {
        laws::below();
        heard.clear();
        let qport = match qport_of(is_checked(self.shared.profile.protocol), datagram) {
            Ok(qport) => qport,
            Err(NoQport::Runt) => return ServerTook::Runt,
            Err(NoQport::Connectionless) => return ServerTook::Connectionless,
        };
        let Some(slot) = slot_of(&self.slots, from.host, qport) else {
            return ServerTook::Stranger;
        };
        self.slots[slot as usize].take(
            &self.shared.profile,
            &self.shared.map,
            slot,
            from,
            datagram,
            &mut self.whole,
            &mut self.said,
            heard,
        )
    }

    /// Makes the next datagram for a client: it is empty where nothing is handed out. A message that it begins is well formed,
    /// whatever the server took before. The answer is the first that fits:
    /// - `NoClient`: no client was added in the slot.
    /// - `Fragment`: pieces of a message are left, of which the next is handed out.
    /// - `SequenceEnd`: message numbers have ended, or more than 2^62 entities were placed.
    /// - `Unclear`: by protocol 68, the next message's leading long takes more than 32 bits.
    /// - `Overlong`: the next message has more than 16,384 bytes. Nothing changes, but that the frames keep that of a snapshot.
    /// - `Game`: a gamestate is owed to the client.
    /// - `Snapshot`: none is owed.
    #[tactic(auto, unfolding(crate::specs::Server::emit_at), using(crate::proofs::Begins::begins, crate::proofs::Begins::begins_nothing))]
    pub fn emit(&mut self, slot: u8, out: &mut Datagram) -> Emitted
        ensures server { self.new ≡ (emit_at self.old slot).server }
        ensures answer { result ≡ (emit_at self.old slot).answer }
        ensures piece { HandsOut (emit_at self.old slot).piece out.new.items }
        ensures began { BeginsBuilt self.old slot }
    {
        laws::below();
        out.clear();
        if !self.has(slot) {
            return Emitted::NoClient;
        }
        self.slots[slot as usize].emit(slot, &mut self.shared, out)
    }
}

/// A server of these parts.
fn of_parts(
    slots: Vec<Slot>,
    shared: Shared,
    said: ClientMessage,
    whole: Box<[u8; LONGEST_MESSAGE]>,
) -> Server
    requires slots { length slots.items ≤ places }
    requires frames { length shared.frames.slots ≡ length slots.items }
    requires lists { HoldLists shared.profile.entity shared.frames }
    requires stands { IsServer shared.profile shared.map slots.items shared.frames }
    ensures { result ≡ record {
      profile = shared.profile;
      map = shared.map;
      slots = slots.items;
      frames = shared.frames;
    } }
{
    Server {
        slots,
        shared,
        said,
        whole,
    }
}

/// Why a config string can't be changed, where a change of it may not go out.
fn refused_for(error: ConfigError) -> ConfigRefused
    ensures { result ≡ spec.refused_for error }
{
    match error {
        ConfigError::Index => ConfigRefused::Index,
        ConfigError::Chars(byte) => ConfigRefused::Chars(byte),
        ConfigError::Long => ConfigRefused::Long,
        ConfigError::Full => ConfigRefused::Full,
    }
}

/// Slots with no client. `Err` is want of memory.
fn empty_slots(alloc: Global, count: u8) -> Result<Vec<Slot>, NoMemory>
    ensures { IfOk result (λ made. made.items ≡ replicate count None) }
{
    let mut made = Vec::with_capacity(alloc, count as usize)?;
    for _ in 0..count {
        made.push(Slot::new(alloc)?)?;
    }
    Ok(made)
}

/// Frames of which none was built. `Err` is want of memory.
fn empty_frames(alloc: Global, slots: u8, ring: u32) -> Result<Frames, NoMemory>
    requires some { 1 ≤ slots }
    requires most { slots ≤ places }
    requires ring_least { 256 ≤ ring }
    requires ring_most { ring ≤ 262144 }
    ensures frames { IfOk result (λ frames. frames ≡ no_frames slots ring) }
    ensures lists { (table : Layout) → IfOk result (λ frames. HoldLists table frames) }
{
    nothing_is_listed();
    Frames::new(alloc, slots, ring)
}

/// The least slot whose client has this host and qport.
fn slot_of(slots: &[Slot], host: u32, qport: u16) -> Option<u8>
    requires { length slots.now ≤ places }
    ensures is { result ≡ position (is_of host qport) slots.now }
    ensures within { IfSome result (λ slot. slot < length slots.now) }
{
    let place = place_of(slots, host, qport)?;
    Some(place as u8)
}

fn place_of(slots: &[Slot], host: u32, qport: u16) -> Option<usize>
    ensures { result ≡ position (is_of host qport) slots.now }
{
    slots.iter().position(|slot| slot.is_of(host, qport))
}
