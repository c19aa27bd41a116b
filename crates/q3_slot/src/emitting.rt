//! Builds the frame of a client's next snapshot, and writes its message.
//! - Rules: "what the server sends", with q3_built and q3_map; "choice of the delta base", by q3_frames.
//! - Engine: `SV_SendClientSnapshot` (sv_snapshot.c).

ghost use Rattle.std.specs.Prelude.{◌≡◌, ◌+◌, ◌<◌, ◌≤◌, ◌||◌, length, nat_le, nat_lt, None, option_map};
ghost use Rattle.q3_chan.specs.Datagrams.{client_form, sequence_end};
ghost use Rattle.q3_chan.specs.Gathering.{new_gathering};
ghost use Rattle.q3_frames.specs.Frames.{base_of, build_at};
ghost use Rattle.q3_fields.specs.Kinds.{Layout, end_mark};
ghost use Rattle.q3_entity.specs.Entities.{IsList, RiseFrom, Rises};
ghost use Rattle.q3_svmsg.specs.Values.{base_viewed, base_from, base_entities, IsNamed};
ghost use Rattle.q3_built.specs.Built.{number_of};
ghost use Rattle.q3_built.specs.Writing.{HoldsBuilt};
ghost use Rattle.q3_slot.specs.Emitting.{begun_next, most_placed, next_frames};
ghost use Rattle.q3_slot.specs.Slots.{HoldLists, built_for, slot_to};

use crate::joined::Joined;
use crate::shared::Shared;
use q3_bits::Overflow;
use q3_built::{SnapshotParts, TellingParts, Written, write_snapshot};
use q3_chan::{SEQUENCE_END, Sender};
use q3_entity::EntityState;
use q3_frames::{Frames, laws};
use q3_player::SnapHead;
use q3_svmsg::BaseView;
use q3_window::Outgoing;

/// How many entities may have been placed where a message is begun.
const MOST_PLACED: u64 = 1 << 62;

/// The client in a slot, to which a message goes.
#[derive(Clone, Copy)]
pub(crate) struct Recipient<'a> {
    pub slot: u8,
    pub client: &'a Joined,
    /// The commands that were issued to it.
    pub issued: &'a Outgoing,
}

/// Whether no message of a number may be begun any more, where so many entities were placed.
pub fn has_ended(number: u32, placed: u64) -> bool
    ensures { result ≡ (nat_le sequence_end number || nat_lt most_placed placed) }
{
    number >= SEQUENCE_END || placed > MOST_PLACED
}

/// Builds a frame of a snapshot, whose entities lie in the map.
pub fn build(frames: &mut Frames, slot: u8, head: &SnapHead, entities: &[EntityState])
    requires slot { slot < length frames.old.slots }
    requires placed { frames.old.placed ≤ most_placed }
    requires rises { Rises entities.now }
    ensures built { frames.new ≡ build_at frames.old slot (record { head = head.now; entities = entities.now }) }
    ensures slots { length frames.new.slots ≡ length frames.old.slots }
    ensures lists { (table : Layout) → IsList table entities.now → HoldLists table frames.old
        → HoldLists table frames.new }
{
    laws::build_keeps();
    laws::held_was_built();
    frames.build(slot, head, entities);
}

/// Builds a frame of the snapshot that this sender sends next, and writes its message against the base that the client asks for,
/// if that is there, and scrambles it by protocol 68. `Overflow` comes exactly where it has more than 16,384 bytes.
pub(crate) fn write_next(
    sender: &Sender,
    to: Recipient,
    shared: &mut Shared,
) -> Result<Written, Overflow>
    requires number { sender.now.number + 1 < sequence_end }
    requires slot { to.slot < length shared.old.frames.slots }
    requires placed { shared.old.frames.placed ≤ most_placed }
    requires lists { HoldLists shared.old.profile.entity shared.old.frames }
    requires numbers { RiseFrom (end_mark shared.old.profile.entity) 0 shared.old.map.entities }
    ensures written { HoldsBuilt shared.old.profile
        (begun_next shared.old.profile shared.old.map shared.old.frames to.entry.slot
        (slot_to to.entry sender.now (new_gathering (client_form None))))
        shared.new.buffer.value result }
    ensures profile { shared.new.profile ≡ shared.old.profile }
    ensures map { shared.new.map ≡ shared.old.map }
    ensures frames { shared.new.frames ≡ next_frames shared.old.map shared.old.frames to.entry.slot
        (slot_to to.entry sender.now (new_gathering (client_form None))) }
    ensures slots { length shared.new.frames.slots ≡ length shared.old.frames.slots }
    ensures lists { HoldLists shared.old.profile.entity shared.new.frames }
{
    to.client.fill(sender, &shared.map, &mut shared.head);
    build(
        &mut shared.frames,
        to.slot,
        &shared.head,
        to.client.seen(&shared.map),
    );
    write_against(to, shared)
}

/// Writes the message of a snapshot with the head that the slots share and the entities that the client sees, against the base that
/// the frames have for it, if its delta number names one, and scrambles it by protocol 68. `Overflow` comes exactly where it has
/// more than 16,384 bytes.
fn write_against(to: Recipient, shared: &mut Shared) -> Result<Written, Overflow>
    requires lists { HoldLists shared.old.profile.entity shared.old.frames }
    requires numbers { RiseFrom (end_mark shared.old.profile.entity) 0 shared.old.map.entities }
    ensures written { HoldsBuilt shared.old.profile (built_for shared.old to.entry) shared.new.buffer.value result }
    ensures profile { shared.new.profile ≡ shared.old.profile }
    ensures map { shared.new.map ≡ shared.old.map }
    ensures frames { shared.new.frames ≡ shared.old.frames }
    ensures head { shared.new.head ≡ shared.old.head }
{
    let (base, against) = base_in(
        &shared.frames,
        to.slot,
        shared.head.number,
        to.client.asked(),
    );
    let telling = TellingParts {
        executed: &to.client.executed,
        issued: to.issued,
        challenge: to.client.challenge,
        number: shared.head.number,
    };
    let snapshot = SnapshotParts {
        base,
        against,
        head: &shared.head,
        entities: to.client.seen(&shared.map),
    };
    write_snapshot(
        &shared.profile,
        &shared.map,
        telling,
        snapshot,
        &mut *shared.buffer,
    )
}

/// The base of a message, if the client's delta number names one: its number, 0 for none, and what it is.
fn base_in<'a>(frames: &'a Frames, slot: u8, number: u32, delta: u32) -> (u32, Option<BaseView<'a>>)
    ensures number { result.0 ≡ number_of (base_of frames.now slot number delta) }
    ensures base { option_map base_viewed result.1 ≡ option_map base_from (base_of frames.now slot number delta) }
    ensures named { IsNamed (option_map base_viewed result.1) number result.0 }
    ensures listed { (table : Layout) → HoldLists table frames.now
        → IsList table (base_entities (option_map base_viewed result.1)) }
{
    laws::base_is_near();
    match frames.base_for(slot, number, delta) {
        Some(base) => {
            let view = BaseView {
                player: base.player,
                entities: base.entities,
            };
            (base.number, Some(view))
        }
        None => (0, None),
    }
}
