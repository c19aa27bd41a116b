//! Begins the next message of a client, and hands out its first piece.
//! - Rules: "messages of another map; owed gamestates", "what the server sends", "messages that are too long".
//! - Engine: `SV_SendClientMessages` (sv_snapshot.c).
//! - Ours: that an owed gamestate goes as the next message, and not at once.

ghost use Rattle.std.specs.Prelude.{◌≡◌, ◌+◌, ◌<◌, ◌≤◌, [], length};
ghost use Rattle.q3_chan.specs.Datagrams.{sequence_end};
ghost use Rattle.q3_chan.specs.Gathering.{Gathering};
ghost use Rattle.q3_chan.specs.Sending.{HandsOut, IsIdle};
ghost use Rattle.q3_fields.specs.Kinds.{end_mark};
ghost use Rattle.q3_entity.specs.Entities.{RiseFrom};
ghost use Rattle.q3_slot.specs.Emitting.{most_placed};
ghost use Rattle.q3_slot.specs.Slots.{HoldLists, game_for, slot_of, slot_to, snapshot_for};

use crate::answer::Emitted;
use crate::emitting::{Recipient, write_next};
use crate::joined::Joined;
use crate::shared::Shared;
use q3_built::{TellingParts, Written, write_game};
use q3_chan::{Datagram, Sender};
use q3_window::Outgoing;

/// Begins the message with the gamestate that is owed to the client in a slot, with which the client is primed. `Overlong`
/// comes exactly where it has more than 16,384 bytes, and nothing changes then.
pub(crate) fn begin_game(
    sender: &mut Sender,
    issued: &Outgoing,
    client: &mut Joined,
    slot: u8,
    shared: &mut Shared,
    out: &mut Datagram,
) -> Emitted
    requires idle { IsIdle sender.old }
    requires number { sender.old.number + 1 < sequence_end }
    requires out { out.old.items ≡ [] }
    ensures slot { (gathering : Gathering) → slot_of sender.new gathering issued.now client.new
        ≡ (game_for shared.old slot (slot_of sender.old gathering issued.now client.old)).slot }
    ensures profile { shared.new.profile ≡ shared.old.profile }
    ensures map { (gathering : Gathering)
        → shared.new.map ≡ (game_for shared.old slot (slot_of sender.old gathering issued.now client.old)).map }
    ensures frames { shared.new.frames ≡ shared.old.frames }
    ensures head { shared.new.head ≡ shared.old.head }
    ensures answer { (gathering : Gathering)
        → result ≡ (game_for shared.old slot (slot_of sender.old gathering issued.now client.old)).answer }
    ensures piece { (gathering : Gathering)
        → HandsOut (game_for shared.old slot (slot_of sender.old gathering issued.now client.old)).piece out.new.items }
    ensures number { sender.new.number < sequence_end }
{
    let number = sender.number() + 1;
    let telling = TellingParts {
        executed: &client.executed,
        issued,
        challenge: client.challenge,
        number,
    };
    let written = write_game(
        &shared.profile,
        &shared.map,
        telling,
        slot,
        &mut *shared.buffer,
    );
    let Ok(Written { bytes, .. }) = written else {
        return Emitted::Overlong;
    };
    client.prime(number);
    shared.map.begin_game();
    sender.start(&shared.buffer[..bytes]);
    sender.next(out);
    Emitted::Game { number, bytes }
}

/// Builds a frame of the client's next snapshot, and begins the message with it, against the base that the client asks for,
/// if that is there. `Overlong` comes exactly where it has more than 16,384 bytes, and nothing changes then but the frames.
pub(crate) fn begin_snapshot(
    sender: &mut Sender,
    to: Recipient,
    shared: &mut Shared,
    out: &mut Datagram,
) -> Emitted
    requires idle { IsIdle sender.old }
    requires number { sender.old.number + 1 < sequence_end }
    requires slot { to.slot < length shared.old.frames.slots }
    requires placed { shared.old.frames.placed ≤ most_placed }
    requires lists { HoldLists shared.old.profile.entity shared.old.frames }
    requires numbers { RiseFrom (end_mark shared.old.profile.entity) 0 shared.old.map.entities }
    requires out { out.old.items ≡ [] }
    ensures slot { (gathering : Gathering) → slot_to to.entry sender.new gathering
        ≡ (snapshot_for shared.old to.entry.slot (slot_to to.entry sender.old gathering)).slot }
    ensures profile { shared.new.profile ≡ shared.old.profile }
    ensures map { (gathering : Gathering)
        → shared.new.map ≡ (snapshot_for shared.old to.entry.slot (slot_to to.entry sender.old gathering)).map }
    ensures frames { (gathering : Gathering)
        → shared.new.frames ≡ (snapshot_for shared.old to.entry.slot (slot_to to.entry sender.old gathering)).frames }
    ensures answer { (gathering : Gathering)
        → result ≡ (snapshot_for shared.old to.entry.slot (slot_to to.entry sender.old gathering)).answer }
    ensures piece { (gathering : Gathering)
        → HandsOut (snapshot_for shared.old to.entry.slot (slot_to to.entry sender.old gathering)).piece out.new.items }
    ensures slots { length shared.new.frames.slots ≡ length shared.old.frames.slots }
    ensures lists { HoldLists shared.old.profile.entity shared.new.frames }
    ensures number { sender.new.number < sequence_end }
{
    let written = write_next(sender, to, shared);
    let Ok(Written { base, bytes }) = written else {
        return Emitted::Overlong;
    };
    sender.start(&shared.buffer[..bytes]);
    sender.next(out);
    Emitted::Snapshot {
        number: sender.number(),
        base,
        bytes,
    }
}
