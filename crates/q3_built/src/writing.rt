//! Writes the message with a client's next snapshot, or with its gamestate, and scrambles it by protocol 68. By protocol 71
//! nothing is scrambled, and no message is unclear.
//! - Rules: "what the server sends", by q3_svmsg; "scrambling", by q3_chan.
//! - Engine: `SV_SendClientSnapshot` (sv_snapshot.c), `SV_SendClientGameState` (sv_client.c), `SV_Netchan_Encode`
//!   (sv_net_chan.c).
//! - Ours: that no message is begun whose leading long would be scrambled in part.

ghost use Rattle.std.specs.Prelude.{◌≡◌, ◌≤◌, length, option_map, take, None};
ghost use Rattle.q3_chan.specs.Datagrams.{longest_message};
ghost use Rattle.q3_chan.specs.Keys.{server_key, server_scrambled};
ghost use Rattle.q3_entity.specs.Entities.{IsList};
ghost use Rattle.q3_svmsg.specs.Values.{base_entities, base_viewed, IsNamed};
ghost use Rattle.q3_svmsg.specs.Texts.{server_message_bits};
ghost use Rattle.q3_built.specs.Built as spec;
ghost use Rattle.q3_built.specs.Writing.{HoldsMessage, HoldsScrambled, game_message_in, snapshot_in};

use crate::parts::{SnapshotParts, TellingParts, Written};
use q3_bits::{LONG, Overflow};
use q3_chan::{Side, scramble_server};
use q3_entity::Run;
use q3_gamestate::Numbers;
use q3_map::Map;
use q3_profile::Profile;
use q3_svmsg::{GameParts, SnapParts, write_game_parts, write_parts};

/// Whether a leading long takes more bits than stay clear by protocol 68: never by protocol 71.
pub fn is_unclear(profile: &Profile, ack: u32) -> bool
    ensures { result ≡ spec.is_unclear profile.now ack }
{
    let bits = profile.code.row_length(&[(ack, LONG)]);
    q3_chan::is_unclear(profile.protocol, Side::Server, bits)
}

/// Writes a message with a snapshot, whose entities lie in the map, against its base, if it names one, with the commands that
/// wait for the client's acknowledgement, and scrambles it by protocol 68. `Overflow` comes exactly where it has more than
/// 16,384 bytes.
pub fn write_snapshot(
    profile: &Profile,
    map: &Map,
    telling: TellingParts,
    snapshot: SnapshotParts,
    buffer: &mut [u8],
) -> Result<Written, Overflow>
    requires named { IsNamed (option_map base_viewed snapshot.against) snapshot.head.now.number snapshot.base }
    requires against { IsList profile.now.entity (base_entities (option_map base_viewed snapshot.against)) }
    requires listed { IsList profile.now.entity snapshot.entities.now }
    requires buffer { length buffer.old ≡ longest_message }
    ensures { HoldsScrambled snapshot.entry.base (server_key profile.now.protocol telling.entry.challenge
        telling.entry.number telling.entry.executed.now.last)
        (server_message_bits profile.now map.now.baselines (option_map base_viewed snapshot.entry.against)
        (snapshot_in telling.entry snapshot.entry)) buffer.new result }
{
    let bytes = write_clear(profile, map, telling, snapshot, buffer)?;
    scramble_front(profile.protocol, buffer, bytes, telling);
    Ok(Written {
        base: snapshot.base,
        bytes,
    })
}

/// Writes a message with a snapshot, as `write_snapshot` does, and answers its length. It isn't scrambled.
fn write_clear(
    profile: &Profile,
    map: &Map,
    telling: TellingParts,
    snapshot: SnapshotParts,
    buffer: &mut [u8],
) -> Result<usize, Overflow>
    requires named { IsNamed (option_map base_viewed snapshot.against) snapshot.head.now.number snapshot.base }
    requires against { IsList profile.now.entity (base_entities (option_map base_viewed snapshot.against)) }
    requires listed { IsList profile.now.entity snapshot.entities.now }
    requires buffer { length buffer.old ≡ longest_message }
    ensures { HoldsMessage (server_message_bits profile.now map.now.baselines
        (option_map base_viewed snapshot.entry.against) (snapshot_in telling.entry snapshot.entry)) buffer.new
        result }
{
    let parts = SnapParts {
        ack: telling.executed.executed(),
        commands: telling.issued.waiting(),
        base: snapshot.base,
        head: snapshot.head,
        entities: Run::of(snapshot.entities),
    };
    write_parts(profile, parts, map.baselines(), snapshot.against, buffer)
}

/// Writes a message with the gamestate of the map for the client in a slot, with the commands that wait for the client's
/// acknowledgement, and scrambles it by protocol 68. `Overflow` comes exactly where it has more than 16,384 bytes.
pub fn write_game(
    profile: &Profile,
    map: &Map,
    telling: TellingParts,
    slot: u8,
    buffer: &mut [u8],
) -> Result<Written, Overflow>
    requires { length buffer.old ≡ longest_message }
    ensures { HoldsScrambled 0 (server_key profile.now.protocol telling.entry.challenge telling.entry.number
        telling.entry.executed.now.last)
        (server_message_bits profile.now map.now.baselines None (game_message_in telling.entry map.now slot))
        buffer.new result }
{
    let bytes = write_clear_game(profile, map, telling, slot, buffer)?;
    scramble_front(profile.protocol, buffer, bytes, telling);
    Ok(Written { base: 0, bytes })
}

/// Writes a message with a gamestate, as `write_game` does, and answers its length. It isn't scrambled.
fn write_clear_game(
    profile: &Profile,
    map: &Map,
    telling: TellingParts,
    slot: u8,
    buffer: &mut [u8],
) -> Result<usize, Overflow>
    requires { length buffer.old ≡ longest_message }
    ensures { HoldsMessage (server_message_bits profile.now map.now.baselines None
        (game_message_in telling.entry map.now slot)) buffer.new result }
{
    let parts = GameParts {
        ack: telling.executed.executed(),
        commands: telling.issued.waiting(),
        numbers: Numbers {
            command: telling.issued.issued(),
            slot: u32::from(slot),
            feed: map.feed(),
        },
        configs: map.configs(),
        baselines: map.baselines(),
    };
    write_game_parts(profile, parts, buffer)
}

/// Scrambles by protocol 68 the message that stands in the first bytes of a buffer, by what it tells.
fn scramble_front(protocol: u32, buffer: &mut [u8], bytes: usize, telling: TellingParts)
    requires { bytes ≤ length buffer.old }
    ensures scrambled { take bytes buffer.new
        ≡ server_scrambled (server_key protocol telling.entry.challenge telling.entry.number telling.entry.executed.now.last)
        (take bytes buffer.old) }
    ensures long { length buffer.new ≡ length buffer.old }
{
    let text = telling.executed.last();
    let front = &mut buffer[..bytes];
    scramble_server(front, protocol, telling.challenge, telling.number, text);
}
