//! The snapshots that a client holds as bytes: each with its age, by rising number. Where its entities lie isn't kept, since ages alone decide
//! whether a base is held.

ghost use Rattle.std.specs.Prelude.{◌≡◌, ◌^◌, ◌<◌, ◌≤◌, [], length, None, IfOk, MatchOption};
ghost use Rattle.std.specs.List.{flat_map};
ghost use Rattle.byteorder.specs.Endian.{little_bytes};
ghost use Rattle.q3_entity.specs.Entities.{run_of, most_entities};
ghost use Rattle.q3_player.specs.State.{zero_player};
ghost use Rattle.q3_rings.specs.Rings.{AreHeldSnapshots, no_rings, no_snapshots};
ghost use Rattle.q3_rings.specs.ByNumber.{held_under, one_of};
ghost use Rattle.q3_savestate.specs.Entities.{counted, entity_bytes, entities_at};
ghost use Rattle.q3_savestate.specs.Lending.{HasAges};
ghost use Rattle.q3_savestate.specs.Reading.{as_field, found_with, placed_in, left_by_one, MayPutBack};
ghost use Rattle.q3_io.specs.Faults.{HasCause};
ghost use Rattle.q3_io.specs.Written.{Adds};
ghost use Rattle.q3_savestate.specs.Cursor.{found, found_in};
ghost use Rattle.q3_savestate.specs.Snapshots.{shorts_bytes, player_bytes, head_bytes, snapshot_bytes, snapshots_bytes, numbers_at, shorts_at, player_at, head_at, slot_at, snapshot_at, snapshots_at};
ghost use Rattle.q3_savestate.specs.Snapshots as spec;

use crate::cursor::Cursor;
use crate::entities::{read_entity, read_words, write_entity, write_words};
use crate::writing::{write_byte, write_long, write_short};
use byteorder::{ByteOrder, LittleEndian};
use q3_entity::{EntityState, Run};
use q3_io::{Failed, Sink, laws};
use q3_player::{PlayerState, SnapHead};
use q3_profile::Profile;
use q3_rings::{Held, Rings};

/// The greatest number of a message.
pub(crate) const LAST_NUMBER: u32 = (1 << 31) - 1;

/// How many snapshots are held at most.
const PLACES: u8 = q3_entity_ring::PLACES as u8;

/// How many entities a snapshot may have.
const MOST_ENTITIES: u32 = q3_entity::MOST_ENTITIES as u32;

/// How many bytes an area has at most.
const MOST_AREA: u8 = q3_player::MOST_AREA as u8;

/// Writes the snapshots that are held.
pub(crate) fn write_snapshots<O: Sink>(
    profile: &Profile,
    rings: &Rings,
    out: &mut O,
) -> Result<(), Failed>
    requires ages { HasAges rings.now.held }
    ensures adds { Adds (O.written out.old) (O.written out.new) (snapshots_bytes profile.now rings.now.held) result }
    ensures cause { HasCause (O.faults out.old) (O.faults out.new) result }
{
    laws::texts_follow();
    let newest = rings.newest();
    write_long(newest, out)?;
    write_byte(rings.count(), out)?;
    let mut last = 0;
    while last < newest {
        last = rings.next_number(last);
        write_numbered(profile, rings, last, out)?;
    }
    Ok(())
}

/// Writes the snapshot of a number, if it is held.
fn write_numbered<O: Sink>(
    profile: &Profile,
    rings: &Rings,
    number: u32,
    out: &mut O,
) -> Result<(), Failed>
    requires ages { HasAges rings.now.held }
    ensures adds { Adds (O.written out.old) (O.written out.new)
        (flat_map (snapshot_bytes profile.now) (one_of (held_under rings.now.held number))) result }
    ensures cause { HasCause (O.faults out.old) (O.faults out.new) result }
{
    match rings.held_under(number) {
        Some(held) => write_snapshot(profile, held, rings.entities_of(number), out),
        None => Ok(()),
    }
}

/// Writes a snapshot: its number, its age, its head, and its entities as far as they are there.
fn write_snapshot<O: Sink>(
    profile: &Profile,
    held: Held,
    entities: Run,
    out: &mut O,
) -> Result<(), Failed>
    requires age { held.age < 2 ^ 32 }
    requires few { length (run_of entities) ≤ most_entities }
    ensures adds { Adds (O.written out.old) (O.written out.new)
        (snapshot_bytes profile.now
        (record {
          snapshot = record { head = held.entry.head.now; entities = run_of entities.entry };
          age = held.entry.age;
        })) result }
    ensures cause { HasCause (O.faults out.old) (O.faults out.new) result }
{
    laws::texts_follow();
    write_long(held.head.number, out)?;
    write_long(held.age as u32, out)?;
    write_head(profile, held.head, out)?;
    write_run(profile, entities, out)
}

/// Writes entities after their number.
fn write_run<O: Sink>(profile: &Profile, entities: Run, out: &mut O) -> Result<(), Failed>
    requires few { length (run_of entities) ≤ most_entities }
    ensures adds { Adds (O.written out.old) (O.written out.new)
        (counted (entity_bytes profile.now.entity) (run_of entities.entry)) result }
    ensures cause { HasCause (O.faults out.old) (O.faults out.new) result }
{
    laws::texts_follow();
    write_short((entities.head.len() + entities.tail.len()) as u16, out)?;
    write_each(profile, entities.head, out)?;
    write_each(profile, entities.tail, out)
}

/// Writes entities, one after the other.
fn write_each<O: Sink>(
    profile: &Profile,
    entities: &[EntityState],
    out: &mut O,
) -> Result<(), Failed>
    ensures adds { Adds (O.written out.old) (O.written out.new)
        (flat_map (entity_bytes profile.now.entity) entities.now) result }
    ensures cause { HasCause (O.faults out.old) (O.faults out.new) result }
{
    laws::items_follow::<EntityState>();
    for entity in entities {
        write_entity(&profile.entity, entity, out)?;
    }
    Ok(())
}

/// Writes a head, but for its number.
fn write_head<O: Sink>(profile: &Profile, head: &SnapHead, out: &mut O) -> Result<(), Failed>
    ensures adds { Adds (O.written out.old) (O.written out.new) (head_bytes profile.now head.now) result }
    ensures cause { HasCause (O.faults out.old) (O.faults out.new) result }
{
    laws::texts_follow();
    write_long(head.time, out)?;
    write_byte(head.flags, out)?;
    write_byte(head.area.len() as u8, out)?;
    out.write_all(&head.area)?;
    write_player(profile, &head.player, out)
}

/// Writes a player.
fn write_player<O: Sink>(profile: &Profile, player: &PlayerState, out: &mut O) -> Result<(), Failed>
    ensures adds { Adds (O.written out.old) (O.written out.new) (player_bytes profile.now player.now) result }
    ensures cause { HasCause (O.faults out.old) (O.faults out.new) result }
{
    laws::texts_follow();
    write_words(&profile.player, &player.words, out)?;
    write_shorts(&player.stats, out)?;
    write_shorts(&player.persistant, out)?;
    write_shorts(&player.ammo, out)?;
    write_longs(&player.powerups, out)
}

/// Writes signed values of two bytes.
fn write_shorts<O: Sink>(values: &[i16; 16], out: &mut O) -> Result<(), Failed>
    ensures adds { Adds (O.written out.old) (O.written out.new) (shorts_bytes values.now) result }
    ensures cause { HasCause (O.faults out.old) (O.faults out.new) result }
{
    let mut bytes = [0; 32];
    LittleEndian::write_i16_into(values, &mut bytes);
    out.write_all(&bytes)
}

/// Writes words of four bytes.
fn write_longs<O: Sink>(words: &[u32; 16], out: &mut O) -> Result<(), Failed>
    ensures adds { Adds (O.written out.old) (O.written out.new) (flat_map (little_bytes 4) words.now) result }
    ensures cause { HasCause (O.faults out.old) (O.faults out.new) result }
{
    let mut bytes = [0; 64];
    LittleEndian::write_u32_into(words, &mut bytes);
    out.write_all(&bytes)
}

/// Reads snapshots into a ring with the profile's room, in which none is held.
#[tactic(auto, unfolding(crate::specs::Snapshots::snapshots_at))]
pub(crate) fn read_snapshots(
    cursor: &mut Cursor,
    profile: &Profile,
    rings: &mut Rings,
) -> Result<(), usize>
    requires least { 512 ≤ profile.now.parse_ring }
    requires none { rings.old ≡ no_rings profile.now.parse_ring }
    ensures found { found_in result rings.new.held cursor.new ≡ snapshots_at profile.now cursor.old }
    ensures none { IfOk result (λ x. rings.new.begun ≡ None) }
{
    let newest = cursor.long(0, LAST_NUMBER)?;
    let count = cursor.byte(u8::from(newest != 0), PLACES)?;
    let mut most = u32::MAX;
    for k in 0..count {
        most = read_snapshot(cursor, profile, newest, count - k - 1, most, rings)?;
    }
    Ok(())
}

/// Reads a snapshot of at most this age, before so many others, and answers the greatest age of the next one.
#[tactic(auto, unfolding(crate::specs::Snapshots::snapshot_at))]
fn read_snapshot(
    cursor: &mut Cursor,
    profile: &Profile,
    newest: u32,
    left: u8,
    most: u32,
    rings: &mut Rings,
) -> Result<u32, usize>
    requires least { 512 ≤ profile.now.parse_ring }
    requires may { MayPutBack profile.now.parse_ring most rings.old }
    ensures found { found_with result rings.new.held cursor.new ≡ as_field (left_by_one rings.old.held)
        (snapshot_at profile.now rings.old.held newest left most cursor.old) }
    ensures may { IfOk result (λ most. MayPutBack profile.now.parse_ring most rings.new) }
{
    let number = read_slot(cursor, newest, left, rings)?;
    let age = cursor.long(0, most)?;
    make_room(rings, age);
    let head = read_head(cursor, profile, number)?;
    let count = cursor.short(0, most_of(profile, age))?;
    rings.begin_back(&head, u64::from(age), usize::from(count));
    read_entities(cursor, profile, count, rings)?;
    rings.end_back();
    Ok(age - u32::from(count))
}

/// Where none is held yet, as many entities count as placed as the first one's age says.
fn make_room(rings: &mut Rings, age: u32)
    requires first { rings.old.held.newest ≡ 0 → rings.old.held ≡ no_snapshots rings.old.held.ring }
    requires placed { 0 < rings.old.held.newest → age ≤ rings.old.placed }
    requires none { rings.old.begun ≡ None }
    ensures are { AreHeldSnapshots rings.old.held }
    ensures held { rings.new.held ≡ rings.old.held }
    ensures placed { age ≤ rings.new.placed }
    ensures none { rings.new.begun ≡ None }
{
    if rings.newest() == 0 {
        rings.restore(u64::from(age));
    }
}

/// Reads the number of a snapshot, before so many others: above that of the one before, modulo 32 another than any before, and that of the
/// last is the newest.
fn read_slot(cursor: &mut Cursor, newest: u32, left: u8, rings: &Rings) -> Result<u32, usize>
    ensures newer { IfOk result (λ number. rings.now.held.newest < number) }
    ensures found { found result cursor.new ≡ slot_at rings.now.held newest left cursor.old }
{
    let place = cursor.place();
    let number = cursor.long(0, u32::MAX)?;
    let rises = rings.newest() < number && number <= LAST_NUMBER;
    let free = rings.held((number % u32::from(PLACES)) as u8).is_none();
    if rises && free && (left > 0 || number == newest) {
        Ok(number)
    } else {
        Err(place)
    }
}

/// How many entities a snapshot of an age may have: none where they are gone.
fn most_of(profile: &Profile, age: u32) -> u16
    requires { 512 ≤ profile.now.parse_ring }
    ensures { result ≡ spec.most_of profile.now.parse_ring age }
{
    if age <= profile.parse_ring - MOST_ENTITIES {
        age.min(MOST_ENTITIES) as u16
    } else {
        0
    }
}

/// Reads the entities of the snapshot that is being put back, which has none yet.
fn read_entities(
    cursor: &mut Cursor,
    profile: &Profile,
    count: u16,
    rings: &mut Rings,
) -> Result<(), usize>
    requires begun { MatchOption rings.old.begun ⊥ (λ begun. (begun.entities ≡ []) × (begun.count ≡ count)) }
    requires few { count ≤ most_entities }
    ensures { found_in result rings.new cursor.new ≡ as_field (placed_in rings.old)
        (entities_at profile.now.entity count 0 cursor.old) }
{
    let _end = profile.entity.end();
    let mut entity = EntityState::zero(0);
    let mut least = 0;
    for _ in 0..count {
        read_entity(cursor, &profile.entity, least, &mut entity)?;
        rings.place_back(&entity);
        least = entity.number + 1;
    }
    Ok(())
}

/// Reads the head of a snapshot under this number.
#[tactic(auto, unfolding(crate::specs::Snapshots::head_at, q3_player::specs::Heads::empty_head))]
fn read_head(cursor: &mut Cursor, profile: &Profile, number: u32) -> Result<SnapHead, usize>
    ensures number { IfOk result (λ head. head.number ≡ number) }
    ensures found { found result cursor.new ≡ head_at profile.now number cursor.old }
{
    let mut head = SnapHead::new();
    head.number = number;
    head.time = cursor.long(0, u32::MAX)?;
    head.flags = cursor.byte(0, u8::MAX)?;
    let length = cursor.byte(0, MOST_AREA)?;
    let _ = head
        .area
        .try_extend_from_slice(cursor.take(usize::from(length))?);
    read_player(cursor, profile, &mut head.player)?;
    Ok(head)
}

/// Reads a player.
#[tactic(auto, unfolding(crate::specs::Snapshots::player_at, q3_player::specs::State::zero_player))]
fn read_player(
    cursor: &mut Cursor,
    profile: &Profile,
    player: &mut PlayerState,
) -> Result<(), usize>
    requires { player.old ≡ zero_player }
    ensures { found_in result player.new cursor.new ≡ player_at profile.now cursor.old }
{
    read_words(cursor, &profile.player, &mut player.words)?;
    read_shorts(cursor, &mut player.stats)?;
    read_shorts(cursor, &mut player.persistant)?;
    read_shorts(cursor, &mut player.ammo)?;
    read_longs(cursor, &mut player.powerups)
}

/// Reads signed values of two bytes.
fn read_shorts(cursor: &mut Cursor, values: &mut [i16; 16]) -> Result<(), usize>
    ensures { found_in result values.new cursor.new ≡ shorts_at cursor.old }
{
    for k in 0..16 {
        values[k] = cursor.short(0, u16::MAX)?.cast_signed();
    }
    Ok(())
}

/// Reads words of four bytes.
fn read_longs(cursor: &mut Cursor, words: &mut [u32; 16]) -> Result<(), usize>
    ensures { found_in result words.new cursor.new ≡ numbers_at 4 16 cursor.old }
{
    for k in 0..16 {
        words[k] = cursor.long(0, u32::MAX)?;
    }
    Ok(())
}
