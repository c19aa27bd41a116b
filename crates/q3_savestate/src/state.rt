//! A client's whole state as bytes.

ghost use Rattle.std.specs.Prelude.{◌≡◌, ◌<◌, ◌≤◌, All, None, IfOk};
ghost use Rattle.q3_text.specs.Texts.{IsText};
ghost use Rattle.q3_io.specs.Faults.{HasCause};
ghost use Rattle.q3_io.specs.Written.{Adds};
ghost use Rattle.q3_savestate.specs.Cursor.{found};
ghost use Rattle.q3_savestate.specs.State.{start_bytes, start_at, state_bytes, state_at};
ghost use Rattle.q3_savestate.specs.Applied.{saved_in, ReadsState};
ghost use Rattle.q3_savestate.specs.Lending.{HasAges, start_of, saved_from, ReadsContents};
ghost use Rattle.q3_savestate.specs.Reading.{read_as};
ghost use Rattle.q3_config.specs.Strings.{no_strings};
ghost use Rattle.q3_entity.specs.Baselines.{no_baselines};
ghost use Rattle.q3_profile.specs.Profile.{IsCodec};
ghost use Rattle.q3_rings.specs.Rings.{no_rings};

use crate::cursor::Cursor;
use crate::entities::{read_baselines, write_baselines};
use crate::error::StateError;
use crate::laws::read_state_is_written;
use crate::snapshots::{LAST_NUMBER, read_snapshots, write_snapshots};
use crate::texts::{read_pending, read_strings, write_pending, write_strings};
use crate::writing::{write_byte, write_long, write_short};
use q3_bits::{BIT, Reader};
use q3_clstate::{ClState, Contents};
use q3_config::Configs;
use q3_entity::Baselines;
use q3_io::{Failed, Sink, laws};
use q3_profile::Profile;
use q3_rings::Rings;
use q3_text::laws::texts_are_texts;
use q3_text::{LONGEST_TEXT, Text};
use q3_window::Incoming;
use std::alloc::Global;

/// The numbers of a state, and the last command's text.
#[derive(Drop)]
pub(crate) struct Start {
    number: u32,
    id: u32,
    slot: u32,
    feed: u32,
    incoming: Incoming,
}

/// Writes a state. The ages of all snapshots that are held are below 2^32. `Failed` comes where the sink failed, after
/// a front of the text.
pub fn write_state<O: Sink>(state: &ClState, out: &mut O) -> Result<(), Failed>
    requires ages { HasAges state.now.held }
    ensures adds { Adds (O.written out.old) (O.written out.new)
        (state_bytes state.now.profile (saved_in state.now)) result }
    ensures cause { HasCause (O.faults out.old) (O.faults out.new) result }
{
    laws::texts_follow();
    let profile = state.profile();
    let configs = state.configs();
    write_start(state, out)?;
    write_pending(configs, out)?;
    write_byte(u8::from(state.has_game()), out)?;
    write_strings(configs, out)?;
    write_baselines(&profile.entity, state.baselines(), out)?;
    write_snapshots(profile, state.rings(), out)
}

/// Writes the numbers of a state, and the last command's text.
fn write_start<O: Sink>(state: &ClState, out: &mut O) -> Result<(), Failed>
    ensures adds { Adds (O.written out.old) (O.written out.new) (start_bytes (saved_in state.now)) result }
    ensures cause { HasCause (O.faults out.old) (O.faults out.new) result }
{
    laws::texts_follow();
    let incoming = state.incoming();
    let last = incoming.last().bytes();
    write_long(state.number(), out)?;
    write_long(state.id(), out)?;
    write_long(state.slot(), out)?;
    write_long(state.feed(), out)?;
    write_long(incoming.executed(), out)?;
    write_short(last.len() as u16, out)?;
    out.write_all(last)
}

/// The state that bytes are, by a profile whose ring for a client's entities has 512 to 65,536 places. `Err` is want
/// of memory, or `NotState` exactly where they are none, with the place of the first field that is cut short or breaks
/// a rule, or of the first byte after the state.
pub fn read_state(alloc: Global, profile: &Profile, bytes: &[u8]) -> Result<ClState, StateError>
    requires least { 512 ≤ profile.now.parse_ring }
    requires most { profile.now.parse_ring ≤ 65536 }
    ensures { ReadsState profile.now (state_at profile.now bytes.now) result }
{
    read_state_is_written();
    codec_stands(profile);
    bytes_fit(bytes);
    let contents = read_contents(alloc, profile, bytes)?;
    Ok(ClState::of(alloc, profile, contents)?)
}

/// All but the profile of the state that bytes are.
#[tactic(auto, unfolding(crate::specs::State::state_at))]
fn read_contents(alloc: Global, profile: &Profile, bytes: &[u8]) -> Result<Contents, StateError>
    requires least { 512 ≤ profile.now.parse_ring }
    requires most { profile.now.parse_ring ≤ 65536 }
    ensures { ReadsContents (state_at profile.now bytes.now) result }
{
    let mut configs = Configs::new(alloc)?;
    let mut baselines = Baselines::new(alloc)?;
    let mut rings = Rings::new(alloc, profile.parse_ring)?;
    let read = read_parts(profile, bytes, &mut configs, &mut baselines, &mut rings);
    let (start, has_game) = match read {
        Ok(read) => read,
        Err(place) => return Err(StateError::NotState(place)),
    };
    Ok(Contents {
        number: start.number,
        incoming: start.incoming,
        has_game,
        id: start.id,
        slot: start.slot,
        feed: start.feed,
        configs,
        baselines,
        rings,
    })
}

/// Reads all of a state, in its order, into parts that hold nothing.
#[tactic(auto, unfolding(crate::specs::State::state_at))]
fn read_parts(
    profile: &Profile,
    bytes: &[u8],
    configs: &mut Configs,
    baselines: &mut Baselines,
    rings: &mut Rings,
) -> Result<(Start, bool), usize>
    requires least { 512 ≤ profile.now.parse_ring }
    requires configs { configs.old ≡ no_strings }
    requires baselines { baselines.old ≡ no_baselines }
    requires rings { rings.old ≡ no_rings profile.now.parse_ring }
    ensures whole { read_as (λ read. saved_from (start_of read.0) read.1 configs.new baselines.new rings.new.held)
        result ≡ state_at profile.now bytes.now }
    ensures none { IfOk result (λ read. rings.new.begun ≡ None) }
{
    let mut cursor = Cursor::new(bytes, 0);
    let start = read_start(&mut cursor)?;
    read_pending(&mut cursor, configs)?;
    let has_game = cursor.byte(0, 1)? == 1;
    read_strings(&mut cursor, configs)?;
    read_baselines(&mut cursor, &profile.entity, baselines)?;
    read_snapshots(&mut cursor, profile, rings)?;
    cursor.end()?;
    Ok((start, has_game))
}

/// Reads the numbers of a state, and the last command's text.
#[tactic(auto, unfolding(crate::specs::State::start_at))]
fn read_start(cursor: &mut Cursor) -> Result<Start, usize>
    ensures { found (read_as start_of result) cursor.new ≡ start_at cursor.old }
{
    let number = cursor.long(0, LAST_NUMBER)?;
    let id = cursor.long(0, LAST_NUMBER)?;
    let slot = cursor.long(0, u32::MAX)?;
    let feed = cursor.long(0, u32::MAX)?;
    let executed = cursor.long(0, u32::MAX)?;
    let length = cursor.short(0, LONGEST_TEXT as u16)?;
    let text = cursor.text(usize::from(length))?;
    Ok(Start {
        number,
        id,
        slot,
        feed,
        incoming: Incoming::at(executed, &text_of(text)),
    })
}

/// The text of bytes that a text may hold, at most 1,023.
fn text_of(bytes: &[u8]) -> Text
    requires { IsText bytes.now }
    ensures { result ≡ bytes.now }
{
    texts_are_texts();
    Text::of(bytes).unwrap_or_else(|_| Text::new())
}

/// What a profile's types tell of it.
fn codec_stands(profile: &Profile)
    ensures { IsCodec profile.now }
{
    let _bit = Reader::new(&profile.code, &[]).get(BIT);
    let _entity = profile.entity.copy();
    let _player = profile.player.copy();
}

/// Bytes are below 256, as their type tells.
fn bytes_fit(bytes: &[u8])
    ensures { All (λ byte. byte < 256) bytes.now }
{}
