//! Reads a server's message. Keeps the rules "layout of a server message", "snapshot section" and "snapshot whose base
//! is not held", the engine's `CL_ParseServerMessage` and `CL_ParseSnapshot` (cl_parse.c). The refusals are this project's own.

ghost use Rattle.std.specs.Prelude.{◌≡◌, ◌<◌, option_map, IfOk, OnOk};
ghost use Rattle.q3_bits.specs.Bits.{bits_of};
ghost use Rattle.q3_bits.specs.Words.{IsCode};
ghost use Rattle.q3_bits.specs.Streams.{Reads, holding};
ghost use Rattle.q3_player.specs.State.{zero_player};
ghost use Rattle.q3_entity.specs.Entities.{Rises};
ghost use Rattle.q3_gamestate.specs.Values.{Gamestate};
ghost use Rattle.q3_svmsg.specs.Values.{Base, Game, Message, base_viewed, base_player, base_entities, number_of_base, game_of, told_of, section_of, HasList, HasNumber};
ghost use Rattle.q3_svmsg.specs.Reading.{ack_at, area_at, game_at, held_base, snapshot_at, snapshot_skipped, against_base, section_at, rest_at, operations_at, server_message_in, telling};

use crate::bases::{BaseView, Bases, base_or};
use crate::error::Illegible;
use crate::message::{Section, ServerMessage};
use crate::operations::{SERVER_COMMAND, SNAPSHOT};
use arrayvec::ArrayVec;
use q3_bits::{BYTE, Code, LONG, ReadError, Reader};
use q3_entity::{Baselines, List, read_list, skip_list};
use q3_gamestate::operations::{EOF, GAMESTATE};
use q3_gamestate::read_gamestate;
use q3_player::{MOST_AREA, PlayerState, SnapHead, read_player};
use q3_profile::Profile;
use q3_strings::{read_bytes, read_ending, read_row};

/// Reads the number of the last client command that the server executed, and answers how many bits it takes.
/// `End` and `NoWord` come as in `Reader::get`.
pub fn read_ack(code: &Code, bytes: &[u8]) -> Result<(u32, usize), ReadError>
    ensures { result ≡ ack_at code.now (bits_of bytes.now) }
{
    let mut r = Reader::new(code, bytes);
    let ack = r.get(LONG)?;
    Ok((ack, r.place()))
}

/// Reads the area bytes and how many there are.
#[tactic(auto, unfolding(crate::specs::Reading::area_at))]
fn read_area(r: &mut Reader, into: &mut ArrayVec<u8, MOST_AREA>) -> Result<(), Illegible>
    ensures { Reads r.old r.new (area_at r.old.words r.old.left) (holding into.new.items result) }
{
    let count = r.get(BYTE)?;
    if count > MOST_AREA as u32 {
        return Err(Illegible::Area(count as u8));
    }
    read_bytes(r, count as usize, into)?;
    Ok(())
}

/// The number of the base at a distance, or 0 where there is none.
fn base_at(number: u32, distance: u32) -> u32
    ensures { result ≡ number_of_base number distance }
{
    if distance < number && distance != 0 {
        return number - distance;
    }
    0
}

/// The snapshot of a number, if it is held.
fn held<B: Bases>(bases: &B, number: u32) -> Option<BaseView<'_>>
    ensures held { option_map base_viewed result ≡ held_base (B.context bases.now) number }
    ensures rises { Rises (base_entities (option_map base_viewed result)) }
{
    if number == 0 {
        return None;
    }
    bases.base(number)
}

/// Reads the player and the entities of a snapshot against its base.
#[tactic(auto, unfolding(crate::specs::Reading::snapshot_at))]
fn read_snapshot(
    r: &mut Reader,
    profile: &Profile,
    baselines: &Baselines,
    base: u32,
    against: Option<BaseView>,
    head: &mut SnapHead,
    entities: &mut List,
) -> Result<Section, Illegible>
    requires { Rises (base_entities (option_map base_viewed against)) }
    ensures reads { (game : Gamestate) → Reads r.old r.new (snapshot_at
        (record profile.now { code = r.old.words }) baselines.now
        (option_map base_viewed against.entry) base head.old r.old.left)
        (telling game head.new entities.new.items result) }
    ensures list { (game : Gamestate) → IfOk result (λ section. HasList profile.now.entity
        (section_of section game head.new entities.new.items)) }
    ensures number { head.new.number ≡ head.old.number }
{
    let zero = PlayerState::zero();
    let from = base_or(against, &zero);
    read_player(r, &profile.player, from.player, &mut head.player)?;
    read_list(r, &profile.entity, baselines, from.entities, entities)?;
    Ok(Section::Snap { base, held: true })
}

/// Reads the player and the entities of a snapshot whose base isn't held.
#[tactic(auto, unfolding(crate::specs::Reading::snapshot_skipped))]
fn skip_snapshot(r: &mut Reader, profile: &Profile) -> Result<(), Illegible>
    ensures { Reads r.old r.new (snapshot_skipped (record profile.now { code = r.old.words }) r.old.left) result }
{
    let zero = PlayerState::zero();
    let mut player = zero;
    read_player(r, &profile.player, &zero, &mut player)?;
    skip_list(r, &profile.entity)?;
    Ok(())
}

/// Reads the player and the entities of a snapshot whose base, if it has one, is at a distance.
fn read_against<B: Bases>(
    r: &mut Reader,
    profile: &Profile,
    distance: u32,
    base: u32,
    bases: &B,
    head: &mut SnapHead,
    entities: &mut List,
) -> Result<Section, Illegible>
    ensures reads { (game : Gamestate) → Reads r.old r.new (against_base (record profile.now { code = r.old.words })
        (B.context bases.now) distance base (held_base (B.context bases.now) base) head.old r.old.left)
        (telling game head.new entities.new.items result) }
    ensures list { (game : Gamestate) → IfOk result (λ section. HasList profile.now.entity
        (section_of section game head.new entities.new.items)) }
    ensures number { head.new.number ≡ head.old.number }
{
    let against = held(bases, base);
    if against.is_none() && distance != 0 {
        skip_snapshot(r, profile)?;
        return Ok(Section::Snap { base, held: false });
    }
    read_snapshot(r, profile, bases.baselines(), base, against, head, entities)
}

/// Reads a snapshot after its operation, into places for its head and for its entities.
#[tactic(auto, unfolding(crate::specs::Reading::section_at, q3_player::specs::Heads::empty_head))]
fn read_section<B: Bases>(
    r: &mut Reader,
    profile: &Profile,
    number: u32,
    bases: &B,
    head: &mut SnapHead,
    entities: &mut List,
) -> Result<Section, Illegible>
    ensures reads { (game : Gamestate) → Reads r.old r.new (section_at (record profile.now { code = r.old.words })
        (B.context bases.now) number r.old.left)
        (telling game head.new entities.new.items result) }
    ensures list { (game : Gamestate) → IfOk result (λ section. HasList profile.now.entity
        (section_of section game head.new entities.new.items)) }
    ensures number { head.new.number ≡ number }
{
    *head = SnapHead::new();
    head.number = number;
    head.time = r.get(LONG)?;
    let distance = r.get(BYTE)?;
    head.flags = r.get(BYTE)? as u8;
    read_area(r, &mut head.area)?;
    let base = base_at(number, distance);
    read_against(r, profile, distance, base, bases, head, entities)
}

/// Reads a gamestate after its operation, into its places.
#[tactic(auto, unfolding(crate::specs::Reading::game_at))]
fn read_game(r: &mut Reader, profile: &Profile, into: &mut ServerMessage) -> Result<(), Illegible>
    ensures reads { Reads r.old r.new (game_at (record profile.now { code = r.old.words }) r.old.left)
        (holding (Game (game_of into.new)) result) }
    ensures ack { into.new.ack ≡ into.old.ack }
    ensures commands { into.new.commands ≡ into.old.commands }
{
    let numbers = read_gamestate(
        r,
        profile,
        &mut into.configs,
        &mut into.baselines,
        &mut into.string,
    )?;
    into.command = numbers.command;
    into.slot = numbers.slot;
    into.feed = numbers.feed;
    Ok(())
}

/// Reads what follows the commands, by the operation that stands there: the end of the message, or its section and the
/// end after it.
#[tactic(auto, unfolding(crate::specs::Reading::rest_at, crate::specs::Reading::ended_at))]
fn read_rest<B: Bases>(
    r: &mut Reader,
    profile: &Profile,
    number: u32,
    bases: &B,
    operation: u32,
    into: &mut ServerMessage,
) -> Result<(), Illegible>
    requires list { HasList profile.now.entity (told_of into.old).section }
    requires number { HasNumber number (told_of into.old).section }
    requires code { IsCode r.old.words }
    requires byte { operation < 256 }
    ensures reads { Reads r.old r.new (rest_at (record profile.now { code = r.old.words })
        (B.context bases.now) number operation (told_of into.old) r.old.left)
        (holding (told_of into.new) result) }
    ensures list { OnOk result (HasList profile.now.entity (told_of into.new).section) }
    ensures number { OnOk result (HasNumber number (told_of into.new).section) }
{
    match operation {
        EOF => return Ok(()),
        GAMESTATE => {
            read_game(r, profile, into)?;
            into.section = Section::Game;
        }
        SNAPSHOT => {
            into.section = read_section(
                r,
                profile,
                number,
                bases,
                &mut into.head,
                &mut into.entities,
            )?;
        }
        operation => return Err(Illegible::BadOp(operation as u8)),
    }
    read_ending(r, EOF)?;
    Ok(())
}

/// Reads what follows the leading long: nops and commands, and the end of the message or its section.
#[tactic(auto, unfolding(crate::specs::Reading::operations_at))]
fn read_operations<B: Bases>(
    r: &mut Reader,
    profile: &Profile,
    number: u32,
    bases: &B,
    into: &mut ServerMessage,
) -> Result<(), Illegible>
    requires list { HasList profile.now.entity (told_of into.old).section }
    requires number { HasNumber number (told_of into.old).section }
    requires code { IsCode r.old.words }
    ensures reads { Reads r.old r.new (operations_at (record profile.now { code = r.old.words })
        (B.context bases.now) number (told_of into.old) r.old.left)
        (holding (told_of into.new) result) }
    ensures list { OnOk result (HasList profile.now.entity (told_of into.new).section) }
    ensures number { OnOk result (HasNumber number (told_of into.new).section) }
{
    let operation = read_row(r, SERVER_COMMAND, &mut into.commands)?;
    read_rest(r, profile, number, bases, operation, into)
}

/// Reads a server's message under its number, against the snapshots that are held. A snapshot whose base isn't held is
/// read to its end, and nothing of it is kept. After a refusal `into` may hold anything.
///
/// `Err` is the first fault in reading order: `Bits` where the bits don't read; `BadOp` for an operation that may not
/// stand there: before the section others than nop, command, gamestate, snapshot and the end, inside a gamestate others
/// than config string, baseline and the end, and after the section others than nop and the end; `Commands` for a 65th
/// command; `TextLong` where the byte after 1,023 of a string, or after 8,191 of a config string, isn't 0; `Area` for
/// more than 32 area bytes; `Player` and `Entity` where these don't read, and of a baseline also `Order` for the end mark,
/// before its state is read, and `Removes`; `Config` of a gamestate, with `Index`, before the string is read, or with
/// `Full`, after it; `NoServerId` where the gamestate's strings give none, before its slot is read.
#[tactic(auto, unfolding(crate::specs::Reading::server_message_at))]
pub fn read_server_message<B: Bases>(
    profile: &Profile,
    number: u32,
    bytes: &[u8],
    bases: &B,
    into: &mut ServerMessage,
) -> Result<(), Illegible>
    ensures reads { holding (told_of into.new) result ≡ server_message_in profile.now (B.context bases.now) number
        (bits_of bytes.now) }
    ensures list { OnOk result (HasList profile.now.entity (told_of into.new).section) }
    ensures number { OnOk result (HasNumber number (told_of into.new).section) }
{
    let mut r = Reader::new(&profile.code, bytes);
    into.commands.clear();
    into.section = Section::Nothing;
    into.ack = r.get(LONG)?;
    read_operations(&mut r, profile, number, bases, into)
}
