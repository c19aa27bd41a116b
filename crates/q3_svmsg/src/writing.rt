//! Writes a server's message. Keeps the rules "layout of a server message" and "snapshot section", the engine's
//! `SV_SendClientSnapshot`, `SV_SendClientGameState` and `SV_WriteSnapshotToClient`.

ghost use Rattle.std.specs.Prelude.{◌≡◌, ◌≤◌, [], ◌∷◌, ◌++◌, length, None, option_map};
ghost use Rattle.q3_bits.specs.Streams.{Writes, Fills};
ghost use Rattle.q3_bits.specs.Words.{row_bits};
ghost use Rattle.q3_text.specs.Commands.{commands_of};
ghost use Rattle.q3_strings.specs.Commands.{commands_bits};
ghost use Rattle.q3_entity.specs.Baselines.{Baselines, no_baselines};
ghost use Rattle.q3_entity.specs.Entities.{IsList};
ghost use Rattle.q3_entity.specs.Entities as entities_spec;
ghost use Rattle.q3_svmsg.specs.Values.{HasSnap, IsNamed, Game, base_viewed, base_entities, distance_to, game_of, told_of, parts_told, game_told};
ghost use Rattle.q3_svmsg.specs.Texts.{head_bits, snapshot_bits, server_message_bits};

use crate::bases::{BaseView, base_or};
use crate::message::{GameParts, Section, ServerMessage, SnapParts};
use crate::operations::{SERVER_COMMAND, SNAPSHOT};
use q3_bits::{BYTE, LONG, Overflow, Writer, laws};
use q3_entity::{Baselines, Run, write_run};
use q3_gamestate::operations::EOF;
use q3_gamestate::{Numbers, write_gamestate};
use q3_player::{PlayerState, SnapHead, write_player};
use q3_profile::Profile;
use q3_strings::{write_bytes, write_commands};
use q3_text::{Command, CommandRun};

/// Writes a message with a snapshot to the front of a buffer of 1 to 16,384 bytes, and answers how many bytes it has;
/// those after it stay. The message's section names its base exactly where one is given, at most 255 below the head's
/// number. `Overflow` comes exactly where the message is longer than the buffer.
pub fn write_snap(
    profile: &Profile,
    message: &ServerMessage,
    baselines: &Baselines,
    base: Option<BaseView>,
    into: &mut [u8],
) -> Result<usize, Overflow>
    requires snap { HasSnap message.now.section (option_map base_viewed base) message.now.head.number }
    requires entities { IsList profile.now.entity message.now.entities.value.items }
    requires base_entities { IsList profile.now.entity (base_entities (option_map base_viewed base)) }
    requires some { 1 ≤ length into.old }
    requires most { length into.old ≤ 16384 }
    ensures { Fills into.old into.new (server_message_bits profile.now baselines.now
        (option_map base_viewed base.entry) (told_of message.now)) result }
{
    match message.section {
        Section::Snap {
            base: number,
            held: true,
        } => write_parts(profile, parts_of(message, number), baselines, base, into),
        _ => unreachable!(),
    }
}

/// Writes a message with a snapshot whose parts are lent, as `write_snap` writes one: to the front of a buffer of 1 to
/// 16,384 bytes, against its base, which is given exactly where the parts name one, at most 255 below the head's number.
/// It answers how many bytes the message has; those after it stay. `Overflow` comes exactly where the message is longer
/// than the buffer.
pub fn write_parts(
    profile: &Profile,
    parts: SnapParts,
    baselines: &Baselines,
    base: Option<BaseView>,
    into: &mut [u8],
) -> Result<usize, Overflow>
    requires named { IsNamed (option_map base_viewed base) parts.head.now.number parts.base }
    requires entities { IsList profile.now.entity (entities_spec.run_of parts.entities) }
    requires base_entities { IsList profile.now.entity (base_entities (option_map base_viewed base)) }
    requires some { 1 ≤ length into.old }
    requires most { length into.old ≤ 16384 }
    ensures { Fills into.old into.new (server_message_bits profile.now baselines.now
        (option_map base_viewed base.entry) (parts_told parts.entry)) result }
{
    let mut w = Writer::new(&profile.code, into.len());
    write_snap_bits(&mut w, profile, parts, baselines, base)?;
    Ok(w.copy_to(into))
}

/// Writes a message with a gamestate to the front of a buffer of 1 to 16,384 bytes, and answers how many bytes it has;
/// those after it stay. `Overflow` comes exactly where the message is longer than the buffer.
pub fn write_game(
    profile: &Profile,
    message: &ServerMessage,
    into: &mut [u8],
) -> Result<usize, Overflow>
    requires game { message.now.section ≡ Section.Game }
    requires some { 1 ≤ length into.old }
    requires most { length into.old ≤ 16384 }
    ensures { (baselines : Baselines) → Fills into.old into.new
        (server_message_bits profile.now baselines None (told_of message.now)) result }
{
    write_game_parts(profile, game_parts_of(message), into)
}

/// Writes a message with a gamestate whose parts are lent, as `write_game` writes one.
pub fn write_game_parts(
    profile: &Profile,
    parts: GameParts,
    into: &mut [u8],
) -> Result<usize, Overflow>
    requires some { 1 ≤ length into.old }
    requires most { length into.old ≤ 16384 }
    ensures { (baselines : Baselines) → Fills into.old into.new
        (server_message_bits profile.now baselines None (game_told parts.entry)) result }
{
    fill_game(profile, parts, into)
}

/// Writes a message with its gamestate to the front of a buffer.
fn fill_game(profile: &Profile, parts: GameParts, into: &mut [u8]) -> Result<usize, Overflow>
    requires some { 1 ≤ length into.old }
    requires most { length into.old ≤ 16384 }
    ensures { Fills into.old into.new (server_message_bits profile.now no_baselines None (game_told parts.entry))
        result }
{
    let mut w = Writer::new(&profile.code, into.len());
    write_game_bits(&mut w, profile, parts)?;
    Ok(w.copy_to(into))
}

/// The parts of a message with its gamestate; its commands are one piece.
fn game_parts_of(message: &ServerMessage) -> GameParts<'_>
    ensures { game_told result ≡ record (told_of message.now) { section = Game (game_of message.now) } }
{
    GameParts {
        ack: message.ack,
        commands: run_of(message.commands.as_slice()),
        numbers: Numbers {
            command: message.command,
            slot: message.slot,
            feed: message.feed,
        },
        configs: &message.configs,
        baselines: &message.baselines,
    }
}

/// The parts of a message with a snapshot that names this base; its commands are one piece.
fn parts_of(message: &ServerMessage, base: u32) -> SnapParts<'_>
    ensures ack { result.ack ≡ message.now.ack }
    ensures commands { commands_of result.commands ≡ message.now.commands }
    ensures base { result.base ≡ base }
    ensures head { result.head.now ≡ message.now.head }
    ensures entities { entities_spec.run_of result.entities ≡ message.now.entities.value.items }
{
    SnapParts {
        ack: message.ack,
        commands: run_of(message.commands.as_slice()),
        base,
        head: &message.head,
        entities: Run::of(&message.entities),
    }
}

/// Commands in one row, as a run.
fn run_of(commands: &[Command]) -> CommandRun<'_>
    ensures { commands_of result ≡ commands.now }
{
    CommandRun {
        head: commands,
        tail: &[],
    }
}

/// Writes a message with a snapshot: the front, the snapshot, and the end.
#[tactic(auto, unfolding(crate::specs::Texts::server_message_bits, crate::specs::Texts::section_bits))]
fn write_snap_bits(
    w: &mut Writer,
    profile: &Profile,
    parts: SnapParts,
    baselines: &Baselines,
    base: Option<BaseView>,
) -> Result<(), Overflow>
    requires named { IsNamed (option_map base_viewed base) parts.head.now.number parts.base }
    requires entities { IsList profile.now.entity (entities_spec.run_of parts.entities) }
    requires base_entities { IsList profile.now.entity (base_entities (option_map base_viewed base)) }
    ensures { Writes w.old w.new (server_message_bits (record profile.now { code = w.old.words }) baselines.now
        (option_map base_viewed base.entry) (parts_told parts.entry)) result }
{
    laws::texts_are_written();
    write_front(w, parts.ack, parts.commands)?;
    write_snapshot(
        w,
        profile,
        baselines,
        parts.base,
        base,
        parts.head,
        parts.entities,
    )?;
    w.put_all(&[(EOF, BYTE)])
}

/// Writes a message with a gamestate: the front, the gamestate, and the end.
#[tactic(auto, unfolding(crate::specs::Texts::server_message_bits, crate::specs::Texts::section_bits))]
fn write_game_bits(w: &mut Writer, profile: &Profile, parts: GameParts) -> Result<(), Overflow>
    ensures { Writes w.old w.new (server_message_bits (record profile.now { code = w.old.words }) no_baselines None
        (game_told parts.entry)) result }
{
    laws::texts_are_written();
    write_front(w, parts.ack, parts.commands)?;
    write_gamestate(w, profile, parts.numbers, parts.configs, parts.baselines)?;
    w.put_all(&[(EOF, BYTE)])
}

/// Writes what begins each message: the last client command executed, and the commands.
fn write_front(w: &mut Writer, ack: u32, commands: CommandRun) -> Result<(), Overflow>
    ensures { Writes w.old w.new (row_bits w.old.words ((ack, 32) ∷ []) ++ commands_bits w.old.words 5
        (commands_of commands.entry)) result }
{
    laws::texts_are_written();
    w.put_all(&[(ack, LONG)])?;
    write_commands(w, SERVER_COMMAND as u8, commands)
}

/// Writes a snapshot against its base, which is given with its number: the head, the player, and the entities.
#[tactic(auto, unfolding(crate::specs::Texts::snapshot_bits))]
fn write_snapshot(
    w: &mut Writer,
    profile: &Profile,
    baselines: &Baselines,
    number: u32,
    base: Option<BaseView>,
    head: &SnapHead,
    entities: Run,
) -> Result<(), Overflow>
    requires number { number ≤ head.now.number }
    requires entities { IsList profile.now.entity (entities_spec.run_of entities) }
    requires base_entities { IsList profile.now.entity (base_entities (option_map base_viewed base)) }
    ensures { Writes w.old w.new (snapshot_bits (record profile.now { code = w.old.words }) baselines.now
        (option_map base_viewed base.entry) number head.now (entities_spec.run_of entities.entry)) result }
{
    laws::texts_are_written();
    let zero = PlayerState::zero();
    let from = base_or(base, &zero);
    write_head(w, number, head)?;
    write_player(w, &profile.player, from.player, &head.player)?;
    write_run(w, &profile.entity, baselines, from.entities, entities)
}

/// Writes the head of a snapshot against the base of a number, 0 for none: the operation, the time, how far below the
/// base is, the flags, and the area.
fn write_head(w: &mut Writer, base: u32, head: &SnapHead) -> Result<(), Overflow>
    requires { base ≤ head.now.number }
    ensures { Writes w.old w.new (head_bits w.old.words base head.now) result }
{
    laws::texts_are_written();
    w.put_all(&[
        (SNAPSHOT, BYTE),
        (head.time, LONG),
        (distance(head.number, base), BYTE),
        (u32::from(head.flags), BYTE),
        (head.area.len() as u32, BYTE),
    ])?;
    write_bytes(w, &head.area)
}

/// How far a base is below a message's number, 0 where there is none.
fn distance(number: u32, base: u32) -> u32
    requires { base ≤ number }
    ensures { result ≡ distance_to number base }
{
    if base == 0 {
        return 0;
    }
    number - base
}
