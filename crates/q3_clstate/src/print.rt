//! Prints what became of a message, and a snapshot, as reports have them. The spelling is this project's own.

ghost use Rattle.std.specs.Prelude.{◌≡◌, [], ◌∷◌, codes, decimal};
ghost use Rattle.std.specs.List.{concat, flat_map};
ghost use Rattle.q3_io.specs.Faults.{HasCause};
ghost use Rattle.q3_io.specs.Written.{Adds};
ghost use Rattle.q3_clstate.specs.Report.{cause_text, outcome_text, game_text, applied_text, start_text, head_text, entity_text, snapshot_text};
ghost use Rattle.q3_rings.specs.Loans.{snapshot_of};
ghost use Rattle.q3_entity.specs.Entities.{run_of};

use crate::applied::{Applied, Log, SnapOutcome};
use crate::state::ClState;
use q3_entity::{EntityState, Run, print_fields};
use q3_io::{Failed, Piece, Sink, laws, print_all, print_hex_word};
use q3_player::print_words;
use q3_rings::{NoBase, SnapView};
use q3_window::print_commands;

/// Prints the lines under an applied message, by the state after it: one for each command that was executed, and those of its
/// gamestate and of its snapshot, where it has one. `Failed` comes where the sink failed, after a front of them.
pub fn print_applied<O: Sink>(
    state: &ClState,
    applied: &Applied,
    log: &Log,
    out: &mut O,
) -> Result<(), Failed>
    ensures adds { Adds (O.written out.old) (O.written out.new)
        (applied_text state.now applied.now log.now.commands) result }
    ensures cause { HasCause (O.faults out.old) (O.faults out.new) result }
{
    laws::texts_follow();
    print_commands(log.commands.as_slice(), out)?;
    print_game(state, applied.game, out)?;
    print_outcome(applied, out)
}

/// Prints the line of a message's gamestate, where it has one: the id, the slot and the feed that the state has of it.
fn print_game<O: Sink>(state: &ClState, game: bool, out: &mut O) -> Result<(), Failed>
    ensures adds { Adds (O.written out.old) (O.written out.new) (game_text state.now game) result }
    ensures cause { HasCause (O.faults out.old) (O.faults out.new) result }
{
    if !game {
        return print_all(&[], out);
    }
    print_all(
        &[
            Piece::Text(b"+ gamestate id "),
            Piece::Number(u64::from(state.id())),
            Piece::Text(b" slot "),
            Piece::Number(u64::from(state.slot())),
            Piece::Text(b" feed "),
            Piece::Number(u64::from(state.feed())),
            Piece::Text(b"\n"),
        ],
        out,
    )
}

/// Prints the line of what became of a message's snapshot, where it has one.
fn print_outcome<O: Sink>(applied: &Applied, out: &mut O) -> Result<(), Failed>
    ensures adds { Adds (O.written out.old) (O.written out.new)
        (outcome_text applied.now.number applied.now.snap) result }
    ensures cause { HasCause (O.faults out.old) (O.faults out.new) result }
{
    match applied.snap {
        SnapOutcome::NoSnap => print_all(&[], out),
        SnapOutcome::Accepted { base } => {
            print_base(b"+ accepted ", applied.number, base, b"\n", out)
        }
        SnapOutcome::Skipped { base, cause } => print_skipped(applied.number, base, cause, out),
        SnapOutcome::Stale => print_stale(applied.number, out),
    }
}

fn print_stale<O: Sink>(number: u32, out: &mut O) -> Result<(), Failed>
    ensures adds { Adds (O.written out.old) (O.written out.new)
        (concat (codes "+ stale " ∷ decimal number ∷ codes "\n" ∷ [])) result }
    ensures cause { HasCause (O.faults out.old) (O.faults out.new) result }
{
    print_all(
        &[
            Piece::Text(b"+ stale "),
            Piece::Number(u64::from(number)),
            Piece::Text(b"\n"),
        ],
        out,
    )
}

/// Prints the line of a snapshot whose base isn't held.
fn print_skipped<O: Sink>(number: u32, base: u32, cause: NoBase, out: &mut O) -> Result<(), Failed>
    ensures adds { Adds (O.written out.old) (O.written out.new)
        (concat (codes "+ skipped " ∷ decimal number ∷ codes " base " ∷ decimal base
        ∷ codes " " ∷ cause_text cause ∷ codes "\n" ∷ [])) result }
    ensures cause { HasCause (O.faults out.old) (O.faults out.new) result }
{
    laws::texts_follow();
    print_base(b"+ skipped ", number, base, b" ", out)?;
    print_cause(cause, out)?;
    out.write_all(b"\n")
}

/// Prints a word for what became of a snapshot, its number, its base, and what ends the line or goes on in it.
fn print_base<'a, O: Sink>(
    word: &'a [u8],
    number: u32,
    base: u32,
    end: &'a [u8],
    out: &mut O,
) -> Result<(), Failed>
    ensures adds { Adds (O.written out.old) (O.written out.new)
        (concat (word.now ∷ decimal number ∷ codes " base " ∷ decimal base ∷ end.now ∷ [])) result }
    ensures cause { HasCause (O.faults out.old) (O.faults out.new) result }
{
    print_all(
        &[
            Piece::Text(word),
            Piece::Number(u64::from(number)),
            Piece::Text(b" base "),
            Piece::Number(u64::from(base)),
            Piece::Text(end),
        ],
        out,
    )
}

/// Prints why a base isn't held: a word, and for some causes a number.
fn print_cause<O: Sink>(cause: NoBase, out: &mut O) -> Result<(), Failed>
    ensures adds { Adds (O.written out.old) (O.written out.new) (cause_text cause) result }
    ensures cause { HasCause (O.faults out.old) (O.faults out.new) result }
{
    match cause {
        NoBase::NeverHeld => print_all(&[Piece::Text(b"neverheld")], out),
        NoBase::Overwritten(other) => print_all(
            &[
                Piece::Text(b"overwritten "),
                Piece::Number(u64::from(other)),
            ],
            out,
        ),
        NoBase::EntitiesGone(age) => {
            print_all(&[Piece::Text(b"entitiesgone "), Piece::Number(age)], out)
        }
    }
}

/// Prints a snapshot, after the words for whose it is: its number, time, flags and area, its player in a line of its own, and
/// each entity in one. `Failed` comes where the sink failed, after a front of the lines.
pub fn print_snapshot<O: Sink>(snapshot: SnapView, out: &mut O) -> Result<(), Failed>
    ensures adds { Adds (O.written out.old) (O.written out.new) (snapshot_text (snapshot_of snapshot.entry)) result }
    ensures cause { HasCause (O.faults out.old) (O.faults out.new) result }
{
    laws::texts_follow();
    print_head(snapshot, out)?;
    print_words(snapshot.player, out)?;
    out.write_all(b"\n")?;
    print_run(snapshot.entities, out)
}

/// Prints what stands in front of the player's words.
fn print_head<O: Sink>(snapshot: SnapView, out: &mut O) -> Result<(), Failed>
    ensures adds { Adds (O.written out.old) (O.written out.new) (head_text (snapshot_of snapshot.entry).head) result }
    ensures cause { HasCause (O.faults out.old) (O.faults out.new) result }
{
    laws::texts_follow();
    print_start(snapshot, out)?;
    print_hex_word(snapshot.area, out)?;
    out.write_all(b"\n+ player")
}

/// Prints what stands in front of the area.
fn print_start<O: Sink>(snapshot: SnapView, out: &mut O) -> Result<(), Failed>
    ensures adds { Adds (O.written out.old) (O.written out.new)
        (start_text (snapshot_of snapshot.entry).head) result }
    ensures cause { HasCause (O.faults out.old) (O.faults out.new) result }
{
    print_all(
        &[
            Piece::Text(b" snapshot "),
            Piece::Number(u64::from(snapshot.number)),
            Piece::Text(b" time "),
            Piece::Number(u64::from(snapshot.time)),
            Piece::Text(b" flags "),
            Piece::Number(u64::from(snapshot.flags)),
            Piece::Text(b" area "),
        ],
        out,
    )
}

/// Prints a line for each entity of a run.
fn print_run<O: Sink>(run: Run, out: &mut O) -> Result<(), Failed>
    ensures adds { Adds (O.written out.old) (O.written out.new) (flat_map entity_text (run_of run.entry)) result }
    ensures cause { HasCause (O.faults out.old) (O.faults out.new) result }
{
    laws::texts_follow();
    print_entities(run.head, out)?;
    print_entities(run.tail, out)
}

/// Prints a line for each entity.
fn print_entities<O: Sink>(entities: &[EntityState], out: &mut O) -> Result<(), Failed>
    ensures adds { Adds (O.written out.old) (O.written out.new) (flat_map entity_text entities.now) result }
    ensures cause { HasCause (O.faults out.old) (O.faults out.new) result }
{
    laws::items_follow::<EntityState>();
    for entity in entities {
        print_entity(entity, out)?;
    }
    Ok(())
}

/// Prints the line of an entity.
fn print_entity<O: Sink>(entity: &EntityState, out: &mut O) -> Result<(), Failed>
    ensures adds { Adds (O.written out.old) (O.written out.new) (entity_text entity.now) result }
    ensures cause { HasCause (O.faults out.old) (O.faults out.new) result }
{
    laws::texts_follow();
    print_number(entity.number, out)?;
    print_fields(&entity.words, out)?;
    out.write_all(b"\n")
}

/// Prints what stands in front of an entity's words.
fn print_number<O: Sink>(number: u16, out: &mut O) -> Result<(), Failed>
    ensures adds { Adds (O.written out.old) (O.written out.new) (concat (codes "+ entity " ∷ decimal number ∷ [])) result }
    ensures cause { HasCause (O.faults out.old) (O.faults out.new) result }
{
    print_all(
        &[Piece::Text(b"+ entity "), Piece::Number(u64::from(number))],
        out,
    )
}
