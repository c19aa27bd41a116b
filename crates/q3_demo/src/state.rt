//! Prints what the messages that were applied left. The spelling is this project's own.

ghost use Rattle.std.specs.Prelude.{◌≡◌, ◌<◌, [], ◌∷◌, ◌++◌, Some, length, codes, decimal};
ghost use Rattle.std.specs.List.{concat, flat_map};
ghost use Rattle.q3_io.specs.Faults.{HasCause};
ghost use Rattle.q3_io.specs.Written.{Adds};
ghost use Rattle.q3_config.specs.Strings.{AreStrings};
ghost use Rattle.q3_entity.specs.Baselines.{most_baselines, set_at};
ghost use Rattle.q3_entity.specs.Entities.{run_of};
ghost use Rattle.q3_rings.specs.Loans.{snapshot_of};
ghost use Rattle.q3_rings.specs.ByNumber.{held_under};
ghost use Rattle.q3_clstate.specs.Report.{snapshot_text};
ghost use Rattle.q3_demo.specs.Report.{state_text, count_text, map_text, indexed_text, pending_text, config_text, configs_text, baseline_text, held_text, held_texts, newest_text};

use q3_clstate::{ClState, print_snapshot};
use q3_config::STRINGS;
use q3_entity::{Baselines, EntityState, MOST_BASELINES, Run, print_fields};
use q3_io::{Failed, Piece, Sink, laws, print_all};
use q3_rings::{Held, SnapView};

/// Prints what the messages of so many records left: the map, the text that is pending, the config strings and the baselines that
/// are set, the snapshots that are held, and the newest. `Failed` comes where the sink failed, after a front of the text.
pub fn print_state<O: Sink>(state: &ClState, records: u32, out: &mut O) -> Result<(), Failed>
    ensures adds { Adds (O.written out.old) (O.written out.new) (state_text state.now records) result }
    ensures cause { HasCause (O.faults out.old) (O.faults out.new) result }
{
    laws::texts_follow();
    let newest = state.newest();
    print_count(records, out)?;
    print_map(state, out)?;
    print_pending(state, out)?;
    print_configs(state, out)?;
    print_baselines(state, out)?;
    print_held(state, newest, out)?;
    print_newest(state, newest, out)
}

/// Prints how many records were played.
fn print_count<O: Sink>(records: u32, out: &mut O) -> Result<(), Failed>
    ensures adds { Adds (O.written out.old) (O.written out.new) (count_text records) result }
    ensures cause { HasCause (O.faults out.old) (O.faults out.new) result }
{
    print_all(
        &[
            Piece::Text(b"state "),
            Piece::Number(u64::from(records)),
            Piece::Text(b"\n"),
        ],
        out,
    )
}

/// Prints what the last gamestate told, and the number of the last command executed.
fn print_map<O: Sink>(state: &ClState, out: &mut O) -> Result<(), Failed>
    ensures adds { Adds (O.written out.old) (O.written out.new) (map_text state.now) result }
    ensures cause { HasCause (O.faults out.old) (O.faults out.new) result }
{
    print_all(
        &[
            Piece::Text(b"+ id "),
            Piece::Number(u64::from(state.id())),
            Piece::Text(b" slot "),
            Piece::Number(u64::from(state.slot())),
            Piece::Text(b" feed "),
            Piece::Number(u64::from(state.feed())),
            Piece::Text(b" command "),
            Piece::Number(u64::from(state.executed())),
            Piece::Text(b"\n"),
        ],
        out,
    )
}

/// Prints the text that is pending, if one is.
fn print_pending<O: Sink>(state: &ClState, out: &mut O) -> Result<(), Failed>
    ensures adds { Adds (O.written out.old) (O.written out.new) (pending_text state.now.strings.pending) result }
    ensures cause { HasCause (O.faults out.old) (O.faults out.new) result }
{
    match state.configs().pending() {
        None => print_all(&[], out),
        Some((index, text)) => print_indexed(b"pending", index, text, out),
    }
}

/// Prints a line for each config string that isn't empty, by index.
fn print_configs<O: Sink>(state: &ClState, out: &mut O) -> Result<(), Failed>
    requires { AreStrings state.now.strings }
    ensures adds { Adds (O.written out.old) (O.written out.new) (configs_text 0 state.now.strings.texts) result }
    ensures cause { HasCause (O.faults out.old) (O.faults out.new) result }
{
    laws::texts_follow();
    for index in 0..STRINGS {
        print_config(index, state.configs().get(index), out)?;
    }
    Ok(())
}

/// Prints the line of a config string, unless it is empty.
fn print_config<O: Sink>(index: u32, text: &[u8], out: &mut O) -> Result<(), Failed>
    ensures adds { Adds (O.written out.old) (O.written out.new) (config_text index text.now) result }
    ensures cause { HasCause (O.faults out.old) (O.faults out.new) result }
{
    if text.is_empty() {
        return print_all(&[], out);
    }
    print_indexed(b"config", index, text, out)
}

/// Prints the line of a text at an index.
fn print_indexed<'a, O: Sink>(
    word: &'a [u8],
    index: u32,
    text: &'a [u8],
    out: &mut O,
) -> Result<(), Failed>
    ensures adds { Adds (O.written out.old) (O.written out.new) (indexed_text word.now index text.now) result }
    ensures cause { HasCause (O.faults out.old) (O.faults out.new) result }
{
    print_all(
        &[
            Piece::Text(b"+ "),
            Piece::Text(word),
            Piece::Text(b" "),
            Piece::Number(u64::from(index)),
            Piece::Text(b" "),
            Piece::Quoted(text),
            Piece::Text(b"\n"),
        ],
        out,
    )
}

/// Prints a line for each baseline that is set, by number.
fn print_baselines<O: Sink>(state: &ClState, out: &mut O) -> Result<(), Failed>
    requires { length state.now.baselines ≡ most_baselines }
    ensures adds { Adds (O.written out.old) (O.written out.new) (flat_map baseline_text state.now.baselines) result }
    ensures cause { HasCause (O.faults out.old) (O.faults out.new) result }
{
    laws::items_follow::<Option<EntityState>>();
    for number in 0..MOST_BASELINES {
        print_baseline(state.baselines(), number, out)?;
    }
    Ok(())
}

/// Prints the line of a number's baseline, if it is set.
fn print_baseline<O: Sink>(baselines: &Baselines, number: u16, out: &mut O) -> Result<(), Failed>
    ensures adds { Adds (O.written out.old) (O.written out.new) (baseline_text (set_at baselines.now number)) result }
    ensures cause { HasCause (O.faults out.old) (O.faults out.new) result }
{
    match baselines.get(number) {
        Some(state) => print_line(state, out),
        None => print_all(&[], out),
    }
}

/// Prints the line of a baseline.
fn print_line<O: Sink>(state: &EntityState, out: &mut O) -> Result<(), Failed>
    ensures adds { Adds (O.written out.old) (O.written out.new) (baseline_text (Some state.now)) result }
    ensures cause { HasCause (O.faults out.old) (O.faults out.new) result }
{
    laws::texts_follow();
    print_number(state.number, out)?;
    print_fields(&state.words, out)?;
    out.write_all(b"\n")
}

/// Prints what stands in front of a baseline's words.
fn print_number<O: Sink>(number: u16, out: &mut O) -> Result<(), Failed>
    ensures adds { Adds (O.written out.old) (O.written out.new)
        (concat (codes "+ baseline " ∷ decimal number ∷ [])) result }
    ensures cause { HasCause (O.faults out.old) (O.faults out.new) result }
{
    print_all(
        &[
            Piece::Text(b"+ baseline "),
            Piece::Number(u64::from(number)),
        ],
        out,
    )
}

/// Prints a line for each snapshot that is held, by rising number: at most as many rounds as there are places, and one.
fn print_held<O: Sink>(state: &ClState, newest: u32, out: &mut O) -> Result<(), Failed>
    requires { newest ≡ state.now.held.newest }
    ensures adds { Adds (O.written out.old) (O.written out.new) (held_texts state.now.held newest) result }
    ensures cause { HasCause (O.faults out.old) (O.faults out.new) result }
{
    laws::texts_follow();
    let rings = state.rings();
    let mut last = 0;
    while last < newest {
        last = rings.next_number(last);
        print_age(state, last, out)?;
    }
    Ok(())
}

/// Prints the line of the snapshot of a number, if it is held.
fn print_age<O: Sink>(state: &ClState, number: u32, out: &mut O) -> Result<(), Failed>
    ensures adds { Adds (O.written out.old) (O.written out.new)
        (held_text (held_under state.now.held number)) result }
    ensures cause { HasCause (O.faults out.old) (O.faults out.new) result }
{
    match state.rings().held_under(number) {
        None => print_all(&[], out),
        Some(held) => print_all(
            &[
                Piece::Text(b"+ held "),
                Piece::Number(u64::from(held.head.number)),
                Piece::Text(b" "),
                Piece::Number(held.age),
                Piece::Text(b"\n"),
            ],
            out,
        ),
    }
}

/// Prints the newest snapshot, if one was accepted: with no entities where they are gone.
fn print_newest<O: Sink>(state: &ClState, newest: u32, out: &mut O) -> Result<(), Failed>
    ensures adds { Adds (O.written out.old) (O.written out.new)
        (newest_text (held_under state.now.held newest)) result }
    ensures cause { HasCause (O.faults out.old) (O.faults out.new) result }
{
    let rings = state.rings();
    match rings.held_under(newest) {
        None => print_all(&[], out),
        Some(held) => print_view(view_of(held, rings.entities_of(newest)), out),
    }
}

/// What is held of a snapshot, as a view.
fn view_of<'a>(held: Held<'a>, entities: Run<'a>) -> SnapView<'a>
    ensures { snapshot_of result ≡ record { head = held.entry.head.now; entities = run_of entities.entry } }
{
    SnapView {
        number: held.head.number,
        time: held.head.time,
        flags: held.head.flags,
        area: &held.head.area,
        player: &held.head.player,
        entities,
    }
}

/// Prints a snapshot after the mark of its line.
fn print_view<O: Sink>(view: SnapView, out: &mut O) -> Result<(), Failed>
    ensures adds { Adds (O.written out.old) (O.written out.new)
        (codes "+" ++ snapshot_text (snapshot_of view.entry)) result }
    ensures cause { HasCause (O.faults out.old) (O.faults out.new) result }
{
    laws::texts_follow();
    out.write_all(b"+")?;
    print_snapshot(view, out)
}
