//! Writes a gamestate. Keeps the rule "gamestate section", the engine's `SV_SendClientGameState` (sv_client.c).

ghost use Rattle.std.specs.Prelude.{◌≡◌, ◌<◌};
ghost use Rattle.q3_bits.specs.Streams.{Writes};
ghost use Rattle.q3_config.specs.Strings.{places, string_at};
ghost use Rattle.q3_entity.specs.Baselines.{most_baselines, set_at};
ghost use Rattle.q3_gamestate.specs.Values.{gamestate_of};
ghost use Rattle.q3_gamestate.specs.Texts.{config_bits, baseline_bits, numbered, gamestate_bits};

use crate::numbers::Numbers;
use crate::operations::{BASELINE, CONFIG_STRING, EOF, GAMESTATE};
use q3_bits::{BYTE, LONG, Overflow, SHORT, Writer, laws};
use q3_config::{Configs, STRINGS};
use q3_entity::{Baselines, EntityState, MOST_BASELINES, write_entity};
use q3_fields::Table;
use q3_profile::Profile;
use q3_strings::write_string;

/// Writes a gamestate with its operation: the last server command's number, the config strings that aren't empty, the
/// baselines that are set, and the end, the slot and the feed. `Overflow` comes exactly where the text doesn't fit the
/// writer's room; a front of it was then written.
#[tactic(auto, unfolding(crate::specs::Texts::gamestate_bits))]
pub fn write_gamestate(
    w: &mut Writer,
    profile: &Profile,
    numbers: Numbers,
    configs: &Configs,
    baselines: &Baselines,
) -> Result<(), Overflow>
    ensures { Writes w.old w.new (gamestate_bits (record profile.now { code = w.old.words })
        (gamestate_of numbers configs.now baselines.now)) result }
{
    laws::texts_are_written();
    w.put_all(&[(GAMESTATE, BYTE), (numbers.command, LONG)])?;
    write_configs(w, configs)?;
    write_baselines(w, &profile.entity, baselines)?;
    w.put_all(&[(EOF, BYTE), (numbers.slot, LONG), (numbers.feed, LONG)])
}

/// Writes config strings, by index.
fn write_configs(w: &mut Writer, configs: &Configs) -> Result<(), Overflow>
    ensures { Writes w.old w.new (numbered places 0 (λ index. config_bits w.old.words index
        (string_at configs.now index))) result }
{
    laws::texts_are_written();
    // what stands there fits the room
    prove!(w.length() > 0);
    for index in 0..STRINGS {
        write_config(w, index, configs.get(index))?;
    }
    Ok(())
}

/// Writes a config string, unless it is empty: the operation, the index, and the string.
fn write_config(w: &mut Writer, index: u32, text: &[u8]) -> Result<(), Overflow>
    ensures { Writes w.old w.new (config_bits w.old.words index text.now) result }
{
    laws::texts_are_written();
    if text.is_empty() {
        // what stands there fits the room
        prove!(w.length() > 0);
        return Ok(());
    }
    w.put_all(&[(CONFIG_STRING, BYTE), (index, SHORT)])?;
    write_string(w, text)
}

/// Writes baselines, by number.
fn write_baselines(w: &mut Writer, table: &Table, baselines: &Baselines) -> Result<(), Overflow>
    ensures { Writes w.old w.new (numbered most_baselines 0
        (λ number. baseline_bits w.old.words table.now (set_at baselines.now number))) result }
{
    laws::texts_are_written();
    // what stands there fits the room
    prove!(w.length() > 0);
    for number in 0..MOST_BASELINES {
        write_baseline(w, table, baselines, number)?;
    }
    Ok(())
}

/// Writes the baseline of a number, if it is set: the operation, and the state by force, against the zero state.
fn write_baseline(
    w: &mut Writer,
    table: &Table,
    baselines: &Baselines,
    number: u16,
) -> Result<(), Overflow>
    ensures { Writes w.old w.new (baseline_bits w.old.words table.now (set_at baselines.now number)) result }
{
    laws::texts_are_written();
    let Some(state) = baselines.get(number) else {
        // what stands there fits the room
        prove!(w.length() > 0);
        return Ok(());
    };
    w.put_all(&[(BASELINE, BYTE)])?;
    write_entity(w, table, &EntityState::zero(state.number), state, true)
}
