//! Reads a gamestate. Keeps the rules "gamestate section" and "info strings and the server id", the engine's
//! `CL_ParseGamestate` (cl_parse.c). The refusals are this project's own.

ghost use Rattle.std.specs.Prelude.{◌≡◌, length};
ghost use Rattle.q3_bits.specs.Words.{IsCode};
ghost use Rattle.q3_bits.specs.Streams.{Reads, holding};
ghost use Rattle.q3_gamestate.specs.Values.{with_settings};
ghost use Rattle.q3_gamestate.specs.Reading.{config_at, baseline_at, settings_at, gamestate_at};

use crate::error::GamestateError;
use crate::numbers::Numbers;
use crate::operations::{BASELINE, CONFIG_STRING, EOF};
use arrayvec::ArrayVec;
use q3_bits::{BYTE, LONG, Reader, SHORT, laws};
use q3_config::{ConfigError, Configs, LONGEST_STRING, STRINGS};
use q3_entity::{Baselines, EntityError, EntityState, Entry, laws as entity, read_entity};
use q3_profile::Profile;
use q3_strings::{laws as strings, read_string};

/// Room for a config string that is read.
pub type BigString = ArrayVec<u8, LONGEST_STRING>;

/// Reads a gamestate after its operation: its config strings and baselines, each of which stands for an earlier one of
/// its place, are those of `configs` and `baselines` alone, and its numbers are answered. `string` is room for one string
/// at a time. After a refusal the three may hold anything.
///
/// `Err` is the first fault in reading order: `Bits` where the bits don't read; `BadOp` for an operation other than
/// config string, baseline and the end; `TextLong` where the byte after 8,191 of a string isn't 0; `Config` with
/// `Index`, before the string is read, or with `Full`, after it; `Entity` where a baseline doesn't read, with `Order`
/// for the end mark, before its state is read, and with `Removes` for a removal; `NoServerId` where the strings give
/// none, before the slot is read.
#[tactic(auto, unfolding(crate::specs::Reading::gamestate_at))]
pub fn read_gamestate(
    r: &mut Reader,
    profile: &Profile,
    configs: &mut Configs,
    baselines: &mut Baselines,
    string: &mut BigString,
) -> Result<Numbers, GamestateError>
    ensures { Reads r.old r.new (gamestate_at (record profile.now { code = r.old.words }) r.old.left)
        (with_settings configs.new baselines.new result) }
{
    configs.clear();
    baselines.clear();
    let command = r.get(LONG)?;
    read_settings(r, profile, configs, baselines, string)?;
    if configs.server_id().is_none() {
        return Err(GamestateError::NoServerId);
    }
    let slot = r.get(LONG)?;
    let feed = r.get(LONG)?;
    Ok(Numbers {
        command,
        slot,
        feed,
    })
}

/// Reads config strings and baselines, in any order, up to the end of them. Each stands for an earlier one of its place.
fn read_settings(
    r: &mut Reader,
    profile: &Profile,
    configs: &mut Configs,
    baselines: &mut Baselines,
    string: &mut BigString,
) -> Result<(), GamestateError>
    requires { IsCode r.old.words }
    ensures { Reads r.old r.new (settings_at (record profile.now { code = r.old.words })
        (length r.old.left) configs.old baselines.old r.old.left)
        (holding (configs.new, baselines.new) result) }
{
    laws::read_was_put();
    strings::turns_are_taken();
    strings::string_read_is_spelled();
    entity::entry_read_is_spelled();
    entity::zero_is_normal();
    // it is a table
    prove!(profile.entity.count() > 0);
    loop {
        match r.get(BYTE)? {
            CONFIG_STRING => read_config(r, configs, string)?,
            BASELINE => read_baseline(r, profile, baselines)?,
            EOF => return Ok(()),
            operation => return Err(GamestateError::BadOp(operation as u8)),
        }
    }
}

/// Reads a config string after its operation, and sets it. An index above 1,023 is refused before the string is read, and
/// a string with which all would be too large once it was.
#[tactic(auto, unfolding(crate::specs::Reading::config_at))]
fn read_config(
    r: &mut Reader,
    configs: &mut Configs,
    string: &mut BigString,
) -> Result<(), GamestateError>
    ensures { Reads r.old r.new (config_at r.old.words configs.old r.old.left) (holding configs.new result) }
{
    let index = r.get(SHORT)?;
    if index >= STRINGS {
        return Err(GamestateError::Config(ConfigError::Index));
    }
    read_string(r, string)?;
    configs.set(index, string)?;
    Ok(())
}

/// Reads a baseline after its operation, and sets it. The end mark is refused as its number before its state is read, and
/// a removal once it was.
#[tactic(auto, unfolding(crate::specs::Reading::baseline_at, q3_entity::specs::Entities::zero_entity))]
fn read_baseline(
    r: &mut Reader,
    profile: &Profile,
    baselines: &mut Baselines,
) -> Result<(), GamestateError>
    ensures { Reads r.old r.new (baseline_at (record profile.now { code = r.old.words }) baselines.old r.old.left)
        (holding baselines.new result) }
{
    let number = r.get(u32::from(profile.entity.bits()))? as u16;
    if number == profile.entity.end() {
        return Err(GamestateError::Entity(EntityError::Order(number)));
    }
    let zero = EntityState::zero(number);
    let mut state = zero;
    match read_entity(r, &profile.entity, &zero, &mut state)? {
        Entry::Removed => return Err(GamestateError::Entity(EntityError::Removes(number))),
        Entry::Changed => baselines.set(&state),
        Entry::Same => baselines.set(&state),
    }
    Ok(())
}
