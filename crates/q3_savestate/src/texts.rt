//! Config strings and the text that is pending as bytes.

ghost use Rattle.std.specs.Prelude.{◌≡◌, ◌≤◌, ℕ, suc, [], length, replicate, slice_index_or, None, Err, IfOk, MatchResult};
ghost use Rattle.q3_io.specs.Faults.{HasCause};
ghost use Rattle.q3_io.specs.Written.{Adds};
ghost use Rattle.q3_config.specs.Strings.{AreStrings, places, longest_string};
ghost use Rattle.q3_savestate.specs.Cursor.{found_in};
ghost use Rattle.q3_savestate.specs.Texts.{set_strings, string_bytes, strings_bytes, strings_after, strings_at, pending_bytes, pending_at};
ghost use Rattle.q3_savestate.specs.Texts as spec;

use crate::cursor::Cursor;
use crate::writing::{write_byte, write_long, write_short};
use q3_config::Configs;
use q3_config::laws::sizes_add_up;
use q3_io::{Failed, Sink, laws};

/// How many config strings there are.
const STRINGS: u16 = q3_config::STRINGS as u16;

/// The longest of them.
const LONGEST: u16 = q3_config::LONGEST_STRING as u16;

/// The greatest size of all.
const MOST_SIZE: u32 = q3_config::MOST_SIZE as u32;

/// Writes the config strings that aren't empty.
pub(crate) fn write_strings<O: Sink>(configs: &Configs, out: &mut O) -> Result<(), Failed>
    ensures adds { Adds (O.written out.old) (O.written out.new) (strings_bytes configs.now.texts) result }
    ensures cause { HasCause (O.faults out.old) (O.faults out.new) result }
{
    laws::texts_follow();
    write_short(count_set(configs), out)?;
    for index in 0..STRINGS {
        let text = configs.get(u32::from(index));
        if !text.is_empty() {
            write_string(index, text, out)?;
        }
    }
    Ok(())
}

/// How many config strings aren't empty.
fn count_set(configs: &Configs) -> u16
    ensures { result ≡ length (set_strings 0 configs.now.texts) }
{
    let mut count = 0;
    for index in 0..STRINGS {
        if !configs.get(u32::from(index)).is_empty() {
            count += 1;
        }
    }
    count
}

/// Writes a config string.
fn write_string<O: Sink>(index: u16, text: &[u8], out: &mut O) -> Result<(), Failed>
    requires { length text.now ≤ longest_string }
    ensures adds { Adds (O.written out.old) (O.written out.new) (string_bytes (index, text.now)) result }
    ensures cause { HasCause (O.faults out.old) (O.faults out.new) result }
{
    laws::texts_follow();
    write_short(index, out)?;
    write_short(text.len() as u16, out)?;
    out.write_all(text)
}

/// Reads config strings beside none.
#[tactic(auto, unfolding(crate::specs::Texts::strings_at))]
pub(crate) fn read_strings(cursor: &mut Cursor, configs: &mut Configs) -> Result<(), usize>
    requires { configs.old.texts ≡ replicate places [] }
    ensures found { found_in result configs.new.texts cursor.new ≡ strings_at cursor.old }
    ensures pending { configs.new.pending ≡ configs.old.pending }
{
    let count = cursor.short(0, STRINGS)?;
    let mut least = 0;
    for _ in 0..count {
        least = read_string(cursor, least, configs)?;
    }
    Ok(())
}

/// Reads a config string, whose index is at least this one, and answers the least index after it. From there on all strings are empty.
#[tactic(auto, unfolding(crate::specs::Texts::strings_after))]
fn read_string(cursor: &mut Cursor, least: u16, configs: &mut Configs) -> Result<u16, usize>
    requires { (index : ℕ) → least ≤ index → slice_index_or configs.old.texts index [] ≡ [] }
    ensures step { (count : ℕ) → MatchResult result (λ next. strings_after
        (suc count) least configs.old.texts cursor.old ≡ strings_after count next configs.new.texts cursor.new)
        (λ at. strings_after (suc count) least configs.old.texts cursor.old ≡ Err at) }
    ensures empty { IfOk result (λ next. (index : ℕ) → next ≤ index
        → slice_index_or configs.new.texts index [] ≡ []) }
    ensures pending { configs.new.pending ≡ configs.old.pending }
{
    sizes_add_up();
    let index = cursor.short(least, STRINGS - 1)?;
    let length = cursor.short(1, room_in(configs))?;
    let text = cursor.text(usize::from(length))?;
    configs.set(u32::from(index), text).unwrap();
    Ok(index + 1)
}

/// How long one more string may be.
fn room_in(configs: &Configs) -> u16
    ensures room { result ≡ spec.room_in configs.now.texts }
    ensures strings { AreStrings configs.now }
{
    let room = MOST_SIZE.saturating_sub(configs.size() + 1);
    room.min(u32::from(LONGEST)) as u16
}

/// Writes the text that is pending, if one is.
pub(crate) fn write_pending<O: Sink>(configs: &Configs, out: &mut O) -> Result<(), Failed>
    ensures adds { Adds (O.written out.old) (O.written out.new) (pending_bytes configs.now.pending) result }
    ensures cause { HasCause (O.faults out.old) (O.faults out.new) result }
{
    laws::texts_follow();
    let Some((index, text)) = configs.pending() else {
        return write_byte(0, out);
    };
    write_byte(1, out)?;
    write_long(index, out)?;
    write_short(text.len() as u16, out)?;
    out.write_all(text)
}

/// Reads the text that is pending, if one is.
#[tactic(auto, unfolding(crate::specs::Texts::pending_at))]
pub(crate) fn read_pending(cursor: &mut Cursor, configs: &mut Configs) -> Result<(), usize>
    requires { configs.old.pending ≡ None }
    ensures found { found_in result configs.new.pending cursor.new ≡ pending_at cursor.old }
    ensures texts { configs.new.texts ≡ configs.old.texts }
{
    if cursor.byte(0, 1)? == 0 {
        return Ok(());
    }
    let index = cursor.long(0, u32::from(STRINGS) - 1)?;
    let length = cursor.short(0, LONGEST)?;
    let text = cursor.text(usize::from(length))?;
    configs.set_pending(index, text);
    Ok(())
}
