//! Config strings as an end keeps them: the rules "config strings and their size", "config changes as commands" and
//! "config commands at the client". The strings are the engine's `gameState_t` (q_shared.h); `set` is
//! `SV_SetConfigstring` (sv_init.c), and `apply_command` is `CL_GetServerCommand` with `CL_ConfigstringModified`
//! (cl_cgame.c).

ghost use Rattle.std.specs.Prelude.{◌≡◌, ◌<◌, ◌≤◌, ◌==◌, not, if◌then◌else◌, length, map, find, option_map, All, Some, IsTrue, IfOk, OnOk};
ghost use Rattle.q3_config.specs.Strings.{AreStrings, places, longest_string, no_strings, string_at, has_string, config_size, is_config_byte, set_fault, admit_fault, refused, after_set};
ghost use Rattle.q3_config.specs.Strings as spec;
ghost use Rattle.q3_config.specs.Commands as commands_spec;
ghost use Rattle.q3_config.specs.Changes.{unchanged, go_on, after_change, after_command};
ghost use Rattle.q3_config.specs.Changes as changes_spec;
ghost use Rattle.q3_config.specs.Parts.{meant, finished};

use crate::error::ConfigError;
use crate::limits::{LONGEST_STRING, STRINGS, SYSTEM_INFO};
use crate::pending::Pending;
use crate::shapes::{Change, Word, change_of};
use crate::table::Table;
use q3_bits::NoMemory;
use q3_text::{Text, decimal, info_value};
use std::alloc::Global;
use std::marker::Model;

/// 1,024 strings, each of at most 8,191 bytes and together of a size of at most 16,000, and the big text that is
/// pending, if one is. It has memory of its own, which `new` takes and no other call does. Bytes are kept as texts have
/// them: those above 127 and `%` as `.`.
#[derive(Drop)]
pub struct Configs {
    table: Table,
    pending: Pending,
}

impl Model for Configs {
    ghost use Rattle.q3_config.specs.Strings.{Strings, AreStrings};
    ghost use Rattle.q3_config.specs.Parts.{strings_with};

    ghost Value = { Strings };

    ghost view = { λ c. strings_with c.pending c.table };

    ghost invariant = { λ c. AreStrings (strings_with c.pending c.table) };
}

impl Configs {
    /// No string is set, and nothing is pending. `Err` is want of memory.
    pub fn new(alloc: Global) -> Result<Configs, NoMemory>
        ensures { IfOk result (λ made. made ≡ no_strings) }
    {
        Ok(Configs {
            table: Table::new(alloc)?,
            pending: Pending::new(alloc)?,
        })
    }

    /// The string at an index: empty where none is set, and past 1,023.
    pub fn get(&self, index: u32) -> &[u8]
        ensures string { result.now ≡ string_at self.now index }
        ensures strings { AreStrings self.now }
    {
        self.table.string(index)
    }

    /// Whether the string at an index is this text already, as it is kept: each byte translated.
    pub fn has(&self, index: u32, text: &[u8]) -> bool
        ensures has { result ≡ has_string self.now index text.now }
        ensures strings { AreStrings self.now }
    {
        self.table.has(index, text)
    }

    /// One, and for each string that isn't empty its bytes and one more.
    pub fn size(&self) -> u32
        ensures size { result ≡ config_size self.now.texts }
        ensures strings { AreStrings self.now }
    {
        self.table.size() as u32
    }

    /// The id of the server's map: the number from 0 to 2^31 - 1 under `sv_serverid` in string 1. `None` exactly where
    /// there is no such key there or no such number.
    #[tactic(auto, unfolding(crate::specs::Strings::server_id))]
    pub fn server_id(&self) -> Option<u32>
        ensures { result ≡ spec.server_id self.now }
    {
        decimal(info_value(self.get(SYSTEM_INFO), b"sv_serverid")?)
    }

    /// Takes all strings away, and the text that is pending.
    pub fn clear(&mut self)
        ensures { self.new ≡ no_strings }
    {
        self.table.clear();
        self.pending.end();
    }

    /// Sets the string at an index to a text of any bytes. `Err`, which leaves all as it was, is the first of: an index
    /// above 1,023; more than 8,191 bytes; a size above 16,000. It leaves the text that is pending.
    pub fn set(&mut self, index: u32, text: &[u8]) -> Result<(), ConfigError>
        ensures answer { result ≡ refused (set_fault self.old index text.now) }
        ensures strings { self.new ≡ after_set self.old index text.now (set_fault self.old index text.now) }
    {
        self.table.set(index, text)
    }

    /// This text, of at most 8,191 bytes, is pending for an index below 1,024, and no other. It is kept as it is.
    pub fn set_pending(&mut self, index: u32, text: &[u8])
        requires index { index < places }
        requires short { length text.now ≤ longest_string }
        ensures { self.new ≡ record self.old { pending = Some (record { index = index; text = text.now }) } }
    {
        self.pending.begin(index, text);
    }

    /// Whether a change may go out as commands. `Err` is the first of: an index above 1,023; a byte that a command can't
    /// carry; more than 8,191 bytes; a size above 16,000. The engine has none of these tests but the first, for which it
    /// stops: they are this project's own.
    #[tactic(auto, unfolding(crate::specs::Strings::admit_fault))]
    pub fn admit(&self, index: u32, text: &[u8]) -> Result<(), ConfigError>
        ensures answer { result ≡ refused (admit_fault self.now index text.now) }
        ensures index { OnOk result (index < places) }
        ensures chars { OnOk result (All (λ byte. IsTrue (is_config_byte byte)) text.now) }
    {
        if index >= STRINGS {
            return Err(ConfigError::Index);
        }
        if let Some(byte) = first_refused(text) {
            return Err(ConfigError::Chars(byte));
        }
        self.table.check_room(index as usize, text)
    }

    /// Executes a command of the server, and says whether a string changed. One of another shape changes nothing; nor
    /// does a change to the text that is there, a change that would be too long or too large, and a piece of which the
    /// beginning didn't come.
    #[tactic(auto, unfolding(crate::specs::Changes::after_command))]
    pub fn apply_command(&mut self, text: &Text) -> bool
        ensures { after_command self.old text.now ≡ record { strings = self.new; changed = result } }
    {
        let Some(change) = change_of(text.bytes()) else {
            return false;
        };
        self.apply(&change)
    }

    /// The big text of which pieces came, and the index that it is for. `None` exactly where nothing is pending.
    pub fn pending(&self) -> Option<(u32, &[u8])>
        ensures pending { option_map (λ pending. record { index = pending.0; text = pending.1.now }) result
            ≡ self.now.pending }
        ensures strings { AreStrings self.now }
    {
        self.pending.get()
    }

    /// Makes a change, or takes a piece of one.
    fn apply(&mut self, change: &Change) -> bool
        requires index { change.now.index < places }
        requires short { length change.now.text.now ≤ longest_string }
        ensures { after_change self.old (meant change.now.word) change.now.index change.now.text.now
            ≡ record { strings = self.new; changed = result } }
    {
        match change.word {
            Word::Whole => self.make_change(change.index, change.text),
            Word::First => {
                self.pending.begin(change.index, change.text);
                false
            }
            Word::Middle => {
                self.grow(change.index, change.text);
                false
            }
            Word::Last => self.grow(change.index, change.text) && self.finish(),
        }
    }

    /// Changes a string, or ends the pending text where it can't be.
    fn make_change(&mut self, index: u32, text: &[u8]) -> bool
        ensures { changes_spec.make_change self.old index text.now ≡ record { strings = self.new; changed = result } }
    {
        match self.table.change(index, text) {
            Some(changed) => changed,
            None => {
                self.pending.end();
                false
            }
        }
    }

    /// Puts a piece after the pending text of its index, which ends where it would get too long, and says whether it did.
    fn grow(&mut self, index: u32, text: &[u8]) -> bool
        ensures { (word : commands_spec.Word) → go_on self.old word index text.now self.old.pending
            ≡ (if result then finished self.new word self.new.pending else unchanged self.new) }
    {
        let Some((other, before)) = self.pending.get() else {
            return false;
        };
        if other != index {
            return false;
        }
        if before.len() + text.len() > LONGEST_STRING {
            self.pending.end();
            return false;
        }
        self.pending.push(text);
        true
    }

    /// Changes a string to the text that was pending.
    fn finish(&mut self) -> bool
        ensures { finished self.old commands_spec.Last self.old.pending ≡ record { strings = self.new; changed = result } }
    {
        let Some((index, text)) = self.pending.get() else {
            return false;
        };
        let changed = self.table.change(index, text);
        self.pending.end();
        changed.unwrap_or(false)
    }
}

/// The first byte that a config command can't carry.
fn first_refused(text: &[u8]) -> Option<u8>
    ensures { result ≡ find (λ byte. not (is_config_byte byte)) text.now }
{
    text.iter().copied().find(|byte| !is_carried(*byte))
}

/// Whether a config command may carry a byte: 32 to 126, and no quote.
fn is_carried(byte: u8) -> bool
    ensures { result ≡ is_config_byte byte }
{
    matches!(byte, 32..=126) && byte != b'"'
}
