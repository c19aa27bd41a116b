//! The config strings, and the id of the map that they tell.
//! - Rules: "config commands at the client", "info strings and the server id".
//! - Engine: `CL_GetServerCommand` and `CL_ConfigstringModified` (cl_cgame.c) with `CL_SystemInfoChanged` (cl_parse.c).
//! - Ours: that the id is kept where string 1 has none.

ghost use Rattle.std.specs.Prelude.{◌≡◌, IfOk};
ghost use Rattle.q3_config.specs.Strings.{no_strings};
ghost use Rattle.q3_config.specs.Changes.{after_command};
ghost use Rattle.q3_clstate.specs.State.{id_in, settled, after_texts};
ghost use Rattle.q3_clstate.specs.State as spec;

use q3_bits::NoMemory;
use q3_config::{Configs, SYSTEM_INFO, shape};
use q3_svmsg::ServerMessage;
use q3_text::{Command, Text};
use std::alloc::Global;
use std::marker::Model;
use std::mem::swap;

/// What gamestates and commands told of the map.
#[derive(Drop)]
pub(crate) struct MapSettings {
    /// The config strings of the last gamestate, with the changes that commands made.
    configs: Configs,
    /// The id of the server's map, 0 before one was told.
    id: u32,
}

impl Model for MapSettings {
    ghost use Rattle.q3_clstate.specs.State.{Settings};

    ghost Value = { Settings };

    ghost view = { λ s. record { strings = s.configs; id = s.id } };
}

impl MapSettings {
    /// No string is set. `Err` is want of memory.
    pub fn new(alloc: Global) -> Result<MapSettings, NoMemory>
        ensures { IfOk result (λ settings. settings ≡ record { strings = no_strings; id = 0 }) }
    {
        Ok(MapSettings {
            configs: Configs::new(alloc)?,
            id: 0,
        })
    }

    /// These config strings, and this id.
    pub fn of(configs: Configs, id: u32) -> MapSettings
        ensures { result ≡ record { strings = configs; id = id } }
    {
        MapSettings { configs, id }
    }

    /// Executes commands of the server, one after the other.
    pub fn execute(&mut self, commands: &[Command])
        ensures { self.new ≡ after_texts self.old commands.now }
    {
        for command in commands {
            self.run(&command.text);
        }
    }

    /// A gamestate was read: its strings take the place of the others, and it tells the id.
    pub fn start(&mut self, message: &mut ServerMessage)
        ensures settings { self.new ≡ record {
          strings = message.old.configs;
          id = id_in self.old.id message.old.configs;
        } }
        ensures baselines { message.new.baselines ≡ message.old.baselines }
    {
        swap(&mut self.configs, &mut message.configs);
        self.note_id();
    }

    /// The config strings.
    pub fn configs(&self) -> &Configs
        ensures { result.now ≡ self.now.strings }
    {
        &self.configs
    }

    /// The id of the map, 0 before one was told.
    pub fn id(&self) -> u32
        ensures { result ≡ self.now.id }
    {
        self.id
    }

    /// Executes a command: a change of string 1 may tell another id.
    fn run(&mut self, text: &Text)
        ensures { self.new ≡ settled self.old.id (spec.tells_id text.now) (after_command self.old.strings text.now) }
    {
        if self.configs.apply_command(text) && tells_id(text) {
            self.note_id();
        }
    }

    /// Takes the id that the strings tell, if they do.
    fn note_id(&mut self)
        ensures { self.new ≡ record { strings = self.old.strings; id = id_in self.old.id self.old.strings } }
    {
        if let Some(id) = self.configs.server_id() {
            self.id = id;
        }
    }
}

/// Whether a command's text has the shape of a change of string 1.
fn tells_id(text: &Text) -> bool
    ensures { result ≡ spec.tells_id text.now }
{
    match shape(text) {
        Some(index) => index == SYSTEM_INFO,
        None => false,
    }
}
