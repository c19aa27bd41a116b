//! What the game hands in for all clients: its map with the map's baselines and config strings, the time, and the entities.
//! Keeps the rules "new map" and "baselines", the engine's `SV_SpawnServer` (sv_init.c). That the ids of maps rise, that
//! the time stays, and that baselines don't change once a gamestate was begun is this project's own.

ghost use Rattle.std.specs.Prelude.{◌≡◌, ◌==◌, ◌^◌, ◌<◌, ◌≤◌, ◌+◌, ◌++◌, not, length, take, None, IfOk};
ghost use Rattle.arrayvec.specs.ArrayVec.{array_vec_len};
ghost use Rattle.q3_config.specs.Strings.{admit_fault, no_strings, with_string};
ghost use Rattle.q3_fields.specs.Kinds.{Layout, end_mark};
ghost use Rattle.q3_entity.specs.Entities.{IsList, RiseFrom, Rises, most_entities};
ghost use Rattle.q3_map.specs.Map.{no_map, id_text, new_map_at, set_baseline_at, with_config, begins_game, set_time_at, set_entity_at, remove_entity_at};
ghost use Rattle.q3_map.specs.Map as spec;

use crate::entities::{drop_entity, front, put_entity};
use arrayvec::ArrayVec;
use itoa::Buffer;
use q3_bits::NoMemory;
use q3_config::{Configs, SYSTEM_INFO};
use q3_entity::{Baselines, EntityState};
use q3_fields::{MOST_END, Table};
use std::alloc::Global;
use std::marker::Model;

/// For how many bytes there is room in the text that tells a map's id.
const MOST_BYTES: usize = 32;

/// A map's id isn't above the last one's, which this carries, 0 where there was none.
#[derive(Clone, Copy, Debug, PartialEq, Eq)]
pub struct NotLater {
    pub last: u32,
}

/// A gamestate of the map was begun, so that its baselines stay.
#[derive(Clone, Copy, Debug, PartialEq, Eq)]
pub struct Late;

/// The map's id, 0 before the first, its checksum feed, the bit that changes with each map, whether a gamestate of it was
/// begun, its baselines and its config strings; the time; and the entities by rising number, with room for all of them. After
/// `new` no call takes memory.
#[derive(Drop)]
pub struct Map {
    id: u32,
    feed: u32,
    count: bool,
    begun: bool,
    baselines: Baselines,
    configs: Configs,
    time: u32,
    entities: Vec<EntityState>,
}

impl Model for Map {
    ghost use Rattle.std.specs.Prelude.{◌≤◌};
    ghost use Rattle.std.specs.Vec.{vec_capacity};
    ghost use Rattle.q3_entity.specs.Entities.{RiseFrom};
    ghost use Rattle.q3_fields.specs.Kinds.{most_end};
    ghost use Rattle.q3_map.specs.Map.{MapState};

    ghost Value = { MapState };

    ghost view = { λ m. record {
      id = m.id;
      feed = m.feed;
      count = m.count;
      begun = m.begun;
      baselines = m.baselines;
      strings = m.configs;
      time = m.time;
      entities = m.entities.items;
    } };

    ghost invariant = { λ m. RiseFrom most_end 0 m.entities.items × (most_end ≤ vec_capacity m.entities) };
}

impl Map {
    /// Before the first map: no entity, at the time 0. `Err` is want of memory.
    pub fn new(alloc: Global) -> Result<Map, NoMemory>
        ensures { IfOk result (λ map. map ≡ no_map) }
    {
        Ok(Map {
            id: 0,
            feed: 0,
            count: false,
            begun: false,
            baselines: Baselines::new(alloc)?,
            configs: Configs::new(alloc)?,
            time: 0,
            entities: Vec::with_capacity(alloc, usize::from(MOST_END))?,
        })
    }

    /// The map's id, 0 before the first map.
    pub fn id(&self) -> u32
        ensures { result ≡ self.now.id }
    {
        self.id
    }

    /// The map's checksum feed, 0 before the first map.
    pub fn feed(&self) -> u32
        ensures { result ≡ self.now.feed }
    {
        self.feed
    }

    /// The bit that changes with each map, false before the first.
    pub fn count(&self) -> bool
        ensures { result ≡ self.now.count }
    {
        self.count
    }

    /// Whether there is a map.
    pub fn has_map(&self) -> bool
        ensures { result ≡ not (self.now.id == 0) }
    {
        self.id != 0
    }

    /// Whether an id is another than the map's. Before the first map each is.
    pub fn is_other(&self, id: u32) -> bool
        ensures { result ≡ spec.is_other self.now id }
    {
        self.id == 0 || id != self.id
    }

    /// A new map begins, with a checksum feed. Its entities, baselines and config strings are none, but for the config string
    /// that tells its id; the time stays. `NotLater` comes exactly where the id isn't above the last one, 0 where there was none,
    /// and nothing changes then.
    pub fn new_map(&mut self, id: u32, feed: u32) -> Result<(), NotLater>
        requires { id < 2 ^ 31 }
        ensures { new_map_at self.old id feed ≡ record { map = self.new; answer = result } }
    {
        if id <= self.id {
            return Err(NotLater { last: self.id });
        }
        self.id = id;
        self.feed = feed;
        self.count = !self.count;
        self.begun = false;
        self.baselines.clear();
        tell_id(&mut self.configs, id);
        self.entities.clear();
        Ok(())
    }

    /// Takes over the baseline of an entity, whose number is below the table's end mark, in the normal form of the table. `Late`
    /// comes exactly where a gamestate of the map was begun, and nothing changes then.
    pub fn set_baseline(&mut self, table: &Table, state: &EntityState) -> Result<(), Late>
        requires { state.now.number < end_mark table.now }
        ensures { set_baseline_at table.now self.old state.now ≡ record { map = self.new; answer = result } }
    {
        if self.begun {
            return Err(Late);
        }
        let mut baseline = *state;
        baseline.normalize(table);
        // each number below the end mark may have a baseline
        prove!(table.end() <= MOST_END);
        self.baselines.set(&baseline);
        Ok(())
    }

    /// Lends the map's baselines.
    pub fn baselines(&self) -> &Baselines
        ensures { result.now ≡ self.now.baselines }
    {
        &self.baselines
    }

    /// Lends the map's config strings.
    pub fn configs(&self) -> &Configs
        ensures { result.now ≡ self.now.strings }
    {
        &self.configs
    }

    /// Sets a config string to a text that `Configs::admit` doesn't refuse.
    pub fn set_config(&mut self, index: u32, text: &[u8])
        requires { admit_fault self.old.strings index text.now ≡ None }
        ensures { self.new ≡ with_config self.old index text.now }
    {
        set_admitted(&mut self.configs, index, text);
    }

    /// A gamestate of the map is begun.
    pub fn begin_game(&mut self)
        ensures { self.new ≡ begins_game self.old }
    {
        self.begun = true;
    }

    /// The time, in milliseconds.
    pub fn time(&self) -> u32
        ensures { result ≡ self.now.time }
    {
        self.time
    }

    /// Takes over the time, in milliseconds.
    pub fn set_time(&mut self, time: u32)
        ensures { self.new ≡ set_time_at self.old time }
    {
        self.time = time;
    }

    /// Takes over the state of an entity, whose number is below the table's end mark, in the normal form of the table.
    pub fn set_entity(&mut self, table: &Table, state: &EntityState)
        requires { state.now.number < end_mark table.now }
        ensures { self.new ≡ set_entity_at table.now self.old state.now }
    {
        let mut state = *state;
        state.normalize(table);
        // there is room for each number below the end mark
        prove!(table.end() <= MOST_END);
        put_entity(&mut self.entities, state);
    }

    /// Takes an entity away. An absent one changes nothing.
    pub fn remove_entity(&mut self, number: u16)
        ensures { self.new ≡ remove_entity_at self.old number }
    {
        drop_entity(&mut self.entities, number);
    }

    /// Lends the entities of the lowest numbers, at most 256.
    pub fn lowest(&self) -> &[EntityState]
        ensures front { result.now ≡ take most_entities self.now.entities }
        ensures rises { Rises result.now }
        ensures listed { (table : Layout) → RiseFrom (end_mark table) 0 self.now.entities → IsList table result.now }
    {
        front(&self.entities)
    }
}

/// Takes all config strings away and sets the one that tells a map's id.
fn tell_id(configs: &mut Configs, id: u32)
    ensures { configs.new ≡ with_string no_strings 1 (id_text id) }
{
    let mut number = Buffer::new();
    let mut text = ArrayVec::new();
    extend(&mut text, b"\\sv_serverid\\");
    extend(&mut text, number.format(id).as_bytes());
    configs.clear();
    let _ = configs.set(SYSTEM_INFO, &text);
}

/// Sets a config string to a text that may go out as commands.
fn set_admitted(configs: &mut Configs, index: u32, text: &[u8])
    requires { admit_fault configs.old index text.now ≡ None }
    ensures { configs.new ≡ with_string configs.old index text.now }
{
    let _ = configs.set(index, text);
}

/// Puts a text after bytes.
fn extend(bytes: &mut ArrayVec<u8, MOST_BYTES>, text: &[u8])
    requires { array_vec_len bytes.old + length text.now ≤ 32 }
    ensures items { bytes.new.items ≡ bytes.old.items ++ text.now }
    ensures length { array_vec_len bytes.new ≡ array_vec_len bytes.old + length text.now }
{
    let _ = bytes.try_extend_from_slice(text);
}
