//! A server's message as a value.

ghost use Rattle.std.specs.Prelude.{◌≡◌, [], IfOk};

use arrayvec::ArrayVec;
use q3_bits::NoMemory;
use q3_config::Configs;
use q3_entity::{Baselines, List, Run};
use q3_gamestate::{BigString, Numbers};
use q3_player::SnapHead;
use q3_text::{CommandRun, Commands};
use std::alloc::Global;

/// What a message carries after its commands.
#[derive(Clone, Copy, Debug, PartialEq, Eq)]
pub enum Section {
    Nothing,
    /// A gamestate.
    Game,
    /// A snapshot, with the number of its base, 0 for none. Where the base isn't held, the snapshot was only read to
    /// its end.
    Snap { base: u32, held: bool },
}

/// A message of the server, with room for 64 commands, one gamestate and one snapshot.
// The lists and the string lie on the heap: `new` takes their memory, and no later call takes any.
#[derive(Drop)]
pub struct ServerMessage {
    /// The number of the last client command that the server executed.
    pub ack: u32,
    pub commands: Commands,
    pub section: Section,
    /// The gamestate's config strings, where the section is a gamestate; and so for all up to the checksum feed.
    pub configs: Configs,
    pub baselines: Baselines,
    /// The number of the last server command issued.
    pub command: u32,
    /// The client's slot.
    pub slot: u32,
    /// The checksum feed of the map.
    pub feed: u32,
    /// The snapshot's head and player, where the section is a snapshot.
    pub head: SnapHead,
    /// The snapshot's entities, by rising number.
    pub entities: Box<List>,
    pub(crate) string: Box<BigString>,
}

/// A message with a snapshot, its parts lent by those who keep them: the number of the last client command executed, the
/// commands, the number of the base, 0 for none, the head, and the entities by rising number, as a ring lends them.
#[derive(Clone, Copy)]
pub struct SnapParts<'a> {
    pub ack: u32,
    pub commands: CommandRun<'a>,
    pub base: u32,
    pub head: &'a SnapHead,
    pub entities: Run<'a>,
}

/// A message with a gamestate, its parts lent by those who keep them: the number of the last client command executed, the
/// commands, the gamestate's numbers, the config strings, and the baselines.
#[derive(Clone, Copy)]
pub struct GameParts<'a> {
    pub ack: u32,
    pub commands: CommandRun<'a>,
    pub numbers: Numbers,
    pub configs: &'a Configs,
    pub baselines: &'a Baselines,
}

impl ServerMessage {
    ghost use Rattle.q3_player.specs.Heads.{empty_head};
    ghost use Rattle.q3_gamestate.specs.Values.{empty_gamestate};
    ghost use Rattle.q3_svmsg.specs.Values.{told_of, game_of, empty_message};

    /// A message with nothing in it. `Err` is want of memory.
    pub fn new(alloc: Global) -> Result<ServerMessage, NoMemory>
        ensures told { IfOk result (λ made. told_of made ≡ empty_message) }
        ensures game { IfOk result (λ made. game_of made ≡ empty_gamestate) }
        ensures head { IfOk result (λ made. made.head ≡ empty_head) }
        ensures entities { IfOk result (λ made. made.entities.value.items ≡ []) }
    {
        Ok(ServerMessage {
            ack: 0,
            commands: Commands::new(alloc)?,
            section: Section::Nothing,
            configs: Configs::new(alloc)?,
            baselines: Baselines::new(alloc)?,
            command: 0,
            slot: 0,
            feed: 0,
            head: SnapHead::new(),
            entities: Box::new(alloc, List::new())?,
            string: Box::new(alloc, ArrayVec::new())?,
        })
    }
}
