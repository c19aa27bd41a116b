//! A client's message as a value.

ghost use Rattle.std.specs.Prelude.{◌≡◌, IfOk};

use crate::moves::{MOST_MOVES, Move};
use arrayvec::ArrayVec;
use q3_bits::NoMemory;
use q3_text::{CommandRun, Commands};
use std::alloc::Global;

/// A message of a client, with room for 64 commands and 32 moves.
// The commands lie on the heap: `new` takes their memory, and no later call takes any.
#[derive(Drop)]
pub struct ClientMessage {
    /// The id of the server's map that the client plays, 0 before it knows one.
    pub id: u32,
    /// The number of the newest server message that came whole.
    pub acknowledged: u32,
    /// The number of the last server command that the client executed.
    pub command: u32,
    pub commands: Commands,
    /// Whether the server may write snapshots against the one of the newest message. It is false without moves.
    pub delta: bool,
    pub moves: ArrayVec<Move, MOST_MOVES>,
}

/// A message whose parts are lent by those who keep them. Each part is as in `ClientMessage`.
#[derive(Clone, Copy)]
pub struct SaidParts<'a> {
    pub id: u32,
    pub acknowledged: u32,
    pub command: u32,
    pub commands: CommandRun<'a>,
    pub delta: bool,
    pub moves: &'a [Move],
}

impl ClientMessage {
    ghost use Rattle.q3_clmsg.specs.Values.{said_of, empty_message};

    /// A message with nothing in it. `Err` is want of memory.
    pub fn new(alloc: Global) -> Result<ClientMessage, NoMemory>
        ensures { IfOk result (λ made. said_of made ≡ empty_message) }
    {
        Ok(ClientMessage {
            id: 0,
            acknowledged: 0,
            command: 0,
            commands: Commands::new(alloc)?,
            delta: false,
            moves: ArrayVec::new(),
        })
    }
}
