//! A list of commands whose places are kept and reused.

ghost use Rattle.std.specs.Prelude.{◌≡◌, [], ◌∷◌, ◌++◌, ◌<◌, ◌≤◌, ◌↔◌, length, IsTrue, IfOk};
ghost use Rattle.std.specs.Borrow.{sem};
ghost use Rattle.q3_text.specs.Places.{most_commands};

use crate::text::{Command, Text};
use std::alloc::{AllocError as NoMemory, Global};
use std::marker::Model;

/// The most commands of a list: as many as a message carries.
const MOST_COMMANDS: usize = 64;

/// At most 64 commands. To a caller it is their list. The places lie on the heap: `new` takes their memory, and no later
/// call takes any. A place is written over when it is used again.
#[derive(Drop)]
pub struct Commands {
    places: Vec<Command>,
    count: usize,
}

impl Model for Commands {
    ghost use Rattle.std.specs.Prelude.{List, take};
    ghost use Rattle.q3_text.specs.declared.text.Command.{Command};
    ghost use Rattle.q3_text.specs.Places.{HasPlaces};

    ghost Value = { List Command };

    ghost view = { λ commands. take commands.count commands.places.items };

    ghost invariant = { λ commands. HasPlaces commands.places.items commands.count };
}

impl Commands {
    ghost use Rattle.q3_text.specs.Lending.{LendsNext};

    /// No commands. `Err` is want of memory.
    pub fn new(alloc: Global) -> Result<Commands, NoMemory>
        ensures { IfOk result (λ commands. commands ≡ []) }
    {
        let mut places = Vec::with_capacity(alloc, MOST_COMMANDS)?;
        for _ in 0..MOST_COMMANDS {
            places.push(Command {
                number: 0,
                text: Text::new(),
            })?;
        }
        Ok(Commands { places, count: 0 })
    }

    /// Has none from now on; what stands in the places stays there until they are used again.
    pub fn clear(&mut self)
        ensures { self.new ≡ [] }
    {
        self.count = 0;
    }

    /// How many there are.
    pub fn len(&self) -> usize
        ensures count { result ≡ length self.now }
        ensures few { length self.now ≤ most_commands }
    {
        self.count
    }

    /// Whether no further one has a place.
    pub fn is_full(&self) -> bool
        ensures full { IsTrue result ↔ (length self.now ≡ most_commands) }
        ensures few { length self.now ≤ most_commands }
    {
        self.count == MOST_COMMANDS
    }

    /// The commands, by the order in which they were put.
    pub fn as_slice(&self) -> &[Command]
        ensures commands { result.now ≡ self.now }
        ensures few { length self.now ≤ most_commands }
    {
        &self.places[..self.count]
    }

    /// The place of one more, which still holds what stood there before: what is left in it is the last command.
    pub fn next(&mut self) -> &mut Command
        requires room { length self.old < most_commands }
        ensures* writes_back { sem 𝓛 (LendsNext self.entry result) }
    {
        let place = self.count;
        self.count += 1;
        &mut self.places[place]
    }

    /// Puts a command after all others. As many bytes are copied as its text has.
    pub fn push_copy(&mut self, command: &Command)
        requires room { length self.old < most_commands }
        ensures { self.new ≡ self.old ++ command.now ∷ [] }
    {
        self.next().copy_from(command);
    }
}
