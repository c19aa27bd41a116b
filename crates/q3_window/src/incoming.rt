//! The commands of the other end that were executed. Keeps the rules "reliable command windows" and "gaps in command
//! numbers", the engine's `SV_ClientCommand` (sv_client.c) and `CL_ParseCommandString` (cl_parse.c).

ghost use Rattle.std.specs.Prelude.{◌≡◌, [], ◌≤◌, length};
ghost use Rattle.q3_window.specs.Incoming.{new_incoming, take_at, take_any_at, jump_at, fresh_of, executes};
ghost use Rattle.q3_window.specs.Incoming as spec;

use q3_text::{Command, Commands, Text};
use std::marker::Model;

/// What becomes of a command that came.
#[derive(Clone, Copy, Debug, PartialEq, Eq)]
pub enum Taken {
    /// It is executed.
    Fresh,
    /// It was executed before, and is skipped.
    Known,
    /// One before it is missing, and it isn't executed.
    Gap,
}

/// The last command of the other end that was executed.
#[derive(Drop)]
pub struct Incoming {
    executed: u32,
    last: Text,
}

impl Model for Incoming {
    ghost use Rattle.q3_window.specs.Incoming.{IncomingState};

    ghost Value = { IncomingState };

    ghost view = { λ w. record { executed = w.executed; last = w.last } };
}

impl Incoming {
    /// None was executed.
    pub fn new() -> Incoming
        ensures { result ≡ new_incoming }
    {
        Incoming {
            executed: 0,
            last: Text::new(),
        }
    }

    /// The command of this number was executed last, with this text.
    pub fn at(number: u32, text: &Text) -> Incoming
        ensures { result ≡ record { executed = number; last = text.now } }
    {
        Incoming {
            executed: number,
            last: text.copy(),
        }
    }

    /// Takes a command as a server does, which executes none after a gap.
    pub fn take(&mut self, command: &Command) -> Taken
        ensures { take_at self.old command.now ≡ record { window = self.new; answer = result } }
    {
        if command.number <= self.executed {
            return Taken::Known;
        }
        if command.number - self.executed > 1 {
            return Taken::Gap;
        }
        self.run(command);
        Taken::Fresh
    }

    /// Takes a command as a client does, also across a gap: the answer is never `Gap`.
    pub fn take_any(&mut self, command: &Command) -> Taken
        ensures { take_any_at self.old command.now ≡ record { window = self.new; answer = result } }
    {
        if command.number <= self.executed {
            return Taken::Known;
        }
        self.run(command);
        Taken::Fresh
    }

    /// Another number counts as executed, as a gamestate says it. Where it is another indeed, the last text is empty.
    pub fn jump(&mut self, number: u32)
        ensures { self.new ≡ jump_at self.old number }
    {
        if number != self.executed {
            self.executed = number;
            self.last.clear();
        }
    }

    /// The number of the last command that was executed, 0 for none.
    pub fn executed(&self) -> u32
        ensures { result ≡ self.now.executed }
    {
        self.executed
    }

    /// The text of the last command that was executed. It is empty for none, and after a jump to another number.
    pub fn last(&self) -> &Text
        ensures { result.now ≡ self.now.last }
    {
        &self.last
    }

    /// The number of the first command that leaves a gap, where these come in their order.
    pub fn gap_in(&self, commands: &[Command]) -> Option<u32>
        ensures { result ≡ spec.gap_in self.now.executed commands.now }
    {
        first_gap(self.executed, commands)
    }

    /// Executes those of a message's commands that weren't, also across gaps, and puts them into `ran`.
    pub fn execute(&mut self, commands: &[Command], ran: &mut Commands)
        requires empty { ran.old ≡ [] }
        requires few { length commands.now ≤ 64 }
        ensures window { self.new ≡ executes self.old commands.now }
        ensures ran { ran.new ≡ fresh_of self.old.executed commands.now }
    {
        put_fresh(self.executed, commands, ran);
        if let Some(last) = ran.as_slice().last() {
            self.run(last);
        }
    }

    fn run(&mut self, command: &Command)
        ensures { self.new ≡ record { executed = command.now.number; last = command.now.text } }
    {
        self.executed = command.number;
        self.last.copy_from(&command.text);
    }
}

fn first_gap(executed: u32, commands: &[Command]) -> Option<u32>
    ensures { result ≡ spec.gap_in executed commands.now }
{
    let mut reached = executed;
    for command in commands {
        if command.number <= reached {
            continue;
        }
        if command.number - reached > 1 {
            return Some(command.number);
        }
        reached = command.number;
    }
    None
}

/// Puts those of commands that are to be executed after a number.
#[inline(never)]
fn put_fresh(executed: u32, commands: &[Command], ran: &mut Commands)
    requires empty { ran.old ≡ [] }
    requires few { length commands.now ≤ 64 }
    ensures { ran.new ≡ fresh_of executed commands.now }
{
    let mut last = executed;
    for command in commands {
        if command.number <= last {
            continue;
        }
        last = command.number;
        ran.push_copy(command);
    }
}
