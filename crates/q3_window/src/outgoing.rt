//! The commands that an end issued. Keeps the rules "reliable command windows" and "when a command may be issued", the
//! engine's `SV_AddServerCommand` and `SV_UpdateServerCommandsToClient` (sv_main.c, sv_snapshot.c) and
//! `CL_AddReliableCommand` (cl_main.c). The limits and the refusals are this project's own.

ghost use Rattle.std.specs.Prelude.{◌≡◌, ℕ, ◌+◌, ◌-◌, ◌%◌, ◌^◌, ◌<◌, ◌≤◌, ◌⊎◌, length, nat_le, slice_set, IfOk};
ghost use Rattle.q3_text.specs.Texts.{IsText};
ghost use Rattle.q3_text.specs.Commands.{commands_of};
ghost use Rattle.q3_window.specs.Outgoing.{most_waiting, most_text, last_number, IsOutgoing, new_outgoing, issued_of, issue_at, text_at, acknowledge_at, carried, total_of};
ghost use Rattle.q3_window.specs.Outgoing as spec;
ghost use Rattle.q3_window.specs.Cells.{blank, places, texts_from};

use q3_text::{Command, CommandRun, Text};
use std::alloc::{AllocError as NoMemory, Global};
use std::marker::Model;

/// For how many commands there is room: those that wait, and the last that was acknowledged.
const PLACES: u32 = 64;

/// How many commands may wait for their acknowledgement.
const MOST_WAITING: u64 = 63;

/// How many bytes their texts may have together.
const MOST_TEXT: u64 = 10_000;

/// The greatest number of a command.
const LAST_NUMBER: u64 = (1 << 31) - 1;

/// A command doesn't fit into the window.
#[derive(Clone, Copy, Debug, PartialEq, Eq)]
pub struct WindowFull;

/// An acknowledgement of a command that was never issued, or below the last one.
#[derive(Clone, Copy, Debug, PartialEq, Eq)]
pub struct BadAck;

/// The commands that an end issued, numbered from 1: those that wait for their acknowledgement, and the last that was
/// acknowledged. It has memory of its own, which `new` takes and no other call does.
#[derive(Drop)]
pub struct Outgoing {
    /// Each command stands in the place of its number modulo 64.
    cells: Vec<Command>,
    /// The text of the number 0.
    empty: Text,
    acknowledged: u32,
    issued: u32,
    /// How many bytes the texts have that wait.
    bytes: u32,
}

impl Model for Outgoing {
    ghost use Rattle.q3_window.specs.Outgoing.{OutgoingState};
    ghost use Rattle.q3_window.specs.Cells.{window_in, IsKept};

    ghost Value = { OutgoingState };

    ghost view = { window_in };

    ghost invariant = { IsKept };
}

impl Outgoing {
    /// None was issued. `Err` is want of memory.
    pub fn new(alloc: Global) -> Result<Outgoing, NoMemory>
        ensures { IfOk result (λ window. window ≡ new_outgoing) }
    {
        let mut cells = Vec::with_capacity(alloc, PLACES as usize)?;
        for _ in 0..PLACES {
            cells.push(no_command())?;
        }
        Ok(Outgoing {
            cells,
            empty: Text::new(),
            acknowledged: 0,
            issued: 0,
            bytes: 0,
        })
    }

    /// Issues a command, whose number is the answer. `Err` where it doesn't fit, and then nothing changes.
    pub fn issue(&mut self, text: &Text) -> Result<u32, WindowFull>
        ensures { issue_at self.old text.now ≡ record { window = self.new; answer = result } }
    {
        let bytes = text.bytes().len() as u32;
        if !self.fits(1, bytes) {
            return Err(WindowFull);
        }
        let number = self.issued + 1;
        put(&mut self.cells, number, text);
        self.issued = number;
        self.bytes += bytes;
        Ok(number)
    }

    /// All commands up to a number are acknowledged. `Err` for a number below the last acknowledged one or above the last
    /// issued one, and then nothing changes.
    pub fn acknowledge(&mut self, number: u32) -> Result<(), BadAck>
        ensures { acknowledge_at self.old number ≡ record { window = self.new; answer = result } }
    {
        if number < self.acknowledged || self.issued < number {
            return Err(BadAck);
        }
        let passed = bytes_of(
            &self.cells,
            self.acknowledged + 1,
            number - self.acknowledged,
        );
        self.bytes -= passed;
        self.acknowledged = number;
        Ok(())
    }

    /// The text of the last acknowledged command, of one issued since, or of the number 0, which is empty.
    pub fn text(&self, number: u32) -> &Text
        requires { (number ≡ 0) ⊎ ((self.now.acknowledged ≤ number) × (number ≤ issued_of self.now)) }
        ensures { result.now ≡ text_at self.now number }
    {
        if number == 0 {
            return &self.empty;
        }
        &self.cells[(number % PLACES) as usize].text
    }

    /// Whether so many more commands may be issued, whose texts have so many bytes together.
    pub fn fits(&self, count: u32, bytes: u32) -> bool
        ensures { result ≡ spec.fits self.now count bytes }
    {
        self.has_places(count) && self.has_bytes(bytes) && self.has_numbers(count)
    }

    fn has_places(&self, count: u32) -> bool
        ensures { result ≡ nat_le (length self.now.waiting + count) most_waiting }
    {
        u64::from(self.issued() - self.acknowledged()) + u64::from(count) <= MOST_WAITING
    }

    fn has_bytes(&self, bytes: u32) -> bool
        ensures { result ≡ nat_le (total_of self.now.waiting + bytes) most_text }
    {
        u64::from(self.bytes) + u64::from(bytes) <= MOST_TEXT
    }

    fn has_numbers(&self, count: u32) -> bool
        ensures { result ≡ nat_le (issued_of self.now + count) last_number }
    {
        u64::from(self.issued()) + u64::from(count) <= LAST_NUMBER
    }

    /// The number of the last command that was issued, 0 for none.
    pub fn issued(&self) -> u32
        ensures issued { result ≡ issued_of self.now }
        ensures is_outgoing { IsOutgoing self.now }
    {
        self.issued
    }

    /// The number of the last command that was acknowledged, 0 for none.
    pub fn acknowledged(&self) -> u32
        ensures { result ≡ self.now.acknowledged }
    {
        self.acknowledged
    }

    /// Lends the commands that wait for their acknowledgement, by rising number. `head` goes to the last place at most, and
    /// `tail` on from the first.
    pub fn waiting(&self) -> CommandRun<'_>
        ensures waiting { commands_of result ≡ carried self.now }
        ensures is_outgoing { IsOutgoing self.now }
    {
        let count = (self.issued - self.acknowledged) as usize;
        let start = ((self.acknowledged + 1) % PLACES) as usize;
        let after = self.cells.len() - start;
        if count <= after {
            return CommandRun {
                head: &self.cells[start..][..count],
                tail: &[],
            };
        }
        CommandRun {
            head: &self.cells[start..],
            tail: &self.cells[..count - after],
        }
    }
}

fn no_command() -> Command
    ensures { result ≡ blank }
{
    Command {
        number: 0,
        text: Text::new(),
    }
}

/// Puts a command into the place of its number.
fn put(cells: &mut Vec<Command>, number: u32, text: &Text)
    requires { length cells.old.items ≡ places }
    ensures { cells.new.items ≡ slice_set cells.old.items (number % places)
        (record { number = number; text = text.now }) }
{
    set_command(&mut cells[(number % PLACES) as usize], number, text);
}

fn set_command(command: &mut Command, number: u32, text: &Text)
    ensures { command.new ≡ record { number = number; text = text.now } }
{
    command.number = number;
    command.text.copy_from(text);
}

/// How many bytes the texts of so many commands have, from a number on.
fn bytes_of(cells: &Vec<Command>, first: u32, count: u32) -> u32
    requires places { length cells.now.items ≡ places }
    requires some { 0 < first }
    requires few { count ≤ 64 }
    requires last { first + count ≤ 2 ^ 31 }
    ensures { result ≡ total_of (texts_from cells.now.items first count) }
{
    let mut bytes = 0;
    for passed in 0..count {
        bytes += size_of(&cells[((first + passed) % PLACES) as usize]);
    }
    bytes
}

fn size_of(command: &Command) -> u32
    ensures size { result ≡ length command.now.text }
    ensures short { result ≤ 1023 }
{
    command.text.bytes().len() as u32
}
