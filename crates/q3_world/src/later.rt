//! Which datagrams the lines name that a replay hasn't done yet.

ghost use Rattle.std.specs.Prelude.{◌≡◌, ◌<◌, ◌^◌, ℕ, List, drop, length, set, true, false, IfOk};
ghost use Rattle.std.specs.Option.{option_map_or};
ghost use Rattle.q3_script.specs.declared.event.Event.{Event as EventValue};
ghost use Rattle.q3_world.specs.Forgetting.{named_by, TellsLast, AreSilentOf};

use q3_bits::NoMemory;
use q3_script::Event;
use std::alloc::Global;
use std::marker::Model;

/// For each datagram that a script may make, the count of its lines up to the last one that names it, 0 where none does.
#[derive(Drop)]
pub struct Later {
    last: Vec<u32>,
}

impl Model for Later {
    ghost use Rattle.std.specs.Prelude.{ℕ, List};

    ghost Value = { List ℕ };

    ghost view = { λ l. l.last.items };
}

impl Later {
    /// What the lines of a script name; each of them makes one datagram at most. `Err` is want of memory.
    pub fn of(alloc: Global, events: &[Event]) -> Result<Later, NoMemory>
        requires few { length events.now < 2 ^ 32 }
        ensures { IfOk result (λ later. TellsLast later events.now) }
    {
        let mut last = vec![in alloc; 0; events.len()]?;
        let mut done = 0;
        for event in events {
            done += 1;
            note(&mut last, event, done);
        }
        Ok(Later { last })
    }

    /// Whether no line after the first so many names the datagram at a place, as far as that is known.
    pub(crate) fn is_silent(&self, at: usize, done: usize) -> bool
        ensures silent { result ≡ true → (all : List EventValue) → TellsLast self.now all
            → AreSilentOf (drop done all) at }
        ensures named { result ≡ false → (all : List EventValue) → TellsLast self.now all → at < length all
            → AreSilentOf (drop done all) at → ⊥ }
    {
        match self.last.get(at) {
            Some(last) => *last as usize <= done,
            None => false,
        }
    }
}

/// Notes which datagram a line names, with which so many lines are done.
fn note(last: &mut [u32], event: &Event, done: u32)
    ensures { last.new ≡ option_map_or (λ (at : ℕ). set last.old at done) (named_by event.now) last.old }
{
    if let Some(at) = named(event) {
        put(last, at, done);
    }
}

/// Puts a number at a place of a list, if it has that place.
fn put(list: &mut [u32], at: usize, number: u32)
    ensures { list.new ≡ set list.old at number }
{
    if at < list.len() {
        list[at] = number;
    }
}

/// The place of the datagram that a line names, if it names one.
#[tactic(auto, unfolding(crate::specs::Forgetting::named_by))]
pub(crate) fn named(event: &Event) -> Option<usize>
    ensures { result ≡ named_by event.now }
{
    match event {
        Event::Deliver { datagram } => Some((*datagram as usize).saturating_sub(1)),
        Event::Bytes { datagram } => Some((*datagram as usize).saturating_sub(1)),
        _ => None,
    }
}
