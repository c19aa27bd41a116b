//! The states from which new entities are written. Keeps the rule "baselines", the engine's `svEntity_t.baseline` and
//! `clientActive_t.entityBaselines`.

ghost use Rattle.std.specs.Prelude.{◌≡◌, ◌<◌, ◌≤◌, length, vec_capacity, IfOk};
ghost use Rattle.std.specs.Option.{option_copied};
ghost use Rattle.q3_entity.specs.Baselines.{most_baselines, no_baselines, set_at, baseline_of, with_baseline, set_baselines};
ghost use Rattle.q3_entity.specs.KeptBaselines.{unplaced, baselines_in, AreKept};

use crate::state::EntityState;
use q3_bits::NoMemory;
use q3_fields::MOST_END;
use std::alloc::Global;
use std::marker::Model;

/// How many numbers may have a baseline: those below the end mark of the widest table.
pub const MOST_BASELINES: u16 = MOST_END;

/// The place of a number whose baseline isn't set: no state stands there.
const NOWHERE: u16 = u16::MAX;

/// A state for some of the numbers below `MOST_BASELINES`. It has memory of its own, which `new` takes and no other call does: two bytes
/// for each number, and room for as many states, which is written as far as states are set.
#[derive(Drop)]
pub struct Baselines {
    /// At which place the state of each number stands, or `NOWHERE`.
    places: Vec<u16>,
    /// The states that are set, in the order in which their numbers came.
    states: Vec<EntityState>,
}

impl Model for Baselines {
    ghost use Rattle.std.specs.Prelude.{◌≤◌, vec_capacity};
    ghost use Rattle.q3_entity.specs.Baselines.{Baselines, most_baselines};

    ghost Value = { Baselines };

    ghost use Rattle.q3_entity.specs.KeptBaselines.{baselines_in, AreKept};

    ghost view = { λ b. baselines_in b.places.items b.states.items };

    ghost invariant = { λ b. AreKept b.places.items b.states.items × (most_baselines ≤ vec_capacity b.states) };
}

impl Baselines {
    /// No baseline is set. `Err` is want of memory.
    pub fn new(alloc: Global) -> Result<Baselines, NoMemory>
        ensures { IfOk result (λ made. made ≡ no_baselines) }
    {
        let places = no_places(alloc, usize::from(MOST_BASELINES))?;
        let states = Vec::with_capacity(alloc, usize::from(MOST_BASELINES))?;
        Ok(Baselines { places, states })
    }

    /// Sets the baseline of the state's number, or replaces it. The caller hands in a state in normal form.
    pub fn set(&mut self, state: &EntityState)
        requires { state.now.number < most_baselines }
        ensures { self.new ≡ with_baseline self.old state.now }
    {
        put(&mut self.places, &mut self.states, state);
    }

    /// The baseline of a number, if it was set since `new` or the last `clear`.
    pub fn get(&self, number: u16) -> Option<&EntityState>
        ensures set { option_copied result ≡ set_at self.now number }
        ensures places { length self.now ≡ most_baselines }
    {
        let place = *self.places.get(usize::from(number))?;
        self.states.get(usize::from(place))
    }

    /// The baseline of a number: the zero state where none was set.
    pub fn state(&self, number: u16) -> EntityState
        ensures { result ≡ baseline_of self.now number }
    {
        match self.get(number) {
            Some(state) => *state,
            None => EntityState::zero(number),
        }
    }

    /// How many numbers have a baseline that was set since `new` or the last `clear`.
    pub fn count(&self) -> u16
        ensures { result ≡ length (set_baselines self.now) }
    {
        self.states.len() as u16
    }

    /// Takes all baselines away. It takes as long as there are baselines that are set.
    pub fn clear(&mut self)
        ensures { self.new ≡ no_baselines }
    {
        forget(&mut self.places, &self.states);
        self.states.clear();
    }
}

/// So many numbers without a state. `Err` is want of memory.
#[tactic(auto, unfolding(crate::specs::KeptBaselines::unplaced))]
fn no_places(alloc: Global, count: usize) -> Result<Vec<u16>, NoMemory>
    ensures { IfOk result (λ places. places.items ≡ unplaced count) }
{
    vec![in alloc; NOWHERE; count]
}

/// Puts a state over that of its number, or after all others.
fn put(places: &mut Vec<u16>, states: &mut Vec<EntityState>, state: &EntityState)
    requires number { state.now.number < most_baselines }
    requires kept { AreKept places.old.items states.old.items }
    requires room { most_baselines ≤ vec_capacity states.old }
    ensures baselines { baselines_in places.new.items states.new.items ≡ with_baseline
        (baselines_in places.old.items states.old.items) state.now }
    ensures kept { AreKept places.new.items states.new.items }
    ensures room { most_baselines ≤ vec_capacity states.new }
{
    let number = usize::from(state.number);
    let place = places[number];
    if place != NOWHERE {
        states[usize::from(place)] = *state;
        return;
    }
    places[number] = states.len() as u16;
    states.push(*state).unwrap();
}

/// Takes the places of these states' numbers away.
fn forget(places: &mut Vec<u16>, states: &[EntityState])
    requires { AreKept places.old.items states.now }
    ensures { places.new.items ≡ unplaced most_baselines }
{
    for state in states {
        places[usize::from(state.number)] = NOWHERE;
    }
}
