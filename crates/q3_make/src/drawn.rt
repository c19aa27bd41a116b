//! The drawn lines of a generated script, one after the other.

ghost use Rattle.std.specs.Prelude.{◌≡◌, ℕ, ◌∷◌, ◌+◌, ◌<◌, ◌≤◌, ◌++◌, IfOk};
ghost use Rattle.q3_script.specs.Grammar.{IsReplayEvent};
ghost use Rattle.q3_make.specs.Generated.{generator_of, opening, rest_of, generated};
ghost use Rattle.q3_make.specs.Generated as spec;

use crate::draw::{drawn_line, made_by};
use q3_bits::NoMemory;
use q3_script::Event;
use q3_text::laws::text_laws;
use rand_core::SeedableRng;
use rand_pcg::Lcg64Xsh32;
use std::alloc::Global;
use std::marker::Model;

/// How many datagrams the opening lines make.
const FIRST_DATAGRAMS: u32 = 16;

/// The drawn lines of a generated script, one after the other: the generator, how many lines were drawn, and how many
/// datagrams all lines so far make.
#[derive(Drop)]
pub struct Drawn {
    generator: Lcg64Xsh32,
    drawn: u32,
    made: u32,
}

impl Model for Drawn {
    ghost use Rattle.std.specs.Prelude.{◌+◌, ◌≤◌};
    ghost use Rattle.q3_make.specs.Generated.{DrawnState};

    ghost Value = { DrawnState };

    ghost view = { λ d. record { drawn = d.drawn; made = d.made; generator = d.generator } };

    ghost invariant = { λ d. (d.drawn ≤ 65000) × (1 ≤ d.made) × (d.made ≤ 16 + d.drawn) };
}

impl Drawn {
    /// After the opening lines of the script that a seed makes: no line was drawn.
    pub fn new(seed: u64) -> Drawn
        ensures value { result ≡ record { drawn = 0; made = 16; generator = generator_of seed } }
        ensures rest { (number : ℕ) → opening ++ rest_of number result ≡ generated number seed }
    {
        Drawn {
            generator: start(seed),
            drawn: 0,
            made: FIRST_DATAGRAMS,
        }
    }

    /// Draws the next line. `Err` is want of memory; what is drawn after it is no line of the script.
    pub fn next(&mut self, alloc: Global) -> Result<Event, NoMemory>
        requires few { self.old.drawn < 65000 }
        ensures line { IfOk result (λ event. (event, self.new.generator) ≡ spec.drawn_line
            (self.old.drawn + 1) self.old.made self.old.generator) }
        ensures drawn { IfOk result (λ event. self.new.drawn ≡ self.old.drawn + 1) }
        ensures made { IfOk result (λ event. self.new.made ≡ self.old.made + spec.made_by event) }
        ensures rest { IfOk result (λ event. (left : ℕ) → rest_of
            (left + 1) self.old ≡ event ∷ rest_of left self.new) }
        ensures of_replay { IfOk result IsReplayEvent }
    {
        text_laws();
        let event = drawn_line(alloc, self.drawn + 1, self.made, &mut self.generator)?;
        self.drawn += 1;
        self.made += made_by(&event);
        Ok(event)
    }

    /// How many datagrams all lines so far make.
    pub fn made(&self) -> u32
        ensures value { result ≡ self.now.made }
        ensures few { result ≤ 65016 }
    {
        self.made
    }
}

/// The generator of a seed.
#[tactic(auto, unfolding(crate::specs::Generated::generator_of))]
fn start(seed: u64) -> Lcg64Xsh32
    ensures { result ≡ generator_of seed }
{
    Lcg64Xsh32::seed_from_u64(seed)
}
