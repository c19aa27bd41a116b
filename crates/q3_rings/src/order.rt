//! The snapshots that are held, by rising number.

ghost use Rattle.std.specs.Prelude.{◌≡◌, ◌≢◌, ◌⊎◌, ◌<◌, ◌≤◌, ℕ, [], Some, None, length, option_map};
ghost use Rattle.q3_entity.specs.Entities.{Rises, run_of};
ghost use Rattle.q3_entity_ring.specs.Places.{place_of};
ghost use Rattle.q3_rings.specs.Loans.{head_of, head_from};
ghost use Rattle.q3_rings.specs.Rings.{HeldSnapshot};
ghost use Rattle.q3_rings.specs.ByNumber.{by_number};
ghost use Rattle.q3_rings.specs.ByNumber as spec;

use crate::rings::Rings;
use crate::views::Held;
use q3_entity::Run;

/// How many snapshots are held at most.
const PLACES: u8 = q3_entity_ring::PLACES as u8;

impl Rings {
    /// How many snapshots are held.
    pub fn count(&self) -> u8
        ensures { result ≡ length (by_number self.now.held) }
    {
        let _newest = self.newest();
        let mut count = 0;
        for place in 0..PLACES {
            if self.held(place).is_some() {
                count += 1;
            }
        }
        count
    }

    /// The least number above `last` under which a snapshot is held, or the newest where that is less. `last` is below the newest.
    pub fn next_number(&self, last: u32) -> u32
        requires { last < self.now.held.newest }
        ensures above { last < result }
        ensures most { result ≤ self.now.held.newest }
        ensures held { (result ≡ self.now.held.newest) ⊎ (spec.held_under self.now.held result ≢ None) }
        ensures least { (number : ℕ) → last < number → number < result → spec.held_under self.now.held number ≡ None }
    {
        let mut next = self.newest();
        for place in 0..PLACES {
            next = nearer(self, place, last, next);
        }
        next
    }

    /// Lends the head and the age of the snapshot of a number, also where its entities are gone.
    pub fn held_under(&self, number: u32) -> Option<Held<'_>>
        ensures { option_map head_of result ≡ option_map head_from (spec.held_under self.now.held number) }
    {
        let held = self.held((number % u32::from(PLACES)) as u8)?;
        if held.head.number == number {
            Some(held)
        } else {
            None
        }
    }

    /// Lends the entities of the snapshot of a number: none where they are gone, or where none is held under it.
    pub fn entities_of(&self, number: u32) -> Run<'_>
        ensures entities { (held : HeldSnapshot) → spec.held_under self.now.held number ≡ Some held
            → run_of result ≡ held.snapshot.entities }
        ensures none { spec.held_under self.now.held number ≡ None → run_of result ≡ [] }
        ensures rises { Rises (run_of result) }
    {
        let _newest = self.newest();
        match self.view(number) {
            Some(view) => view.entities,
            None => Run::of(&[]),
        }
    }
}

/// The number of the snapshot in a place, if it is above `last` and below `next`; else `next`.
fn nearer(rings: &Rings, place: u8, last: u32, next: u32) -> u32
    requires place { place < 32 }
    requires above { last < next }
    ensures above { last < result }
    ensures most { result ≤ next }
    ensures held { (result ≡ next) ⊎ (spec.held_under rings.now.held result ≢ None) }
    ensures least { (number : ℕ) → place_of number ≡ place → last < number → number < result
        → spec.held_under rings.now.held number ≡ None }
{
    let _newest = rings.newest();
    match rings.held(place) {
        Some(held) if last < held.head.number && held.head.number < next => held.head.number,
        _ => next,
    }
}
