//! A player in an event.

ghost use Rattle.std.specs.Prelude.{◌≡◌, ◌≢◌, ◌≤◌, All, IfOk};
ghost use Rattle.std.proofs.Common.{rules};
ghost use Rattle.std.specs.Cmp.Rules.{comparing};
ghost use Rattle.q3_fields.specs.Places.{AreRising};
ghost use Rattle.q3_words.specs.Fields.{values_of};
ghost use Rattle.q3_words.specs.Kept as spec;

use crate::sparse::{Places, count_words, patterns, push_words, put};
use q3_bits::NoMemory;
use q3_player::PlayerState;
use q3_player::laws::{arrays_are_kept, is_state};
use q3_player::state::shorts;
use std::alloc::Global;
use std::marker::Model;

/// A player in as much memory as it has words and values that aren't 0: eight bytes for each, and none where there
/// are none. To a caller it is the player.
#[derive(Debug, Drop)]
pub struct KeptPlayer {
    words: Places,
}

impl Model for KeptPlayer {
    ghost use Rattle.std.specs.Prelude.{◌≢◌, All};
    ghost use Rattle.q3_fields.specs.Places.{AreRising};
    ghost use Rattle.q3_player.specs.declared.state.PlayerState.{PlayerState};
    ghost use Rattle.q3_words.specs.Fields.{values_of};
    ghost use Rattle.q3_words.specs.Kept as spec;

    ghost Value = { PlayerState };

    ghost view = { λ kept. spec.player_of_words (values_of 128 kept.words.items) };

    ghost invariant = { λ kept. AreRising 128 0 kept.words.items × All (λ change. change.1 ≢ 0) kept.words.items };
}

impl PartialEq for KeptPlayer {
    ghost use Rattle.std.specs.Prelude.{◌==◌};
    ghost use Rattle.std.specs.Cmp.Lexicographic.{pointwise};
    ghost use Rattle.std.specs.Ordering.{on, int_eq, eq_of_both};

    ghost eq = { eq_of_both (eq_of_both (eq_of_both (eq_of_both (on (λ p. p.words) (pointwise ◌==◌))
        (on (λ p. p.stats) (pointwise int_eq))) (on (λ p. p.persistant) (pointwise int_eq)))
        (on (λ p. p.ammo) (pointwise int_eq))) (on (λ p. p.powerups) (pointwise ◌==◌)) };

    ghost laws = { Prim.search (comparing, rules) };

    fn eq(&self, other: &KeptPlayer) -> bool {
        self.player() == other.player()
    }
}

impl Eq for KeptPlayer {
    ghost laws = { Prim.search (comparing, rules) };
}

/// The words and values of a player that aren't 0, each after its place. `Err` is want of memory.
fn places(alloc: Global, player: &PlayerState) -> Result<Places, NoMemory>
    ensures player { IfOk result (λ kept. spec.player_of_words (values_of 128 kept.items) ≡ player.now) }
    ensures kept { IfOk result (λ kept. AreRising 128 0 kept.items × All (λ change. change.1 ≢ 0) kept.items) }
{
    is_state(player);
    arrays_are_kept();
    let stats = patterns(&player.stats);
    let persistant = patterns(&player.persistant);
    let ammo = patterns(&player.ammo);
    let count = count_words(&player.words)
        + count_words(&stats)
        + count_words(&persistant)
        + count_words(&ammo)
        + count_words(&player.powerups);
    let mut words = Vec::with_capacity(alloc, count)?;
    push_words(&mut words, 0, &player.words)?;
    push_words(&mut words, 64, &stats)?;
    push_words(&mut words, 80, &persistant)?;
    push_words(&mut words, 96, &ammo)?;
    push_words(&mut words, 112, &player.powerups)?;
    Ok(words)
}

/// The player of 128 words: those of its fields, and after them those of its arrays.
fn player_of_words(words: &[u32; 128]) -> PlayerState
    ensures { result ≡ spec.player_of_words words.now }
{
    let mut fields = [0; 64];
    fields.copy_from_slice(&words[..64]);
    let mut powerups = [0; 16];
    powerups.copy_from_slice(&words[112..]);
    PlayerState {
        words: fields,
        stats: shorts(&words[64..80]),
        persistant: shorts(&words[80..96]),
        ammo: shorts(&words[96..112]),
        powerups,
    }
}

impl KeptPlayer {
    /// Keeps a player. `Err` is want of memory.
    pub fn of(alloc: Global, player: &PlayerState) -> Result<KeptPlayer, NoMemory>
        ensures { IfOk result (λ kept. kept ≡ player.now) }
    {
        Ok(KeptPlayer {
            words: places(alloc, player)?,
        })
    }

    /// The player.
    pub fn player(&self) -> PlayerState
        ensures { result ≡ self.now }
    {
        let mut words = [0; 128];
        put(&self.words, &mut words);
        player_of_words(&words)
    }
}
