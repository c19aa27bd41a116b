//! The snapshots and baselines that a snapshot is read against.

ghost use Rattle.std.specs.Prelude.{◌≡◌, option_map, IfSome};
ghost use Rattle.q3_player.specs.State.{zero_player};
ghost use Rattle.q3_entity.specs.Entities.{Rises, run_of};
ghost use Rattle.q3_svmsg.specs.Values.{Context, base_viewed, base_player, base_entities};

use q3_entity::{Baselines, Run};
use q3_player::PlayerState;

/// A snapshot that another is written against, where it lies.
#[derive(Clone, Copy)]
pub struct BaseView<'a> {
    pub player: &'a PlayerState,
    pub entities: Run<'a>,
}

/// Lends the snapshots that are held, by number, and the baselines.
pub trait Bases {
    /// What is held.
    ghost context: { Self → Context };

    /// The snapshot of a number, if it is held. Its entities rise by number, and there are at most 256.
    fn base(&self, number: u32) -> Option<BaseView<'_>>
        ensures held { option_map base_viewed result ≡ (context self.now).base number }
        ensures rises { IfSome result (λ base. Rises (run_of base.entities)) };

    /// The baselines.
    fn baselines(&self) -> &Baselines
        ensures { result.now ≡ (context self.now).baselines };
}

/// A base, or the zero player and no entities where there is none.
pub(crate) fn base_or<'a>(against: Option<BaseView<'a>>, zero: &'a PlayerState) -> BaseView<'a>
    requires { zero.now ≡ zero_player }
    ensures player { result.player.now ≡ base_player (option_map base_viewed against.entry) }
    ensures entities { run_of result.entities ≡ base_entities (option_map base_viewed against.entry) }
{
    match against {
        Some(base) => base,
        None => BaseView {
            player: zero,
            entities: Run {
                head: &[],
                tail: &[],
            },
        },
    }
}
