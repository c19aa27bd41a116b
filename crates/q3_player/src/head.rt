//! The head of a snapshot. Keeps the rule "snapshot section", the engine's `clSnapshot_t`.

ghost use Rattle.std.specs.Prelude.{◌≡◌};

use crate::state::PlayerState;
use arrayvec::ArrayVec;

/// How many area bytes a snapshot has at most, the engine's `MAX_MAP_AREA_BYTES` (q_shared.h).
pub const MOST_AREA: usize = 32;

/// What a snapshot says besides its entities.
#[derive(Debug, PartialEq, Eq, Drop)]
pub struct SnapHead {
    /// The number of the message that carries it; 0 where there is none.
    pub number: u32,
    /// The server's time in milliseconds.
    pub time: u32,
    /// 1 for a delayed rate, 2 for a client that isn't active, 4 for the server's count.
    pub flags: u8,
    /// A bit for each area of the map: 0 where the client sees into it.
    pub area: ArrayVec<u8, MOST_AREA>,
    pub player: PlayerState,
}

impl SnapHead {
    ghost use Rattle.q3_player.specs.Heads.{empty_head};

    /// A head with nothing in it.
    #[tactic(auto, unfolding(crate::specs::Heads::empty_head))]
    pub fn new() -> SnapHead
        ensures { result ≡ empty_head }
    {
        SnapHead {
            number: 0,
            time: 0,
            flags: 0,
            area: ArrayVec::new(),
            player: PlayerState::zero(),
        }
    }
}
