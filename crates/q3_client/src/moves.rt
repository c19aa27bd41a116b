//! The moves that a client issued, and which of them a message carries.
//! - Rules: "which moves may be issued", "which moves a message carries".
//! - Engine: `CL_WritePacket` (cl_input.c).

ghost use Rattle.std.specs.Prelude.{◌≡◌, ◌≤◌, length, true};
ghost use Rattle.q3_clmsg.specs.Moves.{IsMove};
ghost use Rattle.q3_client.specs.Moves.{most_moves, carried};
ghost use Rattle.q3_client.specs.Moves as spec;

use arrayvec::ArrayVec;
use circular_buffer::HeapCircularBuffer;
use q3_clmsg::laws::is_held_move;
use q3_clmsg::{MOST_MOVES, Move};

/// A move that was issued.
#[derive(Clone, Copy, Debug, PartialEq, Eq)]
pub(crate) struct Issued {
    /// How many messages were begun before it.
    pub begun: u32,
    pub one: Move,
}

/// Whether a move may be issued: none of forward, right and up is -128, and its time is below 2^31.
pub(crate) fn is_issuable(one: &Move) -> bool
    ensures is { result ≡ spec.is_issuable one.now }
    ensures fits { result ≡ true → IsMove one.now }
{
    if one.forward == -128 || one.right == -128 || one.up == -128 || one.time >= 1 << 31 {
        return false;
    }
    is_held_move(one);
    true
}

impl Issued {
    /// Whether the message of a number carries the move, where each message repeats the moves of `dup` messages before it.
    fn is_carried(&self, number: u32, dup: u8) -> bool
        ensures { result ≡ spec.is_carried number dup self.now }
    {
        u64::from(number) <= u64::from(self.begun) + u64::from(dup) + 1
    }
}

/// Copies the moves that the message of a number carries, the oldest first.
pub(crate) fn carry(
    moves: &HeapCircularBuffer<Issued>,
    number: u32,
    dup: u8,
    into: &mut ArrayVec<Move, MOST_MOVES>,
)
    requires { moves.now.capacity ≡ most_moves }
    ensures carried { into.new.items ≡ carried number dup moves.now.items }
    ensures few { length into.new.items ≤ most_moves }
{
    // they fit the room, since a ring holds no more than it has room for
    prove!(moves.len() <= MOST_MOVES);
    into.clear();
    for issued in moves.iter() {
        if issued.is_carried(number, dup) {
            into.push(issued.one);
        }
    }
}
