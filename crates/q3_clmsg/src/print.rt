//! Prints a move, as scripts and reports spell it. The spelling is this project's own.

ghost use Rattle.std.specs.Prelude.{◌≡◌, [], ◌∷◌, ◌++◌, map, codes, decimal, unsigned_abs};
ghost use Rattle.std.specs.Fmt.{signed_decimal};
ghost use Rattle.q3_io.specs.Faults.{HasCause};
ghost use Rattle.q3_io.specs.Written.{Adds};
ghost use Rattle.q3_clmsg.specs.Report.{move_words, spaced};

use crate::moves::Move;
use q3_io::{Failed, Piece, Sink, laws, print_all};

/// Prints the words of a move, each after a space: its time, its angles, how fast it goes forward, right and up, its buttons and
/// its weapon. `Failed` comes where the sink failed, after a front of them.
pub fn print_move<O: Sink>(one: Move, out: &mut O) -> Result<(), Failed>
    ensures adds { Adds (O.written out.old) (O.written out.new) (spaced (move_words one)) result }
    ensures cause { HasCause (O.faults out.old) (O.faults out.new) result }
{
    laws::texts_follow();
    print_view(one, out)?;
    print_steps(one, out)?;
    print_hands(one, out)
}

/// Prints the time and the angles.
fn print_view<O: Sink>(one: Move, out: &mut O) -> Result<(), Failed>
    ensures adds { Adds (O.written out.old) (O.written out.new)
        (spaced (decimal one.time ∷ map decimal one.angles)) result }
    ensures cause { HasCause (O.faults out.old) (O.faults out.new) result }
{
    print_all(
        &[
            Piece::Text(b" "),
            Piece::Number(u64::from(one.time)),
            Piece::Text(b" "),
            Piece::Number(u64::from(one.angles[0])),
            Piece::Text(b" "),
            Piece::Number(u64::from(one.angles[1])),
            Piece::Text(b" "),
            Piece::Number(u64::from(one.angles[2])),
        ],
        out,
    )
}

/// Prints how fast a player moves.
fn print_steps<O: Sink>(one: Move, out: &mut O) -> Result<(), Failed>
    ensures adds { Adds (O.written out.old) (O.written out.new)
        (spaced (signed_decimal one.forward ∷ signed_decimal one.right ∷ signed_decimal one.up ∷ [])) result }
    ensures cause { HasCause (O.faults out.old) (O.faults out.new) result }
{
    print_all(
        &[
            Piece::Text(sign(one.forward)),
            Piece::Number(u64::from(one.forward.unsigned_abs())),
            Piece::Text(sign(one.right)),
            Piece::Number(u64::from(one.right.unsigned_abs())),
            Piece::Text(sign(one.up)),
            Piece::Number(u64::from(one.up.unsigned_abs())),
        ],
        out,
    )
}

/// What stands in front of a signed number's digits: a space, and its sign.
fn sign(step: i8) -> &'static [u8]
    ensures { result.now ++ decimal (unsigned_abs step) ≡ codes " " ++ signed_decimal step }
{
    if step < 0 { b" -" } else { b" " }
}

/// Prints the buttons and the weapon.
fn print_hands<O: Sink>(one: Move, out: &mut O) -> Result<(), Failed>
    ensures adds { Adds (O.written out.old) (O.written out.new)
        (spaced (decimal one.buttons ∷ decimal one.weapon ∷ [])) result }
    ensures cause { HasCause (O.faults out.old) (O.faults out.new) result }
{
    print_all(
        &[
            Piece::Text(b" "),
            Piece::Number(u64::from(one.buttons)),
            Piece::Text(b" "),
            Piece::Number(u64::from(one.weapon)),
        ],
        out,
    )
}
