//! Prints a player as scripts and reports spell it.

ghost use Rattle.q3_io.specs.Faults.{HasCause};
ghost use Rattle.q3_io.specs.Written.{Adds};
ghost use Rattle.q3_player.specs.Report.{player_text};

use crate::state::{PlayerState, patterns};
use q3_io::{Failed, Sink, print_indexed};

/// Prints the words that aren't 0, each with a space before it: of the fields `I:W`, and of the arrays `sI:W`, `pI:W`,
/// `aI:W` and `uI:W`, signed values as words of 32 bits. The spelling is this project's own.
/// `Failed` comes only where the sink's count rose.
#[tactic(auto, unfolding(crate::specs::Report::player_text))]
pub fn print_words<O: Sink>(player: &PlayerState, out: &mut O) -> Result<(), Failed>
    ensures adds { Adds (O.written out.old) (O.written out.new) (player_text player.now) result }
    ensures cause { HasCause (O.faults out.old) (O.faults out.new) result }
{
    q3_io::laws::texts_follow();
    print_indexed(b"", &player.words, out)?;
    print_indexed(b"s", &patterns(&player.stats), out)?;
    print_indexed(b"p", &patterns(&player.persistant), out)?;
    print_indexed(b"a", &patterns(&player.ammo), out)?;
    print_indexed(b"u", &player.powerups, out)
}
