//! Laws of players and of their delta, each the contract of a call that does nothing but cite the laws below it.

ghost use Rattle.q3_player.specs.Laws.{NormalIsNormal, WrittenIsSpelled, ReadIsSpelled, SpelledIsRead, WrittenIsRead, ZeroIsNormal, PlayersEndAlike, ArraysAreKept};
ghost use Rattle.q3_player.specs.State.{IsState, AreShorts};

use crate::state::PlayerState;
use q3_fields::laws::are_words;

/// What the types of its fields tell of a player: it is a state.
pub fn is_state(player: &PlayerState)
    ensures { IsState player.now }
{
    are_words(&player.words);
    are_shorts(player.stats);
    are_shorts(player.persistant);
    are_shorts(player.ammo);
    are_words(&player.powerups);
}

/// The same of an array of signed values. The prover learns their ranges from an array that is passed by value alone.
fn are_shorts(values: [i16; 16])
    ensures { AreShorts values }
{}

/// The normal form of a state is a state, in normal form.
pub fn normal_is_normal()
    ensures { NormalIsNormal }
{
    q3_fields::laws::normal_words_are_normal();
}

/// What is written against a normal state spells the normal form of the other.
pub fn written_is_spelled()
    ensures { WrittenIsSpelled }
{
    q3_fields::laws::words_are_spelled();
    q3_fields::laws::player_field_is_spelled();
}

/// What is read was spelled so, and is a state, in normal form where the other is.
pub fn read_is_spelled()
    ensures { ReadIsSpelled }
{
    q3_bits::laws::read_was_put();
    q3_fields::laws::words_read_are_spelled();
    q3_fields::laws::player_read_is_spelled();
}

/// What is spelled so is read, with whatever follows it.
pub fn spelled_is_read()
    ensures { SpelledIsRead }
{
    q3_bits::laws::put_is_read();
    q3_fields::laws::words_spelled_are_read();
    q3_fields::laws::player_spelled_is_read();
}

/// What is written against a normal state is read back as the normal form of the other, with whatever follows it.
pub fn written_is_read()
    ensures { WrittenIsRead }
{
    normal_is_normal();
    written_is_spelled();
    spelled_is_read();
}

/// The state with nothing in it is a state, in the normal form of every table.
pub fn zero_is_normal()
    ensures { ZeroIsNormal }
{}

/// What is read over another state ends at the same place, or is refused in the same way.
pub fn players_end_alike()
    ensures { PlayersEndAlike }
{
    q3_fields::laws::words_end_alike();
}

/// An array of signed values is kept by words of 32 bits, and one of words by what changed of another.
pub fn arrays_are_kept()
    ensures { ArraysAreKept }
{}
