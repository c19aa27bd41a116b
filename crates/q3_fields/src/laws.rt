//! Laws of small floats, of the normal form, of field texts and of the delta of words, each the contract of a call that does nothing but cite
//! the laws below it.

ghost use Rattle.std.specs.Prelude.{◌<◌, ◌^◌, All};
ghost use Rattle.q3_fields.specs.States.{AreWords};
ghost use Rattle.q3_fields.specs.Laws.{SmallOfPattern, PatternOfSmall, NormIsNormal, NormHasItsText, PlayerFieldIsSpelled, EntityFieldIsSpelled, PlayerReadIsSpelled, EntityReadIsSpelled, PlayerSpelledIsRead, EntitySpelledIsRead, PlayerWrittenIsRead, EntityWrittenIsRead, NormalWordsAreNormal, ZerosAreNormal, LastChangedIsLeast, WordsAreSpelled, UnchangedIsNormal, WordsReadAreSpelled, WordsSpelledAreRead, WordsEndAlike};

use q3_bits::laws;

/// Words are of 32 bits, as their type tells.
pub fn are_words<const N: usize>(words: &[u32; N])
    ensures { AreWords N words.now }
{
    words_fit(words);
}

fn words_fit(words: &[u32])
    ensures { All (λ word. word < 2 ^ 32) words.now }
{}

/// The number of a small whole number's pattern is that number.
pub fn small_of_pattern()
    ensures { SmallOfPattern }
{}

/// The pattern of the number that a word stands for is that word, but for a negative zero.
pub fn pattern_of_small()
    ensures { PatternOfSmall }
{}

/// The normal form of a word of 32 bits is one, and is its own normal form.
pub fn norm_is_normal()
    ensures { NormIsNormal }
{}

/// The text of a word is that of its normal form.
pub fn norm_has_its_text()
    ensures { NormHasItsText }
{}

/// What is written of a player's field spells its normal form.
pub fn player_field_is_spelled()
    ensures { PlayerFieldIsSpelled }
{}

/// What is written of an entity's field spells its normal form.
pub fn entity_field_is_spelled()
    ensures { EntityFieldIsSpelled }
{
    player_field_is_spelled();
}

/// What is read of a player's field was spelled so, and is a normal word.
pub fn player_read_is_spelled()
    ensures { PlayerReadIsSpelled }
{
    laws::read_was_put();
}

/// What is read of an entity's field was spelled so, and is a normal word.
pub fn entity_read_is_spelled()
    ensures { EntityReadIsSpelled }
{
    laws::read_was_put();
    player_read_is_spelled();
}

/// A player's field that is spelled so is read, with whatever follows it.
pub fn player_spelled_is_read()
    ensures { PlayerSpelledIsRead }
{
    laws::put_is_read();
}

/// An entity's field that is spelled so is read, with whatever follows it.
pub fn entity_spelled_is_read()
    ensures { EntitySpelledIsRead }
{
    laws::put_is_read();
    player_spelled_is_read();
}

/// What is written of a player's field is read back as its normal form, with whatever follows it.
pub fn player_written_is_read()
    ensures { PlayerWrittenIsRead }
{
    player_field_is_spelled();
    player_spelled_is_read();
}

/// What is written of an entity's field is read back as its normal form, with whatever follows it.
pub fn entity_written_is_read()
    ensures { EntityWrittenIsRead }
{
    entity_field_is_spelled();
    entity_spelled_is_read();
}

/// The normal form of a state's words is words, in normal form.
pub fn normal_words_are_normal()
    ensures { NormalWordsAreNormal }
{
    norm_is_normal();
}

/// Words that are all 0 are words, in the normal form of every table.
pub fn zeros_are_normal()
    ensures { ZerosAreNormal }
{}

/// The count of fields in a delta is the least number from which on all words agree.
pub fn last_changed_is_least()
    ensures { LastChangedIsLeast }
{}

/// What is written against normal words spells the normal form of the others.
pub fn words_are_spelled()
    ensures { WordsAreSpelled }
{
    player_field_is_spelled();
    entity_field_is_spelled();
}

/// Where no field changed, the normal form of the words is what was there.
pub fn unchanged_is_normal()
    ensures { UnchangedIsNormal }
{}

/// Words that are read were spelled so, and are in normal form where the others are.
pub fn words_read_are_spelled()
    ensures { WordsReadAreSpelled }
{
    laws::read_was_put();
    player_read_is_spelled();
    entity_read_is_spelled();
}

/// Words that are spelled so are read, with whatever follows them.
pub fn words_spelled_are_read()
    ensures { WordsSpelledAreRead }
{
    laws::put_is_read();
    player_spelled_is_read();
    entity_spelled_is_read();
}

/// What is read over other words, as many, ends at the same place, or is refused in the same way.
pub fn words_end_alike()
    ensures { WordsEndAlike }
{}
