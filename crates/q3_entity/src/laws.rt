//! Laws of entity deltas and of lists, each the contract of a call that does nothing but cite the laws below it.

ghost use Rattle.q3_entity.specs.Laws.{NormalIsNormal, ZeroIsNormal, ListRises, NoneAreBaselines, BaselineIsAdded, EntityWrittenIsRead, RemovalIsRead, ForcedIsSpelled, EntryReadIsSpelled, EntrySpelledIsRead, ListIsSpelled, ListReadIsSpelled, ListSpelledIsRead, ListWrittenIsRead, ReadIsSkipped, SkippedIsSpelled, SpelledIsSkipped};

use q3_bits::laws as bits;
use q3_fields::laws as fields;

/// The normal form of a state is a state, in normal form.
pub fn normal_is_normal()
    ensures { NormalIsNormal }
{
    fields::normal_words_are_normal();
}

/// The state with nothing in it is a state, in the normal form of every table.
pub fn zero_is_normal()
    ensures { ZeroIsNormal }
{
    fields::zeros_are_normal();
}

/// A list rises by number, so another may be read against it.
pub fn list_rises()
    ensures { ListRises }
{}

/// Where none is set they are baselines of any table.
pub fn none_are_baselines()
    ensures { NoneAreBaselines }
{}

/// Baselines with a state in normal form set are baselines.
pub fn baseline_is_added()
    ensures { BaselineIsAdded }
{}

/// What is written of an entity against a state in normal form is read back: its number, and after it the words in
/// normal form, as those of an entity that is the same exactly where no word changed, with whatever follows.
pub fn entity_written_is_read()
    ensures { EntityWrittenIsRead }
{
    bits::put_is_read();
    fields::words_are_spelled();
    fields::unchanged_is_normal();
    fields::words_spelled_are_read();
}

/// A removal that is written is read back, with whatever follows.
pub fn removal_is_read()
    ensures { RemovalIsRead }
{
    bits::put_is_read();
}

/// What is written of an entity by force against a state in normal form spells its entry, in normal form.
pub fn forced_is_spelled()
    ensures { ForcedIsSpelled }
{
    fields::words_are_spelled();
    fields::unchanged_is_normal();
}

/// What is read after an entity's number was spelled so, and is in normal form where the state that it changed from is.
pub fn entry_read_is_spelled()
    ensures { EntryReadIsSpelled }
{
    bits::read_was_put();
    fields::words_read_are_spelled();
}

/// An entry that is spelled so is read, with whatever follows it.
pub fn entry_spelled_is_read()
    ensures { EntrySpelledIsRead }
{
    bits::put_is_read();
    fields::words_spelled_are_read();
}

/// What is written of a list against a base and baselines in normal form spells the entities in normal form.
pub fn list_is_spelled()
    ensures { ListIsSpelled }
{
    zero_is_normal();
    fields::words_are_spelled();
    fields::unchanged_is_normal();
}

/// A list that is read was spelled so, and its entities are in normal form where those of the base and the baselines
/// are.
pub fn list_read_is_spelled()
    ensures { ListReadIsSpelled }
{
    bits::read_was_put();
    fields::words_read_are_spelled();
    zero_is_normal();
}

/// A list that is spelled so is read, with whatever follows it. So where a reader refuses, no front of the bits is
/// spelled so.
pub fn list_spelled_is_read()
    ensures { ListSpelledIsRead }
{
    bits::put_is_read();
    fields::words_spelled_are_read();
    zero_is_normal();
}

/// What is written of a list against a base and baselines in normal form is read back as the entities in normal form,
/// with whatever follows it.
pub fn list_written_is_read()
    ensures { ListWrittenIsRead }
{
    list_is_spelled();
    list_spelled_is_read();
}

/// What is read as a list is skipped to the same place.
pub fn read_is_skipped()
    ensures { ReadIsSkipped }
{
    fields::words_end_alike();
    zero_is_normal();
}

/// A list that is passed over spells rising entries, each against the zero state.
pub fn skipped_is_spelled()
    ensures { SkippedIsSpelled }
{
    bits::read_was_put();
    fields::words_read_are_spelled();
    zero_is_normal();
}

/// What spells such entries is passed over, with whatever follows it.
pub fn spelled_is_skipped()
    ensures { SpelledIsSkipped }
{
    bits::put_is_read();
    fields::words_spelled_are_read();
    zero_is_normal();
}
