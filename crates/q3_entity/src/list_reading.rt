//! Reads a list of entities against a base, or passes over one whose base isn't there. Keeps the rules "entity list"
//! and "spellings that a reader accepts", the engine's `CL_ParsePacketEntities`. The refusals are this project's own.

ghost use Rattle.std.specs.Prelude.{◌≡◌, ◌+◌, ◌^◌, ◌<◌, ◌≤◌, ◌++◌, List, Err, IfOk, IfErr, OnOk, length, take};
ghost use Rattle.std.specs.Option.{is_some, option_copied};
ghost use Rattle.q3_bits.specs.Words.{IsCode, field_at};
ghost use Rattle.q3_bits.specs.Streams.{Reads, holding};
ghost use Rattle.q3_fields.specs.Kinds.{end_mark};
ghost use Rattle.q3_entity.specs.Entities.{IsList, RiseFrom, Rises, run_of, most_entities};
ghost use Rattle.q3_entity.specs.Lists.{number_at, words_from, entity_list_at, list_skipped};
ghost use Rattle.q3_entity.specs.declared.state.EntityState.{EntityState};
ghost use Rattle.q3_entity.specs.Walking.{kept_below, KeepsFront, next_at, entry_at, turn_at, skipped_at, with_kept, reached, first_of};

use crate::baselines::Baselines;
use crate::error::EntityError;
use crate::filling::{count_after, make_place, put_part};
use crate::reading::read_entity;
use crate::run::{count_below, take_number};
use crate::state::{EntityState, List, MOST_ENTITIES, Run};
use q3_bits::{ReadError, Reader, laws};
use q3_fields::Table;

/// Where a list stands: the number that comes next, the entities of the base from it on, and how many the list has so
/// far. What `into` holds after these is of no account.
#[derive(Clone, Copy)]
struct Cursor<'a> {
    next: u16,
    base: Run<'a>,
    count: usize,
}

/// Reads a list against a base. The base's entities that have no entry stay, each copied once, and a new one changes
/// from its baseline. After a refusal `into` may hold anything.
///
/// `Err` is the first fault in reading order: `Bits` where the bits don't read; `Count` where a count of fields is above
/// the table's; `Order` where a number isn't above the one before; `Removes` where an entity is removed that the base
/// doesn't have; `Many` where there would be a 257th entity.
pub fn read_list(
    r: &mut Reader,
    table: &Table,
    baselines: &Baselines,
    base: Run,
    into: &mut List,
) -> Result<(), EntityError>
    requires { Rises (run_of base) }
    ensures reads { Reads r.old r.new (entity_list_at r.old.words table.now baselines.now
        (run_of base.entry) r.old.left) (holding into.new.items result) }
    ensures list { OnOk result (IsList table.now into.new.items) }
{
    laws::read_was_put();
    let end = table.end();
    let mut cursor = read_next(r, table, 0, base, 0, into)?;
    while cursor.next < end {
        cursor = read_turn(r, table, baselines, cursor, into)?;
    }
    into.truncate(cursor.count);
    Ok(())
}

/// Reads the entry of the next number, and the number after it.
#[tactic(auto, unfolding(crate::specs::Walking::turn_at))]
fn read_turn<'a>(
    r: &mut Reader,
    table: &Table,
    baselines: &Baselines,
    cursor: Cursor<'a>,
    into: &mut List,
) -> Result<Cursor<'a>, EntityError>
    requires rise { RiseFrom (2 ^ 16) cursor.next (run_of cursor.base) }
    requires number { cursor.next + 1 < 2 ^ 16 }
    requires within { cursor.count ≤ length into.old.items }
    ensures reads { Reads r.old r.new (turn_at r.old.words table.now baselines.now
        (record {
          next = cursor.entry.next;
          base = run_of cursor.entry.base;
          entities = take cursor.entry.count into.old.items;
        }) r.old.left) (reached into.new.items result) }
    ensures within { IfOk result (λ now. now.count ≤ length into.new.items) }
    ensures rises { IfOk result (λ now. cursor.entry.next < now.next) }
    ensures most { IfOk result (λ now. now.next ≤ end_mark table.now) }
{
    let number = cursor.next;
    let (found, others) = take_number(cursor.base, number);
    let count = read_here(r, table, baselines, found, number, cursor.count, into)?;
    read_next(r, table, number + 1, others, count, into)
}

/// Reads the entry of a number, from the base's entity where it has one, else from the baseline.
fn read_here(
    r: &mut Reader,
    table: &Table,
    baselines: &Baselines,
    found: Option<&EntityState>,
    number: u16,
    count: usize,
    into: &mut List,
) -> Result<usize, EntityError>
    requires { count ≤ length into.old.items }
    ensures reads { Reads r.old r.new (entry_at r.old.words table.now
        (words_from baselines.now number (option_copied found.entry))
        (is_some (option_copied found.entry)) number (take count into.old.items) r.old.left)
        (first_of into.new.items result) }
    ensures within { IfOk result (λ now. now ≤ length into.new.items) }
{
    match found {
        Some(from) => read_entry(r, table, from, true, number, count, into),
        None => read_entry(
            r,
            table,
            &baselines.state(number),
            false,
            number,
            count,
            into,
        ),
    }
}

/// Passes over a list whose base isn't there. Its bits, its counts of fields and that its numbers rise are looked at
/// alone. `Bits`, `Count` and `Order` come as in `read_list`, and no other.
pub fn skip_list(r: &mut Reader, table: &Table) -> Result<(), EntityError>
    ensures { Reads r.old r.new (list_skipped r.old.words table.now r.old.left) result }
{
    let zero = EntityState::zero(0);
    let end = table.end();
    let mut next = read_number(r, table, 0)?;
    while next < end {
        next = skip_entry(r, table, &zero, next)?;
    }
    Ok(())
}

/// Passes over the entry of a number, and reads the number of the next.
#[tactic(auto, unfolding(crate::specs::Walking::skipped_at))]
fn skip_entry(
    r: &mut Reader,
    table: &Table,
    from: &EntityState,
    number: u16,
) -> Result<u16, EntityError>
    requires { number + 1 < 2 ^ 16 }
    ensures reads { Reads r.old r.new (skipped_at r.old.words table.now from.now.words number r.old.left) result }
    ensures rises { IfOk result (λ next. number < next) }
    ensures most { IfOk result (λ next. next ≤ end_mark table.now) }
{
    let mut state = EntityState::zero(number);
    read_entity(r, table, from, &mut state)?;
    read_number(r, table, number + 1)
}

/// Reads the next number, and lets the base's entities below it stay, after the first ones of `into`, so many.
#[tactic(auto, unfolding(crate::specs::Walking::next_at))]
#[inline(always)]
fn read_next<'a>(
    r: &mut Reader,
    table: &Table,
    least: u16,
    base: Run<'a>,
    count: usize,
    into: &mut List,
) -> Result<Cursor<'a>, EntityError>
    requires rise { RiseFrom (2 ^ 16) 0 (run_of base) }
    requires within { count ≤ length into.old.items }
    ensures reads { Reads r.old r.new (next_at r.old.words table.now least (run_of base.entry)
        (take count into.old.items) r.old.left) (reached into.new.items result) }
    ensures within { IfOk result (λ cursor. cursor.count ≤ length into.new.items) }
    ensures code { IsCode r.old.words }
    ensures least { IfOk result (λ cursor. least ≤ cursor.next) }
    ensures most { IfOk result (λ cursor. cursor.next ≤ end_mark table.now) }
{
    let next = read_number(r, table, least)?;
    let (base, count) = keep_below(base, next, count, into)?;
    Ok(Cursor { next, base, count })
}

/// Reads what follows a number, and puts the entity after the first ones of `into`, so many, unless it is gone.
/// Answers how many there are then.
#[tactic(auto, unfolding(crate::specs::Walking::entry_at))]
fn read_entry(
    r: &mut Reader,
    table: &Table,
    from: &EntityState,
    in_base: bool,
    number: u16,
    count: usize,
    into: &mut List,
) -> Result<usize, EntityError>
    requires { count ≤ length into.old.items }
    ensures reads { Reads r.old r.new (entry_at r.old.words table.now from.now.words in_base number
        (take count into.old.items) r.old.left) (first_of into.new.items result) }
    ensures within { IfOk result (λ now. now ≤ length into.new.items) }
{
    // there are never more
    prove!(into.len() <= MOST_ENTITIES);
    if count == MOST_ENTITIES {
        return read_beyond(r, table, from, in_base, number);
    }
    make_place(into, count, from);
    read_place(r, table, from, in_base, number, count, into.as_mut_slice())
}

/// The same over the entity that stands there.
fn read_place(
    r: &mut Reader,
    table: &Table,
    from: &EntityState,
    in_base: bool,
    number: u16,
    count: usize,
    entities: &mut [EntityState],
) -> Result<usize, EntityError>
    requires place { count < length entities.old }
    requires few { length entities.old ≤ most_entities }
    ensures reads { Reads r.old r.new (entry_at r.old.words table.now from.now.words in_base number
        (take count entities.old) r.old.left) (first_of entities.new result) }
    ensures within { IfOk result (λ now. now ≤ length entities.new) }
{
    let place = &mut entities[count];
    place.number = number;
    let entry = read_entity(r, table, from, place)?;
    count_after(entry, in_base, number, count)
}

/// The same where there is no room for an entity more.
#[cold]
#[inline(never)]
fn read_beyond(
    r: &mut Reader,
    table: &Table,
    from: &EntityState,
    in_base: bool,
    number: u16,
) -> Result<usize, EntityError>
    ensures reads { (entities : List EntityState) → length entities ≡ most_entities
        → Reads r.old r.new (entry_at r.old.words table.now from.now.words in_base number entities r.old.left)
        (first_of entities result) }
    ensures same { IfOk result (λ now. now ≡ most_entities) }
{
    let mut beyond = EntityState {
        number,
        words: from.words,
    };
    let entry = read_entity(r, table, from, &mut beyond)?;
    count_after(entry, in_base, number, MOST_ENTITIES)
}

/// Reads the next number of a list, which is at least this one.
#[tactic(auto, unfolding(crate::specs::Lists::number_at))]
#[inline(always)]
fn read_number(r: &mut Reader, table: &Table, least: u16) -> Result<u16, EntityError>
    ensures reads { Reads r.old r.new (number_at r.old.words table.now least r.old.left) result }
    ensures code { IsCode r.old.words }
    ensures least { IfOk result (λ number. least ≤ number) }
    ensures most { IfOk result (λ number. number ≤ end_mark table.now) }
{
    let number = get_number(r, u32::from(table.bits()))? as u16;
    if number < least {
        return Err(EntityError::Order(number));
    }
    Ok(number)
}

/// Reads the bits of a number, those that tables have with no loop.
#[inline(always)]
fn get_number(r: &mut Reader, bits: u32) -> Result<u32, ReadError>
    requires some { 1 ≤ bits }
    requires most { bits ≤ 32 }
    ensures reads { Reads r.old r.new (field_at r.old.words bits r.old.left) result }
    ensures fits { IfOk result (λ number. number < 2 ^ bits) }
    ensures code { IsCode r.old.words }
{
    // with a constant width `get_fixed` has no loop
    if bits == 10 {
        return r.get_fixed(10);
    }
    match bits {
        11 => r.get_fixed(11),
        12 => r.get_fixed(12),
        _ => r.get(bits),
    }
}

/// Lets the base's entities below a number stay, after the first ones of `into`, so many. Lends those from it on, and
/// answers how many there are then.
#[inline(always)]
fn keep_below<'a>(
    base: Run<'a>,
    number: u16,
    count: usize,
    into: &mut List,
) -> Result<(Run<'a>, usize), EntityError>
    requires rise { RiseFrom (2 ^ 16) 0 (run_of base) }
    requires within { count ≤ length into.old.items }
    ensures kept { with_kept into.new.items result ≡ kept_below number (take count into.old.items)
        (run_of base.entry) }
    ensures within { IfOk result (λ kept. kept.1 ≤ length into.new.items) }
{
    let (head, count) = keep_front(base.head, number, count, into)?;
    let tail = base.tail;
    if !head.is_empty() {
        return Ok((Run { head, tail }, count));
    }
    let (tail, count) = keep_front(tail, number, count, into)?;
    Ok((Run { head, tail }, count))
}

/// Lets the first entities stay, as far as they are below a number, and lends the rest. `Many` comes where there
/// would be more than 256.
#[inline(always)]
fn keep_front<'a>(
    part: &'a [EntityState],
    number: u16,
    count: usize,
    into: &mut List,
) -> Result<(&'a [EntityState], usize), EntityError>
    requires rise { RiseFrom (2 ^ 16) 0 part.now }
    requires within { count ≤ length into.old.items }
    ensures kept { IfOk result (λ kept. KeepsFront number (take count into.old.items) part.now
        (take kept.1 into.new.items) kept.0.now) }
    ensures within { IfOk result (λ kept. kept.1 ≤ length into.new.items) }
    ensures many { IfErr result (λ e. (after : List EntityState)
        → kept_below number (take count into.old.items) (part.now ++ after) ≡ Err e) }
{
    let below = count_below(part, number);
    if below == 0 {
        return Ok((part, count));
    }
    let end = put_part(into, count, &part[..below])?;
    Ok((&part[below..], end))
}
