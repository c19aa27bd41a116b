//! Puts entities into a list from its front on, over those that it holds, so that none is blanked first. How many of the
//! first ones are the new list's is counted by the caller; what follows them is of no account.

ghost use Rattle.std.specs.Prelude.{◌≡◌, ◌+◌, ◌<◌, ◌≤◌, ◌++◌, nat_lt, if◌then◌else◌, Ok, Err, IfOk, IfErr, length, take};
ghost use Rattle.q3_entity.specs.declared.error.EntityError.TheVariants.{Many};
ghost use Rattle.q3_entity.specs.Entities.{most_entities};
ghost use Rattle.q3_entity.specs.Walking as spec;

use crate::error::EntityError;
use crate::reading::Entry;
use crate::state::{EntityState, List, MOST_ENTITIES};

/// How many entities there are with one after whose number an entry was read. `Removes` comes where an entity is
/// removed that the base doesn't have, and `Many` where there would be a 257th.
pub(crate) fn count_after(
    entry: Entry,
    in_base: bool,
    number: u16,
    count: usize,
) -> Result<usize, EntityError>
    requires { count ≤ most_entities }
    ensures { result ≡ spec.count_after count in_base number entry }
{
    match entry {
        Entry::Removed if in_base => Ok(count),
        Entry::Removed => Err(EntityError::Removes(number)),
        Entry::Changed => one_more(count),
        Entry::Same => one_more(count),
    }
}

/// One more than there are. `Many` comes where there are 256.
fn one_more(count: usize) -> Result<usize, EntityError>
    requires { count ≤ most_entities }
    ensures { result ≡ (if nat_lt count most_entities then Ok (count + 1) else Err Many) }
{
    if count == MOST_ENTITIES {
        return Err(EntityError::Many);
    }
    Ok(count + 1)
}

/// Makes sure that an entity stands after the first ones, so many: this one, where there is none.
pub(crate) fn make_place(into: &mut List, count: usize, entity: &EntityState)
    requires within { count ≤ length into.old.items }
    requires room { count < most_entities }
    ensures place { count < length into.new.items }
    ensures front { take count into.new.items ≡ take count into.old.items }
{
    if count == into.len() {
        into.push(*entity);
    }
}

/// Puts entities after the first ones, so many, and answers how many there are then. `Many` comes where there would be
/// more than 256.
pub(crate) fn put_part(
    into: &mut List,
    count: usize,
    part: &[EntityState],
) -> Result<usize, EntityError>
    requires { count ≤ length into.old.items }
    ensures put { IfOk result (λ end. take end into.new.items ≡ take count into.old.items ++ part.now) }
    ensures within { IfOk result (λ end. end ≤ length into.new.items) }
    ensures few { IfOk result (λ end. count + length part.now ≤ most_entities) }
    ensures many { IfErr result (λ e. (e ≡ Many) × (most_entities < count + length part.now)) }
    ensures fits { length into.old.items ≤ most_entities }
{
    let fit = part.len().min(into.len() - count);
    overwrite(into.as_mut_slice(), count, &part[..fit]);
    if fit < part.len() {
        return push_part(into, &part[fit..]);
    }
    Ok(count + fit)
}

/// Puts entities after all that a list holds.
#[cold]
#[inline(never)]
fn push_part(into: &mut List, part: &[EntityState]) -> Result<usize, EntityError>
    ensures put { IfOk result (λ end. into.new.items ≡ into.old.items ++ part.now) }
    ensures end { IfOk result (λ end. end ≡ length into.new.items) }
    ensures few { IfOk result (λ end. length into.old.items + length part.now ≤ most_entities) }
    ensures many { IfErr result (λ e. (e ≡ Many) × (most_entities < length into.old.items + length part.now)) }
{
    if into.try_extend_from_slice(part).is_err() {
        return Err(EntityError::Many);
    }
    Ok(into.len())
}

/// Copies entities over those that stand from a place on.
fn overwrite(entities: &mut [EntityState], start: usize, part: &[EntityState])
    requires { start + length part.now ≤ length entities.old }
    ensures { take (start + length part.now) entities.new ≡ take start entities.old ++ part.now }
{
    entities[start..start + part.len()].copy_from_slice(part);
}
