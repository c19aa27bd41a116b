//! Goes along entities in order.

ghost use Rattle.std.specs.Prelude.{◌≡◌, ◌≢◌, ◌^◌, ◌<◌, ◌≤◌, [], ◌∷◌, length, get_or, take, drop, All, MatchOption};
ghost use Rattle.q3_entity.specs.declared.state.EntityState.{EntityState as EntityValue};
ghost use Rattle.std.specs.Option.{option_copied};
ghost use Rattle.q3_entity.specs.Entities.{RiseFrom, run_of};
ghost use Rattle.q3_entity.specs.Runs.{taken, IsFrom, ShareFront};

use crate::state::{EntityState, Run};
use q3_fields::agree;

/// The first entity, and those after it.
pub(crate) fn split_first<'a>(run: Run<'a>) -> Option<(&'a EntityState, Run<'a>)>
    ensures { MatchOption result (run_of run.entry ≡ []) (λ found. run_of run.entry ≡ found.0.now ∷ run_of found.1) }
{
    if let Some((entity, head)) = run.head.split_first() {
        return Some((
            entity,
            Run {
                head,
                tail: run.tail,
            },
        ));
    }
    let (entity, tail) = run.tail.split_first()?;
    Some((
        entity,
        Run {
            head: run.head,
            tail,
        },
    ))
}

/// The entity of a number, where it is the first, and those after it.
pub(crate) fn take_number<'a>(run: Run<'a>, number: u16) -> (Option<&'a EntityState>, Run<'a>)
    ensures { (option_copied result.0, run_of result.1) ≡ taken number (run_of run.entry) }
{
    match split_first(run) {
        Some((entity, others)) if entity.number == number => (Some(entity), others),
        _ => (None, run),
    }
}

/// Passes over the entities, the same in both, with which both begin.
#[inline(always)]
pub(crate) fn skip_same<'a, 'b>(base: Run<'a>, now: Run<'b>) -> (Run<'a>, Run<'b>)
    ensures { ShareFront (run_of base.entry) (run_of now.entry) (run_of result.0) (run_of result.1) }
{
    let (left, head) = skip_piece(base, now.head);
    let tail = now.tail;
    if !head.is_empty() {
        return (left, Run { head, tail });
    }
    let (left, tail) = skip_piece(left, tail);
    (left, Run { head, tail })
}

/// The same, where those that there are now are in one piece.
fn skip_piece<'a, 'b>(base: Run<'a>, now: &'b [EntityState]) -> (Run<'a>, &'b [EntityState])
    ensures { ShareFront (run_of base.entry) now.now (run_of result.0) result.1.now }
{
    let (head, now) = after_same(base.head, now);
    let tail = base.tail;
    if !head.is_empty() {
        return (Run { head, tail }, now);
    }
    let (tail, now) = after_same(tail, now);
    (Run { head, tail }, now)
}

/// What follows the entities, the same in both, with which both begin.
fn after_same<'a, 'b>(
    base: &'a [EntityState],
    now: &'b [EntityState],
) -> (&'a [EntityState], &'b [EntityState])
    ensures { ShareFront base.now now.now result.0.now result.1.now }
{
    let count = count_same(base, now);
    (&base[count..], &now[count..])
}

/// With how many entities, the same in both, both begin: with no more, since the next ones differ or one of both has no next.
pub fn count_same(base: &[EntityState], now: &[EntityState]) -> usize
    ensures same { take result base.now ≡ take result now.now }
    ensures in_base { result ≤ length base.now }
    ensures in_now { result ≤ length now.now }
    ensures most { (other : EntityValue) → result < length base.now → result < length now.now
        → get_or base.now result other ≢ get_or now.now result other }
{
    let most = base.len().min(now.len());
    for k in 0..most {
        if base[k].number != now[k].number || !agree(&base[k].words, &now[k].words) {
            return k;
        }
    }
    most
}

/// How many of the first entities, which rise by number, are below a number.
pub(crate) fn count_below(part: &[EntityState], number: u16) -> usize
    requires { RiseFrom (2 ^ 16) 0 part.now }
    ensures below { All (λ entity. entity.number < number) (take result part.now) }
    ensures after { IsFrom number (drop result part.now) }
    ensures most { result ≤ length part.now }
{
    // where numbers follow each other this is exact, and the last of these tells
    let most = most_below(part, number);
    if most == 0 || part[most - 1].number < number {
        return most;
    }
    for k in 0..part.len() {
        if part[k].number >= number {
            return k;
        }
    }
    part.len()
}

/// At most so many of the first entities are below a number, and exactly so many where their numbers follow each other.
fn most_below(part: &[EntityState], number: u16) -> usize
    requires { RiseFrom (2 ^ 16) 0 part.now }
    ensures after { IsFrom number (drop result part.now) }
    ensures most { result ≤ length part.now }
{
    let Some(first) = part.first() else {
        return 0;
    };
    usize::from(number.saturating_sub(first.number)).min(part.len())
}
