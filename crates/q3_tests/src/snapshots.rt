//! Snapshots in a ring that has room for 512 entities.

ghost use Rattle.std.specs.Prelude.{◌≡◌, ◌≤◌, None};
ghost use Rattle.q3_entity.specs.Entities.{Rises};

use crate::fixtures::head;
use q3_entity::{EntityState, List};
use q3_entity_ring::Ring;
use q3_rings::{NoBase, Rings};
use std::process::Abort;
use std::test::*;

/// So many entities, numbered from 1.
fn entities(count: u16) -> List
    requires { count ≤ 256 }
    ensures { Rises result.items }
{
    let mut list = List::new();
    for number in 0..count {
        list.push(EntityState::zero(number + 1));
    }
    list
}

/// Accepts a snapshot with 200 entities.
fn accept(rt: &impl Abort, rings: &mut Rings, number: u32)
    requires { rings.old.begun ≡ None }
    ensures { rings.new.begun ≡ None }
{
    assert!(rt; rings.newest() < number);
    rings.accept(&head(number), &entities(200));
}

/// In how many pieces the entities of a snapshot are lent, if it is held.
fn pieces(rings: &Rings, number: u32) -> Result<(usize, usize), NoBase> {
    let view = rings.base(number)?;
    Ok((view.entities.head.len(), view.entities.tail.len()))
}

#[test]
fn third_of_three_lies_round_the_end(rt: HostRuntime) {
    let mut rings = Rings::new(rt.alloc(), 512).expect(&rt, "memory");
    accept(&rt, &mut rings, 1);
    accept(&rt, &mut rings, 2);
    accept(&rt, &mut rings, 3);
    assert_eq!(rt; pieces(&rings, 3), Ok((112, 88)));
    assert_eq!(rt; pieces(&rings, 2), Err(NoBase::EntitiesGone(400)));
    assert_eq!(rt; pieces(&rings, 1), Err(NoBase::EntitiesGone(600)));
}

/// Places entities once, where the ring has room for them. Answers how many were placed before them.
fn place_once(rt: &impl Abort, ring: &mut Ring, count: u16) -> u64
    requires { count ≤ 256 }
{
    let entities = entities(count);
    assert!(rt; entities.len() <= ring.room() && ring.placed() < 1_000);
    ring.place_once(&entities)
}

// the contract of `place_once` lets it place the same entities again
#[test]
fn same_entities_lie_once(rt: HostRuntime) {
    let mut ring = Ring::new(rt.alloc(), 512).expect(&rt, "memory");
    assert_eq!(rt; place_once(&rt, &mut ring, 200), 0);
    assert_eq!(rt; place_once(&rt, &mut ring, 200), 0);
    assert_eq!(rt; place_once(&rt, &mut ring, 100), 200);
    assert_eq!(rt; place_once(&rt, &mut ring, 100), 200);
    assert_eq!(rt; place_once(&rt, &mut ring, 200), 300);
    assert_eq!(rt; ring.placed(), 500);
}
