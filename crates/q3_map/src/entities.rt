//! Entities by rising number: how one is put in, how one is taken away, and which are lent.

ghost use Rattle.std.specs.Prelude.{◌≡◌, ◌<◌, ◌≤◌, length, position, nat_le, nat_lt, take};
ghost use Rattle.std.specs.List.{position_or_len};
ghost use Rattle.std.specs.Vec.{vec_capacity};
ghost use Rattle.q3_entity.specs.Entities.{RiseFrom, most_entities};
ghost use Rattle.q3_fields.specs.Kinds.{most_end};
ghost use Rattle.q3_map.specs.Map.{with_entity, without_entity};

use q3_entity::{EntityState, MOST_ENTITIES};

/// Puts an entity at its place by number, for the one that has its number, if there is one.
pub(crate) fn put_entity(entities: &mut Vec<EntityState>, entity: EntityState)
    requires rise { RiseFrom most_end 0 entities.old.items }
    requires room { most_end ≤ vec_capacity entities.old }
    requires number { entity.number < most_end }
    ensures items { entities.new.items ≡ with_entity entity entities.old.items }
    ensures rise { RiseFrom most_end 0 entities.new.items }
    ensures room { most_end ≤ vec_capacity entities.new }
{
    let Some(place) = place_from(entities, entity.number) else {
        entities.push(entity).unwrap();
        return;
    };
    if entities[place].number == entity.number {
        entities[place] = entity;
        return;
    }
    entities.insert(place, entity).unwrap();
}

/// Takes the entity of a number away, if there is one.
pub(crate) fn drop_entity(entities: &mut Vec<EntityState>, number: u16)
    requires rise { RiseFrom most_end 0 entities.old.items }
    ensures items { entities.new.items ≡ without_entity number entities.old.items }
    ensures rise { RiseFrom most_end 0 entities.new.items }
    ensures room { vec_capacity entities.new ≡ vec_capacity entities.old }
{
    let Some(place) = place_from(entities, number) else {
        return;
    };
    if entities[place].number == number {
        entities.remove(place);
    }
}

/// Where the first entity stands whose number is this one or above it.
fn place_from(entities: &[EntityState], number: u16) -> Option<usize>
    requires { RiseFrom most_end 0 entities.now }
    ensures { result ≡ position (λ entity. nat_le number entity.number) entities.now }
{
    let place = first_from(entities, number);
    if place < entities.len() {
        Some(place)
    } else {
        None
    }
}

/// How many entities stand in front of those whose numbers are this one or above it.
fn first_from(entities: &[EntityState], number: u16) -> usize
    requires { RiseFrom most_end 0 entities.now }
    ensures { result ≡ position_or_len (λ entity. nat_le number entity.number) entities.now }
{
    entities.partition_point(
        |entity: &EntityState| -> bool
            ensures { result ≡ nat_lt entity.now.number number }
        { entity.number < number },
    )
}

/// The first entities, at most 256.
pub(crate) fn front(entities: &[EntityState]) -> &[EntityState]
    ensures items { result.now ≡ take most_entities entities.now }
    ensures few { length result.now ≤ most_entities }
{
    match entities.get(..MOST_ENTITIES) {
        Some(front) => front,
        None => entities,
    }
}
