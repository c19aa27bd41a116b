//! Laws of a ring of entities, each the contract of a call that does nothing.

ghost use Rattle.q3_entity_ring.specs.Laws.{PlacedIsThere, OthersStay, PutIsNext, PutLeavesOthers};

/// Entities that were just placed are those from the count before them on.
pub fn placed_is_there()
    ensures { PlacedIsThere }
{}

/// Entities that were placed before stay the same, as long as none has another in its place.
pub fn others_stay()
    ensures { OthersStay }
{}

/// An entity that is put where one was placed is one more after those in front of it.
pub fn put_is_next()
    ensures { PutIsNext }
{}

/// And those in front of it stay the same.
pub fn put_leaves_others()
    ensures { PutLeavesOthers }
{}
