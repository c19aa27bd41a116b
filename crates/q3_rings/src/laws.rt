//! Laws of the snapshots that a client holds, each the contract of a call that does nothing.

ghost use Rattle.q3_rings.specs.Laws.{AcceptedIsHeld, HeldWasHeld, SnapshotsStay, NothingStands, AcceptIsAdded, BaseIsOfList, HeldWasAccepted, NearIsHeldByAge, UsualRingHolds};

/// A snapshot that is accepted is held then.
pub fn accepted_is_held()
    ensures { AcceptedIsHeld }
{}

/// What is held after a snapshot that is accepted is that one, or was held before.
pub fn held_was_held()
    ensures { HeldWasHeld }
{}

/// What every such value is holds at first, and stays so where a snapshot is accepted.
pub fn snapshots_stay()
    ensures { SnapshotsStay }
{}

/// Where none was accepted none is held.
pub fn nothing_stands()
    ensures { NothingStands }
{}

/// What is accepted is one more of all that were accepted.
pub fn accept_is_added()
    ensures { AcceptIsAdded }
{}

/// What is held is told by the list of all that were accepted.
pub fn base_is_of_list()
    ensures { BaseIsOfList }
{}

/// What is held was accepted, under its number.
pub fn held_was_accepted()
    ensures { HeldWasAccepted }
{}

/// Of an accepted snapshot that is less than 29 below a newer message the age alone decides.
pub fn near_is_held_by_age()
    ensures { NearIsHeldByAge }
{}

/// And in a ring with the usual room it is held.
pub fn usual_ring_holds()
    ensures { UsualRingHolds }
{}
