//! Laws of frames, each the contract of a call that does nothing.

ghost use Rattle.q3_frames.specs.Laws.{NothingIsHeld, HeldWasBuilt, BuildLeavesOthers, BuiltIsHeld, BuildKeeps, BaseIsNear, NothingStands, BuildIsAdded, BaseWasBuiltLast};

/// Where nothing was built nothing is held.
pub fn nothing_is_held()
    ensures { NothingIsHeld }
{}

/// What a slot holds after a build is what was built for it, or it was held before, the same, and the build took another
/// place.
pub fn held_was_built()
    ensures { HeldWasBuilt }
{}

/// A build leaves every other place: what stood there is held after exactly where it was built under the number, and the count at
/// which its entities begin, with the ring's room added, is above the count of entities placed, those of the build among them.
pub fn build_leaves_others()
    ensures { BuildLeavesOthers }
{}

/// What is built is held under its number, if its entities are fewer than the ring has room for.
pub fn built_is_held()
    ensures { BuiltIsHeld }
{}

/// Each slot has all its places where nothing was built, and a build keeps them, the slots and the ring's room.
pub fn build_keeps()
    ensures { BuildKeeps }
{}

/// A base is below its message, at most by 28, and it is held under the delta number, which is its own.
pub fn base_is_near()
    ensures { BaseIsNear }
{}

/// Frames with nothing in them stand for nothing built.
pub fn nothing_stands()
    ensures { NothingStands }
{}

/// What is built is one more of all that was built.
pub fn build_is_added()
    ensures { BuildIsAdded }
{}

/// The base of a message is the frame built last under the delta number, exactly by the rule.
pub fn base_was_built_last()
    ensures { BaseWasBuiltLast }
{}
