//! Laws of slots, each the contract of a call that does nothing.

ghost use Rattle.std.specs.Prelude.{IfSome};
ghost use Rattle.q3_slot.specs.Laws.{NothingIsListed};
ghost use Rattle.q3_slot.specs.Standing.{IsSlot};

use crate::slot::Slot;
use q3_frames::laws::nothing_is_held;
use q3_player::MOST_AREA;

/// Where nothing was built, no frame has entities of other numbers than a table's, or too many.
pub fn nothing_is_listed()
    ensures { NothingIsListed }
{
    nothing_is_held();
}

/// What the types of a slot's parts tell: it is well formed.
pub(crate) fn slot_stands(slot: &Slot)
    ensures { IfSome slot.now IsSlot }
{
    let Some(client) = &slot.client else {
        return;
    };
    let _issued = slot.issued.issued();
    let _executed = client.executed.executed();
    let _last = client.executed.last().bytes();
    let area = client.area.as_slice();
    // there is room for no more
    prove!(area.len() <= MOST_AREA);
}
