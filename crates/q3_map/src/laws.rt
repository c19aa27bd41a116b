//! Laws of maps, each the contract of a call that does nothing.

ghost use Rattle.q3_map.specs.Laws.{ListsStayHeld, NewMapsTell};

use q3_text::laws::text_laws;

/// Entities as a server holds them stay so where one is put in or taken away, and so are those of the lowest numbers.
pub fn lists_stay_held()
    ensures { ListsStayHeld }
{}

/// The strings of a new map tell its id.
pub fn new_maps_tell()
    ensures { NewMapsTell }
{
    text_laws();
}
