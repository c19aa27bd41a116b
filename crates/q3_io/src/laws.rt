//! Laws of what is written to a sink, each the contract of a call that does nothing.
//! A proof above cites a law by calling it.

ghost use Rattle.q3_io.specs.Laws.{TextsFollow, ItemsFollow, AllIsSent};

/// For a row of calls that write: a text after a text, and an error in a front of a text.
pub fn texts_follow()
    ensures { TextsFollow }
{}

/// For a loop that writes the texts of items, one after the other.
pub fn items_follow<X>()
    ensures { ItemsFollow X }
{}

/// Where nothing waits after a row of writes, all of it was handed on.
pub fn all_is_sent()
    ensures { AllIsSent }
{}
