//! Laws of nodes, each the contract of a call that does nothing.

ghost use Rattle.q3_node.specs.Laws.{EndIsDone, IsFrugal};
ghost use Rattle.q3_node.specs.AtServer.{server_rules};
ghost use Rattle.q3_node.specs.AtClient.{client_rules};

/// A server's turns, and a client's, come to the line `end` where the clock reaches its time while a turn is left for each line that
/// is left.
pub fn end_is_done()
    ensures server { EndIsDone server_rules }
    ensures client { EndIsDone client_rules }
{}

/// A server does nothing to files, and wants no memory in its turns.
pub fn server_is_frugal()
    ensures { IsFrugal server_rules }
{}
