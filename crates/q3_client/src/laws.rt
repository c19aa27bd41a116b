//! Laws of a client's end, each the contract of a call that does nothing but cite the laws below it.

ghost use Rattle.q3_client.specs.Laws.{BeginsSaid, ClientStays, TakesMessages};

use q3_chan::laws as chan;
use q3_clstate::laws as clstate;
use q3_strings::laws as strings;
use q3_window::laws as window;

/// What a client begins is a message that it may begin, whatever it keeps.
pub fn begins_said()
    ensures { BeginsSaid }
{
    strings::numbered_are_commands();
}

/// A client is well formed once it joined, and stays so, whatever move or command is issued, whatever it emits and whatever
/// bytes it takes; what the messages left stays so too, where a message is received from its bytes.
pub fn client_stays()
    ensures { ClientStays }
{
    chan::ends_gather();
    chan::ends_send();
    clstate::apply_stays();
    window::stays_outgoing();
}

/// A datagram brings a message that is applied, or leaves what messages left. The bytes of one that is applied are kept, cleared, and
/// do under its number, which is newer than all before and the newest from then on, what was answered, accepted and executed. Neither
/// issues a command.
#[tactic(auto, using(crate::proofs::Leaves::takes))]
pub fn takes_messages()
    ensures { TakesMessages }
{}
