//! Laws of what the ends begin, each the contract of a call that does nothing but cite the laws below it.

ghost use Rattle.q3_messages.specs.MessageLaws.{BegunMayBeSent, BuiltIsRead, BuiltSurvives, SaidIsRead, SaidSurvives};

use q3_bits::laws as bits;
use q3_chan::laws as chan;
use q3_clmsg::laws as clmsg;
use q3_clstate::laws as clstate;
use q3_svmsg::laws as svmsg;

/// A message as an end begins it has bytes that may be sent, where it isn't too long. So whatever `emit` of either end begins may be
/// sent, since `emit` says that it is such a message: its number is below 2^30, and it has 1 to 16,384 bytes.
pub fn begun_may_be_sent()
    ensures { BegunMayBeSent }
{
    bits::message_holds_bits();
    chan::ends_scramble();
}

/// A message that was built is read back from its bytes, whole, or as skipped where its base isn't held.
pub fn built_is_read()
    ensures { BuiltIsRead }
{
    bits::put_is_read();
    bits::message_holds_bits();
    chan::ends_scramble();
    svmsg::written_is_read();
    svmsg::read_is_skipped();
    clstate::applied_is_context();
}

/// A message that a client began is read back by the server.
pub fn said_is_read()
    ensures { SaidIsRead }
{
    bits::put_is_read();
    bits::message_holds_bits();
    chan::ends_scramble();
    clmsg::written_is_read();
}

/// A message that was built survives the network: where its datagrams come to a client, one after the other, each but the last is
/// partial, and with the last the client becomes what the message's value makes of it.
pub fn built_survives()
    ensures { BuiltSurvives }
{
    built_is_read();
    chan::pieces_come_whole();
}

/// A message that a client began survives the network: with the last of its datagrams the server runs its value.
pub fn said_survives()
    ensures { SaidSurvives }
{
    said_is_read();
    chan::pieces_come_whole();
    chan::qport_is_told();
}
