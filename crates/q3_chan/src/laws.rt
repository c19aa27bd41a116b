//! Laws of messages that are cut, gathered and scrambled, each the contract of a call that does nothing. A proof above cites a law by
//! calling it.

ghost use Rattle.q3_chan.specs.Laws.{PiecesAreWhole, HandsOutAll, SentIsTagged, TaggedDoes, PiecesAreTagged, FirstArePartial, PiecesComeWhole, FirstComePartial, GatheredIsOne, WholeArePieces, EndsGather, EndsSend, TwiceIsNone, FrontStays, BytesStayBytes, SideTwiceIsNone, SideFrontStays, SideBytesStay};
ghost use Rattle.q3_chan.specs.Senders.{QportIsTold};

/// The pieces of a message, one after the other, are the message.
pub fn pieces_are_whole()
    ensures { PiecesAreWhole }
{}

/// An idle end that begins a message hands out its datagrams, in order, and then is idle.
pub fn hands_out_all()
    ensures { HandsOutAll }
{}

/// A datagram that an end sent does what its piece does, and what is gathered then is a front of a message again.
pub fn sent_is_tagged()
    ensures { SentIsTagged }
{}

/// What a piece does, whatever was gathered: no message comes whole, or the piece's does.
pub fn tagged_does()
    ensures { TaggedDoes }
{}

/// Where all pieces of a newer message but the last arrived in order, with nothing between them, with the last it comes
/// whole; and if nothing of it was gathered before, the others are partial.
pub fn pieces_are_tagged()
    ensures whole { PiecesAreTagged }
    ensures partial { FirstArePartial }
{}

/// The same by bytes: where all datagrams of a newer message but the last came in order, with the last it comes whole; and if
/// nothing of it was gathered before, the others are partial.
pub fn pieces_come_whole()
    ensures whole { PiecesComeWhole }
    ensures partial { FirstComePartial }
{}

/// Whatever of one sender's datagrams came, in whatever order: a message that comes whole is the one under its number.
pub fn gathered_is_one()
    ensures { GatheredIsOne }
{}

/// Whatever bytes came: a message that comes whole stood in the last datagram, or is pieces of one number that came in
/// their order.
pub fn whole_are_pieces()
    ensures { WholeArePieces }
{}

/// What an end that receives has taken and gathers was begun: so at first, after each piece of a message that was begun, and
/// where more are begun. And whatever bytes arrive, it hears the same form.
pub fn ends_gather()
    ensures { EndsGather }
{}

/// What an end that sends has under way is the message under its number: so at first, after each that is begun, and after
/// each piece that is handed out.
pub fn ends_send()
    ensures { EndsSend }
{}

/// A datagram that a client sent tells its qport.
pub fn qport_is_told()
    ensures { QportIsTold }
{}

/// What an end scrambles twice is as it was; the length and the bytes that stay clear stay. Bytes stay bytes, where the key's start,
/// if it has one, is a byte, and its text is a command's.
pub fn ends_scramble()
    ensures twice { SideTwiceIsNone }
    ensures front { SideFrontStays }
    ensures bytes { SideBytesStay }
{}

/// What is scrambled twice is as it was; the length and what stands before the place stay. Bytes stay bytes, where the start is one
/// and the text is a command's.
pub fn scrambled_twice()
    ensures twice { TwiceIsNone }
    ensures front { FrontStays }
    ensures bytes { BytesStayBytes }
{}
