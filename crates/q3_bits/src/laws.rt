//! Laws of the code text, of texts one after the other, and of a message's bytes, each the contract of a call that does
//! nothing. A proof above cites a law by calling it.

ghost use Rattle.q3_bits.specs.Words.{IsCode, plain_words};
ghost use Rattle.q3_bits.specs.Laws.{ReadWasPut, PutIsRead, FieldsEndCutShort, PlainBitsEnd, MarksAreJoined, MarksAreBits, TextsAreWritten, ListsAreRead, MessageHoldsBits, MessageIsBytes};

/// The plain code has a word for each byte, and none begins another.
pub fn plain_is_a_code()
    ensures { IsCode plain_words }
{}

/// What is read was put: the value fits the width, and its text stands at the front of the bits.
pub fn read_was_put()
    ensures { ReadWasPut }
{}

/// What is put is read back, with whatever follows it.
pub fn put_is_read()
    ensures { PutIsRead }
{}

/// Where a reader answers that the bits end, they are the front of a field's text; where it answers that they begin no
/// word, they are none.
pub fn ends_cut_short()
    ensures { FieldsEndCutShort }
{}

/// By the plain code nothing is read only where the bits end.
pub fn plain_bits_end()
    ensures { PlainBitsEnd }
{}

/// Two fields that stand one after the other, of fewer than eight bits together, are one field.
pub fn marks_are_joined()
    ensures { MarksAreJoined }
{}

/// A field of one bit is the bit.
pub fn marks_are_bits()
    ensures { MarksAreBits }
{}

/// Texts that are written one after the other are written as one.
pub fn texts_are_written()
    ensures { TextsAreWritten }
{}

/// Values that are read one after the other over those of a list are read as one list.
pub fn lists_are_read()
    ensures { ListsAreRead }
{}

/// The bytes of a message hold its bits, and then zeros.
pub fn message_holds_bits()
    ensures holds { MessageHoldsBits }
    ensures bytes { MessageIsBytes }
{}
