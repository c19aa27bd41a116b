//! What a datagram begins with, written and read. Keeps the rules "datagram header" and "the check of protocol 71": the engine's
//! `Netchan_TransmitNextFragment`, `Netchan_Transmit` and `Netchan_Process` in net_chan.c.

ghost use Rattle.std.specs.Prelude.{◌≡◌, ◌<◌, ◌+◌, ◌≤◌, ◌++◌, nat_lt, length, is_some};
ghost use Rattle.byteorder.specs.Endian.{little_bytes};
ghost use Rattle.q3_chan.specs.Datagrams.{sequence_end, header_bytes, check_bytes, length_of};
ghost use Rattle.q3_chan.specs.Datagrams as spec;
ghost use Rattle.q3_chan.specs.Gathering as gathering_spec;

use crate::form::{Form, check_of};
use crate::limits::DATAGRAM_ROOM;
use crate::sender::Datagram;
use crate::side::Side;
use byteorder::{ByteOrder, LittleEndian};
use std::marker::Model;

/// What is added to the number of a message in its fragments: the top bit, the engine's `FRAGMENT_BIT`.
const FRAGMENT_MARK: u32 = 0x8000_0000;

/// Puts bytes after those of a datagram.
pub(crate) fn put_bytes(out: &mut Datagram, bytes: &[u8])
    requires { length out.old.items + length bytes.now ≤ DATAGRAM_ROOM }
    ensures { out.new.items ≡ out.old.items ++ bytes.now }
{
    let put = out.try_extend_from_slice(bytes);
    prove!(put.is_ok());
}

/// Puts a number of 32 bits after the bytes of a datagram.
fn put_long(out: &mut Datagram, number: u32)
    requires { length out.old.items + 4 ≤ DATAGRAM_ROOM }
    ensures { out.new.items ≡ out.old.items ++ little_bytes 4 number }
{
    let mut bytes = [0; 4];
    LittleEndian::write_u32(&mut bytes, number);
    put_bytes(out, &bytes);
}

/// Puts a number of 16 bits after the bytes of a datagram.
pub(crate) fn put_short(out: &mut Datagram, number: u16)
    requires { length out.old.items + 2 ≤ DATAGRAM_ROOM }
    ensures { out.new.items ≡ out.old.items ++ little_bytes 2 number }
{
    let mut bytes = [0; 2];
    LittleEndian::write_u16(&mut bytes, number);
    put_bytes(out, &bytes);
}

/// What stands in front of each datagram of an end beside the number of its message.
#[derive(Clone, Copy, Drop)]
pub(crate) struct Header {
    pub form: Form,
    /// With what a server sends no qport goes.
    pub qport: u16,
}

impl Model for Header {
    ghost use Rattle.q3_chan.specs.Datagrams.{Header};

    ghost Value = { Header };

    ghost view = { λ h. record { form = h.form; qport = h.qport } };

    ghost inverse = { λ value. record { form = value.form; qport = value.qport } };
}

/// Puts what begins each datagram of the message under a number, a fragment or not: the number, which has the mark in a fragment, from a
/// client its qport, and the check, where there is one.
pub(crate) fn put_header(out: &mut Datagram, header: Header, fragment: bool, number: u32)
    requires room { length out.old.items + 10 ≤ DATAGRAM_ROOM }
    requires number { number < sequence_end }
    ensures bytes { out.new.items ≡ out.old.items ++ header_bytes header fragment number }
    ensures some { 0 < length out.new.items }
{
    put_long(out, marked(fragment, number));
    if header.form.side == Side::Client {
        put_short(out, header.qport);
    }
    put_check(out, header.form.check, number);
}

/// The number of a message in a datagram.
fn marked(fragment: bool, number: u32) -> u32
    requires { number < sequence_end }
    ensures { result ≡ spec.marked fragment number }
{
    if fragment {
        number + FRAGMENT_MARK
    } else {
        number
    }
}

/// Puts the check of a number, where there is one.
fn put_check(out: &mut Datagram, check: Option<u32>, number: u32)
    requires { length out.old.items + 4 ≤ DATAGRAM_ROOM }
    ensures { out.new.items ≡ out.old.items ++ check_bytes check number }
{
    if let Some(challenge) = check {
        put_long(out, check_of(challenge, number));
    }
}

/// Whether a datagram begins with four bytes of 255.
pub(crate) fn is_connectionless(datagram: &[u8]) -> bool
    requires { 4 ≤ length datagram.now }
    ensures { result ≡ gathering_spec.is_connectionless datagram.now }
{
    &datagram[..4] == [255; 4].as_slice()
}

/// Whether a datagram has a fragment of a message.
pub(crate) fn is_fragment(datagram: &[u8]) -> bool
    requires { 4 ≤ length datagram.now }
    ensures { result ≡ spec.is_fragment datagram.now }
{
    LittleEndian::read_u32(datagram) >= FRAGMENT_MARK
}

/// The number of the message, without the mark.
pub(crate) fn number_in(datagram: &[u8]) -> u32
    requires { 4 ≤ length datagram.now }
    ensures { result ≡ spec.number_in datagram.now }
{
    LittleEndian::read_u32(datagram) % FRAGMENT_MARK
}

/// How many bytes stand before the check: those of the number, and of the qport that a client sends.
fn before_check(side: Side) -> usize
    ensures { result ≡ spec.before_check side }
{
    match side {
        Side::Server => 4,
        Side::Client => 6,
    }
}

/// How many bytes the check has, where there is one.
fn check_length(checked: bool) -> usize
    ensures { result ≡ spec.check_length checked }
{
    if checked { 4 } else { 0 }
}

/// How many bytes stand before a message that goes whole.
fn short_header(side: Side, checked: bool) -> usize
    ensures { result ≡ spec.short_header side checked }
{
    before_check(side) + check_length(checked)
}

/// How many bytes stand before the message or its piece.
fn header_length(side: Side, checked: bool, fragment: bool) -> usize
    ensures { result ≡ spec.header_length side checked fragment }
{
    if fragment {
        short_header(side, checked) + 4
    } else {
        short_header(side, checked)
    }
}

/// Whether a datagram is shorter than its header, which has a check or none.
pub(crate) fn lacks_header(side: Side, checked: bool, datagram: &[u8]) -> bool
    requires { 4 ≤ length datagram.now }
    ensures { result ≡ nat_lt (length datagram.now) (spec.header_length side checked (spec.is_fragment datagram.now)) }
{
    datagram.len() < header_length(side, checked, is_fragment(datagram))
}

/// Whether a datagram of a form has a check.
pub(crate) fn is_form_checked(form: Form) -> bool
    ensures { result ≡ is_some form.check }
{
    form.check.is_some()
}

/// How many bytes stand before a message of a form that goes whole.
fn short_of(form: Form) -> usize
    ensures { result ≡ spec.short_of form }
{
    short_header(form.side, is_form_checked(form))
}

/// Whether the check of a datagram, where it has one, is another than that of its number.
pub(crate) fn has_bad_check(form: Form, datagram: &[u8]) -> bool
    requires number { 4 ≤ length datagram.now }
    requires header { length_of form (spec.is_fragment datagram.now) ≤ length datagram.now }
    ensures { result ≡ spec.has_bad_check form.side form.check datagram.now }
{
    match form.check {
        None => false,
        Some(challenge) => {
            check_in(form.side, datagram) != check_of(challenge, number_in(datagram))
        }
    }
}

/// The check that a datagram has.
fn check_in(side: Side, datagram: &[u8]) -> u32
    requires { spec.before_check side + 4 ≤ length datagram.now }
    ensures { result ≡ spec.check_in side datagram.now }
{
    LittleEndian::read_u32(&datagram[before_check(side)..])
}

/// The bytes after the header.
pub(crate) fn after_header(form: Form, datagram: &[u8]) -> &[u8]
    requires number { 4 ≤ length datagram.now }
    requires header { length_of form (spec.is_fragment datagram.now) ≤ length datagram.now }
    ensures { result.now ≡ spec.after_header form datagram.now }
{
    let length = header_length(form.side, is_form_checked(form), is_fragment(datagram));
    &datagram[length..]
}

/// Where a fragment's piece starts in its message.
pub(crate) fn start_in(form: Form, datagram: &[u8]) -> usize
    requires { spec.short_of form + 4 ≤ length datagram.now }
    ensures { result ≡ spec.start_in form datagram.now }
{
    usize::from(LittleEndian::read_u16(&datagram[short_of(form)..]))
}

/// How many bytes a fragment's piece is said to have.
pub(crate) fn count_in(form: Form, datagram: &[u8]) -> usize
    requires { spec.short_of form + 4 ≤ length datagram.now }
    ensures { result ≡ spec.count_in form datagram.now }
{
    usize::from(LittleEndian::read_u16(&datagram[short_of(form) + 2..]))
}
