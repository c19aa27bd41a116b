//! An end that sends. Keeps the rules "datagram header" and "fragmentation", the engine's `Netchan_Transmit` and
//! `Netchan_TransmitNextFragment` in net_chan.c.

ghost use Rattle.std.specs.Prelude.{◌≡◌, ◌+◌, ◌*◌, ◌<◌, ◌≤◌, ◌↔◌, ◌++◌, nat_lt, if◌then◌else◌, length, IfOk, IsSome, IsTrue, None};
ghost use Rattle.byteorder.specs.Endian.{little_bytes};
ghost use Rattle.q3_chan.specs.Datagrams.{with_check, fragment_size, longest_message, sequence_end, piece_count, datagram, piece};
ghost use Rattle.q3_chan.specs.Sending.{IsIdle, new_sending, started, next_of};

use crate::buffer::{new_buffer, put_at};
use crate::form::Form;
use crate::header::{Header, put_bytes, put_header, put_short};
use crate::limits::{DATAGRAM_ROOM, FRAGMENT_SIZE};
use crate::side::Side;
use arrayvec::ArrayVec;
use std::alloc::{AllocError as NoMemory, Global};
use std::marker::Model;

/// The bytes of one datagram.
pub type Datagram = ArrayVec<u8, DATAGRAM_ROOM>;

/// Cuts messages into datagrams, one a call. It has memory of its own, which `new` takes and no other call does.
#[derive(Drop)]
pub struct Sender {
    header: Header,
    number: u32,
    buffer: Vec<u8>,
    count: usize,
    index: Option<usize>,
}

impl Model for Sender {
    ghost use Rattle.q3_chan.specs.Sending.{Sending};

    ghost Value = { Sending };

    ghost use Rattle.q3_chan.specs.Buffers.{sending_of, IsSending};

    ghost view = { sending_of };

    ghost invariant = { IsSending };
}

impl Sender {
    /// An end that has sent nothing, and sends no check. A server hands in any qport, since none goes with what it sends. `Err` is want
    /// of memory.
    pub fn new(alloc: Global, side: Side, qport: u16) -> Result<Sender, NoMemory>
        ensures { IfOk result (λ sender. sender ≡ new_sending (record { side = side; check = None }) qport) }
    {
        Ok(Sender {
            header: Header {
                form: Form { side, check: None },
                qport,
            },
            number: 0,
            buffer: new_buffer(alloc)?,
            count: 0,
            index: None,
        })
    }

    /// From now on each datagram has a check of this challenge, as by protocol 71, or none. No message was begun.
    pub fn set_check(&mut self, check: Option<u32>)
        requires none_begun { self.old.number ≡ 0 }
        ensures { self.new ≡ record self.old {
          header = record self.old.header {
            form = with_check
                self.old.header.form check;
          };
        } }
    {
        self.header.form.check = check;
    }

    /// Begins a message of 1 to 16,384 bytes under the next number, which is 1 at first and stays below `SEQUENCE_END`.
    pub fn start(&mut self, message: &[u8])
        requires idle { IsIdle self.old }
        requires some { 1 ≤ length message.now }
        requires most { length message.now ≤ longest_message }
        requires number { self.old.number + 1 < sequence_end }
        ensures { self.new ≡ started self.old message.now }
    {
        put_at(&mut self.buffer, 0, message);
        self.count = message.len();
        self.index = Some(0);
        self.number += 1;
    }

    /// Hands out the next datagram of the message under way. What `out` held is gone.
    pub fn next(&mut self, out: &mut Datagram)
        requires { IsSome self.old.under_way }
        ensures next { next_of self.old ≡ record { sending = self.new; datagram = out.new.items } }
        ensures number { self.new.number ≡ self.old.number }
        ensures some { 0 < length out.new.items }
    {
        if let Some(index) = self.index {
            let message = &self.buffer[..self.count];
            write_datagram(out, self.header, self.number, message, index);
            self.index = index_after(message, index);
        }
    }

    /// Whether nothing is left to be handed out.
    pub fn idle(&self) -> bool
        ensures { IsTrue result ↔ IsIdle self.now }
    {
        self.index.is_none()
    }

    /// The number of the last message begun, and 0 at first.
    pub fn number(&self) -> u32
        ensures { result ≡ self.now.number }
    {
        self.number
    }
}

/// Writes the datagram with the piece of a message at an index.
#[tactic(auto, unfolding(crate::specs::Datagrams::datagram))]
fn write_datagram(out: &mut Datagram, header: Header, number: u32, message: &[u8], index: usize)
    requires number { number < sequence_end }
    requires most { length message.now ≤ longest_message }
    requires within { fragment_size * index ≤ length message.now }
    ensures bytes { out.new.items ≡ datagram header number message.now index }
    ensures some { 0 < length out.new.items }
{
    out.clear();
    if message.len() < FRAGMENT_SIZE {
        put_header(out, header, false, number);
        put_bytes(out, message);
    } else {
        put_header(out, header, true, number);
        put_piece(out, message, index);
    }
}

/// Puts the piece of a message at an index after the bytes of a datagram: where it starts, how long it is, and its bytes.
fn put_piece(out: &mut Datagram, message: &[u8], index: usize)
    requires room { length out.old.items ≤ 10 }
    requires most { length message.now ≤ longest_message }
    requires within { fragment_size * index ≤ length message.now }
    ensures { out.new.items ≡ out.old.items ++ little_bytes 2 (fragment_size * index)
        ++ little_bytes 2 (length (piece message.now index)) ++ piece message.now index }
{
    let start = FRAGMENT_SIZE * index;
    let piece = piece_of(message, index);
    put_short(out, start as u16);
    put_short(out, piece.len() as u16);
    put_bytes(out, piece);
}

/// The piece of a message at an index.
fn piece_of(message: &[u8], index: usize) -> &[u8]
    requires { fragment_size * index ≤ length message.now }
    ensures { result.now ≡ piece message.now index }
{
    let after = &message[FRAGMENT_SIZE * index..];
    &after[..after.len().min(FRAGMENT_SIZE)]
}

/// The index of the piece of a message after one, if there is one.
fn index_after(message: &[u8], index: usize) -> Option<usize>
    ensures { result ≡ (if nat_lt (index + 1) (piece_count (length message.now)) then Some (index + 1) else None) }
{
    if index < message.len() / FRAGMENT_SIZE {
        Some(index + 1)
    } else {
        None
    }
}
