//! An end that receives. Keeps the rules "fragmentation" and "what a receiver answers", the engine's `Netchan_Process`
//! in net_chan.c.

ghost use Rattle.std.specs.Prelude.{◌≡◌, ◌+◌, ◌≤◌, ◌++◌, ℕ, nat_le, length, take, IfOk, None};
ghost use Rattle.q3_chan.specs.Datagrams.{with_check, longest_message, length_of};
ghost use Rattle.q3_chan.specs.Datagrams as datagrams_spec;
ghost use Rattle.q3_chan.specs.Gathering.{new_gathering, gathered, gathering_of, arrives, emptied, Delivers};
ghost use Rattle.q3_chan.specs.Gathering as spec;

use crate::buffer::{new_buffer, put_at};
use crate::form::Form;
use crate::header::{
    after_header, count_in, has_bad_check, is_connectionless, is_form_checked, is_fragment,
    lacks_header, number_in, start_in,
};
use crate::limits::{FRAGMENT_SIZE, LONGEST_MESSAGE};
use crate::side::Side;
use std::alloc::{AllocError as NoMemory, Global};
use std::marker::Model;

/// What a receiver answers to a datagram.
#[derive(Clone, Copy, Debug, PartialEq, Eq)]
pub enum Gathered {
    /// A message came whole: its number, and how many bytes it has.
    Whole { number: u32, length: usize },
    /// The next piece of a message came, and not the last.
    Partial,
    /// The number isn't above that of the newest message taken.
    Old,
    /// The piece doesn't start where what was gathered ends.
    OutOfOrder,
    /// The message or the piece is too long, or longer than the bytes there.
    BadFragment,
    /// By protocol 71, the check isn't that of the number and the challenge.
    BadCheck,
    /// The datagram is shorter than its header.
    Runt,
    /// The datagram begins with four bytes of 255: it belongs to no connection.
    Connectionless,
}

/// Gathers datagrams into messages. It has memory of its own, which `new` takes and no other call does.
#[derive(Drop)]
pub struct Gatherer {
    form: Form,
    taken: u32,
    number: u32,
    buffer: Vec<u8>,
    count: usize,
}

impl Model for Gatherer {
    ghost use Rattle.q3_chan.specs.Gathering.{Gathering};

    ghost Value = { Gathering };

    ghost use Rattle.q3_chan.specs.Buffers.{gathering_in, IsGathering};

    ghost view = { gathering_in };

    ghost invariant = { IsGathering };
}

impl Gatherer {
    /// An end that has taken nothing of what the other side sends, and asks for no check. `Err` is want of memory.
    pub fn new(alloc: Global, side: Side) -> Result<Gatherer, NoMemory>
        ensures { IfOk result (λ gatherer. gatherer ≡ new_gathering (record { side = side; check = None })) }
    {
        Ok(Gatherer {
            form: Form { side, check: None },
            taken: 0,
            number: 0,
            buffer: new_buffer(alloc)?,
            count: 0,
        })
    }

    /// From now on each datagram must have a check of this challenge, as by protocol 71, or none. Nothing was taken.
    pub fn set_check(&mut self, check: Option<u32>)
        requires none_taken { self.old.taken ≡ 0 }
        ensures { self.new ≡ record self.old { form = with_check self.old.form check } }
    {
        self.form.check = check;
    }

    /// The number of the newest message taken, and 0 at first.
    pub fn taken(&self) -> u32
        ensures { result ≡ self.now.taken }
    {
        self.taken
    }

    /// Takes a datagram, any bytes. Where it completes a message, `into` begins with that; after every other answer
    /// `into` may hold anything.
    #[tactic(auto, unfolding(crate::specs::Gathering::gathered))]
    pub fn take(&mut self, datagram: &[u8], into: &mut [u8]) -> Gathered
        requires { length into.old ≡ longest_message }
        ensures gathering { self.new ≡ (gathered self.old datagram.now).gathering }
        ensures answer { result ≡ (gathered self.old datagram.now).answer }
        ensures message { Delivers result into.new (gathered self.old datagram.now).message }
    {
        if datagram.len() < 4 {
            return Gathered::Runt;
        }
        if is_connectionless(datagram) {
            return Gathered::Connectionless;
        }
        if lacks_header(self.form.side, is_form_checked(self.form), datagram) {
            return Gathered::Runt;
        }
        if has_bad_check(self.form, datagram) {
            return Gathered::BadCheck;
        }
        if self.is_old(number_in(datagram)) {
            return Gathered::Old;
        }
        self.take_newer(datagram, into)
    }

    /// Whether a number isn't above that of the newest message taken.
    fn is_old(&self, number: u32) -> bool
        ensures { result ≡ nat_le number self.now.taken }
    {
        number <= self.taken
    }

    /// Takes a datagram of a newer message.
    fn take_newer(&mut self, datagram: &[u8], into: &mut [u8]) -> Gathered
        requires room { length into.old ≡ longest_message }
        requires number { 4 ≤ length datagram.now }
        requires header { length_of self.old.form (datagrams_spec.is_fragment datagram.now) ≤ length datagram.now }
        ensures gathering { self.new ≡ (spec.take_newer self.old datagram.now).gathering }
        ensures answer { result ≡ (spec.take_newer self.old datagram.now).answer }
        ensures message { Delivers result into.new (spec.take_newer self.old datagram.now).message }
    {
        let number = number_in(datagram);
        let there = after_header(self.form, datagram);
        if !is_fragment(datagram) {
            return self.take_whole(number, there, into);
        }
        let start = start_in(self.form, datagram);
        let count = count_in(self.form, datagram);
        self.gather(number);
        self.take_fragment(start, count, there, into)
    }

    /// Takes a message that goes whole.
    fn take_whole(&mut self, number: u32, message: &[u8], into: &mut [u8]) -> Gathered
        requires { length into.old ≡ longest_message }
        ensures gathering { self.new ≡ (spec.take_whole self.old number message.now).gathering }
        ensures answer { result ≡ (spec.take_whole self.old number message.now).answer }
        ensures message { Delivers result into.new (spec.take_whole self.old number message.now).message }
    {
        if message.len() > LONGEST_MESSAGE {
            return Gathered::BadFragment;
        }
        into[..message.len()].copy_from_slice(message);
        self.taken = number;
        Gathered::Whole {
            number,
            length: message.len(),
        }
    }

    /// Gathers the message of a number: anew, where it is another than the gathered one.
    fn gather(&mut self, number: u32)
        ensures { self.new ≡ gathering_of self.old number }
    {
        if number != self.number {
            self.number = number;
            self.count = 0;
        }
    }

    /// Takes a fragment of the message that is gathered: where its piece starts, how long it is said to be, and the bytes
    /// there.
    fn take_fragment(
        &mut self,
        start: usize,
        count: usize,
        there: &[u8],
        into: &mut [u8],
    ) -> Gathered
        requires { length into.old ≡ longest_message }
        ensures gathering { self.new ≡ (spec.take_fragment self.old start count there.now).gathering }
        ensures answer { result ≡ (spec.take_fragment self.old start count there.now).answer }
        ensures message { Delivers result into.new (spec.take_fragment self.old start count there.now).message }
    {
        if start != self.count {
            return Gathered::OutOfOrder;
        }
        self.take_piece(count, there, into)
    }

    /// Takes a piece after what was gathered, which is said to have so many of the bytes there.
    fn take_piece(&mut self, count: usize, there: &[u8], into: &mut [u8]) -> Gathered
        requires { length into.old ≡ longest_message }
        ensures gathering { self.new ≡ (spec.take_piece self.old count there.now).gathering }
        ensures answer { result ≡ (spec.take_piece self.old count there.now).answer }
        ensures message { Delivers result into.new (spec.take_piece self.old count there.now).message }
    {
        if count > FRAGMENT_SIZE || there.len() < count || count > LONGEST_MESSAGE - self.count {
            return Gathered::BadFragment;
        }
        self.add_piece(&there[..count], into)
    }

    /// Puts a piece after what was gathered. One that is shorter than a piece may be completes the message.
    fn add_piece(&mut self, piece: &[u8], into: &mut [u8]) -> Gathered
        requires room { length into.old ≡ longest_message }
        requires most { length self.old.bytes + length piece.now ≤ longest_message }
        ensures gathering { self.new ≡ (spec.add_piece self.old piece.now).gathering }
        ensures answer { result ≡ (spec.add_piece self.old piece.now).answer }
        ensures message { Delivers result into.new (spec.add_piece self.old piece.now).message }
    {
        self.append(piece);
        if piece.len() < FRAGMENT_SIZE {
            self.complete(into)
        } else {
            Gathered::Partial
        }
    }

    /// Puts bytes after those gathered.
    fn append(&mut self, piece: &[u8])
        requires { length self.old.bytes + length piece.now ≤ longest_message }
        ensures { self.new ≡ record self.old { bytes = self.old.bytes ++ piece.now } }
    {
        put_at(&mut self.buffer, self.count, piece);
        self.count += piece.len();
    }

    /// What was gathered is a whole message.
    fn complete(&mut self, into: &mut [u8]) -> Gathered
        requires { length into.old ≡ longest_message }
        ensures gathering { self.new ≡ (arrives (emptied self.old) self.old.number self.old.bytes).gathering }
        ensures answer { result ≡ (arrives (emptied self.old) self.old.number self.old.bytes).answer }
        ensures message { take (length self.old.bytes) into.new ≡ self.old.bytes }
    {
        let length = self.count;
        into[..length].copy_from_slice(&self.buffer[..length]);
        self.taken = self.number;
        self.number = 0;
        self.count = 0;
        Gathered::Whole {
            number: self.taken,
            length,
        }
    }
}
