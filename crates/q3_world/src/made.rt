//! Datagrams that were made, and the end that each goes to.

ghost use Rattle.std.specs.Prelude.{◌≡◌, ◌<◌, ◌≤◌, ◌+◌, [], length, vec_capacity, Option, OnOk, IfOk};
ghost use Rattle.q3_chan.specs.Sending.{Piece, HandsOut};
ghost use Rattle.q3_server.specs.Server.{places};
ghost use Rattle.q3_world.specs.Forgetting.{forgotten};
ghost use Rattle.q3_world.specs.Kept.{datagrams_after};

use q3_bits::NoMemory;
use q3_chan::{DATAGRAM_ROOM, Datagram};
use q3_io::Address;
use std::alloc::Global;
use std::marker::Model;

/// Which end a datagram goes to.
#[derive(Clone, Copy, Debug, PartialEq, Eq)]
pub(crate) enum Direction {
    /// Its client.
    ToClient,
    /// The server, which takes it from this address.
    ToServer { from: Address },
}

/// A datagram that was made.
#[derive(Drop)]
pub(crate) struct Made {
    /// The place of the client that it is for or comes from.
    pub client: u8,
    /// Which end it goes to.
    pub direction: Direction,
    pub bytes: Vec<u8>,
}

impl Model for Made {
    ghost use Rattle.std.specs.Prelude.{◌<◌};
    ghost use Rattle.q3_server.specs.Server.{places};
    ghost use Rattle.q3_world.specs.Kept.{SentBytes};

    ghost Value = { SentBytes };

    ghost view = { λ s. record { client = s.client; direction = s.direction; bytes = s.bytes.items } };

    ghost invariant = { λ s. s.client < places };
}

impl Made {
    /// Its bytes are let go.
    pub fn forget(&mut self)
        ensures { self.new ≡ record self.old { bytes = [] } }
    {
        self.bytes = Vec::new(*self.bytes.allocator());
    }
}

/// Room among the datagrams for one more, and for its bytes. `Err` is want of memory.
pub(crate) fn room_for_one(alloc: Global, datagrams: &mut Vec<Made>) -> Result<Vec<u8>, NoMemory>
    ensures same { datagrams.new.items ≡ datagrams.old.items }
    ensures room { OnOk result (length datagrams.new.items + 1 ≤ vec_capacity datagrams.new) }
    ensures bytes { IfOk result (λ bytes. (bytes.items ≡ []) × (DATAGRAM_ROOM ≤ vec_capacity bytes)) }
{
    let bytes = Vec::with_capacity(alloc, DATAGRAM_ROOM)?;
    datagrams.reserve(1)?;
    Ok(bytes)
}

/// The bytes of the datagram at a place are let go, if there is one.
pub(crate) fn forget_at(datagrams: &mut Vec<Made>, at: usize)
    ensures { datagrams.new.items ≡ forgotten datagrams.old.items at }
{
    if let Some(sent) = datagrams.get_mut(at) {
        sent.forget();
    }
}

/// Keeps what was handed out for a client, or by it, if anything was: there is room for it.
pub(crate) fn keep(
    datagrams: &mut Vec<Made>,
    client: u8,
    direction: Direction,
    bytes: Vec<u8>,
    out: &Datagram,
)
    requires client { client < places }
    requires room { length datagrams.old.items + 1 ≤ vec_capacity datagrams.old }
    requires bytes { (bytes.items ≡ []) × (DATAGRAM_ROOM ≤ vec_capacity bytes) }
    ensures { (piece : Option Piece) → HandsOut piece out.now.items
        → datagrams.new.items ≡ datagrams_after datagrams.old.items client direction piece }
{
    let mut bytes = bytes;
    if !out.is_empty() {
        bytes.extend_from_slice(out).unwrap();
        bytes.shrink_to_fit();
        datagrams
            .push(Made {
                client,
                direction,
                bytes,
            })
            .unwrap();
    }
}
