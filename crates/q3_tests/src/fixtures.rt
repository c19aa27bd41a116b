//! What tests begin with, each said in full: what a test shows hangs on it.

ghost use Rattle.std.specs.Prelude.{◌≡◌, ◌+◌, ◌*◌, ◌^◌, ◌++◌, replicate, set, IfOk};
ghost use Rattle.q3_entity.specs.Entities.{zero_entity};
ghost use Rattle.q3_player.specs.Heads.{empty_head};

use q3_entity::EntityState;
use q3_io::Address;
use q3_player::SnapHead;
use std::alloc::{AllocError, Global};

/// Entity 5, whose field 1 has this word, and nothing else.
pub fn entity(word: u32) -> EntityState
    ensures { result ≡ record (zero_entity 5) { words = set (zero_entity 5).words 1 word } }
{
    let mut state = EntityState::zero(5);
    state.words[1] = word;
    state
}

/// A snapshot's head under a number, and nothing else.
pub fn head(number: u32) -> SnapHead
    ensures { result ≡ record empty_head { number = number } }
{
    let mut head = SnapHead::new();
    head.number = number;
    head
}

/// An address of this machine, 127.0.0.1.
pub fn here(port: u16) -> Address
    ensures { result ≡ record { host = 127 * 2 ^ 24 + 1; port = port } }
{
    Address {
        host: 0x7f00_0001,
        port,
    }
}

/// Bytes, and so many more, each of them 5. `Err` is want of memory.
pub fn datagram(alloc: Global, begins: &[u8], more: usize) -> Result<Vec<u8>, AllocError>
    ensures { IfOk result (λ bytes. bytes.items ≡ begins.now ++ replicate more 5) }
{
    let mut bytes = Vec::from_slice(alloc, begins)?;
    bytes.extend_from_slice(&vec![in alloc; 5; more]?)?;
    Ok(bytes)
}
