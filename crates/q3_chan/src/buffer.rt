//! The memory of an end.

ghost use Rattle.std.specs.Prelude.{◌≡◌, ◌+◌, ◌≤◌, ◌++◌, length, take, IfOk};
ghost use Rattle.std.specs.Vec.{vec_len};
ghost use Rattle.q3_chan.specs.Datagrams.{longest_message};

use crate::limits::LONGEST_MESSAGE;
use std::alloc::{AllocError as NoMemory, Global};

/// Room for the longest message.
pub(crate) fn new_buffer(alloc: Global) -> Result<Vec<u8>, NoMemory>
    ensures { IfOk result (λ buffer. vec_len buffer ≡ longest_message) }
{
    vec![in alloc; 0; LONGEST_MESSAGE]
}

/// Puts bytes at a place of a buffer.
pub(crate) fn put_at(buffer: &mut Vec<u8>, place: usize, bytes: &[u8])
    requires { place + length bytes.now ≤ length buffer.old.items }
    ensures room { length buffer.new.items ≡ length buffer.old.items }
    ensures front { take (place + length bytes.now) buffer.new.items ≡ take place buffer.old.items ++ bytes.now }
{
    buffer[place..place + bytes.len()].copy_from_slice(bytes);
}
