//! A state after bytes in memory.

ghost use Rattle.q3_savestate.specs.Buffers.{Appends};
ghost use Rattle.q3_savestate.specs.Applied.{saved_in};
ghost use Rattle.q3_savestate.specs.Lending.{HasAges};
ghost use Rattle.q3_savestate.specs.State.{state_bytes};

use crate::buffer::Buffer;
use crate::state::write_state;
use q3_bits::NoMemory;
use q3_clstate::ClState;
use q3_io::Failed;
use std::alloc::AllocError;
use std::mem::replace;

/// Puts a state after bytes, as an index of a demo keeps it. The ages of all snapshots that are held are below 2^32,
/// as they are after 1,048,576 messages at most. `Err` is want of memory; the bytes are as they were then.
pub fn append_state(state: &ClState, into: &mut Vec<u8>) -> Result<(), NoMemory>
    requires ages { HasAges state.now.held }
    ensures { Appends into.old.items into.new.items (state_bytes state.now.profile (saved_in state.now)) result }
{
    let length = into.len();
    let empty = Vec::new(*into.allocator());
    let mut buffer = Buffer::appending(replace(into, empty));
    let written = write_state(state, &mut buffer);
    *into = buffer.into_bytes();
    match written {
        Ok(()) => Ok(()),
        Err(Failed) => {
            into.truncate(length);
            Err(AllocError)
        }
    }
}
