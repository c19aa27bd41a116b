//! The leading longs of a client's message, by which the server knows whose key and which map the rest is for. The
//! engine's `SV_ExecuteClientMessage` (sv_client.c) reads them first.

ghost use Rattle.std.specs.Prelude.{◌≡◌};
ghost use Rattle.q3_bits.specs.Bits.{bits_of};
ghost use Rattle.q3_bits.specs.Streams.{Reads};
ghost use Rattle.q3_clmsg.specs.Reading.{heads_at, heads_in};

use q3_bits::{Code, LONG, ReadError, Reader};

/// What a message says before its operations, and how many bits that takes.
#[derive(Clone, Copy, Debug, PartialEq, Eq)]
pub struct Heads {
    /// The id of the server's map that the client plays, 0 before it knows one.
    pub id: u32,
    /// The number of the newest server message that came whole.
    pub acknowledged: u32,
    /// The number of the last server command that the client executed.
    pub command: u32,
    /// How many bits the three take.
    pub bits: usize,
}

/// Reads the three leading longs. `End` and `NoWord` come as in `Reader::get`.
pub fn read_heads(code: &Code, bytes: &[u8]) -> Result<Heads, ReadError>
    ensures { result ≡ heads_in code.now (bits_of bytes.now) }
{
    heads_from(&mut Reader::new(code, bytes))
}

/// Reads the three longs from the first bit on.
#[tactic(auto, unfolding(crate::specs::Reading::heads_at))]
pub(crate) fn heads_from(r: &mut Reader) -> Result<Heads, ReadError>
    requires { r.old.place ≡ 0 }
    ensures { Reads r.old r.new (heads_at r.old.words r.old.left) result }
{
    let id = r.get(LONG)?;
    let acknowledged = r.get(LONG)?;
    let command = r.get(LONG)?;
    Ok(Heads {
        id,
        acknowledged,
        command,
        bits: r.place(),
    })
}
