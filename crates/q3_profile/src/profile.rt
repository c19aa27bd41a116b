//! The profile, this project's own: in the engine its code and tables are part of the program (msg.c), and the sizes of its
//! rings are `numSnapshotEntities` (sv_init.c) and `MAX_PARSE_ENTITIES` (client.h).

ghost use Rattle.std.specs.Prelude.{◌≡◌, IfOk};
ghost use Rattle.q3_profile.specs.Profile.{IsCodec};

use q3_bits::{Code, NoMemory};
use q3_fields::Table;

/// Code words, field tables and sizes that both ends share.
#[derive(Drop)]
pub struct Profile {
    pub code: Code,
    /// The fields of entities, and how many bits an entity's number has.
    pub entity: Table,
    /// The fields of players.
    pub player: Table,
    /// How many entities the server's ring has room for: 256 to 262,144.
    pub server_ring: u32,
    /// How many entities a client's ring has room for: a power of two from 512 to 65,536.
    pub parse_ring: u32,
    /// The protocol: 68, or 71, by which each datagram has a check in its header and nothing is scrambled.
    pub protocol: u32,
    /// A number over the file's bytes.
    pub mark: u64,
}

impl Profile {
    /// The same profile once more. `Err` is want of memory.
    pub fn copy(&self) -> Result<Profile, NoMemory>
        ensures copy { IfOk result (λ copy. copy ≡ self.now) }
        ensures codec { IfOk result (λ _. IsCodec self.now) }
    {
        Ok(Profile {
            code: self.code.copy()?,
            entity: self.entity.copy(),
            player: self.player.copy(),
            server_ring: self.server_ring,
            parse_ring: self.parse_ring,
            protocol: self.protocol,
            mark: self.mark,
        })
    }
}
