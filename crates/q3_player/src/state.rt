//! The state of a player. Keeps the rule "normal form".

ghost use Rattle.std.specs.Prelude.{◌≡◌, length};
ghost use Rattle.q3_player.specs.State.{patterns_of, shorts_of};

use q3_fields::{Table, normalize};

/// A player as the game hands it in and as a snapshot carries it: the words of the table's fields,
/// and four arrays of 16 values, of which the first three hold signed values.
#[derive(Clone, Copy, Debug, PartialEq, Eq)]
pub struct PlayerState {
    /// The word of each field of the table, at its place; a float is its pattern.
    pub words: [u32; 64],
    /// Health, armor and the like, by the game's own places.
    pub stats: [i16; 16],
    /// What outlives a death: score, captures and the like.
    pub persistant: [i16; 16],
    /// How much ammunition there is for each weapon.
    pub ammo: [i16; 16],
    /// Until when each powerup lasts, in milliseconds of the server's time.
    pub powerups: [u32; 16],
}

impl PlayerState {
    ghost use Rattle.q3_player.specs.State.{zero_player, normal_player};

    /// The state with nothing in it.
    #[tactic(auto, unfolding(crate::specs::State::zero_player))]
    pub fn zero() -> PlayerState
        ensures { result ≡ zero_player }
    {
        PlayerState {
            words: [0; 64],
            stats: [0; 16],
            persistant: [0; 16],
            ammo: [0; 16],
            powerups: [0; 16],
        }
    }

    /// The normal form: each word in that of its field, and the words after the table's fields 0.
    pub fn normal(&self, table: &Table) -> PlayerState
        ensures { result ≡ normal_player table.now.kinds self.now }
    {
        let mut normal = *self;
        normalize(table, &mut normal.words);
        normal
    }
}

/// Signed values as words of 32 bits.
pub(crate) fn patterns(values: &[i16; 16]) -> [u32; 16]
    ensures { result ≡ patterns_of values.now }
{
    let mut words = [0; 16];
    for k in 0..16 {
        words[k] = i32::from(values[k]).cast_unsigned();
    }
    words
}

/// The signed values that the low 16 bits of 16 words are.
pub fn shorts(words: &[u32]) -> [i16; 16]
    requires { length words.now ≡ 16 }
    ensures { result ≡ shorts_of words.now }
{
    let mut values = [0; 16];
    for k in 0..16 {
        values[k] = ((words[k] % 65536) as u16).cast_signed();
    }
    values
}
