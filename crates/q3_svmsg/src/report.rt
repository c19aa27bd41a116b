//! Why a message isn't legible, as reports print it: a word, and for some causes a number after it.

ghost use Rattle.std.specs.Prelude.{◌≡◌};
ghost use Rattle.q3_svmsg.specs.Report as spec;

use crate::error::Illegible;
use q3_bits::bits_word;
use q3_entity::EntityError;
use q3_player::PlayerError;

fn player_word(e: PlayerError) -> &'static [u8]
    ensures { result.now ≡ spec.player_word e }
{
    match e {
        PlayerError::Bits(e) => bits_word(e),
        PlayerError::Count(_) => b"count",
    }
}

fn entity_word(e: EntityError) -> &'static [u8]
    ensures { result.now ≡ spec.entity_word e }
{
    match e {
        EntityError::Bits(e) => bits_word(e),
        EntityError::Count(_) => b"count",
        EntityError::Order(_) => b"order",
        EntityError::Many => b"many",
        EntityError::Removes(_) => b"removes",
    }
}

/// The word of a cause.
pub fn cause_word(cause: Illegible) -> &'static [u8]
    ensures { result.now ≡ spec.cause_word cause }
{
    match cause {
        Illegible::Bits(e) => bits_word(e),
        Illegible::BadOp(_) => b"op",
        Illegible::Entity(e) => entity_word(e),
        Illegible::Player(e) => player_word(e),
        Illegible::Area(_) => b"area",
        Illegible::Config(_) => b"config",
        Illegible::TextLong => b"text",
        Illegible::NoServerId => b"serverid",
        Illegible::Ack(_) => b"ack",
        Illegible::Commands => b"commands",
    }
}

/// The number that is printed after the word of a cause.
pub fn cause_number(cause: Illegible) -> Option<u32>
    ensures { result ≡ spec.cause_number cause }
{
    match cause {
        Illegible::BadOp(byte) => Some(u32::from(byte)),
        Illegible::Ack(number) => Some(number),
        Illegible::Area(count) => Some(u32::from(count)),
        Illegible::Player(PlayerError::Count(count)) => Some(u32::from(count)),
        Illegible::Entity(EntityError::Count(count)) => Some(u32::from(count)),
        Illegible::Entity(EntityError::Order(number)) => Some(u32::from(number)),
        Illegible::Entity(EntityError::Removes(number)) => Some(u32::from(number)),
        _ => None,
    }
}
