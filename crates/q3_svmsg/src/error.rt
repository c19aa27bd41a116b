//! Why a server's message isn't legible.

ghost use Rattle.std.specs.Prelude.{◌≡◌};
ghost use Rattle.q3_svmsg.specs.declared.error.Illegible.TheVariants.{Bits, Entity, Player};
ghost use Rattle.q3_svmsg.specs.Reading.{operation_error, game_error};

use q3_bits::ReadError;
use q3_config::ConfigError;
use q3_entity::EntityError;
use q3_gamestate::GamestateError;
use q3_player::PlayerError;
use q3_strings::OperationError;

/// The first fault in reading order.
#[derive(Clone, Copy, Debug, PartialEq, Eq)]
pub enum Illegible {
    /// The bits don't read.
    Bits(ReadError),
    /// An operation that may not stand there.
    BadOp(u8),
    /// The entities don't read.
    Entity(EntityError),
    /// The player doesn't read.
    Player(PlayerError),
    /// The area has more than 32 bytes.
    Area(u8),
    /// A config string can't be set: `Index` or `Full`.
    Config(ConfigError),
    /// A string has more than 1,023 bytes, or a config string more than 8,191.
    TextLong,
    /// The config strings of a gamestate give no server id.
    NoServerId,
    /// The last client command executed isn't one that may be acknowledged: it is above the last one issued, or below one
    /// that was acknowledged before. It comes of a client alone, and of no reader.
    Ack(u32),
    /// There is a 65th command.
    Commands,
}

impl From<ReadError> for Illegible {
    ghost from_gives = { λ e f. f ≡ Bits e };

    fn from(e: ReadError) -> Illegible {
        Illegible::Bits(e)
    }
}

impl From<EntityError> for Illegible {
    ghost from_gives = { λ e f. f ≡ Entity e };

    fn from(e: EntityError) -> Illegible {
        Illegible::Entity(e)
    }
}

impl From<PlayerError> for Illegible {
    ghost from_gives = { λ e f. f ≡ Player e };

    fn from(e: PlayerError) -> Illegible {
        Illegible::Player(e)
    }
}

impl From<OperationError> for Illegible {
    ghost from_gives = { λ e f. f ≡ operation_error e };

    fn from(e: OperationError) -> Illegible {
        match e {
            OperationError::Bits(e) => Illegible::Bits(e),
            OperationError::BadOp(operation) => Illegible::BadOp(operation),
            OperationError::TextLong => Illegible::TextLong,
            OperationError::Commands => Illegible::Commands,
        }
    }
}

impl From<GamestateError> for Illegible {
    ghost from_gives = { λ e f. f ≡ game_error e };

    fn from(e: GamestateError) -> Illegible {
        match e {
            GamestateError::Bits(e) => Illegible::Bits(e),
            GamestateError::BadOp(operation) => Illegible::BadOp(operation),
            GamestateError::TextLong => Illegible::TextLong,
            GamestateError::Config(e) => Illegible::Config(e),
            GamestateError::Entity(e) => Illegible::Entity(e),
            GamestateError::NoServerId => Illegible::NoServerId,
        }
    }
}
