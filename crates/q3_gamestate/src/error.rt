//! Why a gamestate isn't legible.

ghost use Rattle.std.specs.Prelude.{◌≡◌};
ghost use Rattle.q3_gamestate.specs.declared.error.GamestateError.TheVariants.{Bits, Config, Entity};
ghost use Rattle.q3_gamestate.specs.Reading.{string_error};

use q3_bits::ReadError;
use q3_config::ConfigError;
use q3_entity::EntityError;
use q3_strings::StringError;

/// The first fault in reading order.
#[derive(Clone, Copy, Debug, PartialEq, Eq)]
pub enum GamestateError {
    /// The bits don't read.
    Bits(ReadError),
    /// An operation other than those of a config string, of a baseline, and of the end.
    BadOp(u8),
    /// A config string has more than 8,191 bytes.
    TextLong,
    /// A config string can't be set: `Index` or `Full`.
    Config(ConfigError),
    /// A baseline doesn't read.
    Entity(EntityError),
    /// The config strings give no server id.
    NoServerId,
}

impl From<ReadError> for GamestateError {
    ghost from_gives = { λ e f. f ≡ Bits e };

    fn from(e: ReadError) -> GamestateError {
        GamestateError::Bits(e)
    }
}

impl From<ConfigError> for GamestateError {
    ghost from_gives = { λ e f. f ≡ Config e };

    fn from(e: ConfigError) -> GamestateError {
        GamestateError::Config(e)
    }
}

impl From<EntityError> for GamestateError {
    ghost from_gives = { λ e f. f ≡ Entity e };

    fn from(e: EntityError) -> GamestateError {
        GamestateError::Entity(e)
    }
}

impl From<StringError> for GamestateError {
    ghost from_gives = { λ e f. f ≡ string_error e };

    fn from(e: StringError) -> GamestateError {
        match e {
            StringError::Bits(e) => GamestateError::Bits(e),
            StringError::Long => GamestateError::TextLong,
        }
    }
}
