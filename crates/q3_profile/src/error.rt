//! Why a file is no profile.

ghost use Rattle.std.specs.Prelude.{◌≡◌};
ghost use Rattle.q3_profile.specs.declared.error.ProfileError.TheVariants as errors;

use q3_bits::CodeError;
use std::alloc::{AllocError, AllocFailed};

/// A key of the file, or the whole file.
#[derive(Clone, Copy, Debug, PartialEq, Eq)]
pub enum Key {
    File,
    Protocol,
    ServerRing,
    ParseRing,
    EntityBits,
    Entity,
    Player,
    Code,
}

impl Key {
    ghost use Rattle.std.specs.Prelude.{◌≡◌};
    ghost use Rattle.q3_profile.specs.Document.{key_name};

    /// The key as the file spells it; the whole file has no name.
    pub fn name(self) -> &'static str
        ensures { result.now ≡ key_name self }
    {
        match self {
            Key::File => "",
            Key::Protocol => "protocol",
            Key::ServerRing => "server_ring",
            Key::ParseRing => "parse_ring",
            Key::EntityBits => "entity_bits",
            Key::Entity => "entity",
            Key::Player => "player",
            Key::Code => "code",
        }
    }
}

/// Why a file is no profile: the first rule that fails, in the order length, document, and for each key in the order
/// of `Key`: missing, of another kind, its own rule.
#[derive(Clone, Copy, Debug, PartialEq, Eq)]
pub enum ProfileError {
    /// Want of memory, and nothing else.
    NoMemory,
    /// Not TOML in UTF-8.
    NotToml,
    /// No such key.
    Missing(Key),
    /// The value, or an item of the array, has another type.
    Kind(Key),
    /// The texts are no code.
    Code(CodeError),
    /// The first width that isn't allowed, by its place.
    Width(Key, usize),
    /// Not 1 to 64 widths.
    Fields(Key),
    /// The file is longer than 1,048,576 bytes, or the number is out of its range.
    Limit(Key),
}

impl From<AllocError> for ProfileError {
    ghost from_gives = { λ _ e. e ≡ errors.NoMemory };

    fn from(_: AllocError) -> ProfileError {
        ProfileError::NoMemory
    }
}

impl<T: Drop> From<AllocFailed<T>> for ProfileError {
    ghost from_gives = { λ _ e. e ≡ errors.NoMemory };

    fn from(_: AllocFailed<T>) -> ProfileError {
        ProfileError::NoMemory
    }
}
