//! Why entities can't be read.

ghost use Rattle.q3_entity.specs.declared.error.EntityError.TheVariants.{Bits};
ghost use Rattle.q3_entity.specs.Delta.{entity_error};
ghost use Rattle.std.specs.Prelude.{◌≡◌};

use q3_bits::ReadError;
use q3_fields::DeltaError;

/// The first fault in reading order.
#[derive(Clone, Copy, Debug, PartialEq, Eq)]
pub enum EntityError {
    /// The bits don't read.
    Bits(ReadError),
    /// The count of fields is above the table's.
    Count(u8),
    /// The number isn't above the one before.
    Order(u16),
    /// There would be a 257th entity. One that stays from the base counts once the next number was read, and one that
    /// has an entry once this was.
    Many,
    /// An entity is removed that the base doesn't have.
    Removes(u16),
}

impl From<ReadError> for EntityError {
    ghost from_gives = { λ e f. f ≡ Bits e };

    fn from(e: ReadError) -> EntityError {
        EntityError::Bits(e)
    }
}

impl From<DeltaError> for EntityError {
    ghost from_gives = { λ e f. f ≡ entity_error e };

    fn from(e: DeltaError) -> EntityError {
        match e {
            DeltaError::Bits(e) => EntityError::Bits(e),
            DeltaError::Count(count) => EntityError::Count(count),
        }
    }
}
