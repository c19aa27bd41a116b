//! The numbers of a profile, each with its rule: the protocol, and what the engine fixes as `numSnapshotEntities`,
//! `MAX_PARSE_ENTITIES` and `GENTITYNUM_BITS`. The bounds are this project's own.

ghost use Rattle.std.specs.Prelude.{◌≡◌, ◌&&◌, nat_le, IfOk};
ghost use Rattle.toml.specs.View.{table_view};
ghost use Rattle.q3_profile.specs.declared.error.Key.TheVariants as keys;
ghost use Rattle.q3_profile.specs.Profile.{number_or, is_protocol, is_server_ring, is_parse_ring, is_entity_bits};
ghost use Rattle.q3_profile.specs.Profile as spec;
ghost use Rattle.q3_fields.specs.Kinds.{HasNumberBits, least_number_bits};

use crate::document::{has, integer_at};
use crate::error::{Key, ProfileError};
use q3_fields::{LEAST_NUMBER_BITS, MOST_NUMBER_BITS};
use toml::Table;

/// The number under a key, which is `least` to `most`.
fn number_at(document: &Table, key: Key, least: u32, most: u32) -> Result<u32, ProfileError>
    ensures { result ≡ spec.number_at key (λ n. nat_le least n && nat_le n most) (table_view document.now) }
{
    let number = integer_at(document, key)?;
    match u32::try_from(number) {
        Ok(number) if number >= least && number <= most => Ok(number),
        _ => Err(ProfileError::Limit(key)),
    }
}

/// The protocol: 68 or 71.
pub(crate) fn protocol_at(document: &Table) -> Result<u32, ProfileError>
    ensures { result ≡ spec.number_at keys.Protocol is_protocol (table_view document.now) }
{
    let number = number_at(document, Key::Protocol, 68, 71)?;
    if number != 68 && number != 71 {
        return Err(ProfileError::Limit(Key::Protocol));
    }
    Ok(number)
}

/// How many entities the server's ring has room for.
pub(crate) fn server_ring_at(document: &Table) -> Result<u32, ProfileError>
    ensures { result ≡ spec.number_at keys.ServerRing is_server_ring (table_view document.now) }
{
    number_at(document, Key::ServerRing, 256, 262_144)
}

/// How many entities a client's ring has room for: a power of two.
pub(crate) fn parse_ring_at(document: &Table) -> Result<u32, ProfileError>
    ensures { result ≡ spec.number_at keys.ParseRing is_parse_ring (table_view document.now) }
{
    let number = number_at(document, Key::ParseRing, 512, 65_536)?;
    if !number.is_power_of_two() {
        return Err(ProfileError::Limit(Key::ParseRing));
    }
    Ok(number)
}

/// How many bits the number of an entity has, which is the engine's 10 where the key is missing.
pub(crate) fn entity_bits_at(document: &Table) -> Result<u8, ProfileError>
    ensures number { result ≡ number_or least_number_bits keys.EntityBits is_entity_bits (table_view document.now) }
    ensures bits { IfOk result HasNumberBits }
{
    if !has(document, Key::EntityBits) {
        return Ok(LEAST_NUMBER_BITS);
    }
    let least = u32::from(LEAST_NUMBER_BITS);
    let most = u32::from(MOST_NUMBER_BITS);
    Ok(number_at(document, Key::EntityBits, least, most)? as u8)
}
