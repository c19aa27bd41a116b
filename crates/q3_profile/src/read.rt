//! Reads a profile's file. The file and its rules are this project's own.

ghost use Rattle.std.specs.Prelude.{◌≡◌, ◌⊎◌, IfOk, IfErr, MatchResult};
ghost use Rattle.toml.specs.Data.{as_integer, as_str};
ghost use Rattle.toml.specs.View.{table_view};
ghost use Rattle.q3_bits.specs.CodeWords.{texts_of};
ghost use Rattle.q3_profile.specs.declared.error.Key.TheVariants as keys;
ghost use Rattle.q3_profile.specs.declared.error.ProfileError.TheVariants as errors;
ghost use Rattle.q3_fields.specs.Kinds.{HasNumberBits};
ghost use Rattle.q3_profile.specs.Document.{array_at};
ghost use Rattle.q3_profile.specs.Profile.{checked, IsProfile};
ghost use Rattle.q3_profile.specs.Profile as spec;
ghost use Rattle.q3_profile.specs.Laws.{NamesRule};
ghost use Rattle.q3_profile.specs.Seen.{Gives};

use crate::document::{document, integers_at, texts_at};
use crate::error::{Key, ProfileError};
use crate::mark::mark;
use crate::numbers::{entity_bits_at, parse_ring_at, protocol_at, server_ring_at};
use crate::profile::Profile;
use q3_bits::{Code, CodeError};
use q3_fields::{LEAST_NUMBER_BITS, Table, TableError};
use std::alloc::Global;

/// The longest file, in bytes.
pub const LONGEST_PROFILE: usize = 1_048_576;

/// The profile of a file's bytes, a TOML document in UTF-8 of at most 1,048,576 bytes. Unknown keys are passed over.
/// `Err` is the first rule that fails, or want of memory: the length, the document, and then the keys in the order
/// `protocol`, `server_ring`, `parse_ring`, `entity_bits`, `entity`, `player`, `code`, each with `Missing`, `Kind` and its own
/// rule. `entity_bits` alone may be missing, and is then 10. The rules of `entity` and `player` are those of `Table::numbered`,
/// and that of `code` is `Code::from_words`'s.
#[tactic(auto, unfolding(crate::specs::Profile::checked))]
pub fn read_profile(alloc: Global, bytes: &[u8]) -> Result<Profile, ProfileError>
    ensures exact { MatchResult result (λ profile. checked bytes.now ≡ Ok profile)
        (λ e. (e ≡ errors.NoMemory) ⊎ (checked bytes.now ≡ Err e)) }
    ensures rule { IfErr result (λ e. (e ≡ errors.NoMemory) ⊎ NamesRule e) }
    ensures is_profile { IfOk result IsProfile }
{
    if bytes.len() > LONGEST_PROFILE {
        return Err(ProfileError::Limit(Key::File));
    }
    let document = document(alloc, bytes)?;
    profile_at(alloc, &document, mark(bytes))
}

/// The profile of a document, whose file has this mark.
#[tactic(auto, unfolding(crate::specs::Profile::profile_at))]
fn profile_at(alloc: Global, document: &toml::Table, mark: u64) -> Result<Profile, ProfileError>
    ensures exact { Gives (λ profile. profile) result (spec.profile_at mark (table_view document.now)) }
    ensures is_profile { IfOk result IsProfile }
{
    let protocol = protocol_at(document)?;
    let server_ring = server_ring_at(document)?;
    let parse_ring = parse_ring_at(document)?;
    let entity_bits = entity_bits_at(document)?;
    let entity = table_at(alloc, document, Key::Entity, entity_bits)?;
    let player = table_at(alloc, document, Key::Player, LEAST_NUMBER_BITS)?;
    let texts = texts_at(alloc, document, Key::Code)?;
    let code = code_of(alloc, &texts)?;
    Ok(Profile {
        code,
        entity,
        player,
        server_ring,
        parse_ring,
        protocol,
        mark,
    })
}

/// The table of the widths under a key, in which the number of an entity has so many bits.
fn table_at(
    alloc: Global,
    document: &toml::Table,
    key: Key,
    bits: u8,
) -> Result<Table, ProfileError>
    requires bits { HasNumberBits bits }
    ensures exact { Gives (λ table. table) result (spec.table_at key bits (table_view document.now)) }
{
    let widths = integers_at(alloc, document, key)?;
    match Table::numbered(&widths, bits) {
        Ok(table) => Ok(table),
        Err(TableError::Fields) => Err(ProfileError::Fields(key)),
        Err(TableError::Width(i)) => Err(ProfileError::Width(key, i)),
    }
}

/// The code of these texts.
fn code_of(alloc: Global, texts: &[&str]) -> Result<Code, ProfileError>
    ensures exact { Gives (λ code. code) result (spec.code_of (texts_of texts.now)) }
{
    match Code::from_words(alloc, texts) {
        Ok(code) => Ok(code),
        Err(CodeError::NoMemory) => Err(ProfileError::NoMemory),
        Err(e) => Err(ProfileError::Code(e)),
    }
}
