//! The profile's file as a document: what stands under a key.

ghost use Rattle.std.specs.Prelude.{◌≡◌, ◌⊎◌, Some, None, Ok, Err, MatchResult};
ghost use Rattle.std.specs.Option.{is_some};
ghost use Rattle.toml.specs.Data.{as_integer, as_str, get_member};
ghost use Rattle.toml.specs.View.{table_view};
ghost use Rattle.q3_profile.specs.declared.error.ProfileError.TheVariants as errors;
ghost use Rattle.q3_profile.specs.Document.{document_of, key_name, array_at};
ghost use Rattle.q3_profile.specs.Document as spec;
ghost use Rattle.q3_profile.specs.Seen.{seen, seen_items, Gives};
ghost use Rattle.q3_profile.specs.Seen as seen_spec;
ghost use Rattle.q3_bits.specs.CodeWords.{texts_of};
ghost use Rattle.toml.specs.View.{items_view, array_view};

use crate::error::{Key, ProfileError};
use std::alloc::Global;
use toml::{Table, Value};

/// The document that the bytes are.
pub(crate) fn document(alloc: Global, bytes: &[u8]) -> Result<Table, ProfileError>
    ensures { MatchResult result (λ table. document_of bytes.now ≡ Some (table_view table))
        (λ e. (e ≡ errors.NoMemory) ⊎ ((e ≡ errors.NotToml) × (document_of bytes.now ≡ None))) }
{
    match toml::table_from_slice(alloc, bytes) {
        Ok(table) => Ok(table),
        Err(e) => {
            if e.is_memory() {
                Err(ProfileError::NoMemory)
            } else {
                Err(ProfileError::NotToml)
            }
        }
    }
}

/// Whether anything stands under a key.
pub(crate) fn has(document: &Table, key: Key) -> bool
    ensures { result ≡ is_some (get_member (key_name key) (table_view document.now)) }
{
    match document.get(key.name()) {
        Some(_) => true,
        None => false,
    }
}

/// What stands under a key.
fn value_at<'a>(document: &'a Table, key: Key) -> Result<&'a Value, ProfileError>
    ensures { seen result ≡ spec.value_at key (table_view document.now) }
{
    match document.get(key.name()) {
        Some(value) => Ok(value),
        None => Err(ProfileError::Missing(key)),
    }
}

/// The integer under a key.
#[tactic(auto, unfolding(crate::specs::Document::integer_at))]
pub(crate) fn integer_at(document: &Table, key: Key) -> Result<i64, ProfileError>
    ensures { result ≡ spec.integer_at key (table_view document.now) }
{
    match value_at(document, key)?.as_integer() {
        Some(number) => Ok(number),
        None => Err(ProfileError::Kind(key)),
    }
}

/// The items of an array under a key.
fn items_at<'a>(document: &'a Table, key: Key) -> Result<&'a [Value], ProfileError>
    ensures { seen_items result ≡ seen_spec.items_at key (table_view document.now) }
{
    match value_at(document, key)?.as_array() {
        Some(items) => Ok(items.as_slice()),
        None => Err(ProfileError::Kind(key)),
    }
}

/// The integers of an array under a key.
#[tactic(auto, unfolding(crate::specs::Document::array_at))]
pub(crate) fn integers_at(
    alloc: Global,
    document: &Table,
    key: Key,
) -> Result<Vec<i64>, ProfileError>
    ensures { Gives (λ numbers. numbers.items) result (array_at as_integer key (table_view document.now)) }
{
    let items = items_at(document, key)?;
    let mut numbers = Vec::with_capacity(alloc, items.len())?;
    for item in items {
        let Some(number) = item.as_integer() else {
            return Err(ProfileError::Kind(key));
        };
        numbers.push(number)?;
    }
    Ok(numbers)
}

/// The texts of an array under a key.
#[tactic(auto, unfolding(crate::specs::Document::array_at))]
pub(crate) fn texts_at<'a>(
    alloc: Global,
    document: &'a Table,
    key: Key,
) -> Result<Vec<&'a str>, ProfileError>
    ensures { Gives (λ texts. texts_of texts.items) result (array_at as_str key (table_view document.now)) }
{
    let items = items_at(document, key)?;
    let mut texts = Vec::with_capacity(alloc, items.len())?;
    for item in items {
        let Some(text) = item.as_str() else {
            return Err(ProfileError::Kind(key));
        };
        texts.push(text)?;
    }
    Ok(texts)
}
