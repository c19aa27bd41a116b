//! Reads a file whole, up to a limit, and what it spells: a profile, or the events of a script.

ghost use Rattle.std.specs.Prelude.{◌≡◌, ◌⊎◌, ◌+◌, ◌<◌, ◌≤◌, ◌^◌, [], ◌∷◌, All, length, Ok, Err, IfOk, OnOk, MatchResult};
ghost use Rattle.q3_io.specs.Told.{LooksUp};
ghost use Rattle.q3_demo.specs.Running.{AsksOf};
ghost use Rattle.q3_profile.specs.declared.error.ProfileError.TheVariants as errors;
ghost use Rattle.q3_profile.specs.Profile.{IsProfile, checked, longest_profile};
ghost use Rattle.q3_script.specs.Grammar.{IsEventOf, AreOrdered};
ghost use Rattle.q3_script.specs.Script.{most_events};
ghost use Rattle.q3_runs.specs.Faults.{ReadCause};
ghost use Rattle.q3_runs.specs.Input.{ReadsFile, ReadsPieces, Finds, Gives, AsksOfName, as_told, with_items, document_memory, most_memory};
ghost use Rattle.q3_runs.specs.Input as spec;
ghost use Rattle.q3_runs.specs.Verdict.{GetsFrom, profile_in, events_in, with_events};

use crate::fault::Fault;
use q3_io::Files;
use q3_profile::{LONGEST_PROFILE, Profile, ProfileError, read_profile};
use q3_script::{Event, LONGEST_SCRIPT, ScriptKind, read_script};
use std::alloc::Global;

/// How many bytes are asked for at a time.
const PIECE: usize = 65_536;

/// How much memory the tables and keys of a profile's document may take, in bytes, as far as the file tells.
const MOST_MEMORY: usize = 33_554_432;

/// What a table takes that isn't empty, and what a key does, as `toml` keeps them.
const TABLE: usize = 1_280;

const KEY: usize = 224;

/// Reads the profile of this name, and checks it.
pub fn load_profile<F: Files>(alloc: Global, name: &str, files: &mut F) -> Result<Profile, Fault>
    ensures gets { GetsFrom profile_in (F.told files.old) name.now result }
    ensures passes { IfOk result IsProfile }
    ensures gives { Gives result (name.now ∷ []) (F.told files.old) (F.told files.new) }
    ensures asks { AsksOfName name.now (F.told files.old) (F.told files.new) }
    ensures writes { F.write_faults files.new ≡ F.write_faults files.old }
    ensures read_cause { ReadCause (F.faults files.old) (F.faults files.new) result }
{
    let bytes = read_file(alloc, name, LONGEST_PROFILE, files)?;
    Ok(parse_profile(alloc, &bytes)?)
}

/// The profile of a file's bytes, as `read_profile` has it. A document whose tables and keys may take too much counts as want of memory: two
/// bytes may begin a table.
fn parse_profile(alloc: Global, bytes: &[u8]) -> Result<Profile, ProfileError>
    ensures exact { MatchResult result (λ profile. checked bytes.now ≡ Ok profile)
        (λ e. (e ≡ errors.NoMemory) ⊎ (checked bytes.now ≡ Err e)) }
    ensures is_profile { IfOk result IsProfile }
    ensures large { length bytes.now ≤ longest_profile → most_memory < document_memory bytes.now
        → result ≡ Err errors.NoMemory }
{
    if bytes.len() <= LONGEST_PROFILE && memory_of(bytes) > MOST_MEMORY {
        return Err(ProfileError::NoMemory);
    }
    read_profile(alloc, bytes)
}

/// Whether a byte may begin a table.
fn may_begin_table(byte: u8) -> bool
    ensures { result ≡ spec.may_begin_table byte }
{
    byte == b'.' || byte == b'[' || byte == b'{'
}

/// How much memory a document may take: each of these bytes may begin a table, or end a key, or stand in a text or a comment.
fn memory_of(bytes: &[u8]) -> usize
    requires { length bytes.now ≤ longest_profile }
    ensures { result ≡ document_memory bytes.now }
{
    let tables = bytes.iter().filter(|byte| may_begin_table(**byte)).count();
    let keys = bytes.iter().filter(|byte| **byte == b'=').count();
    TABLE * tables + KEY * keys
}

/// Reads the script of this name, of a kind.
pub fn load_events<F: Files>(
    alloc: Global,
    kind: ScriptKind,
    name: &str,
    files: &mut F,
) -> Result<Vec<Event>, Fault>
    ensures gets { GetsFrom (events_in kind) (F.told files.old) name.now (with_events result) }
    ensures each { IfOk result (λ events. All (IsEventOf kind) events.items) }
    ensures ordered { IfOk result (λ events. AreOrdered kind events.items) }
    ensures few { IfOk result (λ events. length events.items ≤ most_events) }
    ensures gives { Gives result (name.now ∷ []) (F.told files.old) (F.told files.new) }
    ensures writes { F.write_faults files.new ≡ F.write_faults files.old }
    ensures read_cause { ReadCause (F.faults files.old) (F.faults files.new) result }
{
    let bytes = read_file(alloc, name, LONGEST_SCRIPT, files)?;
    Ok(read_script(alloc, kind, &bytes)?)
}

/// The number of the file of this name. `Read` comes where the files' count of faults rose.
pub(crate) fn find_file<F: Files>(name: &str, files: &mut F) -> Result<usize, Fault>
    ensures given { IfOk result (λ file. file < F.given files.new) }
    ensures more { OnOk result (F.given files.old ≤ F.given files.new) }
    ensures looks { LooksUp (F.told files.old) (F.told files.new) name.now (as_told result) }
    ensures finds { Finds name.now (F.told files.old) (F.told files.new) result }
    ensures gives { Gives result (name.now ∷ []) (F.told files.old) (F.told files.new) }
    ensures cause { ReadCause (F.faults files.old) (F.faults files.new) result }
    ensures writes { F.write_faults files.new ≡ F.write_faults files.old }
{
    let Ok(file) = files.lookup(name) else {
        return Err(Fault::Read);
    };
    Ok(file)
}

/// The bytes of the file of this name: all of them, or a front that is longer than the limit.
/// `Read` comes where the files' count of faults rose, and `NoMemory` is want of memory.
pub(crate) fn read_file<F: Files>(
    alloc: Global,
    name: &str,
    most: usize,
    files: &mut F,
) -> Result<Vec<u8>, Fault>
    requires { most < 2 ^ 32 }
    ensures reads { ReadsFile most name.now (F.told files.old) (with_items result) }
    ensures gives { Gives result (name.now ∷ []) (F.told files.old) (F.told files.new) }
    ensures asks { AsksOfName name.now (F.told files.old) (F.told files.new) }
    ensures cause { ReadCause (F.faults files.old) (F.faults files.new) result }
    ensures writes { F.write_faults files.new ≡ F.write_faults files.old }
{
    let Ok(file) = files.lookup(name) else {
        return Err(Fault::Read);
    };
    let mut piece = vec![in alloc; 0; PIECE]?;
    read_pieces(alloc, file, most, files, &mut piece)
}

/// Reads a file piece by piece, each into the same buffer, until it ends or more than the limit was read.
fn read_pieces<F: Files>(
    alloc: Global,
    file: usize,
    most: usize,
    files: &mut F,
    piece: &mut [u8],
) -> Result<Vec<u8>, Fault>
    requires given { file < F.given files.old }
    requires some { 0 < length piece.old }
    requires few { most + length piece.old < 2 ^ 33 }
    ensures reads { ReadsPieces most file (F.told files.old) (F.told files.new) (with_items result) }
    ensures only { AsksOf file (F.told files.old) (F.told files.new) }
    ensures cause { ReadCause (F.faults files.old) (F.faults files.new) result }
    ensures writes { F.write_faults files.new ≡ F.write_faults files.old }
{
    let mut bytes = Vec::new(alloc);
    while bytes.len() <= most {
        let Ok(count) = files.read_at(file, bytes.len() as u64, piece) else {
            return Err(Fault::Read);
        };
        if count == 0 {
            return Ok(bytes);
        }
        bytes.extend_from_slice(&piece[..count])?;
    }
    Ok(bytes)
}
