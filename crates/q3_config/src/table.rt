//! The strings themselves. Each lies somewhere in one piece of memory, and a new one goes after all others: so what it
//! costs to set a string doesn't grow with the other strings. The engine's `gameState_t` (q_shared.h) has them one after
//! the other, and is made anew for each change.

ghost use Rattle.std.specs.Prelude.{◌≡◌, ℕ, ◌+◌, ◌≤◌, ◌<◌, ◌^◌, [], ◌++◌, length, map, replicate, nat_le, slice_index_or, slice_set, vec_capacity, IfOk, Option};
ghost use Rattle.std.specs.List.{concat};
ghost use Rattle.std.specs.Str.{bytes_eq};
ghost use Rattle.q3_text.specs.Texts.{translated};
ghost use Rattle.q3_config.specs.Strings.{Pending, places, longest_string, most_size, config_size, room_fault, set_fault, refused, after_set};
ghost use Rattle.q3_config.specs.Strings as spec;
ghost use Rattle.q3_config.specs.Changes.{make_change};
ghost use Rattle.q3_config.specs.Parts.{strings_with, attempted};
ghost use Rattle.q3_config.specs.Table.{room, text_in, texts_in, LieWithin};

use crate::error::ConfigError;
use crate::limits::{LONGEST_STRING, MOST_SIZE, STRINGS};
use q3_bits::NoMemory;
use q3_text::translate;
use std::alloc::Global;
use std::marker::Model;
use std::mem::swap;

/// How many bytes there is room for: those of strings of the greatest size, and of as many texts that have others in
/// their place by now.
const ROOM: usize = 32_768;

/// Where a string lies: at which byte it starts, and how many it has.
#[derive(Clone, Copy)]
pub(crate) struct Place {
    pub start: usize,
    pub length: usize,
}

/// Where a string lies that isn't set.
const NOWHERE: Place = Place {
    start: 0,
    length: 0,
};

/// Strings by their index. The bytes of a string that has another in its place stay where they are, until there is no
/// room for a new one: then all strings are copied into the spare bytes, which take the place of the bytes. After that
/// more than half of the room is free, so it comes at most once for every 8,000 bytes that are set.
#[derive(Drop)]
pub(crate) struct Table {
    bytes: Vec<u8>,
    spare: Vec<u8>,
    places: Vec<Place>,
    size: usize,
}

impl Model for Table {
    ghost use Rattle.std.specs.Prelude.{◌≡◌, ◌≤◌, ℕ, List, vec_capacity};
    ghost use Rattle.q3_config.specs.Strings.{most_size, config_size};
    ghost use Rattle.q3_config.specs.Table.{room, texts_in, LieWithin};

    ghost Value = { List (List ℕ) };

    ghost view = { λ t. texts_in t.bytes.items t.places.items };

    ghost invariant = { λ t. LieWithin t.bytes.items t.places.items
        × (t.size ≡ config_size (texts_in t.bytes.items t.places.items))
        × (t.size ≤ most_size) × (room ≤ vec_capacity t.bytes) × (room ≤ vec_capacity t.spare) };
}

impl Table {
    /// No string is set. `Err` is want of memory.
    pub fn new(alloc: Global) -> Result<Table, NoMemory>
        ensures { IfOk result (λ made. made ≡ replicate places []) }
    {
        Ok(Table {
            bytes: Vec::with_capacity(alloc, ROOM)?,
            spare: Vec::with_capacity(alloc, ROOM)?,
            places: vec![in alloc; NOWHERE; STRINGS as usize]?,
            size: 1,
        })
    }

    /// The string at an index, and none past the last index.
    pub fn string(&self, index: u32) -> &[u8]
        requires { length self.now ≡ places }
        ensures { result.now ≡ slice_index_or self.now index [] }
    {
        if index < STRINGS {
            self.get(index as usize)
        } else {
            &[]
        }
    }

    /// One, and for each string that isn't empty its bytes and one more.
    pub fn size(&self) -> usize
        ensures size { result ≡ config_size self.now }
        ensures most { result ≤ most_size }
    {
        self.size
    }

    /// Takes the bytes of all strings away.
    pub fn clear(&mut self)
        ensures { self.new ≡ replicate (length self.old) [] }
    {
        self.bytes.clear();
        self.places.fill(NOWHERE);
        self.size = 1;
    }

    /// Sets the string at an index, or leaves the strings as they are and says why.
    pub fn set(&mut self, index: u32, text: &[u8]) -> Result<(), ConfigError>
        requires { length self.old ≡ places }
        ensures answer { (pending : Option Pending)
            → result ≡ refused (set_fault (strings_with pending self.old) index text.now) }
        ensures texts { (pending : Option Pending) → strings_with pending self.new
            ≡ after_set (strings_with pending self.old) index text.now
            (set_fault (strings_with pending self.old) index text.now) }
    {
        self.check(index, text)?;
        self.put(index as usize, text);
        Ok(())
    }

    /// Sets the string at an index where it is another, and says whether it was. `None` where it can't be set.
    pub fn change(&mut self, index: u32, text: &[u8]) -> Option<bool>
        requires { length self.old ≡ places }
        ensures { (pending : Option Pending)
            → attempted pending self.new result ≡ make_change (strings_with pending self.old) index text.now }
    {
        if self.has(index, text) {
            return Some(false);
        }
        self.set(index, text).ok()?;
        Some(true)
    }

    /// What is wrong with a text as such: it is too long, or the strings with it would be too large.
    pub fn check_room(&self, index: usize, text: &[u8]) -> Result<(), ConfigError>
        requires { index < length self.now }
        ensures { (pending : Option Pending)
            → result ≡ refused (room_fault (strings_with pending self.now) index text.now) }
    {
        if text.len() > LONGEST_STRING {
            return Err(ConfigError::Long);
        }
        if self.fits(index, text) {
            Ok(())
        } else {
            Err(ConfigError::Full)
        }
    }

    /// What is wrong with a text for an index.
    #[tactic(auto, unfolding(crate::specs::Strings::set_fault))]
    fn check(&self, index: u32, text: &[u8]) -> Result<(), ConfigError>
        requires { length self.now ≡ places }
        ensures { (pending : Option Pending) → result ≡ refused
            (set_fault (strings_with pending self.now) index text.now) }
    {
        if index >= STRINGS {
            return Err(ConfigError::Index);
        }
        self.check_room(index as usize, text)
    }

    /// Whether the string at an index is this text, each byte translated.
    pub fn has(&self, index: u32, text: &[u8]) -> bool
        requires { length self.now ≡ places }
        ensures { result ≡ bytes_eq (slice_index_or self.now index []) (map translated text.now) }
    {
        is_translated(self.string(index), text)
    }

    /// The string at an index.
    fn get(&self, index: usize) -> &[u8]
        requires { index < length self.now }
        ensures { result.now ≡ slice_index_or self.now index [] }
    {
        text_at(&self.bytes, self.places[index])
    }

    /// Whether the strings with this one at an index are within the greatest size.
    fn fits(&self, index: usize, text: &[u8]) -> bool
        requires { index < length self.now }
        ensures { result ≡ nat_le (config_size (slice_set self.now index (map translated text.now))) most_size }
    {
        self.size_with(index, text) <= MOST_SIZE
    }

    /// Puts a text in the place of the string at an index, each byte translated.
    fn put(&mut self, index: usize, text: &[u8])
        requires index { index < length self.old }
        requires short { length text.now ≤ longest_string }
        requires fits { config_size (slice_set self.old index (map translated text.now)) ≤ most_size }
        ensures { self.new ≡ slice_set self.old index (map translated text.now) }
    {
        self.size = self.size_with(index, text);
        make_room(
            &mut self.bytes,
            &mut self.spare,
            &mut self.places,
            text.len(),
        );
        put_at(&mut self.bytes, &mut self.places, index, text);
    }

    /// The size of the strings with this one at an index.
    fn size_with(&self, index: usize, text: &[u8]) -> usize
        requires { index < length self.now }
        ensures { result ≡ config_size (slice_set self.now index (map translated text.now)) }
    {
        self.size + size_of(text) - size_of(self.get(index))
    }
}

/// Whether bytes are these others, each translated.
fn is_translated(bytes: &[u8], text: &[u8]) -> bool
    ensures { result ≡ bytes_eq bytes.now (map translated text.now) }
{
    if bytes.len() != text.len() {
        return false;
    }
    for (place, byte) in text.iter().enumerate() {
        if bytes[place] != translate(*byte) {
            return false;
        }
    }
    true
}

/// What a string adds to the size.
fn size_of(text: &[u8]) -> usize
    requires { length text.now < 2 ^ 63 }
    ensures { result ≡ spec.size_of text.now }
{
    if text.is_empty() { 0 } else { text.len() + 1 }
}

/// The string at a place.
fn text_at(bytes: &[u8], place: Place) -> &[u8]
    requires { place.start + place.length ≤ length bytes.now }
    ensures { result.now ≡ text_in bytes.now place }
{
    &bytes[place.start..][..place.length]
}

/// Sees to it that there is room for so many bytes.
fn make_room(bytes: &mut Vec<u8>, spare: &mut Vec<u8>, places: &mut Vec<Place>, count: usize)
    requires within { LieWithin bytes.old.items places.old.items }
    requires few { length (concat (texts_in bytes.old.items places.old.items)) + count ≤ room }
    requires bytes_room { room ≤ vec_capacity bytes.old }
    requires spare_room { room ≤ vec_capacity spare.old }
    ensures within { LieWithin bytes.new.items places.new.items }
    ensures texts { texts_in bytes.new.items places.new.items ≡ texts_in bytes.old.items places.old.items }
    ensures free { length bytes.new.items + count ≤ room }
    ensures bytes_room { room ≤ vec_capacity bytes.new }
    ensures spare_room { room ≤ vec_capacity spare.new }
{
    if bytes.len() + count > ROOM {
        gather(bytes, spare, places);
        swap(bytes, spare);
    }
}

/// Copies all strings, one after the other, and says where each lies then.
fn gather(bytes: &[u8], into: &mut Vec<u8>, places: &mut Vec<Place>)
    requires within { LieWithin bytes.now places.old.items }
    requires room { length (concat (texts_in bytes.now places.old.items)) ≤ vec_capacity into.old }
    ensures within { LieWithin into.new.items places.new.items }
    ensures texts { texts_in into.new.items places.new.items ≡ texts_in bytes.now places.old.items }
    ensures bytes { into.new.items ≡ concat (texts_in bytes.now places.old.items) }
    ensures room { vec_capacity into.old ≤ vec_capacity into.new }
{
    into.clear();
    for place in places.iter_mut() {
        *place = copy(bytes, into, *place);
    }
}

/// Copies a string after others, and says where it lies there.
fn copy(bytes: &[u8], into: &mut Vec<u8>, place: Place) -> Place
    requires within { place.start + place.length ≤ length bytes.now }
    requires room { length into.old.items + place.length ≤ vec_capacity into.old }
    ensures items { into.new.items ≡ into.old.items ++ text_in bytes.now place }
    ensures place { result ≡ record { start = length into.old.items; length = place.length } }
    ensures room { vec_capacity into.old ≤ vec_capacity into.new }
{
    let start = into.len();
    let _ = into.extend_from_slice(text_at(bytes, place));
    Place {
        start,
        length: place.length,
    }
}

/// Puts a text in the place of the string at an index, each byte translated.
fn put_at(bytes: &mut Vec<u8>, places: &mut Vec<Place>, index: usize, text: &[u8])
    requires within { LieWithin bytes.old.items places.old.items }
    requires index { index < length places.old.items }
    requires room { length bytes.old.items + length text.now ≤ vec_capacity bytes.old }
    ensures within { LieWithin bytes.new.items places.new.items }
    ensures texts { texts_in bytes.new.items places.new.items ≡ slice_set
        (texts_in bytes.old.items places.old.items) index (map translated text.now) }
    ensures room { vec_capacity bytes.old ≤ vec_capacity bytes.new }
{
    places[index] = Place {
        start: bytes.len(),
        length: text.len(),
    };
    extend(bytes, text);
}

/// Puts a text after bytes, each byte translated.
fn extend(bytes: &mut Vec<u8>, text: &[u8])
    requires { length bytes.old.items + length text.now ≤ vec_capacity bytes.old }
    ensures items { bytes.new.items ≡ bytes.old.items ++ map translated text.now }
    ensures room { vec_capacity bytes.old ≤ vec_capacity bytes.new }
{
    for byte in text {
        let _ = bytes.push(translate(*byte));
    }
}
