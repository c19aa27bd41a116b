//! Texts in one piece of memory, which is taken when they are made.

ghost use Rattle.std.specs.Prelude.{◌≡◌, ◌+◌, ◌-◌, ◌≤◌, ◌<◌, ◌^◌, [], ◌∷◌, ◌++◌, length, take, drop, slice_index_or, slice_set, vec_capacity, IfOk};
ghost use Rattle.q3_testio.specs.Texts.{LieInTurn, StartsAt};

use q3_io::NoMemory;
use std::alloc::Global;
use std::marker::Model;

/// Texts, which lie one after the other, with room for so many and for so many bytes.
#[derive(Drop)]
pub struct Texts {
    bytes: Vec<u8>,
    lengths: Vec<usize>,
    room: usize,
    most: usize,
}

impl Model for Texts {
    ghost use Rattle.std.specs.Prelude.{◌≤◌, ◌-◌, length, vec_capacity};
    ghost use Rattle.q3_testio.specs.Texts.{TextsState, texts_of, LieInTurn};

    ghost Value = { TextsState };

    ghost view = { λ t. record {
      texts = texts_of t.lengths.items t.bytes.items;
      spare = t.most - length t.lengths.items;
      room = t.room - length t.bytes.items;
    } };

    ghost invariant = { λ t. LieInTurn t.lengths.items t.bytes.items
        × (length t.bytes.items ≤ t.room) × (t.room ≤ vec_capacity t.bytes)
        × (length t.lengths.items ≤ t.most) × (t.most ≤ vec_capacity t.lengths) };
}

#[tactic(auto, using(crate::proofs::TextPlaces::length_texts_of))]
impl Texts {
    /// No texts, with room for so many, and for so many bytes.
    #[tactic(auto, unfolding(crate::specs::Texts::texts_of))]
    pub fn new(alloc: Global, texts: usize, room: usize) -> Result<Texts, NoMemory>
        ensures { IfOk result (λ new. new ≡ record { texts = []; spare = texts; room = room }) }
    {
        Ok(Texts {
            bytes: Vec::with_capacity(alloc, room)?,
            lengths: Vec::with_capacity(alloc, texts)?,
            room,
            most: texts,
        })
    }

    pub fn count(&self) -> usize
        ensures { result ≡ length self.now.texts }
    {
        self.lengths.len()
    }

    /// There may be so many texts more.
    pub fn spare(&self) -> usize
        ensures { result ≡ self.now.spare }
    {
        self.most - self.lengths.len()
    }

    /// The text at a place.
    pub fn get(&self, place: usize) -> &[u8]
        requires { place < length self.now.texts }
        ensures { result.now ≡ slice_index_or self.now.texts place [] }
    {
        let start = start_of(&self.lengths, &self.bytes, place);
        &self.bytes[start..start + self.lengths[place]]
    }

    /// Puts a text after the others.
    pub fn push(&mut self, text: &[u8])
        requires spare { 0 < self.old.spare }
        requires room { length text.now ≤ self.old.room }
        ensures texts { self.new.texts ≡ self.old.texts ++ text.now ∷ [] }
        ensures left { self.new.spare ≡ self.old.spare - 1 }
        ensures room { self.new.room ≡ self.old.room - length text.now }
    {
        self.lengths.push_reserved(text.len());
        extend(&mut self.bytes, text);
    }

    /// Puts bytes after those of the text at a place.
    pub fn add(&mut self, place: usize, bytes: &[u8])
        requires within { place < length self.old.texts }
        requires room { length bytes.now ≤ self.old.room }
        ensures texts { self.new.texts ≡ slice_set self.old.texts place
            (slice_index_or self.old.texts place [] ++ bytes.now) }
        ensures left { self.new.spare ≡ self.old.spare }
        ensures room { self.new.room ≡ self.old.room - length bytes.now }
    {
        let end = start_of(&self.lengths, &self.bytes, place) + self.lengths[place];
        insert(&mut self.bytes, end, bytes);
        self.lengths[place] += bytes.len();
    }

    /// Puts bytes in place of those of the text at a place.
    pub fn put(&mut self, place: usize, bytes: &[u8])
        requires within { place < length self.old.texts }
        requires room { length bytes.now ≤ self.old.room }
        ensures texts { self.new.texts ≡ slice_set self.old.texts place bytes.now }
        ensures left { self.new.spare ≡ self.old.spare }
        ensures room { self.new.room ≡ self.old.room + length
            (slice_index_or self.old.texts place []) - length bytes.now }
    {
        self.clear(place);
        self.add(place, bytes);
    }

    /// Takes the bytes of the text at a place away.
    fn clear(&mut self, place: usize)
        requires within { place < length self.old.texts }
        ensures texts { self.new.texts ≡ slice_set self.old.texts place [] }
        ensures left { self.new.spare ≡ self.old.spare }
        ensures room { self.new.room ≡ self.old.room + length (slice_index_or self.old.texts place []) }
    {
        let start = start_of(&self.lengths, &self.bytes, place);
        remove(&mut self.bytes, start, self.lengths[place]);
        self.lengths[place] = 0;
    }
}

/// Where the text at a place starts.
fn start_of(lengths: &[usize], bytes: &[u8], place: usize) -> usize
    requires lie { LieInTurn lengths.now bytes.now }
    requires fits { length bytes.now < 2 ^ 64 }
    requires within { place < length lengths.now }
    ensures { StartsAt lengths.now bytes.now place result }
{
    let mut start = 0;
    for k in 0..place {
        start += lengths[k];
    }
    start
}

/// Puts bytes after others, for which there is room.
fn extend(bytes: &mut Vec<u8>, more: &[u8])
    requires { length bytes.old.items + length more.now ≤ vec_capacity bytes.old }
    ensures items { bytes.new.items ≡ bytes.old.items ++ more.now }
    ensures same { vec_capacity bytes.old ≤ vec_capacity bytes.new }
{
    let _ = bytes.extend_from_slice(more);
}

/// Puts bytes between others.
fn insert(bytes: &mut Vec<u8>, at: usize, more: &[u8])
    requires within { at ≤ length bytes.old.items }
    requires room { length bytes.old.items + length more.now ≤ vec_capacity bytes.old }
    ensures items { bytes.new.items ≡ take at bytes.old.items ++ more.now ++ drop at bytes.old.items }
    ensures same { vec_capacity bytes.old ≤ vec_capacity bytes.new }
{
    extend(bytes, more);
    bytes[at..].rotate_right(more.len());
}

/// Takes bytes out from between others.
fn remove(bytes: &mut Vec<u8>, at: usize, count: usize)
    requires within { at + count ≤ length bytes.old.items }
    ensures items { bytes.new.items ≡ take at bytes.old.items ++ drop (at + count) bytes.old.items }
    ensures same { vec_capacity bytes.old ≤ vec_capacity bytes.new }
{
    bytes[at..].rotate_left(count);
    bytes.truncate(bytes.len() - count);
}
