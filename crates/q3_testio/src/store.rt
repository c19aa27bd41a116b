//! Files in memory, by their places.

ghost use Rattle.std.specs.Prelude.{◌≡◌, ◌+◌, ◌-◌, ◌≤◌, ◌<◌, [], ◌∷◌, ◌++◌, length, IfOk, MatchOption, None, position};
ghost use Rattle.std.specs.Str.{bytes_eq};
ghost use Rattle.q3_io.specs.Told.{contents_of};
ghost use Rattle.q3_testio.specs.FileStore.{file_at, with_contents_at, StandsAt};

use crate::texts::Texts;
use q3_io::NoMemory;
use std::alloc::Global;
use std::marker::Model;

/// Files, as many as there is room for. Of the room, what was taken once isn't given back.
#[derive(Drop)]
pub struct Store {
    names: Texts,
    contents: Texts,
    room: usize,
}

impl Model for Store {
    ghost use Rattle.std.specs.Prelude.{◌≡◌, ◌≤◌, length};
    ghost use Rattle.q3_testio.specs.FileStore.{StoreState, files_of};

    ghost Value = { StoreState };

    ghost view = { λ s. record {
      files = files_of s.names.texts s.contents.texts;
      spare = s.names.spare;
      room = s.room;
    } };

    ghost invariant = { λ s. (length s.contents.texts ≡ length s.names.texts) × (s.contents.spare ≡ s.names.spare)
        × (s.room ≤ s.names.room) × (s.room ≤ s.contents.room) };
}

#[tactic(auto, using(crate::proofs::ToldPlaces::length_files_of, crate::proofs::ToldPlaces::contents_files_of, crate::proofs::ToldPlaces::set_files_of))]
impl Store {
    /// No files, with room for so many, and for so many bytes of names and contents.
    #[tactic(auto, unfolding(crate::specs::FileStore::files_of))]
    pub fn new(alloc: Global, files: usize, room: usize) -> Result<Store, NoMemory>
        ensures { IfOk result (λ store. store ≡ record { files = []; spare = files; room = room }) }
    {
        Ok(Store {
            names: Texts::new(alloc, files, room)?,
            contents: Texts::new(alloc, files, room)?,
            room,
        })
    }

    /// For so many bytes there is room.
    pub fn room(&self) -> usize
        ensures { result ≡ self.now.room }
    {
        self.room
    }

    /// Takes so much of the room.
    pub fn take(&mut self, count: usize)
        requires { count ≤ self.old.room }
        ensures { self.new ≡ record self.old { room = self.old.room - count } }
    {
        self.room -= count;
    }

    /// There may be so many files more.
    pub fn spare(&self) -> usize
        ensures { result ≡ self.now.spare }
    {
        self.names.spare()
    }

    /// The place of the file of this name.
    pub fn find(&self, name: &[u8]) -> Option<usize>
        ensures { MatchOption result (contents_of self.now.files name.now ≡ None) (StandsAt self.now.files name.now) }
    {
        first(&self.names, name)
    }

    /// What the file at a place holds.
    pub fn contents(&self, place: usize) -> &[u8]
        requires { place < length self.now.files }
        ensures { result.now ≡ (file_at self.now.files place).contents }
    {
        self.contents.get(place)
    }

    /// Makes the file at a place hold these bytes, and takes so much room.
    pub fn put_at(&mut self, place: usize, bytes: &[u8], count: usize)
        requires within { place < length self.old.files }
        requires room { count ≤ self.old.room }
        requires count { length bytes.now ≤ count }
        ensures files { self.new.files ≡ with_contents_at self.old.files place bytes.now }
        ensures spare { self.new.spare ≡ self.old.spare }
        ensures left { self.new.room ≡ self.old.room - count }
    {
        self.contents.put(place, bytes);
        self.room -= count;
    }

    /// Puts bytes after those of the file at a place.
    pub fn add_at(&mut self, place: usize, bytes: &[u8])
        requires within { place < length self.old.files }
        requires room { length bytes.now ≤ self.old.room }
        ensures files { self.new.files ≡ with_contents_at self.old.files place
            ((file_at self.old.files place).contents ++ bytes.now) }
        ensures spare { self.new.spare ≡ self.old.spare }
        ensures left { self.new.room ≡ self.old.room - length bytes.now }
    {
        self.contents.add(place, bytes);
        self.room -= bytes.len();
    }

    /// Puts a file after the others, and takes so much room beside its name's.
    #[tactic(auto, using(crate::proofs::ToldPlaces::push_files_of))]
    pub fn put_new(&mut self, name: &[u8], bytes: &[u8], count: usize)
        requires spare { 0 < self.old.spare }
        requires room { length name.now + count ≤ self.old.room }
        requires count { length bytes.now ≤ count }
        ensures files { self.new.files ≡ self.old.files ++ record { name = name.now; contents = bytes.now } ∷ [] }
        ensures spare { self.new.spare ≡ self.old.spare - 1 }
        ensures left { self.new.room ≡ self.old.room - (length name.now + count) }
    {
        self.names.push(name);
        self.contents.push(bytes);
        self.room -= name.len() + count;
    }
}

/// The first place that has this text.
fn first(texts: &Texts, text: &[u8]) -> Option<usize>
    ensures { result ≡ position (λ one. bytes_eq one text.now) texts.now.texts }
{
    for place in 0..texts.count() {
        if texts.get(place) == text {
            return Some(place);
        }
    }
    None
}
