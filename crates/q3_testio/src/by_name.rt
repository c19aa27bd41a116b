//! Files in memory, by their names.

ghost use Rattle.std.specs.Prelude.{◌≡◌, ◌≤◌, ◌++◌, length, take, drop, if◌then◌else◌, is_some};
ghost use Rattle.q3_io.specs.Told.{contents_of};
ghost use Rattle.q3_testio.specs.FileStore.{has_room, after_put, can_add, after_add, held, read_count};

use crate::store::Store;

impl Store {
    /// Whether there is a file of this name.
    pub fn has(&self, name: &[u8]) -> bool
        ensures { result ≡ is_some (contents_of self.now.files name.now) }
    {
        self.find(name).is_some()
    }

    /// How many bytes the file of this name has.
    pub fn size(&self, name: &[u8]) -> usize
        ensures { result ≡ length (held self.now name.now) }
    {
        match self.find(name) {
            Some(place) => self.contents(place).len(),
            None => 0,
        }
    }

    /// Makes the file of this name hold these bytes, where there is room for so many bytes beside the name.
    #[tactic(auto, using(crate::proofs::ToldPlaces::put_new))]
    pub fn put(&mut self, name: &[u8], bytes: &[u8], count: usize) -> bool
        requires { length bytes.now ≤ count }
        ensures fits { result ≡ has_room self.old name.now count }
        ensures whole { self.new ≡ (if has_room self.old name.now count
            then after_put self.old name.now bytes.now count else self.old) }
    {
        let Some(left) = self.room().checked_sub(count) else {
            return false;
        };
        match self.find(name) {
            Some(place) => {
                self.put_at(place, bytes, count);
                true
            }
            None => {
                if self.spare() == 0 || left < name.len() {
                    return false;
                }
                self.put_new(name, bytes, count);
                true
            }
        }
    }

    /// Puts bytes after those of the file of this name, where there is one and they fit.
    pub fn append(&mut self, name: &[u8], bytes: &[u8]) -> bool
        ensures fits { result ≡ can_add self.old name.now bytes.now }
        ensures whole { self.new ≡ (if can_add self.old name.now bytes.now then after_add self.old name.now bytes.now
            else self.old) }
    {
        let Some(place) = self.find(name) else {
            return false;
        };
        if self.room() < bytes.len() {
            return false;
        }
        self.add_at(place, bytes);
        true
    }

    /// Reads bytes of the file of this name from a place on.
    pub fn read(&self, name: &[u8], at: u64, into: &mut [u8]) -> usize
        ensures count { result ≡ read_count (held self.now name.now) at into.old }
        ensures bytes { into.new ≡ take result (drop at (held self.now name.now)) ++ drop result into.old }
    {
        match self.find(name) {
            Some(place) => copy_from(self.contents(place), at, into),
            None => 0,
        }
    }
}

/// Copies bytes from a place on, as many as there are and fit.
fn copy_from(contents: &[u8], at: u64, into: &mut [u8]) -> usize
    ensures count { result ≡ read_count contents.now at into.old }
    ensures bytes { into.new ≡ take result (drop at contents.now) ++ drop result into.old }
{
    let at = at as usize;
    if contents.len() <= at {
        return 0;
    }
    let count = into.len().min(contents.len() - at);
    into[..count].copy_from_slice(&contents[at..at + count]);
    count
}
