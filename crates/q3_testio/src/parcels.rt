//! Datagrams in one piece of memory, which is taken when they are made.

ghost use Rattle.std.specs.Prelude.{◌≡◌, ◌-◌, ◌≤◌, ◌<◌, [], ◌∷◌, ◌++◌, length, slice_index_or, IfOk};
ghost use Rattle.q3_testio.specs.Parcels.{no_parcel};

use crate::texts::Texts;
use q3_io::{Address, NoMemory};
use std::alloc::Global;
use std::marker::Model;

/// Datagrams with their addresses, as many as there is room for.
#[derive(Drop)]
pub struct Parcels {
    addresses: Vec<Address>,
    texts: Texts,
}

impl Model for Parcels {
    ghost use Rattle.std.specs.Prelude.{◌≡◌, ◌≤◌, ◌+◌, length, vec_capacity};
    ghost use Rattle.q3_testio.specs.Parcels.{ParcelsState, parcels_of};

    ghost Value = { ParcelsState };

    ghost view = { λ p. record {
      parcels = parcels_of p.addresses.items p.texts.texts;
      spare = p.texts.spare;
      room = p.texts.room;
    } };

    ghost invariant = { λ p. (length p.addresses.items ≡ length p.texts.texts)
        × (length p.texts.texts + p.texts.spare ≤ vec_capacity p.addresses) };
}

#[tactic(auto, using(crate::proofs::ParcelPlaces::length_parcels_of))]
impl Parcels {
    /// No datagrams, with room for so many, and for so many bytes.
    #[tactic(auto, unfolding(crate::specs::Parcels::parcels_of))]
    pub fn new(alloc: Global, parcels: usize, room: usize) -> Result<Parcels, NoMemory>
        ensures { IfOk result (λ new. new ≡ record { parcels = []; spare = parcels; room = room }) }
    {
        Ok(Parcels {
            texts: Texts::new(alloc, parcels, room)?,
            addresses: Vec::with_capacity(alloc, parcels)?,
        })
    }

    pub fn count(&self) -> usize
        ensures { result ≡ length self.now.parcels }
    {
        self.addresses.len()
    }

    /// There may be so many datagrams more.
    pub fn spare(&self) -> usize
        ensures { result ≡ self.now.spare }
    {
        self.texts.spare()
    }

    /// The address of the datagram at a place.
    #[tactic(auto, using(crate::proofs::ParcelPlaces::parcel_at, crate::proofs::ParcelPlaces::length_parcels_of))]
    pub fn address(&self, place: usize) -> Address
        requires { place < length self.now.parcels }
        ensures { result ≡ (slice_index_or self.now.parcels place no_parcel).address }
    {
        self.addresses[place]
    }

    /// Its bytes.
    #[tactic(auto, using(crate::proofs::ParcelPlaces::parcel_at, crate::proofs::ParcelPlaces::length_parcels_of))]
    pub fn bytes(&self, place: usize) -> &[u8]
        requires { place < length self.now.parcels }
        ensures { result.now ≡ (slice_index_or self.now.parcels place no_parcel).bytes }
    {
        self.texts.get(place)
    }

    /// Puts a datagram after the others.
    #[tactic(auto, using(crate::proofs::ParcelPlaces::parcels_more))]
    pub fn push(&mut self, address: Address, bytes: &[u8])
        requires spare { 0 < self.old.spare }
        requires room { length bytes.now ≤ self.old.room }
        ensures parcels { self.new.parcels ≡ self.old.parcels
            ++ record { address = address; bytes = bytes.now } ∷ [] }
        ensures left { self.new.spare ≡ self.old.spare - 1 }
        ensures room { self.new.room ≡ self.old.room - length bytes.now }
    {
        self.texts.push(bytes);
        self.addresses.push_reserved(address);
    }
}
