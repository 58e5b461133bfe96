//! The map as one of the hash maps, for code that serves each of them: its items by the numbers of their slots.
//!
//! Made by tests/widths from crates/iddqd_bi/src/map/slot_map.rt: change that file.
ghost use Rattle.std.specs.Prelude.{[], ◌∷◌, refl};
ghost use Rattle.std.proofs.Common.{◌∙◌};
ghost use Rattle.iddqd_store.specs.Map.{hash_of};
ghost use Rattle.iddqd_store.specs.Rank.{agree, key_hash};
ghost use Rattle.iddqd_store.proofs.MapLemmas.{IsEquivalence-key};

use super::IdHashMap;
use crate::error::Rejected;
use crate::item::{IdHashItem, IdHashItemMut};
use iddqd_store::{
    Costs, FoundByHash, ItemIndex, ItemSet, Meter, Searched, SlotMap, StoresData, TryReserveError,
    UpToThree, Vacancy,
};
use std::alloc::Global;
use std::hash::{BuildHasher, Hash};

/// Each function does what the map's own function of its name does. A program that uses this map alone needs none of
/// them.
impl<T: IdHashItem, S: BuildHasher> SlotMap for IdHashMap<T, S> {
    type Item = T;

    type Builder = S;

    type FirstKey = T::Key;

    type Places = Vacancy;

    type Found = FoundByHash;

    type Taken = bool;

    type Rejected = Rejected<T>;

    ghost shown = { λ m. m };

    ghost ranks = { agree T.key T.Key.eq ∷ [] };

    ghost hashes = { λ s. key_hash T.key T.Key.hash_input S.BuildHasher S.Hasher.Hasher s ∷ [] };

    ghost hash_of = { hash_of S.BuildHasher S.Hasher.Hasher };

    ghost first_key = { T.key };

    ghost spots = { λ at. at ∷ [] };

    ghost searched = { λ found. found ∷ [] };

    ghost flags = { λ taken. taken ∷ [] };

    ghost rejected_item = { λ e. e.item };

    ghost rejected_flags = { λ e. e.taken ∷ [] };

    fn empty(alloc: Global, builder: S) -> Self {
        IdHashMap::with_hasher(alloc, builder)
    }

    fn allocator(&self) -> Global {
        self.items.allocator()
    }

    fn hasher(&self) -> &S {
        &self.hash_builder
    }

    fn first_key(item: &T) -> &T::Key {
        item.key()
    }

    fn slots(&self) -> &ItemSet<T> {
        &self.items
    }

    fn len(&self) -> usize {
        IdHashMap::len(self)
    }

    fn capacity(&self) -> usize {
        IdHashMap::capacity(self)
    }

    #[inline(always)]
    fn places(&self, item: &T, costs: &mut Costs) -> Result<Self::Places, Self::Found> {
        match IdHashMap::places(self, item, costs) {
            Searched::Vacant(at) => Ok(at),
            Searched::Found(found) => Err(found),
        }
    }

    fn found_slots(found: &Self::Found) -> UpToThree<ItemIndex> {
        let slot = found.slot();
        let mut slots = UpToThree::new();
        slots.push_found(slot);
        slots
    }

    fn taken(found: &Self::Found) -> Self::Taken {
        let taken = found.slot().is_some();
        taken
    }

    fn slot_of_all(&self, item: &T, costs: &mut Costs) -> Option<ItemIndex> {
        self.slot_of(item.key(), costs)
    }

    #[inline(always)]
    fn insert_into(&mut self, item: T, at: Self::Places, meter: &mut Meter) -> ItemIndex {
        IdHashMap::insert_into(self, item, at, meter)
    }

    #[inline(always)]
    fn remove_at(&mut self, slot: ItemIndex, meter: &mut Meter) -> T {
        self.remove_slot(slot, None, meter)
    }

    fn replace_at(&mut self, slot: ItemIndex, item: T) -> T {
        IdHashMap::replace_at(self, slot, item)
    }

    fn overwrite_at(
        &mut self,
        slot: ItemIndex,
        item: T,
        found: &Self::Found,
        meter: &mut Meter,
    ) -> T {
        self.overwrite_one(slot, item, found, meter)
    }

    fn rekey_at(&mut self, slot: ItemIndex, item: T, costs: &mut Costs) -> Result<T, T> {
        IdHashMap::rekey_at(self, slot, item, costs)
    }

    fn clone(&self) -> Result<Self, TryReserveError>
    where
        T: Clone,
        S: Clone,
    {
        self.copied()
    }

    fn shrink_to(&mut self, least: usize) -> Result<(), TryReserveError>
    where
        T: Drop,
    {
        IdHashMap::shrink_to(self, least)
    }

    fn grow(&mut self, more: usize, ahead: usize) -> Result<(), TryReserveError> {
        IdHashMap::grow(self, more, ahead)
    }

    fn clear(&mut self)
    where
        T: Drop,
    {
        IdHashMap::clear(self)
    }

    fn none_taken() -> Self::Taken {
        false
    }

    fn reject(item: T, flags: Self::Taken) -> Rejected<T> {
        Rejected { item, taken: flags }
    }

    ghost lawful = { (IsEquivalence-key T.Key.eq T.key T.Key.Eq.laws, tt) };

    ghost same_first = { λ x y same. rw same refl };
}

impl<T: IdHashItemMut, S: BuildHasher> StoresData for IdHashMap<T, S> {
    type Data = T::Data;

    ghost put = { T.put };

    fn store_at(&mut self, slot: ItemIndex, data: T::Data)
    where
        T::Data: Drop,
    {
        *self.data_mut_at(slot) = data;
    }

    ghost keeps_keys = { λ x d. rw (
        T.Key.Eq.laws.symm (T.key x) (T.key (T.put x d)) ∙ T.keeps_key x d
        ) refl };
}
