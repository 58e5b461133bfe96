//! The map as one of the hash maps, for code that serves each of them: its items by the numbers of their slots.
ghost use Rattle.std.specs.Prelude.{[], ◌∷◌, refl};
ghost use Rattle.std.proofs.Common.{◌∙◌};
ghost use Rattle.iddqd_store.specs.Map.{hash_of};
ghost use Rattle.iddqd_store.specs.Rank.{agree, key_hash};
ghost use Rattle.iddqd_store.proofs.MapLemmas.{IsEquivalence-key};

use super::BiHashMap;
use crate::error::Rejected;
use crate::item::{BiHashItem, BiHashItemMut};
use iddqd_store::{
    Costs, FoundByHash, ItemIndex, ItemSet, Meter, Searched, SlotMap, StoresData, TryReserveError,
    UpToThree, Vacancy,
};
use std::alloc::Global;
use std::hash::{BuildHasher, Hash};

/// Each function does what the map's own function of its name does. A program that uses this map alone needs none of
/// them.
impl<T: BiHashItem, S: BuildHasher> SlotMap for BiHashMap<T, S> {
    type Item = T;

    type Builder = S;

    type FirstKey = T::K1;

    type Places = (Vacancy, Vacancy);

    type Found = (FoundByHash, FoundByHash);

    type Taken = (bool, bool);

    type Rejected = Rejected<T>;

    ghost shown = { λ m. m };

    ghost ranks = { agree T.key1 T.K1.eq ∷ agree T.key2 T.K2.eq ∷ [] };

    ghost hashes = { λ s. key_hash T.key1 T.K1.hash_input S.BuildHasher S.Hasher.Hasher s
        ∷ key_hash T.key2 T.K2.hash_input S.BuildHasher S.Hasher.Hasher s ∷ [] };

    ghost hash_of = { hash_of S.BuildHasher S.Hasher.Hasher };

    ghost first_key = { T.key1 };

    ghost spots = { λ at. at.0 ∷ at.1 ∷ [] };

    ghost searched = { λ found. found.0 ∷ found.1 ∷ [] };

    ghost flags = { λ taken. taken.0 ∷ taken.1 ∷ [] };

    ghost rejected_item = { λ e. e.item };

    ghost rejected_flags = { λ e. e.taken1 ∷ e.taken2 ∷ [] };

    fn empty(alloc: Global, builder: S) -> Self {
        BiHashMap::with_hasher(alloc, builder)
    }

    fn allocator(&self) -> Global {
        self.items.allocator()
    }

    fn hasher(&self) -> &S {
        &self.hash_builder
    }

    fn first_key(item: &T) -> &T::K1 {
        item.key1()
    }

    fn slots(&self) -> &ItemSet<T> {
        &self.items
    }

    fn len(&self) -> usize {
        BiHashMap::len(self)
    }

    fn capacity(&self) -> usize {
        BiHashMap::capacity(self)
    }

    #[inline(always)]
    fn places(&self, item: &T, costs: &mut Costs) -> Result<Self::Places, Self::Found> {
        match BiHashMap::places(self, item, costs) {
            Searched::Vacant(at) => Ok(at),
            Searched::Found(found) => Err(found),
        }
    }

    fn found_slots(found: &Self::Found) -> UpToThree<ItemIndex> {
        let slot1 = found.0.slot();
        let slot2 = found.1.slot();
        let mut slots = UpToThree::new();
        slots.push_found(slot1);
        slots.push_found(slot2);
        slots
    }

    fn taken(found: &Self::Found) -> Self::Taken {
        let taken1 = found.0.slot().is_some();
        let taken2 = found.1.slot().is_some();
        (taken1, taken2)
    }

    fn slot_of_all(&self, item: &T, costs: &mut Costs) -> Option<ItemIndex> {
        let hash = self.hash_of1(item);
        self.slot_unique(hash, item.key1(), item.key2(), costs)
    }

    #[inline(always)]
    fn insert_into(&mut self, item: T, at: Self::Places, meter: &mut Meter) -> ItemIndex {
        BiHashMap::insert_into(self, item, at, meter)
    }

    #[inline(always)]
    fn remove_at(&mut self, slot: ItemIndex, meter: &mut Meter) -> T {
        self.remove_slot(slot, None, None, meter)
    }

    fn replace_at(&mut self, slot: ItemIndex, item: T) -> T {
        BiHashMap::replace_at(self, slot, item)
    }

    fn overwrite_at(
        &mut self,
        slot: ItemIndex,
        item: T,
        found: &Self::Found,
        meter: &mut Meter,
    ) -> T {
        self.overwrite_one(slot, item, found, meter)
    }

    fn rekey_at(&mut self, slot: ItemIndex, item: T, costs: &mut Costs) -> Result<T, T> {
        BiHashMap::rekey_at(self, slot, item, costs)
    }

    fn clone(&self) -> Result<Self, TryReserveError>
    where
        T: Clone,
        S: Clone,
    {
        self.copied()
    }

    fn shrink_to(&mut self, least: usize) -> Result<(), TryReserveError>
    where
        T: Drop,
    {
        BiHashMap::shrink_to(self, least)
    }

    fn grow(&mut self, more: usize, ahead: usize) -> Result<(), TryReserveError> {
        BiHashMap::grow(self, more, ahead)
    }

    fn clear(&mut self)
    where
        T: Drop,
    {
        BiHashMap::clear(self)
    }

    fn none_taken() -> Self::Taken {
        (false, false)
    }

    fn reject(item: T, flags: Self::Taken) -> Rejected<T> {
        Rejected {
            item,
            taken1: flags.0,
            taken2: flags.1,
        }
    }

    ghost lawful = { (IsEquivalence-key T.K1.eq T.key1 T.K1.Eq.laws, (IsEquivalence-key T.K2.eq T.key2 T.K2.Eq.laws, tt)) };

    ghost same_first = { λ x y same. rw same refl };
}

impl<T: BiHashItemMut, S: BuildHasher> StoresData for BiHashMap<T, S> {
    type Data = T::Data;

    ghost put = { T.put };

    fn store_at(&mut self, slot: ItemIndex, data: T::Data)
    where
        T::Data: Drop,
    {
        *self.data_mut_at(slot) = data;
    }

    ghost keeps_keys = { λ x d. rw (
      T.K1.Eq.laws.symm (T.key1 x) (T.key1 (T.put x d)) ∙ T.keeps_key1 x d,
      T.K2.Eq.laws.symm (T.key2 x) (T.key2 (T.put x d)) ∙ T.keeps_key2 x d,
    ) refl };
}
