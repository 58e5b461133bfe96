//! The calls of a guard.
ghost use Rattle.std.specs.Prelude.{◌≡◌, Some, IfSome, IfOk, IfErr, OnErr, IsPermutation};
ghost use Rattle.std.specs.Borrow.{sem};
ghost use Rattle.iddqd_store.specs.Bag.{first_mismatch, tests_of, swap};
ghost use Rattle.iddqd_store.specs.Map.{bag};
ghost use Rattle.iddqd_bi.specs.Mismatch.{mismatch_item, mismatch_rank};
ghost use Rattle.iddqd_bi.specs.RefMuts.{Replaces, ref_map, ref_item, ref_with, lends_map_data, lends_ref_data};

use super::RefMut;
use crate::error::KeyMismatch;
use crate::item::{BiHashItem, BiHashItemMut, Ranked};
use crate::map::BiHashMap;
use crate::map::slots::found::differ;
use std::hash::{BuildHasher, Hash};
use std::ops::Deref;

impl<T: BiHashItem, S: BuildHasher> Deref for RefMut<'_, T, S> {
    type Target = T;

    ghost deref_gives = { λ r x. ref_item r ≡ Some x };

    /// Returns the item.
    fn deref(&self) -> &T
        ensures { ref_item self.now ≡ Some result.now }
    {
        self.map.item_at(self.slot)
    }
}

impl<T: BiHashItemMut, S: BuildHasher> RefMut<'_, T, S> {
    /// Returns the item's data, borrowed for writing, for example by `*guard.data_mut() = data`. No key changes, and
    /// the call compares and hashes none.
    pub fn data_mut(&mut self) -> &mut T::Data
        ensures value { IfSome (ref_item self.old) (λ x. result.now ≡ T.data_of x) }
        ensures writes { (d : T.Data) → IfSome (ref_item self.old) (λ x.
            ref_item (ref_with self.old (λ y. T.put y d)) ≡ Some (T.put x d)) }
        ensures swaps { (d : T.Data) → IfSome (ref_item self.old) (λ x.
            IsPermutation (bag (ref_map (ref_with self.old (λ y. T.put y d))))
            (swap ⟦<T as Ranked>⟧.ranks (bag (ref_map self.old)) x (T.put x d))) }
        ensures* writes_back { sem 𝓛 (lends_ref_data T.row S.row T.K1.row T.K2.row S.Hasher.row
            T.Data.row T.put self.entry result) }
    {
        let slot = self.slot;
        self.map.data_mut_at(slot)
    }
}

impl<'a, T: BiHashItemMut, S: BuildHasher> RefMut<'a, T, S> {
    /// Returns the item's data, borrowed for writing for as long as the guard borrowed the map. What is written through
    /// it is the item's data afterwards. No key changes, and the call compares and hashes none.
    pub fn into_data(self) -> &'a mut T::Data
        ensures value { IfSome (ref_item self.entry) (λ x. result.now ≡ T.data_of x) }
        ensures swaps { (d : T.Data) → IfSome (ref_item self.entry) (λ x.
            IsPermutation (bag (ref_map (ref_with self.entry (λ y. T.put y d))))
            (swap ⟦<T as Ranked>⟧.ranks (bag (ref_map self.entry)) x (T.put x d))) }
        ensures* writes_back { sem 𝓛 (lends_map_data T.row S.row T.K1.row T.K2.row S.Hasher.row
            T.Data.row T.put self.entry result) }
    {
        let RefMut { map, slot } = self;
        map.data_mut_at(slot)
    }
}

impl<T: Ranked, S: BuildHasher> RefMut<'_, T, S> {
    /// Replaces the item by one with equal keys, and returns it. If the new item has another key, the error has the new
    /// item and names the lowest rank at which the keys differ. Nothing changes then.
    ///
    /// The call compares the keys rank by rank, up to the first that differs. It hashes none, and allocates no memory.
    pub fn replace(&mut self, item: T) -> Result<T, KeyMismatch<T>>
        // The item that was borrowed is returned, and the new one, with equal keys, is in its place.
        ensures replaces { IfOk result (λ x. Replaces T.ranks self.old item x self.new) }
        // An item with another key is returned, and nothing changes.
        ensures handed_back { IfErr result (λ e. mismatch_item e ≡ item) }
        ensures rank { IfErr result (λ e. IfSome (ref_item self.old) (λ x.
            first_mismatch (tests_of T.ranks x) item ≡ Some (mismatch_rank e))) }
        ensures unchanged { OnErr result (self.new ≡ self.old) }
    {
        if let Some(rank) = differ(&item, self.key1(), self.key2()) {
            return Err(KeyMismatch::of_rank(rank, item));
        }
        let slot = self.slot;
        Ok(self.map.replace_at(slot, item))
    }
}

impl<'a, T: BiHashItem, S: BuildHasher> RefMut<'a, T, S> {
    /// Returns this very guard, borrowed for a while.
    pub fn reborrow(&mut self) -> &mut RefMut<'a, T, S>
        ensures itself { result.ghost_name ≡ self.entry.ghost_name }
        ensures unchanged { result.now ≡ self.old }
    {
        self
    }

    /// Returns the item, borrowed for reading for as long as the guard borrowed the map.
    pub fn into_ref(self) -> &'a T
        ensures { ref_item self.entry ≡ Some result.now }
    {
        let RefMut { map, slot } = self;
        let map: &'a BiHashMap<T, S> = map;
        map.item_at(slot)
    }
}
