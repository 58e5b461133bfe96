//! The calls of an occupied entry: reading, writing, replacing and removing the item that its key found.
//!
//! Written by hand; tests/one_key.patch says why.
ghost use Rattle.std.specs.Prelude.{◌≡◌, [], ◌∷◌, true, false, Some, IfOk, IfErr, OnOk, OnErr, IsPermutation};
ghost use Rattle.std.specs.Borrow.{sem};
ghost use Rattle.std.specs.Fn.{FnOnceReturnsAt, FnOnceTakesAt};
ghost use Rattle.iddqd_store.specs.Bag.{IsOnly, swap};
ghost use Rattle.iddqd_store.specs.Bag.Storing.{StoresOne};
ghost use Rattle.iddqd_store.specs.Map.{bag, Loses};
ghost use Rattle.iddqd_id.specs.Entries.{HasFound, PutsOver, entry_with, found_item, lends_entry_data, lends_guard};
ghost use Rattle.iddqd_id.specs.Keys.{has};
ghost use Rattle.iddqd_id.specs.RefMuts.{ref_item, ref_lender, ref_map};

use super::OccupiedEntry;
use crate::error::KeyMismatch;
use crate::item::{IdHashItem, IdHashItemMut, Ranked};
use crate::map::IdHashMap;
use crate::ref_mut::RefMut;
use iddqd_store::Query;
use std::hash::{BuildHasher, Hash};

impl<'a, T: IdHashItem, S: BuildHasher, Q: Query<T::Key>> OccupiedEntry<'a, T, S, Q> {
    /// Returns the item, borrowed for reading.
    pub fn get(&self) -> &T
        requires { HasFound T.IdHashItem Q.stands_for self.now }
        ensures { IsOnly (has T.IdHashItem Q.stands_for self.now.query) (bag self.now.map.now) (Some result.now) }
    {
        self.map.item_at(self.slot)
    }

    /// Returns the item, borrowed for reading for as long as the entry borrowed the map.
    pub fn into_ref(self) -> &'a T
        requires { HasFound T.IdHashItem Q.stands_for self }
        ensures { IsOnly (has T.IdHashItem Q.stands_for self.entry.query) (bag self.entry.map.now) (Some result.now) }
    {
        let OccupiedEntry {
            map,
            query: _,
            slot,
        } = self;
        let map: &'a IdHashMap<T, S> = map;
        map.item_at(slot)
    }

    /// Returns a guard of the item, for as long as the entry is borrowed. Contracts say less of the map afterwards than
    /// after `into_mut`.
    pub fn get_mut(&mut self) -> RefMut<'_, T, S>
        requires { HasFound T.IdHashItem Q.stands_for self.old }
        ensures map { ref_map result ≡ self.old.map.now }
        ensures item { ref_item result ≡ found_item self.old }
        ensures* lends { sem 𝓛 (lends_guard T.row S.row T.Key.row S.Hasher.row
            T.IdHashItem T.Key.Hash S.BuildHasher S.Hasher.Hasher Q.row self.entry result) }
    {
        let slot = self.slot;
        let map = &mut *self.map;
        RefMut { map, slot }
    }

    /// Returns a guard of the item, for as long as the entry borrowed the map.
    pub fn into_mut(self) -> RefMut<'a, T, S>
        requires { HasFound T.IdHashItem Q.stands_for self }
        ensures same_map { ref_lender result ≡ self.entry.map.ghost_name }
        ensures map { ref_map result ≡ self.entry.map.now }
        ensures item { ref_item result ≡ found_item self.entry }
    {
        let OccupiedEntry {
            map,
            query: _,
            slot,
        } = self;
        RefMut { map, slot }
    }

    /// Inserts an item that has the entry's key in place of the item that the entry found, and returns the latter. From
    /// then on the entry finds the new item.
    ///
    /// If the item has another key, the error has the item, whether an item of the map has that key or not. Nothing
    /// changes then.
    ///
    /// The call compares the item's key with the entry's. It hashes none, searches for nothing, and
    /// allocates no memory.
    pub fn insert(&mut self, item: T) -> Result<T, KeyMismatch<T>>
        requires { HasFound T.IdHashItem Q.stands_for self.old }
        // The result is `Ok` exactly for an item with the entry's key. The item that this key found is returned.
        ensures same_keys { OnOk result (has T.IdHashItem Q.stands_for self.old.query item ≡ true) }
        ensures displaced { IfOk result (λ gone.
            IsOnly (has T.IdHashItem Q.stands_for self.old.query) (bag self.old.map.now) (Some gone)) }
        // The entry then finds the new item.
        ensures puts_over { IfOk result (λ gone.
            PutsOver T.IdHashItem Q.stands_for ⟦<T as Ranked>⟧.ranks self.old gone item self.new) }
        // An item with another key is returned, and nothing changes.
        ensures handed_back { IfErr result (λ e. e.item ≡ item) }
        ensures rank { OnErr result (has T.IdHashItem Q.stands_for self.old.query item ≡ false) }
        ensures unchanged { OnErr result (self.new ≡ self.old) }
    {
        if !self.query.stands_for(item.key()) {
            return Err(KeyMismatch { item });
        }
        let slot = self.slot;
        let gone = self.map.replace_at(slot, item);
        // This call gives the prover the fact that no two items have the same key.
        let _ = self.map.len();
        Ok(gone)
    }

    /// Removes the item, and returns it. The capacity stays.
    ///
    /// The call hashes the item's key. It compares no key, and allocates no memory.
    pub fn remove(self) -> T
        requires { HasFound T.IdHashItem Q.stands_for self }
        ensures taken { IsOnly (has T.IdHashItem Q.stands_for self.entry.query) (bag self.entry.map.now) (Some result) }
        ensures loses { Loses (self.entry.map.now) (result ∷ []) self.exit.0.now }
    {
        let OccupiedEntry {
            map,
            query: _,
            slot,
        } = self;
        map.remove_at(slot)
    }
}

impl<'a, T: IdHashItemMut, S: BuildHasher, Q: Query<T::Key>> OccupiedEntry<'a, T, S, Q> {
    /// Returns the data of the item, borrowed for writing.
    pub fn data_mut(&mut self) -> &mut T::Data
        requires { HasFound T.IdHashItem Q.stands_for self.old }
        ensures value { (x : T) → IsOnly (has T.IdHashItem Q.stands_for self.old.query) (bag self.old.map.now) (Some x)
            → result.now ≡ T.data_of x }
        ensures swaps { (x : T) (d : T.Data)
            → IsOnly (has T.IdHashItem Q.stands_for self.old.query) (bag self.old.map.now) (Some x)
            → IsPermutation (bag (entry_with self.old (λ y. T.put y d)).map.now)
            (swap ⟦<T as Ranked>⟧.ranks (bag self.old.map.now) x (T.put x d)) }
        ensures has_found { (d : T.Data) → HasFound T.IdHashItem Q.stands_for (entry_with self.old (λ y. T.put y d)) }
        ensures* lends { sem 𝓛 (lends_entry_data T.row S.row T.Key.row S.Hasher.row
            T.IdHashItem T.Key.Hash S.BuildHasher S.Hasher.Hasher Q.row T.Data.row T.put self.entry result) }
    {
        let slot = self.slot;
        self.map.data_mut_at(slot)
    }

    /// Calls `f` with the item, and stores what `f` returns as the item's data. The entry still finds the item. The call
    /// compares no key, and allocates no memory.
    pub fn update<F: FnOnce(&T) -> T::Data>(&mut self, f: F)
    where
        T::Data: Drop,
        requires has_found { HasFound T.IdHashItem Q.stands_for self.old }
        requires callable { (x : T) → IsOnly (has T.IdHashItem Q.stands_for self.old.query) (bag self.old.map.now) (Some x)
            → FnOnceTakesAt F.FnOnce f x }
        ensures same_map { self.new.map.ghost_name ≡ self.old.map.ghost_name }
        ensures stores { StoresOne (FnOnceReturnsAt F.FnOnce f) T.put ⟦<T as Ranked>⟧.ranks
            (has T.IdHashItem Q.stands_for self.old.query) (bag self.old.map.now) (bag self.new.map.now) }
        ensures capacity { self.new.map.now.capacity ≡ self.old.map.now.capacity }
        ensures builder { self.new.map.now.builder ≡ self.old.map.now.builder }
        ensures places { self.new.query ≡ self.old.query }
        ensures has_found { HasFound T.IdHashItem Q.stands_for self.new }
    {
        // This call gives the prover the fact that no two items have the same key.
        let _ = self.map.len();
        let slot = self.slot;
        self.map.store_once(slot, f);
    }
}
