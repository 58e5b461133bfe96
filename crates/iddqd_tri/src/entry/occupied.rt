//! The calls of an occupied entry: reading, writing, replacing and removing the items that three keys found.
//!
//! Made by tests/widths from crates/iddqd_bi/src/entry/occupied.rt: change that file.
ghost use Rattle.std.specs.Prelude.{◌≡◌, None, Some, not, filter, map, IfOk, IfErr, OnOk, OnErr, IsPermutation};
ghost use Rattle.std.specs.Option.{option_copied_mut, option_to_list};
ghost use Rattle.std.specs.Borrow.{sem};
ghost use Rattle.std.specs.Fn.{CalledAt};
ghost use Rattle.iddqd_store.specs.Bag.{IsOnly, first_mismatch, entry, is_unique, listing, swap};
ghost use Rattle.iddqd_store.specs.Bag.Calling.{TakesInTurn};
ghost use Rattle.iddqd_store.specs.Bag.Storing.{Stores};
ghost use Rattle.iddqd_store.specs.Map.{bag, Loses};
ghost use Rattle.iddqd_tri.specs.Entries.{FindsSame, HasFound, HoldsFound, PutsOver, entry_tests, entry_with, lends_entry_data, lends_held};
ghost use Rattle.iddqd_tri.specs.Keys.{has1, has2, has3, key_tests};
ghost use Rattle.iddqd_tri.specs.Mismatch.{mismatch_item, mismatch_rank};
ghost use Rattle.iddqd_tri.specs.OccupiedRefs.{is_one, seen_item1, seen_item2, seen_item3};

use super::{OccupiedEntry, OccupiedEntryMut, OccupiedEntryRef};
use crate::error::KeyMismatch;
use crate::item::{Ranked, TriHashItem, TriHashItemMut};
use crate::map::TriHashMap;
use crate::map::slots::found::{differ, each_once, one_of};
use iddqd_store::{FoundByHash, Meter, Query, UpToThree};
use std::hash::{BuildHasher, Hash};

impl<
    'a,
    T: TriHashItem,
    S: BuildHasher,
    Q1: Query<T::K1>,
    Q2: Query<T::K2>,
    Q3: Query<T::K3>,
> OccupiedEntry<'a, T, S, Q1, Q2, Q3> {
    /// Returns whether one item has all keys.
    pub fn is_unique(&self) -> bool
        requires { HasFound (key_tests T.TriHashItem Q1.stands_for Q2.stands_for Q3.stands_for) self.now }
        ensures { result
            ≡ is_unique (entry (entry_tests
            (key_tests T.TriHashItem Q1.stands_for Q2.stands_for Q3.stands_for) self.now) (bag self.now.map.now)) }
    {
        one_of(self.slot1, self.slot2, self.slot3).is_some()
    }

    /// Returns whether no item has all keys: the keys found different items, or one of them found none.
    pub fn is_non_unique(&self) -> bool
        requires { HasFound (key_tests T.TriHashItem Q1.stands_for Q2.stands_for Q3.stands_for) self.now }
        ensures { result
            ≡ not (is_unique
            (entry (entry_tests (key_tests T.TriHashItem Q1.stands_for Q2.stands_for Q3.stands_for) self.now)
            (bag self.now.map.now))) }
    {
        !self.is_unique()
    }

    /// Returns the items, borrowed for reading.
    pub fn get(&self) -> OccupiedEntryRef<'_, T>
        requires { HasFound (key_tests T.TriHashItem Q1.stands_for Q2.stands_for Q3.stands_for) self.now }
        ensures is_one { is_one result
            ≡ is_unique
            (entry (entry_tests (key_tests T.TriHashItem Q1.stands_for Q2.stands_for Q3.stands_for) self.now)
            (bag self.now.map.now)) }
        ensures by_key1 { IsOnly (has1 T.TriHashItem Q1.stands_for self.now.query1) (bag self.now.map.now)
            (seen_item1 result) }
        ensures by_key2 { IsOnly (has2 T.TriHashItem Q2.stands_for self.now.query2) (bag self.now.map.now)
            (seen_item2 result) }
        ensures by_key3 { IsOnly (has3 T.TriHashItem Q3.stands_for self.now.query3) (bag self.now.map.now)
            (seen_item3 result) }
    {
        let is_unique = self.is_unique();
        let by_key1 = self.map.item_of(self.slot1);
        let by_key2 = self.map.item_of(self.slot2);
        let by_key3 = self.map.item_of(self.slot3);
        OccupiedEntryRef::of(is_unique, by_key1, by_key2, by_key3)
    }

    /// Returns the items, borrowed for reading for as long as the entry borrowed the map.
    pub fn into_ref(self) -> OccupiedEntryRef<'a, T>
        requires { HasFound (key_tests T.TriHashItem Q1.stands_for Q2.stands_for Q3.stands_for) self }
        ensures is_one { is_one result
            ≡ is_unique
            (entry (entry_tests (key_tests T.TriHashItem Q1.stands_for Q2.stands_for Q3.stands_for) self.entry)
            (bag self.entry.map.now)) }
        ensures by_key1 { IsOnly (has1 T.TriHashItem Q1.stands_for self.entry.query1) (bag self.entry.map.now)
            (seen_item1 result) }
        ensures by_key2 { IsOnly (has2 T.TriHashItem Q2.stands_for self.entry.query2) (bag self.entry.map.now)
            (seen_item2 result) }
        ensures by_key3 { IsOnly (has3 T.TriHashItem Q3.stands_for self.entry.query3) (bag self.entry.map.now)
            (seen_item3 result) }
    {
        let is_unique = self.is_unique();
        let OccupiedEntry {
            map,
            query1: _,
            query2: _,
            query3: _,
            slot1,
            slot2,
            slot3,
        } = self;
        let map: &'a TriHashMap<T, S> = map;
        let by_key1 = map.item_of(slot1);
        let by_key2 = map.item_of(slot2);
        let by_key3 = map.item_of(slot3);
        OccupiedEntryRef::of(is_unique, by_key1, by_key2, by_key3)
    }

    /// Returns the items, held for writing for as long as the entry is borrowed. Contracts say less of the map
    /// afterwards than after `into_mut`.
    pub fn get_mut(&mut self) -> OccupiedEntryMut<'_, T, S>
        ensures map { result.map.now ≡ self.old.map.now }
        ensures holds { HasFound (key_tests T.TriHashItem Q1.stands_for Q2.stands_for Q3.stands_for) self.old
            → HoldsFound T.TriHashItem Q1.stands_for Q2.stands_for Q3.stands_for self.old result }
        ensures* lends { sem 𝓛 (lends_held T.row S.row T.K1.row T.K2.row T.K3.row S.Hasher.row
            T.TriHashItem T.K1.Hash T.K2.Hash T.K3.Hash S.BuildHasher S.Hasher.Hasher Q1.row Q2.row Q3.row
            self.entry result) }
    {
        let slot1 = self.slot1;
        let slot2 = self.slot2;
        let slot3 = self.slot3;
        let map = &mut *self.map;
        OccupiedEntryMut {
            map,
            slot1,
            slot2,
            slot3,
        }
    }

    /// Returns the items, held for writing for as long as the entry borrowed the map.
    pub fn into_mut(self) -> OccupiedEntryMut<'a, T, S>
        ensures same_map { result.map.ghost_name ≡ self.entry.map.ghost_name }
        ensures map { result.map.now ≡ self.entry.map.now }
        ensures holds { HasFound (key_tests T.TriHashItem Q1.stands_for Q2.stands_for Q3.stands_for) self.entry
            → HoldsFound T.TriHashItem Q1.stands_for Q2.stands_for Q3.stands_for self.entry result }
    {
        let OccupiedEntry {
            map,
            query1: _,
            query2: _,
            query3: _,
            slot1,
            slot2,
            slot3,
        } = self;
        OccupiedEntryMut {
            map,
            slot1,
            slot2,
            slot3,
        }
    }

    /// Inserts an item that has the entry's keys in place of the items that the entry found, and returns those, in the
    /// order of the keys. From then on the entry finds the new item alone.
    ///
    /// If the item has another key, the error has the item and names the lowest rank at which its key is not the
    /// entry's, whether an item of the map has that key or not. Nothing changes then.
    ///
    /// The call compares the item's keys with the entry's, rank by rank up to the first that differs. Then it hashes
    /// each of them once, and each key of a removed item by which the entry did not find it. It searches for nothing,
    /// and allocates no memory.
    pub fn insert(&mut self, item: T) -> Result<UpToThree<T>, KeyMismatch<T>>
        requires { HasFound (key_tests T.TriHashItem Q1.stands_for Q2.stands_for Q3.stands_for) self.old }
        // The result is `Ok` only for an item with the entry's keys. The items that these keys found are returned, in
        // their order.
        ensures same_keys { OnOk result
            (first_mismatch (entry_tests
            (key_tests T.TriHashItem Q1.stands_for Q2.stands_for Q3.stands_for) self.old) item ≡ None) }
        ensures displaced { IfOk result (λ gone. gone
            ≡ listing (entry_tests (key_tests T.TriHashItem Q1.stands_for Q2.stands_for Q3.stands_for) self.old)
            (bag self.old.map.now)) }
        // The entry then finds the new item alone.
        ensures puts_over { OnOk result
            (PutsOver ⟦<T as Ranked>⟧.ranks
            (key_tests T.TriHashItem Q1.stands_for Q2.stands_for Q3.stands_for) self.old item self.new) }
        // An item with another key is returned, and nothing changes.
        ensures handed_back { IfErr result (λ e. mismatch_item e ≡ item) }
        ensures rank { IfErr result (λ e.
            first_mismatch (entry_tests
            (key_tests T.TriHashItem Q1.stands_for Q2.stands_for Q3.stands_for) self.old) item
            ≡ Some (mismatch_rank e)) }
        ensures unchanged { OnErr result (self.new ≡ self.old) }
    {
        if let Some(rank) = differ(&item, self.query1, self.query2, self.query3) {
            return Err(KeyMismatch::of_rank(rank, item));
        }
        let found1 = FoundByHash::new(self.slot1, self.map.hash_of1(&item));
        let found2 = FoundByHash::new(self.slot2, self.map.hash_of2(&item));
        let found3 = FoundByHash::new(self.slot3, self.map.hash_of3(&item));
        let (displaced, slot) = self
            .map
            .overwrite(item, &(found1, found2, found3), &mut Meter::new());
        self.slot1 = Some(slot);
        self.slot2 = Some(slot);
        self.slot3 = Some(slot);
        Ok(displaced)
    }

    /// Removes the items, and returns them in the order of the keys. The capacity stays.
    ///
    /// The call hashes each key of a removed item. It compares no key, and allocates no memory.
    pub fn remove(self) -> UpToThree<T>
        requires { HasFound (key_tests T.TriHashItem Q1.stands_for Q2.stands_for Q3.stands_for) self }
        ensures taken { result
            ≡ listing (entry_tests (key_tests T.TriHashItem Q1.stands_for Q2.stands_for Q3.stands_for) self.entry)
            (bag self.entry.map.now) }
        ensures loses { Loses self.entry.map.now result self.exit.0.now }
    {
        let OccupiedEntry {
            map,
            query1: _,
            query2: _,
            query3: _,
            slot1,
            slot2,
            slot3,
        } = self;
        map.remove_slots(&each_once(slot1, slot2, slot3))
    }
}

impl<
    'a,
    T: TriHashItemMut,
    S: BuildHasher,
    Q1: Query<T::K1>,
    Q2: Query<T::K2>,
    Q3: Query<T::K3>,
> OccupiedEntry<'a, T, S, Q1, Q2, Q3> {
    /// Returns the data of the item with the first key, borrowed for writing, or `None` if no item has that key.
    pub fn data1_mut(&mut self) -> Option<&mut T::Data>
        requires { HasFound (key_tests T.TriHashItem Q1.stands_for Q2.stands_for Q3.stands_for) self.old }
        ensures value { option_to_list (option_copied_mut result)
            ≡ map T.data_of (filter (has1 T.TriHashItem Q1.stands_for self.old.query1) (bag self.old.map.now)) }
        ensures swaps { (x : T) (d : T.Data)
            → IsOnly (has1 T.TriHashItem Q1.stands_for self.old.query1) (bag self.old.map.now) (Some x)
            → IsPermutation (bag (entry_with self.old self.old.slot1 (λ y. T.put y d)).map.now)
            (swap ⟦<T as Ranked>⟧.ranks (bag self.old.map.now) x (T.put x d)) }
        ensures has_found { (d : T.Data)
            → HasFound (key_tests T.TriHashItem Q1.stands_for Q2.stands_for Q3.stands_for)
            (entry_with self.old self.old.slot1 (λ y. T.put y d)) }
        ensures* lends { sem 𝓛 (lends_entry_data T.row S.row T.K1.row T.K2.row T.K3.row S.Hasher.row
            T.TriHashItem T.K1.Hash T.K2.Hash T.K3.Hash S.BuildHasher S.Hasher.Hasher Q1.row Q2.row Q3.row T.Data.row T.put
            self.entry self.old.slot1 result) }
    {
        let slot1 = self.slot1;
        self.map.data_mut_of(slot1)
    }

    /// Returns the data of the item with the second key, borrowed for writing, or `None` if no item has that key.
    pub fn data2_mut(&mut self) -> Option<&mut T::Data>
        requires { HasFound (key_tests T.TriHashItem Q1.stands_for Q2.stands_for Q3.stands_for) self.old }
        ensures value { option_to_list (option_copied_mut result)
            ≡ map T.data_of (filter (has2 T.TriHashItem Q2.stands_for self.old.query2) (bag self.old.map.now)) }
        ensures swaps { (x : T) (d : T.Data)
            → IsOnly (has2 T.TriHashItem Q2.stands_for self.old.query2) (bag self.old.map.now) (Some x)
            → IsPermutation (bag (entry_with self.old self.old.slot2 (λ y. T.put y d)).map.now)
            (swap ⟦<T as Ranked>⟧.ranks (bag self.old.map.now) x (T.put x d)) }
        ensures has_found { (d : T.Data)
            → HasFound (key_tests T.TriHashItem Q1.stands_for Q2.stands_for Q3.stands_for)
            (entry_with self.old self.old.slot2 (λ y. T.put y d)) }
        ensures* lends { sem 𝓛 (lends_entry_data T.row S.row T.K1.row T.K2.row T.K3.row S.Hasher.row
            T.TriHashItem T.K1.Hash T.K2.Hash T.K3.Hash S.BuildHasher S.Hasher.Hasher Q1.row Q2.row Q3.row T.Data.row T.put
            self.entry self.old.slot2 result) }
    {
        let slot2 = self.slot2;
        self.map.data_mut_of(slot2)
    }

    /// Returns the data of the item with the third key, borrowed for writing, or `None` if no item has that key.
    pub fn data3_mut(&mut self) -> Option<&mut T::Data>
        requires { HasFound (key_tests T.TriHashItem Q1.stands_for Q2.stands_for Q3.stands_for) self.old }
        ensures value { option_to_list (option_copied_mut result)
            ≡ map T.data_of (filter (has3 T.TriHashItem Q3.stands_for self.old.query3) (bag self.old.map.now)) }
        ensures swaps { (x : T) (d : T.Data)
            → IsOnly (has3 T.TriHashItem Q3.stands_for self.old.query3) (bag self.old.map.now) (Some x)
            → IsPermutation (bag (entry_with self.old self.old.slot3 (λ y. T.put y d)).map.now)
            (swap ⟦<T as Ranked>⟧.ranks (bag self.old.map.now) x (T.put x d)) }
        ensures has_found { (d : T.Data)
            → HasFound (key_tests T.TriHashItem Q1.stands_for Q2.stands_for Q3.stands_for)
            (entry_with self.old self.old.slot3 (λ y. T.put y d)) }
        ensures* lends { sem 𝓛 (lends_entry_data T.row S.row T.K1.row T.K2.row T.K3.row S.Hasher.row
            T.TriHashItem T.K1.Hash T.K2.Hash T.K3.Hash S.BuildHasher S.Hasher.Hasher Q1.row Q2.row Q3.row T.Data.row T.put
            self.entry self.old.slot3 result) }
    {
        let slot3 = self.slot3;
        self.map.data_mut_of(slot3)
    }

    /// Calls `f` with each item, and stores what `f` returns as the item's data. The call updates each item once, that
    /// of the first key first, and the entry still finds it. It compares no key, and allocates no memory.
    pub fn for_each<F: FnMut(&T) -> T::Data>(&mut self, f: F)
    where
        T::Data: Drop,
        requires has_found { HasFound (key_tests T.TriHashItem Q1.stands_for Q2.stands_for Q3.stands_for) self.old }
        requires callable { TakesInTurn F.FnMut f
            (listing (entry_tests (key_tests T.TriHashItem Q1.stands_for Q2.stands_for Q3.stands_for) self.old)
            (bag self.old.map.now)) }
        ensures same_map { self.new.map.ghost_name ≡ self.old.map.ghost_name }
        ensures stores { Stores (CalledAt F.FnMut) T.put ⟦<T as Ranked>⟧.ranks f
            (listing (entry_tests (key_tests T.TriHashItem Q1.stands_for Q2.stands_for Q3.stands_for) self.old)
            (bag self.old.map.now))
            (bag self.old.map.now) (bag self.new.map.now) }
        ensures capacity { self.new.map.now.capacity ≡ self.old.map.now.capacity }
        ensures builder { self.new.map.now.builder ≡ self.old.map.now.builder }
        ensures places { FindsSame self.old self.new }
        ensures has_found { HasFound (key_tests T.TriHashItem Q1.stands_for Q2.stands_for Q3.stands_for) self.new }
    {
        let slot1 = self.slot1;
        let slot2 = self.slot2;
        let slot3 = self.slot3;
        self.map.store_found(slot1, slot2, slot3, f);
    }
}
