//! The items that three keys found, held for writing.
//!
//! Made by tests/widths from crates/iddqd_bi/src/entry/occupied_mut.rt: change that file.
ghost use Rattle.std.specs.Prelude.{◌≡◌, not, map, Some, IfSome, IsPermutation};
ghost use Rattle.std.specs.Borrow.{sem};
ghost use Rattle.std.specs.Fn.{CalledAt};
ghost use Rattle.std.specs.Option.{option_and_then, option_copied_mut, option_to_list};
ghost use Rattle.iddqd_store.specs.Bag.{is_unique, swap};
ghost use Rattle.iddqd_store.specs.Bag.Calling.{TakesInTurn};
ghost use Rattle.iddqd_store.specs.Bag.Storing.{Stores};
ghost use Rattle.iddqd_store.specs.Map.{bag};
ghost use Rattle.iddqd_tri.specs.Entries.{Holds, HoldsSame, held_items, held_item1, held_item2, held_item3, held_entry, held_unique, held_with, lends_held_data, unique_slot};
ghost use Rattle.iddqd_tri.specs.RefMuts.{ref_lender, ref_map, ref_item, rests_if_none};

use super::OccupiedEntryMut;
use crate::item::{Ranked, TriHashItem, TriHashItemMut};
use crate::map::slots::found::one_of;
use crate::ref_mut::RefMut;
use std::hash::{BuildHasher, Hash};

impl<'a, T: TriHashItem, S: BuildHasher> OccupiedEntryMut<'a, T, S> {
    /// Returns whether one item has all keys.
    pub fn is_unique(&self) -> bool
        requires { Holds self.now }
        ensures { result ≡ is_unique (held_entry self.now) }
    {
        one_of(self.slot1, self.slot2, self.slot3).is_some()
    }

    /// Returns whether no item has all keys.
    pub fn is_non_unique(&self) -> bool
        requires { Holds self.now }
        ensures { result ≡ not (is_unique (held_entry self.now)) }
    {
        !self.is_unique()
    }

    /// Returns a guard of the item that has all keys, or `None`. Contracts say less of the map afterwards than after
    /// `into_unique`.
    pub fn as_unique(&mut self) -> Option<RefMut<'_, T, S>>
        ensures item { option_and_then ref_item result ≡ held_unique self.old }
        ensures unchanged { IfSome result (λ r. ref_map r ≡ self.old.map.now) }
    {
        let slot = one_of(self.slot1, self.slot2, self.slot3);
        self.map.lend(slot)
    }

    /// Returns a guard of the item with the first key, or `None`. Contracts say less of the map afterwards than after
    /// `into_by_key1`.
    pub fn by_key1(&mut self) -> Option<RefMut<'_, T, S>>
        ensures item { option_and_then ref_item result ≡ held_item1 self.old }
        ensures unchanged { IfSome result (λ r. ref_map r ≡ self.old.map.now) }
    {
        let slot = self.slot1;
        self.map.lend(slot)
    }

    /// Returns a guard of the item with the second key, or `None`. Contracts say less of the map afterwards than after
    /// `into_by_key2`.
    pub fn by_key2(&mut self) -> Option<RefMut<'_, T, S>>
        ensures item { option_and_then ref_item result ≡ held_item2 self.old }
        ensures unchanged { IfSome result (λ r. ref_map r ≡ self.old.map.now) }
    {
        let slot = self.slot2;
        self.map.lend(slot)
    }

    /// Returns a guard of the item with the third key, or `None`. Contracts say less of the map afterwards than after
    /// `into_by_key3`.
    pub fn by_key3(&mut self) -> Option<RefMut<'_, T, S>>
        ensures item { option_and_then ref_item result ≡ held_item3 self.old }
        ensures unchanged { IfSome result (λ r. ref_map r ≡ self.old.map.now) }
    {
        let slot = self.slot3;
        self.map.lend(slot)
    }

    /// Returns a guard of the item that has all keys, or `None`. The guard lasts for as long as `self` borrowed the
    /// map.
    pub fn into_unique(self) -> Option<RefMut<'a, T, S>>
        ensures item { option_and_then ref_item result ≡ held_unique self.entry }
        ensures unchanged { IfSome result (λ r. ref_map r ≡ self.entry.map.now) }
        ensures same_map { IfSome result (λ r. ref_lender r ≡ self.entry.map.ghost_name) }
        ensures* rests_at_none { sem 𝓛 (rests_if_none T.row S.row T.K1.row T.K2.row T.K3.row S.Hasher.row
            self.entry.map result) }
    {
        let OccupiedEntryMut {
            map,
            slot1,
            slot2,
            slot3,
        } = self;
        map.lend(one_of(slot1, slot2, slot3))
    }

    /// Returns a guard of the item with the first key, or `None`. The guard lasts for as long as `self` borrowed the
    /// map.
    pub fn into_by_key1(self) -> Option<RefMut<'a, T, S>>
        ensures item { option_and_then ref_item result ≡ held_item1 self.entry }
        ensures unchanged { IfSome result (λ r. ref_map r ≡ self.entry.map.now) }
        ensures same_map { IfSome result (λ r. ref_lender r ≡ self.entry.map.ghost_name) }
        ensures* rests_at_none { sem 𝓛 (rests_if_none T.row S.row T.K1.row T.K2.row T.K3.row S.Hasher.row
            self.entry.map result) }
    {
        let OccupiedEntryMut {
            map,
            slot1,
            slot2: _,
            slot3: _,
        } = self;
        map.lend(slot1)
    }

    /// Returns a guard of the item with the second key, or `None`. The guard lasts for as long as `self` borrowed the
    /// map.
    pub fn into_by_key2(self) -> Option<RefMut<'a, T, S>>
        ensures item { option_and_then ref_item result ≡ held_item2 self.entry }
        ensures unchanged { IfSome result (λ r. ref_map r ≡ self.entry.map.now) }
        ensures same_map { IfSome result (λ r. ref_lender r ≡ self.entry.map.ghost_name) }
        ensures* rests_at_none { sem 𝓛 (rests_if_none T.row S.row T.K1.row T.K2.row T.K3.row S.Hasher.row
            self.entry.map result) }
    {
        let OccupiedEntryMut {
            map,
            slot1: _,
            slot2,
            slot3: _,
        } = self;
        map.lend(slot2)
    }

    /// Returns a guard of the item with the third key, or `None`. The guard lasts for as long as `self` borrowed the
    /// map.
    pub fn into_by_key3(self) -> Option<RefMut<'a, T, S>>
        ensures item { option_and_then ref_item result ≡ held_item3 self.entry }
        ensures unchanged { IfSome result (λ r. ref_map r ≡ self.entry.map.now) }
        ensures same_map { IfSome result (λ r. ref_lender r ≡ self.entry.map.ghost_name) }
        ensures* rests_at_none { sem 𝓛 (rests_if_none T.row S.row T.K1.row T.K2.row T.K3.row S.Hasher.row
            self.entry.map result) }
    {
        let OccupiedEntryMut {
            map,
            slot1: _,
            slot2: _,
            slot3,
        } = self;
        map.lend(slot3)
    }
}

impl<'a, T: TriHashItemMut, S: BuildHasher> OccupiedEntryMut<'a, T, S> {
    /// Returns the data of the item with the first key, borrowed for writing, or `None`. All items stay held.
    pub fn data1_mut(&mut self) -> Option<&mut T::Data>
        requires { Holds self.old }
        ensures value { option_to_list (option_copied_mut result) ≡ map T.data_of (option_to_list
            (held_item1 self.old)) }
        ensures swaps { (x : T) (d : T.Data) → held_item1 self.old ≡ Some x
            → IsPermutation (bag (held_with self.old self.old.slot1 (λ y. T.put y d)).map.now)
            (swap ⟦<T as Ranked>⟧.ranks (bag self.old.map.now) x (T.put x d)) }
        ensures holds { (f : T → T) → Holds (held_with self.old self.old.slot1 f) }
        ensures* lends { sem 𝓛 (lends_held_data T.row S.row T.K1.row T.K2.row T.K3.row S.Hasher.row
            T.TriHashItem T.K1.Hash T.K2.Hash T.K3.Hash S.BuildHasher S.Hasher.Hasher T.Data.row T.put
            self.entry self.old.slot1 result) }
    {
        let slot1 = self.slot1;
        self.map.data_mut_of(slot1)
    }

    /// Returns the data of the item with the second key, borrowed for writing, or `None`. All items stay held.
    pub fn data2_mut(&mut self) -> Option<&mut T::Data>
        requires { Holds self.old }
        ensures value { option_to_list (option_copied_mut result) ≡ map T.data_of (option_to_list
            (held_item2 self.old)) }
        ensures swaps { (x : T) (d : T.Data) → held_item2 self.old ≡ Some x
            → IsPermutation (bag (held_with self.old self.old.slot2 (λ y. T.put y d)).map.now)
            (swap ⟦<T as Ranked>⟧.ranks (bag self.old.map.now) x (T.put x d)) }
        ensures holds { (f : T → T) → Holds (held_with self.old self.old.slot2 f) }
        ensures* lends { sem 𝓛 (lends_held_data T.row S.row T.K1.row T.K2.row T.K3.row S.Hasher.row
            T.TriHashItem T.K1.Hash T.K2.Hash T.K3.Hash S.BuildHasher S.Hasher.Hasher T.Data.row T.put
            self.entry self.old.slot2 result) }
    {
        let slot2 = self.slot2;
        self.map.data_mut_of(slot2)
    }

    /// Returns the data of the item with the third key, borrowed for writing, or `None`. All items stay held.
    pub fn data3_mut(&mut self) -> Option<&mut T::Data>
        requires { Holds self.old }
        ensures value { option_to_list (option_copied_mut result) ≡ map T.data_of (option_to_list
            (held_item3 self.old)) }
        ensures swaps { (x : T) (d : T.Data) → held_item3 self.old ≡ Some x
            → IsPermutation (bag (held_with self.old self.old.slot3 (λ y. T.put y d)).map.now)
            (swap ⟦<T as Ranked>⟧.ranks (bag self.old.map.now) x (T.put x d)) }
        ensures holds { (f : T → T) → Holds (held_with self.old self.old.slot3 f) }
        ensures* lends { sem 𝓛 (lends_held_data T.row S.row T.K1.row T.K2.row T.K3.row S.Hasher.row
            T.TriHashItem T.K1.Hash T.K2.Hash T.K3.Hash S.BuildHasher S.Hasher.Hasher T.Data.row T.put
            self.entry self.old.slot3 result) }
    {
        let slot3 = self.slot3;
        self.map.data_mut_of(slot3)
    }

    /// Returns the data of the item that has all keys, borrowed for writing, or `None`. All items stay held.
    pub fn data_unique_mut(&mut self) -> Option<&mut T::Data>
        requires { Holds self.old }
        ensures value { option_to_list (option_copied_mut result) ≡ map T.data_of (option_to_list
            (held_unique self.old)) }
        ensures swaps { (x : T) (d : T.Data) → held_unique self.old ≡ Some x
            → IsPermutation (bag (held_with self.old (unique_slot self.old) (λ y. T.put y d)).map.now)
            (swap ⟦<T as Ranked>⟧.ranks (bag self.old.map.now) x (T.put x d)) }
        ensures holds { (f : T → T) → Holds (held_with self.old (unique_slot self.old) f) }
        ensures* lends { sem 𝓛 (lends_held_data T.row S.row T.K1.row T.K2.row T.K3.row S.Hasher.row
            T.TriHashItem T.K1.Hash T.K2.Hash T.K3.Hash S.BuildHasher S.Hasher.Hasher T.Data.row T.put
            self.entry (unique_slot self.old) result) }
    {
        let slot = one_of(self.slot1, self.slot2, self.slot3);
        self.map.data_mut_of(slot)
    }

    /// Calls `f` with each item, as it is then, and stores what `f` returns as the item's data. The call updates each
    /// item once, that of the first key first. It compares no key, and allocates no memory.
    pub fn for_each<F: FnMut(&T) -> T::Data>(&mut self, f: F)
    where
        T::Data: Drop,
        requires holds { Holds self.old }
        requires callable { TakesInTurn F.FnMut f (held_items self.old) }
        // Each item that is held gets the data that the closure returns for it.
        ensures same_map { self.new.map.ghost_name ≡ self.old.map.ghost_name }
        ensures stores { Stores (CalledAt F.FnMut) T.put ⟦<T as Ranked>⟧.ranks f
            (held_items self.old) (bag self.old.map.now) (bag self.new.map.now) }
        // Nothing else changes.
        ensures places { HoldsSame self.old self.new }
        ensures holds { Holds self.new }
        ensures capacity { self.new.map.now.capacity ≡ self.old.map.now.capacity }
        ensures builder { self.new.map.now.builder ≡ self.old.map.now.builder }
    {
        let slot1 = self.slot1;
        let slot2 = self.slot2;
        let slot3 = self.slot3;
        self.map.store_found(slot1, slot2, slot3, f);
    }
}
