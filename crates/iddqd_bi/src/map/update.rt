//! Updating items by a closure, which is called with an item and returns its new data.
ghost use Rattle.std.specs.Prelude.{◌≡◌, Some, true, false};
ghost use Rattle.std.specs.Fn.{CalledAt, FnOnceReturnsAt, FnOnceTakesAt};
ghost use Rattle.std.specs.List.{list_any};
ghost use Rattle.iddqd_store.specs.Bag.{IsOnly};
ghost use Rattle.iddqd_store.specs.Bag.Calling.{TakesInAnyOrder};
ghost use Rattle.iddqd_store.specs.Bag.Storing.{MapsAll, MapsOne, StoresInAll, StoresOne};
ghost use Rattle.iddqd_store.specs.Map.{bag};
ghost use Rattle.iddqd_bi.specs.Keys.{has1, has2, has_both};

use super::BiHashMap;
use crate::item::{BiHashItemMut, Ranked};
use iddqd_store::{Costs, Query};
use std::hash::{BuildHasher, Hash};

impl<T: BiHashItemMut, S: BuildHasher> BiHashMap<T, S> {
    /// Calls `f` with the item with the first key that the query stands for, and stores what it returns as the item's
    /// data. Returns whether there is such an item. If not, `f` is not called, and nothing changes.
    ///
    /// The call allocates no memory, and costs what `get1` costs.
    ///
    /// `map.update1(&key, |item| item.count + 1)`
    pub fn update1<Q: Query<T::K1>, F: FnOnce(&T) -> T::Data>(&mut self, query: Q, f: F) -> bool
    where
        T::Data: Drop,
        F: Drop,
        requires { (x : T) → IsOnly (has1 T.BiHashItem Q.stands_for query) (bag self.old) (Some x)
            → FnOnceTakesAt F.FnOnce f x }
        ensures any_found { result ≡ list_any (has1 T.BiHashItem Q.stands_for query) (bag self.old) }
        ensures stores { result ≡ true → StoresOne (FnOnceReturnsAt F.FnOnce f) T.put ⟦<T as Ranked>⟧.ranks
            (has1 T.BiHashItem Q.stands_for query) (bag self.old) (bag self.new) }
        ensures maps { MapsOne (FnOnceReturnsAt F.FnOnce f) T.put
            (has1 T.BiHashItem Q.stands_for query) (bag self.old) (bag self.new) }
        ensures absent { result ≡ false → self.new ≡ self.old }
        ensures capacity { self.new.capacity ≡ self.old.capacity }
        ensures builder { self.new.builder ≡ self.old.builder }
    {
        match self.slot1_of(query, &mut Costs::new()) {
            Some(slot) => {
                self.store_once(slot, f);
                true
            }
            None => false,
        }
    }

    /// Calls `f` with the item with the second key that the query stands for, and stores what it returns as the item's
    /// data. Returns whether there is such an item. If not, `f` is not called, and nothing changes.
    ///
    /// The call allocates no memory, and costs what `get2` costs.
    ///
    /// `map.update2(&key, |item| item.count + 1)`
    pub fn update2<Q: Query<T::K2>, F: FnOnce(&T) -> T::Data>(&mut self, query: Q, f: F) -> bool
    where
        T::Data: Drop,
        F: Drop,
        requires { (x : T) → IsOnly (has2 T.BiHashItem Q.stands_for query) (bag self.old) (Some x)
            → FnOnceTakesAt F.FnOnce f x }
        ensures any_found { result ≡ list_any (has2 T.BiHashItem Q.stands_for query) (bag self.old) }
        ensures stores { result ≡ true → StoresOne (FnOnceReturnsAt F.FnOnce f) T.put ⟦<T as Ranked>⟧.ranks
            (has2 T.BiHashItem Q.stands_for query) (bag self.old) (bag self.new) }
        ensures maps { MapsOne (FnOnceReturnsAt F.FnOnce f) T.put
            (has2 T.BiHashItem Q.stands_for query) (bag self.old) (bag self.new) }
        ensures absent { result ≡ false → self.new ≡ self.old }
        ensures capacity { self.new.capacity ≡ self.old.capacity }
        ensures builder { self.new.builder ≡ self.old.builder }
    {
        match self.slot2_of(query, &mut Costs::new()) {
            Some(slot) => {
                self.store_once(slot, f);
                true
            }
            None => false,
        }
    }

    /// Calls `f` with the item that has both keys that the queries stand for, and stores what it returns as the item's
    /// data. Returns whether there is such an item. If not, `f` is not called, and nothing changes.
    ///
    /// The call allocates no memory, and costs what `get_unique` costs.
    pub fn update_unique<Q1: Query<T::K1>, Q2: Query<T::K2>, F: FnOnce(&T) -> T::Data>(
        &mut self,
        query1: Q1,
        query2: Q2,
        f: F,
    ) -> bool
    where
        T::Data: Drop,
        F: Drop,
        requires { (x : T) → IsOnly (has_both T.BiHashItem Q1.stands_for Q2.stands_for query1 query2)
            (bag self.old) (Some x) → FnOnceTakesAt F.FnOnce f x }
        ensures any_found { result
            ≡ list_any (has_both T.BiHashItem Q1.stands_for Q2.stands_for query1 query2) (bag self.old) }
        ensures stores { result ≡ true → StoresOne (FnOnceReturnsAt F.FnOnce f) T.put ⟦<T as Ranked>⟧.ranks
            (has_both T.BiHashItem Q1.stands_for Q2.stands_for query1 query2) (bag self.old) (bag self.new) }
        ensures maps { MapsOne (FnOnceReturnsAt F.FnOnce f) T.put
            (has_both T.BiHashItem Q1.stands_for Q2.stands_for query1 query2) (bag self.old) (bag self.new) }
        ensures absent { result ≡ false → self.new ≡ self.old }
        ensures capacity { self.new.capacity ≡ self.old.capacity }
        ensures builder { self.new.builder ≡ self.old.builder }
    {
        match self.slot_of_both(query1, query2) {
            Some(slot) => {
                self.store_once(slot, f);
                true
            }
            None => false,
        }
    }

    /// Calls `f` once with each item, in unspecified order, and stores what it returns as the item's data.
    ///
    /// The call allocates no memory, and compares and hashes no key.
    ///
    /// `map.update_all(|session| session.seen.wrapping_add(1))`
    pub fn update_all<F: FnMut(&T) -> T::Data>(&mut self, mut f: F)
    where
        T::Data: Drop,
        requires { TakesInAnyOrder F.FnMut f (bag self.old) }
        ensures stores { StoresInAll (CalledAt F.FnMut) T.put f (bag self.old) (bag self.new) }
        ensures maps { MapsAll (CalledAt F.FnMut) T.put f (bag self.old) (bag self.new) }
        ensures capacity { self.new.capacity ≡ self.old.capacity }
        ensures builder { self.new.builder ≡ self.old.builder }
    {
        // A loop over all numbers of slots takes less time than one from each live slot to the next.
        for number in 0..self.slot_count() {
            if let Some(slot) = self.slot_at(number) {
                self.store_at(slot, &mut f);
            }
        }
    }
}
