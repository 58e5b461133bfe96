//! Borrowing the data of an item for writing, without a guard.
//!
//! Made by tests/widths from crates/iddqd_bi/src/map/data.rt: change that file.
ghost use Rattle.std.specs.Prelude.{◌≡◌, Some, None, is_some, MatchOption};
ghost use Rattle.std.specs.List.{list_any};
ghost use Rattle.std.specs.Borrow.{sem};
ghost use Rattle.iddqd_store.specs.Bag.{IsOnly};
ghost use Rattle.iddqd_store.specs.Map.{bag};
ghost use Rattle.iddqd_store.specs.Map.Written.{MapsWhere, StaysWhere, SwapsWhere};
ghost use Rattle.iddqd_tri.specs.Keys.{has1, has2, has3, has_all};

use super::TriHashMap;
use crate::item::{Ranked, TriHashItemMut};
use iddqd_store::{Costs, Query};
use std::hash::{BuildHasher, Hash};

impl<T: TriHashItemMut, S: BuildHasher> TriHashMap<T, S> {
    ghost use Rattle.iddqd_tri.specs.Lent.{lends_data_where};

    /// Returns the data of the item with the first key that the query stands for, borrowed for writing, or `None` if
    /// no item has that key. What is written through the reference is the item's data, and nothing else changes.
    ///
    /// The call compares at most as many keys as items have the query's hash at the first rank. It allocates no memory.
    ///
    /// `*map.data1_mut(&key)? = data;`
    pub fn data1_mut<Q: Query<T::K1>>(&mut self, query: Q) -> Option<&mut T::Data>
        // The result borrows the data of the item, or is `None` if there is no such item.
        ensures value { MatchOption result (IsOnly (has1 T.TriHashItem Q.stands_for query) (bag self.old) None)
            (λ d. (x : T) × IsOnly (has1 T.TriHashItem Q.stands_for query) (bag self.old) (Some x)
            × (d.now ≡ T.data_of x)) }
        ensures any_found { is_some result ≡ list_any (has1 T.TriHashItem Q.stands_for query) (bag self.old) }
        // What is written through it is the item's data, and nothing else changes. At `None` the map is as it was.
        ensures swaps { SwapsWhere T.put (has1 T.TriHashItem Q.stands_for query) self.old ⟦<T as Ranked>⟧.ranks }
        ensures maps { MapsWhere T.put (has1 T.TriHashItem Q.stands_for query) self.old T.data_of result }
        ensures unchanged { StaysWhere T.put (has1 T.TriHashItem Q.stands_for query) self.old }
        ensures* writes_back { sem 𝓛 (lends_data_where T.row S.row T.K1.row T.K2.row T.K3.row S.Hasher.row
            T.TriHashItem T.K1.Hash T.K2.Hash T.K3.Hash S.BuildHasher S.Hasher.Hasher T.Data.row T.put
            (has1 T.TriHashItem Q.stands_for query) self.entry result) }
    {
        match self.slot1_of(query, &mut Costs::new()) {
            Some(slot) => Some(self.data_mut_at(slot)),
            None => None,
        }
    }

    /// Returns the data of the item with the second key that the query stands for, borrowed for writing, or `None` if
    /// no item has that key. What is written through the reference is the item's data, and nothing else changes.
    ///
    /// The call compares at most as many keys as items have the query's hash at the second rank. It allocates no
    /// memory.
    ///
    /// `*map.data2_mut(&key)? = data;`
    pub fn data2_mut<Q: Query<T::K2>>(&mut self, query: Q) -> Option<&mut T::Data>
        // The result borrows the data of the item, or is `None` if there is no such item.
        ensures value { MatchOption result (IsOnly (has2 T.TriHashItem Q.stands_for query) (bag self.old) None)
            (λ d. (x : T) × IsOnly (has2 T.TriHashItem Q.stands_for query) (bag self.old) (Some x)
            × (d.now ≡ T.data_of x)) }
        ensures any_found { is_some result ≡ list_any (has2 T.TriHashItem Q.stands_for query) (bag self.old) }
        // What is written through it is the item's data, and nothing else changes. At `None` the map is as it was.
        ensures swaps { SwapsWhere T.put (has2 T.TriHashItem Q.stands_for query) self.old ⟦<T as Ranked>⟧.ranks }
        ensures maps { MapsWhere T.put (has2 T.TriHashItem Q.stands_for query) self.old T.data_of result }
        ensures unchanged { StaysWhere T.put (has2 T.TriHashItem Q.stands_for query) self.old }
        ensures* writes_back { sem 𝓛 (lends_data_where T.row S.row T.K1.row T.K2.row T.K3.row S.Hasher.row
            T.TriHashItem T.K1.Hash T.K2.Hash T.K3.Hash S.BuildHasher S.Hasher.Hasher T.Data.row T.put
            (has2 T.TriHashItem Q.stands_for query) self.entry result) }
    {
        match self.slot2_of(query, &mut Costs::new()) {
            Some(slot) => Some(self.data_mut_at(slot)),
            None => None,
        }
    }

    /// Returns the data of the item with the third key that the query stands for, borrowed for writing, or `None` if
    /// no item has that key. What is written through the reference is the item's data, and nothing else changes.
    ///
    /// The call compares at most as many keys as items have the query's hash at the third rank. It allocates no
    /// memory.
    ///
    /// `*map.data3_mut(&key)? = data;`
    pub fn data3_mut<Q: Query<T::K3>>(&mut self, query: Q) -> Option<&mut T::Data>
        // The result borrows the data of the item, or is `None` if there is no such item.
        ensures value { MatchOption result (IsOnly (has3 T.TriHashItem Q.stands_for query) (bag self.old) None)
            (λ d. (x : T) × IsOnly (has3 T.TriHashItem Q.stands_for query) (bag self.old) (Some x)
            × (d.now ≡ T.data_of x)) }
        ensures any_found { is_some result ≡ list_any (has3 T.TriHashItem Q.stands_for query) (bag self.old) }
        // What is written through it is the item's data, and nothing else changes. At `None` the map is as it was.
        ensures swaps { SwapsWhere T.put (has3 T.TriHashItem Q.stands_for query) self.old ⟦<T as Ranked>⟧.ranks }
        ensures maps { MapsWhere T.put (has3 T.TriHashItem Q.stands_for query) self.old T.data_of result }
        ensures unchanged { StaysWhere T.put (has3 T.TriHashItem Q.stands_for query) self.old }
        ensures* writes_back { sem 𝓛 (lends_data_where T.row S.row T.K1.row T.K2.row T.K3.row S.Hasher.row
            T.TriHashItem T.K1.Hash T.K2.Hash T.K3.Hash S.BuildHasher S.Hasher.Hasher T.Data.row T.put
            (has3 T.TriHashItem Q.stands_for query) self.entry result) }
    {
        match self.slot3_of(query, &mut Costs::new()) {
            Some(slot) => Some(self.data_mut_at(slot)),
            None => None,
        }
    }

    /// Returns the data of the item that has all keys that the queries stand for, borrowed for writing, or `None` if
    /// there is no such item. What is written through the reference is the item's data, and nothing else changes.
    ///
    /// The call compares the keys that `get_unique` compares. It allocates no memory.
    pub fn data_unique_mut<Q1: Query<T::K1>, Q2: Query<T::K2>, Q3: Query<T::K3>>(
        &mut self,
        query1: Q1,
        query2: Q2,
        query3: Q3,
    ) -> Option<&mut T::Data>
        // The result borrows the data of the item, or is `None` if there is no such item.
        ensures value { MatchOption result
            (IsOnly (has_all T.TriHashItem Q1.stands_for Q2.stands_for Q3.stands_for query1 query2 query3)
            (bag self.old) None)
            (λ d. (x : T) × IsOnly
            (has_all T.TriHashItem Q1.stands_for Q2.stands_for Q3.stands_for query1 query2 query3)
            (bag self.old) (Some x) × (d.now ≡ T.data_of x)) }
        ensures any_found { is_some result
            ≡ list_any (has_all T.TriHashItem Q1.stands_for Q2.stands_for Q3.stands_for query1 query2 query3)
            (bag self.old) }
        // What is written through it is the item's data, and nothing else changes. At `None` the map is as it was.
        ensures swaps { SwapsWhere T.put
            (has_all T.TriHashItem Q1.stands_for Q2.stands_for Q3.stands_for query1 query2 query3) self.old ⟦<T as Ranked>⟧.ranks }
        ensures maps { MapsWhere T.put
            (has_all T.TriHashItem Q1.stands_for Q2.stands_for Q3.stands_for query1 query2 query3) self.old T.data_of result }
        ensures unchanged { StaysWhere T.put
            (has_all T.TriHashItem Q1.stands_for Q2.stands_for Q3.stands_for query1 query2 query3) self.old }
        ensures* writes_back { sem 𝓛 (lends_data_where T.row S.row T.K1.row T.K2.row T.K3.row S.Hasher.row
            T.TriHashItem T.K1.Hash T.K2.Hash T.K3.Hash S.BuildHasher S.Hasher.Hasher T.Data.row T.put
            (has_all T.TriHashItem Q1.stands_for Q2.stands_for Q3.stands_for query1 query2 query3) self.entry result) }
    {
        match self.slot_of_all(query1, query2, query3) {
            Some(slot) => Some(self.data_mut_at(slot)),
            None => None,
        }
    }
}
