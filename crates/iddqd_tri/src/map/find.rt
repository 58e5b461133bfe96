//! Lookups. Each searches the table of one rank, which leads to the item's slot.
//!
//! Made by tests/widths from crates/iddqd_bi/src/map/find.rt: change that file.
ghost use Rattle.std.specs.Prelude.{Contains, ◌≡◌, option_copied};
ghost use Rattle.std.specs.List.{list_any};
ghost use Rattle.iddqd_store.specs.Bag.{IsOnly};
ghost use Rattle.iddqd_store.specs.Map.{bag, hash_of};
ghost use Rattle.iddqd_store.specs.Rank.{agree, NamesOneByHash, SearchCosts};
ghost use Rattle.iddqd_store.specs.Slots.Found.{FoundAt};
ghost use Rattle.iddqd_tri.specs.Keys.{has1, has2, has3, has_all};

use super::TriHashMap;
use crate::item::{Hashed, TriHashItem};
use iddqd_store::{ByQuery, Costs, ItemIndex, KeyMatcher, Meter, Query};
use std::hash::{BuildHasher, Hash};

impl<T: TriHashItem, S: BuildHasher> TriHashMap<T, S> {
    /// Returns the item with the first key that the query stands for, or `None`. A query is a `&key`, or what stands
    /// for a key, such as a `&str` for a `String`: `map.get1(&key)`, `map.get1("main")`.
    ///
    /// The call compares at most as many keys as items have the query's hash at the first rank.
    ///
    /// ```text
    /// match map.get1(&key1) {
    ///     Some(item) => println!(rt; "{item:?}")?,
    ///     None => println!(rt; "no item has this key")?,
    /// }
    /// ```
    pub fn get1<Q: Query<T::K1>>(&self, query: Q) -> Option<&T>
        ensures { IsOnly (has1 T.TriHashItem Q.stands_for query) (bag self.now) (option_copied result) }
    {
        let hash = self.hash_builder.hash_one(query);
        self.find1_with(
            hash,
            &mut ByQuery::new(&query, &mut Meter::new()),
            &mut Meter::new(),
        )
    }

    /// Returns the item with the second key that the query stands for, or `None`. A query is a `&key`, or what stands
    /// for a key, such as a `&str` for a `String`: `map.get2(&key)`, `map.get2("main")`.
    ///
    /// The call compares at most as many keys as items have the query's hash at the second rank.
    ///
    /// ```text
    /// match map.get2(&key2) {
    ///     Some(item) => println!(rt; "{item:?}")?,
    ///     None => println!(rt; "no item has this key")?,
    /// }
    /// ```
    pub fn get2<Q: Query<T::K2>>(&self, query: Q) -> Option<&T>
        ensures { IsOnly (has2 T.TriHashItem Q.stands_for query) (bag self.now) (option_copied result) }
    {
        let hash = self.hash_builder.hash_one(query);
        self.find2_with(
            hash,
            &mut ByQuery::new(&query, &mut Meter::new()),
            &mut Meter::new(),
        )
    }

    /// Returns the item with the third key that the query stands for, or `None`. A query is a `&key`, or what stands
    /// for a key, such as a `&str` for a `String`: `map.get3(&key)`, `map.get3("main")`.
    ///
    /// The call compares at most as many keys as items have the query's hash at the third rank.
    ///
    /// ```text
    /// match map.get3(&key3) {
    ///     Some(item) => println!(rt; "{item:?}")?,
    ///     None => println!(rt; "no item has this key")?,
    /// }
    /// ```
    pub fn get3<Q: Query<T::K3>>(&self, query: Q) -> Option<&T>
        ensures { IsOnly (has3 T.TriHashItem Q.stands_for query) (bag self.now) (option_copied result) }
    {
        let hash = self.hash_builder.hash_one(query);
        self.find3_with(
            hash,
            &mut ByQuery::new(&query, &mut Meter::new()),
            &mut Meter::new(),
        )
    }

    /// Returns the item that has all keys that the queries stand for, or `None`.
    ///
    /// The call compares as many keys as `get1`, and the other keys of the item found.
    pub fn get_unique<Q1: Query<T::K1>, Q2: Query<T::K2>, Q3: Query<T::K3>>(
        &self,
        query1: Q1,
        query2: Q2,
        query3: Q3,
    ) -> Option<&T>
        ensures { IsOnly (has_all T.TriHashItem Q1.stands_for Q2.stands_for Q3.stands_for query1 query2 query3)
            (bag self.now) (option_copied result) }
    {
        let hash = self.hash_builder.hash_one(query1);
        self.item_of(self.slot_unique(hash, query1, query2, query3, &mut Costs::new()))
    }

    /// Returns whether an item has the first key that the query stands for. It costs what `get1` costs.
    pub fn contains_key1<Q: Query<T::K1>>(&self, query: Q) -> bool
        ensures { result ≡ list_any (has1 T.TriHashItem Q.stands_for query) (bag self.now) }
    {
        self.get1(query).is_some()
    }

    /// Returns whether an item has the second key that the query stands for. It costs what `get2` costs.
    pub fn contains_key2<Q: Query<T::K2>>(&self, query: Q) -> bool
        ensures { result ≡ list_any (has2 T.TriHashItem Q.stands_for query) (bag self.now) }
    {
        self.get2(query).is_some()
    }

    /// Returns whether an item has the third key that the query stands for. It costs what `get3` costs.
    pub fn contains_key3<Q: Query<T::K3>>(&self, query: Q) -> bool
        ensures { result ≡ list_any (has3 T.TriHashItem Q.stands_for query) (bag self.now) }
    {
        self.get3(query).is_some()
    }

    /// Returns whether an item has all keys that the queries stand for. It costs what `get_unique` costs.
    pub fn contains_key_unique<Q1: Query<T::K1>, Q2: Query<T::K2>, Q3: Query<T::K3>>(
        &self,
        query1: Q1,
        query2: Q2,
        query3: Q3,
    ) -> bool
        ensures { result
            ≡ list_any (has_all T.TriHashItem Q1.stands_for Q2.stands_for Q3.stands_for query1 query2 query3)
            (bag self.now) }
    {
        self.get_unique(query1, query2, query3).is_some()
    }

    /// Returns the item whose first key the matcher accepts, or `None`. Every lookup by first keys is this search.
    ///
    /// All first keys of items that the matcher accepts must be equal to each other and have this hash. The matcher is
    /// asked at most as often as items have the hash at the first rank. The meter counts the cells that the search
    /// probes, at most one more than there are items.
    pub fn find1_with<M: KeyMatcher<T::K1>>(
        &self,
        hash: u64,
        matcher: &mut M,
        meter: &mut Meter,
    ) -> Option<&T>
        requires names { NamesOneByHash (agree T.key1 T.K1.eq) (⟦<T as Hashed<S>>⟧.hash1 self.now.builder) hash
            (λ x. M.accepts matcher.old (T.key1 x)) (bag self.now) }
        requires asks { (x : T) → Contains (bag self.now) x → ⟦<T as Hashed<S>>⟧.hash1 self.now.builder x ≡ hash
            → M.MayAsk matcher.old (T.key1 x) }
        ensures found { IsOnly (λ x. M.accepts matcher.old (T.key1 x)) (bag self.now) (option_copied result) }
        ensures is_kept { M.IsKept matcher.old matcher.new }
        ensures costs { SearchCosts (⟦<T as Hashed<S>>⟧.hash1 self.now.builder) (bag self.now)
            self.now.capacity hash result (M.asked matcher.old) (M.asked matcher.new) meter.old meter.new }
    {
        self.by_key1().find_with(hash, matcher, meter)
    }

    /// Returns the item whose second key the matcher accepts, or `None`. Every lookup by second keys is this search.
    ///
    /// All second keys of items that the matcher accepts must be equal to each other and have this hash. The matcher is
    /// asked at most as often as items have the hash at the second rank. The meter counts the cells that the search
    /// probes, at most one more than there are items.
    pub fn find2_with<M: KeyMatcher<T::K2>>(
        &self,
        hash: u64,
        matcher: &mut M,
        meter: &mut Meter,
    ) -> Option<&T>
        requires names { NamesOneByHash (agree T.key2 T.K2.eq) (⟦<T as Hashed<S>>⟧.hash2 self.now.builder) hash
            (λ x. M.accepts matcher.old (T.key2 x)) (bag self.now) }
        requires asks { (x : T) → Contains (bag self.now) x → ⟦<T as Hashed<S>>⟧.hash2 self.now.builder x ≡ hash
            → M.MayAsk matcher.old (T.key2 x) }
        ensures found { IsOnly (λ x. M.accepts matcher.old (T.key2 x)) (bag self.now) (option_copied result) }
        ensures is_kept { M.IsKept matcher.old matcher.new }
        ensures costs { SearchCosts (⟦<T as Hashed<S>>⟧.hash2 self.now.builder) (bag self.now)
            self.now.capacity hash result (M.asked matcher.old) (M.asked matcher.new) meter.old meter.new }
    {
        self.by_key2().find_with(hash, matcher, meter)
    }

    /// Returns the item whose third key the matcher accepts, or `None`. Every lookup by third keys is this search.
    ///
    /// All third keys of items that the matcher accepts must be equal to each other and have this hash. The matcher is
    /// asked at most as often as items have the hash at the third rank. The meter counts the cells that the search
    /// probes, at most one more than there are items.
    pub fn find3_with<M: KeyMatcher<T::K3>>(
        &self,
        hash: u64,
        matcher: &mut M,
        meter: &mut Meter,
    ) -> Option<&T>
        requires names { NamesOneByHash (agree T.key3 T.K3.eq) (⟦<T as Hashed<S>>⟧.hash3 self.now.builder) hash
            (λ x. M.accepts matcher.old (T.key3 x)) (bag self.now) }
        requires asks { (x : T) → Contains (bag self.now) x → ⟦<T as Hashed<S>>⟧.hash3 self.now.builder x ≡ hash
            → M.MayAsk matcher.old (T.key3 x) }
        ensures found { IsOnly (λ x. M.accepts matcher.old (T.key3 x)) (bag self.now) (option_copied result) }
        ensures is_kept { M.IsKept matcher.old matcher.new }
        ensures costs { SearchCosts (⟦<T as Hashed<S>>⟧.hash3 self.now.builder) (bag self.now)
            self.now.capacity hash result (M.asked matcher.old) (M.asked matcher.new) meter.old meter.new }
    {
        self.by_key3().find_with(hash, matcher, meter)
    }

    /// Returns the slot of the item whose first key the query stands for, or `None`.
    pub(crate) fn slot1_of<Q: Query<T::K1>>(&self, query: Q, costs: &mut Costs) -> Option<ItemIndex>
        ensures found { FoundAt (has1 T.TriHashItem Q.stands_for query) self.now.slots result }
        ensures costs { SearchCosts (⟦<T as Hashed<S>>⟧.hash1 self.now.builder) (bag self.now) self.now.capacity
            (hash_of S.BuildHasher S.Hasher.Hasher self.now.builder (Q.hash_input query)) result
            costs.old.asked costs.new.asked costs.old.probed costs.new.probed }
    {
        self.by_key1().slot_of(query, costs)
    }

    /// Returns the slot of the item whose second key the query stands for, or `None`.
    pub(crate) fn slot2_of<Q: Query<T::K2>>(&self, query: Q, costs: &mut Costs) -> Option<ItemIndex>
        ensures found { FoundAt (has2 T.TriHashItem Q.stands_for query) self.now.slots result }
        ensures costs { SearchCosts (⟦<T as Hashed<S>>⟧.hash2 self.now.builder) (bag self.now) self.now.capacity
            (hash_of S.BuildHasher S.Hasher.Hasher self.now.builder (Q.hash_input query)) result
            costs.old.asked costs.new.asked costs.old.probed costs.new.probed }
    {
        self.by_key2().slot_of(query, costs)
    }

    /// Returns the slot of the item whose third key the query stands for, or `None`.
    pub(crate) fn slot3_of<Q: Query<T::K3>>(&self, query: Q, costs: &mut Costs) -> Option<ItemIndex>
        ensures found { FoundAt (has3 T.TriHashItem Q.stands_for query) self.now.slots result }
        ensures costs { SearchCosts (⟦<T as Hashed<S>>⟧.hash3 self.now.builder) (bag self.now) self.now.capacity
            (hash_of S.BuildHasher S.Hasher.Hasher self.now.builder (Q.hash_input query)) result
            costs.old.asked costs.new.asked costs.old.probed costs.new.probed }
    {
        self.by_key3().slot_of(query, costs)
    }
}
