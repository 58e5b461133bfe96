//! Removing items.
//!
//! Made by tests/widths from crates/iddqd_bi/src/map/remove.rt: change that file.
ghost use Rattle.std.specs.Prelude.{Contains, [], ◌≡◌, ◌∷◌, IfNone};
ghost use Rattle.std.specs.Option.{option_to_list};
ghost use Rattle.iddqd_store.specs.Bag.{IsOnly};
ghost use Rattle.iddqd_store.specs.Map.{bag, Loses};
ghost use Rattle.iddqd_store.specs.Rank.{agree, NamesOneByHash, KeyRemovalCosts};
ghost use Rattle.iddqd_tri.specs.Keys.{has1, has2, has3, has_all};

use super::TriHashMap;
use crate::item::{Hashed, TriHashItem};
use crate::ranks::{First, Second, Third};
use iddqd_store::{ByQuery, Costs, KeyMatcher, Meter, Query};
use std::hash::{BuildHasher, Hash};

impl<T: TriHashItem, S: BuildHasher> TriHashMap<T, S> {
    /// Removes the item with the first key that the query stands for, and returns it, or `None` if there is none. The
    /// capacity stays.
    ///
    /// The call compares at most as many keys as items have the query's hash at the first rank. It hashes the query and
    /// the other keys of the item, and allocates no memory.
    ///
    /// ```text
    /// if let Some(item) = map.remove1(&key1) {
    ///     println!(rt; "removed: {item:?}")?;
    /// }
    /// ```
    #[inline(always)]
    pub fn remove1<Q: Query<T::K1>>(&mut self, query: Q) -> Option<T>
        ensures taken { IsOnly (has1 T.TriHashItem Q.stands_for query) (bag self.old) result }
        ensures loses { Loses self.old (option_to_list result) self.new }
        ensures absent { IfNone result (self.new ≡ self.old) }
    {
        let hash = self.hash_builder.hash_one(query);
        self.remove1_with(
            hash,
            &mut ByQuery::new(&query, &mut Meter::new()),
            &mut Meter::new(),
        )
    }

    /// Removes the item whose first key the matcher accepts, and returns it, or `None` if there is none. All first keys
    /// of items that the matcher accepts must be equal to each other and have this hash.
    ///
    /// In the table of the first rank the call costs as much as a call of `find1_with` that finds nothing. If it
    /// removes an item, it then walks once through each other table.
    #[inline(always)]
    fn remove1_with<M: KeyMatcher<T::K1>>(
        &mut self,
        hash: u64,
        matcher: &mut M,
        meter: &mut Meter,
    ) -> Option<T>
        requires names { NamesOneByHash (agree T.key1 T.K1.eq) (⟦<T as Hashed<S>>⟧.hash1 self.old.builder) hash
            (λ x. M.accepts matcher.old (T.key1 x)) (bag self.old) }
        requires asks { (x : T) → Contains (bag self.old) x → ⟦<T as Hashed<S>>⟧.hash1 self.old.builder x ≡ hash
            → M.MayAsk matcher.old (T.key1 x) }
        ensures taken { IsOnly (λ x. M.accepts matcher.old (T.key1 x)) (bag self.old) result }
        ensures loses { Loses self.old (option_to_list result) self.new }
        ensures absent { IfNone result (self.new ≡ self.old) }
        ensures is_kept { M.IsKept matcher.old matcher.new }
        ensures costs { KeyRemovalCosts (⟦<T as Hashed<S>>⟧.hash1 self.old.builder) (bag self.old) self.old.capacity
            hash (1 ∷ 1 ∷ []) result (M.asked matcher.old) (M.asked matcher.new) meter.old meter.new }
    {
        let (slot, cell) = self
            .first
            .find_by_key::<T, First, S, M>(&self.items, &self.hash_builder, hash, matcher, meter)?;
        // At each other rank:
        let second_hash = self
            .items
            .hash_in::<Second, S>(slot, None, &self.hash_builder);
        let third_hash = self
            .items
            .hash_in::<Third, S>(slot, None, &self.hash_builder);
        self.first.remove_cell(hash, (slot, cell), meter);
        let Some(item) = self.items.remove(slot) else {
            unreachable!()
        };
        // At each other rank:
        self.second.remove(second_hash, slot, meter);
        self.third.remove(third_hash, slot, meter);
        Some(item)
    }

    /// Removes the item with the second key that the query stands for, and returns it, or `None` if there is none. The
    /// capacity stays.
    ///
    /// The call compares at most as many keys as items have the query's hash at the second rank. It hashes the query
    /// and the other keys of the item, and allocates no memory.
    ///
    /// ```text
    /// if let Some(item) = map.remove2(&key2) {
    ///     println!(rt; "removed: {item:?}")?;
    /// }
    /// ```
    #[inline(always)]
    pub fn remove2<Q: Query<T::K2>>(&mut self, query: Q) -> Option<T>
        ensures taken { IsOnly (has2 T.TriHashItem Q.stands_for query) (bag self.old) result }
        ensures loses { Loses self.old (option_to_list result) self.new }
        ensures absent { IfNone result (self.new ≡ self.old) }
    {
        let hash = self.hash_builder.hash_one(query);
        self.remove2_with(
            hash,
            &mut ByQuery::new(&query, &mut Meter::new()),
            &mut Meter::new(),
        )
    }

    /// Removes the item whose second key the matcher accepts, and returns it, or `None` if there is none. All second
    /// keys of items that the matcher accepts must be equal to each other and have this hash.
    ///
    /// In the table of the second rank the call costs as much as a call of `find2_with` that finds nothing. If it
    /// removes an item, it then walks once through each other table.
    #[inline(always)]
    fn remove2_with<M: KeyMatcher<T::K2>>(
        &mut self,
        hash: u64,
        matcher: &mut M,
        meter: &mut Meter,
    ) -> Option<T>
        requires names { NamesOneByHash (agree T.key2 T.K2.eq) (⟦<T as Hashed<S>>⟧.hash2 self.old.builder) hash
            (λ x. M.accepts matcher.old (T.key2 x)) (bag self.old) }
        requires asks { (x : T) → Contains (bag self.old) x → ⟦<T as Hashed<S>>⟧.hash2 self.old.builder x ≡ hash
            → M.MayAsk matcher.old (T.key2 x) }
        ensures taken { IsOnly (λ x. M.accepts matcher.old (T.key2 x)) (bag self.old) result }
        ensures loses { Loses self.old (option_to_list result) self.new }
        ensures absent { IfNone result (self.new ≡ self.old) }
        ensures is_kept { M.IsKept matcher.old matcher.new }
        ensures costs { KeyRemovalCosts (⟦<T as Hashed<S>>⟧.hash2 self.old.builder) (bag self.old) self.old.capacity
            hash (1 ∷ 1 ∷ []) result (M.asked matcher.old) (M.asked matcher.new) meter.old meter.new }
    {
        let (slot, cell) = self
            .second
            .find_by_key::<T, Second, S, M>(&self.items, &self.hash_builder, hash, matcher, meter)?;
        // At each other rank:
        let first_hash = self
            .items
            .hash_in::<First, S>(slot, None, &self.hash_builder);
        let third_hash = self
            .items
            .hash_in::<Third, S>(slot, None, &self.hash_builder);
        self.second.remove_cell(hash, (slot, cell), meter);
        let Some(item) = self.items.remove(slot) else {
            unreachable!()
        };
        // At each other rank:
        self.first.remove(first_hash, slot, meter);
        self.third.remove(third_hash, slot, meter);
        Some(item)
    }

    /// Removes the item with the third key that the query stands for, and returns it, or `None` if there is none. The
    /// capacity stays.
    ///
    /// The call compares at most as many keys as items have the query's hash at the third rank. It hashes the query
    /// and the other keys of the item, and allocates no memory.
    ///
    /// ```text
    /// if let Some(item) = map.remove3(&key3) {
    ///     println!(rt; "removed: {item:?}")?;
    /// }
    /// ```
    #[inline(always)]
    pub fn remove3<Q: Query<T::K3>>(&mut self, query: Q) -> Option<T>
        ensures taken { IsOnly (has3 T.TriHashItem Q.stands_for query) (bag self.old) result }
        ensures loses { Loses self.old (option_to_list result) self.new }
        ensures absent { IfNone result (self.new ≡ self.old) }
    {
        let hash = self.hash_builder.hash_one(query);
        self.remove3_with(
            hash,
            &mut ByQuery::new(&query, &mut Meter::new()),
            &mut Meter::new(),
        )
    }

    /// Removes the item whose third key the matcher accepts, and returns it, or `None` if there is none. All third keys
    /// of items that the matcher accepts must be equal to each other and have this hash.
    ///
    /// In the table of the third rank the call costs as much as a call of `find3_with` that finds nothing. If it
    /// removes an item, it then walks once through each other table.
    #[inline(always)]
    fn remove3_with<M: KeyMatcher<T::K3>>(
        &mut self,
        hash: u64,
        matcher: &mut M,
        meter: &mut Meter,
    ) -> Option<T>
        requires names { NamesOneByHash (agree T.key3 T.K3.eq) (⟦<T as Hashed<S>>⟧.hash3 self.old.builder) hash
            (λ x. M.accepts matcher.old (T.key3 x)) (bag self.old) }
        requires asks { (x : T) → Contains (bag self.old) x → ⟦<T as Hashed<S>>⟧.hash3 self.old.builder x ≡ hash
            → M.MayAsk matcher.old (T.key3 x) }
        ensures taken { IsOnly (λ x. M.accepts matcher.old (T.key3 x)) (bag self.old) result }
        ensures loses { Loses self.old (option_to_list result) self.new }
        ensures absent { IfNone result (self.new ≡ self.old) }
        ensures is_kept { M.IsKept matcher.old matcher.new }
        ensures costs { KeyRemovalCosts (⟦<T as Hashed<S>>⟧.hash3 self.old.builder) (bag self.old) self.old.capacity
            hash (1 ∷ 1 ∷ []) result (M.asked matcher.old) (M.asked matcher.new) meter.old meter.new }
    {
        let (slot, cell) = self
            .third
            .find_by_key::<T, Third, S, M>(&self.items, &self.hash_builder, hash, matcher, meter)?;
        // At each other rank:
        let first_hash = self
            .items
            .hash_in::<First, S>(slot, None, &self.hash_builder);
        let second_hash = self
            .items
            .hash_in::<Second, S>(slot, None, &self.hash_builder);
        self.third.remove_cell(hash, (slot, cell), meter);
        let Some(item) = self.items.remove(slot) else {
            unreachable!()
        };
        // At each other rank:
        self.first.remove(first_hash, slot, meter);
        self.second.remove(second_hash, slot, meter);
        Some(item)
    }

    /// Removes the item that has all keys that the queries stand for, and returns it, or `None` if there is none. The
    /// capacity stays.
    ///
    /// The call compares the keys that `remove1` compares, and the other keys of the item found. It hashes the first
    /// query and the other keys of that item, and allocates no memory.
    pub fn remove_unique<Q1: Query<T::K1>, Q2: Query<T::K2>, Q3: Query<T::K3>>(
        &mut self,
        query1: Q1,
        query2: Q2,
        query3: Q3,
    ) -> Option<T>
        ensures taken { IsOnly (has_all T.TriHashItem Q1.stands_for Q2.stands_for Q3.stands_for query1 query2 query3)
            (bag self.old) result }
        ensures loses { Loses self.old (option_to_list result) self.new }
        ensures absent { IfNone result (self.new ≡ self.old) }
    {
        let hash = self.hash_builder.hash_one(query1);
        match self.slot_unique(hash, query1, query2, query3, &mut Costs::new()) {
            Some(slot) => Some(self.remove_slot(slot, Some(hash), None, None, &mut Meter::new())),
            None => None,
        }
    }
}
