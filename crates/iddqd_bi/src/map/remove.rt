//! Removing items.
ghost use Rattle.std.specs.Prelude.{Contains, [], ◌≡◌, ◌∷◌, IfNone};
ghost use Rattle.std.specs.Option.{option_to_list};
ghost use Rattle.iddqd_store.specs.Bag.{IsOnly};
ghost use Rattle.iddqd_store.specs.Map.{bag, Loses};
ghost use Rattle.iddqd_store.specs.Rank.{agree, NamesOneByHash, KeyRemovalCosts};
ghost use Rattle.iddqd_bi.specs.Keys.{has1, has2, has_both};

use super::BiHashMap;
use crate::item::{BiHashItem, Hashed};
use crate::ranks::{First, Second};
use iddqd_store::{ByQuery, Costs, KeyMatcher, Meter, Query};
use std::hash::{BuildHasher, Hash};

impl<T: BiHashItem, S: BuildHasher> BiHashMap<T, S> {
    /// Removes the item with the first key that the query stands for, and returns it, or `None` if there is none. The
    /// capacity stays.
    ///
    /// The call compares at most as many keys as items have the query's hash at the first rank. It hashes the query and
    /// the other key of the item, and allocates no memory.
    ///
    /// ```text
    /// if let Some(item) = map.remove1(&key1) {
    ///     println!(rt; "removed: {item:?}")?;
    /// }
    /// ```
    #[inline(always)]
    pub fn remove1<Q: Query<T::K1>>(&mut self, query: Q) -> Option<T>
        ensures taken { IsOnly (has1 T.BiHashItem Q.stands_for query) (bag self.old) result }
        ensures loses { Loses self.old (option_to_list result) self.new }
        ensures absent { IfNone result (self.new ≡ self.old) }
    {
        let hash = self.hash_builder.hash_one(query);
        self.remove1_with(
            hash,
            &mut ByQuery::new(&query, &mut Meter::new()),
            &mut Meter::new(),
        )
    }

    /// Removes the item whose first key the matcher accepts, and returns it, or `None` if there is none. All first keys
    /// of items that the matcher accepts must be equal to each other and have this hash.
    ///
    /// In the table of the first rank the call costs as much as a call of `find1_with` that finds nothing. If it
    /// removes an item, it then walks once through each other table.
    #[inline(always)]
    fn remove1_with<M: KeyMatcher<T::K1>>(
        &mut self,
        hash: u64,
        matcher: &mut M,
        meter: &mut Meter,
    ) -> Option<T>
        requires names { NamesOneByHash (agree T.key1 T.K1.eq) (⟦<T as Hashed<S>>⟧.hash1 self.old.builder) hash
            (λ x. M.accepts matcher.old (T.key1 x)) (bag self.old) }
        requires asks { (x : T) → Contains (bag self.old) x → ⟦<T as Hashed<S>>⟧.hash1 self.old.builder x ≡ hash
            → M.MayAsk matcher.old (T.key1 x) }
        ensures taken { IsOnly (λ x. M.accepts matcher.old (T.key1 x)) (bag self.old) result }
        ensures loses { Loses self.old (option_to_list result) self.new }
        ensures absent { IfNone result (self.new ≡ self.old) }
        ensures is_kept { M.IsKept matcher.old matcher.new }
        ensures costs { KeyRemovalCosts (⟦<T as Hashed<S>>⟧.hash1 self.old.builder) (bag self.old) self.old.capacity
            hash (1 ∷ []) result (M.asked matcher.old) (M.asked matcher.new) meter.old meter.new }
    {
        let (slot, cell) = self
            .first
            .find_by_key::<T, First, S, M>(&self.items, &self.hash_builder, hash, matcher, meter)?;
        // At each other rank:
        let second_hash = self
            .items
            .hash_in::<Second, S>(slot, None, &self.hash_builder);
        self.first.remove_cell(hash, (slot, cell), meter);
        let Some(item) = self.items.remove(slot) else {
            unreachable!()
        };
        // At each other rank:
        self.second.remove(second_hash, slot, meter);
        Some(item)
    }

    /// Removes the item with the second key that the query stands for, and returns it, or `None` if there is none. The
    /// capacity stays.
    ///
    /// The call compares at most as many keys as items have the query's hash at the second rank. It hashes the query
    /// and the other key of the item, and allocates no memory.
    ///
    /// ```text
    /// if let Some(item) = map.remove2(&key2) {
    ///     println!(rt; "removed: {item:?}")?;
    /// }
    /// ```
    #[inline(always)]
    pub fn remove2<Q: Query<T::K2>>(&mut self, query: Q) -> Option<T>
        ensures taken { IsOnly (has2 T.BiHashItem Q.stands_for query) (bag self.old) result }
        ensures loses { Loses self.old (option_to_list result) self.new }
        ensures absent { IfNone result (self.new ≡ self.old) }
    {
        let hash = self.hash_builder.hash_one(query);
        self.remove2_with(
            hash,
            &mut ByQuery::new(&query, &mut Meter::new()),
            &mut Meter::new(),
        )
    }

    /// Removes the item whose second key the matcher accepts, and returns it, or `None` if there is none. All second keys
    /// of items that the matcher accepts must be equal to each other and have this hash.
    ///
    /// In the table of the second rank the call costs as much as a call of `find2_with` that finds nothing. If it
    /// removes an item, it then walks once through each other table.
    #[inline(always)]
    fn remove2_with<M: KeyMatcher<T::K2>>(
        &mut self,
        hash: u64,
        matcher: &mut M,
        meter: &mut Meter,
    ) -> Option<T>
        requires names { NamesOneByHash (agree T.key2 T.K2.eq) (⟦<T as Hashed<S>>⟧.hash2 self.old.builder) hash
            (λ x. M.accepts matcher.old (T.key2 x)) (bag self.old) }
        requires asks { (x : T) → Contains (bag self.old) x → ⟦<T as Hashed<S>>⟧.hash2 self.old.builder x ≡ hash
            → M.MayAsk matcher.old (T.key2 x) }
        ensures taken { IsOnly (λ x. M.accepts matcher.old (T.key2 x)) (bag self.old) result }
        ensures loses { Loses self.old (option_to_list result) self.new }
        ensures absent { IfNone result (self.new ≡ self.old) }
        ensures is_kept { M.IsKept matcher.old matcher.new }
        ensures costs { KeyRemovalCosts (⟦<T as Hashed<S>>⟧.hash2 self.old.builder) (bag self.old) self.old.capacity
            hash (1 ∷ []) result (M.asked matcher.old) (M.asked matcher.new) meter.old meter.new }
    {
        let (slot, cell) = self
            .second
            .find_by_key::<T, Second, S, M>(&self.items, &self.hash_builder, hash, matcher, meter)?;
        // At each other rank:
        let first_hash = self
            .items
            .hash_in::<First, S>(slot, None, &self.hash_builder);
        self.second.remove_cell(hash, (slot, cell), meter);
        let Some(item) = self.items.remove(slot) else {
            unreachable!()
        };
        // At each other rank:
        self.first.remove(first_hash, slot, meter);
        Some(item)
    }

    /// Removes the item that has both keys that the queries stand for, and returns it, or `None` if there is none. The
    /// capacity stays.
    ///
    /// The call compares the keys that `remove1` compares, and the other key of the item found. It hashes the first
    /// query and the other key of that item, and allocates no memory.
    pub fn remove_unique<Q1: Query<T::K1>, Q2: Query<T::K2>>(
        &mut self,
        query1: Q1,
        query2: Q2,
    ) -> Option<T>
        ensures taken { IsOnly (has_both T.BiHashItem Q1.stands_for Q2.stands_for query1 query2) (bag self.old) result }
        ensures loses { Loses self.old (option_to_list result) self.new }
        ensures absent { IfNone result (self.new ≡ self.old) }
    {
        let hash = self.hash_builder.hash_one(query1);
        let slot = self.slot_unique(hash, query1, query2, &mut Costs::new())?;
        Some(self.remove_slot(slot, Some(hash), None, &mut Meter::new()))
    }
}
