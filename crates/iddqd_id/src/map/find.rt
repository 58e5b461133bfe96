//! Lookups. Each searches the table, which leads to the item's slot.
//!
//! Made by tests/widths from crates/iddqd_bi/src/map/find.rt: change that file.
ghost use Rattle.std.specs.Prelude.{Contains, ◌≡◌, option_copied};
ghost use Rattle.std.specs.List.{list_any};
ghost use Rattle.iddqd_store.specs.Bag.{IsOnly};
ghost use Rattle.iddqd_store.specs.Map.{bag, hash_of};
ghost use Rattle.iddqd_store.specs.Rank.{agree, NamesOneByHash, SearchCosts};
ghost use Rattle.iddqd_store.specs.Slots.Found.{FoundAt};
ghost use Rattle.iddqd_id.specs.Keys.{has};

use super::IdHashMap;
use crate::item::{Hashed, IdHashItem};
use iddqd_store::{ByQuery, Costs, ItemIndex, KeyMatcher, Meter, Query};
use std::hash::{BuildHasher, Hash};

impl<T: IdHashItem, S: BuildHasher> IdHashMap<T, S> {
    /// Returns the item with the key that the query stands for, or `None`. A query is a `&key`, or what stands
    /// for a key, such as a `&str` for a `String`: `map.get(&key)`, `map.get("main")`.
    ///
    /// The call compares at most as many keys as items have the query's hash.
    ///
    /// ```text
    /// match map.get(&key) {
    ///     Some(item) => println!(rt; "{item:?}")?,
    ///     None => println!(rt; "no item has this key")?,
    /// }
    /// ```
    pub fn get<Q: Query<T::Key>>(&self, query: Q) -> Option<&T>
        ensures { IsOnly (has T.IdHashItem Q.stands_for query) (bag self.now) (option_copied result) }
    {
        let hash = self.hash_builder.hash_one(query);
        self.find_with(
            hash,
            &mut ByQuery::new(&query, &mut Meter::new()),
            &mut Meter::new(),
        )
    }

    /// Returns whether an item has the key that the query stands for. It costs what `get` costs.
    pub fn contains_key<Q: Query<T::Key>>(&self, query: Q) -> bool
        ensures { result ≡ list_any (has T.IdHashItem Q.stands_for query) (bag self.now) }
    {
        self.get(query).is_some()
    }

    /// Returns the item whose key the matcher accepts, or `None`. Every lookup by keys is this search.
    ///
    /// All keys of items that the matcher accepts must be equal to each other and have this hash. The matcher is
    /// asked at most as often as items have the hash. The meter counts the cells that the search
    /// probes, at most one more than there are items.
    pub fn find_with<M: KeyMatcher<T::Key>>(
        &self,
        hash: u64,
        matcher: &mut M,
        meter: &mut Meter,
    ) -> Option<&T>
        requires names { NamesOneByHash (agree T.key T.Key.eq) (⟦<T as Hashed<S>>⟧.hash self.now.builder) hash
            (λ x. M.accepts matcher.old (T.key x)) (bag self.now) }
        requires asks { (x : T) → Contains (bag self.now) x → ⟦<T as Hashed<S>>⟧.hash self.now.builder x ≡ hash
            → M.MayAsk matcher.old (T.key x) }
        ensures found { IsOnly (λ x. M.accepts matcher.old (T.key x)) (bag self.now) (option_copied result) }
        ensures is_kept { M.IsKept matcher.old matcher.new }
        ensures costs { SearchCosts (⟦<T as Hashed<S>>⟧.hash self.now.builder) (bag self.now)
            self.now.capacity hash result (M.asked matcher.old) (M.asked matcher.new) meter.old meter.new }
    {
        self.by_key().find_with(hash, matcher, meter)
    }

    /// Returns the slot of the item whose key the query stands for, or `None`.
    pub(crate) fn slot_of<Q: Query<T::Key>>(&self, query: Q, costs: &mut Costs) -> Option<ItemIndex>
        ensures found { FoundAt (has T.IdHashItem Q.stands_for query) self.now.slots result }
        ensures costs { SearchCosts (⟦<T as Hashed<S>>⟧.hash self.now.builder) (bag self.now) self.now.capacity
            (hash_of S.BuildHasher S.Hasher.Hasher self.now.builder (Q.hash_input query)) result
            costs.old.asked costs.new.asked costs.old.probed costs.new.probed }
    {
        self.by_key().slot_of(query, costs)
    }
}
