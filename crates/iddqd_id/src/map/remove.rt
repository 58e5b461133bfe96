//! Removing items.
//!
//! Made by tests/widths from crates/iddqd_bi/src/map/remove.rt: change that file.
ghost use Rattle.std.specs.Prelude.{Contains, [], ◌≡◌, IfNone};
ghost use Rattle.std.specs.Option.{option_to_list};
ghost use Rattle.iddqd_store.specs.Bag.{IsOnly};
ghost use Rattle.iddqd_store.specs.Map.{bag, Loses};
ghost use Rattle.iddqd_store.specs.Rank.{agree, NamesOneByHash, KeyRemovalCosts};
ghost use Rattle.iddqd_id.specs.Keys.{has};

use super::IdHashMap;
use crate::item::{Hashed, IdHashItem};
use crate::ranks::First;
use iddqd_store::{ByQuery, KeyMatcher, Meter, Query};
use std::hash::{BuildHasher, Hash};

impl<T: IdHashItem, S: BuildHasher> IdHashMap<T, S> {
    /// Removes the item with the key that the query stands for, and returns it, or `None` if there is none. The
    /// capacity stays.
    ///
    /// The call compares at most as many keys as items have the query's hash. It hashes the query, and allocates no
    /// memory.
    ///
    /// ```text
    /// if let Some(item) = map.remove(&key) {
    ///     println!(rt; "removed: {item:?}")?;
    /// }
    /// ```
    #[inline(always)]
    pub fn remove<Q: Query<T::Key>>(&mut self, query: Q) -> Option<T>
        ensures taken { IsOnly (has T.IdHashItem Q.stands_for query) (bag self.old) result }
        ensures loses { Loses self.old (option_to_list result) self.new }
        ensures absent { IfNone result (self.new ≡ self.old) }
    {
        let hash = self.hash_builder.hash_one(query);
        self.remove_with(
            hash,
            &mut ByQuery::new(&query, &mut Meter::new()),
            &mut Meter::new(),
        )
    }

    /// Removes the item whose key the matcher accepts, and returns it, or `None` if there is none. All keys
    /// of items that the matcher accepts must be equal to each other and have this hash.
    ///
    /// In the table the call costs as much as a call of `find_with` that finds nothing. If it
    /// removes an item, it then walks once through each other table.
    #[inline(always)]
    fn remove_with<M: KeyMatcher<T::Key>>(
        &mut self,
        hash: u64,
        matcher: &mut M,
        meter: &mut Meter,
    ) -> Option<T>
        requires names { NamesOneByHash (agree T.key T.Key.eq) (⟦<T as Hashed<S>>⟧.hash self.old.builder) hash
            (λ x. M.accepts matcher.old (T.key x)) (bag self.old) }
        requires asks { (x : T) → Contains (bag self.old) x → ⟦<T as Hashed<S>>⟧.hash self.old.builder x ≡ hash
            → M.MayAsk matcher.old (T.key x) }
        ensures taken { IsOnly (λ x. M.accepts matcher.old (T.key x)) (bag self.old) result }
        ensures loses { Loses self.old (option_to_list result) self.new }
        ensures absent { IfNone result (self.new ≡ self.old) }
        ensures is_kept { M.IsKept matcher.old matcher.new }
        ensures costs { KeyRemovalCosts (⟦<T as Hashed<S>>⟧.hash self.old.builder) (bag self.old) self.old.capacity
            hash [] result (M.asked matcher.old) (M.asked matcher.new) meter.old meter.new }
    {
        let (slot, cell) = self
            .first
            .find_by_key::<T, First, S, M>(&self.items, &self.hash_builder, hash, matcher, meter)?;
        self.first.remove_cell(hash, (slot, cell), meter);
        let Some(item) = self.items.remove(slot) else {
            unreachable!()
        };
        Some(item)
    }
}
