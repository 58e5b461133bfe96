//! The search for an item whose pair is to leave the table of a rank, by the item's key.
ghost use Rattle.std.specs.Prelude.{ℕ, Contains, None, ◌≡◌, IfSome};
ghost use Rattle.std.specs.List.{IsDistinct};
ghost use Rattle.std.specs.Option.{option_map};
ghost use Rattle.iddqd_store.specs.Rank.Index.{HasHash};
ghost use Rattle.iddqd_store.specs.Rank.{agree, IsSearchable, NamesOneByHash, SearchCosts};
ghost use Rattle.iddqd_store.specs.Slots.Found.{FoundAt};
ghost use Rattle.iddqd_store.specs.Slots.{contents};
ghost use Rattle.iddqd_store.specs.Table.Search.{IsRemovedAt};
ghost use Rattle.iddqd_store.specs.Table.{IsCellOf};

use super::matchers::ByKey;
use super::{HashedKey, KeyOf};
use crate::index_table::{IndexTable, KeyMatcher, Meter, Searched};
use crate::item_set::{ItemIndex, ItemSet};
use std::hash::{BuildHasher, Hash};
use std::marker::PhantomData;

impl IndexTable {
    /// Finds the item whose key the matcher accepts, and returns the item's slot, and the number of the cell of its pair,
    /// from which `remove_cell` removes the pair. All keys that the matcher accepts have to be equal, and to have this hash
    /// by the builder, of which contracts alone speak. The deletion begins at the cell at which the search ends, so each
    /// cell is read once: the two calls together cost as much as a search that finds nothing. Between them the caller
    /// makes the hashes that it needs, before anything changes.
    #[inline(always)]
    pub fn find_by_key<T, R: KeyOf<T>, S: BuildHasher, M: KeyMatcher<R::Key>>(
        &self,
        items: &ItemSet<T>,
        hash_builder: &S,
        hash: u64,
        matcher: &mut M,
        meter: &mut Meter,
    ) -> Option<(ItemIndex, usize)>
        requires searchable { IsSearchable (agree R.key R.Key.eq) (⟦<R as HashedKey<T, S>>⟧.hash hash_builder.now)
            items.now.slots self.now.pairs }
        requires names { NamesOneByHash (agree R.key R.Key.eq) (⟦<R as HashedKey<T, S>>⟧.hash hash_builder.now) hash
            (λ x. M.accepts matcher.old (R.key x)) (contents items.now.slots) }
        requires asks { (x : T) → Contains (contents items.now.slots) x → ⟦<R as HashedKey<T, S>>⟧.hash hash_builder.now x ≡ hash
            → M.MayAsk matcher.old (R.key x) }
        ensures found { FoundAt (λ x. M.accepts matcher.old (R.key x)) items.now.slots (option_map (λ f. f.0) result) }
        ensures hashed { IfSome result (λ f. HasHash (⟦<R as HashedKey<T, S>>⟧.hash hash_builder.now) items.now.slots f.0 hash) }
        ensures cell { IfSome result (λ f. IsCellOf self.now.row (hash, f.0) f.1) }
        ensures is_kept { M.IsKept matcher.old matcher.new }
        ensures costs { (after : ℕ) → IsRemovedAt self.now hash (option_map (λ f. f.1) result) meter.new after
            → SearchCosts {A = ℕ} (⟦<R as HashedKey<T, S>>⟧.hash hash_builder.now) (contents items.now.slots)
            self.now.limit hash None (M.asked matcher.old) (M.asked matcher.new) meter.old after }
    {
        let mut keys: ByKey<'_, T, R, M> = ByKey {
            items,
            keys: matcher,
            rank: PhantomData,
        };
        match self.find_cell(hash, &mut keys, meter) {
            Searched::Found(found) => Some(found),
            Searched::Vacant(_) => None,
        }
    }
}
