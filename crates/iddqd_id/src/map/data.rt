//! Borrowing the data of an item for writing, without a guard.
//!
//! Made by tests/widths from crates/iddqd_bi/src/map/data.rt: change that file.
ghost use Rattle.std.specs.Prelude.{◌≡◌, Some, None, is_some, MatchOption};
ghost use Rattle.std.specs.List.{list_any};
ghost use Rattle.std.specs.Borrow.{sem};
ghost use Rattle.iddqd_store.specs.Bag.{IsOnly};
ghost use Rattle.iddqd_store.specs.Map.{bag};
ghost use Rattle.iddqd_store.specs.Map.Written.{MapsWhere, StaysWhere, SwapsWhere};
ghost use Rattle.iddqd_id.specs.Keys.{has};

use super::IdHashMap;
use crate::item::{IdHashItemMut, Ranked};
use iddqd_store::{Costs, Query};
use std::hash::{BuildHasher, Hash};

impl<T: IdHashItemMut, S: BuildHasher> IdHashMap<T, S> {
    ghost use Rattle.iddqd_id.specs.Lent.{lends_data_where};

    /// Returns the data of the item with the key that the query stands for, borrowed for writing, or `None` if
    /// no item has that key. What is written through the reference is the item's data, and nothing else changes.
    ///
    /// The call compares at most as many keys as items have the query's hash. It allocates no memory.
    ///
    /// `*map.data_mut(&key)? = data;`
    pub fn data_mut<Q: Query<T::Key>>(&mut self, query: Q) -> Option<&mut T::Data>
        // The result borrows the data of the item, or is `None` if there is no such item.
        ensures value { MatchOption result (IsOnly (has T.IdHashItem Q.stands_for query) (bag self.old) None)
            (λ d. (x : T) × IsOnly (has T.IdHashItem Q.stands_for query) (bag self.old) (Some x)
            × (d.now ≡ T.data_of x)) }
        ensures any_found { is_some result ≡ list_any (has T.IdHashItem Q.stands_for query) (bag self.old) }
        // What is written through it is the item's data, and nothing else changes. At `None` the map is as it was.
        ensures swaps { SwapsWhere T.put (has T.IdHashItem Q.stands_for query) self.old ⟦<T as Ranked>⟧.ranks }
        ensures maps { MapsWhere T.put (has T.IdHashItem Q.stands_for query) self.old T.data_of result }
        ensures unchanged { StaysWhere T.put (has T.IdHashItem Q.stands_for query) self.old }
        ensures* writes_back { sem 𝓛 (lends_data_where T.row S.row T.Key.row S.Hasher.row
            T.IdHashItem T.Key.Hash S.BuildHasher S.Hasher.Hasher T.Data.row T.put
            (has T.IdHashItem Q.stands_for query) self.entry result) }
    {
        match self.slot_of(query, &mut Costs::new()) {
            Some(slot) => Some(self.data_mut_at(slot)),
            None => None,
        }
    }
}
