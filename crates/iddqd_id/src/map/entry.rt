//! Looking up a key for an entry.
//!
//! Made by tests/widths from crates/iddqd_bi/src/map/entry.rt: change that file.
ghost use Rattle.std.specs.Prelude.{◌≡◌};
ghost use Rattle.iddqd_store.specs.Bag.{IsOnly};
ghost use Rattle.iddqd_store.specs.Map.{bag};
ghost use Rattle.iddqd_id.specs.Keys.{has};
ghost use Rattle.iddqd_id.specs.Entries.{IsFound, entry_item, entry_key, entry_lender, entry_map};

use super::IdHashMap;
use crate::entry::{Entry, OccupiedEntry, VacantEntry};
use crate::item::IdHashItem;
use iddqd_store::{Costs, Query, Searched};
use std::hash::{BuildHasher, Hash};

impl<T: IdHashItem, S: BuildHasher> IdHashMap<T, S> {
    /// Looks up a key by a query. The result is `Vacant` if no item has the key, otherwise `Occupied`, with the item that
    /// has it. The entry keeps the query and what it found, so that its calls need not search again.
    ///
    /// The call hashes the key once, and searches for it once. It allocates no memory.
    ///
    /// ```text
    /// match map.entry(&key) {
    ///     Entry::Vacant(entry) => {
    ///         entry.insert(item)?;
    ///     }
    ///     Entry::Occupied(entry) => println!(rt; "taken: {:?}", entry.get())?,
    /// }
    /// ```
    #[inline(always)]
    pub fn entry<Q: Query<T::Key>>(&mut self, query: Q) -> Entry<'_, T, S, Q>
        // The entry borrows this very map, unchanged, and has this query.
        ensures same_map { entry_lender result ≡ self.entry.ghost_name }
        ensures unchanged { entry_map result ≡ self.old }
        ensures keys { entry_key result ≡ query }
        // It has found the item that has the key that the query stands for, if there is one.
        ensures value { IsOnly (has T.IdHashItem Q.stands_for query) (bag self.old) (entry_item result) }
        ensures is_found { IsFound result }
    {
        match self.search_all(query, &mut Costs::new()) {
            Searched::Vacant(at) => Entry::Vacant(VacantEntry {
                map: self,
                query,
                at,
            }),
            Searched::Found(found) => match found.slot() {
                Some(slot) => Entry::Occupied(OccupiedEntry {
                    map: self,
                    query,
                    slot,
                }),
                None => unreachable!(),
            },
        }
    }
}
