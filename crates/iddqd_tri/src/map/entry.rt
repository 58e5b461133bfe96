//! Looking up three keys at once.
//!
//! Made by tests/widths from crates/iddqd_bi/src/map/entry.rt: change that file.
ghost use Rattle.std.specs.Prelude.{◌≡◌};
ghost use Rattle.iddqd_store.specs.Bag.{entry};
ghost use Rattle.iddqd_store.specs.Map.{bag};
ghost use Rattle.iddqd_tri.specs.Keys.{key_tests};
ghost use Rattle.iddqd_tri.specs.Entries.{HasKeys, IsFound, entry_lender, entry_map, entry_value};

use super::TriHashMap;
use crate::entry::{Entry, OccupiedEntry, VacantEntry};
use crate::item::TriHashItem;
use iddqd_store::{Costs, Query, Searched};
use std::hash::{BuildHasher, Hash};

impl<T: TriHashItem, S: BuildHasher> TriHashMap<T, S> {
    /// Looks up three keys at once, each by a query. The result is `Vacant` if no item has one of the keys, otherwise
    /// `Occupied`, with the items that have one. The entry keeps the queries and what they found, so that its calls
    /// need not search again.
    ///
    /// The call hashes each key once, and searches for it once. It allocates no memory.
    ///
    /// ```text
    /// match map.entry(&key1, &key2, &key3) {
    ///     Entry::Vacant(entry) => {
    ///         entry.insert(item)?;
    ///     }
    ///     Entry::Occupied(entry) => println!(rt; "taken: {:?}", entry.get())?,
    /// }
    /// ```
    #[inline(always)]
    pub fn entry<Q1: Query<T::K1>, Q2: Query<T::K2>, Q3: Query<T::K3>>(
        &mut self,
        query1: Q1,
        query2: Q2,
        query3: Q3,
    ) -> Entry<'_, T, S, Q1, Q2, Q3>
        // The entry borrows this very map, unchanged, and has these queries.
        ensures same_map { entry_lender result ≡ self.entry.ghost_name }
        ensures unchanged { entry_map result ≡ self.old }
        ensures keys { HasKeys result query1 query2 query3 }
        // It has found the items that have the keys that the queries stand for.
        ensures value { entry_value result
            ≡ entry (key_tests T.TriHashItem Q1.stands_for Q2.stands_for Q3.stands_for query1 query2 query3)
            (bag self.old) }
        ensures is_found { IsFound result }
    {
        match self.search_all(query1, query2, query3, &mut Costs::new()) {
            Searched::Vacant(at) => Entry::Vacant(VacantEntry {
                map: self,
                query1,
                query2,
                query3,
                at,
            }),
            Searched::Found((found1, found2, found3)) => Entry::Occupied(OccupiedEntry {
                map: self,
                query1,
                query2,
                query3,
                slot1: found1.slot(),
                slot2: found2.slot(),
                slot3: found3.slot(),
            }),
        }
    }
}
