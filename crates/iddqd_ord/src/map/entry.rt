//! Looking up a key for an entry, and entries of the first and the last item.
ghost use Rattle.std.specs.Prelude.{◌≡◌, ◌-◌, IfSome, length, slice_get, slice_set};
ghost use Rattle.std.specs.Option.{option_and_then};
ghost use Rattle.iddqd_store.specs.Bag.{IsOnly};
ghost use Rattle.iddqd_ord.specs.Items.{items, has};
ghost use Rattle.iddqd_ord.specs.Entries.{HasItem, IsFound, OnOccupied, OnVacant, entry_item, entry_lender, entry_map, found_index, found_item};
ghost use Rattle.iddqd_ord.specs.Lent.{in_place};

use super::IdOrdMap;
use crate::entry::{Entry, OccupiedEntry, VacantEntry};
use crate::item::IdOrdItem;
use crate::query::OrdQuery;
use iddqd_store::Meter;

impl<T: IdOrdItem> IdOrdMap<T> {
    /// Looks up a key by a query. The result is `Vacant` if no item has the key, otherwise `Occupied`, with the item that
    /// has it. The entry keeps what the search found.
    ///
    /// Among fewer than `4 ^ r` items the call compares at most `3 * r + 19` keys. It allocates no memory.
    ///
    /// ```text
    /// match map.entry(&key) {
    ///     Entry::Vacant(entry) => {
    ///         entry.insert(item)?;
    ///     }
    ///     Entry::Occupied(entry) => println!(rt; "taken: {:?}", entry.get())?,
    /// }
    /// ```
    pub fn entry<Q: OrdQuery<T::Key>>(&mut self, query: Q) -> Entry<'_, T, Q>
        // The entry borrows this very map, unchanged.
        ensures same_map { entry_lender result ≡ self.entry.ghost_name }
        ensures unchanged { entry_map result ≡ self.old }
        // It has the item that has the key that the query seeks, if there is one, and a vacant entry has the query.
        ensures value { IsOnly (has T.IdOrdItem Q.compare query) (items self.old) (entry_item result) }
        ensures query { OnVacant result (λ v. v.query ≡ query) }
        ensures is_found { IsFound result }
        // Another item at the index of an occupied entry stands in the place of the item that was found.
        ensures index { (y : T) → OnOccupied result (λ o. slice_set (items self.old) (found_index o) y
            ≡ in_place (has T.IdOrdItem Q.compare query) y (items self.old)) }
    {
        match self.place_of(query, &mut Meter::new()) {
            Ok(place) => Entry::Occupied(OccupiedEntry { map: self, place }),
            Err(place) => Entry::Vacant(VacantEntry {
                map: self,
                query,
                place,
            }),
        }
    }

    /// Returns the entry of the item with the lowest key, or `None` if there are no items. The call compares no key, and
    /// allocates no memory.
    pub fn first_entry(&mut self) -> Option<OccupiedEntry<'_, T>>
        ensures found { option_and_then found_item result ≡ slice_get (items self.old) 0 }
        ensures has_item { IfSome result HasItem }
        ensures unchanged { IfSome result (λ o. o.map.now ≡ self.old) }
        ensures same_map { IfSome result (λ o. o.map.ghost_name ≡ self.entry.ghost_name) }
    {
        let place = self.first_place()?;
        Some(OccupiedEntry { map: self, place })
    }

    /// Returns the entry of the item with the highest key, or `None` if there are no items. The call compares no key, and
    /// allocates no memory.
    pub fn last_entry(&mut self) -> Option<OccupiedEntry<'_, T>>
        ensures found { option_and_then found_item result ≡ slice_get (items self.old) (length (items self.old) - 1) }
        ensures has_item { IfSome result HasItem }
        ensures unchanged { IfSome result (λ o. o.map.now ≡ self.old) }
        ensures same_map { IfSome result (λ o. o.map.ghost_name ≡ self.entry.ghost_name) }
    {
        let place = self.last_place()?;
        Some(OccupiedEntry { map: self, place })
    }
}
