//! Inserting an item through a vacant entry.
ghost use Rattle.std.specs.Prelude.{◌≡◌, ◌<◌, true, length, IsOk, IfOk, IfErr, OnOk};
ghost use Rattle.std.specs.Borrow.{sem};
ghost use Rattle.iddqd_ord.specs.Entries.{GainsAndFinds, GainsAndLends, PutsIn, PutsInMade, vacant_test, rests_if_err};
ghost use Rattle.iddqd_ord.specs.Items.{items};
ghost use Rattle.iddqd_ord.specs.Mismatch.{HandsBack};

use super::{OccupiedEntry, TryEntryError, TryEntryRefusal, VacantEntry};
use crate::error::{EntryError, EntryRefusal};
use crate::item::IdOrdItem;
use crate::query::OrdQuery;
use crate::ref_mut::RefMut;

impl<'a, T: IdOrdItem, Q: OrdQuery<T::Key>> VacantEntry<'a, T, Q> {
    /// Inserts an item that has the entry's key, and returns a guard of it.
    ///
    /// If the item has another key, the error says that its key is not the entry's. Otherwise the call fails only if the
    /// map is full and there is no memory to grow. Each error has the item, and the map is as it was.
    ///
    /// The call compares the item's key with the entry's, and no others: the entry knows where the item goes. It asks for
    /// memory where the block that the item goes to is full. Below the capacity it does not fail if there is none.
    pub fn insert(self, item: T) -> Result<RefMut<'a, T>, EntryError<T>>
        // The guard borrows the item, in this very map.
        ensures gains_and_lends { IfOk result (GainsAndLends self.entry item) }
        // The result is `Ok` only for an item with the entry's key, and always for such an item if there is spare
        // capacity.
        ensures same_key { OnOk result (vacant_test self.entry item ≡ true) }
        ensures granted { vacant_test self.entry item ≡ true
            → length (items self.entry.map.now) < self.entry.map.now.capacity → IsOk result }
        // After an error the item is returned, with the reason, and the map ends as it was.
        ensures hands_back { IfErr result (HandsBack T.IdOrdItem T.Key.cmp (vacant_test self.entry) self.entry.map.now item) }
        ensures* unchanged_at_err { sem 𝓛 (rests_if_err T.row T.Key.row self.entry.map result) }
    {
        let VacantEntry { map, query, place } = self;
        let place = map.insert_free(item, query, place)?;
        Ok(RefMut { map, place })
    }

    /// Inserts an item as `insert` does, and returns the occupied entry of that item. The error borrows the map. The call costs
    /// what `insert` costs.
    pub fn insert_entry(self, item: T) -> Result<OccupiedEntry<'a, T>, EntryRefusal<'a, T>>
        // The entry borrows this very map, with the item in it, which the entry has.
        ensures gains_and_finds { IfOk result (GainsAndFinds self.entry item) }
        // The result is `Ok` only for an item with the entry's key, and always for such an item if there is spare
        // capacity.
        ensures same_key { OnOk result (vacant_test self.entry item ≡ true) }
        ensures granted { vacant_test self.entry item ≡ true
            → length (items self.entry.map.now) < self.entry.map.now.capacity → IsOk result }
        // The error borrows the map as it was, and has the item, with the reason.
        ensures same_map { IfErr result (λ e. e.map.ghost_name ≡ self.entry.map.ghost_name) }
        ensures unchanged { IfErr result (λ e. e.map.now ≡ self.entry.map.now) }
        ensures hands_back { IfErr result (λ e.
            HandsBack T.IdOrdItem T.Key.cmp (vacant_test self.entry) self.entry.map.now item e.error) }
    {
        let VacantEntry { map, query, place } = self;
        match map.insert_free(item, query, place) {
            Ok(place) => Ok(OccupiedEntry { map, place }),
            Err(error) => Err(EntryRefusal { map, error }),
        }
    }

    /// Inserts an item as `insert` does. The error borrows the map, as those of `or_insert` and `or_insert_with` do.
    pub(super) fn insert_mut_or_refuse(self, item: T) -> Result<RefMut<'a, T>, EntryRefusal<'a, T>>
        ensures same_map { IfOk result (λ m. m.map.ghost_name ≡ self.entry.map.ghost_name) }
        ensures same_map_at_err { IfErr result (λ e. e.map.ghost_name ≡ self.entry.map.ghost_name) }
        ensures puts_in { PutsIn self.entry item result }
    {
        let VacantEntry { map, query, place } = self;
        match map.insert_free(item, query, place) {
            Ok(place) => Ok(RefMut { map, place }),
            Err(error) => Err(EntryRefusal { map, error }),
        }
    }

    /// Inserts the item that a closure made, as `insert_mut_or_refuse` does, or returns the error with which the closure
    /// failed.
    pub(super) fn insert_made<E>(
        self,
        made: Result<T, E>,
    ) -> Result<RefMut<'a, T>, TryEntryRefusal<'a, T, E>>
        ensures same_map { IfOk result (λ m. m.map.ghost_name ≡ self.entry.map.ghost_name) }
        ensures same_map_at_err { IfErr result (λ e. e.map.ghost_name ≡ self.entry.map.ghost_name) }
        ensures unchanged { IfErr result (λ e. e.map.now ≡ self.entry.map.now) }
        ensures puts_in { PutsInMade self.entry made result }
    {
        let VacantEntry { map, query, place } = self;
        match made {
            Ok(item) => match map.insert_free(item, query, place) {
                Ok(place) => Ok(RefMut { map, place }),
                Err(error) => Err(TryEntryRefusal {
                    map,
                    error: TryEntryError::Insert(error),
                }),
            },
            Err(e) => Err(TryEntryRefusal {
                map,
                error: TryEntryError::Closure(e),
            }),
        }
    }
}
