//! Inserting an item through a vacant entry.
ghost use Rattle.std.specs.Prelude.{◌≡◌, ◌<◌, length, None, IsOk, IfOk, IfErr, OnOk};
ghost use Rattle.std.specs.Borrow.{sem};
ghost use Rattle.iddqd_store.specs.Bag.{first_mismatch};
ghost use Rattle.iddqd_store.specs.Map.{bag};
ghost use Rattle.iddqd_bi.specs.Entries.{GainsAndFinds, GainsAndHolds, GainsAndLends, IsSameMap, PutsIn, PutsInMade, vacant_tests, rests_if_err};
ghost use Rattle.iddqd_bi.specs.RefMuts.{ref_lender};
ghost use Rattle.iddqd_bi.specs.Mismatch.{HandsBack};

use super::{OccupiedEntry, OccupiedEntryMut, VacantEntry};
use crate::error::{EntryError, EntryRefusal, TryEntryError, TryEntryRefusal};
use crate::item::{BiHashItem, Ranked};
use crate::ref_mut::RefMut;
use iddqd_store::Query;
use std::hash::{BuildHasher, Hash};

impl<'a, T: Ranked, S: BuildHasher, Q1: Query<T::K1>, Q2: Query<T::K2>> VacantEntry<
    'a,
    T,
    S,
    Q1,
    Q2,
> {
    /// Inserts an item that has the entry's keys, and returns a guard of it.
    ///
    /// If the item has another key, the error names the lowest rank at which its key is not the entry's. Otherwise the
    /// call fails only if the map is full and there is no memory to grow. Each error has the item, and the map is as it
    /// was.
    ///
    /// The call compares the item's keys with the entry's, rank by rank up to the first that differs. It hashes no key
    /// and searches for none. It allocates memory only if the map is full. The capacity then grows to no more than twice
    /// as many items as there are with this one, or 7.
    #[inline(always)]
    pub fn insert(self, item: T) -> Result<RefMut<'a, T, S>, EntryError<T>>
        // The guard borrows the item, in this very map.
        ensures gains_and_lends { IfOk result (GainsAndLends self.entry item) }
        // The result is `Ok` only for an item with the entry's keys, and always for such an item if there is spare
        // capacity.
        ensures same_keys { OnOk result (first_mismatch (vacant_tests self.entry) item ≡ None) }
        ensures granted { first_mismatch (vacant_tests self.entry) item ≡ None
            → length (bag self.entry.map.now) < self.entry.map.now.capacity → IsOk result }
        // After an error the item is returned, with the reason, and the map ends as it was.
        ensures hands_back { IfErr result (HandsBack T.ranks (vacant_tests self.entry) self.entry.map.now item) }
        ensures* unchanged_at_err { sem 𝓛 (rests_if_err T.row S.row T.K1.row T.K2.row S.Hasher.row
            T.BiHashItem T.K1.Hash T.K2.Hash S.BuildHasher S.Hasher.Hasher ref_lender self.entry.map result) }
    {
        let map = self.map;
        let slot = map.insert_free(item, self.query1, self.query2, self.at)?;
        Ok(RefMut { map, slot })
    }

    /// Inserts an item as `insert` does, and returns it as `into_mut` of an occupied entry would: held for writing,
    /// found by each key.
    #[inline(always)]
    pub fn insert_mut(self, item: T) -> Result<OccupiedEntryMut<'a, T, S>, EntryError<T>>
        // The result borrows this very map, with the item in it, which each key finds.
        ensures gains_and_holds { IfOk result (GainsAndHolds self.entry item) }
        // The result is `Ok` only for an item with the entry's keys, and always for such an item if there is spare
        // capacity.
        ensures same_keys { OnOk result (first_mismatch (vacant_tests self.entry) item ≡ None) }
        ensures granted { first_mismatch (vacant_tests self.entry) item ≡ None
            → length (bag self.entry.map.now) < self.entry.map.now.capacity → IsOk result }
        // After an error the item is returned, with the reason, and the map ends as it was.
        ensures hands_back { IfErr result (HandsBack T.ranks (vacant_tests self.entry) self.entry.map.now item) }
        ensures* unchanged_at_err { sem 𝓛 (rests_if_err T.row S.row T.K1.row T.K2.row S.Hasher.row
            T.BiHashItem T.K1.Hash T.K2.Hash S.BuildHasher S.Hasher.Hasher
            (λ m. m.map.ghost_name) self.entry.map result) }
    {
        let map = self.map;
        let slot = map.insert_free(item, self.query1, self.query2, self.at)?;
        Ok(OccupiedEntryMut {
            map,
            slot1: Some(slot),
            slot2: Some(slot),
        })
    }
}

impl<'a, T: BiHashItem, S: BuildHasher, Q1: Query<T::K1>, Q2: Query<T::K2>> VacantEntry<
    'a,
    T,
    S,
    Q1,
    Q2,
> {
    /// Inserts an item as `insert` does, and returns the occupied entry with the same keys, which finds the item alone.
    /// The error borrows the map.
    #[inline(always)]
    pub fn insert_entry(
        self,
        item: T,
    ) -> Result<OccupiedEntry<'a, T, S, Q1, Q2>, EntryRefusal<'a, T, S>>
        // The entry borrows this very map, with the item in it, which all its keys find.
        ensures gains_and_finds { IfOk result (GainsAndFinds self.entry item) }
        // The result is `Ok` only for an item with the entry's keys, and always for such an item if there is spare
        // capacity.
        ensures same_keys { OnOk result (first_mismatch (vacant_tests self.entry) item ≡ None) }
        ensures granted { first_mismatch (vacant_tests self.entry) item ≡ None
            → length (bag self.entry.map.now) < self.entry.map.now.capacity → IsOk result }
        // The error borrows the map as it was, and has the item, with the reason.
        ensures is_same_map { IfErr result (λ e. IsSameMap self.entry.map e.map) }
        ensures hands_back { IfErr result (λ e.
            HandsBack ⟦<T as Ranked>⟧.ranks (vacant_tests self.entry) self.entry.map.now item e.error) }
    {
        let VacantEntry {
            map,
            query1,
            query2,
            at,
        } = self;
        match map.insert_free(item, query1, query2, at) {
            Ok(slot) => Ok(OccupiedEntry {
                map,
                query1,
                query2,
                slot1: Some(slot),
                slot2: Some(slot),
            }),
            Err(error) => Err(EntryRefusal { map, error }),
        }
    }
}

impl<'a, T: BiHashItem, S: BuildHasher, Q1: Query<T::K1>, Q2: Query<T::K2>> VacantEntry<
    'a,
    T,
    S,
    Q1,
    Q2,
> {
    /// Inserts an item as `insert_mut` does. The error borrows the map, as those of `or_insert` and `or_insert_with`
    /// do.
    #[inline(always)]
    pub(super) fn insert_mut_or_refuse(
        self,
        item: T,
    ) -> Result<OccupiedEntryMut<'a, T, S>, EntryRefusal<'a, T, S>>
        ensures same_map { IfOk result (λ m. m.map.ghost_name ≡ self.entry.map.ghost_name) }
        ensures same_map_at_err { IfErr result (λ e. e.map.ghost_name ≡ self.entry.map.ghost_name) }
        ensures puts_in { PutsIn self.entry item result }
    {
        let map = self.map;
        match map.insert_free(item, self.query1, self.query2, self.at) {
            Ok(slot) => Ok(OccupiedEntryMut {
                map,
                slot1: Some(slot),
                slot2: Some(slot),
            }),
            Err(error) => Err(EntryRefusal { map, error }),
        }
    }

    /// Inserts the item that a closure made, as `insert_mut_or_refuse` does, or returns the error with which the closure failed.
    #[inline(always)]
    pub(super) fn insert_made<E>(
        self,
        made: Result<T, E>,
    ) -> Result<OccupiedEntryMut<'a, T, S>, TryEntryRefusal<'a, T, E, S>>
        ensures same_map { IfOk result (λ m. m.map.ghost_name ≡ self.entry.map.ghost_name) }
        ensures same_map_at_err { IfErr result (λ e. e.map.ghost_name ≡ self.entry.map.ghost_name) }
        ensures unchanged { IfErr result (λ e. e.map.now ≡ self.entry.map.now) }
        ensures puts_in { PutsInMade self.entry made result }
    {
        let map = self.map;
        match made {
            Ok(item) => match map.insert_free(item, self.query1, self.query2, self.at) {
                Ok(slot) => Ok(OccupiedEntryMut {
                    map,
                    slot1: Some(slot),
                    slot2: Some(slot),
                }),
                Err(error) => Err(TryEntryRefusal {
                    map,
                    error: TryEntryError::Insert(error),
                }),
            },
            Err(e) => Err(TryEntryRefusal {
                map,
                error: TryEntryError::Closure(e),
            }),
        }
    }
}
