//! The calls of an entry that may be vacant or occupied.
//!
//! Made by tests/widths from crates/iddqd_bi/src/entry/all.rt: change that file.
ghost use Rattle.std.specs.Prelude.{◌≡◌, Result, IfOk, IfErr, Some};
ghost use Rattle.std.specs.Fn.{FnOnceReturnsAt, FnOnceTakesAt};
ghost use Rattle.iddqd_store.specs.Bag.{IsOnly};
ghost use Rattle.iddqd_store.specs.Bag.Storing.{StoresOne};
ghost use Rattle.iddqd_store.specs.Map.{bag};
ghost use Rattle.iddqd_id.specs.Keys.{has};
ghost use Rattle.iddqd_id.specs.Entries.{IsFound, KeepsEntry, KeepsFound, OnOccupied, OnVacant, PutsIn, PutsInMade, entry_lender, entry_map};

use super::Entry;
use crate::error::{EntryRefusal, TryEntryRefusal};
use crate::item::{IdHashItem, IdHashItemMut, Ranked};
use crate::ref_mut::RefMut;
use iddqd_store::Query;
use std::hash::{BuildHasher, Hash};

impl<'a, T: IdHashItem, S: BuildHasher, Q: Query<T::Key>> Entry<'a, T, S, Q> {
    /// Inserts the item if the entry is vacant, as `VacantEntry::insert` does. If the entry is occupied, the item
    /// is dropped and nothing changes, and the result is a guard of the item that is there.
    ///
    /// The errors are those of `VacantEntry::insert`, in an `EntryRefusal`, which borrows the map. The map is as it was
    /// then.
    #[inline(always)]
    pub fn or_insert(self, item: T) -> Result<RefMut<'a, T, S>, EntryRefusal<'a, T, S>>
    where
        T: Drop,
        requires { IsFound self }
        ensures same_map { IfOk result (λ m. m.map.ghost_name ≡ entry_lender self.entry) }
        ensures same_map_at_err { IfErr result (λ e. e.map.ghost_name ≡ entry_lender self.entry) }
        ensures puts_in { OnVacant self.entry (λ v. PutsIn v item result) }
        ensures keeps_found { OnOccupied self.entry
            (λ o. KeepsFound o result) }
    {
        match self {
            Entry::Vacant(v) => v.insert_mut_or_refuse(item),
            Entry::Occupied(o) => Ok(o.into_mut()),
        }
    }

    /// Inserts what `f` returns, as `or_insert` does. `f` is called once if the entry is vacant, otherwise not at all.
    #[inline(always)]
    pub fn or_insert_with<F: FnOnce() -> T>(
        self,
        f: F,
    ) -> Result<RefMut<'a, T, S>, EntryRefusal<'a, T, S>>
    where
        F: Drop,
        requires callable { OnVacant self (λ v. F.pre f) }
        requires is_found { IsFound self }
        ensures same_map { IfOk result (λ m. m.map.ghost_name ≡ entry_lender self.entry) }
        ensures same_map_at_err { IfErr result (λ e. e.map.ghost_name ≡ entry_lender self.entry) }
        ensures puts_in { OnVacant self.entry (λ v. (x : T) × F.post f x × PutsIn v x result) }
        ensures keeps_found { OnOccupied self.entry
            (λ o. KeepsFound o result) }
    {
        match self {
            Entry::Vacant(v) => v.insert_mut_or_refuse(f()),
            Entry::Occupied(o) => Ok(o.into_mut()),
        }
    }

    /// Inserts the item that `f` returns, as `or_insert` does. `f` is called once if the entry is vacant, otherwise not
    /// at all, so that an item which is not needed is never made.
    ///
    /// If `f` fails, the error is what `f` returned (`TryEntryError::Closure`). If `f` returns an item, the errors are
    /// those of `or_insert` (`TryEntryError::Insert`). Each error borrows the map, which is as it was.
    ///
    /// The call itself allocates memory only if `f` returns an item and the map is full.
    ///
    /// `map.entry(&key).or_try_insert_with(|| Device::read(file))`
    #[inline(always)]
    pub fn or_try_insert_with<E, F: FnOnce() -> Result<T, E>>(
        self,
        f: F,
    ) -> Result<RefMut<'a, T, S>, TryEntryRefusal<'a, T, E, S>>
    where
        F: Drop,
        requires callable { OnVacant self (λ v. F.pre f) }
        requires is_found { IsFound self }
        // What is returned borrows this very map, which is as it was if the call fails.
        ensures same_map { IfOk result (λ m. m.map.ghost_name ≡ entry_lender self.entry) }
        ensures same_map_at_err { IfErr result (λ e. e.map.ghost_name ≡ entry_lender self.entry) }
        ensures unchanged { IfErr result (λ e. e.map.now ≡ entry_map self.entry) }
        // What the closure returns decides what happens to a vacant entry. An occupied entry keeps its items.
        ensures puts_in { OnVacant self.entry (λ v. (made : Result T E) × F.post f made × PutsInMade v made result) }
        ensures keeps_found { OnOccupied self.entry
            (λ o. KeepsFound o result) }
    {
        match self {
            Entry::Vacant(v) => v.insert_made(f()),
            Entry::Occupied(o) => Ok(o.into_mut()),
        }
    }
}

impl<'a, T: IdHashItemMut, S: BuildHasher, Q: Query<T::Key>> Entry<'a, T, S, Q> {
    /// Calls `f` with the item of an occupied entry, stores what `f` returns as the item's data, and returns the entry. A
    /// vacant entry stays as it is, and `f` is not called. The call allocates no memory.
    ///
    /// `map.entry(&key).and_modify(|item| item.count + 1).or_insert(item)`
    #[inline(always)]
    pub fn and_modify<F: FnOnce(&T) -> T::Data>(self, f: F) -> Entry<'a, T, S, Q>
    where
        T::Data: Drop,
        F: Drop,
        requires callable { OnOccupied self (λ o. (x : T)
            → IsOnly (has T.IdHashItem Q.stands_for o.query) (bag o.map.now) (Some x) → FnOnceTakesAt F.FnOnce f x) }
        requires is_found { IsFound self }
        // A vacant entry stays as it was. The item that was found gets the data that the closure returns for it.
        ensures stays_vacant { OnVacant self.entry (λ v. result ≡ self.entry) }
        ensures stores { OnOccupied self.entry (λ o. StoresOne (FnOnceReturnsAt F.FnOnce f) T.put ⟦<T as Ranked>⟧.ranks
            (has T.IdHashItem Q.stands_for o.query) (bag o.map.now) (bag (entry_map result))) }
        // The entry borrows the same map, and has the same key, which finds the item. Nothing else changes.
        ensures keeps_entry { KeepsEntry self.entry result }
        ensures is_found { IsFound result }
    {
        match self {
            Entry::Vacant(v) => Entry::Vacant(v),
            Entry::Occupied(mut o) => {
                o.update(f);
                Entry::Occupied(o)
            }
        }
    }
}
