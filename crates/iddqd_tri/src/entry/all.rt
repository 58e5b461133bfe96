//! The calls of an entry that may be vacant or occupied.
//!
//! Made by tests/widths from crates/iddqd_bi/src/entry/all.rt: change that file.
ghost use Rattle.std.specs.Prelude.{◌≡◌, Result, IfOk, IfErr};
ghost use Rattle.std.specs.Fn.{CalledAt};
ghost use Rattle.iddqd_store.specs.Bag.{listing};
ghost use Rattle.iddqd_store.specs.Bag.Calling.{TakesInTurn};
ghost use Rattle.iddqd_store.specs.Bag.Storing.{Stores};
ghost use Rattle.iddqd_store.specs.Map.{bag};
ghost use Rattle.iddqd_tri.specs.Keys.{key_tests};
ghost use Rattle.iddqd_tri.specs.Entries.{IsFound, KeepsEntry, KeepsFound, OnOccupied, OnVacant, PutsIn, PutsInMade, entry_lender, entry_map, entry_tests};

use super::{Entry, OccupiedEntryMut};
use crate::error::{EntryRefusal, TryEntryRefusal};
use crate::item::{Ranked, TriHashItem, TriHashItemMut};
use iddqd_store::Query;
use std::hash::{BuildHasher, Hash};

impl<
    'a,
    T: TriHashItem,
    S: BuildHasher,
    Q1: Query<T::K1>,
    Q2: Query<T::K2>,
    Q3: Query<T::K3>,
> Entry<'a, T, S, Q1, Q2, Q3> {
    /// Inserts the item if the entry is vacant, as `VacantEntry::insert_mut` does. If the entry is occupied, the item
    /// is dropped and nothing changes, and the result has the items that are there.
    ///
    /// The errors are those of `VacantEntry::insert`, in an `EntryRefusal`, which borrows the map. The map is as it was
    /// then.
    #[inline(always)]
    pub fn or_insert(self, item: T) -> Result<OccupiedEntryMut<'a, T, S>, EntryRefusal<'a, T, S>>
    where
        T: Drop,
        ensures same_map { IfOk result (λ m. m.map.ghost_name ≡ entry_lender self.entry) }
        ensures same_map_at_err { IfErr result (λ e. e.map.ghost_name ≡ entry_lender self.entry) }
        ensures puts_in { OnVacant self.entry (λ v. PutsIn v item result) }
        ensures keeps_found { OnOccupied self.entry
            (λ o. KeepsFound T.TriHashItem Q1.stands_for Q2.stands_for Q3.stands_for o result) }
    {
        match self {
            Entry::Vacant(v) => v.insert_mut_or_refuse(item),
            Entry::Occupied(o) => Ok(o.into_mut()),
        }
    }

    /// Inserts what `f` returns, as `or_insert` does. `f` is called once if the entry is vacant, otherwise not at all.
    #[inline(always)]
    pub fn or_insert_with<F: FnOnce() -> T>(
        self,
        f: F,
    ) -> Result<OccupiedEntryMut<'a, T, S>, EntryRefusal<'a, T, S>>
    where
        F: Drop,
        requires { OnVacant self (λ v. F.pre f) }
        ensures same_map { IfOk result (λ m. m.map.ghost_name ≡ entry_lender self.entry) }
        ensures same_map_at_err { IfErr result (λ e. e.map.ghost_name ≡ entry_lender self.entry) }
        ensures puts_in { OnVacant self.entry (λ v. (x : T) × F.post f x × PutsIn v x result) }
        ensures keeps_found { OnOccupied self.entry
            (λ o. KeepsFound T.TriHashItem Q1.stands_for Q2.stands_for Q3.stands_for o result) }
    {
        match self {
            Entry::Vacant(v) => v.insert_mut_or_refuse(f()),
            Entry::Occupied(o) => Ok(o.into_mut()),
        }
    }

    /// Inserts the item that `f` returns, as `or_insert` does. `f` is called once if the entry is vacant, otherwise not
    /// at all, so that an item which is not needed is never made.
    ///
    /// If `f` fails, the error is what `f` returned (`TryEntryError::Closure`). If `f` returns an item, the errors are
    /// those of `or_insert` (`TryEntryError::Insert`). Each error borrows the map, which is as it was.
    ///
    /// The call itself allocates memory only if `f` returns an item and the map is full.
    ///
    /// `map.entry(&key1, &key2, &key3).or_try_insert_with(|| Device::read(file))`
    #[inline(always)]
    pub fn or_try_insert_with<E, F: FnOnce() -> Result<T, E>>(
        self,
        f: F,
    ) -> Result<OccupiedEntryMut<'a, T, S>, TryEntryRefusal<'a, T, E, S>>
    where
        F: Drop,
        requires { OnVacant self (λ v. F.pre f) }
        // What is returned borrows this very map, which is as it was if the call fails.
        ensures same_map { IfOk result (λ m. m.map.ghost_name ≡ entry_lender self.entry) }
        ensures same_map_at_err { IfErr result (λ e. e.map.ghost_name ≡ entry_lender self.entry) }
        ensures unchanged { IfErr result (λ e. e.map.now ≡ entry_map self.entry) }
        // What the closure returns decides what happens to a vacant entry. An occupied entry keeps its items.
        ensures puts_in { OnVacant self.entry (λ v. (made : Result T E) × F.post f made × PutsInMade v made result) }
        ensures keeps_found { OnOccupied self.entry
            (λ o. KeepsFound T.TriHashItem Q1.stands_for Q2.stands_for Q3.stands_for o result) }
    {
        match self {
            Entry::Vacant(v) => v.insert_made(f()),
            Entry::Occupied(o) => Ok(o.into_mut()),
        }
    }
}

impl<
    'a,
    T: TriHashItemMut,
    S: BuildHasher,
    Q1: Query<T::K1>,
    Q2: Query<T::K2>,
    Q3: Query<T::K3>,
> Entry<'a, T, S, Q1, Q2, Q3> {
    /// Calls `f` with each item of an occupied entry, stores what `f` returns as the item's data, and returns the
    /// entry. It updates each item once, that of the first key first. A vacant entry stays as it is, and `f` is not
    /// called. The call allocates no memory.
    ///
    /// `map.entry(&key1, &key2, &key3).and_modify(|item| item.count + 1).or_insert(item)`
    #[inline(always)]
    pub fn and_modify<F: FnMut(&T) -> T::Data>(self, f: F) -> Entry<'a, T, S, Q1, Q2, Q3>
    where
        T::Data: Drop,
        F: Drop,
        requires callable { OnOccupied self (λ o. TakesInTurn F.FnMut f
            (listing (entry_tests (key_tests T.TriHashItem Q1.stands_for Q2.stands_for Q3.stands_for) o)
            (bag o.map.now))) }
        requires is_found { IsFound self }
        // A vacant entry stays as it was. Each item that was found gets the data that the closure returns for it.
        ensures stays_vacant { OnVacant self.entry (λ v. result ≡ self.entry) }
        ensures stores { OnOccupied self.entry (λ o. Stores (CalledAt F.FnMut) T.put ⟦<T as Ranked>⟧.ranks f
            (listing (entry_tests (key_tests T.TriHashItem Q1.stands_for Q2.stands_for Q3.stands_for) o)
            (bag o.map.now))
            (bag o.map.now)
            (bag (entry_map result))) }
        // The entry borrows the same map, and has found the same places. Nothing else changes.
        ensures keeps_entry { KeepsEntry self.entry result }
        ensures is_found { IsFound result }
    {
        match self {
            Entry::Vacant(v) => Entry::Vacant(v),
            Entry::Occupied(mut o) => {
                o.for_each(f);
                Entry::Occupied(o)
            }
        }
    }
}
