//! Items with three keys.
//!
//! Made by tests/widths from crates/iddqd_sorted/src/widths/two_keys.rt: change that file.
ghost use Rattle.std.specs.Prelude.{[], ◌≡◌, true, false, not, filter, option_copied, Some, IfNone, IfOk, IfErr, OnOk, OnErr};
ghost use Rattle.std.specs.Fn.{FnOnceReturnsAt, FnOnceTakesAt};
ghost use Rattle.std.specs.List.{list_any};
ghost use Rattle.iddqd_store.specs.Bag.{IsOnly, conflicts_of};
ghost use Rattle.iddqd_tri.specs.Keys.{has1, has2, has3};
ghost use Rattle.iddqd_tri.specs.Rekeyed.{TellsWhyNot, refused_item};
ghost use Rattle.iddqd_sorted.specs.Items.{items, by_sort, with_item};
ghost use Rattle.iddqd_sorted.specs.Keyed.{MapsOne, StoresOne};

use crate::error::ExtendUniqueError;
use crate::item::Sortable;
use crate::map::Sorted;
use crate::map::rekey::Refused;
use iddqd_store::{Costs, InsertReason, Meter, Query};
use iddqd_tri::ranks::{First, Second, Third};
use iddqd_tri::{
    DefaultHashBuilder, NotReplaced, Ranked, Rejected, TriHashItem, TriHashItemMut, TriHashMap,
};
use std::error::Error;
use std::fmt::{self, Display, Formatter, Write};
use std::hash::{BuildHasher, Hash};

/// A hash map of items with three keys that also keeps them in the order of their sort keys.
pub type TriHashOrdMap<T, S = DefaultHashBuilder> = Sorted<TriHashMap<T, S>>;

impl<T: TriHashItem + Sortable, S: BuildHasher> Sorted<TriHashMap<T, S>>
where
    T::K1: Ord,
{
    /// Returns the item with the first key that the query stands for, or `None`. It costs what it costs on the map
    /// inside.
    pub fn get1<Q: Query<T::K1>>(&self, query: Q) -> Option<&T>
        ensures { IsOnly (has1 T.TriHashItem Q.stands_for query) (items self.now) (option_copied result) }
    {
        self.inside().get1(query)
    }

    /// Returns the item with the second key that the query stands for, or `None`. It costs what it costs on the map
    /// inside.
    pub fn get2<Q: Query<T::K2>>(&self, query: Q) -> Option<&T>
        ensures { IsOnly (has2 T.TriHashItem Q.stands_for query) (items self.now) (option_copied result) }
    {
        self.inside().get2(query)
    }

    /// Returns the item with the third key that the query stands for, or `None`. It costs what it costs on the map
    /// inside.
    pub fn get3<Q: Query<T::K3>>(&self, query: Q) -> Option<&T>
        ensures { IsOnly (has3 T.TriHashItem Q.stands_for query) (items self.now) (option_copied result) }
    {
        self.inside().get3(query)
    }

    /// Returns whether an item has the first key that the query stands for.
    pub fn contains_key1<Q: Query<T::K1>>(&self, query: Q) -> bool
        ensures { result ≡ list_any (has1 T.TriHashItem Q.stands_for query) (items self.now) }
    {
        self.inside().contains_key1(query)
    }

    /// Returns whether an item has the second key that the query stands for.
    pub fn contains_key2<Q: Query<T::K2>>(&self, query: Q) -> bool
        ensures { result ≡ list_any (has2 T.TriHashItem Q.stands_for query) (items self.now) }
    {
        self.inside().contains_key2(query)
    }

    /// Returns whether an item has the third key that the query stands for.
    pub fn contains_key3<Q: Query<T::K3>>(&self, query: Q) -> bool
        ensures { result ≡ list_any (has3 T.TriHashItem Q.stands_for query) (items self.now) }
    {
        self.inside().contains_key3(query)
    }

    /// Removes the item with the first key that the query stands for, and returns it, or `None` if there is none. The
    /// capacity stays.
    ///
    /// The call hashes the query and searches for it once, hashes each other key of the item once, and walks once
    /// through each table. Among fewer than `4 ^ r` items it compares at most `3 * r + 19` sort keys. It allocates no
    /// memory.
    pub fn remove1<Q: Query<T::K1>>(&mut self, query: Q) -> Option<T>
        ensures taken { IsOnly (has1 T.TriHashItem Q.stands_for query) (items self.old) result }
        ensures rest { items self.new ≡ filter (λ x. not (has1 T.TriHashItem Q.stands_for query x)) (items self.old) }
        ensures capacity { self.new.capacity ≡ self.old.capacity }
        ensures builder { self.new.builder ≡ self.old.builder }
        ensures absent { IfNone result (self.new ≡ self.old) }
    {
        self.remove_by::<First, Q>(query, &mut Costs::new(), &mut Meter::new())
    }

    /// Removes the item with the second key that the query stands for, and returns it, or `None` if there is none. The
    /// capacity stays.
    ///
    /// The call hashes the query and searches for it once, hashes each other key of the item once, and walks once
    /// through each table. Among fewer than `4 ^ r` items it compares at most `3 * r + 19` sort keys. It allocates no
    /// memory.
    pub fn remove2<Q: Query<T::K2>>(&mut self, query: Q) -> Option<T>
        ensures taken { IsOnly (has2 T.TriHashItem Q.stands_for query) (items self.old) result }
        ensures rest { items self.new ≡ filter (λ x. not (has2 T.TriHashItem Q.stands_for query x)) (items self.old) }
        ensures capacity { self.new.capacity ≡ self.old.capacity }
        ensures builder { self.new.builder ≡ self.old.builder }
        ensures absent { IfNone result (self.new ≡ self.old) }
    {
        self.remove_by::<Second, Q>(query, &mut Costs::new(), &mut Meter::new())
    }

    /// Removes the item with the third key that the query stands for, and returns it, or `None` if there is none. The
    /// capacity stays.
    ///
    /// The call hashes the query and searches for it once, hashes each other key of the item once, and walks once
    /// through each table. Among fewer than `4 ^ r` items it compares at most `3 * r + 19` sort keys. It allocates no
    /// memory.
    pub fn remove3<Q: Query<T::K3>>(&mut self, query: Q) -> Option<T>
        ensures taken { IsOnly (has3 T.TriHashItem Q.stands_for query) (items self.old) result }
        ensures rest { items self.new ≡ filter (λ x. not (has3 T.TriHashItem Q.stands_for query x)) (items self.old) }
        ensures capacity { self.new.capacity ≡ self.old.capacity }
        ensures builder { self.new.builder ≡ self.old.builder }
        ensures absent { IfNone result (self.new ≡ self.old) }
    {
        self.remove_by::<Third, Q>(query, &mut Costs::new(), &mut Meter::new())
    }

    /// Puts an item in the place of the one with the first key that the query stands for, and returns the latter. The
    /// new item may have other keys and another sort key. The error has the new item, and the map is as it was:
    /// `Absent` if no item has the key asked for, and `Duplicate` if some other item conflicts with the new one.
    ///
    /// The call hashes the query and searches for it once, and hashes each key of the new item and searches for it
    /// once. It also hashes those keys of the old item that the new one does not have. If the sort key and the first
    /// key stay, it compares this sort key once, and nothing moves in the order. Otherwise, among fewer than `4 ^ r`
    /// items, it compares at most `6 * r + 40` sort keys. It allocates no memory, and the capacity stays.
    pub fn rekey1<Q: Query<T::K1>>(&mut self, query: Q, item: T) -> Result<T, NotReplaced<T>>
        ensures found { IfOk result (λ x. IsOnly (has1 T.TriHashItem Q.stands_for query) (items self.old) (Some x)) }
        ensures puts { OnOk result (items self.new ≡ with_item (by_sort T.sort_key T.SortKey.cmp T.key1 T.K1.cmp)
            (filter (λ y. not (has1 T.TriHashItem Q.stands_for query y)) (items self.old)) item) }
        // None of the others conflicts with it, so that no third item leaves.
        ensures free { OnOk result (conflicts_of ⟦<T as Ranked>⟧.ranks
            (filter (λ y. not (has1 T.TriHashItem Q.stands_for query y)) (items self.old)) item ≡ []) }
        ensures capacity { self.new.capacity ≡ self.old.capacity }
        ensures builder { self.new.builder ≡ self.old.builder }
        ensures handed_back { IfErr result (λ e. refused_item e ≡ item) }
        ensures unchanged { OnErr result (self.new ≡ self.old) }
        ensures reason { IfErr result (λ e. TellsWhyNot ⟦<T as Ranked>⟧.ranks
            (has1 T.TriHashItem Q.stands_for query) (items self.old) item e) }
    {
        match self.rekey_by::<First, Q>(query, item, &mut Costs::new(), &mut Meter::new()) {
            Ok(old) => Ok(old),
            Err(Refused::Absent(item)) => Err(NotReplaced::Absent(item)),
            Err(Refused::Conflict(item)) => Err(NotReplaced::Duplicate(item)),
        }
    }

    /// Puts an item in the place of the one with the second key that the query stands for, and returns the latter. The
    /// new item may have other keys and another sort key. The error has the new item, and the map is as it was:
    /// `Absent` if no item has the key asked for, and `Duplicate` if some other item conflicts with the new one.
    ///
    /// The call hashes the query and searches for it once, and hashes each key of the new item and searches for it
    /// once. It also hashes those keys of the old item that the new one does not have. If the sort key and the first
    /// key stay, it compares this sort key once, and nothing moves in the order. Otherwise, among fewer than `4 ^ r`
    /// items, it compares at most `6 * r + 40` sort keys. It allocates no memory, and the capacity stays.
    pub fn rekey2<Q: Query<T::K2>>(&mut self, query: Q, item: T) -> Result<T, NotReplaced<T>>
        ensures found { IfOk result (λ x. IsOnly (has2 T.TriHashItem Q.stands_for query) (items self.old) (Some x)) }
        ensures puts { OnOk result (items self.new ≡ with_item (by_sort T.sort_key T.SortKey.cmp T.key1 T.K1.cmp)
            (filter (λ y. not (has2 T.TriHashItem Q.stands_for query y)) (items self.old)) item) }
        // None of the others conflicts with it, so that no third item leaves.
        ensures free { OnOk result (conflicts_of ⟦<T as Ranked>⟧.ranks
            (filter (λ y. not (has2 T.TriHashItem Q.stands_for query y)) (items self.old)) item ≡ []) }
        ensures capacity { self.new.capacity ≡ self.old.capacity }
        ensures builder { self.new.builder ≡ self.old.builder }
        ensures handed_back { IfErr result (λ e. refused_item e ≡ item) }
        ensures unchanged { OnErr result (self.new ≡ self.old) }
        ensures reason { IfErr result (λ e. TellsWhyNot ⟦<T as Ranked>⟧.ranks
            (has2 T.TriHashItem Q.stands_for query) (items self.old) item e) }
    {
        match self.rekey_by::<Second, Q>(query, item, &mut Costs::new(), &mut Meter::new()) {
            Ok(old) => Ok(old),
            Err(Refused::Absent(item)) => Err(NotReplaced::Absent(item)),
            Err(Refused::Conflict(item)) => Err(NotReplaced::Duplicate(item)),
        }
    }

    /// Puts an item in the place of the one with the third key that the query stands for, and returns the latter. The
    /// new item may have other keys and another sort key. The error has the new item, and the map is as it was:
    /// `Absent` if no item has the key asked for, and `Duplicate` if some other item conflicts with the new one.
    ///
    /// The call hashes the query and searches for it once, and hashes each key of the new item and searches for it
    /// once. It also hashes those keys of the old item that the new one does not have. If the sort key and the first
    /// key stay, it compares this sort key once, and nothing moves in the order. Otherwise, among fewer than `4 ^ r`
    /// items, it compares at most `6 * r + 40` sort keys. It allocates no memory, and the capacity stays.
    pub fn rekey3<Q: Query<T::K3>>(&mut self, query: Q, item: T) -> Result<T, NotReplaced<T>>
        ensures found { IfOk result (λ x. IsOnly (has3 T.TriHashItem Q.stands_for query) (items self.old) (Some x)) }
        ensures puts { OnOk result (items self.new ≡ with_item (by_sort T.sort_key T.SortKey.cmp T.key1 T.K1.cmp)
            (filter (λ y. not (has3 T.TriHashItem Q.stands_for query y)) (items self.old)) item) }
        // None of the others conflicts with it, so that no third item leaves.
        ensures free { OnOk result (conflicts_of ⟦<T as Ranked>⟧.ranks
            (filter (λ y. not (has3 T.TriHashItem Q.stands_for query y)) (items self.old)) item ≡ []) }
        ensures capacity { self.new.capacity ≡ self.old.capacity }
        ensures builder { self.new.builder ≡ self.old.builder }
        ensures handed_back { IfErr result (λ e. refused_item e ≡ item) }
        ensures unchanged { OnErr result (self.new ≡ self.old) }
        ensures reason { IfErr result (λ e. TellsWhyNot ⟦<T as Ranked>⟧.ranks
            (has3 T.TriHashItem Q.stands_for query) (items self.old) item e) }
    {
        match self.rekey_by::<Third, Q>(query, item, &mut Costs::new(), &mut Meter::new()) {
            Ok(old) => Ok(old),
            Err(Refused::Absent(item)) => Err(NotReplaced::Absent(item)),
            Err(Refused::Conflict(item)) => Err(NotReplaced::Duplicate(item)),
        }
    }
}

impl<T: TriHashItemMut + Sortable, S: BuildHasher> Sorted<TriHashMap<T, S>>
where
    T::K1: Ord,
{
    /// Calls `f` with the item with the first key that the query stands for, stores what it returns as the item's data,
    /// and moves the item to the place of its sort key, which may have changed. Returns whether there is such an item.
    /// If not, `f` is not called, and nothing changes.
    ///
    /// The call hashes the query and searches for it once. If the sort key stays, it compares this key once, and
    /// nothing moves in the order. Otherwise, among fewer than `4 ^ r` items, it compares at most `6 * r + 40` sort
    /// keys. It allocates no memory, and writes no table.
    ///
    /// `sessions.update1(&key, |session| now)`
    pub fn update1<Q: Query<T::K1>, F: FnOnce(&T) -> T::Data>(&mut self, query: Q, f: F) -> bool
    where
        T::Data: Drop,
        F: Drop,
        requires { (x : T) → IsOnly (has1 T.TriHashItem Q.stands_for query) (items self.old) (Some x)
            → FnOnceTakesAt F.FnOnce f x }
        ensures any_found { result ≡ list_any (has1 T.TriHashItem Q.stands_for query) (items self.old) }
        ensures stores { result ≡ true → StoresOne (FnOnceReturnsAt F.FnOnce f) T.put
            (by_sort T.sort_key T.SortKey.cmp T.key1 T.K1.cmp)
            (has1 T.TriHashItem Q.stands_for query) (items self.old) (items self.new) }
        ensures maps { MapsOne (FnOnceReturnsAt F.FnOnce f) T.put
            (by_sort T.sort_key T.SortKey.cmp T.key1 T.K1.cmp)
            (has1 T.TriHashItem Q.stands_for query) (items self.old) (items self.new) }
        ensures absent { result ≡ false → self.new ≡ self.old }
        ensures capacity { self.new.capacity ≡ self.old.capacity }
        ensures builder { self.new.builder ≡ self.old.builder }
    {
        self.update_by::<First, Q, F>(query, f, &mut Costs::new(), &mut Meter::new())
    }

    /// Calls `f` with the item with the second key that the query stands for, stores what it returns as the item's
    /// data, and moves the item to the place of its sort key, which may have changed. Returns whether there is such an
    /// item. If not, `f` is not called, and nothing changes.
    ///
    /// The call hashes the query and searches for it once. If the sort key stays, it compares this key once, and
    /// nothing moves in the order. Otherwise, among fewer than `4 ^ r` items, it compares at most `6 * r + 40` sort
    /// keys. It allocates no memory, and writes no table.
    ///
    /// `sessions.update2(&key, |session| now)`
    pub fn update2<Q: Query<T::K2>, F: FnOnce(&T) -> T::Data>(&mut self, query: Q, f: F) -> bool
    where
        T::Data: Drop,
        F: Drop,
        requires { (x : T) → IsOnly (has2 T.TriHashItem Q.stands_for query) (items self.old) (Some x)
            → FnOnceTakesAt F.FnOnce f x }
        ensures any_found { result ≡ list_any (has2 T.TriHashItem Q.stands_for query) (items self.old) }
        ensures stores { result ≡ true → StoresOne (FnOnceReturnsAt F.FnOnce f) T.put
            (by_sort T.sort_key T.SortKey.cmp T.key1 T.K1.cmp)
            (has2 T.TriHashItem Q.stands_for query) (items self.old) (items self.new) }
        ensures maps { MapsOne (FnOnceReturnsAt F.FnOnce f) T.put
            (by_sort T.sort_key T.SortKey.cmp T.key1 T.K1.cmp)
            (has2 T.TriHashItem Q.stands_for query) (items self.old) (items self.new) }
        ensures absent { result ≡ false → self.new ≡ self.old }
        ensures capacity { self.new.capacity ≡ self.old.capacity }
        ensures builder { self.new.builder ≡ self.old.builder }
    {
        self.update_by::<Second, Q, F>(query, f, &mut Costs::new(), &mut Meter::new())
    }

    /// Calls `f` with the item with the third key that the query stands for, stores what it returns as the item's data,
    /// and moves the item to the place of its sort key, which may have changed. Returns whether there is such an item.
    /// If not, `f` is not called, and nothing changes.
    ///
    /// The call hashes the query and searches for it once. If the sort key stays, it compares this key once, and
    /// nothing moves in the order. Otherwise, among fewer than `4 ^ r` items, it compares at most `6 * r + 40` sort
    /// keys. It allocates no memory, and writes no table.
    ///
    /// `sessions.update3(&key, |session| now)`
    pub fn update3<Q: Query<T::K3>, F: FnOnce(&T) -> T::Data>(&mut self, query: Q, f: F) -> bool
    where
        T::Data: Drop,
        F: Drop,
        requires { (x : T) → IsOnly (has3 T.TriHashItem Q.stands_for query) (items self.old) (Some x)
            → FnOnceTakesAt F.FnOnce f x }
        ensures any_found { result ≡ list_any (has3 T.TriHashItem Q.stands_for query) (items self.old) }
        ensures stores { result ≡ true → StoresOne (FnOnceReturnsAt F.FnOnce f) T.put
            (by_sort T.sort_key T.SortKey.cmp T.key1 T.K1.cmp)
            (has3 T.TriHashItem Q.stands_for query) (items self.old) (items self.new) }
        ensures maps { MapsOne (FnOnceReturnsAt F.FnOnce f) T.put
            (by_sort T.sort_key T.SortKey.cmp T.key1 T.K1.cmp)
            (has3 T.TriHashItem Q.stands_for query) (items self.old) (items self.new) }
        ensures absent { result ≡ false → self.new ≡ self.old }
        ensures capacity { self.new.capacity ≡ self.old.capacity }
        ensures builder { self.new.builder ≡ self.old.builder }
    {
        self.update_by::<Third, Q, F>(query, f, &mut Costs::new(), &mut Meter::new())
    }
}

impl<T> ExtendUniqueError<T, Rejected<T>> {
    /// Returns why the call failed: `Duplicate` if a key of the item is taken, otherwise `Memory`.
    pub fn reason(&self) -> InsertReason
        ensures duplicate { result ≡ InsertReason.Duplicate → self.now.rejected.taken1 ≡ false
            → self.now.rejected.taken2 ≡ false → self.now.rejected.taken3 ≡ false → ⊥ }
        ensures none_taken { result ≡ InsertReason.Memory → (self.now.rejected.taken1 ≡ false) ×
            (self.now.rejected.taken2 ≡ false) × (self.now.rejected.taken3 ≡ false) }
    {
        if !self.rejected.taken1 && !self.rejected.taken2 && !self.rejected.taken3 {
            InsertReason::Memory
        } else {
            InsertReason::Duplicate
        }
    }
}

impl<T> Display for ExtendUniqueError<T, Rejected<T>> {
    fn fmt<W: Write>(&self, f: &mut Formatter<W>) -> fmt::Result {
        self.tell(f, self.reason())
    }
}

impl<T: Drop> Error for ExtendUniqueError<T, Rejected<T>> {}
