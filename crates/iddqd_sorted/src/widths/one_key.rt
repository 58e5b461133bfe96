//! Items with one key.
//!
//! Made by tests/widths from crates/iddqd_sorted/src/widths/two_keys.rt: change that file.
ghost use Rattle.std.specs.Prelude.{[], ◌≡◌, true, false, not, filter, option_copied, Some, IfNone, IfOk, IfErr, OnOk, OnErr};
ghost use Rattle.std.specs.Fn.{FnOnceReturnsAt, FnOnceTakesAt};
ghost use Rattle.std.specs.List.{list_any};
ghost use Rattle.iddqd_store.specs.Bag.{IsOnly, conflicts_of};
ghost use Rattle.iddqd_id.specs.Keys.{has};
ghost use Rattle.iddqd_id.specs.Rekeyed.{TellsWhyNot, refused_item};
ghost use Rattle.iddqd_sorted.specs.Items.{items, by_sort, with_item};
ghost use Rattle.iddqd_sorted.specs.Keyed.{MapsOne, StoresOne};

use crate::error::ExtendUniqueError;
use crate::item::Sortable;
use crate::map::Sorted;
use crate::map::rekey::Refused;
use iddqd_id::ranks::First;
use iddqd_id::{
    DefaultHashBuilder, IdHashItem, IdHashItemMut, IdHashMap, NotReplaced, Ranked, Rejected,
};
use iddqd_store::{Costs, InsertReason, Meter, Query};
use std::error::Error;
use std::fmt::{self, Display, Formatter, Write};
use std::hash::{BuildHasher, Hash};

/// A hash map of items with one key that also keeps them in the order of their sort keys.
pub type IdHashOrdMap<T, S = DefaultHashBuilder> = Sorted<IdHashMap<T, S>>;

impl<T: IdHashItem + Sortable, S: BuildHasher> Sorted<IdHashMap<T, S>>
where
    T::Key: Ord,
{
    /// Returns the item with the key that the query stands for, or `None`. It costs what it costs on the map inside.
    pub fn get<Q: Query<T::Key>>(&self, query: Q) -> Option<&T>
        ensures { IsOnly (has T.IdHashItem Q.stands_for query) (items self.now) (option_copied result) }
    {
        self.inside().get(query)
    }

    /// Returns whether an item has the key that the query stands for.
    pub fn contains_key<Q: Query<T::Key>>(&self, query: Q) -> bool
        ensures { result ≡ list_any (has T.IdHashItem Q.stands_for query) (items self.now) }
    {
        self.inside().contains_key(query)
    }

    /// Removes the item with the key that the query stands for, and returns it, or `None` if there is none. The
    /// capacity stays.
    ///
    /// The call hashes the query and searches for it once, and walks once through the table. Among fewer than `4 ^ r`
    /// items it compares at most `3 * r + 19` sort keys. It allocates no memory.
    pub fn remove<Q: Query<T::Key>>(&mut self, query: Q) -> Option<T>
        ensures taken { IsOnly (has T.IdHashItem Q.stands_for query) (items self.old) result }
        ensures rest { items self.new ≡ filter (λ x. not (has T.IdHashItem Q.stands_for query x)) (items self.old) }
        ensures capacity { self.new.capacity ≡ self.old.capacity }
        ensures builder { self.new.builder ≡ self.old.builder }
        ensures absent { IfNone result (self.new ≡ self.old) }
    {
        self.remove_by::<First, Q>(query, &mut Costs::new(), &mut Meter::new())
    }

    /// Puts an item in the place of the one with the key that the query stands for, and returns the latter. The new
    /// item may have other keys and another sort key. The error has the new item, and the map is as it was: `Absent` if
    /// no item has the key asked for, and `Duplicate` if some other item conflicts with the new one.
    ///
    /// The call hashes the query and searches for it once, and hashes the key of the new item and searches for it once.
    /// It also hashes the key of the old item, if the new one has another. If the sort key and the key stay, it
    /// compares this sort key once, and nothing moves in the order. Otherwise, among fewer than `4 ^ r` items, it
    /// compares at most `6 * r + 40` sort keys. It allocates no memory, and the capacity stays.
    pub fn rekey<Q: Query<T::Key>>(&mut self, query: Q, item: T) -> Result<T, NotReplaced<T>>
        ensures found { IfOk result (λ x. IsOnly (has T.IdHashItem Q.stands_for query) (items self.old) (Some x)) }
        ensures puts { OnOk result (items self.new ≡ with_item (by_sort T.sort_key T.SortKey.cmp T.key T.Key.cmp)
            (filter (λ y. not (has T.IdHashItem Q.stands_for query y)) (items self.old)) item) }
        // None of the others conflicts with it, so that no third item leaves.
        ensures free { OnOk result (conflicts_of ⟦<T as Ranked>⟧.ranks
            (filter (λ y. not (has T.IdHashItem Q.stands_for query y)) (items self.old)) item ≡ []) }
        ensures capacity { self.new.capacity ≡ self.old.capacity }
        ensures builder { self.new.builder ≡ self.old.builder }
        ensures handed_back { IfErr result (λ e. refused_item e ≡ item) }
        ensures unchanged { OnErr result (self.new ≡ self.old) }
        ensures reason { IfErr result (λ e. TellsWhyNot ⟦<T as Ranked>⟧.ranks
            (has T.IdHashItem Q.stands_for query) (items self.old) item e) }
    {
        match self.rekey_by::<First, Q>(query, item, &mut Costs::new(), &mut Meter::new()) {
            Ok(old) => Ok(old),
            Err(Refused::Absent(item)) => Err(NotReplaced::Absent(item)),
            Err(Refused::Conflict(item)) => Err(NotReplaced::Duplicate(item)),
        }
    }
}

impl<T: IdHashItemMut + Sortable, S: BuildHasher> Sorted<IdHashMap<T, S>>
where
    T::Key: Ord,
{
    /// Calls `f` with the item with the key that the query stands for, stores what it returns as the item's data, and
    /// moves the item to the place of its sort key, which may have changed. Returns whether there is such an item. If
    /// not, `f` is not called, and nothing changes.
    ///
    /// The call hashes the query and searches for it once. If the sort key stays, it compares this key once, and
    /// nothing moves in the order. Otherwise, among fewer than `4 ^ r` items, it compares at most `6 * r + 40` sort
    /// keys. It allocates no memory, and writes no table.
    ///
    /// `sessions.update(&key, |session| now)`
    pub fn update<Q: Query<T::Key>, F: FnOnce(&T) -> T::Data>(&mut self, query: Q, f: F) -> bool
    where
        T::Data: Drop,
        F: Drop,
        requires { (x : T) → IsOnly (has T.IdHashItem Q.stands_for query) (items self.old) (Some x)
            → FnOnceTakesAt F.FnOnce f x }
        ensures any_found { result ≡ list_any (has T.IdHashItem Q.stands_for query) (items self.old) }
        ensures stores { result ≡ true → StoresOne (FnOnceReturnsAt F.FnOnce f) T.put
            (by_sort T.sort_key T.SortKey.cmp T.key T.Key.cmp)
            (has T.IdHashItem Q.stands_for query) (items self.old) (items self.new) }
        ensures maps { MapsOne (FnOnceReturnsAt F.FnOnce f) T.put
            (by_sort T.sort_key T.SortKey.cmp T.key T.Key.cmp)
            (has T.IdHashItem Q.stands_for query) (items self.old) (items self.new) }
        ensures absent { result ≡ false → self.new ≡ self.old }
        ensures capacity { self.new.capacity ≡ self.old.capacity }
        ensures builder { self.new.builder ≡ self.old.builder }
    {
        self.update_by::<First, Q, F>(query, f, &mut Costs::new(), &mut Meter::new())
    }
}

impl<T> ExtendUniqueError<T, Rejected<T>> {
    /// Returns why the call failed: `Duplicate` if the key of the item is taken, otherwise `Memory`.
    pub fn reason(&self) -> InsertReason
        ensures duplicate { result ≡ InsertReason.Duplicate → self.now.rejected.taken ≡ false → ⊥ }
        ensures none_taken { result ≡ InsertReason.Memory → self.now.rejected.taken ≡ false }
    {
        if self.rejected.taken {
            InsertReason::Duplicate
        } else {
            InsertReason::Memory
        }
    }
}

impl<T> Display for ExtendUniqueError<T, Rejected<T>> {
    fn fmt<W: Write>(&self, f: &mut Formatter<W>) -> fmt::Result {
        self.tell(f, self.reason())
    }
}

impl<T: Drop> Error for ExtendUniqueError<T, Rejected<T>> {}
