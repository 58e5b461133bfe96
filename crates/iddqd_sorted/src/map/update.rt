//! Updating an item by a closure, which is called with the item and returns its new data.
ghost use Rattle.std.specs.Prelude.{◌≡◌, true, false, length, Some};
ghost use Rattle.std.specs.Fn.{FnOnceReturnsAt, FnOnceTakesAt};
ghost use Rattle.std.specs.List.{list_any};
ghost use Rattle.iddqd_store.specs.Bag.{IsOnly};
ghost use Rattle.iddqd_sorted.specs.Items.{items};
ghost use Rattle.iddqd_sorted.specs.Keeping.{ComparesOnceIf, KeepsSortKey};
ghost use Rattle.iddqd_sorted.specs.Keyed.{MapsOne, StoresOne};
ghost use Rattle.iddqd_order.specs.Search.{ComparesWithin};

use super::Sorted;
use super::settle::resettle_changed;
use crate::item::{SortOrder, Sortable};
use iddqd_store::{Costs, FindsBy, Meter, Query, SlotMap, StoresData};

impl<M: SlotMap> Sorted<M>
where
    M::Item: Sortable,
    M::FirstKey: Ord,
{
    /// Calls `f` with the item whose key of the rank `R` the query stands for, stores what it returns as the item's data, and
    /// moves the item to the place of its sort key, which may have changed. Returns whether there is such an item. If not, `f`
    /// is not called, and nothing changes. The capacity stays.
    ///
    /// The call hashes the query and searches for it once. If the sort key stays, it compares this key once, and nothing moves in
    /// the order. Otherwise, among fewer than `4 ^ r` items, it compares at most `6 * r + 40` sort keys. It allocates no memory, and
    /// writes no table.
    pub(crate) fn update_by<
        R,
        Q: Query<<M as FindsBy<R>>::Key>,
        F: FnOnce(&M::Item) -> <M as StoresData>::Data,
    >(&mut self, query: Q, f: F, costs: &mut Costs, meter: &mut Meter) -> bool
    where
        M: FindsBy<R> + StoresData,
        <M as StoresData>::Data: Drop,
        F: Drop,
        requires takes { (x : M.Item) → IsOnly (λ y. Q.stands_for query (⟦<M as FindsBy<R>>⟧.key y)) (items self.old) (Some x)
            → FnOnceTakesAt F.FnOnce f x }
        requires first_key { (x : M.Item) (d : M.Data)
            → M.FirstKey.eq (M.first_key (⟦<M as StoresData>⟧.put x d)) (M.first_key x) ≡ true }
        ensures any_found { result ≡ list_any (λ y. Q.stands_for query (⟦<M as FindsBy<R>>⟧.key y)) (items self.old) }
        ensures stores { result ≡ true → StoresOne (FnOnceReturnsAt F.FnOnce f) ⟦<M as StoresData>⟧.put
            ⟦<M as SortOrder>⟧.order
            (λ y. Q.stands_for query (⟦<M as FindsBy<R>>⟧.key y)) (items self.old) (items self.new) }
        ensures maps { MapsOne (FnOnceReturnsAt F.FnOnce f) ⟦<M as StoresData>⟧.put
            ⟦<M as SortOrder>⟧.order
            (λ y. Q.stands_for query (⟦<M as FindsBy<R>>⟧.key y)) (items self.old) (items self.new) }
        ensures absent { result ≡ false → self.new ≡ self.old }
        ensures capacity { self.new.capacity ≡ self.old.capacity }
        ensures builder { self.new.builder ≡ self.old.builder }
        ensures asked { ComparesWithin 6 40 (length (items self.old)) meter.old meter.new }
        // If the sort key stays, one comparison is all.
        ensures asked_once { ComparesOnceIf (KeepsSortKey (FnOnceReturnsAt F.FnOnce f) ⟦<M as StoresData>⟧.put M.Item.sort_key M.Item.SortKey.cmp
            (λ y. Q.stands_for query (⟦<M as FindsBy<R>>⟧.key y)) (items self.old)) meter.old meter.new }
    {
        let Some((slot, _)) = self.map.slot_by(query, costs) else {
            return false;
        };
        let before = self.map.slots().item(slot).sort_key();
        let d = f(self.map.slots().item(slot));
        self.map.store_at(slot, d);
        resettle_changed(&self.map, &mut self.order, slot, before, meter);
        true
    }
}
