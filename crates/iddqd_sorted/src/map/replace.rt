//! Putting an item with the same keys and maybe another sort key in the place of one.
ghost use Rattle.std.specs.Prelude.{◌≡◌, ℕ, ◌+◌, ◌<◌, true, false, length, Some, IfOk, IfErr, OnOk, OnErr, slice_index_or};
ghost use Rattle.std.specs.List.{list_any, remove};
ghost use Rattle.std.specs.Ordering.{is_eq};
ghost use Rattle.iddqd_store.specs.Bag.{IsOnly, agrees};
ghost use Rattle.iddqd_store.specs.SlotMap.{SearchesFirst};
ghost use Rattle.iddqd_store.specs.Slots.{get, IsLive};
ghost use Rattle.iddqd_sorted.specs.Inserts.{Replaces};
ghost use Rattle.iddqd_sorted.specs.Items.{items, bag, with_item};
ghost use Rattle.iddqd_sorted.specs.Keeping.{ComparesOnceIf, SharePlace};
ghost use Rattle.iddqd_order.specs.Search.{ComparesWithin};

use super::Sorted;
use super::settle::{place_of_slot, resettle};
use crate::item::{SortOrder, Sortable};
use iddqd_store::{Costs, ItemIndex, Meter, SlotMap};
use std::cmp::Ordering;

impl<M: SlotMap> Sorted<M>
where
    M::Item: Sortable,
    M::FirstKey: Ord,
{
    /// Puts an item in the place of the one that has each of its keys, and returns the latter: a touch, if the new item has
    /// another sort key. The error has the new item, and the map is as it was: no item has all the keys.
    ///
    /// The call hashes the first key once, and searches for it once. If the sort key stays, it compares this key once, and nothing
    /// moves in the order. Otherwise, among fewer than `4 ^ r` items, it compares at most `6 * r + 40` sort keys, and if the new one
    /// does not pass that of a neighbour in the order, no other item moves there. It allocates no memory, and writes no table. The
    /// capacity stays.
    ///
    /// `sessions.replace(session.seen_at(now))`
    pub fn replace(&mut self, item: M::Item) -> Result<M::Item, M::Item>
        ensures replaced { IfOk result (λ x. IsOnly (agrees M.ranks item) (items self.old) (Some x)) }
        ensures replaces { OnOk result (Replaces M.ranks ⟦<M as SortOrder>⟧.order self.old item self.new) }
        ensures handed_back { IfErr result (λ x. x ≡ item) }
        ensures unchanged { OnErr result (self.new ≡ self.old) }
        ensures reason { OnErr result (list_any (agrees M.ranks item) (items self.old) ≡ false) }
    {
        self.replace_counted(item, &mut Costs::new(), &mut Meter::new())
    }

    /// Replaces as `replace` does, which calls it, and counts what the search for the first key costs, and the comparisons in the
    /// order.
    #[inline(always)]
    fn replace_counted(
        &mut self,
        item: M::Item,
        costs: &mut Costs,
        meter: &mut Meter,
    ) -> Result<M::Item, M::Item>
        ensures replaced { IfOk result (λ x. IsOnly (agrees M.ranks item) (items self.old) (Some x)) }
        ensures replaces { OnOk result (Replaces M.ranks ⟦<M as SortOrder>⟧.order self.old item self.new) }
        ensures handed_back { IfErr result (λ x. x ≡ item) }
        ensures unchanged { OnErr result (self.new ≡ self.old) }
        ensures reason { OnErr result (list_any (agrees M.ranks item) (items self.old) ≡ false) }
        ensures asked { ComparesWithin 6 40 (length (items self.old)) meter.old meter.new }
        // If the sort key stays, one comparison is all.
        ensures asked_once { IfOk result (λ x. ComparesOnceIf
            (SharePlace ⟦<M as SortOrder>⟧.order x item) meter.old meter.new) }
        ensures costs { SearchesFirst (M.hashes self.old.builder) (bag self.old) self.old.capacity item costs.old costs.new }
    {
        match self.map.slot_of_all(&item, costs) {
            Some(slot) => Ok(self.exchange(slot, item, meter)),
            None => Err(item),
        }
    }

    /// Puts an item in the place of the one of this slot, which has the same keys. If the sort key stays, it compares once, and
    /// no entry of the order changes.
    fn exchange(&mut self, slot: ItemIndex, item: M::Item, meter: &mut Meter) -> M::Item
        requires live { IsLive self.old.slots slot }
        requires same_keys { (x : M.Item) → get self.old.slots slot ≡ Some x → agrees M.ranks x item ≡ true }
        ensures value { get self.old.slots slot ≡ Some result }
        ensures puts { (i : ℕ) × (i < length (items self.old)) × ((d : M.Item) → result ≡ slice_index_or (items self.old) i d)
            × (items self.new ≡ with_item ⟦<M as SortOrder>⟧.order
            (remove (items self.old) i) item) }
        ensures capacity { self.new.capacity ≡ self.old.capacity }
        ensures builder { self.new.builder ≡ self.old.builder }
        ensures asked { ComparesWithin 6 40 (length (items self.old)) meter.old meter.new }
        ensures asked_once { ComparesOnceIf
            (SharePlace ⟦<M as SortOrder>⟧.order result item) meter.old meter.new }
    {
        if self.is_level(slot, &item, meter) {
            self.put_level(slot, item)
        } else {
            self.put_moved(slot, item, meter)
        }
    }

    /// Returns whether an item has the place in the order that the one of this slot has: whether their sort keys are equal, and
    /// their first keys. It compares once.
    pub(super) fn is_level(&self, slot: ItemIndex, item: &M::Item, meter: &mut Meter) -> bool
        requires live { IsLive self.now.slots slot }
        ensures value { (x : M.Item) → get self.now.slots slot ≡ Some x
            → result ≡ is_eq (⟦<M as SortOrder>⟧.order x item.now) }
        ensures asked { meter.new ≡ meter.old + 1 }
    {
        meter.tick();
        let old = self.map.slots().item(slot);
        match old.sort_key().cmp(&item.sort_key()) {
            Ordering::Equal => match M::first_key(old).cmp(M::first_key(item)) {
                Ordering::Equal => true,
                _ => false,
            },
            _ => false,
        }
    }

    /// Puts an item in the place of the one of this slot, which has the same keys and the same place in the order. No entry of the
    /// order changes.
    fn put_level(&mut self, slot: ItemIndex, item: M::Item) -> M::Item
        requires live { IsLive self.old.slots slot }
        requires same_keys { (x : M.Item) → get self.old.slots slot ≡ Some x → agrees M.ranks x item ≡ true }
        requires level { (x : M.Item) → get self.old.slots slot ≡ Some x
            → is_eq (⟦<M as SortOrder>⟧.order x item) ≡ true }
        ensures value { get self.old.slots slot ≡ Some result }
        ensures puts { (i : ℕ) × (i < length (items self.old)) × ((d : M.Item) → result ≡ slice_index_or (items self.old) i d)
            × (items self.new ≡ with_item ⟦<M as SortOrder>⟧.order
            (remove (items self.old) i) item) }
        ensures capacity { self.new.capacity ≡ self.old.capacity }
        ensures builder { self.new.builder ≡ self.old.builder }
    {
        self.map.replace_at(slot, item)
    }

    /// Puts an item in the place of the one of this slot, which has the same keys, and moves it to its place in the order. If the new
    /// sort key does not pass that of a neighbour in the order, no other item moves there.
    fn put_moved(&mut self, slot: ItemIndex, item: M::Item, meter: &mut Meter) -> M::Item
        requires live { IsLive self.old.slots slot }
        requires same_keys { (x : M.Item) → get self.old.slots slot ≡ Some x → agrees M.ranks x item ≡ true }
        ensures value { get self.old.slots slot ≡ Some result }
        ensures puts { (i : ℕ) × (i < length (items self.old)) × ((d : M.Item) → result ≡ slice_index_or (items self.old) i d)
            × (items self.new ≡ with_item ⟦<M as SortOrder>⟧.order
            (remove (items self.old) i) item) }
        ensures capacity { self.new.capacity ≡ self.old.capacity }
        ensures builder { self.new.builder ≡ self.old.builder }
        ensures asked { ComparesWithin 6 37 (length (items self.old)) meter.old meter.new }
    {
        let place = place_of_slot(&self.map, &self.order, slot, meter);
        let gone = self.map.replace_at(slot, item);
        resettle(&self.map, &mut self.order, place, slot, meter);
        gone
    }
}
