//! Inserting an item in place of those that conflict with it.
ghost use Rattle.std.specs.Prelude.{◌≡◌, ℕ, ◌+◌, ◌*◌, ◌^◌, ◌<◌, ◌≤◌, [], ◌∷◌, All, length, map, nat_eq, None, Some, ◌++◌, IsOk, OnOk, OnErr, IfOk, IfErr, IsPermutation, slice_set};
ghost use Rattle.std.specs.List.{IsDistinct};
ghost use Rattle.iddqd_store.specs.Bag.{conflicting, conflicts_of};
ghost use Rattle.iddqd_store.specs.Map.{Loses, PutsAt};
ghost use Rattle.iddqd_store.specs.Rank.{walks_within};
ghost use Rattle.iddqd_store.specs.Rank.All.{AreHashed, HaveHashes, PlacingCosts, hashes_of};
ghost use Rattle.iddqd_store.specs.Slots.{contents, get, IsLive};
ghost use Rattle.iddqd_store.specs.Slots.Found.{items_at};
ghost use Rattle.iddqd_sorted.specs.Inserts.{FindsTaken};
ghost use Rattle.iddqd_sorted.specs.Items.{items, bag, IsFullFor};
ghost use Rattle.iddqd_sorted.specs.Ordered.{IsAscending};
ghost use Rattle.iddqd_sorted.specs.Overwriting.{Overwrites, map_of};

use super::Sorted;
use super::settle::{place_of_slot, settle};
use crate::item::{SortOrder, Sortable};
use iddqd_store::{Costs, ItemIndex, MemoryRefused, Meter, SlotMap, UpToThree};

impl<M: SlotMap> Sorted<M>
where
    M::Item: Sortable,
    M::FirstKey: Ord,
{
    /// Inserts an item at its place, removes those that conflict with it, and returns these, in the order of the keys and each once.
    ///
    /// The call hashes each key of the item once, and searches for it once. It also hashes those keys of the first removed item by
    /// which it did not find that item, and each key of the others. Among fewer than `4 ^ r` items it compares at most
    /// `3 * r + 19` sort keys for the item, or one as `try_insert` does, and at most as many for each that it removes. If items
    /// conflict, it allocates no memory and the capacity stays. Otherwise it fails only if the map is full and there is no memory to
    /// grow. The error then has the item, and the map is as it was.
    ///
    /// `sessions.insert_overwrite(session)?`
    pub fn insert_overwrite(
        &mut self,
        item: M::Item,
    ) -> Result<UpToThree<M::Item>, MemoryRefused<M::Item>>
        // The conflicting items are returned, in the order of the item's keys, and the item is in their place.
        ensures displaced { IfOk result (λ gone. gone ≡ conflicting M.ranks (items self.old) item) }
        ensures overwrites { OnOk result (Overwrites M.ranks ⟦<M as SortOrder>⟧.order 1 self.old item self.new) }
        // With spare capacity the call never fails.
        ensures granted { length (items self.old) < self.old.capacity → IsOk result }
        // The error has the item, and the map is as it was. This happens only in a full map, without a conflict.
        ensures handed_back { IfErr result (λ e. e.value ≡ item) }
        ensures unchanged { OnErr result (self.new ≡ self.old) }
        ensures reason { OnErr result (IsFullFor M.ranks self.old item) }
    {
        self.insert_overwrite_counted(item, 1, &mut Costs::new(), &mut Meter::new())
    }

    /// Inserts as `insert_overwrite` does, which calls it, and counts what the searches for the keys cost, and the comparisons in the
    /// order. The cells that growing probes are not counted. Beside the searches, the number of its walks through each table is at
    /// most one more than the number of items that it displaces.
    #[inline(always)]
    pub(super) fn insert_overwrite_counted(
        &mut self,
        item: M::Item,
        wanted: usize,
        costs: &mut Costs,
        meter: &mut Meter,
    ) -> Result<UpToThree<M::Item>, MemoryRefused<M::Item>>
        requires wanted { 0 < wanted }
        ensures displaced { IfOk result (λ gone. gone ≡ conflicting M.ranks (items self.old) item) }
        ensures overwrites { OnOk result (Overwrites M.ranks ⟦<M as SortOrder>⟧.order wanted self.old item self.new) }
        ensures granted { length (items self.old) < self.old.capacity → IsOk result }
        ensures handed_back { IfErr result (λ e. e.value ≡ item) }
        ensures unchanged { OnErr result (self.new ≡ self.old) }
        ensures reason { OnErr result (IsFullFor M.ranks self.old item) }
        ensures asked { (r : ℕ) → length (items self.old) < 4 ^ r
            → meter.new ≤ meter.old + (length (conflicting M.ranks (items self.old) item) + 1) * (3 * r + 19) }
        ensures costs { PlacingCosts (M.hashes self.old.builder) (bag self.old) self.old.capacity
            (hashes_of (M.hashes self.old.builder) item)
            (map (λ _. length (conflicting M.ranks (items self.old) item) + 1) M.ranks) costs.old costs.new }
    {
        let at = match self.free_places(&item, costs) {
            Ok(at) => at,
            Err(found) => return Ok(self.overwrite(item, &found, &mut costs.probed, meter)),
        };
        match self.insert_free(item, at, wanted, &mut costs.probed, meter) {
            Ok(()) => Ok(UpToThree::new()),
            Err(value) => Err(MemoryRefused { value }),
        }
    }

    /// Inserts an item in place of those that conflict with it, whose slots the searches by its keys found, and returns these
    /// items. There is at least one, whose slot the new item takes.
    fn overwrite(
        &mut self,
        item: M::Item,
        found: &M::Found,
        probed: &mut Meter,
        meter: &mut Meter,
    ) -> UpToThree<M::Item>
        requires finds { FindsTaken M.ranks (M.hashes self.old.builder) self.old item (M.searched found.now) }
        ensures displaced { result ≡ conflicting M.ranks (bag self.old) item }
        ensures rest { (left : _) × IsPermutation (bag self.old) (conflicting M.ranks (bag self.old) item ++ left)
            × IsPermutation (bag self.new) (item ∷ left) }
        ensures listed { IsPermutation (bag self.new) (items self.new) }
        ensures ascending { IsAscending ⟦<M as SortOrder>⟧.order (items self.new) }
        ensures fits { length (bag self.new) ≤ self.new.capacity }
        ensures capacity { self.new.capacity ≡ self.old.capacity }
        ensures builder { self.new.builder ≡ self.old.builder }
        ensures asked { (r : ℕ) → length (bag self.old) < 4 ^ r → meter.new ≤ meter.old + (length result + 1) * (3 * r + 19) }
        ensures probed { probed.new ≤ probed.old + walks_within (length (bag self.old)) (map (λ _. length result + 1) M.ranks) }
    {
        let mut slots = M::found_slots(found);
        let Some(slot) = slots.pop_front() else {
            unreachable!()
        };
        let mut displaced = self.remove_slots(&slots, probed, meter);
        displaced.push_front(self.overwrite_slot(slot, item, found, probed, meter));
        displaced
    }

    /// Removes the items of these slots, and returns them in the order of the slots.
    fn remove_slots(
        &mut self,
        slots: &UpToThree<ItemIndex>,
        probed: &mut Meter,
        meter: &mut Meter,
    ) -> UpToThree<M::Item>
        requires live { All (IsLive self.old.slots) slots.now }
        requires apart { IsDistinct nat_eq slots.now }
        ensures values { result ≡ items_at self.old.slots slots.now }
        ensures short { length result ≤ length slots.now }
        ensures loses { Loses (map_of self.old) result (map_of self.new) }
        ensures others { (slot : ℕ) → IsDistinct nat_eq (slot ∷ slots.now) → get self.new.slots slot ≡ get self.old.slots slot }
        ensures left { (slot : ℕ) (x : M.Item) → get self.new.slots slot ≡ Some x → get self.old.slots slot ≡ Some x }
        ensures asked { (r : ℕ) → length (bag self.old) < 4 ^ r → meter.new ≤ meter.old + length slots.now * (3 * r + 19) }
        ensures probed { probed.new ≤ probed.old + walks_within (length (bag self.old)) (map (λ _. length slots.now) M.ranks) }
    {
        let mut taken = UpToThree::new();
        for index in 0..slots.len() {
            if let Some(slot) = slots.get(index) {
                taken.push(self.remove_slot(*slot, probed, meter));
            }
        }
        taken
    }

    /// Puts an item in the slot of the only one that conflicts with it, and returns the latter. `found` is what the searches by the
    /// keys of the new item found; other items that they found have left the map since.
    fn overwrite_slot(
        &mut self,
        slot: ItemIndex,
        item: M::Item,
        found: &M::Found,
        probed: &mut Meter,
        meter: &mut Meter,
    ) -> M::Item
        requires live { IsLive self.old.slots slot }
        requires free { conflicts_of M.ranks (contents (slice_set self.old.slots slot None)) item ≡ [] }
        requires hashes { HaveHashes (hashes_of (M.hashes self.old.builder) item) (M.searched found.now) }
        requires hashed { AreHashed (M.hashes self.old.builder) self.old.slots (M.searched found.now) }
        ensures value { get self.old.slots slot ≡ Some result }
        ensures puts_at { PutsAt M.ranks (map_of self.old) slot item (item ∷ contents (slice_set self.old.slots slot None)) (map_of self.new) }
        ensures listed { IsPermutation (bag self.new) (items self.new) }
        ensures ascending { IsAscending ⟦<M as SortOrder>⟧.order (items self.new) }
        ensures asked { (r : ℕ) → length (bag self.old) < 4 ^ r → meter.new ≤ meter.old + 2 * (3 * r + 19) }
        ensures probed { probed.new ≤ probed.old + walks_within (length (bag self.old)) (map (λ _. 2) M.ranks) }
    {
        let place = place_of_slot(&self.map, &self.order, slot, meter);
        // The map goes first: it may hash keys, which runs code of the caller, and the order does not.
        let gone = self.map.overwrite_at(slot, item, found, probed);
        let _ = self.order.remove(place);
        settle(&self.map, &mut self.order, slot, meter);
        gone
    }
}
