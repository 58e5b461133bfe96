//! Inserting an item whose keys no other has.
ghost use Rattle.std.specs.Prelude.{◌≡◌, ◌+◌, ◌<◌, ◌≤◌, [], ◌∷◌, length, map, Some, None, if◌then◌else◌, is_ok, IsOk, OnOk, OnErr, IfOk, IfErr, IsPermutation};
ghost use Rattle.std.specs.List.{insert};
ghost use Rattle.iddqd_store.specs.Bag.{conflicts_of};
ghost use Rattle.iddqd_store.specs.Rank.{walks_within};
ghost use Rattle.iddqd_store.specs.Rank.All.{ArePlacesOf, PlacingCosts, hashes_of};
ghost use Rattle.iddqd_store.specs.SlotMap.{SearchesEach};
ghost use Rattle.iddqd_store.specs.Slots.{get, Updates};
ghost use Rattle.iddqd_order.specs.Row.{position, IsPlace};
ghost use Rattle.iddqd_sorted.specs.Inserts.{FindsTaken, TellsWhy};
ghost use Rattle.iddqd_sorted.specs.Items.{items, bag, Gains};
ghost use Rattle.iddqd_sorted.specs.Ordered.{IsAscending};
ghost use Rattle.iddqd_order.specs.Search.{ComparesWithin, IsSplit};

use super::Sorted;
use crate::entry::Entry;
use crate::item::{SortOrder, Sortable};
use iddqd_order::Place;
use iddqd_store::{Costs, ItemIndex, Meter, SlotMap};

impl<M: SlotMap> Sorted<M>
where
    M::Item: Sortable,
    M::FirstKey: Ord,
{
    /// Inserts an item at its place if no item of the map has one of its keys. A sort key is never taken. The error has the item,
    /// says which of its keys are taken, and does not borrow the map, which is as it was. So `map.try_insert(item)?` works through
    /// a `From` of your own, and `.map_err(|rejected| rejected.item)` hands the item back.
    ///
    /// If a key is taken, the call fails, whatever memory there is. Otherwise it fails only if the map is full and there is no
    /// memory to grow.
    ///
    /// The call hashes each key of the item once, and searches for it once. Among fewer than `4 ^ r` items it compares at most
    /// `3 * r + 19` sort keys, and one alone if the item goes to the end of the order, as the last one did that was put into it. It
    /// asks for more capacity only if the map is full.
    pub fn try_insert(&mut self, item: M::Item) -> Result<(), M::Rejected>
        // The result is `Ok` only if no item has one of the keys, and then always if there is spare capacity.
        ensures gains { OnOk result (Gains ⟦<M as SortOrder>⟧.order 1 self.old item self.new) }
        ensures free { OnOk result (conflicts_of M.ranks (items self.old) item ≡ []) }
        ensures granted { conflicts_of M.ranks (items self.old) item ≡ []
            → length (items self.old) < self.old.capacity → IsOk result }
        // The error has the item and says which keys are taken. If none is, the map is full. The map is as it was.
        ensures handed_back { IfErr result (λ e. M.rejected_item e ≡ item) }
        ensures unchanged { OnErr result (self.new ≡ self.old) }
        ensures reason { IfErr result (λ e. TellsWhy M.ranks self.old item (M.rejected_flags e)) }
    {
        self.try_insert_counted(item, &mut Costs::new(), &mut Meter::new())
    }

    /// Inserts as `try_insert` does, which calls it, and counts what the searches for the keys cost, and the comparisons in the
    /// order. The cells that growing probes are not counted.
    #[inline(always)]
    pub(super) fn try_insert_counted(
        &mut self,
        item: M::Item,
        costs: &mut Costs,
        meter: &mut Meter,
    ) -> Result<(), M::Rejected>
        ensures gains { OnOk result (Gains ⟦<M as SortOrder>⟧.order 1 self.old item self.new) }
        ensures free { OnOk result (conflicts_of M.ranks (items self.old) item ≡ []) }
        ensures granted { conflicts_of M.ranks (items self.old) item ≡ []
            → length (items self.old) < self.old.capacity → IsOk result }
        ensures handed_back { IfErr result (λ e. M.rejected_item e ≡ item) }
        ensures unchanged { OnErr result (self.new ≡ self.old) }
        ensures reason { IfErr result (λ e. TellsWhy M.ranks self.old item (M.rejected_flags e)) }
        ensures asked { ComparesWithin 3 19 (length (items self.old)) meter.old meter.new }
        ensures costs { PlacingCosts (M.hashes self.old.builder) (bag self.old) self.old.capacity
            (hashes_of (M.hashes self.old.builder) item) (map (λ _. if is_ok result then 1 else 0) M.ranks) costs.old costs.new }
    {
        let at = match self.free_places(&item, costs) {
            Ok(at) => at,
            Err(found) => return Err(M::reject(item, M::taken(&found))),
        };
        match self.insert_free(item, at, 1, &mut costs.probed, meter) {
            Ok(()) => Ok(()),
            Err(item) => Err(M::reject(item, M::none_taken())),
        }
    }

    /// Inserts an item with which nothing conflicts, at the places that the searches for its keys found. A full map grows for as many
    /// items as are `wanted`, or for one if there is no memory for so many. If there is none for one, the item is handed back, and the
    /// map is as it was.
    #[inline(always)]
    pub(super) fn insert_free(
        &mut self,
        item: M::Item,
        at: M::Places,
        wanted: usize,
        probed: &mut Meter,
        meter: &mut Meter,
    ) -> Result<(), M::Item>
        requires wanted { 0 < wanted }
        requires free { conflicts_of M.ranks (items self.old) item ≡ [] }
        requires free_slots { conflicts_of M.ranks (bag self.old) item ≡ [] }
        requires places { ArePlacesOf (M.hashes self.old.builder) (bag self.old) item (M.spots at) }
        ensures gains { OnOk result (Gains ⟦<M as SortOrder>⟧.order wanted self.old item self.new) }
        ensures gained { OnOk result (IsPermutation (items self.new) (item ∷ items self.old)) }
        ensures granted { length (items self.old) < self.old.capacity → IsOk result }
        ensures handed_back { IfErr result (λ x. x ≡ item) }
        ensures unchanged { OnErr result (self.new ≡ self.old) }
        ensures full { OnErr result (length (items self.old) ≡ self.old.capacity) }
        ensures asked { ComparesWithin 3 19 (length (items self.old)) meter.old meter.new }
        ensures probed { probed.new ≤ probed.old + walks_within (length (bag self.old))
            (map (λ _. if is_ok result then 1 else 0) M.ranks) }
    {
        let Err(place) = self.place_of(&item, meter) else {
            unreachable!()
        };
        if let Err(_) = self.make_room(wanted) {
            return Err(item);
        }
        self.insert_into(item, at, place, probed);
        Ok(())
    }

    /// Returns where an item is to be inserted in the tables, or what the searches for its keys found, if items conflict with it.
    #[inline(always)]
    pub(super) fn free_places(
        &self,
        item: &M::Item,
        costs: &mut Costs,
    ) -> Result<M::Places, M::Found>
        ensures free { OnOk result (conflicts_of M.ranks (items self.now) item.now ≡ []) }
        ensures free_slots { OnOk result (conflicts_of M.ranks (bag self.now) item.now ≡ []) }
        ensures places { IfOk result (λ at. ArePlacesOf (M.hashes self.now.builder) (bag self.now) item.now (M.spots at)) }
        ensures finds { IfErr result (λ found. FindsTaken M.ranks (M.hashes self.now.builder) self.now item.now (M.searched found)) }
        ensures listed { IsPermutation (bag self.now) (items self.now) }
        ensures ascending { IsAscending ⟦<M as SortOrder>⟧.order (items self.now) }
        ensures costs { SearchesEach (M.hashes self.now.builder) (bag self.now) self.now.capacity item.now costs.old costs.new }
    {
        self.map.places(item, costs)
    }

    /// Inserts an item at the places that the searches for its keys and its sort key found, and returns its slot. There has to be
    /// room.
    pub(super) fn insert_into(
        &mut self,
        item: M::Item,
        at: M::Places,
        place: Place,
        probed: &mut Meter,
    ) -> ItemIndex
        requires room { length (items self.old) < self.old.capacity }
        requires free { conflicts_of M.ranks (bag self.old) item ≡ [] }
        requires places { ArePlacesOf (M.hashes self.old.builder) (bag self.old) item (M.spots at) }
        requires gap { IsPlace self.old.blocks place
            × IsSplit (λ y. ⟦<M as SortOrder>⟧.order y item) (items self.old)
            (position self.old.blocks place) 0 }
        ensures inserted { items self.new ≡ insert (items self.old) (position self.old.blocks place) item }
        ensures kept { (self.new.capacity ≡ self.old.capacity) × (self.new.builder ≡ self.old.builder) }
        ensures fits { length (items self.new) ≤ self.new.capacity }
        ensures was_free { get self.old.slots result ≡ None }
        ensures updates { Updates self.old.slots self.new.slots result (Some item) }
        ensures probed { probed.new ≤ probed.old + walks_within (length (bag self.old)) (map (λ _. 1) M.ranks) }
    {
        let sort_key = item.sort_key();
        let slot = self.map.insert_into(item, at, probed);
        let _ = self.order.insert(place, Entry { sort_key, slot });
        slot
    }
}
