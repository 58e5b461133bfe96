//! Single items and their places in the order.
ghost use Rattle.std.specs.Prelude.{◌≡◌, ◌+◌, ◌<◌, ◌≤◌, true, false, length, map, IfOk, IfErr, slice_index_or};
ghost use Rattle.std.specs.List.{remove};
ghost use Rattle.iddqd_store.specs.Rank.{walks_within};
ghost use Rattle.iddqd_order.specs.Row.{position, HasEntry, IsPlace};
ghost use Rattle.iddqd_sorted.specs.Items.{items};
ghost use Rattle.iddqd_order.specs.Search.{ComparesWithin, IsSplit, IsStartOf, is_past};

use super::Sorted;
use crate::compare::{Before, Behind, ByItem};
use crate::item::{SortOrder, Sortable};
use iddqd_order::Place;
use iddqd_store::{Meter, SlotMap};

impl<M: SlotMap> Sorted<M>
where
    M::Item: Sortable,
    M::FirstKey: Ord,
{
    /// Searches for an item with the sort key and the first key of this one. `Ok` has its place, and `Err` the place at which
    /// it would go. If the last item went to the end, it first looks whether this one does too.
    pub(crate) fn place_of(&self, item: &M::Item, meter: &mut Meter) -> Result<Place, Place>
        ensures entry { IfOk result (HasEntry self.now.blocks) }
        ensures found { IfOk result (λ p. IsSplit (λ y. ⟦<M as SortOrder>⟧.order y item.now)
            (items self.now) (position self.now.blocks p) 1) }
        ensures place { IfErr result (IsPlace self.now.blocks) }
        ensures gap { IfErr result (λ p. IsSplit (λ y. ⟦<M as SortOrder>⟧.order y item.now)
            (items self.now) (position self.now.blocks p) 0) }
        ensures asked { ComparesWithin 3 19 (length (items self.now)) meter.old meter.new }
    {
        let compare: ByItem<'_, M> = ByItem {
            items: self.map.slots(),
            sort_key: item.sort_key(),
            first_key: M::first_key(item),
        };
        self.order.search_last_first(&compare, meter)
    }

    /// Returns the place of the first item whose sort key is not lower than this one. It is the end if there is none.
    pub(crate) fn lower_bound(
        &self,
        sort_key: &<M::Item as Sortable>::SortKey,
        meter: &mut Meter,
    ) -> Place
        ensures place { IsPlace self.now.blocks result }
        ensures starts { IsStartOf (λ x. is_past false (M.Item.SortKey.cmp (M.Item.sort_key x) sort_key.now)) (items self.now)
            (position self.now.blocks result) }
        ensures asked { ComparesWithin 3 19 (length (items self.now)) meter.old meter.new }
    {
        match self.order.search(&Before { sort_key }, meter) {
            Ok(_) => unreachable!(),
            Err(place) => place,
        }
    }

    /// Returns the place of the first item whose sort key is higher than this one. It is the end if there is none.
    pub(crate) fn upper_bound(
        &self,
        sort_key: &<M::Item as Sortable>::SortKey,
        meter: &mut Meter,
    ) -> Place
        ensures place { IsPlace self.now.blocks result }
        ensures starts { IsStartOf (λ x. is_past true (M.Item.SortKey.cmp (M.Item.sort_key x) sort_key.now)) (items self.now)
            (position self.now.blocks result) }
        ensures asked { ComparesWithin 3 19 (length (items self.now)) meter.old meter.new }
    {
        match self.order.search(&Behind { sort_key }, meter) {
            Ok(_) => unreachable!(),
            Err(place) => place,
        }
    }

    /// Returns the item at this place.
    pub(crate) fn item_in(&self, place: Place) -> &M::Item
        requires { HasEntry self.now.blocks place }
        ensures item { (d : M.Item) → result.now ≡ slice_index_or (items self.now) (position self.now.blocks place) d }
        ensures within { position self.now.blocks place < length (items self.now) }
    {
        self.map.slots().item(self.order.entry_in(place).slot)
    }

    /// Removes the item at this place, by one walk through each table. Returns it, and the place of the item that followed it, or
    /// an end.
    pub(crate) fn remove_in(&mut self, place: Place, meter: &mut Meter) -> (M::Item, Place)
        requires { HasEntry self.old.blocks place }
        ensures item { (d : M.Item) → result.0 ≡ slice_index_or (items self.old) (position self.old.blocks place) d }
        ensures within { position self.old.blocks place < length (items self.old) }
        ensures place { IsPlace self.new.blocks result.1 }
        ensures index { position self.new.blocks result.1 ≡ position self.old.blocks place }
        ensures rest { items self.new ≡ remove (items self.old) (position self.old.blocks place) }
        ensures kept { (self.new.capacity ≡ self.old.capacity) × (self.new.builder ≡ self.old.builder) }
        ensures probed { meter.new ≤ meter.old + walks_within (length (items self.old)) (map (λ _. 1) M.ranks) }
    {
        // The map goes first: it may hash keys, which runs code of the caller, and the order does not.
        let slot = self.order.entry_in(place).slot;
        let gone = self.map.remove_at(slot, meter);
        let (_, behind) = self.order.remove(place);
        (gone, behind)
    }
}
