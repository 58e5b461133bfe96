//! Inserting the items of a list so that they can be removed again if a later one is rejected.
ghost use Rattle.std.specs.Prelude.{◌≡◌, ◌<◌, ◌≤◌, ◌++◌, [], ◌∷◌, true, false, List, All, length, IfErr, OnErr, OnOk, IsPermutation, nat_eq};
ghost use Rattle.std.specs.List.{IsDistinct};
ghost use Rattle.iddqd_store.specs.Bag.{IsSound, conflicts_of, tests_of};
ghost use Rattle.iddqd_store.specs.SlotMap.{AreAny};
ghost use Rattle.iddqd_store.specs.Slots.{IsLive};
ghost use Rattle.iddqd_store.specs.Slots.Found.{items_at, StandAt};
ghost use Rattle.iddqd_sorted.specs.Items.{GrowsUnless, items, most_grown, with_item};
ghost use Rattle.iddqd_sorted.specs.Ordered.{IsAscending};

use super::Sorted;
use crate::item::{SortOrder, Sortable};
use iddqd_store::{Batch, Costs, Meter, SlotMap, TryReserveError};

impl<M: SlotMap> Sorted<M>
where
    M::Item: Sortable,
    M::FirstKey: Ord,
{
    /// Inserts an item if none conflicts with it, and notes its slot. The call searches for conflicts first. Then it reserves
    /// capacity in the map and for the note, for as many items as are `wanted`, or for one if there is no memory for so many, and
    /// then it inserts the item. The error has the item, and says which of its keys are taken. If none is, there is no memory.
    pub(super) fn insert_noted(
        &mut self,
        item: M::Item,
        batch: &mut Batch<M::Item>,
        wanted: usize,
    ) -> Result<(), M::Rejected>
    where
        M::Item: Drop,
        requires { 0 < wanted }
        ensures lists { OnOk result (items self.new
            ≡ with_item ⟦<M as SortOrder>⟧.order (items self.old) item) }
        ensures gained { OnOk result (IsPermutation (items self.new) (item ∷ items self.old)) }
        ensures free { OnOk result (conflicts_of M.ranks (items self.old) item ≡ []) }
        ensures noted { OnOk result ((xs : List M.Item) → StandAt self.old.slots batch.old.slots xs
            → StandAt self.new.slots batch.new.slots (xs ++ item ∷ [])) }
        ensures handed_back { IfErr result (λ e. M.rejected_item e ≡ item) }
        ensures taken { IfErr result (λ e. AreAny (M.rejected_flags e) (tests_of M.ranks item) (items self.old)) }
        ensures same_slots { OnErr result (self.new.slots ≡ self.old.slots) }
        ensures same_blocks { OnErr result (self.new.blocks ≡ self.old.blocks) }
        ensures same_notes { OnErr result (batch.new.slots ≡ batch.old.slots) }
        ensures grows_unless { GrowsUnless (length (items self.old) < self.old.capacity) self.old self.new }
        ensures most { self.new.capacity ≤ most_grown self.old.capacity (length (items self.old)) wanted }
        ensures sound { IsSound M.ranks (items self.old) }
        ensures ascending { IsAscending ⟦<M as SortOrder>⟧.order (items self.old) }
    {
        let full = self.is_full();
        let at = match self.free_places(&item, &mut Costs::new()) {
            Ok(at) => at,
            Err(found) => return Err(M::reject(item, M::taken(&found))),
        };
        let Err(place) = self.place_of(&item, &mut Meter::new()) else {
            unreachable!()
        };
        if self.make_room_for(full, wanted).is_err() || batch.reserve_for(wanted).is_err() {
            return Err(M::reject(item, M::none_taken()));
        }
        let slot = self.insert_into(item, at, place, &mut Meter::new());
        batch.push(slot);
        Ok(())
    }

    /// Returns whether as many items are there as fit.
    fn is_full(&self) -> bool
        ensures full { result ≡ true → length (items self.now) ≡ self.now.capacity }
        ensures spare { result ≡ false → length (items self.now) < self.now.capacity }
        ensures sound { IsSound M.ranks (items self.now) }
        ensures ascending { IsAscending ⟦<M as SortOrder>⟧.order (items self.now) }
    {
        self.len() == self.capacity()
    }

    /// Reserves capacity if the map is `full`: for as many more items as are `wanted`, or for one if there is no memory for so
    /// many. If that fails, the map is as before.
    #[inline(always)]
    fn make_room_for(&mut self, full: bool, wanted: usize) -> Result<(), TryReserveError>
        requires wanted { 0 < wanted }
        requires full { full ≡ true → length (items self.old) ≡ self.old.capacity }
        requires spare { full ≡ false → length (items self.old) < self.old.capacity }
        ensures slots { self.new.slots ≡ self.old.slots }
        ensures blocks { self.new.blocks ≡ self.old.blocks }
        ensures builder { self.new.builder ≡ self.old.builder }
        ensures no_less_room { self.old.capacity ≤ self.new.capacity }
        ensures same_room { length (items self.old) < self.old.capacity → self.new.capacity ≡ self.old.capacity }
        ensures most { self.new.capacity ≤ most_grown self.old.capacity (length (items self.old)) wanted }
        ensures room { OnOk result (length (items self.old) < self.new.capacity) }
    {
        if full {
            return self.grow_for(wanted);
        }
        Ok(())
    }

    /// Removes the inserted items again, in the order in which they were inserted. The call hashes each key of them once, and
    /// searches for the place of each in the order. It allocates no memory.
    pub(super) fn remove_batch(&mut self, batch: Batch<M::Item>) -> Vec<M::Item>
        requires live { All (IsLive self.old.slots) batch.slots }
        requires apart { IsDistinct nat_eq batch.slots }
        requires in_order { IsAscending ⟦<M as SortOrder>⟧.order (items self.old) }
        ensures values { result.items ≡ items_at self.old.slots batch.slots }
        ensures left { IsPermutation (items self.old) (result.items ++ items self.new) }
        ensures ascending { IsAscending ⟦<M as SortOrder>⟧.order (items self.new) }
        ensures capacity { self.new.capacity ≡ self.old.capacity }
        ensures builder { self.new.builder ≡ self.old.builder }
    {
        let (slots, mut items) = batch.into_parts();
        for index in 0..slots.len() {
            items.push_reserved(self.remove_slot(
                slots[index],
                &mut Meter::new(),
                &mut Meter::new(),
            ));
        }
        items
    }
}
