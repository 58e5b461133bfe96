//! Iterating over the items by the numbers of their slots.
//!
//! Made by tests/widths from crates/iddqd_bi/src/map/slots/walk.rt: change that file.
ghost use Rattle.std.specs.Prelude.{◌≡◌, ◌+◌, ◌^◌, ◌<◌, [], length, Some, IfSome, IfNone};
ghost use Rattle.iddqd_store.specs.Slots.{get, IsLive};
ghost use Rattle.iddqd_store.specs.Slots.Next.{ComesNext};
ghost use Rattle.iddqd_store.specs.Map.Walk.{Passes, first_from, passed_items, to_come};
ghost use Rattle.iddqd_store.specs.Map.Written.{map_with};

use super::super::TriHashMap;
use crate::item::TriHashItem;
use iddqd_store::ItemIndex;
use std::hash::{BuildHasher, Hash};

impl<T: TriHashItem, S: BuildHasher> TriHashMap<T, S> {
    /// Returns the first slot with an item whose number is this one or a higher one.
    pub(crate) fn slot_from(&self, from: usize) -> Option<ItemIndex>
        ensures comes { IfSome result (λ slot. (x : T) → get self.now.slots slot ≡ Some x
            → ComesNext self.now.slots from slot x) }
        ensures next { IfSome result (λ slot. (x : T) × (get self.now.slots slot ≡ Some x)
            × Passes self.now from x (map_with self.now slot) (slot + 1)) }
        ensures first_from { IfSome result (λ slot. first_from self.now.slots from ≡ Some slot) }
        ensures live { IfSome result (IsLive self.now.slots) }
        ensures countable { IfSome result (λ slot. slot + 1 < 2 ^ 64) }
        ensures end { IfNone result (to_come self.now from ≡ []) }
    {
        // The match lets the proof treat each outcome by itself.
        match self.items.next_live(from) {
            Some(slot) => Some(slot),
            None => None,
        }
    }

    /// Returns the number of slots, with an item or free.
    pub(crate) fn slot_count(&self) -> usize
        ensures { result ≡ length self.now.slots }
    {
        self.items.slot_count()
    }

    /// Returns the slot with this number, if it has an item.
    pub(crate) fn slot_at(&self, number: usize) -> Option<ItemIndex>
        requires { number + 1 < 2 ^ 64 }
        ensures here { IfSome result (λ slot. slot ≡ number) }
        ensures live { IfSome result (IsLive self.now.slots) }
        ensures comes { (x : T) → get self.now.slots number ≡ Some x → ComesNext self.now.slots number number x }
        ensures skips { IfNone result (to_come self.now number ≡ to_come self.now (number + 1)) }
        ensures passed { IfNone result (passed_items self.now (number + 1) ≡ passed_items self.now number) }
    {
        let slot = ItemIndex::new(number);
        if self.items.get(slot).is_some() {
            Some(slot)
        } else {
            None
        }
    }

    /// Returns the first slot with an item. The slots before it are not visited again, unless an insert uses one of
    /// them.
    pub(crate) fn first_slot(&mut self) -> Option<ItemIndex>
        ensures live { IfSome result (IsLive self.old.slots) }
        ensures end { IfNone result (to_come self.old 0 ≡ []) }
        ensures unchanged { self.new ≡ self.old }
    {
        // The `?` lets the proof treat each outcome by itself.
        let slot = self.items.first_live()?;
        Some(slot)
    }

    /// Returns how many items are in slots whose number is this one or a higher one.
    pub(crate) fn count_from(&self, from: usize) -> usize
        ensures { result ≡ length (to_come self.now from) }
    {
        self.items.count_from(from)
    }
}
