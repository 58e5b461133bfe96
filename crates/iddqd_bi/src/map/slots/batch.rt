//! Inserting the items of a list so that they can be removed again if a later one is rejected.
ghost use Rattle.std.specs.Prelude.{◌≡◌, ◌<◌, ◌≤◌, ◌++◌, [], ◌∷◌, length, List, All, IsOk, OnOk, OnErr, IfErr, nat_eq};
ghost use Rattle.std.specs.List.{IsDistinct};
ghost use Rattle.iddqd_store.specs.Bag.{conflicts_of};
ghost use Rattle.iddqd_store.specs.Map.{bag, most_grown, Gains, GrowsUnless, Loses};
ghost use Rattle.iddqd_store.specs.Slots.{IsLive};
ghost use Rattle.iddqd_store.specs.Slots.Found.{items_at, StandAt};
ghost use Rattle.iddqd_bi.specs.InsertErrors.{TellsTaken};

use crate::error::Rejected;
use crate::item::{BiHashItem, Ranked};
use crate::map::BiHashMap;
use crate::ranks::{First, Second};
use iddqd_store::{Batch, Costs, Meter, Searched};
use std::hash::{BuildHasher, Hash};

impl<T: BiHashItem, S: BuildHasher> BiHashMap<T, S> {
    /// Inserts an item if none conflicts with it, and notes its slot. The call searches for conflicts first. Then it
    /// reserves capacity in the map and for the note, for as many items as are `wanted`, or for one if there is no memory
    /// for so many, and then it inserts the item. There is always memory for it if the map is not full, and the slot can be
    /// noted without an allocation.
    pub(crate) fn insert_noted(
        &mut self,
        item: T,
        batch: &mut Batch<T>,
        wanted: usize,
    ) -> Result<(), Rejected<T>>
    where
        T: Drop,
        requires { 0 < wanted }
        ensures gains { OnOk result (Gains wanted self.old item self.new) }
        ensures free { OnOk result (conflicts_of ⟦<T as Ranked>⟧.ranks (bag self.old) item ≡ []) }
        ensures noted { OnOk result ((xs : List T) → StandAt self.old.slots batch.old.slots xs
            → StandAt self.new.slots batch.new.slots (xs ++ item ∷ [])) }
        ensures granted { conflicts_of ⟦<T as Ranked>⟧.ranks (bag self.old) item ≡ [] → length (bag self.old) < self.old.capacity
            → length batch.old.slots < batch.old.room → IsOk result }
        ensures reason { IfErr result (TellsTaken T.BiHashItem T.K1.eq T.K2.eq (bag self.old) item) }
        ensures slots { OnErr result (self.new.slots ≡ self.old.slots) }
        ensures same_notes { OnErr result (batch.new.slots ≡ batch.old.slots) }
        ensures grows_unless { GrowsUnless (length (bag self.old) < self.old.capacity) self.old self.new }
        ensures most { self.new.capacity ≤ most_grown self.old.capacity (length (bag self.old)) wanted }
    {
        let at = match self.places(&item, &mut Costs::new()) {
            Searched::Vacant(at) => at,
            Searched::Found((found1, found2)) => {
                let taken1 = found1.slot().is_some();
                let taken2 = found2.slot().is_some();
                return Err(Rejected {
                    item,
                    taken1,
                    taken2,
                });
            }
        };
        if self.make_room(wanted).is_err() || batch.reserve_for(wanted).is_err() {
            return Err(Rejected {
                item,
                taken1: false,
                taken2: false,
            });
        }
        let slot = self.insert_into(item, at, &mut Meter::new());
        batch.push(slot);
        Ok(())
    }

    /// Removes the inserted items again, in the order in which they were inserted. It hashes each key of them once, compares
    /// none, and allocates no memory.
    // The keys of an item are hashed before it is removed, so if the caller's code panics there, the map is whole.
    pub(crate) fn remove_batch(&mut self, batch: Batch<T>) -> Vec<T>
        requires live { All (IsLive self.old.slots) batch.slots }
        requires apart { IsDistinct nat_eq batch.slots }
        ensures values { result.items ≡ items_at self.old.slots batch.slots }
        ensures loses { Loses self.old result.items self.new }
    {
        let (slots, mut items) = batch.into_parts();
        for index in 0..slots.len() {
            items.push_reserved(self.remove_at(slots[index]));
        }
        items
    }
}
