//! Inserting an item in place of those that conflict with it.
ghost use Rattle.std.specs.Prelude.{◌≡◌, ◌<◌, ◌+◌, length, map, IsOk, IfOk, IfErr, OnOk, OnErr};
ghost use Rattle.iddqd_store.specs.Bag.{conflicting};
ghost use Rattle.iddqd_store.specs.Map.{bag, IsFullFor, Overwrites};
ghost use Rattle.iddqd_store.specs.Rank.All.{PlacingCosts, hashes_of};

use super::BiHashMap;
use super::slots::Refusal;
use crate::item::{Hashed, Ranked};
use iddqd_store::{Costs, MemoryRefused, UpToTwo};
use std::hash::{BuildHasher, Hash};

impl<T: Ranked, S: BuildHasher> BiHashMap<T, S> {
    /// Inserts an item, removes those that conflict with it, and returns these, in the order of the keys and each once.
    ///
    /// The call hashes each key of the item once, and searches for it once. It also hashes each key of a removed item
    /// by which it did not find that item. If items conflict, it allocates no memory and the capacity stays. Otherwise
    /// it grows only if the map is full, and then to no more than twice as many items as there are with this one, or 7,
    /// and it fails only if there is no memory for that. The error then has the item, and the map is as it was.
    #[inline(always)]
    pub fn insert_overwrite(&mut self, item: T) -> Result<UpToTwo<T>, MemoryRefused<T>>
        // The conflicting items are returned, in the order of the item's keys, and the item is in their place.
        ensures displaced { IfOk result (λ gone. gone ≡ conflicting T.ranks (bag self.old) item) }
        ensures overwrites { OnOk result (Overwrites T.ranks 1 self.old item self.new) }
        // With spare capacity the call never fails.
        ensures granted { length (bag self.old) < self.old.capacity → IsOk result }
        // The error has the item, and the map is as it was. This happens only in a full map, without a conflict.
        ensures handed_back { IfErr result (λ e. e.value ≡ item) }
        ensures unchanged { OnErr result (self.new ≡ self.old) }
        ensures reason { OnErr result (IsFullFor T.ranks self.old item) }
    {
        self.insert_overwrite_counted(item, 1, &mut Costs::new())
    }

    /// Inserts as `insert_overwrite` does, which calls it, and counts its costs, but for the cells that growing probes.
    /// Beside the searches, the number of its walks through each table is at most one more than the number of items that it
    /// displaces. If it has to grow, it asks for as many items as are `wanted`, or for one if there is no memory for so many.
    #[inline(always)]
    pub(super) fn insert_overwrite_counted(
        &mut self,
        item: T,
        wanted: usize,
        costs: &mut Costs,
    ) -> Result<UpToTwo<T>, MemoryRefused<T>>
        requires { 0 < wanted }
        // The conflicting items are returned, in the order of the item's keys, and the item is in their place.
        ensures displaced { IfOk result (λ gone. gone ≡ conflicting T.ranks (bag self.old) item) }
        ensures overwrites { OnOk result (Overwrites T.ranks wanted self.old item self.new) }
        // With spare capacity the call never fails.
        ensures granted { length (bag self.old) < self.old.capacity → IsOk result }
        // The error has the item, and the map is as it was. This happens only in a full map, without a conflict.
        ensures handed_back { IfErr result (λ e. e.value ≡ item) }
        ensures unchanged { OnErr result (self.new ≡ self.old) }
        ensures reason { OnErr result (IsFullFor T.ranks self.old item) }
        ensures costs { PlacingCosts (⟦<T as Hashed<S>>⟧.hashes self.old.builder) (bag self.old) self.old.capacity
            (hashes_of (⟦<T as Hashed<S>>⟧.hashes self.old.builder) item)
            (map (λ _. length (conflicting T.ranks (bag self.old) item) + 1) T.ranks)
            costs.old costs.new }
    {
        // What an insert needs, or an overwrite of one item, is inlined, so a caller's loop branches on the outcome where
        // it arises, and no item is copied from call to call. Growth is not inlined.
        match self.insert_or_refuse(item, wanted, costs) {
            Ok(()) => Ok(UpToTwo::new()),
            Err(Refusal::Duplicate(item, found)) => {
                let (displaced, _) = self.overwrite(item, &found, &mut costs.probed);
                Ok(displaced)
            }
            Err(Refusal::Memory(value)) => Err(MemoryRefused { value }),
        }
    }
}
