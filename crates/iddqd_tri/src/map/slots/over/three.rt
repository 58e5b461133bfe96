//! Inserting an item in place of three others, each of which has one of its keys.
//!
//! Written by hand; tests/three_keys.patch says why.
ghost use Rattle.std.specs.Prelude.{◌≡◌, ◌≢◌, ◌+◌, ◌≤◌, [], ◌∷◌, length, None, Some, slice_set};
ghost use Rattle.iddqd_store.specs.Bag.{conflicts_of};
ghost use Rattle.iddqd_store.specs.Map.{bag, PutsAt};
ghost use Rattle.iddqd_store.specs.Rank.All.{AreHashed, HaveHashes, hashes_of};
ghost use Rattle.iddqd_store.specs.Rank.{merge_three_walks, walks_within};
ghost use Rattle.iddqd_store.specs.Slots.{get, contents, IsLive};

use crate::item::{Hashed, Ranked, TriHashItem};
use crate::map::TriHashMap;
use iddqd_store::{FoundByHash, ItemIndex, Meter};
use std::hash::{BuildHasher, Hash};

impl<T: TriHashItem, S: BuildHasher> TriHashMap<T, S> {
    /// Puts an item into the slot `slots.0` of one that conflicts with it, and returns that one and two others, which leave the
    /// other slots. At a rank at which the search found one of these, its pair gets the number `slots.0`.
    /// `merge_three_walks` says how often the call walks through each table.
    pub(crate) fn overwrite_three(
        &mut self,
        slots: (ItemIndex, ItemIndex, ItemIndex),
        item: T,
        found: &(FoundByHash, FoundByHash, FoundByHash),
        meter: &mut Meter,
    ) -> (T, T, T)
        requires live { IsLive self.old.slots slots.0 × IsLive self.old.slots slots.1 × IsLive self.old.slots slots.2 }
        requires apart { (slots.0 ≢ slots.1) × (slots.0 ≢ slots.2) × (slots.1 ≢ slots.2) }
        requires free { conflicts_of ⟦<T as Ranked>⟧.ranks (contents
            (slice_set (slice_set (slice_set self.old.slots slots.2 None) slots.1 None) slots.0 None)) item ≡ [] }
        requires hashes { HaveHashes
            (hashes_of (⟦<T as Hashed<S>>⟧.hashes self.old.builder) item) (found.now.0 ∷ found.now.1 ∷ found.now.2 ∷ []) }
        requires hashed { AreHashed
            (⟦<T as Hashed<S>>⟧.hashes self.old.builder) self.old.slots (found.now.0 ∷ found.now.1 ∷ found.now.2 ∷ []) }
        ensures values { (get self.old.slots slots.0 ≡ Some result.0) × (get self.old.slots slots.1 ≡ Some result.1)
            × (get self.old.slots slots.2 ≡ Some result.2) }
        ensures puts_at { PutsAt ⟦<T as Ranked>⟧.ranks self.old slots.0 item (item ∷ contents
            (slice_set (slice_set (slice_set self.old.slots slots.2 None) slots.1 None) slots.0 None)) self.new }
        ensures costs { meter.new ≤ meter.old + walks_within (length (bag self.old))
            (merge_three_walks (⟦<T as Hashed<S>>⟧.hash1 self.old.builder result.0) found.now.0 slots.1 slots.2
            ∷ merge_three_walks (⟦<T as Hashed<S>>⟧.hash2 self.old.builder result.0) found.now.1 slots.1 slots.2
            ∷ merge_three_walks (⟦<T as Hashed<S>>⟧.hash3 self.old.builder result.0) found.now.2 slots.1 slots.2 ∷ []) }
    {
        self.note_that_items_fit();
        let (slot, other_slot, last_slot) = slots;
        let (gone1, gone2, gone3) = self.hashes_found(slot, found);
        let (other1, other2, other3) = self.hashes_found(other_slot, found);
        let (last1, last2, last3) = self.hashes_found(last_slot, found);
        let Some(last) = self.items.remove(last_slot) else {
            unreachable!()
        };
        let Some(other) = self.items.remove(other_slot) else {
            unreachable!()
        };
        let gone = self.items.replace(slot, item);
        self.first.merge_three(
            (slot, gone1),
            (other_slot, other1),
            (last_slot, last1),
            &found.0,
            meter,
        );
        self.second.merge_three(
            (slot, gone2),
            (other_slot, other2),
            (last_slot, last2),
            &found.1,
            meter,
        );
        self.third.merge_three(
            (slot, gone3),
            (other_slot, other3),
            (last_slot, last3),
            &found.2,
            meter,
        );
        (gone, other, last)
    }
}
