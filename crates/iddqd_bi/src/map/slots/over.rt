//! Inserting an item in place of others.
ghost use Rattle.std.specs.Prelude.{◌≡◌, ◌≢◌, ◌+◌, ◌≤◌, [], ◌∷◌, length, map, None, Some, IfOk, IfErr, IfSome, OnOk, OnErr, slice_set};
ghost use Rattle.iddqd_store.specs.Bag.{conflicts_of, conflicting, with_item};
ghost use Rattle.iddqd_store.specs.Map.{bag, ListsConflicts, PutsAt};
ghost use Rattle.iddqd_store.specs.Rank.All.{ArePlacesOf, AreHashed, HaveHashes, PlacingCosts, hashes_of};
ghost use Rattle.iddqd_store.specs.Rank.Index.{HasHash};
ghost use Rattle.iddqd_store.specs.Rank.{rehash_walks, walks_within, merge_two_walks};
ghost use Rattle.iddqd_store.specs.Slots.{get, contents, IsLive, Updates};
ghost use Rattle.iddqd_store.specs.Slots.Found.{each_once};

use super::super::BiHashMap;
use super::found::each_once;
use crate::item::{BiHashItem, Hashed, Ranked};
use crate::ranks::{First, Second};
use iddqd_store::{Costs, FoundByHash, ItemIndex, Meter, Searched, UpToTwo, Vacancy};
use std::hash::{BuildHasher, Hash};

impl<T: BiHashItem, S: BuildHasher> BiHashMap<T, S> {
    /// Inserts an item in place of those that conflict with it, whose slots the searches by its keys found, and returns
    /// these items, with the slot of the new one. There is at least one, whose slot the new item takes. The call does not
    /// hash a key by which a search found its item. The number of its walks through each table is at most one more than
    /// the number of items that it displaces.
    #[inline(always)]
    pub(crate) fn overwrite(
        &mut self,
        item: T,
        found: &(FoundByHash, FoundByHash),
        meter: &mut Meter,
    ) -> (UpToTwo<T>, ItemIndex)
        requires conflicts { ListsConflicts ⟦<T as Ranked>⟧.ranks self.old item
            (each_once (found.now.0.slot ∷ found.now.1.slot ∷ [])) }
        requires some { length (each_once (found.now.0.slot ∷ found.now.1.slot ∷ [])) ≢ 0 }
        requires hashes { HaveHashes
            (hashes_of (⟦<T as Hashed<S>>⟧.hashes self.old.builder) item) (found.now.0 ∷ found.now.1 ∷ []) }
        requires hashed { AreHashed
            (⟦<T as Hashed<S>>⟧.hashes self.old.builder) self.old.slots (found.now.0 ∷ found.now.1 ∷ []) }
        ensures displaced { result.0 ≡ conflicting ⟦<T as Ranked>⟧.ranks (bag self.old) item }
        ensures puts_at { PutsAt ⟦<T as Ranked>⟧.ranks self.old result.1 item
            (with_item ⟦<T as Ranked>⟧.ranks (bag self.old) item) self.new }
        ensures costs { meter.new ≤ meter.old + walks_within (length (bag self.old))
            (map (λ _. length result.0 + 1) ⟦<T as Ranked>⟧.ranks) }
    {
        let mut slots = each_once(found.0.slot(), found.1.slot());
        let Some(slot) = slots.pop_front() else {
            unreachable!()
        };
        let Some(other_slot) = slots.pop_front() else {
            let mut displaced = UpToTwo::new();
            displaced.push(self.overwrite_one(slot, item, found, meter));
            return (displaced, slot);
        };
        let mut displaced = UpToTwo::new();
        let (gone, other) = self.overwrite_two(slot, other_slot, item, found, meter);
        displaced.push(gone);
        displaced.push(other);
        (displaced, slot)
    }

    /// Puts an item into the slot of another, whatever their keys are, and returns the latter. If an item in a third slot
    /// conflicts with the new one, the new one is returned, and nothing changes. The call hashes each key of the new item
    /// once, and searches for it once. Beside these searches it walks through each table at most twice.
    pub(crate) fn rekey_at(&mut self, slot: ItemIndex, item: T, costs: &mut Costs) -> Result<T, T>
        requires { IsLive self.old.slots slot }
        ensures value { IfOk result (λ x. get self.old.slots slot ≡ Some x) }
        ensures updates { OnOk result (Updates self.old.slots self.new.slots slot (Some item)) }
        ensures puts_at { OnOk result (PutsAt ⟦<T as Ranked>⟧.ranks self.old slot item
            (item ∷ contents (slice_set self.old.slots slot None)) self.new) }
        ensures handed_back { IfErr result (λ x. x ≡ item) }
        ensures reason { OnErr result
            (conflicts_of ⟦<T as Ranked>⟧.ranks (contents (slice_set self.old.slots slot None)) item ≢ []) }
        ensures unchanged { OnErr result (self.new ≡ self.old) }
        ensures costs { PlacingCosts (⟦<T as Hashed<S>>⟧.hashes self.old.builder) (bag self.old) self.old.capacity
            (hashes_of (⟦<T as Hashed<S>>⟧.hashes self.old.builder) item) (map (λ _. 2) ⟦<T as Ranked>⟧.ranks)
            costs.old costs.new }
    {
        let found = match self.places(&item, costs) {
            Searched::Vacant(at) => return Ok(self.rekey_into(slot, item, at, &mut costs.probed)),
            Searched::Found(found) => found,
        };
        let mut slots = each_once(found.0.slot(), found.1.slot());
        let Some(other) = slots.pop_front() else {
            unreachable!()
        };
        if other != slot {
            return Err(item);
        }
        match slots.pop_front() {
            Some(_) => Err(item),
            None => Ok(self.overwrite_one(slot, item, &found, &mut costs.probed)),
        }
    }

    /// Puts an item with which nothing conflicts into the slot of another, and returns the latter. If both have the same
    /// hash at a rank, the pair in its table stays, and no cell of it is probed. Otherwise the new pair goes to the place that
    /// was found for it, and the call walks through the table once, or twice if no further pair fits into it.
    fn rekey_into(
        &mut self,
        slot: ItemIndex,
        item: T,
        at: (Vacancy, Vacancy),
        meter: &mut Meter,
    ) -> T
        requires live { IsLive self.old.slots slot }
        requires free { conflicts_of ⟦<T as Ranked>⟧.ranks (contents (slice_set self.old.slots slot None)) item ≡ [] }
        requires spots { ArePlacesOf
            (⟦<T as Hashed<S>>⟧.hashes self.old.builder) (bag self.old) item (at.0 ∷ at.1 ∷ []) }
        ensures value { get self.old.slots slot ≡ Some result }
        ensures updates { Updates self.old.slots self.new.slots slot (Some item) }
        ensures puts_at { PutsAt ⟦<T as Ranked>⟧.ranks self.old slot item
            (item ∷ contents (slice_set self.old.slots slot None)) self.new }
        ensures costs { meter.new ≤ meter.old + walks_within (length (bag self.old))
            (rehash_walks (⟦<T as Hashed<S>>⟧.hash1 self.old.builder result) at.0.hash
            ∷ rehash_walks (⟦<T as Hashed<S>>⟧.hash2 self.old.builder result) at.1.hash ∷ []) }
    {
        self.note_that_items_fit();
        let (at1, at2) = at;
        let (before1, before2) = self.hashes_in(slot, None, None);
        let gone = self.items.replace(slot, item);
        self.first.rehash_into(before1, at1, slot, meter);
        self.second.rehash_into(before2, at2, slot, meter);
        gone
    }

    /// Puts an item into the slot of another, and returns the latter. If both have the same hash at a rank, the pair in its
    /// table stays, and no cell of it is probed. Otherwise the call walks through the table twice.
    pub(crate) fn overwrite_one(
        &mut self,
        slot: ItemIndex,
        item: T,
        found: &(FoundByHash, FoundByHash),
        meter: &mut Meter,
    ) -> T
        requires live { IsLive self.old.slots slot }
        requires free { conflicts_of ⟦<T as Ranked>⟧.ranks (contents (slice_set self.old.slots slot None)) item ≡ [] }
        requires hashes { HaveHashes
            (hashes_of (⟦<T as Hashed<S>>⟧.hashes self.old.builder) item) (found.now.0 ∷ found.now.1 ∷ []) }
        requires hashed { AreHashed
            (⟦<T as Hashed<S>>⟧.hashes self.old.builder) self.old.slots (found.now.0 ∷ found.now.1 ∷ []) }
        ensures value { get self.old.slots slot ≡ Some result }
        ensures updates { Updates self.old.slots self.new.slots slot (Some item) }
        ensures puts_at { PutsAt ⟦<T as Ranked>⟧.ranks self.old slot item
            (item ∷ contents (slice_set self.old.slots slot None)) self.new }
        ensures costs { meter.new ≤ meter.old + walks_within (length (bag self.old))
            (rehash_walks (⟦<T as Hashed<S>>⟧.hash1 self.old.builder result) found.now.0.hash
            ∷ rehash_walks (⟦<T as Hashed<S>>⟧.hash2 self.old.builder result) found.now.1.hash ∷ []) }
    {
        self.note_that_items_fit();
        let (before1, before2) = self.hashes_found(slot, found);
        let gone = self.items.replace(slot, item);
        self.first.rehash(before1, found.0.hash(), slot, meter);
        self.second.rehash(before2, found.1.hash(), slot, meter);
        gone
    }

    /// Returns the hash of each key of the item in this slot. It hashes a key only if its hash is not given.
    #[inline(always)]
    pub(crate) fn hashes_in(
        &self,
        slot: ItemIndex,
        hash1: Option<u64>,
        hash2: Option<u64>,
    ) -> (u64, u64)
        requires live { IsLive self.now.slots slot }
        requires hash1 { IfSome hash1 (HasHash (⟦<T as Hashed<S>>⟧.hash1 self.now.builder) self.now.slots slot) }
        requires hash2 { IfSome hash2 (HasHash (⟦<T as Hashed<S>>⟧.hash2 self.now.builder) self.now.slots slot) }
        ensures hash1 { HasHash (⟦<T as Hashed<S>>⟧.hash1 self.now.builder) self.now.slots slot result.0 }
        ensures hash2 { HasHash (⟦<T as Hashed<S>>⟧.hash2 self.now.builder) self.now.slots slot result.1 }
    {
        let hash1 = self
            .items
            .hash_in::<First, S>(slot, hash1, &self.hash_builder);
        let hash2 = self
            .items
            .hash_in::<Second, S>(slot, hash2, &self.hash_builder);
        (hash1, hash2)
    }

    /// Returns the hash of each key of the item in this slot. It does not hash a key by which a search found the slot.
    #[inline(always)]
    fn hashes_found(&self, slot: ItemIndex, found: &(FoundByHash, FoundByHash)) -> (u64, u64)
        requires live { IsLive self.now.slots slot }
        requires hashed { AreHashed
            (⟦<T as Hashed<S>>⟧.hashes self.now.builder) self.now.slots (found.now.0 ∷ found.now.1 ∷ []) }
        ensures hash1 { HasHash (⟦<T as Hashed<S>>⟧.hash1 self.now.builder) self.now.slots slot result.0 }
        ensures hash2 { HasHash (⟦<T as Hashed<S>>⟧.hash2 self.now.builder) self.now.slots slot result.1 }
    {
        self.hashes_in(slot, found.0.hash_at(slot), found.1.hash_at(slot))
    }

    /// Puts an item into the slot `slot` of one that conflicts with it, and returns that one and another, which leaves
    /// the slot `other_slot`. At a rank at which the search found the other item, its pair gets the number `slot`.
    /// `merge_two_walks` says how often the call walks through each table.
    #[inline(never)]
    fn overwrite_two(
        &mut self,
        slot: ItemIndex,
        other_slot: ItemIndex,
        item: T,
        found: &(FoundByHash, FoundByHash),
        meter: &mut Meter,
    ) -> (T, T)
        requires live { IsLive self.old.slots slot × IsLive self.old.slots other_slot }
        requires apart { slot ≢ other_slot }
        requires free { conflicts_of ⟦<T as Ranked>⟧.ranks
            (contents (slice_set (slice_set self.old.slots other_slot None) slot None)) item ≡ [] }
        requires hashes { HaveHashes
            (hashes_of (⟦<T as Hashed<S>>⟧.hashes self.old.builder) item) (found.now.0 ∷ found.now.1 ∷ []) }
        requires hashed { AreHashed
            (⟦<T as Hashed<S>>⟧.hashes self.old.builder) self.old.slots (found.now.0 ∷ found.now.1 ∷ []) }
        ensures values { (get self.old.slots slot ≡ Some result.0) × (get self.old.slots other_slot ≡ Some result.1) }
        ensures puts_at { PutsAt ⟦<T as Ranked>⟧.ranks self.old slot item
            (item ∷ contents (slice_set (slice_set self.old.slots other_slot None) slot None)) self.new }
        ensures costs { meter.new ≤ meter.old + walks_within (length (bag self.old))
            (merge_two_walks (⟦<T as Hashed<S>>⟧.hash1 self.old.builder result.0) found.now.0 other_slot
            ∷ merge_two_walks (⟦<T as Hashed<S>>⟧.hash2 self.old.builder result.0) found.now.1 other_slot ∷ []) }
    {
        self.note_that_items_fit();
        let (gone1, gone2) = self.hashes_found(slot, found);
        let (other1, other2) = self.hashes_found(other_slot, found);
        let Some(other) = self.items.remove(other_slot) else {
            unreachable!()
        };
        let gone = self.items.replace(slot, item);
        self.first
            .merge_two((slot, gone1), (other_slot, other1), &found.0, meter);
        self.second
            .merge_two((slot, gone2), (other_slot, other2), &found.1, meter);
        (gone, other)
    }
}
