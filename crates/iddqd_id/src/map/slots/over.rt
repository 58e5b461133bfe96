//! Inserting an item in place of others.
//!
//! Made by tests/widths from crates/iddqd_bi/src/map/slots/over.rt: change that file.
ghost use Rattle.std.specs.Prelude.{◌≡◌, ◌≢◌, ◌+◌, ◌≤◌, [], ◌∷◌, length, map, None, Some, IfOk, IfErr, IfSome, OnOk, OnErr, slice_set};
ghost use Rattle.iddqd_store.specs.Bag.{conflicts_of, conflicting, with_item};
ghost use Rattle.iddqd_store.specs.Map.{bag, ListsConflicts, PutsAt};
ghost use Rattle.iddqd_store.specs.Rank.All.{ArePlacesOf, AreHashed, HaveHashes, PlacingCosts, hashes_of};
ghost use Rattle.iddqd_store.specs.Rank.Index.{HasHash};
ghost use Rattle.iddqd_store.specs.Rank.{rehash_walks, walks_within};
ghost use Rattle.iddqd_store.specs.Slots.{get, contents, IsLive, Updates};
ghost use Rattle.iddqd_store.specs.Slots.Found.{each_once};

use super::super::IdHashMap;
use crate::item::{Hashed, IdHashItem, Ranked};
use crate::ranks::First;
use iddqd_store::{Costs, FoundByHash, ItemIndex, Meter, Searched, Vacancy};
use std::hash::{BuildHasher, Hash};

impl<T: IdHashItem, S: BuildHasher> IdHashMap<T, S> {
    /// Inserts an item in place of the one that conflicts with it, whose slot the search by its key found, and returns that
    /// one, with its slot, which the new item takes. The call hashes no key.
    #[inline(always)]
    pub(crate) fn overwrite(
        &mut self,
        item: T,
        found: &FoundByHash,
        meter: &mut Meter,
    ) -> (T, ItemIndex)
        requires conflicts { ListsConflicts ⟦<T as Ranked>⟧.ranks self.old item
            (each_once (found.now.slot ∷ [])) }
        requires some { length (each_once (found.now.slot ∷ [])) ≢ 0 }
        requires hashes { HaveHashes
            (hashes_of (⟦<T as Hashed<S>>⟧.hashes self.old.builder) item) (found.now ∷ []) }
        requires hashed { AreHashed
            (⟦<T as Hashed<S>>⟧.hashes self.old.builder) self.old.slots (found.now ∷ []) }
        ensures displaced { result.0 ∷ [] ≡ conflicting ⟦<T as Ranked>⟧.ranks (bag self.old) item }
        ensures puts_at { PutsAt ⟦<T as Ranked>⟧.ranks self.old result.1 item
            (with_item ⟦<T as Ranked>⟧.ranks (bag self.old) item) self.new }
        ensures costs { meter.new ≤ meter.old + walks_within (length (bag self.old))
            (map (λ _. 2) ⟦<T as Ranked>⟧.ranks) }
    {
        let Some(slot) = found.slot() else {
            unreachable!()
        };
        (self.overwrite_one(slot, item, found, meter), slot)
    }

    /// Puts an item into the slot of another, whatever their keys are, and returns the latter. If an item in a third
    /// slot conflicts with the new one, the new one is returned, and nothing changes. The call hashes the key of the
    /// new item once, and searches for it once. Beside these searches it walks through the table at most twice.
    pub(crate) fn rekey_at(&mut self, slot: ItemIndex, item: T, costs: &mut Costs) -> Result<T, T>
        requires { IsLive self.old.slots slot }
        ensures value { IfOk result (λ x. get self.old.slots slot ≡ Some x) }
        ensures updates { OnOk result (Updates self.old.slots self.new.slots slot (Some item)) }
        ensures puts_at { OnOk result (PutsAt ⟦<T as Ranked>⟧.ranks self.old slot item
            (item ∷ contents (slice_set self.old.slots slot None)) self.new) }
        ensures handed_back { IfErr result (λ x. x ≡ item) }
        ensures reason { OnErr result
            (conflicts_of ⟦<T as Ranked>⟧.ranks (contents (slice_set self.old.slots slot None)) item ≢ []) }
        ensures unchanged { OnErr result (self.new ≡ self.old) }
        ensures costs { PlacingCosts (⟦<T as Hashed<S>>⟧.hashes self.old.builder) (bag self.old) self.old.capacity
            (hashes_of (⟦<T as Hashed<S>>⟧.hashes self.old.builder) item) (map (λ _. 2) ⟦<T as Ranked>⟧.ranks)
            costs.old costs.new }
    {
        let found = match self.places(&item, costs) {
            Searched::Vacant(at) => return Ok(self.rekey_into(slot, item, at, &mut costs.probed)),
            Searched::Found(found) => found,
        };
        let Some(other) = found.slot() else {
            unreachable!()
        };
        if other != slot {
            return Err(item);
        }
        Ok(self.overwrite_one(slot, item, &found, &mut costs.probed))
    }

    /// Puts an item with which nothing conflicts into the slot of another, and returns the latter. If both have the
    /// same hash at a rank, the pair in its table stays, and no cell of it is probed. Otherwise the new pair goes to
    /// the place that was found for it, and the call walks through the table once, or twice if no further pair fits
    /// into it.
    fn rekey_into(&mut self, slot: ItemIndex, item: T, at: Vacancy, meter: &mut Meter) -> T
        requires live { IsLive self.old.slots slot }
        requires free { conflicts_of ⟦<T as Ranked>⟧.ranks (contents (slice_set self.old.slots slot None)) item ≡ [] }
        requires spots { ArePlacesOf
            (⟦<T as Hashed<S>>⟧.hashes self.old.builder) (bag self.old) item (at ∷ []) }
        ensures value { get self.old.slots slot ≡ Some result }
        ensures updates { Updates self.old.slots self.new.slots slot (Some item) }
        ensures puts_at { PutsAt ⟦<T as Ranked>⟧.ranks self.old slot item
            (item ∷ contents (slice_set self.old.slots slot None)) self.new }
        ensures costs { meter.new ≤ meter.old + walks_within (length (bag self.old))
            (rehash_walks (⟦<T as Hashed<S>>⟧.hash self.old.builder result) at.hash ∷ []) }
    {
        self.note_that_items_fit();
        let before = self.hashes_in(slot, None);
        let gone = self.items.replace(slot, item);
        self.first.rehash_into(before, at, slot, meter);
        gone
    }

    /// Puts an item into the slot of another, and returns the latter. If both have the same hash at a rank, the pair in
    /// its table stays, and no cell of it is probed. Otherwise the call walks through the table twice.
    pub(crate) fn overwrite_one(
        &mut self,
        slot: ItemIndex,
        item: T,
        found: &FoundByHash,
        meter: &mut Meter,
    ) -> T
        requires live { IsLive self.old.slots slot }
        requires free { conflicts_of ⟦<T as Ranked>⟧.ranks (contents (slice_set self.old.slots slot None)) item ≡ [] }
        requires hashes { HaveHashes
            (hashes_of (⟦<T as Hashed<S>>⟧.hashes self.old.builder) item) (found.now ∷ []) }
        requires hashed { AreHashed
            (⟦<T as Hashed<S>>⟧.hashes self.old.builder) self.old.slots (found.now ∷ []) }
        ensures value { get self.old.slots slot ≡ Some result }
        ensures updates { Updates self.old.slots self.new.slots slot (Some item) }
        ensures puts_at { PutsAt ⟦<T as Ranked>⟧.ranks self.old slot item
            (item ∷ contents (slice_set self.old.slots slot None)) self.new }
        ensures costs { meter.new ≤ meter.old + walks_within (length (bag self.old))
            (rehash_walks (⟦<T as Hashed<S>>⟧.hash self.old.builder result) found.now.hash ∷ []) }
    {
        self.note_that_items_fit();
        let before = self.hashes_found(slot, found);
        let gone = self.items.replace(slot, item);
        self.first.rehash(before, found.hash(), slot, meter);
        gone
    }

    /// Returns the hash of the key of the item in this slot. It hashes a key only if its hash is not given.
    #[inline(always)]
    pub(crate) fn hashes_in(&self, slot: ItemIndex, hash: Option<u64>) -> u64
        requires live { IsLive self.now.slots slot }
        requires hash { IfSome hash (HasHash (⟦<T as Hashed<S>>⟧.hash self.now.builder) self.now.slots slot) }
        ensures hash { HasHash (⟦<T as Hashed<S>>⟧.hash self.now.builder) self.now.slots slot result }
    {
        let hash = self
            .items
            .hash_in::<First, S>(slot, hash, &self.hash_builder);
        hash
    }

    /// Returns the hash of the key of the item in this slot. It does not hash a key by which a search found the slot.
    #[inline(always)]
    fn hashes_found(&self, slot: ItemIndex, found: &FoundByHash) -> u64
        requires live { IsLive self.now.slots slot }
        requires hashed { AreHashed
            (⟦<T as Hashed<S>>⟧.hashes self.now.builder) self.now.slots (found.now ∷ []) }
        ensures hash { HasHash (⟦<T as Hashed<S>>⟧.hash self.now.builder) self.now.slots slot result }
    {
        self.hashes_in(slot, found.hash_at(slot))
    }
}
