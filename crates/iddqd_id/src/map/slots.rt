//! Single items and their slots: where an item is to be inserted, inserting it and removing it. The files below have
//! the capacity (`room`), the slots that a search found (`found`), iterating (`walk`), reading and writing (`write`),
//! inserting in place of other items (`over`), and inserting a list that may have to be removed again (`batch`). Calls
//! on all slots at once and removals by one key use the slots and the table themselves.
//!
//! Made by tests/widths from crates/iddqd_bi/src/map/slots.rt: change that file.
ghost use Rattle.std.specs.Prelude.{◌≡◌, ◌<◌, ◌≤◌, ◌+◌, [], ◌∷◌, length, map, OnOk, OnErr, IfOk, IfErr, Some, None, IfSome, slice_set, is_some, is_ok, true, false, if◌then◌else◌};
ghost use Rattle.std.specs.List.{IsDistinct, list_any};
ghost use Rattle.iddqd_store.specs.Bag.{IsSound, conflicts_of, first_mismatch, listing};
ghost use Rattle.iddqd_store.specs.Rank.Index.{HasHash};
ghost use Rattle.iddqd_store.specs.Map.{bag, hash_of, Gains, Loses, PutsAt, IsFullFor, ConflictsAt};
ghost use Rattle.iddqd_store.specs.Rank.All.{ArePlacesOf, AreSearched, AreHashed, AreVacantFor, HaveHashes, HaveRoom, FindsConflicts, PlacingCosts, hashes_of, slots_found};
ghost use Rattle.iddqd_store.specs.Rank.{agree, walks_within};
ghost use Rattle.iddqd_store.specs.Searched.{IfFound, IfVacant, OnFound, OnVacant};
ghost use Rattle.iddqd_store.specs.Slots.Found.{AreFound, each_once};
ghost use Rattle.iddqd_store.specs.Slots.{get, IsLive, Updates};
ghost use Rattle.iddqd_id.specs.Keys.{by_rank, key_tests};
ghost use Rattle.iddqd_id.specs.Mismatch.{HandsBack};

mod batch;
pub(crate) mod found;
mod over;
mod room;
mod walk;
mod write;

use super::IdHashMap;
use crate::error::EntryError;
use crate::item::{Hashed, IdHashItem, Ranked};
use crate::ranks::First;
use iddqd_store::{Costs, FoundByHash, ItemIndex, Lookup, Meter, Query, Searched, Vacancy};
use std::hash::{BuildHasher, Hash};

/// An item that was not inserted, and why. It does not borrow the map.
#[derive(Drop)]
pub(crate) enum Refusal<T> {
    /// Items conflict with it. This is what the search by its key found.
    Duplicate(T, FoundByHash),
    /// There was no memory for it.
    Memory(T),
}

impl<T: IdHashItem, S: BuildHasher> IdHashMap<T, S> {
    ghost use Rattle.iddqd_id.specs.InsertErrors.{MatchRefusal, refusal_item};

    /// Returns what a search by the key reads.
    pub(crate) fn by_key(&self) -> Lookup<'_, T, First, S>
        ensures apart { IsDistinct (agree T.key T.Key.eq) (bag self.now) }
        ensures slots { result.slots ≡ self.now.slots }
        ensures builder { result.builder ≡ self.now.builder }
        ensures room { self.now.capacity ≤ result.capacity }
    {
        Lookup::new(&self.items, &self.first, &self.hash_builder)
    }

    /// Returns the hash of an item's key.
    #[inline(always)]
    pub(crate) fn hash_of_key(&self, item: &T) -> u64
        ensures { result ≡ ⟦<T as Hashed<S>>⟧.hash self.now.builder item.now }
    {
        self.hash_builder.hash_one(item.key())
    }

    /// Searches at each rank for its key. `Found` has the slot that each search found, if it found one, with the hash.
    /// If no item has one of the keys, `Vacant` has the empty cells at which the searches ended. The call hashes each
    /// key once, and searches for it once.
    #[inline(always)]
    pub(crate) fn search_all<Q: Query<T::Key>>(
        &self,
        query: Q,
        costs: &mut Costs,
    ) -> Searched<FoundByHash, Vacancy>
        // The slots that were found, and whether there are any.
        ensures found { AreFound (key_tests T.IdHashItem Q.stands_for query) self.now.slots
            (slots_found (by_rank result)) }
        ensures none_found { OnVacant result (list_any is_some (slots_found (by_rank result)) ≡ false) }
        ensures some { OnFound result (list_any is_some (slots_found (by_rank result)) ≡ true) }
        ensures apart { IsDistinct (agree T.key T.Key.eq) (bag self.now) }
        // The empty cells, or the hashes by which the slots were found.
        ensures vacant { IfVacant (by_rank result) (AreVacantFor (⟦<T as Hashed<S>>⟧.hashes self.now.builder)
            (bag self.now)
            (map (hash_of S.BuildHasher S.Hasher.Hasher self.now.builder)
            (Q.hash_input query ∷ []))) }
        ensures cells { IfVacant (by_rank result) (HaveRoom self.now.capacity) }
        ensures hashes { IfFound (by_rank result) (HaveHashes
            (map (hash_of S.BuildHasher S.Hasher.Hasher self.now.builder)
            (Q.hash_input query ∷ []))) }
        ensures hashed { IfFound (by_rank result) (AreHashed
            (⟦<T as Hashed<S>>⟧.hashes self.now.builder) self.now.slots) }
        ensures costs { AreSearched (⟦<T as Hashed<S>>⟧.hashes self.now.builder) (bag self.now) self.now.capacity
            (map (hash_of S.BuildHasher S.Hasher.Hasher self.now.builder)
            (Q.hash_input query ∷ [])) (slots_found (by_rank result))
            costs.old costs.new }
    {
        let hash = self.hash_builder.hash_one(query);
        match self.by_key().search(hash, query, costs) {
            Searched::Found(slot) => Searched::Found(FoundByHash::new(Some(slot), hash)),
            Searched::Vacant(at) => Searched::Vacant(at),
        }
    }

    /// Returns what the search at each rank found, if items conflict with an item, and else where it is to be inserted
    /// at each rank. The call hashes each key once, and searches for it once.
    #[inline(always)]
    pub(crate) fn places(&self, item: &T, costs: &mut Costs) -> Searched<FoundByHash, Vacancy>
        ensures free { OnVacant result (conflicts_of ⟦<T as Ranked>⟧.ranks (bag self.now) item.now ≡ []) }
        ensures spots { IfVacant (by_rank result) (ArePlacesOf
            (⟦<T as Hashed<S>>⟧.hashes self.now.builder) (bag self.now) item.now) }
        ensures conflict { OnFound result (ConflictsAt ⟦<T as Ranked>⟧.ranks self.now item.now
            (each_once (slots_found (by_rank result)))) }
        ensures hashes { IfFound (by_rank result) (HaveHashes
            (hashes_of (⟦<T as Hashed<S>>⟧.hashes self.now.builder) item.now)) }
        ensures hashed { IfFound (by_rank result) (AreHashed
            (⟦<T as Hashed<S>>⟧.hashes self.now.builder) self.now.slots) }
        ensures found { AreFound (⟦<T as Ranked>⟧.key_tests (T.key item.now))
            self.now.slots (slots_found (by_rank result)) }
        ensures costs { AreSearched (⟦<T as Hashed<S>>⟧.hashes self.now.builder) (bag self.now) self.now.capacity
            (hashes_of (⟦<T as Hashed<S>>⟧.hashes self.now.builder) item.now) (slots_found (by_rank result))
            costs.old costs.new }
    {
        self.search_all(item.key(), costs)
    }

    /// Inserts an item with which nothing conflicts, at the place found for it at each rank. Only a table that grew is
    /// probed.
    #[inline(always)]
    pub(crate) fn insert_into(&mut self, item: T, at: Vacancy, meter: &mut Meter) -> ItemIndex
        requires room { length (bag self.old) < self.old.capacity }
        requires free { conflicts_of ⟦<T as Ranked>⟧.ranks (bag self.old) item ≡ [] }
        requires spots { ArePlacesOf
            (⟦<T as Hashed<S>>⟧.hashes self.old.builder) (bag self.old) item (at ∷ []) }
        ensures was_free { get self.old.slots result ≡ None }
        ensures updates { Updates self.old.slots self.new.slots result (Some item) }
        ensures puts_at { PutsAt ⟦<T as Ranked>⟧.ranks self.old result item (item ∷ bag self.old) self.new }
        ensures costs { meter.new ≤ meter.old + walks_within (length (bag self.old)) (map
            (λ _. 1) ⟦<T as Ranked>⟧.ranks) }
    {
        let slot = self.items.insert_reserved(item);
        self.first.insert_into(at, slot, meter);
        slot
    }

    /// Inserts an item that has these keys, which no item of the map has, and returns its slot. The error says
    /// whether the item has another key, or whether there was no memory. The call compares the item's key with the given
    /// one. It searches for no key, and hashes none.
    #[inline(always)]
    pub(crate) fn insert_free<Q: Query<T::Key>>(
        &mut self,
        item: T,
        query: Q,
        at: Vacancy,
    ) -> Result<ItemIndex, EntryError<T>>
        requires none_found { listing (key_tests T.IdHashItem Q.stands_for query) (bag self.old) ≡ [] }
        requires vacant { AreVacantFor (⟦<T as Hashed<S>>⟧.hashes self.old.builder) (bag self.old)
            (map (hash_of S.BuildHasher S.Hasher.Hasher self.old.builder)
            (Q.hash_input query ∷ []))
            (at ∷ []) }
        ensures gains { OnOk result (Gains 1 self.old item self.new) }
        ensures value { IfOk result (λ slot. get self.new.slots slot ≡ Some item) }
        ensures sound { OnOk result (IsSound ⟦<T as Ranked>⟧.ranks (bag self.new)) }
        ensures same_keys { OnOk result
            (first_mismatch (key_tests T.IdHashItem Q.stands_for query) item ≡ None) }
        ensures hands_back { IfErr result (HandsBack ⟦<T as Ranked>⟧.ranks
            (key_tests T.IdHashItem Q.stands_for query) self.old item) }
        ensures unchanged { OnErr result (self.new ≡ self.old) }
    {
        if !query.stands_for(item.key()) {
            return Err(EntryError::Key(item));
        }
        if let Err(_) = self.make_room(1) {
            return Err(EntryError::Memory(item));
        }
        Ok(self.insert_into(item, at, &mut Meter::new()))
    }

    /// Removes the item of a slot, by one walk through the table. It hashes a key of it only if its hash is not given.
    #[inline(always)]
    pub(crate) fn remove_slot(&mut self, slot: ItemIndex, hash: Option<u64>, meter: &mut Meter) -> T
        requires live { IsLive self.old.slots slot }
        requires hash { IfSome hash (HasHash (⟦<T as Hashed<S>>⟧.hash self.old.builder) self.old.slots slot) }
        ensures value { get self.old.slots slot ≡ Some result }
        ensures slots { self.new.slots ≡ slice_set self.old.slots slot None }
        ensures loses { Loses self.old (result ∷ []) self.new }
        ensures updates { Updates self.old.slots self.new.slots slot None }
        ensures costs { meter.new ≤ meter.old + walks_within (length (bag self.old)) (map
            (λ _. 1) ⟦<T as Ranked>⟧.ranks) }
    {
        let hash = self.hashes_in(slot, hash);
        match self.items.remove(slot) {
            Some(item) => {
                self.first.remove(hash, slot, meter);
                item
            }
            None => unreachable!(),
        }
    }

    /// Removes the item of a slot, by one walk through the table. It hashes its key once.
    #[inline(always)]
    pub(crate) fn remove_at(&mut self, slot: ItemIndex) -> T
        requires { IsLive self.old.slots slot }
        ensures value { get self.old.slots slot ≡ Some result }
        ensures slots { self.new.slots ≡ slice_set self.old.slots slot None }
        ensures loses { Loses self.old (result ∷ []) self.new }
        ensures updates { Updates self.old.slots self.new.slots slot None }
    {
        self.remove_slot(slot, None, &mut Meter::new())
    }

    /// Inserts an item if none conflicts with it. The error has what the search by its key found; or, if the map is
    /// full and cannot grow, it is `Memory`. A full map grows for as many items as are `wanted`, or for one if there is
    /// no memory for so many. The cells that growing probes are not counted. What it calls is inlined, except for
    /// growing, so a caller's loop branches where the outcome arises.
    #[inline(always)]
    pub(crate) fn insert_or_refuse(
        &mut self,
        item: T,
        wanted: usize,
        costs: &mut Costs,
    ) -> Result<(), Refusal<T>>
        requires { 0 < wanted }
        ensures gains { OnOk result (Gains wanted self.old item self.new) }
        ensures free { OnOk result (conflicts_of ⟦<T as Ranked>⟧.ranks (bag self.old) item ≡ []) }
        ensures handed_back { IfErr result (λ e. refusal_item e ≡ item) }
        ensures unchanged { OnErr result (self.new ≡ self.old) }
        ensures reason { IfErr result (λ e. MatchRefusal e
            (FindsConflicts ⟦<T as Ranked>⟧.ranks (⟦<T as Hashed<S>>⟧.hashes self.old.builder) self.old item)
            (IsFullFor ⟦<T as Ranked>⟧.ranks self.old item)) }
        ensures costs { PlacingCosts (⟦<T as Hashed<S>>⟧.hashes self.old.builder) (bag self.old) self.old.capacity
            (hashes_of (⟦<T as Hashed<S>>⟧.hashes self.old.builder) item)
            (map (λ _. if is_ok result then 1 else 0) ⟦<T as Ranked>⟧.ranks)
            costs.old costs.new }
    {
        let at = match self.places(&item, costs) {
            Searched::Vacant(at) => at,
            Searched::Found(found) => return Err(Refusal::Duplicate(item, found)),
        };
        if let Err(_) = self.make_room(wanted) {
            return Err(Refusal::Memory(item));
        }
        self.insert_into(item, at, &mut costs.probed);
        Ok(())
    }
}
