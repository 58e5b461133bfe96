//! Single items and their slots: where an item is to be inserted, inserting it and removing it. The files below have
//! the capacity (`room`), the slots that searches by all keys found (`found`), iterating (`walk`), reading and writing
//! (`write`), inserting in place of other items (`over`), and inserting a list that may have to be removed again
//! (`batch`). Calls on all slots at once and removals by one key use the slots and tables themselves.
//!
//! Made by tests/widths from crates/iddqd_bi/src/map/slots.rt: change that file.
ghost use Rattle.std.specs.Prelude.{◌≡◌, ℕ, ◌<◌, ◌≤◌, ◌+◌, [], ◌∷◌, length, map, All, OnOk, OnErr, IfOk, IfErr, Some, None, IfSome, nat_eq, slice_set, is_some, is_ok, true, false, if◌then◌else◌};
ghost use Rattle.std.specs.List.{IsDistinct, list_any};
ghost use Rattle.iddqd_store.specs.Bag.{IsSound, conflicts_of, first_mismatch, listing};
ghost use Rattle.iddqd_store.specs.Rank.Index.{HasHash};
ghost use Rattle.iddqd_store.specs.Map.{bag, hash_of, Gains, Loses, PutsAt, IsFullFor, ConflictsAt};
ghost use Rattle.iddqd_store.specs.Rank.All.{ArePlacesOf, AreSearched, AreHashed, AreVacantFor, HaveHashes, HaveRoom, FindsConflicts, PlacingCosts, hashes_of, slots_found};
ghost use Rattle.iddqd_store.specs.Rank.{agree, walks_within};
ghost use Rattle.iddqd_store.specs.Searched.{IfFound, IfVacant, OnFound, OnVacant};
ghost use Rattle.iddqd_store.specs.Slots.Found.{AreFound, each_once, items_at};
ghost use Rattle.iddqd_store.specs.Slots.{get, IsLive, Updates};
ghost use Rattle.iddqd_tri.specs.Keys.{by_rank, key_tests};
ghost use Rattle.iddqd_tri.specs.Mismatch.{HandsBack};

mod batch;
pub(crate) mod found;
mod over;
mod room;
mod walk;
mod write;

use self::found::differ;
use super::TriHashMap;
use crate::error::EntryError;
use crate::item::{Hashed, Ranked, TriHashItem};
use crate::ranks::{First, Second, Third};
use iddqd_store::{
    Costs, FoundByHash, ItemIndex, Lookup, Meter, Query, Searched, UpToThree, Vacancy,
};
use std::hash::{BuildHasher, Hash};

/// An item that was not inserted, and why. It does not borrow the map.
#[derive(Drop)]
pub(crate) enum Refusal<T> {
    /// Items conflict with it. This is what the search by each of its keys found.
    Duplicate(T, (FoundByHash, FoundByHash, FoundByHash)),
    /// There was no memory for it.
    Memory(T),
}

impl<T: TriHashItem, S: BuildHasher> TriHashMap<T, S> {
    ghost use Rattle.iddqd_tri.specs.InsertErrors.{MatchRefusal, refusal_item};

    /// Returns what a search by the first key reads.
    pub(crate) fn by_key1(&self) -> Lookup<'_, T, First, S>
        ensures apart { IsDistinct (agree T.key1 T.K1.eq) (bag self.now) }
        ensures slots { result.slots ≡ self.now.slots }
        ensures builder { result.builder ≡ self.now.builder }
        ensures room { self.now.capacity ≤ result.capacity }
    {
        Lookup::new(&self.items, &self.first, &self.hash_builder)
    }

    /// Returns what a search by the second key reads.
    pub(crate) fn by_key2(&self) -> Lookup<'_, T, Second, S>
        ensures apart { IsDistinct (agree T.key2 T.K2.eq) (bag self.now) }
        ensures slots { result.slots ≡ self.now.slots }
        ensures builder { result.builder ≡ self.now.builder }
        ensures room { self.now.capacity ≤ result.capacity }
    {
        Lookup::new(&self.items, &self.second, &self.hash_builder)
    }

    /// Returns what a search by the third key reads.
    pub(crate) fn by_key3(&self) -> Lookup<'_, T, Third, S>
        ensures apart { IsDistinct (agree T.key3 T.K3.eq) (bag self.now) }
        ensures slots { result.slots ≡ self.now.slots }
        ensures builder { result.builder ≡ self.now.builder }
        ensures room { self.now.capacity ≤ result.capacity }
    {
        Lookup::new(&self.items, &self.third, &self.hash_builder)
    }

    /// Returns the hash of an item's first key.
    #[inline(always)]
    pub(crate) fn hash_of1(&self, item: &T) -> u64
        ensures { result ≡ ⟦<T as Hashed<S>>⟧.hash1 self.now.builder item.now }
    {
        self.hash_builder.hash_one(item.key1())
    }

    /// Returns the hash of an item's second key.
    #[inline(always)]
    pub(crate) fn hash_of2(&self, item: &T) -> u64
        ensures { result ≡ ⟦<T as Hashed<S>>⟧.hash2 self.now.builder item.now }
    {
        self.hash_builder.hash_one(item.key2())
    }

    /// Returns the hash of an item's third key.
    #[inline(always)]
    pub(crate) fn hash_of3(&self, item: &T) -> u64
        ensures { result ≡ ⟦<T as Hashed<S>>⟧.hash3 self.now.builder item.now }
    {
        self.hash_builder.hash_one(item.key3())
    }

    /// Searches at each rank for its key. `Found` has the slot that each search found, if it found one, with the hash.
    /// If no item has one of the keys, `Vacant` has the empty cells at which the searches ended. The call hashes each
    /// key once, and searches for it once.
    #[inline(always)]
    pub(crate) fn search_all<Q1: Query<T::K1>, Q2: Query<T::K2>, Q3: Query<T::K3>>(
        &self,
        query1: Q1,
        query2: Q2,
        query3: Q3,
        costs: &mut Costs,
    ) -> Searched<(FoundByHash, FoundByHash, FoundByHash), (Vacancy, Vacancy, Vacancy)>
        // The slots that were found, and whether there are any.
        ensures found { AreFound
            (key_tests T.TriHashItem Q1.stands_for Q2.stands_for Q3.stands_for query1 query2 query3) self.now.slots
            (slots_found (by_rank result)) }
        ensures none_found { OnVacant result (list_any is_some (slots_found (by_rank result)) ≡ false) }
        ensures some { OnFound result (list_any is_some (slots_found (by_rank result)) ≡ true) }
        ensures apart { IsDistinct (agree T.key1 T.K1.eq) (bag self.now) }
        // The empty cells, or the hashes by which the slots were found.
        ensures vacant { IfVacant (by_rank result) (AreVacantFor (⟦<T as Hashed<S>>⟧.hashes self.now.builder)
            (bag self.now)
            (map (hash_of S.BuildHasher S.Hasher.Hasher self.now.builder)
            (Q1.hash_input query1 ∷ Q2.hash_input query2 ∷ Q3.hash_input query3 ∷ []))) }
        ensures cells { IfVacant (by_rank result) (HaveRoom self.now.capacity) }
        ensures hashes { IfFound (by_rank result) (HaveHashes
            (map (hash_of S.BuildHasher S.Hasher.Hasher self.now.builder)
            (Q1.hash_input query1 ∷ Q2.hash_input query2 ∷ Q3.hash_input query3 ∷ []))) }
        ensures hashed { IfFound (by_rank result) (AreHashed
            (⟦<T as Hashed<S>>⟧.hashes self.now.builder) self.now.slots) }
        ensures costs { AreSearched (⟦<T as Hashed<S>>⟧.hashes self.now.builder) (bag self.now) self.now.capacity
            (map (hash_of S.BuildHasher S.Hasher.Hasher self.now.builder)
            (Q1.hash_input query1 ∷ Q2.hash_input query2 ∷ Q3.hash_input query3 ∷ [])) (slots_found (by_rank result))
            costs.old costs.new }
    {
        let hash1 = self.hash_builder.hash_one(query1);
        let hash2 = self.hash_builder.hash_one(query2);
        let hash3 = self.hash_builder.hash_one(query3);
        let found1 = self.by_key1().search(hash1, query1, costs);
        let found2 = self.by_key2().search(hash2, query2, costs);
        let found3 = self.by_key3().search(hash3, query3, costs);
        match (found1, found2, found3) {
            (Searched::Vacant(at1), Searched::Vacant(at2), Searched::Vacant(at3)) =>
                Searched::Vacant((at1, at2, at3)),
            (found1, found2, found3) => Searched::Found((
                FoundByHash::new(found1.found(), hash1),
                FoundByHash::new(found2.found(), hash2),
                FoundByHash::new(found3.found(), hash3),
            )),
        }
    }

    /// Returns what the search at each rank found, if items conflict with an item, and else where it is to be inserted
    /// at each rank. The call hashes each key once, and searches for it once.
    #[inline(always)]
    pub(crate) fn places(
        &self,
        item: &T,
        costs: &mut Costs,
    ) -> Searched<(FoundByHash, FoundByHash, FoundByHash), (Vacancy, Vacancy, Vacancy)>
        ensures free { OnVacant result (conflicts_of ⟦<T as Ranked>⟧.ranks (bag self.now) item.now ≡ []) }
        ensures spots { IfVacant (by_rank result) (ArePlacesOf
            (⟦<T as Hashed<S>>⟧.hashes self.now.builder) (bag self.now) item.now) }
        ensures conflict { OnFound result (ConflictsAt ⟦<T as Ranked>⟧.ranks self.now item.now
            (each_once (slots_found (by_rank result)))) }
        ensures hashes { IfFound (by_rank result) (HaveHashes
            (hashes_of (⟦<T as Hashed<S>>⟧.hashes self.now.builder) item.now)) }
        ensures hashed { IfFound (by_rank result) (AreHashed
            (⟦<T as Hashed<S>>⟧.hashes self.now.builder) self.now.slots) }
        ensures found { AreFound (⟦<T as Ranked>⟧.key_tests (T.key1 item.now) (T.key2 item.now) (T.key3 item.now))
            self.now.slots (slots_found (by_rank result)) }
        ensures costs { AreSearched (⟦<T as Hashed<S>>⟧.hashes self.now.builder) (bag self.now) self.now.capacity
            (hashes_of (⟦<T as Hashed<S>>⟧.hashes self.now.builder) item.now) (slots_found (by_rank result))
            costs.old costs.new }
    {
        self.search_all(item.key1(), item.key2(), item.key3(), costs)
    }

    /// Inserts an item with which nothing conflicts, at the place found for it at each rank. Only a table that grew is
    /// probed.
    #[inline(always)]
    pub(crate) fn insert_into(
        &mut self,
        item: T,
        at: (Vacancy, Vacancy, Vacancy),
        meter: &mut Meter,
    ) -> ItemIndex
        requires room { length (bag self.old) < self.old.capacity }
        requires free { conflicts_of ⟦<T as Ranked>⟧.ranks (bag self.old) item ≡ [] }
        requires spots { ArePlacesOf
            (⟦<T as Hashed<S>>⟧.hashes self.old.builder) (bag self.old) item (at.0 ∷ at.1 ∷ at.2 ∷ []) }
        ensures was_free { get self.old.slots result ≡ None }
        ensures updates { Updates self.old.slots self.new.slots result (Some item) }
        ensures puts_at { PutsAt ⟦<T as Ranked>⟧.ranks self.old result item (item ∷ bag self.old) self.new }
        ensures costs { meter.new ≤ meter.old + walks_within (length (bag self.old)) (map
            (λ _. 1) ⟦<T as Ranked>⟧.ranks) }
    {
        let (at1, at2, at3) = at;
        let slot = self.items.insert_reserved(item);
        self.first.insert_into(at1, slot, meter);
        self.second.insert_into(at2, slot, meter);
        self.third.insert_into(at3, slot, meter);
        slot
    }

    /// Inserts an item that has these keys, which no item of the map has, and returns its slot. The error names the
    /// lowest rank at which the item has another key, or says that there was no memory. The call compares the item's
    /// keys with the given ones. It searches for no key, and hashes none.
    #[inline(always)]
    pub(crate) fn insert_free<Q1: Query<T::K1>, Q2: Query<T::K2>, Q3: Query<T::K3>>(
        &mut self,
        item: T,
        query1: Q1,
        query2: Q2,
        query3: Q3,
        at: (Vacancy, Vacancy, Vacancy),
    ) -> Result<ItemIndex, EntryError<T>>
        requires none_found { listing
            (key_tests T.TriHashItem Q1.stands_for Q2.stands_for Q3.stands_for query1 query2 query3) (bag self.old)
            ≡ [] }
        requires vacant { AreVacantFor (⟦<T as Hashed<S>>⟧.hashes self.old.builder) (bag self.old)
            (map (hash_of S.BuildHasher S.Hasher.Hasher self.old.builder)
            (Q1.hash_input query1 ∷ Q2.hash_input query2 ∷ Q3.hash_input query3 ∷ []))
            (at.0 ∷ at.1 ∷ at.2 ∷ []) }
        ensures gains { OnOk result (Gains 1 self.old item self.new) }
        ensures value { IfOk result (λ slot. get self.new.slots slot ≡ Some item) }
        ensures sound { OnOk result (IsSound ⟦<T as Ranked>⟧.ranks (bag self.new)) }
        ensures same_keys { OnOk result
            (first_mismatch
            (key_tests T.TriHashItem Q1.stands_for Q2.stands_for Q3.stands_for query1 query2 query3) item ≡ None) }
        ensures hands_back { IfErr result (HandsBack ⟦<T as Ranked>⟧.ranks
            (key_tests T.TriHashItem Q1.stands_for Q2.stands_for Q3.stands_for query1 query2 query3) self.old item) }
        ensures unchanged { OnErr result (self.new ≡ self.old) }
    {
        if let Some(rank) = differ(&item, query1, query2, query3) {
            return Err(EntryError::of_rank(rank, item));
        }
        if let Err(_) = self.make_room(1) {
            return Err(EntryError::Memory(item));
        }
        Ok(self.insert_into(item, at, &mut Meter::new()))
    }

    /// Removes the item of a slot, by one walk through each table. It hashes a key of it only if its hash is not given.
    #[inline(always)]
    pub(crate) fn remove_slot(
        &mut self,
        slot: ItemIndex,
        hash1: Option<u64>,
        hash2: Option<u64>,
        hash3: Option<u64>,
        meter: &mut Meter,
    ) -> T
        requires live { IsLive self.old.slots slot }
        requires hash1 { IfSome hash1 (HasHash (⟦<T as Hashed<S>>⟧.hash1 self.old.builder) self.old.slots slot) }
        requires hash2 { IfSome hash2 (HasHash (⟦<T as Hashed<S>>⟧.hash2 self.old.builder) self.old.slots slot) }
        requires hash3 { IfSome hash3 (HasHash (⟦<T as Hashed<S>>⟧.hash3 self.old.builder) self.old.slots slot) }
        ensures value { get self.old.slots slot ≡ Some result }
        ensures slots { self.new.slots ≡ slice_set self.old.slots slot None }
        ensures loses { Loses self.old (result ∷ []) self.new }
        ensures updates { Updates self.old.slots self.new.slots slot None }
        ensures costs { meter.new ≤ meter.old + walks_within (length (bag self.old)) (map
            (λ _. 1) ⟦<T as Ranked>⟧.ranks) }
    {
        let (hash1, hash2, hash3) = self.hashes_in(slot, hash1, hash2, hash3);
        match self.items.remove(slot) {
            Some(item) => {
                self.first.remove(hash1, slot, meter);
                self.second.remove(hash2, slot, meter);
                self.third.remove(hash3, slot, meter);
                item
            }
            None => unreachable!(),
        }
    }

    /// Removes the item of a slot, by one walk through each table. It hashes each key of it once.
    #[inline(always)]
    pub(crate) fn remove_at(&mut self, slot: ItemIndex) -> T
        requires { IsLive self.old.slots slot }
        ensures value { get self.old.slots slot ≡ Some result }
        ensures slots { self.new.slots ≡ slice_set self.old.slots slot None }
        ensures loses { Loses self.old (result ∷ []) self.new }
        ensures updates { Updates self.old.slots self.new.slots slot None }
    {
        self.remove_slot(slot, None, None, None, &mut Meter::new())
    }

    /// Removes the items of these slots, in their order. The call hashes each key of them once.
    pub(crate) fn remove_slots(&mut self, found: &UpToThree<ItemIndex>) -> UpToThree<T>
        requires live { All (IsLive self.old.slots) found.now }
        requires apart { IsDistinct nat_eq found.now }
        ensures values { result ≡ items_at self.old.slots found.now }
        ensures loses { Loses self.old result self.new }
        ensures others { (slot : ℕ) → IsDistinct nat_eq (slot ∷ found.now) → get self.new.slots slot
            ≡ get self.old.slots slot }
        ensures left { (slot : ℕ) (x : T) → get self.new.slots slot ≡ Some x → get self.old.slots slot ≡ Some x }
    {
        let mut taken = UpToThree::new();
        for index in 0..found.len() {
            if let Some(slot) = found.get(index) {
                taken.push(self.remove_at(*slot));
            }
        }
        taken
    }

    /// Inserts an item if none conflicts with it. The error has what the searches by its keys found; or, if the map is
    /// full and cannot grow, it is `Memory`. A full map grows for as many items as are `wanted`, or for one if there is
    /// no memory for so many. The cells that growing probes are not counted. What it calls is inlined, except for
    /// growing, so a caller's loop branches where the outcome arises.
    #[inline(always)]
    pub(crate) fn insert_or_refuse(
        &mut self,
        item: T,
        wanted: usize,
        costs: &mut Costs,
    ) -> Result<(), Refusal<T>>
        requires { 0 < wanted }
        ensures gains { OnOk result (Gains wanted self.old item self.new) }
        ensures free { OnOk result (conflicts_of ⟦<T as Ranked>⟧.ranks (bag self.old) item ≡ []) }
        ensures handed_back { IfErr result (λ e. refusal_item e ≡ item) }
        ensures unchanged { OnErr result (self.new ≡ self.old) }
        ensures reason { IfErr result (λ e. MatchRefusal e
            (FindsConflicts ⟦<T as Ranked>⟧.ranks (⟦<T as Hashed<S>>⟧.hashes self.old.builder) self.old item)
            (IsFullFor ⟦<T as Ranked>⟧.ranks self.old item)) }
        ensures costs { PlacingCosts (⟦<T as Hashed<S>>⟧.hashes self.old.builder) (bag self.old) self.old.capacity
            (hashes_of (⟦<T as Hashed<S>>⟧.hashes self.old.builder) item)
            (map (λ _. if is_ok result then 1 else 0) ⟦<T as Ranked>⟧.ranks)
            costs.old costs.new }
    {
        let at = match self.places(&item, costs) {
            Searched::Vacant(at) => at,
            Searched::Found(found) => return Err(Refusal::Duplicate(item, found)),
        };
        if let Err(_) = self.make_room(wanted) {
            return Err(Refusal::Memory(item));
        }
        self.insert_into(item, at, &mut costs.probed);
        Ok(())
    }
}
