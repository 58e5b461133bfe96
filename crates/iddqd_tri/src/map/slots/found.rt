//! Comparing an item's keys with others, and the slots that searches by all keys found: which they are, and their
//! items, borrowed for reading or writing.
//!
//! Made by tests/widths from crates/iddqd_bi/src/map/slots/found.rt: change that file.
ghost use Rattle.std.specs.Prelude.{◌≡◌, ◌<◌, ◌≤◌, ◌+◌, [], ◌∷◌, map, IfSome, option_copied};
ghost use Rattle.std.specs.Option.{option_and_then};
ghost use Rattle.iddqd_store.specs.Bag.{IsOnly, first_mismatch, every_of};
ghost use Rattle.iddqd_store.specs.Rank.All.{UniqueCosts};
ghost use Rattle.iddqd_store.specs.Rank.Index.{HasHash};
ghost use Rattle.iddqd_store.specs.Map.{bag, hash_of};
ghost use Rattle.iddqd_store.specs.Slots.Found.{each_once, items_at, FoundAt, found_by_all};
ghost use Rattle.iddqd_store.specs.Slots.{get, IsLive};
ghost use Rattle.iddqd_tri.specs.Keys.{has2, has3, has_all, key_tests};
ghost use Rattle.std.specs.Borrow.{sem};
ghost use Rattle.iddqd_tri.specs.RefMuts.{ref_lender, ref_map, ref_item, rests_if_none};

use super::super::TriHashMap;
use crate::item::{Hashed, Ranked, TriHashItem};
use crate::ref_mut::RefMut;
use iddqd_store::{Costs, ItemIndex, Query, Searched, UpToThree};
use std::hash::{BuildHasher, Hash};

/// Returns whether the item has the keys asked for at all ranks after the first.
pub(crate) fn has_others<T: TriHashItem, Q2: Query<T::K2>, Q3: Query<T::K3>>(
    item: &T,
    query2: Q2,
    query3: Q3,
    costs: &mut Costs,
) -> bool
    ensures value { result ≡ every_of (has2 T.TriHashItem Q2.stands_for query2
        ∷ has3 T.TriHashItem Q3.stands_for query3 ∷ []) item.now }
    ensures asked { costs.new.asked ≤ costs.old.asked + 2 }
    ensures probed { costs.new.probed ≡ costs.old.probed }
{
    costs.asked.tick();
    if !query2.stands_for(item.key2()) {
        return false;
    }
    costs.asked.tick();
    query3.stands_for(item.key3())
}

/// Returns the lowest rank, counted from 0, at which the item does not have these keys, or `None`. The function
/// compares the keys rank by rank, up to the first that differs.
pub(crate) fn differ<T: TriHashItem, Q1: Query<T::K1>, Q2: Query<T::K2>, Q3: Query<T::K3>>(
    item: &T,
    query1: Q1,
    query2: Q2,
    query3: Q3,
) -> Option<usize>
    ensures rank { result ≡ first_mismatch
        (key_tests T.TriHashItem Q1.stands_for Q2.stands_for Q3.stands_for query1 query2 query3) item.now }
    ensures below { IfSome result (λ rank. rank < 3) }
{
    if !query1.stands_for(item.key1()) {
        return Some(0);
    }
    if !query2.stands_for(item.key2()) {
        return Some(1);
    }
    if !query3.stands_for(item.key3()) {
        return Some(2);
    }
    None
}

/// Returns the slot that all searches found, or `None` if they did not find the same one.
pub(crate) fn one_of(
    slot1: Option<ItemIndex>,
    slot2: Option<ItemIndex>,
    slot3: Option<ItemIndex>,
) -> Option<ItemIndex>
    ensures { result ≡ found_by_all (slot1 ∷ slot2 ∷ slot3 ∷ []) }
{
    match (slot1, slot2, slot3) {
        (Some(a), Some(b), Some(c)) => { if a == b && a == c { Some(a) } else { None } }
        _ => None,
    }
}

/// Returns the slots that searches found, each once.
pub(crate) fn each_once(
    slot1: Option<ItemIndex>,
    slot2: Option<ItemIndex>,
    slot3: Option<ItemIndex>,
) -> UpToThree<ItemIndex>
    ensures { result ≡ each_once (slot1 ∷ slot2 ∷ slot3 ∷ []) }
{
    let mut found = UpToThree::new();
    found.push_found(slot1);
    found.push_found(slot2);
    found.push_found(slot3);
    found
}

impl<T: TriHashItem, S: BuildHasher> TriHashMap<T, S> {
    /// Returns the slot of the item that has all keys that the queries stand for. The hash is that of the first query.
    pub(crate) fn slot_unique<Q1: Query<T::K1>, Q2: Query<T::K2>, Q3: Query<T::K3>>(
        &self,
        hash: u64,
        query1: Q1,
        query2: Q2,
        query3: Q3,
        costs: &mut Costs,
    ) -> Option<ItemIndex>
        requires { hash ≡ hash_of S.BuildHasher S.Hasher.Hasher self.now.builder (Q1.hash_input query1) }
        ensures found { IsOnly (has_all T.TriHashItem Q1.stands_for Q2.stands_for Q3.stands_for query1 query2 query3)
            (bag self.now) (option_and_then (get self.now.slots) result) }
        ensures live { IfSome result (IsLive self.now.slots) }
        ensures hashed { IfSome result (λ slot. HasHash
            (⟦<T as Hashed<S>>⟧.hash1 self.now.builder) self.now.slots slot hash) }
        ensures costs { UniqueCosts (⟦<T as Hashed<S>>⟧.hash1 self.now.builder) (bag self.now) self.now.capacity
            hash 2 costs.old costs.new }
    {
        let Searched::Found(slot) = self.by_key1().search(hash, query1, costs) else {
            return None;
        };
        let item = self.items.get(slot)?;
        if has_others(item, query2, query3, costs) {
            Some(slot)
        } else {
            None
        }
    }

    /// Returns the slot of the item that has all keys that the queries stand for.
    pub(crate) fn slot_of_all<Q1: Query<T::K1>, Q2: Query<T::K2>, Q3: Query<T::K3>>(
        &self,
        query1: Q1,
        query2: Q2,
        query3: Q3,
    ) -> Option<ItemIndex>
        ensures { FoundAt
            (has_all T.TriHashItem Q1.stands_for Q2.stands_for Q3.stands_for query1 query2 query3) self.now.slots result }
    {
        let hash = self.hash_builder.hash_one(query1);
        self.slot_unique(hash, query1, query2, query3, &mut Costs::new())
    }

    /// Returns the items of these slots, borrowed for reading.
    pub(crate) fn items_of(&self, found: &UpToThree<ItemIndex>) -> UpToThree<&T>
        ensures { map (λ item. item.now) result ≡ items_at self.now.slots found.now }
    {
        let mut items = UpToThree::new();
        for slot in found.iter() {
            if let Some(item) = self.items.get(*slot) {
                items.push(item);
            }
        }
        items
    }

    /// Returns the item of a slot, or `None` if there is no slot or if it has none.
    pub(crate) fn item_of(&self, slot: Option<ItemIndex>) -> Option<&T>
        ensures { option_copied result ≡ option_and_then (get self.now.slots) slot }
    {
        self.items.get(slot?)
    }

    /// Returns a guard of the item of a slot, or `None` if there is no slot or if it has none.
    pub(crate) fn lend(&mut self, slot: Option<ItemIndex>) -> Option<RefMut<'_, T, S>>
        ensures item { option_and_then ref_item result ≡ option_and_then (get self.old.slots) slot }
        ensures unchanged { IfSome result (λ r. ref_map r ≡ self.old) }
        ensures same_map { IfSome result (λ r. ref_lender r ≡ self.entry.ghost_name) }
        ensures* rests_at_none { sem 𝓛
            (rests_if_none T.row S.row T.K1.row T.K2.row T.K3.row S.Hasher.row self.entry result) }
    {
        let slot = slot?;
        if self.items.get(slot).is_none() {
            return None;
        }
        Some(RefMut { map: self, slot })
    }
}
