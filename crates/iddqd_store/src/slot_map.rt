//! The trait of the hash maps: what each of them does with its items by the numbers of their slots.
ghost use Rattle.std.specs.Prelude.{◌≡◌, ◌≢◌, ◌+◌, ◌<◌, ◌≤◌, [], ◌∷◌, ℕ, Bool, true, false, List, length, map, is_some, Contains, Some, None, OnOk, OnErr, IfOk, IfErr, IfSome, IsOk, IsPermutation, option_map, slice_set};
ghost use Rattle.std.specs.Hash.{HashWrites};
ghost use Rattle.std.specs.List.{AllZip};
ghost use Rattle.iddqd_store.specs.Bag.{Ranks, AreLawful, IsSound, agrees, conflicts_of, do_conflict, swap};
ghost use Rattle.iddqd_store.specs.Map.{Map, bag, Loses, PutsAt, Reserves, shrunk_to};
ghost use Rattle.iddqd_store.specs.Map.Written.{map_with};
ghost use Rattle.iddqd_store.specs.Rank.{FoundByHash, SearchCosts, walks_within};
ghost use Rattle.iddqd_store.specs.Rank.All.{AreHashed, ArePlacesOf, FindsConflicts, HaveHashes, PlacingCosts, hashes_of};
ghost use Rattle.iddqd_store.specs.Rank.Index.{HasHash};
ghost use Rattle.iddqd_store.specs.SlotMap.{SearchesEach, SearchesFirst};
ghost use Rattle.iddqd_store.specs.Slots.Found.{FoundAt, each_once};
ghost use Rattle.iddqd_store.specs.Slots.{contents, get, IsLive, IsSlotClone, Updates};
ghost use Rattle.iddqd_store.specs.Table.{Spot};

use crate::error::TryReserveError;
use crate::index_table::{Costs, Meter};
use crate::item_set::{ItemIndex, ItemSet};
use crate::query::Query;
use crate::short_list::UpToThree;
use std::alloc::Global;
use std::hash::Hash;

/// A hash map of the family: it keeps its items in numbered slots, and no two of them have an equal key of the same rank.
///
/// `IdHashMap`, `BiHashMap` and `TriHashMap` implement it, for code that serves all three, as a layer that keeps an order of
/// the slots beside the map. A program that uses one map calls the map's own functions, which speak of no slots.
pub trait SlotMap {
    /// The type of the items.
    type Item;

    /// The type of the builder of hashers.
    type Builder;

    /// The type of the first key.
    type FirstKey: Eq;

    /// Where an item is to be inserted: for each rank the cell at which the search for its key ended.
    type Places: Drop;

    /// What the searches by the keys of an item found, of which at least one is taken: for each rank a slot, if there is one,
    /// and the hash.
    type Found: Drop;

    /// Which keys of an item are taken.
    type Taken;

    /// An item that was not inserted, with the keys of it that are taken.
    type Rejected;

    // The map, as contracts see it.
    ghost shown: { Self → Map Self.Item Self.Builder };

    // For each rank, the test whether two items have equal keys.
    ghost ranks: { Ranks Self.Item };

    // For each rank, the hash of an item's key, by a builder.
    ghost hashes: { Self.Builder → List (Self.Item → ℕ) };

    // The hash of what a key writes, by a builder.
    ghost hash_of: { Self.Builder → HashWrites → ℕ };

    // The first key of an item.
    ghost first_key: { Self.Item → Self.FirstKey };

    // For each rank, the cell at which a search ended.
    ghost spots: { Self.Places → List Spot };

    // For each rank, what the search by the key of this rank found.
    ghost searched: { Self.Found → List FoundByHash };

    // For each rank, whether the key is taken.
    ghost flags: { Self.Taken → List Bool };

    // The item that was not inserted, and for each rank whether its key is taken.
    ghost rejected_item: { Self.Rejected → Self.Item };

    ghost rejected_flags: { Self.Rejected → List Bool };

    /// Makes an empty map of capacity 0 with this builder. The call allocates no memory.
    fn empty(alloc: Global, builder: Self::Builder) -> Self
        ensures empty { bag (shown result) ≡ [] }
        ensures capacity { (shown result).capacity ≡ 0 }
        ensures builder { (shown result).builder ≡ builder };

    /// Returns the allocator of the map.
    fn allocator(&self) -> Global;

    /// Returns the builder that makes the hashes of the map's keys.
    fn hasher(&self) -> &Self::Builder
        ensures { result.now ≡ (shown self.now).builder };

    /// Returns the first key of an item.
    fn first_key(item: &Self::Item) -> &Self::FirstKey
        ensures { result.now ≡ first_key item.now };

    /// Returns the slots with their items.
    fn slots(&self) -> &ItemSet<Self::Item>
        ensures { result.now.slots ≡ (shown self.now).slots };

    /// Returns the number of items.
    fn len(&self) -> usize
        ensures value { result ≡ length (bag (shown self.now)) }
        ensures sound { IsSound ranks (bag (shown self.now)) };

    /// Returns how many items fit without growing.
    fn capacity(&self) -> usize
        ensures value { result ≡ (shown self.now).capacity }
        ensures fits { length (bag (shown self.now)) ≤ result };

    /// Returns where an item is to be inserted, or what the searches by its keys found, if items conflict with it. The call
    /// hashes each key of the item once, and searches for it once.
    fn places(&self, item: &Self::Item, costs: &mut Costs) -> Result<Self::Places, Self::Found>
        ensures free { OnOk result (conflicts_of ranks (bag (shown self.now)) item.now ≡ []) }
        ensures places { IfOk result (λ at. ArePlacesOf (hashes (shown self.now).builder) (bag (shown self.now)) item.now (spots at)) }
        ensures conflicts { IfErr result (λ found. FindsConflicts ranks (hashes (shown self.now).builder) (shown self.now) item.now
            (searched found)) }
        ensures costs { SearchesEach (hashes (shown self.now).builder) (bag (shown self.now)) (shown self.now).capacity item.now
            costs.old costs.new };

    /// Returns the slots that searches found, each once, in the order of the keys.
    fn found_slots(found: &Self::Found) -> UpToThree<ItemIndex>
        ensures { result ≡ each_once (map (λ at. at.slot) (searched found.now)) };

    /// Returns which keys are taken, by what the searches for them found.
    fn taken(found: &Self::Found) -> Self::Taken
        ensures { flags result ≡ map (λ at. is_some at.slot) (searched found.now) };

    /// Returns the slot of the item that has each key of this one, or `None`. The call hashes the first key once, and searches
    /// for it once.
    fn slot_of_all(&self, item: &Self::Item, costs: &mut Costs) -> Option<ItemIndex>
        ensures found { FoundAt (agrees ranks item.now) (shown self.now).slots result }
        ensures costs { SearchesFirst (hashes (shown self.now).builder) (bag (shown self.now)) (shown self.now).capacity item.now
            costs.old costs.new };

    /// Inserts an item with which nothing conflicts, at the places that were found for it, and returns its slot. There has to
    /// be room. Only a table that grew since is probed. The call hashes no key, and allocates no memory.
    fn insert_into(&mut self, item: Self::Item, at: Self::Places, meter: &mut Meter) -> ItemIndex
        requires room { length (bag (shown self.old)) < (shown self.old).capacity }
        requires free { conflicts_of ranks (bag (shown self.old)) item ≡ [] }
        requires places { ArePlacesOf (hashes (shown self.old).builder) (bag (shown self.old)) item (spots at) }
        ensures was_free { get (shown self.old).slots result ≡ None }
        ensures updates { Updates (shown self.old).slots (shown self.new).slots result (Some item) }
        ensures puts_at { PutsAt ranks (shown self.old) result item (item ∷ bag (shown self.old)) (shown self.new) }
        ensures costs { meter.new ≤ meter.old + walks_within (length (bag (shown self.old))) (map (λ _. 1) ranks) };

    /// Removes the item of a slot, by one walk through each table. The call hashes each key of it once.
    fn remove_at(&mut self, slot: ItemIndex, meter: &mut Meter) -> Self::Item
        requires { IsLive (shown self.old).slots slot }
        ensures value { get (shown self.old).slots slot ≡ Some result }
        ensures slots { (shown self.new).slots ≡ slice_set (shown self.old).slots slot None }
        ensures loses { Loses (shown self.old) (result ∷ []) (shown self.new) }
        ensures updates { Updates (shown self.old).slots (shown self.new).slots slot None }
        ensures costs { meter.new ≤ meter.old + walks_within (length (bag (shown self.old))) (map (λ _. 1) ranks) };

    /// Puts an item in the place of the one in a slot, which has equal keys, and returns the latter. The call hashes no key, and
    /// writes no table.
    fn replace_at(&mut self, slot: ItemIndex, item: Self::Item) -> Self::Item
        requires live { IsLive (shown self.old).slots slot }
        requires same_keys { (x : Self.Item) → get (shown self.old).slots slot ≡ Some x → agrees ranks x item ≡ true }
        ensures value { get (shown self.old).slots slot ≡ Some result }
        ensures new { shown self.new ≡ map_with (shown self.old) slot (λ _. item) }
        ensures swaps { IsPermutation (bag (shown self.new)) (swap ranks (bag (shown self.old)) result item) };

    /// Puts an item in the slot of the only one that conflicts with it, and returns the latter. `found` is what the searches by
    /// the keys of the new item found; other items that they found have left the map since. The call hashes those keys of the
    /// item that leaves by which no search found it, and walks through each table at most twice.
    fn overwrite_at(
        &mut self,
        slot: ItemIndex,
        item: Self::Item,
        found: &Self::Found,
        meter: &mut Meter,
    ) -> Self::Item
        requires live { IsLive (shown self.old).slots slot }
        requires free { conflicts_of ranks (contents (slice_set (shown self.old).slots slot None)) item ≡ [] }
        requires hashes { HaveHashes (hashes_of (hashes (shown self.old).builder) item) (searched found.now) }
        requires hashed { AreHashed (hashes (shown self.old).builder) (shown self.old).slots (searched found.now) }
        ensures value { get (shown self.old).slots slot ≡ Some result }
        ensures updates { Updates (shown self.old).slots (shown self.new).slots slot (Some item) }
        ensures puts_at { PutsAt ranks (shown self.old) slot item (item ∷ contents (slice_set (shown self.old).slots slot None))
            (shown self.new) }
        ensures costs { meter.new ≤ meter.old + walks_within (length (bag (shown self.old))) (map (λ _. 2) ranks) };

    /// Puts an item in a slot in place of the one there, whatever their keys are, and returns the latter. If some other item
    /// conflicts with the new one, the new one is returned, and nothing changes. The call hashes each key of the new item once,
    /// and searches for it once, and walks through each table at most twice.
    fn rekey_at(
        &mut self,
        slot: ItemIndex,
        item: Self::Item,
        costs: &mut Costs,
    ) -> Result<Self::Item, Self::Item>
        requires { IsLive (shown self.old).slots slot }
        ensures value { IfOk result (λ x. get (shown self.old).slots slot ≡ Some x) }
        ensures updates { OnOk result (Updates (shown self.old).slots (shown self.new).slots slot (Some item)) }
        ensures puts_at { OnOk result (PutsAt ranks (shown self.old) slot item
            (item ∷ contents (slice_set (shown self.old).slots slot None)) (shown self.new)) }
        ensures handed_back { IfErr result (λ x. x ≡ item) }
        ensures reason { OnErr result (conflicts_of ranks (contents (slice_set (shown self.old).slots slot None)) item ≢ []) }
        ensures unchanged { OnErr result (shown self.new ≡ shown self.old) }
        ensures costs { PlacingCosts (hashes (shown self.old).builder) (bag (shown self.old)) (shown self.old).capacity
            (hashes_of (hashes (shown self.old).builder) item) (map (λ _. 2) ranks) costs.old costs.new };

    /// Returns a map with a clone of each item, in the same slot, and of the builder.
    fn clone(&self) -> Result<Self, TryReserveError>
    where
        Self::Item: Clone,
        Self::Builder: Clone,
        requires same_keys { (x c : Self.Item) → Contains (bag (shown self.now)) x → Self.Item.is_clone x c → agrees ranks x c ≡ true }
        requires same_hashes { (s : Self.Builder) (writes : HashWrites) → Self.Builder.is_clone (shown self.now).builder s
            → hash_of s writes ≡ hash_of (shown self.now).builder writes }
        ensures slots { IfOk result (λ copy. AllZip (IsSlotClone Self.Item.is_clone) (shown self.now).slots (shown copy).slots) }
        ensures fits { IfOk result (λ copy. length (bag (shown copy)) ≤ (shown copy).capacity) }
        ensures builder { IfOk result (λ copy. Self.Builder.is_clone (shown self.now).builder (shown copy).builder) };

    /// Shrinks the capacity to `least`, but not below the number of items. The items get other slots, in the order of the
    /// old ones. After an error the map is as before.
    fn shrink_to(&mut self, least: usize) -> Result<(), TryReserveError>
    where
        Self::Item: Drop,
        ensures items { bag (shown self.new) ≡ bag (shown self.old) }
        ensures builder { (shown self.new).builder ≡ (shown self.old).builder }
        ensures shrunk { OnOk result ((shown self.new).capacity
            ≡ shrunk_to (length (bag (shown self.old))) least (shown self.old).capacity) }
        ensures reason { OnErr result (0 < shrunk_to (length (bag (shown self.old))) least (shown self.old).capacity) }
        ensures granted { shrunk_to (length (bag (shown self.old))) least (shown self.old).capacity ≡ (shown self.old).capacity
            → IsOk result }
        ensures unchanged { OnErr result (shown self.new ≡ shown self.old) };

    /// Reserves capacity for this many more items. If the slots have to grow, the tables are made for at most `ahead` items
    /// more. After an error the map is as before.
    fn grow(&mut self, more: usize, ahead: usize) -> Result<(), TryReserveError>
        ensures { Reserves (shown self.old) more result (shown self.new) };

    /// Drops all items. The builder and the capacity stay.
    fn clear(&mut self)
    where
        Self::Item: Drop,
        ensures empty { bag (shown self.new) ≡ [] }
        ensures capacity { (shown self.new).capacity ≡ (shown self.old).capacity }
        ensures builder { (shown self.new).builder ≡ (shown self.old).builder };

    /// Returns the flags of an item of which no key is taken.
    fn none_taken() -> Self::Taken
        ensures { flags result ≡ map (λ _. false) ranks };

    /// Returns the error of an insert: the item, and which of its keys are taken.
    fn reject(item: Self::Item, taken: Self::Taken) -> Self::Rejected
        ensures item { rejected_item result ≡ item }
        ensures flags { rejected_flags result ≡ flags taken };

    // Each rank compares keys by an equivalence.
    ghost lawful: { AreLawful ranks };

    // Items with equal first keys conflict.
    ghost same_first: { (x y : Self.Item) → Self.FirstKey.eq (first_key x) (first_key y) ≡ true → do_conflict ranks x y ≡ true };
}

/// A hash map of the family that finds its items by the keys of the rank `R`. Each map implements it for each of its ranks.
pub trait FindsBy<R>: SlotMap {
    /// The type of the keys of this rank.
    type Key: Eq + Hash;

    // The key of an item.
    ghost key: { Self.Item → Self.Key };

    // The hash of an item's key, by a builder.
    ghost key_hash: { Self.Builder → Self.Item → ℕ };

    /// Returns the slot of the item whose key the query stands for, with the hash of this key, or `None`. The call hashes the
    /// query once, and searches for it once.
    fn slot_by<Q: Query<Self::Key>>(&self, query: Q, costs: &mut Costs) -> Option<(ItemIndex, u64)>
        ensures found { FoundAt (λ x. Q.stands_for query (key x)) (Self.shown self.now).slots (option_map (λ found. found.0) result) }
        ensures hashed { IfSome result (λ found. HasHash (key_hash (Self.shown self.now).builder) (Self.shown self.now).slots found.0 found.1) }
        ensures costs { SearchCosts (key_hash (Self.shown self.now).builder) (bag (Self.shown self.now)) (Self.shown self.now).capacity
            (Self.hash_of (Self.shown self.now).builder (Q.hash_input query)) (option_map (λ found. found.0) result)
            costs.old.asked costs.new.asked costs.old.probed costs.new.probed };

    /// Removes the item of a slot, whose key of this rank has this hash, by one walk through each table. The call hashes each
    /// other key of it once.
    fn remove_by(&mut self, slot: ItemIndex, hash: u64, meter: &mut Meter) -> Self::Item
        requires live { IsLive (Self.shown self.old).slots slot }
        requires hashed { HasHash (key_hash (Self.shown self.old).builder) (Self.shown self.old).slots slot hash }
        ensures value { get (Self.shown self.old).slots slot ≡ Some result }
        ensures loses { Loses (Self.shown self.old) (result ∷ []) (Self.shown self.new) }
        ensures updates { Updates (Self.shown self.old).slots (Self.shown self.new).slots slot None }
        ensures costs { meter.new ≤ meter.old + walks_within (length (bag (Self.shown self.old))) (map (λ _. 1) Self.ranks) };
}

/// A hash map of the family whose items have data beside their keys.
pub trait StoresData: SlotMap {
    /// The type of the data.
    type Data;

    // The item with these data in place of its own.
    ghost put: { Self.Item → Self.Data → Self.Item };

    /// Stores data in the item of a slot. The call hashes no key, and writes no table.
    fn store_at(&mut self, slot: ItemIndex, d: Self::Data)
    where
        Self::Data: Drop,
        requires { IsLive (Self.shown self.old).slots slot }
        ensures stores { Self.shown self.new ≡ map_with (Self.shown self.old) slot (λ x. put x d) }
        ensures sound { IsSound Self.ranks (bag (Self.shown self.old)) };

    // With other data an item has equal keys.
    ghost keeps_keys: { (x : Self.Item) (d : Self.Data) → agrees Self.ranks x (put x d) ≡ true };
}
