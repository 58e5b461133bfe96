//! The pairs in the table of a rank: those of all items, and those of items that another one replaces. A pair has the hash
//! of its item's key. If a search found the item, that hash is known.
//!
//! A call first makes the hashes that it needs (`hash_in`, `fill_ahead`), then it moves items and pairs. What moves them
//! takes hashes, and runs no code of the caller.
ghost use Rattle.std.specs.Prelude.{◌≡◌, ◌≢◌, ◌+◌, ◌*◌, ◌<◌, ◌≤◌, [], ◌∷◌, length, map, Some, Contains, IfSome};
ghost use Rattle.iddqd_store.specs.Rank.Index.{HasHash, IsIndex};
ghost use Rattle.iddqd_store.specs.Rank.{rehash_walks, merge_three_walks, merge_two_walks};
ghost use Rattle.iddqd_store.specs.Slots.{contents, live_count, IsLive};
ghost use Rattle.iddqd_store.specs.Table.Ring.{stretch};
ghost use Rattle.iddqd_store.specs.Table.{hashes, IsFree, ReplacesPair, ReplacesThree, ReplacesTwo};

use super::{FoundByHash, HashedKey, KeyOf};
use crate::index_table::{IndexTable, Meter, Vacancy};
use crate::item_set::{ItemIndex, ItemSet};
use std::hash::{BuildHasher, Hash};

impl<T> ItemSet<T> {
    /// Inserts the pair of each item into an empty table: the hash of its key, and the number that its slot has once the set
    /// is compacted. So every key is hashed before an item moves. The table has to have the capacity for them, so this
    /// allocates nothing. It hashes each key once, and compares none.
    pub fn fill_ahead<R: KeyOf<T>, S: BuildHasher>(&self, table: &mut IndexTable, hash_builder: &S)
        requires empty { table.old.pairs ≡ [] }
        requires room { live_count self.now.slots ≤ table.old.limit }
        ensures index { IsIndex (⟦<R as HashedKey<T, S>>⟧.hash hash_builder.now) (map Some (contents self.now.slots))
            table.new.pairs }
        ensures cells { length table.new.row ≡ length table.old.row }
        ensures limit { table.new.limit ≡ table.old.limit }
    {
        let mut meter = Meter::new();
        let mut number = 0;
        for index in 0..self.slot_count() {
            if let Some(item) = self.get(ItemIndex::new(index)) {
                let hash = hash_builder.hash_one(R::key(item));
                table.insert_reserved(hash, ItemIndex::new(number), &mut meter);
                number += 1;
            }
        }
    }

    /// Returns the hash of the key of the item in this slot. It hashes the key only if the hash is not known.
    #[inline(always)]
    pub fn hash_in<R: KeyOf<T>, S: BuildHasher>(
        &self,
        slot: ItemIndex,
        known: Option<u64>,
        hash_builder: &S,
    ) -> u64
        requires live { IsLive self.now.slots slot }
        requires known { IfSome known (HasHash (⟦<R as HashedKey<T, S>>⟧.hash hash_builder.now) self.now.slots slot) }
        ensures { HasHash (⟦<R as HashedKey<T, S>>⟧.hash hash_builder.now) self.now.slots slot result }
    {
        match known {
            Some(hash) => hash,
            None => hash_builder.hash_one(R::key(self.item(slot))),
        }
    }
}

impl IndexTable {
    /// Replaces the pair of this slot and this hash by a pair of the same slot and another hash. If both hashes are equal,
    /// it does nothing and probes no cell; only that test is inlined into the caller. Else it probes at most what a removal
    /// and an insert probe.
    #[inline(always)]
    pub fn rehash(&mut self, before: u64, hash: u64, slot: ItemIndex, meter: &mut Meter)
        requires { Contains self.old.pairs (before, slot) }
        ensures moved { ReplacesPair self.old.pairs self.new.pairs (before, slot) (hash, slot) }
        ensures limit { self.new.limit ≡ self.old.limit }
        ensures not_moved { before ≡ hash → self.new ≡ self.old }
        ensures costs { meter.new ≤ meter.old + rehash_walks before hash * (length self.old.pairs + 1) }
    {
        if before == hash {
            return;
        }
        self.rehash_pair(before, hash, slot, meter);
    }

    /// Replaces the pair of this slot and this hash by a pair of the same slot, at the empty cell at which a search ended.
    /// If the hash is that of the search, it does nothing and probes no cell; only that test is inlined into the caller.
    /// Else, if a further pair fits and the table has as many cells as at that search, the call probes the cells that a
    /// removal probes once the table has the new pair too. Otherwise it probes those of a removal and an insert.
    #[inline(always)]
    pub fn rehash_into(&mut self, before: u64, at: Vacancy, slot: ItemIndex, meter: &mut Meter)
        requires paired { Contains self.old.pairs (before, slot) }
        requires vacant { IsFree (hashes self.old.pairs) at }
        ensures moved { ReplacesPair self.old.pairs self.new.pairs (before, slot) (at.hash, slot) }
        ensures limit { self.new.limit ≡ self.old.limit }
        ensures not_moved { before ≡ at.hash → self.new ≡ self.old }
        ensures one_walk { at.cells ≡ length self.old.row → length self.old.pairs < self.old.limit
            → meter.new ≤ meter.old + stretch (at.hash ∷ hashes self.old.pairs) (length self.old.row) before + 1 }
        ensures costs { meter.new ≤ meter.old + rehash_walks before at.hash * (length self.old.pairs + 1) }
    {
        if before == at.hash() {
            return;
        }
        self.rehash_pair_into(before, at, slot, meter);
    }

    // Replaces the pair of this slot and this hash by a pair of the same slot at the empty cell at which a search ended. The
    // new pair comes first, since the removal of the old one may move the empty cell. If the table is full, or has another
    // number of cells than at that search, it searches for an empty cell after the removal.
    #[inline(always)]
    fn rehash_pair_into(&mut self, before: u64, at: Vacancy, slot: ItemIndex, meter: &mut Meter)
        requires there { Contains self.old.pairs (before, slot) }
        requires vacant { IsFree (hashes self.old.pairs) at }
        ensures moved { ReplacesPair self.old.pairs self.new.pairs (before, slot) (at.hash, slot) }
        ensures limit { self.new.limit ≡ self.old.limit }
        ensures one_walk { at.cells ≡ length self.old.row → length self.old.pairs < self.old.limit
            → meter.new ≡ meter.old + stretch (at.hash ∷ hashes self.old.pairs) (length self.old.row) before + 1 }
        ensures costs { meter.new ≤ meter.old + 2 * (length self.old.pairs + 1) }
    {
        if at.cells() != self.cells() || self.len() == self.capacity() {
            self.rehash_pair(before, at.hash(), slot, meter);
            return;
        }
        self.insert_into(at, slot, meter);
        self.remove(before, slot, meter);
    }

    // Replaces the pair of this slot and this hash by a pair of the same slot and another hash.
    #[inline(never)]
    fn rehash_pair(&mut self, before: u64, hash: u64, slot: ItemIndex, meter: &mut Meter)
        requires { Contains self.old.pairs (before, slot) }
        ensures moved { ReplacesPair self.old.pairs self.new.pairs (before, slot) (hash, slot) }
        ensures limit { self.new.limit ≡ self.old.limit }
        ensures costs { meter.new ≤ meter.old + 2 * (length self.old.pairs + 1) }
    {
        self.remove(before, slot, meter);
        self.insert_reserved(hash, slot, meter);
    }

    /// Replaces two pairs, each a slot and a hash, by one: that of an item which takes the slot of the first, and for whose
    /// key a search was made. If the search found the second slot, the second pair gets the number of the first slot, so
    /// that nothing is inserted. The call allocates nothing. The cells that it probes are those of `merge_two_walks`.
    pub fn merge_two(
        &mut self,
        gone: (ItemIndex, u64),
        other: (ItemIndex, u64),
        found: &FoundByHash,
        meter: &mut Meter,
    )
        requires apart { gone.0 ≢ other.0 }
        requires gone { Contains self.old.pairs (gone.1, gone.0) }
        requires other { Contains self.old.pairs (other.1, other.0) }
        requires known { found.now.slot ≡ Some other.0 → other.1 ≡ found.now.hash }
        ensures replaced { ReplacesTwo self.old.pairs self.new.pairs (gone.1, gone.0) (other.1, other.0)
            (found.now.hash, gone.0) }
        ensures limit { self.new.limit ≡ self.old.limit }
        ensures costs { meter.new ≤ meter.old + merge_two_walks gone.1 found.now other.0 * (length self.old.pairs + 1) }
    {
        let (slot, before) = gone;
        let (other_slot, other_hash) = other;
        match found.hash_at(other_slot) {
            Some(hash) => {
                self.remove(before, slot, meter);
                self.renumber(hash, other_slot, slot, meter);
            }
            None => {
                self.remove(other_hash, other_slot, meter);
                self.rehash(before, found.hash(), slot, meter);
            }
        }
    }

    /// Replaces three pairs by one, as `merge_two` does two. Of the second and the third pair, one whose slot the search
    /// did not find leaves first. The cells that the call probes are those of `merge_three_walks`.
    pub fn merge_three(
        &mut self,
        gone: (ItemIndex, u64),
        other: (ItemIndex, u64),
        last: (ItemIndex, u64),
        found: &FoundByHash,
        meter: &mut Meter,
    )
        requires apart { (gone.0 ≢ other.0) × (gone.0 ≢ last.0) × (other.0 ≢ last.0) }
        requires gone { Contains self.old.pairs (gone.1, gone.0) }
        requires other { Contains self.old.pairs (other.1, other.0) }
        requires last { Contains self.old.pairs (last.1, last.0) }
        requires known { (found.now.slot ≡ Some other.0 → other.1 ≡ found.now.hash)
            × (found.now.slot ≡ Some last.0 → last.1 ≡ found.now.hash) }
        ensures replaced { ReplacesThree self.old.pairs self.new.pairs (gone.1, gone.0) (other.1, other.0)
            (last.1, last.0) (found.now.hash, gone.0) }
        ensures limit { self.new.limit ≡ self.old.limit }
        ensures costs { meter.new ≤ meter.old
            + merge_three_walks gone.1 found.now other.0 last.0 * (length self.old.pairs + 1) }
    {
        match found.hash_at(last.0) {
            Some(_) => {
                self.remove(other.1, other.0, meter);
                self.merge_two(gone, last, found, meter);
            }
            None => {
                self.remove(last.1, last.0, meter);
                self.merge_two(gone, other, found, meter);
            }
        }
    }
}
