//! Entries in order, and their places.
ghost use Rattle.std.specs.Prelude.{◌≡◌, ℕ, ◌+◌, ◌*◌, ◌-◌, ◌^◌, ◌<◌, ◌≤◌, [], length, slice_set, slice_index_or, slice_range, All, IsOk, IfOk, IfErr, OnOk, OnErr, IfSome, IfNone};
ghost use Rattle.std.specs.Borrow.{sem};
ghost use Rattle.std.specs.List.{insert, remove};
ghost use Rattle.iddqd_order.specs.Row.{line, entries_in, position, with_entry, IsPlace, HasEntry};
ghost use Rattle.iddqd_order.specs.Search.{IsSearchable, IsLastEqual, IsSplit};

use self::reserve::settle;
use crate::block::Block;
use crate::into_iter::IntoIter;
use crate::iter::Iter;
use crate::place::Place;
use crate::row::BlockRow;
use crate::search;
use crate::search::Compare;
use iddqd_store::Meter;
use std::alloc::{AllocError, Global};
use std::marker::Model;
use std::mem::size_of_val;

mod clone;
mod joins;
mod places;
mod reserve;
mod shifts;
mod splits;

/// Entries in order. Contracts see the blocks in which they stand; the list of the entries is their `line`.
///
/// A block has memory for 16 to 128 entries, as the maker of the blocks says, or as suits the size of the first entry (`suit`). While
/// there is but one, its memory doubles. An insert asks for a block where one is full, and as soon as there are two, for one that
/// stays spare. Below the capacity no insert needs memory: if
/// a block is full, no block is spare, and none is to be had, an entry moves to the block beside. If that is full too, entries of
/// thin blocks move together, so that one block is spare. If the blocks have less room than one block in all, one entry of each
/// block moves, up to the next one that is not full.
///
/// A reserve of many is one allocation, which is kept, and which nothing touches as long as the allocator grants blocks. If it
/// refuses one while all blocks are full, all entries move to the memory that is kept, as one block. When the blocks hold as
/// many as fit, it goes back.
#[derive(Drop)]
pub struct Blocks<E> {
    alloc: Global,
    row: BlockRow<E>,
    kept: Block<E>,
    count: usize,
    capacity: usize,
    // Whether the last insert went behind all entries, so that the next one may too. No result depends on it.
    appends: bool,
}

impl<E> Model for Blocks<E> {
    ghost use Rattle.iddqd_order.specs.Row.{BlocksValue, blocks_code, AreBlocks};

    ghost Value = { BlocksValue E };

    ghost coded = { blocks_code E.code };

    ghost view = { λ o. record { blocks = o.row.blocks; capacity = o.capacity } };

    ghost invariant = { λ o. AreBlocks o.row o.kept o.count o.capacity };
}

impl<E> Blocks<E> {
    ghost use Rattle.iddqd_order.specs.Lends.{lends_entry};

    /// Makes `Blocks` of no entries, with at most so many entries in a block. It allocates nothing.
    pub fn new(alloc: Global, most: usize) -> Blocks<E>
        requires low { 16 ≤ most }
        requires high { most ≤ 128 }
        ensures blocks { result.blocks ≡ [] }
        ensures capacity { result.capacity ≡ 0 }
    {
        Blocks {
            alloc,
            row: BlockRow::new(alloc, most),
            kept: Block::none(alloc),
            count: 0,
            capacity: 0,
            appends: true,
        }
    }

    /// Makes `Blocks` of no entries into which exactly `count` fit. If that is refused, all memory goes back.
    pub fn with_capacity(alloc: Global, most: usize, count: usize) -> Result<Blocks<E>, AllocError>
        requires low { 16 ≤ most }
        requires high { most ≤ 128 }
        ensures blocks { IfOk result (λ o. o.blocks ≡ []) }
        ensures capacity { IfOk result (λ o. o.capacity ≡ count) }
        ensures never_refused { count ≡ 0 → IsOk result }
    {
        let mut blocks = Blocks::new(alloc, most);
        if let Err(refused) = blocks.try_reserve(count) {
            blocks.free();
            return Err(refused);
        }
        blocks.capacity = count;
        Ok(blocks)
    }

    /// Gives the memory back. There must be no entries.
    pub fn free(self)
        requires { self.blocks ≡ [] }
    {
        let Blocks {
            alloc: _,
            row,
            kept,
            count: _,
            capacity: _,
            appends: _,
        } = self;
        kept.free();
        row.free();
    }

    /// Returns the allocator.
    pub fn allocator(&self) -> Global {
        self.alloc
    }

    /// Returns the number of entries.
    pub fn len(&self) -> usize
        ensures value { result ≡ length (entries_in self.now) }
        ensures fits { result ≤ self.now.capacity }
    {
        self.count
    }

    /// Returns how many entries fit.
    pub fn capacity(&self) -> usize
        ensures value { result ≡ self.now.capacity }
        ensures fits { length (entries_in self.now) ≤ result }
    {
        self.capacity
    }

    /// Chooses how many entries a block has at most, by the size of this entry: 128 up to 32 bytes, 64 up to 64 bytes, and else 32.
    /// Where there is memory already, nothing changes. The fewer entries a block has, the fewer bytes an insert moves, and the longer a
    /// search takes.
    pub fn suit(&mut self, entry: &E)
        ensures { self.new ≡ self.old }
    {
        // The prover takes `size_of` of a type parameter only as a factor of a product, and the size of an entry as any number.
        let size = size_of_val(entry);
        self.row.bound_by(if size <= 32 {
            128
        } else if size <= 64 {
            64
        } else {
            32
        });
    }

    /// Searches for what is sought. `Ok` has its place, and `Err` the place at which it would go.
    ///
    /// Among fewer than `4 ^ r` entries it compares at most `3 * r + 16` times.
    pub fn search<C: Compare<E>>(&self, sought: &C, meter: &mut Meter) -> Result<Place, Place>
        requires asks { All (C.MayAsk sought.now) (entries_in self.now) }
        requires ordered { IsSearchable (C.order sought.now) (entries_in self.now) }
        ensures entry { IfOk result (HasEntry self.now.blocks) }
        ensures found { IfOk result (λ p. IsLastEqual (C.order sought.now) (entries_in self.now) (position self.now.blocks p)) }
        ensures place { IfErr result (IsPlace self.now.blocks) }
        ensures gap { IfErr result (λ p. IsSplit (C.order sought.now) (entries_in self.now) (position self.now.blocks p) 0) }
        ensures fits { length (entries_in self.now) ≤ self.now.capacity }
        ensures asked { (r : ℕ) → length (entries_in self.now) < 4 ^ r → meter.new ≤ meter.old + (3 * r + 16) }
    {
        search::search(&self.row, sought, meter)
    }

    /// Searches as `search` does, for a place to insert at: if the last insert went behind all entries, it first looks whether this
    /// one does too (`behind_last`).
    ///
    /// Among fewer than `4 ^ r` entries it compares at most `3 * r + 17` times, and once if it finds that the place is behind all.
    pub fn search_last_first<C: Compare<E>>(
        &self,
        sought: &C,
        meter: &mut Meter,
    ) -> Result<Place, Place>
        requires asks { All (C.MayAsk sought.now) (entries_in self.now) }
        requires ordered { IsSearchable (C.order sought.now) (entries_in self.now) }
        ensures entry { IfOk result (HasEntry self.now.blocks) }
        ensures found { IfOk result (λ p. IsLastEqual (C.order sought.now) (entries_in self.now) (position self.now.blocks p)) }
        ensures place { IfErr result (IsPlace self.now.blocks) }
        ensures gap { IfErr result (λ p. IsSplit (C.order sought.now) (entries_in self.now) (position self.now.blocks p) 0) }
        ensures fits { length (entries_in self.now) ≤ self.now.capacity }
        ensures asked { (r : ℕ) → length (entries_in self.now) < 4 ^ r → meter.new ≤ meter.old + (3 * r + 17) }
    {
        if self.appends {
            if let Some(place) = self.behind_last(sought, meter) {
                return Err(place);
            }
        }
        search::search(&self.row, sought, meter)
    }

    /// Returns the place behind all entries, if there are some and the last one is lower than what is sought.
    ///
    /// It compares once at most.
    #[inline(always)]
    pub fn behind_last<C: Compare<E>>(&self, sought: &C, meter: &mut Meter) -> Option<Place>
        requires asks { All (C.MayAsk sought.now) (entries_in self.now) }
        requires ordered { IsSearchable (C.order sought.now) (entries_in self.now) }
        ensures place { IfSome result (IsPlace self.now.blocks) }
        ensures gap { IfSome result (λ p. IsSplit (C.order sought.now) (entries_in self.now) (position self.now.blocks p) 0) }
        // Where it returns none, there are no entries, or their end is not the place of what is sought.
        ensures none { IfNone result (0 < length (entries_in self.now)
            → IsSplit (C.order sought.now) (entries_in self.now) (length (entries_in self.now)) 0 → ⊥) }
        ensures asked { meter.new ≤ meter.old + 1 }
    {
        search::behind_last(&self.row, sought, meter)
    }

    /// Returns the entry at this place.
    pub fn entry_in(&self, place: Place) -> &E
        requires { HasEntry self.now.blocks place }
        ensures value { (d : E) → result.now ≡ slice_index_or (entries_in self.now) (position self.now.blocks place) d }
        ensures within { position self.now.blocks place < length (entries_in self.now) }
    {
        self.row.entry_in(place)
    }

    /// Returns the entry at this place, or `None` if none stands there.
    pub fn entry_if(&self, place: Place) -> Option<&E>
        ensures entry { IfSome result (λ _. HasEntry self.now.blocks place) }
        ensures value { IfSome result (λ e. (d : E) → e.now ≡ slice_index_or (entries_in self.now) (position self.now.blocks place) d) }
        ensures none { IfNone result (HasEntry self.now.blocks place → ⊥) }
    {
        if place.block < self.row.len() && place.offset < self.row.len_at(place.block) {
            return Some(self.entry_in(place));
        }
        None
    }

    /// Inserts an entry before this place, and returns its place. It has to fit.
    ///
    /// If a block is full and none is spare, it asks for one. If that is refused, entries move, as in `insert_within`. As soon as there is
    /// more than one block, it also sees to it that one is spare, unless that memory is refused: so `insert_within`, which asks
    /// for no memory, moves few entries while the number of entries stays. Otherwise it asks for no memory.
    pub fn insert(&mut self, place: Place, entry: E) -> Place
        requires place { IsPlace self.old.blocks place }
        requires room { length (entries_in self.old) < self.old.capacity }
        ensures entries { entries_in self.new ≡ insert (entries_in self.old) (position self.old.blocks place) entry }
        ensures capacity { self.new.capacity ≡ self.old.capacity }
        ensures entry { HasEntry self.new.blocks result }
        ensures at { position self.new.blocks result ≡ position self.old.blocks place }
    {
        self.appends = is_end(&self.row, place);
        let place = splits::insert(
            &mut self.row,
            &mut self.kept,
            self.capacity,
            self.alloc,
            true,
            place,
            entry,
        );
        self.count += 1;
        splits::keep_spare(&mut self.row, self.alloc);
        place
    }

    /// Inserts as `insert` does, into the memory that there is: it asks for none. If a block is full and none is spare, entries
    /// move: one to the block beside, or those of thin blocks together, or one of each block up to the next one that is not full, or
    /// if all are full, all of them to the memory that is kept.
    pub fn insert_within(&mut self, place: Place, entry: E) -> Place
        requires place { IsPlace self.old.blocks place }
        requires room { length (entries_in self.old) < self.old.capacity }
        ensures entries { entries_in self.new ≡ insert (entries_in self.old) (position self.old.blocks place) entry }
        ensures capacity { self.new.capacity ≡ self.old.capacity }
        ensures entry { HasEntry self.new.blocks result }
        ensures at { position self.new.blocks result ≡ position self.old.blocks place }
    {
        self.appends = is_end(&self.row, place);
        let place = splits::insert(
            &mut self.row,
            &mut self.kept,
            self.capacity,
            self.alloc,
            false,
            place,
            entry,
        );
        self.count += 1;
        place
    }

    /// Removes the entry at this place. Returns it, and the place of the entry that followed it, or an end. The memory stays.
    pub fn remove(&mut self, place: Place) -> (E, Place)
        requires { HasEntry self.old.blocks place }
        ensures value { (d : E) → result.0 ≡ slice_index_or (entries_in self.old) (position self.old.blocks place) d }
        ensures within { position self.old.blocks place < length (entries_in self.old) }
        ensures rest { entries_in self.new ≡ remove (entries_in self.old) (position self.old.blocks place) }
        ensures capacity { self.new.capacity ≡ self.old.capacity }
        ensures place { IsPlace self.new.blocks result.1 }
        ensures index { position self.new.blocks result.1 ≡ position self.old.blocks place }
    {
        let entry = self.row.remove(place);
        let place = joins::close_up(&mut self.row, place);
        self.count -= 1;
        (entry, place)
    }

    /// Puts an entry in the place of the one at this place, and returns the latter.
    pub fn replace(&mut self, place: Place, entry: E) -> E
        requires { HasEntry self.old.blocks place }
        ensures value { (d : E) → result ≡ slice_index_or (entries_in self.old) (position self.old.blocks place) d }
        ensures replaced { self.new ≡ with_entry self.old place entry }
        ensures entries { entries_in self.new ≡ slice_set (entries_in self.old) (position self.old.blocks place) entry }
        ensures entry { HasEntry self.new.blocks place }
        ensures at { position self.new.blocks place ≡ position self.old.blocks place }
    {
        self.row.replace(place, entry)
    }

    /// Returns the entry at this place, borrowed for writing. What is written through the reference stands there then.
    pub fn entry_mut(&mut self, place: Place) -> &mut E
        requires { HasEntry self.old.blocks place }
        ensures value { (d : E) → result.now ≡ slice_index_or (entries_in self.old) (position self.old.blocks place) d }
        ensures within { position self.old.blocks place < length (entries_in self.old) }
        ensures written { (e : E) → entries_in (with_entry self.old place e)
            ≡ slice_set (entries_in self.old) (position self.old.blocks place) e }
        ensures* writes_back { sem 𝓛 (lends_entry E.row self.entry place result) }
    {
        self.row.entry_mut(place)
    }

    /// Drops all entries. The capacity stays, and the memory that it needs. The rest goes back.
    pub fn clear(&mut self)
    where
        E: Drop,
        ensures none { entries_in self.new ≡ [] }
        ensures capacity { self.new.capacity ≡ self.old.capacity }
    {
        self.row.clear();
        self.count = 0;
        settle(&mut self.row, &mut self.kept, self.capacity);
    }

    /// Iterates over the entries, in order.
    pub fn iter(&self) -> Iter<'_, E>
        ensures gives { result ≡ entries_in self.now }
        ensures countable { length (entries_in self.now) < 2 ^ 64 }
    {
        Iter::all(&self.row, self.count)
    }

    /// Iterates over the entries by value, in order.
    pub fn into_iter(self) -> IntoIter<E>
        ensures gives { result ≡ entries_in self }
        ensures countable { length (entries_in self) < 2 ^ 64 }
    {
        let Blocks {
            alloc,
            row,
            kept,
            count,
            capacity: _,
            appends: _,
        } = self;
        kept.free();
        IntoIter::new(alloc, row.into_blocks(), count)
    }

    /// Iterates over the entries from one place up to another. There are none if the second one comes first.
    pub fn range(&self, from: Place, to: Place) -> Iter<'_, E>
        requires from { IsPlace self.now.blocks from }
        requires to { IsPlace self.now.blocks to }
        ensures { result ≡ slice_range (entries_in self.now) (position self.now.blocks from) (position self.now.blocks to) }
    {
        Iter::part(&self.row, self.count, from, to)
    }
}

/// Returns whether a place is behind all entries.
#[inline(always)]
fn is_end<E>(row: &BlockRow<E>, place: Place) -> bool {
    let blocks = row.len();
    if place.block < blocks {
        return place.block == blocks - 1 && row.len_at(place.block) <= place.offset;
    }
    true
}
