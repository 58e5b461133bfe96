//! The blocks of a row, with spare ones.
ghost use Rattle.std.specs.Prelude.{◌≡◌, ℕ, ◌+◌, ◌-◌, ◌<◌, ◌≤◌, ◌++◌, [], ◌∷◌, All, length, take, drop, slice_range, slice_set, slice_index_or, OnOk, OnErr, IsTrue};
ghost use Rattle.std.specs.Borrow.{sem};
ghost use Rattle.std.specs.List.{insert, remove};
ghost use Rattle.iddqd_order.specs.Row.{line, block_at, position, entry_lists, put_in, IsRow, HasEntry, IsPlace, IsMoved};

use crate::block::Block;
use crate::place::Place;
use std::alloc::{AllocError, Global};
use std::marker::Model;
use std::mem::replace;

mod clone;
mod gather;
mod shed;
mod stock;

/// A row of blocks, none of which is empty, and spare blocks, which are. All memory that a change of the row needs is in the
/// spare blocks, so only `reach`, `stock` and `make` ask for any.
#[derive(Drop)]
pub(crate) struct BlockRow<E> {
    blocks: Vec<Block<E>>,
    spare: Vec<Block<E>>,
    memory: usize,
    most: usize,
    // How many entries a block has at most while there is no wide one, which has more than 128.
    bound: usize,
    // Where the last search for thin blocks ended. The next one begins there, and no contract speaks of it.
    thin: usize,
}

impl<E> Model for BlockRow<E> {
    ghost use Rattle.std.specs.Prelude.{length, vec_capacity};
    ghost use Rattle.iddqd_order.specs.Row.{RowValue, row_code, entry_lists, IsStocked};

    ghost Value = { RowValue E };

    ghost coded = { row_code E.code };

    ghost view = { λ r. record { blocks = entry_lists r.blocks.items; spare = length r.spare.items; memory = r.memory; most = r.most } };

    ghost invariant = { λ r. IsStocked r.blocks.items r.spare.items r.memory r.most (vec_capacity r.blocks) (vec_capacity r.spare) };
}

impl<E> BlockRow<E> {
    ghost use Rattle.iddqd_order.specs.Lends.{lends_in_row};

    /// Makes a row of no blocks. It allocates nothing.
    pub(crate) fn new(alloc: Global, most: usize) -> BlockRow<E>
        requires low { 16 ≤ most }
        requires high { most ≤ 128 }
        ensures blocks { result.blocks ≡ [] }
        ensures spare { result.spare ≡ 0 }
        ensures memory { result.memory ≡ 0 }
    {
        BlockRow {
            blocks: Vec::new(alloc),
            spare: Vec::new(alloc),
            memory: 0,
            most,
            bound: most,
            thin: 0,
        }
    }

    /// Returns the number of blocks in the row.
    pub(crate) fn len(&self) -> usize
        ensures value { result ≡ length self.now.blocks }
        ensures filled { IsRow self.now.memory self.now.blocks }
        ensures many { 0 < length self.now.blocks → 4 ≤ self.now.memory }
        ensures most { 1 < length self.now.blocks → self.now.memory ≤ 128 }
    {
        self.blocks.len()
    }

    /// Returns all blocks.
    pub(crate) fn blocks(&self) -> &[Block<E>]
        ensures value { entry_lists result.now ≡ self.now.blocks }
        ensures filled { All (λ b. 0 < length b.entries) result.now }
    {
        self.blocks.as_slice()
    }

    /// Returns the blocks from one up to another.
    pub(crate) fn between(&self, from: usize, to: usize) -> &[Block<E>]
        requires from { from ≤ to }
        requires to { to ≤ length self.now.blocks }
        ensures value { entry_lists result.now ≡ slice_range self.now.blocks from to }
        ensures filled { All (λ b. 0 < length b.entries) result.now }
    {
        &self.blocks[from..to]
    }

    /// Returns the number of spare blocks.
    pub(crate) fn spare(&self) -> usize
        ensures { result ≡ self.now.spare }
    {
        self.spare.len()
    }

    /// Returns the number of entries for which each block has memory.
    pub(crate) fn memory(&self) -> usize
        ensures { result ≡ self.now.memory }
    {
        self.memory
    }

    /// Returns the entries of this block.
    pub(crate) fn entries_of(&self, at: usize) -> &[E]
        requires { at < length self.now.blocks }
        ensures value { result.now ≡ block_at self.now.blocks at }
        ensures most { 1 < length self.now.blocks → length result.now ≤ 128 }
        ensures some { 0 < length result.now }
    {
        self.blocks[at].entries()
    }

    /// Returns the entry at this place.
    pub(crate) fn entry_in(&self, place: Place) -> &E
        requires { HasEntry self.now.blocks place }
        ensures { result.now ≡ slice_index_or (block_at self.now.blocks place.block) place.offset result.now }
    {
        &self.entries_of(place.block)[place.offset]
    }

    /// Returns the first entry of this block.
    pub(crate) fn first_of(&self, at: usize) -> &E
        requires { at < length self.now.blocks }
        ensures value { result.now ≡ slice_index_or (block_at self.now.blocks at) 0 result.now }
        ensures some { 0 < length (block_at self.now.blocks at) }
    {
        &self.entries_of(at)[0]
    }

    /// Returns the number of entries of this block.
    pub(crate) fn len_at(&self, at: usize) -> usize
        requires { at < length self.now.blocks }
        ensures value { result ≡ length (block_at self.now.blocks at) }
        ensures some { 0 < result }
        ensures most { result ≤ self.now.memory }
    {
        self.blocks[at].len()
    }

    /// Returns the number of the block at which a search for thin blocks begins. There may be no such block any more.
    pub(crate) fn thin(&self) -> usize {
        self.thin
    }

    /// Has the next search for thin blocks begin at this block.
    pub(crate) fn begin_at(&mut self, thin: usize)
        ensures { self.new ≡ self.old }
    {
        self.thin = thin;
    }

    /// Inserts an entry before this offset of this block.
    pub(crate) fn insert(&mut self, at: usize, offset: usize, entry: E)
        requires block { at < length self.old.blocks }
        requires offset { offset ≤ length (block_at self.old.blocks at) }
        requires room { length (block_at self.old.blocks at) < self.old.memory }
        ensures blocks { self.new.blocks ≡ slice_set self.old.blocks at (insert (block_at self.old.blocks at) offset entry) }
        ensures spare { self.new.spare ≡ self.old.spare }
        ensures memory { self.new.memory ≡ self.old.memory }
        ensures most { self.new.most ≡ self.old.most }
    {
        let block = &mut self.blocks[at];
        block.insert(offset, entry);
    }

    /// Takes a spare block as the first one, for this entry.
    pub(crate) fn start(&mut self, entry: E)
        requires none { self.old.blocks ≡ [] }
        requires some { 0 < self.old.spare }
        requires memory { 0 < self.old.memory }
        ensures blocks { self.new.blocks ≡ (entry ∷ []) ∷ [] }
        ensures spare { self.new.spare + 1 ≡ self.old.spare }
        ensures memory { self.new.memory ≡ self.old.memory }
        ensures most { self.new.most ≡ self.old.most }
    {
        let mut block = self.spare.take_last();
        block.push(entry);
        self.blocks.push_reserved(block);
    }

    /// Removes the entry at this place, and returns it. A block that is empty then becomes spare. The place is then that of the
    /// entry that followed, or an end.
    pub(crate) fn remove(&mut self, place: Place) -> E
        requires { HasEntry self.old.blocks place }
        ensures value { result ≡ slice_index_or (line self.old.blocks) (position self.old.blocks place) result }
        ensures rest { line self.new.blocks ≡ remove (line self.old.blocks) (position self.old.blocks place) }
        ensures total { length self.new.blocks + self.new.spare ≡ length self.old.blocks + self.old.spare }
        ensures memory { self.new.memory ≡ self.old.memory }
        ensures most { self.new.most ≡ self.old.most }
        ensures place { IsPlace self.new.blocks place }
        ensures same { position self.new.blocks place ≡ position self.old.blocks place }
    {
        if self.len_at(place.block) == 1 {
            return self.remove_block(place.block);
        }
        self.remove_from(place)
    }

    /// Removes the entry at this place, which is not the only one of its block, and returns it.
    fn remove_from(&mut self, place: Place) -> E
        requires block { place.block < length self.old.blocks }
        requires offset { place.offset < length (block_at self.old.blocks place.block) }
        requires many { 2 ≤ length (block_at self.old.blocks place.block) }
        ensures value { result ≡ slice_index_or (block_at self.old.blocks place.block) place.offset result }
        ensures blocks { self.new.blocks
            ≡ slice_set self.old.blocks place.block (remove (block_at self.old.blocks place.block) place.offset) }
        ensures spare { self.new.spare ≡ self.old.spare }
        ensures memory { self.new.memory ≡ self.old.memory }
        ensures most { self.new.most ≡ self.old.most }
    {
        let block = &mut self.blocks[place.block];
        block.remove(place.offset)
    }

    /// Removes the only entry of this block, and returns it. The block becomes spare.
    fn remove_block(&mut self, at: usize) -> E
        requires block { at < length self.old.blocks }
        requires one { length (block_at self.old.blocks at) ≡ 1 }
        ensures value { block_at self.old.blocks at ≡ result ∷ [] }
        ensures blocks { self.new.blocks ≡ remove self.old.blocks at }
        ensures spare { self.new.spare ≡ self.old.spare + 1 }
        ensures memory { self.new.memory ≡ self.old.memory }
        ensures most { self.new.most ≡ self.old.most }
    {
        let mut block = self.blocks.remove(at);
        let entry = block.take_last();
        self.spare.push_reserved(block);
        entry
    }

    /// Puts an entry in the place of the one at this place, and returns the latter.
    pub(crate) fn replace(&mut self, place: Place, entry: E) -> E
        requires { HasEntry self.old.blocks place }
        ensures value { result ≡ slice_index_or (block_at self.old.blocks place.block) place.offset result }
        ensures replaced { self.new.blocks ≡ put_in self.old.blocks place entry }
        ensures spare { self.new.spare ≡ self.old.spare }
        ensures memory { self.new.memory ≡ self.old.memory }
        ensures most { self.new.most ≡ self.old.most }
    {
        let block = &mut self.blocks[place.block];
        block.replace(place.offset, entry)
    }

    /// Returns the entry at this place, borrowed for writing.
    pub(crate) fn entry_mut(&mut self, place: Place) -> &mut E
        requires { HasEntry self.old.blocks place }
        ensures value { result.now ≡ slice_index_or (block_at self.old.blocks place.block) place.offset result.now }
        ensures* writes_back { sem 𝓛 (lends_in_row E.row self.entry place result) }
    {
        self.blocks[place.block].entry_mut(place.offset)
    }

    /// Splits a block at this offset, with a spare block for its tail.
    pub(crate) fn split(&mut self, at: usize, offset: usize)
        requires within { at < length self.old.blocks }
        requires some { 0 < offset }
        requires offset { offset < length (block_at self.old.blocks at) }
        requires spare { 0 < self.old.spare }
        ensures blocks { self.new.blocks
            ≡ insert (slice_set self.old.blocks at (take offset (block_at self.old.blocks at))) (at + 1)
            (drop offset (block_at self.old.blocks at)) }
        ensures spare { self.new.spare + 1 ≡ self.old.spare }
        ensures memory { self.new.memory ≡ self.old.memory }
        ensures most { self.new.most ≡ self.old.most }
    {
        let mut tail = self.spare.take_last();
        let head = &mut self.blocks[at];
        head.split_into(offset, &mut tail);
        match self.blocks.insert(at + 1, tail) {
            Ok(()) => {}
            Err(_) => unreachable!(),
        }
    }

    /// Moves the last entry of this block to the front of the next one.
    pub(crate) fn pass_up(&mut self, at: usize)
        requires within { at + 1 < length self.old.blocks }
        requires many { 2 ≤ length (block_at self.old.blocks at) }
        requires room { length (block_at self.old.blocks (at + 1)) < self.old.memory }
        ensures moved { IsMoved self.old.blocks self.new.blocks at (length (block_at self.old.blocks at) - 1)
            (length (block_at self.old.blocks (at + 1)) + 1) }
        ensures spare { self.new.spare ≡ self.old.spare }
        ensures memory { self.new.memory ≡ self.old.memory }
        ensures most { self.new.most ≡ self.old.most }
    {
        let block = &mut self.blocks[at];
        let entry = block.take_last();
        let next = &mut self.blocks[at + 1];
        next.insert(0, entry);
    }

    /// Moves the first entry of the next block to the end of this one.
    pub(crate) fn pass_down(&mut self, at: usize)
        requires within { at + 1 < length self.old.blocks }
        requires many { 2 ≤ length (block_at self.old.blocks (at + 1)) }
        requires room { length (block_at self.old.blocks at) < self.old.memory }
        ensures moved { IsMoved self.old.blocks self.new.blocks at (length (block_at self.old.blocks at) + 1)
            (length (block_at self.old.blocks (at + 1)) - 1) }
        ensures spare { self.new.spare ≡ self.old.spare }
        ensures memory { self.new.memory ≡ self.old.memory }
        ensures most { self.new.most ≡ self.old.most }
    {
        let next = &mut self.blocks[at + 1];
        let entry = next.remove(0);
        let block = &mut self.blocks[at];
        block.push(entry);
    }

    /// Moves so many entries from the front of the next block to the end of this one.
    pub(crate) fn pull(&mut self, at: usize, count: usize)
        requires within { at + 1 < length self.old.blocks }
        requires many { count < length (block_at self.old.blocks (at + 1)) }
        requires room { length (block_at self.old.blocks at) + count ≤ self.old.memory }
        ensures moved { IsMoved self.old.blocks self.new.blocks at (length (block_at self.old.blocks at) + count)
            (length (block_at self.old.blocks (at + 1)) - count) }
        ensures spare { self.new.spare ≡ self.old.spare }
        ensures memory { self.new.memory ≡ self.old.memory }
        ensures most { self.new.most ≡ self.old.most }
    {
        // Two blocks of one list are not borrowed at once.
        let none = Block::none(*self.blocks.allocator());
        let mut next = replace(&mut self.blocks[at + 1], none);
        let block = &mut self.blocks[at];
        block.pull(&mut next, count);
        let none = replace(&mut self.blocks[at + 1], next);
        none.free();
    }

    /// Moves the entries of the next block to the end of this one. The next block becomes spare.
    pub(crate) fn join(&mut self, at: usize)
        requires within { at + 1 < length self.old.blocks }
        requires fits { length (block_at self.old.blocks at) + length (block_at self.old.blocks (at + 1)) ≤ self.old.memory }
        ensures blocks { self.new.blocks
            ≡ slice_set (remove self.old.blocks (at + 1)) at
            (block_at self.old.blocks at ++ block_at self.old.blocks (at + 1)) }
        ensures spare { self.new.spare ≡ self.old.spare + 1 }
        ensures memory { self.new.memory ≡ self.old.memory }
        ensures most { self.new.most ≡ self.old.most }
    {
        let mut next = self.blocks.remove(at + 1);
        let block = &mut self.blocks[at];
        block.append(&mut next);
        self.spare.push_reserved(next);
    }
}
