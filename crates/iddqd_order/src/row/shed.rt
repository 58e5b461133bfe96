//! Memory that a row gives back.
ghost use Rattle.std.specs.Prelude.{◌≡◌, ◌+◌, ◌*◌, ◌<◌, ◌≤◌, [], length, All, IsTrue, IfSome, IfNone};
ghost use Rattle.iddqd_order.specs.Row.{line, entry_lists};

use super::BlockRow;
use crate::block::Block;
use std::alloc::Global;
use std::mem::replace;

/// Returns whether so many blocks with so much memory each hold so many entries.
fn holds(memory: usize, blocks: usize, entries: usize) -> bool
    ensures { IsTrue result → entries ≤ memory * blocks }
{
    match memory.checked_mul(blocks) {
        Some(all) => entries <= all,
        None => false,
    }
}

impl<E> BlockRow<E> {
    /// Makes all blocks spare, and drops their entries.
    pub(crate) fn clear(&mut self)
    where
        E: Drop,
        ensures blocks { self.new.blocks ≡ [] }
        ensures spare { self.new.spare ≡ length self.old.blocks + self.old.spare }
        ensures memory { self.new.memory ≡ self.old.memory }
        ensures most { self.new.most ≡ self.old.most }
    {
        let mut left = self.blocks.len();
        while 0 < left {
            self.retire();
            left -= 1;
        }
    }

    /// Makes the last block spare, and drops its entries.
    fn retire(&mut self)
    where
        E: Drop,
        requires { 0 < length self.old.blocks }
        ensures blocks { length self.new.blocks + 1 ≡ length self.old.blocks }
        ensures spare { self.new.spare ≡ self.old.spare + 1 }
        ensures memory { self.new.memory ≡ self.old.memory }
        ensures most { self.new.most ≡ self.old.most }
    {
        let mut block = self.blocks.take_last();
        block.clear();
        self.spare.push_reserved(block);
    }

    /// Gives all memory back that so many entries do not need: spare blocks, the room of the rows for blocks that are gone, and
    /// of the only block, if there is but one, the memory for more entries. The entries in the row stay where they are.
    pub(crate) fn shed_to(&mut self, entries: usize)
        requires held { entries ≤ self.old.memory * (length self.old.blocks + self.old.spare) }
        requires fits { length (line self.old.blocks) ≤ entries }
        ensures blocks { self.new.blocks ≡ self.old.blocks }
        ensures held { entries ≤ self.new.memory * (length self.new.blocks + self.new.spare) }
    {
        while 0 < self.spare() && holds(self.memory, self.total() - 1, entries) {
            self.free_one();
        }
        self.trim();
        if self.total() == 1 && entries.max(4) < self.memory {
            self.narrow(entries.max(4));
        }
        self.heal();
    }

    /// If the only block may be wide, but has memory for no more entries than one that is not, it may not be wide any more.
    fn heal(&mut self)
        ensures blocks { self.new.blocks ≡ self.old.blocks }
        ensures spare { self.new.spare ≡ self.old.spare }
        ensures memory { self.new.memory ≡ self.old.memory }
    {
        let usual = self.usual();
        if 128 < self.most && self.memory <= usual {
            self.most = usual;
        }
    }

    /// Has at most so many entries in a block from now on. Where there is memory already, nothing changes.
    pub(crate) fn bound_by(&mut self, most: usize)
        requires low { 16 ≤ most }
        ensures blocks { self.new.blocks ≡ self.old.blocks }
        ensures spare { self.new.spare ≡ self.old.spare }
        ensures memory { self.new.memory ≡ self.old.memory }
    {
        if self.memory == 0 && self.total() == 0 {
            self.bound = most;
            self.most = most;
        }
    }

    /// Returns how many entries a block has at most, unless all are in one wide block.
    pub(crate) fn usual(&self) -> usize
        ensures low { 16 ≤ result }
        ensures high { result ≤ 128 }
    {
        self.bound.min(128).max(16)
    }

    /// Gets a block that is not wide, in place of the only one, which is spare. Returns the latter, or `None` if there is no memory, and
    /// then nothing has changed.
    pub(crate) fn exchange(&mut self, alloc: Global) -> Option<Block<E>>
        requires none { self.old.blocks ≡ [] }
        requires one { self.old.spare ≡ 1 }
        ensures blocks { self.new.blocks ≡ [] }
        ensures memory { IfSome result (λ _. 0 < self.new.memory * (length self.new.blocks + self.new.spare)) }
        ensures unused { IfSome result (λ wide. wide.entries ≡ []) }
        ensures room { IfSome result (λ wide. self.old.memory ≤ wide.room) }
        ensures unchanged { IfNone result (self.new ≡ self.old) }
    {
        let usual = self.usual();
        let Ok(block) = Block::new(alloc, usual) else {
            return None;
        };
        let wide = replace(&mut self.spare[0], block);
        self.memory = usual;
        self.most = usual;
        Some(wide)
    }

    /// Gives the room of the rows for blocks that are gone back.
    pub(crate) fn trim(&mut self)
        ensures blocks { self.new.blocks ≡ self.old.blocks }
        ensures spare { self.new.spare ≡ self.old.spare }
        ensures most { self.new.most ≡ self.old.most }
        ensures memory { 0 < length self.old.blocks + self.old.spare → self.new.memory ≡ self.old.memory }
    {
        let total = self.total();
        self.blocks.shrink_to(total);
        self.spare.shrink_to(total);
        if total == 0 {
            self.memory = 0;
        }
    }

    /// Gives memory of the only block back, in the row or spare: it is for so many entries then.
    fn narrow(&mut self, memory: usize)
        requires one { length self.old.blocks + self.old.spare ≡ 1 }
        requires least { 4 ≤ memory }
        requires less { memory < self.old.memory }
        requires fits { length (line self.old.blocks) ≤ memory }
        ensures blocks { self.new.blocks ≡ self.old.blocks }
        ensures spare { self.new.spare ≡ self.old.spare }
        ensures most { self.new.most ≡ self.old.most }
        ensures memory { self.new.memory ≡ memory }
    {
        if self.blocks.len() != 0 {
            let block = &mut self.blocks[0];
            block.shrink(memory);
        } else {
            let block = &mut self.spare[0];
            block.shrink(memory);
        }
        self.memory = memory;
    }

    /// Gives a spare block back.
    fn free_one(&mut self)
        requires { 0 < self.old.spare }
        ensures blocks { self.new.blocks ≡ self.old.blocks }
        ensures memory { self.new.memory ≡ self.old.memory }
        ensures most { self.new.most ≡ self.old.most }
        ensures spare { self.new.spare + 1 ≡ self.old.spare }
    {
        let block = self.spare.take_last();
        block.free();
    }

    /// Gives all spare blocks back.
    pub(super) fn shed(&mut self)
        ensures blocks { self.new.blocks ≡ self.old.blocks }
        ensures spare { self.new.spare ≡ 0 }
    {
        while 0 < self.spare() {
            self.free_one();
        }
    }

    /// Gives all memory of a row with no block back.
    pub(crate) fn free(mut self)
        requires { self.blocks ≡ [] }
    {
        self.shed();
        let BlockRow {
            blocks,
            spare,
            memory: _,
            most: _,
            bound: _,
            thin: _,
        } = self;
        blocks.destroy_empty();
        spare.destroy_empty();
    }

    /// Returns the blocks of the row. The spare ones go back.
    pub(crate) fn into_blocks(mut self) -> Vec<Block<E>>
        ensures value { entry_lists result.items ≡ self.blocks }
        ensures filled { All (λ b. 0 < length b.entries) result.items }
    {
        self.shed();
        let BlockRow {
            blocks,
            spare,
            memory: _,
            most: _,
            bound: _,
            thin: _,
        } = self;
        spare.destroy_empty();
        blocks
    }
}
