//! Memory for a row: wider blocks, and spare ones.
ghost use Rattle.std.specs.Prelude.{◌≡◌, ◌+◌, ◌-◌, ◌*◌, ◌^◌, min, ◌<◌, ◌≤◌, ◌++◌, [], length, All, IfOk, OnOk, OnErr, vec_capacity};
ghost use Rattle.iddqd_order.specs.Row.{IsSpare};

use super::BlockRow;
use crate::block::Block;
use std::alloc::{AllocError, Global};
use std::mem::replace;

/// Gives empty blocks back, and the list that has them.
fn free_all<E>(mut spare: Vec<Block<E>>, memory: usize)
    requires { All (IsSpare memory) spare.items }
{
    while 0 < spare.len() {
        let block = spare.take_last();
        block.free();
    }
    spare.destroy_empty();
}

/// Makes empty blocks until the list has `count` of them.
fn fill<E>(
    spare: &mut Vec<Block<E>>,
    alloc: Global,
    memory: usize,
    count: usize,
) -> Result<(), AllocError>
    requires none { spare.old.items ≡ [] }
    requires room { count ≤ vec_capacity spare.old }
    ensures unused { All (IsSpare memory) spare.new.items }
    ensures count { OnOk result (length spare.new.items ≡ count) }
    ensures room { vec_capacity spare.new ≡ vec_capacity spare.old }
{
    while spare.len() < count {
        let block = Block::new(alloc, memory)?;
        spare.push_reserved(block);
    }
    Ok(())
}

/// Makes a list of `count` empty blocks with memory for so many entries each. The list has room for `room` blocks. If any
/// part is refused, all goes back.
fn spares<E>(
    alloc: Global,
    memory: usize,
    count: usize,
    room: usize,
) -> Result<Vec<Block<E>>, AllocError>
    requires { count ≤ room }
    ensures unused { IfOk result (λ spare. All (IsSpare memory) spare.items) }
    ensures count { IfOk result (λ spare. length spare.items ≡ count) }
    ensures room { IfOk result (λ spare. vec_capacity spare ≡ room) }
{
    let mut spare = Vec::with_capacity(alloc, room)?;
    if let Err(refused) = fill(&mut spare, alloc, memory, count) {
        free_all(spare, memory);
        return Err(refused);
    }
    Ok(spare)
}

impl<E> BlockRow<E> {
    /// Returns the number of all blocks, with the spare ones.
    pub(crate) fn total(&self) -> usize
        ensures { result ≡ length self.now.blocks + self.now.spare }
    {
        self.blocks.len() + self.spare.len()
    }

    /// Returns the number of entries for which all blocks have memory, as far as a `usize` can count it.
    pub(crate) fn room(&self) -> usize
        ensures { result ≡ min (self.now.memory * (length self.now.blocks + self.now.spare)) (2 ^ 64 - 1) }
    {
        self.memory.saturating_mul(self.total())
    }

    /// Returns the number of entries that a block has at most.
    pub(crate) fn most(&self) -> usize
        ensures value { result ≡ self.now.most }
        ensures low { 16 ≤ result }
        ensures high { 128 < result → length self.now.blocks + self.now.spare ≤ 1 }
        ensures memory { self.now.memory ≤ result }
        ensures least { 0 < self.now.memory → 4 ≤ self.now.memory }
        ensures few { self.now.memory < result → length self.now.blocks + self.now.spare ≤ 1 }
    {
        self.most
    }

    /// Gets memory for so many entries in the block that there is, in the row or spare. After an error nothing has changed.
    fn widen(&mut self, memory: usize) -> Result<(), AllocError>
        requires more { self.old.memory < memory }
        requires least { 4 ≤ memory }
        requires most { memory ≤ self.old.most }
        ensures blocks { self.new.blocks ≡ self.old.blocks }
        ensures spare { self.new.spare ≡ self.old.spare }
        ensures most { self.new.most ≡ self.old.most }
        ensures memory { OnOk result (self.new.memory ≡ memory) }
        ensures unchanged { OnErr result (self.new ≡ self.old) }
    {
        if self.blocks.len() != 0 {
            let block = &mut self.blocks[0];
            block.grow(memory)?;
        }
        if self.spare.len() != 0 {
            let block = &mut self.spare[0];
            block.grow(memory)?;
        }
        self.memory = memory;
        Ok(())
    }

    /// Gets memory for so many entries in each block, and spare blocks until there are `total` blocks in all. The rows then have
    /// room for `room` blocks. All that is new is made beside the old. So after an error nothing has changed.
    pub(crate) fn stock(
        &mut self,
        alloc: Global,
        memory: usize,
        total: usize,
        room: usize,
    ) -> Result<(), AllocError>
        requires no_less { self.old.memory ≤ memory }
        requires least { 4 ≤ memory }
        requires most { memory ≤ self.old.most }
        requires few { memory < self.old.most → total ≤ 1 }
        requires wide { 128 < self.old.most → total ≤ 1 }
        requires more { length self.old.blocks + self.old.spare < total }
        requires room { total ≤ room }
        ensures blocks { self.new.blocks ≡ self.old.blocks }
        ensures most { self.new.most ≡ self.old.most }
        ensures memory { OnOk result (self.new.memory ≡ memory) }
        ensures total { OnOk result (length self.new.blocks + self.new.spare ≡ total) }
        ensures unchanged { OnErr result (self.new ≡ self.old) }
    {
        let blocks = Vec::with_capacity(alloc, room)?;
        let spare = match spares(alloc, memory, total - self.total(), room) {
            Ok(spare) => spare,
            Err(refused) => {
                blocks.destroy_empty();
                return Err(refused);
            }
        };
        if let Err(refused) = self.reach(memory) {
            blocks.destroy_empty();
            free_all(spare, memory);
            return Err(refused);
        }
        self.take_over(blocks, spare);
        Ok(())
    }

    /// Gets memory for so many entries in the block that there is, if there is less. After an error nothing has changed.
    pub(crate) fn reach(&mut self, memory: usize) -> Result<(), AllocError>
        requires no_less { self.old.memory ≤ memory }
        requires least { 4 ≤ memory }
        requires most { memory ≤ self.old.most }
        ensures blocks { self.new.blocks ≡ self.old.blocks }
        ensures spare { self.new.spare ≡ self.old.spare }
        ensures most { self.new.most ≡ self.old.most }
        ensures memory { OnOk result (self.new.memory ≡ memory) }
        ensures unchanged { OnErr result (self.new ≡ self.old) }
    {
        if memory <= self.memory {
            return Ok(());
        }
        self.widen(memory)
    }

    /// Moves the blocks to a new row, and the spare ones to a list that has spare blocks already. The old rows go back.
    fn take_over(&mut self, blocks: Vec<Block<E>>, spare: Vec<Block<E>>)
        requires none { blocks.items ≡ [] }
        requires unused { All (IsSpare self.old.memory) spare.items }
        requires few { self.old.memory < self.old.most → length self.old.blocks + (self.old.spare + length spare.items) ≤ 1 }
        requires wide { 128 < self.old.most → length self.old.blocks + (self.old.spare + length spare.items) ≤ 1 }
        requires room { length self.old.blocks + (self.old.spare + length spare.items) ≤ vec_capacity blocks }
        requires spare_room { length self.old.blocks + (self.old.spare + length spare.items) ≤ vec_capacity spare }
        ensures blocks { self.new.blocks ≡ self.old.blocks }
        ensures spare { self.new.spare ≡ self.old.spare + length spare.items }
        ensures memory { self.new.memory ≡ self.old.memory }
        ensures most { self.new.most ≡ self.old.most }
    {
        let old = replace(&mut self.blocks, blocks);
        move_to(old, &mut self.blocks);
        let old = replace(&mut self.spare, spare);
        move_to(old, &mut self.spare);
    }

    /// Makes a spare block. If the rows are full, they get twice their room. After an error nothing has changed.
    pub(crate) fn make(&mut self, alloc: Global) -> Result<(), AllocError>
        requires memory { 4 ≤ self.old.memory }
        requires most { self.old.most ≤ 128 }
        requires few { self.old.memory < self.old.most → length self.old.blocks + self.old.spare ≡ 0 }
        ensures blocks { self.new.blocks ≡ self.old.blocks }
        ensures memory { self.new.memory ≡ self.old.memory }
        ensures most { self.new.most ≡ self.old.most }
        ensures spare { OnOk result (self.new.spare ≡ self.old.spare + 1) }
        ensures unchanged { OnErr result (self.new ≡ self.old) }
    {
        let total = self.total();
        if self.blocks.capacity() <= total || self.spare.capacity() <= total {
            return self.stock(
                alloc,
                self.memory,
                total + 1,
                total.saturating_mul(2).max(total + 1),
            );
        }
        let block = Block::new(alloc, self.memory)?;
        self.spare.push_reserved(block);
        Ok(())
    }
}

/// Moves the blocks of a list to the end of another, which has room for them. The list goes back.
fn move_to<E>(mut from: Vec<Block<E>>, to: &mut Vec<Block<E>>)
    requires { length to.old.items + length from.items ≤ vec_capacity to.old }
    ensures all { to.new.items ≡ to.old.items ++ from.items }
    ensures room { vec_capacity to.old ≤ vec_capacity to.new }
{
    match to.append(&mut from) {
        Ok(()) => {}
        Err(_) => unreachable!(),
    }
    from.destroy_empty();
}
