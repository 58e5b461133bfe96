//! Memory for more entries.
ghost use Rattle.std.specs.Prelude.{◌≡◌, ◌+◌, ◌*◌, ◌<◌, ◌≤◌, [], length, min, max, OnOk, OnErr};
ghost use Rattle.iddqd_order.specs.Row.{line, entries_in, room_of};

use super::Blocks;
use crate::block::Block;
use crate::row::BlockRow;
use std::alloc::{AllocError, Global};

/// Returns how many blocks hold so many entries, if they are full.
fn blocks_for(wanted: usize, memory: usize) -> usize
    requires { 2 ≤ memory }
    ensures enough { wanted ≤ memory * result }
    ensures no_more { memory * result < wanted + memory }
    ensures one { wanted ≤ memory → result ≤ 1 }
{
    let full = wanted / memory;
    if wanted % memory == 0 {
        return full;
    }
    full + 1
}

/// Returns for how many entries a block has memory, if so many are wanted in all: twice as many as it has, at least, but no more
/// than a full block. So the entries that move to a wider block are fewer than those that came since they last did.
fn memory_for(memory: usize, most: usize, wanted: usize) -> usize
    requires low { 16 ≤ most }
    requires memory { memory ≤ most }
    requires least { 0 < memory → 4 ≤ memory }
    ensures wider { memory < wanted → result ≡ min (max (max wanted (2 * memory)) 4) most }
    ensures same { wanted ≤ memory → result ≡ memory }
    ensures least { 0 < wanted → 4 ≤ result }
    ensures most { result ≤ most }
    ensures no_less { memory ≤ result }
    ensures ready { result < most → wanted ≤ result }
{
    if memory < wanted {
        return wanted.max(memory.saturating_mul(2)).max(4).min(most);
    }
    memory
}

/// Gets memory for so many entries in all: a wider block while there is but one, then one more block, or for more than that, one
/// allocation that is kept. After an error the blocks are as they were.
fn reserve_in<E>(
    row: &mut BlockRow<E>,
    kept: &mut Block<E>,
    alloc: Global,
    wanted: usize,
) -> Result<(), AllocError>
    requires some { 0 < wanted }
    requires unused { kept.old.entries ≡ [] }
    ensures blocks { row.new.blocks ≡ row.old.blocks }
    ensures unused { kept.new.entries ≡ [] }
    ensures enough { OnOk result (wanted ≤ room_of row.new kept.new) }
    ensures some { OnOk result (0 < row.new.memory * (length row.new.blocks + row.new.spare)) }
    ensures unchanged { OnErr result (row.new ≡ row.old) }
    ensures no_less { kept.old.room ≤ kept.new.room }
{
    let most = row.most();
    let memory = memory_for(row.memory(), most, wanted);
    let blocks = blocks_for(wanted, memory);
    let total = row.total();
    if blocks <= total {
        return row.reach(memory);
    }
    if blocks == 1 {
        return row.stock(alloc, memory, 1, 1);
    }
    if blocks - total == 1 && row.memory() == memory && most <= 128 {
        return row.make(alloc);
    }
    // One block for all entries doubles, as it moves when it grows.
    let room = if 128 < most {
        wanted.max(memory.saturating_mul(2))
    } else {
        wanted
    };
    keep(row, kept, alloc, memory, room)
}

/// Gets memory for so many entries in one allocation, which is kept, and the first block if there is none. After an error the
/// blocks are as they were.
fn keep<E>(
    row: &mut BlockRow<E>,
    kept: &mut Block<E>,
    alloc: Global,
    memory: usize,
    wanted: usize,
) -> Result<(), AllocError>
    requires no_less { row.old.memory ≤ memory }
    requires least { 4 ≤ memory }
    requires most { memory ≤ row.old.most }
    requires unused { kept.old.entries ≡ [] }
    ensures blocks { row.new.blocks ≡ row.old.blocks }
    ensures unused { kept.new.entries ≡ [] }
    ensures enough { OnOk result (wanted ≤ kept.new.room) }
    ensures some { OnOk result (0 < length row.new.blocks + row.new.spare) }
    ensures memory { OnOk result (row.new.memory ≡ memory) }
    ensures unchanged { OnErr result (row.new ≡ row.old) }
    ensures no_less { kept.old.room ≤ kept.new.room }
{
    let had = kept.room();
    kept.grow(wanted)?;
    let done = if row.total() == 0 {
        row.stock(alloc, memory, 1, 1)
    } else {
        row.reach(memory)
    };
    if let Err(refused) = done {
        kept.shrink(had);
        return Err(refused);
    }
    Ok(())
}

/// Gives all memory back that so many entries do not need.
pub(super) fn settle<E>(row: &mut BlockRow<E>, kept: &mut Block<E>, capacity: usize)
    requires fits { length (line row.old.blocks) ≤ capacity }
    requires unused { kept.old.entries ≡ [] }
    requires held { capacity ≤ room_of row.old kept.old }
    ensures blocks { row.new.blocks ≡ row.old.blocks }
    ensures unused { kept.new.entries ≡ [] }
    ensures held { capacity ≤ room_of row.new kept.new }
    ensures some { 0 < row.old.memory * (length row.old.blocks + row.old.spare) → 0 < capacity
        → 0 < row.new.memory * (length row.new.blocks + row.new.spare) }
{
    if capacity <= row.room() {
        kept.shrink(0);
        row.shed_to(capacity);
    } else {
        kept.shrink(capacity);
        row.trim();
    }
}

impl<E> Blocks<E> {
    /// Reserves memory for this many more entries, wherever they are inserted. If they fit already, it allocates nothing.
    /// After an error nothing has changed.
    ///
    /// While there is one block its memory doubles. Then no entry moves: one more entry takes one more block, and the row of
    /// blocks doubles. So calls for one entry before each insert take linear time together. Memory for more than that is one
    /// allocation, which nothing touches as long as the allocator grants blocks.
    #[cold]
    #[inline(never)]
    pub fn try_reserve(&mut self, more: usize) -> Result<(), AllocError>
        ensures blocks { self.new.blocks ≡ self.old.blocks }
        ensures no_less { self.old.capacity ≤ self.new.capacity }
        ensures room { OnOk result (length (entries_in self.old) + more ≤ self.new.capacity) }
        ensures most { self.new.capacity ≤ max (length (entries_in self.old) + more) (max (2 * self.old.capacity) 4) }
        ensures same { length (entries_in self.old) + more ≤ self.old.capacity → self.new.capacity ≡ self.old.capacity }
        ensures reason { OnErr result (self.old.capacity < length (entries_in self.old) + more) }
        ensures unchanged { OnErr result (self.new ≡ self.old) }
    {
        let Some(wanted) = self.count.checked_add(more) else {
            return Err(AllocError);
        };
        if wanted <= self.capacity {
            return Ok(());
        }
        reserve_in(&mut self.row, &mut self.kept, self.alloc, wanted)?;
        let most = wanted.max(self.capacity.saturating_mul(2)).max(4);
        self.capacity = self.row.room().max(self.kept.room()).min(most);
        Ok(())
    }

    /// Lowers the capacity, and gives all memory back that it does not need. It allocates nothing, and does not fail.
    pub fn lower_capacity(&mut self, capacity: usize)
        requires fits { length (entries_in self.old) ≤ capacity }
        requires no_more { capacity ≤ self.old.capacity }
        ensures blocks { self.new.blocks ≡ self.old.blocks }
        ensures capacity { self.new.capacity ≡ capacity }
    {
        self.capacity = capacity;
        settle(&mut self.row, &mut self.kept, capacity);
    }
}
