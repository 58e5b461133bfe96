//! Clones of entries in order.
ghost use Rattle.std.specs.Prelude.{◌≡◌, ◌<◌, ◌≤◌, length, IfOk, OnOk};
ghost use Rattle.std.specs.List.{AllZip};
ghost use Rattle.iddqd_order.specs.Row.{line, entries_in, IsRow};

use super::Blocks;
use crate::block::Block;
use crate::row::BlockRow;
use std::alloc::{AllocError, Global};

/// Returns for how many entries a block of a clone has memory. If there is one block, it is no more than it needs.
fn memory_for<E>(row: &BlockRow<E>, count: usize) -> usize
    requires { count ≡ length (line row.now.blocks) }
    ensures fits { IsRow result row.now.blocks }
    ensures least { 0 < result → 4 ≤ result }
    ensures most { result ≤ row.now.most }
    ensures few { result < row.now.most → length row.now.blocks ≤ 1 }
{
    let most = row.most();
    match row.len() {
        0 => 0,
        1 => count.max(4).min(most),
        _ => most,
    }
}

/// Reserves room for one more entry, if there is none.
fn make_room<E>(blocks: &mut Blocks<E>) -> Result<(), AllocError>
    ensures blocks { blocks.new.blocks ≡ blocks.old.blocks }
    ensures room { OnOk result (length (entries_in blocks.new) < blocks.new.capacity) }
{
    if blocks.len() == blocks.capacity() {
        blocks.try_reserve(1)?;
    }
    Ok(())
}

/// Returns `Blocks` with a clone of each entry of a row that has them in one wide block. The clone has blocks that are not wide.
#[cold]
#[inline(never)]
fn clone_apart<E: Clone>(row: &BlockRow<E>, alloc: Global) -> Result<Blocks<E>, AllocError>
    requires { length row.now.blocks ≡ 1 }
    ensures entries { IfOk result (λ copy. AllZip E.is_clone (line row.now.blocks) (entries_in copy)) }
    ensures capacity { IfOk result (λ copy. copy.capacity ≡ length (line row.now.blocks)) }
{
    let mut copy = Blocks::new(alloc, row.usual());
    for entry in row.entries_of(0) {
        make_room(&mut copy)?;
        let end = copy.end();
        let _ = copy.insert(end, entry.clone()?);
    }
    let count = copy.len();
    copy.lower_capacity(count);
    Ok(copy)
}

impl<E: Clone> Blocks<E> {
    /// Returns `Blocks` with a clone of each entry, made block by block. Its capacity is its number of entries. The call
    /// fails if an allocation or a clone fails, and what was cloned is dropped then.
    pub fn clone(&self) -> Result<Blocks<E>, AllocError>
        ensures entries { IfOk result (λ copy. AllZip E.is_clone (entries_in self.now) (entries_in copy)) }
        ensures capacity { IfOk result (λ copy. copy.capacity ≡ length (entries_in self.now)) }
    {
        if 128 < self.row.most() {
            if self.row.len() == 0 {
                return Ok(Blocks::new(self.alloc, self.row.usual()));
            }
            return clone_apart(&self.row, self.alloc);
        }
        let memory = memory_for(&self.row, self.count);
        Ok(Blocks {
            alloc: self.alloc,
            row: self.row.clone(self.alloc, memory)?,
            kept: Block::none(self.alloc),
            count: self.count,
            capacity: self.count,
            appends: self.appends,
        })
    }
}
