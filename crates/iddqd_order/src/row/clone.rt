//! Clones of a row, block by block.
ghost use Rattle.std.specs.Prelude.{◌≡◌, ◌+◌, ◌*◌, ◌<◌, ◌≤◌, length, IfOk};
ghost use Rattle.std.specs.List.{AllZip};
ghost use Rattle.iddqd_order.specs.Row.{line, IsRow};

use super::BlockRow;
use std::alloc::{AllocError, Global};

impl<E: Clone> BlockRow<E> {
    /// Makes a row with a clone of each block, which has memory for so many entries. It has no spare block. If an allocation
    /// or a clone fails, the blocks that were made are dropped.
    pub(crate) fn clone(&self, alloc: Global, memory: usize) -> Result<BlockRow<E>, AllocError>
        requires fits { IsRow memory self.now.blocks }
        requires least { 0 < memory → 4 ≤ memory }
        requires most { memory ≤ self.now.most }
        requires few { memory < self.now.most → length self.now.blocks ≤ 1 }
        ensures entries { IfOk result (λ row. AllZip E.is_clone (line self.now.blocks) (line row.blocks)) }
        ensures held { IfOk result (λ row. length (line row.blocks) ≤ row.memory * (length row.blocks + row.spare)) }
    {
        let mut blocks = Vec::with_capacity(alloc, self.blocks.len())?;
        for block in self.blocks.as_slice() {
            let copy = block.cloned(alloc, memory)?;
            blocks.push_reserved(copy);
        }
        Ok(BlockRow {
            spare: Vec::with_capacity(alloc, blocks.len())?,
            blocks,
            memory,
            most: self.most,
            bound: self.bound,
            thin: 0,
        })
    }
}
