//! All entries of a row in one block.
ghost use Rattle.std.specs.Prelude.{◌≡◌, ◌+◌, ◌<◌, ◌≤◌, ◌++◌, [], ◌∷◌, length, vec_capacity};
ghost use Rattle.iddqd_order.specs.Row.{line, entry_lists};

use super::BlockRow;
use crate::block::Block;

/// Moves the entries of these blocks, in order, to the end of a block that has memory for them. The blocks go back, and the list
/// that had them keeps its room.
fn append_all<E>(from: &mut Vec<Block<E>>, wide: &mut Block<E>)
    requires { length wide.old.entries + length (line (entry_lists from.old.items)) ≤ wide.old.room }
    ensures all { wide.new.entries ≡ wide.old.entries ++ line (entry_lists from.old.items) }
    ensures none { from.new.items ≡ [] }
    ensures room { vec_capacity from.new ≡ vec_capacity from.old }
    ensures no_less { wide.old.room ≤ wide.new.room }
{
    from.reverse();
    while 0 < from.len() {
        let mut block = from.take_last();
        wide.append(&mut block);
        block.free();
    }
}

impl<E> BlockRow<E> {
    /// Moves all entries to a wider block, which is the only one then. It asks for no memory, and the other blocks go back.
    pub(crate) fn gather(&mut self, wide: Block<E>)
        requires none { wide.entries ≡ [] }
        requires some { 0 < length self.old.blocks }
        requires entries { 0 < length (line self.old.blocks) }
        requires fits { length (line self.old.blocks) ≤ wide.room }
        requires least { 4 ≤ wide.room }
        ensures blocks { self.new.blocks ≡ line self.old.blocks ∷ [] }
        ensures spare { self.new.spare ≡ 0 }
        ensures memory { self.new.memory ≡ wide.room }
    {
        let mut wide = wide;
        let memory = wide.room();
        self.shed();
        append_all(&mut self.blocks, &mut wide);
        self.blocks.push_reserved(wide);
        self.memory = memory;
        self.most = memory.max(16);
    }
}
