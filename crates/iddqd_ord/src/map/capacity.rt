//! How many items there are and how many fit, and growing.
ghost use Rattle.std.specs.Prelude.{◌≡◌, ◌≤◌, [], length, ◌==◌, OnErr};
ghost use Rattle.iddqd_ord.specs.Items.{items, MakesRoom};
ghost use Rattle.iddqd_ord.specs.Ordered.{IsAscending};

use super::IdOrdMap;
use crate::item::IdOrdItem;
use iddqd_store::TryReserveError;

impl<T: IdOrdItem> IdOrdMap<T> {
    /// Returns the number of items.
    pub fn len(&self) -> usize
        ensures value { result ≡ length (items self.now) }
        ensures ascending { IsAscending T.Key.cmp T.key (items self.now) }
    {
        self.items.len()
    }

    /// Returns whether there are no items.
    pub fn is_empty(&self) -> bool
        ensures { result ≡ (length (items self.now) == 0) }
    {
        self.len() == 0
    }

    /// Returns how many items fit without growing.
    pub fn capacity(&self) -> usize
        ensures value { result ≡ self.now.capacity }
        ensures fits { length (items self.now) ≤ result }
    {
        self.items.capacity()
    }

    /// Reserves capacity for this many more items. If they fit already, the call allocates no memory. It compares no key.
    ///
    /// The call fails if an allocation fails, or if the number of items would be too large for memory. Then the map is as
    /// before, and no memory is kept.
    ///
    /// While the items stand in one block, its memory doubles. Then one more item takes one more block, and no item moves. So
    /// calls for one item before each insert take linear time together. Room for more than one more block is one allocation,
    /// which is not touched as long as there is memory for a block when an insert needs one, and which goes back when the blocks
    /// have room for all. If there is none, and all blocks are full, all items move to that allocation as one block. No insert
    /// fails then, but each moves up to half of the items.
    pub fn reserve(&mut self, more: usize) -> Result<(), TryReserveError>
        ensures items { items self.new ≡ items self.old }
        ensures room { MakesRoom self.old more result self.new }
        ensures unchanged { OnErr result (self.new ≡ self.old) }
    {
        self.items.try_reserve(more)?;
        Ok(())
    }

    /// Reserves capacity as `reserve` does. If the call fails, the map is as before. Both calls are the same: the two
    /// names are the Rust crate's, where `reserve` aborts if memory runs out.
    pub fn try_reserve(&mut self, more: usize) -> Result<(), TryReserveError>
        ensures items { items self.new ≡ items self.old }
        ensures room { MakesRoom self.old more result self.new }
        ensures unchanged { OnErr result (self.new ≡ self.old) }
    {
        self.reserve(more)
    }

    /// Drops all items. The capacity stays, and the memory that it needs; the rest goes back. The call allocates no memory, and
    /// compares no key.
    pub fn clear(&mut self)
    where
        T: Drop,
        ensures empty { items self.new ≡ [] }
        ensures capacity { self.new.capacity ≡ self.old.capacity }
    {
        self.items.clear();
    }
}
