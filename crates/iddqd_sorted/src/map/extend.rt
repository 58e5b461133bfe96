//! Inserting many items at once.
ghost use Rattle.std.specs.Prelude.{length, IfErr, IsOk, OnOk};
ghost use Rattle.std.specs.Iterator.{IsFiniteIterable};
ghost use Rattle.iddqd_store.specs.Bag.Building.{FitsOn, GivesAll, GivesThen};
ghost use Rattle.iddqd_sorted.specs.Items.{GrowsUnless, items, IsFullFor};
ghost use Rattle.iddqd_sorted.specs.Overwriting.{ExtendsTo};

use super::Sorted;
use crate::item::{SortOrder, Sortable};
use iddqd_store::{AHEAD, Costs, MemoryRefused, Meter, SlotMap, at_once};

impl<M: SlotMap> Sorted<M>
where
    M::Item: Sortable,
    M::FirstKey: Ord,
{
    /// Inserts the items one by one, as `insert_overwrite` does, and drops the items that this removes.
    ///
    /// First the call reserves capacity for as many items as the iterator promises, or for half as many if the map has items,
    /// since these may have the same keys. When the map is full, it reserves capacity for those still promised, or for one item if
    /// there is no memory for so many. Each time it asks for no more than 65,536 items, or eight times as many as there are. If
    /// there is no memory for an item, the error has that item. Those before it stay in the map, and the rest are dropped with the
    /// iterator.
    pub fn extend<I: IntoIterator<Item = M::Item>>(
        &mut self,
        iter: I,
    ) -> Result<(), MemoryRefused<M::Item>>
    where
        M::Item: Drop,
        requires finite { IsFiniteIterable I.into_iter_gives I.IntoIter.can_next I.IntoIter.remaining iter }
        // After `Ok`, each item was inserted in place of what conflicts with it; after an error, each item before the returned one.
        ensures all { OnOk result (GivesAll I.into_iter_gives I.IntoIter.next_gives iter (λ xs. ExtendsTo M.ranks
            ⟦<M as SortOrder>⟧.order self.old xs self.new)) }
        ensures refused { IfErr result (λ e. GivesThen I.into_iter_gives I.IntoIter.next_gives iter e.value (λ xs. ExtendsTo M.ranks
            ⟦<M as SortOrder>⟧.order self.old xs self.new)) }
        // The call fails only if the map is full and nothing conflicts with the item.
        ensures full { IfErr result (λ e. IsFullFor M.ranks self.new e.value) }
        // If as many items fit as the iterator may give, the call succeeds, and the capacity stays.
        ensures granted { FitsOn I.into_iter_gives I.IntoIter.remaining iter (length (items self.old)) self.old.capacity → IsOk result }
        ensures grows_unless { GrowsUnless
            (FitsOn I.into_iter_gives I.IntoIter.remaining iter (length (items self.old)) self.old.capacity) self.old self.new }
    {
        let items = iter.into_iter();
        let mut left = items.size_hint().0;
        let first = if self.is_empty() {
            left
        } else {
            left.div_ceil(2)
        };
        // This error is ignored: the call may succeed without the capacity, since the items may share keys.
        let _ = self.grow(at_once(first, self.len()), AHEAD);
        for item in items {
            let wanted = left.max(1);
            left = wanted - 1;
            drop(self.insert_overwrite_counted(
                item,
                wanted,
                &mut Costs::new(),
                &mut Meter::new(),
            )?);
        }
        Ok(())
    }
}
