//! Inserting many items at once, or none.
ghost use Rattle.std.specs.Prelude.{◌≡◌, ◌+◌, ◌≤◌, length, IfErr, MatchResult, OnOk, OnErr};
ghost use Rattle.std.specs.Iterator.{IsFiniteIterable};
ghost use Rattle.iddqd_store.specs.Bag.Building.{FitsOn, GivesAll, GivesThen};
ghost use Rattle.iddqd_sorted.specs.Batches.{AddsInOrder, TellsWhyBehind};
ghost use Rattle.iddqd_sorted.specs.Items.{GrowsUnless, items, most_extended};

use super::Sorted;
use crate::error::ExtendUniqueError;
use crate::item::{SortOrder, Sortable};
use iddqd_store::SlotMap;

impl<M: SlotMap> Sorted<M>
where
    M::Item: Sortable,
    M::FirstKey: Ord,
{
    /// Inserts all the items, each at its place, or none if one of them conflicts with an item of the map or with another of them.
    /// A sort key is never taken.
    ///
    /// If an item conflicts, or if there is no memory for it, the call removes the items before it again. The error has these in
    /// the order given, and the error of the map inside, which has that item and says which of its keys are taken. The rest are
    /// dropped with the iterator. If no key is taken, there was no memory; an item that conflicts is refused for that, whether
    /// there is memory or not.
    ///
    /// To insert an item, the call hashes each key of it once, searches for it once, and compares as many sort keys as `try_insert`
    /// does. It allocates memory if the map is full, and for the list of the items inserted, by which an error returns them: each
    /// time for as many items as the iterator still promises, but for no more than 65,536 or eight times as many as there are, or
    /// for one item if there is no memory for so many. For a list of no items it allocates none. To remove the items again, it hashes each key of them once more, searches for the place of each in
    /// the order, and allocates no memory. After an error the capacity may have grown.
    ///
    /// ```text
    /// if let Err(refused) = map.extend_unique(batch) {
    ///     // The map has the items that it had before, and this item was rejected.
    ///     return Err(refused.rejected.item);
    /// }
    /// ```
    pub fn extend_unique<I: IntoIterator<Item = M::Item>>(
        &mut self,
        iter: I,
    ) -> Result<(), ExtendUniqueError<M::Item, M::Rejected>>
    where
        M::Item: Drop,
        requires finite { IsFiniteIterable I.into_iter_gives I.IntoIter.can_next I.IntoIter.remaining iter }
        // The map has its items and all that the iterator gave, in order.
        ensures all { OnOk result (GivesAll I.into_iter_gives I.IntoIter.next_gives iter (AddsInOrder M.ranks
            ⟦<M as SortOrder>⟧.order (items self.old) (items self.new))) }
        // Or it has its items, and the error has the first item that could not be inserted, and those before it.
        ensures same_items { OnErr result (items self.new ≡ items self.old) }
        ensures refused { IfErr result (λ e. GivesThen I.into_iter_gives I.IntoIter.next_gives iter (M.rejected_item e.rejected)
            (λ xs. xs ≡ e.before.items)) }
        // It says which keys of the item are taken, in the map or among those before it. If none is, memory ran out.
        ensures reason { IfErr result (λ e. TellsWhyBehind M.ranks (items self.old) e.before.items
            (M.rejected_item e.rejected) (M.rejected_flags e.rejected)) }
        // Whatever the iterator promises, the capacity has a bound by how many items there are, or would be with those that came.
        ensures most { MatchResult result
            (λ _. self.new.capacity ≤ most_extended self.old.capacity (length (items self.new)))
            (λ e. self.new.capacity ≤ most_extended self.old.capacity (length (items self.old) + length e.before.items + 1)) }
        ensures grows_unless { GrowsUnless
            (FitsOn I.into_iter_gives I.IntoIter.remaining iter (length (items self.old)) self.old.capacity)
            self.old self.new }
    {
        let mut batch = self.map.slots().empty_batch();
        let items = iter.into_iter();
        let mut left = items.size_hint().0;
        for item in items {
            let wanted = left.max(1);
            left = wanted - 1;
            if let Err(rejected) = self.insert_noted(item, &mut batch, wanted) {
                let before = self.remove_batch(batch);
                return Err(ExtendUniqueError { before, rejected });
            }
        }
        Ok(())
    }
}
