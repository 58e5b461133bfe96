//! Making a map of the items of an iterator, and the traits of std by which generic code makes maps and adds items to them.
ghost use Rattle.std.specs.Prelude.{◌≡◌, ◌≤◌, [], fold, length, IfOk, IfErr};
ghost use Rattle.std.specs.Iterator.{IsFiniteIterable};
ghost use Rattle.iddqd_store.specs.Bag.{conflicts_of};
ghost use Rattle.iddqd_store.specs.Bag.Building.{GivesAll, GivesThen};
ghost use Rattle.iddqd_sorted.specs.Batches.{AddsInOrder, TellsWhyBehind};
ghost use Rattle.iddqd_sorted.specs.Items.{items, most_extended};
ghost use Rattle.iddqd_sorted.specs.Overwriting.{ExtendsTo, overwritten};

use super::Sorted;
use crate::error::ExtendUniqueError;
use crate::item::{SortOrder, Sortable};
use iddqd_store::{MemoryRefused, SlotMap};
use std::alloc::{AllocError, Global};
use std::default::MadeWith;

impl<M: SlotMap + Drop> Sorted<M>
where
    M::Item: Sortable + Drop,
    M::FirstKey: Ord,
    M::Builder: Default,
{
    /// Makes a map of the items. It inserts each as `insert_overwrite` does, and drops the items that this removes.
    ///
    /// The call reserves capacity as `extend` does. If there is no memory for an item, the error has that item, and there is no map.
    pub fn from_iter<I: IntoIterator<Item = M::Item>>(
        alloc: Global,
        iter: I,
    ) -> Result<Self, MemoryRefused<M::Item>>
        requires finite { IsFiniteIterable I.into_iter_gives I.IntoIter.can_next I.IntoIter.remaining iter }
        // Each item was inserted in place of what conflicts with it, and the items fit.
        ensures all { IfOk result (λ map. GivesAll I.into_iter_gives I.IntoIter.next_gives iter (λ xs. items map
            ≡ fold (overwritten M.ranks ⟦<M as SortOrder>⟧.order) [] xs)) }
        ensures fits { IfOk result (λ map. length (items map) ≤ map.capacity) }
        // Whatever the iterator promises, the capacity has a bound by what it gave.
        ensures most { IfOk result (λ map. GivesAll I.into_iter_gives I.IntoIter.next_gives iter (λ xs. map.capacity
            ≤ most_extended 0 (length xs))) }
        // The error has the first item for which there was no memory. Nothing conflicts with it.
        ensures refused { IfErr result (λ e. GivesThen I.into_iter_gives I.IntoIter.next_gives iter e.value (λ xs. conflicts_of M.ranks
            (fold (overwritten M.ranks ⟦<M as SortOrder>⟧.order) [] xs) e.value ≡ [])) }
        ensures builder { IfOk result (λ map. M.Builder.is_default map.builder) }
    {
        let mut map = Sorted::default(alloc);
        map.extend(iter)?;
        Ok(map)
    }

    /// Makes a map of the items if no two of them conflict. Several may have the same sort key.
    ///
    /// If an item conflicts with one before it, or if there is no memory for it, the error is that of `extend_unique`: it has the
    /// items before that one in the order given, and that item, and says which of its keys are taken. The rest are dropped with the
    /// iterator, and there is no map. For each item the call costs what `extend_unique` costs.
    ///
    /// `BiHashOrdMap::<Session>::from_iter_unique(alloc, sessions)?`
    pub fn from_iter_unique<I: IntoIterator<Item = M::Item>>(
        alloc: Global,
        iter: I,
    ) -> Result<Self, ExtendUniqueError<M::Item, M::Rejected>>
        requires finite { IsFiniteIterable I.into_iter_gives I.IntoIter.can_next I.IntoIter.remaining iter }
        // The map has all that the iterator gave, in order.
        ensures all { IfOk result (λ map. GivesAll I.into_iter_gives I.IntoIter.next_gives iter (AddsInOrder M.ranks
            ⟦<M as SortOrder>⟧.order [] (items map))) }
        ensures most { IfOk result (λ map. map.capacity ≤ most_extended 0 (length (items map))) }
        // The error has the first item that could not be inserted, and those before it.
        ensures refused { IfErr result (λ e. GivesThen I.into_iter_gives I.IntoIter.next_gives iter (M.rejected_item e.rejected)
            (λ xs. xs ≡ e.before.items)) }
        // It says which keys of the item are taken among those before it. If none is, memory ran out.
        ensures reason { IfErr result (λ e. TellsWhyBehind M.ranks [] e.before.items
            (M.rejected_item e.rejected) (M.rejected_flags e.rejected)) }
        ensures builder { IfOk result (λ map. M.Builder.is_default map.builder) }
    {
        let mut map = Sorted::default(alloc);
        map.extend_unique(iter)?;
        Ok(map)
    }
}

/// `items.into_iter().collect::<BiHashOrdMap<_>>(alloc)?` makes a map. Each item is inserted as `insert_overwrite` does.
impl<M: SlotMap + Drop> FromIterator<M::Item> for Sorted<M>
where
    M::Item: Sortable + Drop,
    M::FirstKey: Ord,
    M::Builder: Default,
{
    type Alloc = Global;

    ghost from_iter_gives = { λ xs m. (items m
        ≡ fold (overwritten M.ranks ⟦<M as SortOrder>⟧.order) [] xs)
        × (length (items m) ≤ m.capacity) };

    fn from_iter<U: IntoIterator<Item = M::Item>>(
        alloc: Global,
        iter: U,
    ) -> Result<Self, AllocError> {
        Ok(Sorted::from_iter(alloc, iter)?)
    }
}

/// Each item is inserted as `insert_overwrite` does. An item for which there is no memory is dropped, and those before it stay in the
/// map.
impl<M: SlotMap> Extend<M::Item> for Sorted<M>
where
    M::Item: Sortable + Drop,
    M::FirstKey: Ord,
{
    ghost extend_gives = { λ m xs n. ExtendsTo M.ranks
        ⟦<M as SortOrder>⟧.order m xs n };

    fn extend<U: IntoIterator<Item = M::Item>>(&mut self, iter: U) -> Result<(), AllocError> {
        Ok(Sorted::extend(self, iter)?)
    }
}

/// `or_default()` on an entry of a `HashMap` whose values are maps makes an empty map.
impl<M: SlotMap> MadeWith<Global> for Sorted<M>
where
    M::Item: Sortable,
    M::FirstKey: Ord,
    M::Builder: Default,
{
    ghost is_made_with = { λ m. (items m ≡ []) × (m.capacity ≡ 0) × M.Builder.is_default m.builder };

    fn made_with(alloc: Global) -> Self {
        Sorted::default(alloc)
    }
}
