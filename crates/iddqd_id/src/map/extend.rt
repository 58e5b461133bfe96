//! Inserting many items at once.
//!
//! Made by tests/widths from crates/iddqd_bi/src/map/extend.rt: change that file.
ghost use Rattle.std.specs.Prelude.{◌≡◌, ◌≤◌, ◌+◌, [], ◌∷◌, length, IsPermutation, IfOk, IfErr, OnOk, OnErr, IsOk, MatchResult};
ghost use Rattle.std.specs.Iterator.{IsFiniteIterable};
ghost use Rattle.iddqd_store.specs.Bag.{IsSound, conflicts_of, with_items};
ghost use Rattle.iddqd_store.specs.Bag.Building.{GivesAll, GivesThen, FitsOn, AddsTo, RefusesFor, HasPlaceFor, MatchFromIterError};
ghost use Rattle.iddqd_store.specs.Map.{bag, most_extended, GrowsUnless, IsFullFor};
ghost use Rattle.iddqd_store.specs.Map.State.{ExtendsTo, state_of, empty_state};
ghost use Rattle.iddqd_id.specs.InsertErrors.{TellsWhyBehind};

use super::IdHashMap;
use super::slots::Refusal;
use crate::error::{ExtendUniqueError, FromIterError};
use crate::item::Ranked;
use iddqd_store::{AHEAD, Costs, DuplicateItem, MemoryRefused, at_once};
use std::alloc::Global;
use std::hash::{BuildHasher, Hash};

impl<T: Ranked + Drop, S: BuildHasher> IdHashMap<T, S> {
    /// Inserts the items one by one, as `insert_overwrite` does, and drops the items that this removes.
    ///
    /// First the call reserves capacity for as many items as the iterator promises, or for half as many if the map has
    /// items, since these may have the same key. When the map is full, it reserves capacity for those still promised,
    /// or for one item if there is no memory for so many. Each time it asks for no more than 65,536 items, or eight
    /// times as many as there are. So whatever the iterator promises, the capacity grows to no more than 18 times as
    /// many items as there are with those that came, or twice as many and 131,072 more. If there is no memory for an
    /// item, the error has that item. Those before it stay in the map, and the rest are dropped with the iterator.
    pub fn extend<I: IntoIterator<Item = T>>(&mut self, iter: I) -> Result<(), MemoryRefused<T>>
        requires finite { IsFiniteIterable I.into_iter_gives I.IntoIter.can_next I.IntoIter.remaining iter }
        // After `Ok`, each item was inserted in place of what conflicts with it; after an error, each item before the
        // returned one.
        ensures all { OnOk result (GivesAll I.into_iter_gives I.IntoIter.next_gives iter (λ xs.
            ExtendsTo T.ranks (state_of self.old) xs (state_of self.new))) }
        ensures refused { IfErr result (λ e. GivesThen I.into_iter_gives I.IntoIter.next_gives iter e.value (λ xs.
            ExtendsTo T.ranks (state_of self.old) xs (state_of self.new))) }
        // The call fails only if the map is full and nothing conflicts with the item.
        ensures full { IfErr result (λ e. IsFullFor T.ranks self.new e.value) }
        // If as many items fit as the iterator may give, the call succeeds, and the capacity stays.
        ensures granted { FitsOn I.into_iter_gives I.IntoIter.remaining iter (length (bag self.old)) self.old.capacity
            → IsOk result }
        ensures grows_unless { GrowsUnless
            (FitsOn I.into_iter_gives I.IntoIter.remaining iter (length (bag self.old)) self.old.capacity)
            self.old self.new }
    {
        let items = iter.into_iter();
        let mut left = items.size_hint().0;
        let first = if self.is_empty() {
            left
        } else {
            left.div_ceil(2)
        };
        // This error is ignored: the call may succeed without the capacity, since the items may share keys.
        let _ = self.grow(at_once(first, self.len()), AHEAD);
        self.note_that_items_fit();
        for item in items {
            let wanted = left.max(1);
            left = wanted - 1;
            drop(self.insert_overwrite_counted(item, wanted, &mut Costs::new())?);
        }
        Ok(())
    }

    /// Inserts all the items, or none if one of them conflicts with an item of the map or with another of them.
    ///
    /// If an item conflicts, or if there is no memory for it, the call removes the items before it again. The error has
    /// these in order, that item, and whether its key is taken. The rest are dropped with the iterator. If it is
    /// not, there was no memory; an item that conflicts is refused for that, whether there is memory or not.
    ///
    /// To insert an item, the call hashes its key once, and searches for it once. It allocates memory if the
    /// map is full, and for the list of the items inserted, by which an error returns them: each time for as many
    /// items as the iterator still promises, but for no more than 65,536 or eight times as many as there are, or for
    /// one item if there is no memory for so many. For a list of no items it allocates none. To remove the items
    /// again, it hashes the key of each of them once more. It compares none then, and allocates no memory. After an
    /// error the capacity may have grown. It never grows to more than `extend` lets it.
    ///
    /// ```text
    /// if let Err(refused) = map.extend_unique(batch) {
    ///     // The map has the items that it had before, and this item was rejected.
    ///     return Err(refused.item);
    /// }
    /// ```
    pub fn extend_unique<I: IntoIterator<Item = T>>(
        &mut self,
        iter: I,
    ) -> Result<(), ExtendUniqueError<T>>
        requires finite { IsFiniteIterable I.into_iter_gives I.IntoIter.can_next I.IntoIter.remaining iter }
        // All items are inserted, or none is; then the error has those before the rejected item, and that item.
        ensures all { OnOk result (GivesAll I.into_iter_gives I.IntoIter.next_gives iter
            (AddsTo T.ranks (bag self.old) (bag self.new))) }
        ensures refused { IfErr result (λ e. GivesThen I.into_iter_gives I.IntoIter.next_gives iter e.item
            (λ xs. xs ≡ e.before.items)) }
        ensures same_items { OnErr result (IsPermutation (bag self.new) (bag self.old)) }
        // The error says whether the key is taken, in the map or among those before it. If none is, memory ran out.
        ensures reason { IfErr result (TellsWhyBehind T.IdHashItem T.Key.eq (bag self.old)) }
        // The map stays sound, and grows only if the items might not fit.
        ensures sound { IsSound T.ranks (bag self.new) }
        // Whatever the iterator promises, the capacity has a bound by how many items there are, or would be with those
        // that came.
        ensures most { MatchResult result
            (λ _. self.new.capacity ≤ most_extended self.old.capacity (length (bag self.new)))
            (λ e. self.new.capacity
            ≤ most_extended self.old.capacity (length (bag self.old) + length e.before.items + 1)) }
        ensures grows_unless { GrowsUnless
            (FitsOn I.into_iter_gives I.IntoIter.remaining iter (length (bag self.old)) self.old.capacity)
            self.old self.new }
    {
        let mut batch = self.items.empty_batch();
        let items = iter.into_iter();
        let mut left = items.size_hint().0;
        for item in items {
            let wanted = left.max(1);
            left = wanted - 1;
            if let Err(rejected) = self.insert_noted(item, &mut batch, wanted) {
                let before = self.remove_batch(batch);
                return Err(ExtendUniqueError {
                    before,
                    item: rejected.item,
                    taken: rejected.taken,
                });
            }
        }
        Ok(())
    }
}

impl<T: Ranked + Drop, S: BuildHasher + Default + Drop> IdHashMap<T, S> {
    /// Makes a map of the items. It inserts each as `insert_overwrite` does, and drops the items that this removes.
    ///
    /// The call reserves capacity as `extend` does. If there is no memory for an item, the error has that item, and
    /// there is no map.
    pub fn from_iter<I: IntoIterator<Item = T>>(
        alloc: Global,
        iter: I,
    ) -> Result<Self, MemoryRefused<T>>
        requires finite { IsFiniteIterable I.into_iter_gives I.IntoIter.can_next I.IntoIter.remaining iter }
        ensures all { IfOk result (λ map. GivesAll I.into_iter_gives I.IntoIter.next_gives iter (λ xs.
            ExtendsTo T.ranks empty_state xs (state_of map))) }
        ensures refused { IfErr result (λ e. GivesThen I.into_iter_gives I.IntoIter.next_gives iter e.value (λ xs.
            conflicts_of T.ranks (with_items T.ranks [] xs) e.value ≡ [])) }
        ensures builder { IfOk result (λ map. S.is_default map.builder) }
    {
        let mut map = IdHashMap::default(alloc);
        map.extend(iter)?;
        Ok(map)
    }

    /// Makes a map of the items if no two of them conflict.
    ///
    /// The call reserves capacity as `extend` does. At the first item that conflicts with one before it, the error has
    /// that item and the one before it. If there is no memory for an item, the error has that item. All other items are
    /// dropped, with the iterator, and there is no map.
    pub fn from_iter_unique<I: IntoIterator<Item = T>>(
        alloc: Global,
        iter: I,
    ) -> Result<Self, FromIterError<T>>
        requires finite { IsFiniteIterable I.into_iter_gives I.IntoIter.can_next I.IntoIter.remaining iter }
        // The map has all that the iterator gave, and they fit.
        ensures all { IfOk result (λ map. GivesAll I.into_iter_gives I.IntoIter.next_gives iter
            (AddsTo T.ranks [] (bag map))) }
        ensures fits { IfOk result (λ map. length (bag map) ≤ map.capacity) }
        // Whatever the iterator promises, the capacity has a bound by how many items there are.
        ensures most { IfOk result (λ map. map.capacity ≤ most_extended 0 (length (bag map))) }
        // The error has the first item that could not be inserted, and why.
        ensures refused { IfErr result (λ e. MatchFromIterError e
            (λ x duplicate. GivesThen I.into_iter_gives I.IntoIter.next_gives iter x
            (RefusesFor T.ranks x (duplicate ∷ [])))
            (λ x. GivesThen I.into_iter_gives I.IntoIter.next_gives iter x
            (HasPlaceFor T.ranks x))) }
        ensures builder { IfOk result (λ map. S.is_default map.builder) }
    {
        let mut map = IdHashMap::default(alloc);
        let items = iter.into_iter();
        let mut left = items.size_hint().0;
        // This error is ignored: an insert below asks again, where the map is full.
        let _ = map.grow(at_once(left, 0), AHEAD);
        for item in items {
            let wanted = left.max(1);
            left = wanted - 1;
            match map.insert_or_refuse(item, wanted, &mut Costs::new()) {
                Ok(()) => {}
                Err(Refusal::Duplicate(item, found)) => {
                    let Some(slot) = found.slot() else {
                        unreachable!()
                    };
                    let duplicate = map.remove_at(slot);
                    return Err(FromIterError::Duplicate(DuplicateItem::new(item, duplicate)));
                }
                Err(Refusal::Memory(item)) => return Err(FromIterError::Memory(item)),
            }
        }
        map.note_that_items_fit();
        Ok(map)
    }
}
