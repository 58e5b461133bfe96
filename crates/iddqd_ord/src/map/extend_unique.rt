//! Inserting many items at once, or none.
ghost use Rattle.std.specs.Prelude.{◌≡◌, ◌≤◌, ◌+◌, ◌*◌, ◌^◌, ◌<◌, ◌++◌, ◌∷◌, [], ℕ, length, IsTrue, IfOk, IfErr, MatchResult, OnOk, OnErr};
ghost use Rattle.std.specs.Iterator.{IsFiniteIterable};
ghost use Rattle.std.specs.List.{list_any};
ghost use Rattle.iddqd_store.specs.Bag.Building.{FitsOn, GivesAll, GivesThen, MatchFromIterError};
ghost use Rattle.iddqd_ord.specs.Batches.{AreFree, IsOrderOf};
ghost use Rattle.iddqd_ord.specs.Inserts.{TellsWhyBehind};
ghost use Rattle.iddqd_ord.specs.Items.{items, has_key_of, most_extended, GrowsUnless};
ghost use Rattle.iddqd_ord.specs.Ordered.{IsAscending};
ghost use Rattle.iddqd_ord.specs.Extensions.{AddsTo, HasPlaceFor, RefusesFor, with_items};
ghost use Rattle.iddqd_order.specs.Row.{entries_in};

use super::IdOrdMap;
use super::batch::{insert_number, place_in};
use super::build::BLOCK;
use crate::error::{ExtendUniqueError, FromIterError, Rejected};
use crate::item::IdOrdItem;
use iddqd_order::Blocks;
use iddqd_store::{DuplicateItem, Meter};
use std::alloc::Global;

impl<T: IdOrdItem + Drop> IdOrdMap<T> {
    /// Makes a map of the items if no two of them have an equal key.
    ///
    /// At the first item that has the key of one before it, the error has that item and the one before it. If there is no
    /// memory for an item, the error has that item. All other items are dropped, with the iterator, and there is no map.
    ///
    /// For each item the call compares as many keys as `try_insert` does. It reserves no capacity for what the iterator
    /// promises: the map grows as it fills, block by block, and no item is moved for that.
    pub fn from_iter_unique<I: IntoIterator<Item = T>>(
        alloc: Global,
        iter: I,
    ) -> Result<Self, FromIterError<T>>
        requires finite { IsFiniteIterable I.into_iter_gives I.IntoIter.can_next I.IntoIter.remaining iter }
        // The map has all that the iterator gave, in ascending order, and they fit.
        ensures all { IfOk result (λ map. GivesAll I.into_iter_gives I.IntoIter.next_gives iter
            (AddsTo T.IdOrdItem T.Key.cmp [] (items map))) }
        ensures ascending { IfOk result (λ map. IsAscending T.Key.cmp T.key (items map)) }
        ensures fits { IfOk result (λ map. length (items map) ≤ map.capacity) }
        ensures most { IfOk result (λ map. map.capacity ≤ most_extended 0 (length (items map))) }
        // The error has the first item that could not be inserted, and why.
        ensures refused { IfErr result (λ e. MatchFromIterError e
            (λ x duplicate. GivesThen I.into_iter_gives I.IntoIter.next_gives iter x
            (RefusesFor T.IdOrdItem T.Key.cmp x duplicate))
            (λ x. GivesThen I.into_iter_gives I.IntoIter.next_gives iter x
            (HasPlaceFor T.IdOrdItem T.Key.cmp x))) }
    {
        let mut map = IdOrdMap::new(alloc);
        for item in iter {
            match map.place_of(item.key(), &mut Meter::new()) {
                Ok(place) => {
                    let (duplicate, _) = map.remove_in(place);
                    return Err(FromIterError::Duplicate(DuplicateItem::new(item, duplicate)));
                }
                Err(place) => {
                    if let Err(item) = map.insert_or_refuse(item, place) {
                        return Err(FromIterError::Memory(item));
                    }
                }
            }
        }
        Ok(map)
    }

    /// Inserts all the items, or none if the key of one of them is taken, by an item of the map or by another of them.
    ///
    /// The call gathers the items in a list, with their numbers in the order of their keys beside it, and reserves room for
    /// them in the map. When all have come, it moves them into the map. If the key of an item is taken, or if there is no
    /// memory for it, the error has those before it in the order given, that item, and whether its key is taken. The rest are
    /// dropped with the iterator. An item whose key is taken is refused for that, whether there is memory or not.
    ///
    /// For each item the call searches the map, then the list so far, and when all have come, the map once more. Among fewer
    /// than `4 ^ r` items, those of the list included, each search compares at most `3 * r + 19` keys. After an error the
    /// capacity may have grown.
    ///
    /// ```text
    /// if let Err(refused) = map.extend_unique(batch) {
    ///     // The map has the items that it had before, and this item was rejected.
    ///     return Err(refused.item);
    /// }
    /// ```
    pub fn extend_unique<I: IntoIterator<Item = T>>(
        &mut self,
        iter: I,
    ) -> Result<(), ExtendUniqueError<T>>
        requires finite { IsFiniteIterable I.into_iter_gives I.IntoIter.can_next I.IntoIter.remaining iter }
        // The map has its items and all that the iterator gave, in ascending order.
        ensures all { OnOk result (GivesAll I.into_iter_gives I.IntoIter.next_gives iter
            (AddsTo T.IdOrdItem T.Key.cmp (items self.old) (items self.new))) }
        ensures ascending { IsAscending T.Key.cmp T.key (items self.new) }
        // Or it has its items, and the error has the first item that could not be inserted, and those before it.
        ensures same_items { OnErr result (items self.new ≡ items self.old) }
        ensures refused { IfErr result (λ e. GivesThen I.into_iter_gives I.IntoIter.next_gives iter e.item
            (λ xs. xs ≡ e.before.items)) }
        // It says whether one of the map or of those before it has its key. If none has, memory ran out.
        ensures reason { IfErr result (TellsWhyBehind T.IdOrdItem T.Key.cmp (items self.old)) }
        // The capacity has a bound by how many items there are, or would be with those that came.
        ensures most { MatchResult result
            (λ _. self.new.capacity ≤ most_extended self.old.capacity (length (items self.new)))
            (λ e. self.new.capacity ≤ most_extended self.old.capacity (length (items self.old) + length e.before.items + 1)) }
        ensures grows_unless { GrowsUnless
            (FitsOn I.into_iter_gives I.IntoIter.remaining iter (length (items self.old)) self.old.capacity)
            self.old self.new }
    {
        self.note_order();
        let alloc = self.items.allocator();
        let mut before = Vec::new(alloc);
        let mut numbers = Blocks::new(alloc, BLOCK);
        for item in iter {
            if let Err(rejected) = self.gather(item, &mut before, &mut numbers, &mut Meter::new()) {
                return Err(ExtendUniqueError {
                    before,
                    item: rejected.item,
                    taken: rejected.taken,
                });
            }
        }
        self.insert_all(before);
        self.note_order();
        Ok(())
    }

    /// Appends an item to a list if neither the map nor the list has its key, enters its number among theirs, and reserves room
    /// in the map for all items of the list.
    fn gather(
        &mut self,
        item: T,
        before: &mut Vec<T>,
        numbers: &mut Blocks<usize>,
        meter: &mut Meter,
    ) -> Result<(), Rejected<T>>
        requires index { IsOrderOf T.IdOrdItem T.Key.cmp before.old.items (entries_in numbers.old) }
        requires free { AreFree T.IdOrdItem T.Key.cmp (items self.old) before.old.items }
        ensures keeps { (items self.new ≡ items self.old) × GrowsUnless
            (length (items self.old) + (length before.old.items + 1) ≤ self.old.capacity) self.old self.new }
        ensures most { self.new.capacity ≤ most_extended self.old.capacity (length (items self.old) + length before.old.items + 1) }
        ensures gathered { OnOk result ((before.new.items ≡ before.old.items ++ item ∷ [])
            × IsOrderOf T.IdOrdItem T.Key.cmp before.new.items (entries_in numbers.new)
            × AreFree T.IdOrdItem T.Key.cmp (items self.old) before.new.items
            × (length (items self.old) + length before.new.items ≤ self.new.capacity)) }
        ensures handed_back { IfErr result (λ e. (e.item ≡ item)
            × (e.taken ≡ list_any (has_key_of T.IdOrdItem T.Key.cmp item) (items self.old ++ before.old.items))) }
        ensures same_list { OnErr result (before.new.items ≡ before.old.items) }
        ensures asked { (r : ℕ) → length (items self.old) < 4 ^ r → length before.old.items < 4 ^ r
            → meter.new ≤ meter.old + 2 * (3 * r + 19) }
    {
        if let Ok(_) = self.place_of(item.key(), meter) {
            return Err(Rejected { item, taken: true });
        }
        match place_in(numbers, before, &item, meter) {
            Ok(_) => Err(Rejected { item, taken: true }),
            Err(place) => {
                let count = before.len();
                if !self.has_room_for(count) || before.reserve(1).is_err() {
                    return Err(Rejected { item, taken: false });
                }
                match insert_number(numbers, place, count) {
                    Ok(()) => {
                        before.push_reserved(item);
                        Ok(())
                    }
                    Err(_) => Err(Rejected { item, taken: false }),
                }
            }
        }
    }

    /// Reserves room for this many items and one more. Returns whether there was memory for that.
    fn has_room_for(&mut self, count: usize) -> bool
        ensures items { items self.new ≡ items self.old }
        ensures grows_unless { GrowsUnless (length (items self.old) + (count + 1) ≤ self.old.capacity) self.old self.new }
        ensures most { self.new.capacity ≤ most_extended self.old.capacity (length (items self.old) + count + 1) }
        ensures room { IsTrue result → length (items self.new) + (count + 1) ≤ self.new.capacity }
    {
        match count.checked_add(1) {
            Some(wanted) => match self.reserve(wanted) {
                Ok(()) => true,
                Err(_) => false,
            },
            None => false,
        }
    }

    /// Inserts the items of a list, none of which has the key of an item here or of one before it. There has to be room.
    fn insert_all(&mut self, list: Vec<T>)
        requires free { AreFree T.IdOrdItem T.Key.cmp (items self.old) list.items }
        requires room { length (items self.old) + length list.items ≤ self.old.capacity }
        ensures items { items self.new ≡ with_items T.IdOrdItem T.Key.cmp (items self.old) list.items }
        ensures capacity { self.new.capacity ≡ self.old.capacity }
    {
        for item in list {
            match self.try_insert(item) {
                Ok(()) => {}
                Err(_) => unreachable!(),
            }
        }
    }
}
