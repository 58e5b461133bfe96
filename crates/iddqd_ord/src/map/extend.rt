//! Inserting many items at once.
ghost use Rattle.std.specs.Prelude.{◌≡◌, ◌≤◌, [], length, false, IfOk, IfErr, OnOk, IsOk};
ghost use Rattle.std.specs.Iterator.{IsFiniteIterable};
ghost use Rattle.std.specs.List.{list_any};
ghost use Rattle.iddqd_store.specs.Bag.Building.{GivesAll, GivesThen, FitsOn};
ghost use Rattle.iddqd_ord.specs.Extensions.{ExtendsTo, with_items};
ghost use Rattle.iddqd_ord.specs.Items.{items, has_key_of, most_extended, IsFullFor};

use super::IdOrdMap;
use crate::item::IdOrdItem;
use iddqd_store::MemoryRefused;
use std::alloc::Global;

impl<T: IdOrdItem + Drop> IdOrdMap<T> {
    /// Inserts the items as `insert_overwrite` does one after the other, and drops those that this removes.
    ///
    /// If there is no memory for an item, the error has that item. Those before it stay in the map, and the rest are dropped
    /// with the iterator.
    ///
    /// While each item has a higher key than all before it, the call inserts it at the end, and compares one key. Otherwise it
    /// gathers the items in a list, reserves room for as many, sorts them, and inserts each as `insert_overwrite` does. So the
    /// comparisons are those of a sort, and one more for each item that goes to the end. What was reserved for more than a few
    /// items whose keys were there already goes back. If there is no memory for all that, the items go in one by one in the
    /// order given, as far as there is.
    pub fn extend<I: IntoIterator<Item = T>>(&mut self, iter: I) -> Result<(), MemoryRefused<T>>
        requires finite { IsFiniteIterable I.into_iter_gives I.IntoIter.can_next I.IntoIter.remaining iter }
        // After `Ok`, each item was put into the map; after an error, each item before the returned one.
        ensures all { OnOk result (GivesAll I.into_iter_gives I.IntoIter.next_gives iter (λ xs.
            ExtendsTo T.IdOrdItem T.Key.cmp self.old xs self.new)) }
        ensures refused { IfErr result (λ e. GivesThen I.into_iter_gives I.IntoIter.next_gives iter e.value (λ xs.
            ExtendsTo T.IdOrdItem T.Key.cmp self.old xs self.new)) }
        // The call fails only if the map is full and no item has the key.
        ensures full { IfErr result (λ e. IsFullFor T.IdOrdItem T.Key.cmp self.new e.value) }
        // If as many items fit as the iterator may give, the call succeeds, and the capacity stays.
        ensures granted { FitsOn I.into_iter_gives I.IntoIter.remaining iter (length (items self.old)) self.old.capacity
            → IsOk result }
        ensures same_room { FitsOn I.into_iter_gives I.IntoIter.remaining iter (length (items self.old)) self.old.capacity
            → self.new.capacity ≡ self.old.capacity }
    {
        self.note_order();
        let alloc = self.items.allocator();
        let mut list = Vec::new(alloc);
        for item in iter {
            self.put_or_gather(&mut list, item)?;
        }
        self.put_all(list)?;
        Ok(())
    }

    /// Makes a map of the items. It inserts each as `insert_overwrite` does, and drops the items that this removes.
    ///
    /// If there is no memory for an item, the error has that item, and there is no map. The call costs what `extend` costs.
    pub fn from_iter<I: IntoIterator<Item = T>>(
        alloc: Global,
        iter: I,
    ) -> Result<Self, MemoryRefused<T>>
        requires finite { IsFiniteIterable I.into_iter_gives I.IntoIter.can_next I.IntoIter.remaining iter }
        ensures all { IfOk result (λ map. GivesAll I.into_iter_gives I.IntoIter.next_gives iter (λ xs.
            items map ≡ with_items T.IdOrdItem T.Key.cmp [] xs)) }
        ensures fits { IfOk result (λ map. length (items map) ≤ map.capacity) }
        // Whatever the iterator promises, the capacity has a bound by what it gave.
        ensures most { IfOk result (λ map. GivesAll I.into_iter_gives I.IntoIter.next_gives iter (λ xs.
            map.capacity ≤ most_extended 0 (length xs))) }
        ensures refused { IfErr result (λ e. GivesThen I.into_iter_gives I.IntoIter.next_gives iter e.value (λ xs.
            list_any (has_key_of T.IdOrdItem T.Key.cmp e.value) (with_items T.IdOrdItem T.Key.cmp [] xs) ≡ false)) }
    {
        let mut map = IdOrdMap::new(alloc);
        map.extend(iter)?;
        Ok(map)
    }
}
