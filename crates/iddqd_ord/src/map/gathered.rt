//! Items that are gathered in a list, and go into the map together, in the order of their keys.
ghost use Rattle.std.specs.Prelude.{◌≡◌, ◌+◌, ◌≤◌, ◌++◌, ◌∷◌, [], length, false, IsTrue, IfErr, OnOk, IsOk};
ghost use Rattle.iddqd_ord.specs.Batches.{Gathers, StopsAt};
ghost use Rattle.iddqd_ord.specs.Extensions.{ExtendsTo};
ghost use Rattle.iddqd_ord.specs.Items.{items, most_extended, GrowsUnless, IsFullFor};

use super::IdOrdMap;
use super::build::BLOCK;
use crate::item::IdOrdItem;
use iddqd_store::{MemoryRefused, Meter};
use std::cmp::Ordering;
use std::mem::replace;

/// If so many keys ascend, the next ones may too.
const RUN: usize = 32;

/// Returns whether each item of a list has a lower key than the next one. No result depends on it.
fn rises<T: IdOrdItem>(list: &[T]) -> bool {
    for i in 1..list.len() {
        if list[i - 1].key().cmp(list[i].key()) != Ordering::Less {
            return false;
        }
    }
    true
}

impl<T: IdOrdItem + Drop> IdOrdMap<T> {
    /// Puts an item behind all others, if its key is higher than theirs and none is gathered, and else gathers it. If those that
    /// are gathered ascend, or if there is no memory for a longer list, all of them and this one go into the map.
    // The first items are gathered even if they go behind all others of an empty map: those that follow in no order would each be
    // sought among them.
    #[inline(always)]
    pub(super) fn put_or_gather(
        &mut self,
        list: &mut Vec<T>,
        item: T,
    ) -> Result<(), MemoryRefused<T>>
        requires { length (items self.old) ≤ self.old.capacity }
        ensures gathers { OnOk result
            (Gathers T.IdOrdItem T.Key.cmp self.old (list.old.items ++ item ∷ []) self.new list.new.items) }
        ensures stops { IfErr result (λ e. StopsAt T.IdOrdItem T.Key.cmp self.old (list.old.items ++ item ∷ []) e.value self.new) }
        ensures full { IfErr result (λ e. IsFullFor T.IdOrdItem T.Key.cmp self.new e.value) }
        ensures granted { length (items self.old) + (length list.old.items + 1) ≤ self.old.capacity → IsOk result }
    {
        if list.is_empty() {
            if let Some(place) = self.place_at_end(item.key(), &mut Meter::new()) {
                return match self.insert_or_refuse(item, place) {
                    Ok(_) => Ok(()),
                    Err(value) => Err(MemoryRefused { value }),
                };
            }
        }
        if (list.len() != RUN || !rises(list)) && list.reserve(1).is_ok() {
            list.push_reserved(item);
            return Ok(());
        }
        let alloc = self.items.allocator();
        self.put_all_and(replace(list, Vec::new(alloc)), item)
    }

    /// Puts the items of a list into the map as `put_all` does, and then one more.
    #[cold]
    #[inline(never)]
    fn put_all_and(&mut self, list: Vec<T>, item: T) -> Result<(), MemoryRefused<T>>
        requires { length (items self.old) ≤ self.old.capacity }
        ensures all { OnOk result (ExtendsTo T.IdOrdItem T.Key.cmp self.old (list.items ++ item ∷ []) self.new) }
        ensures stops { IfErr result (λ e. StopsAt T.IdOrdItem T.Key.cmp self.old (list.items ++ item ∷ []) e.value self.new) }
        ensures full { IfErr result (λ e. IsFullFor T.IdOrdItem T.Key.cmp self.new e.value) }
        ensures granted { length (items self.old) + (length list.items + 1) ≤ self.old.capacity → IsOk result }
    {
        self.put_all(list)?;
        drop(self.insert_overwrite(item)?);
        Ok(())
    }

    /// Puts the items of a list into the map as `extend` does. It reserves room for all of them first, so that none is refused, and
    /// their order among each other means nothing but for those with an equal key, which a sort leaves in the order given. If
    /// there is no memory for that, it puts them in the order given.
    #[inline(never)]
    pub(super) fn put_all(&mut self, mut list: Vec<T>) -> Result<(), MemoryRefused<T>>
        requires { length (items self.old) ≤ self.old.capacity }
        ensures all { OnOk result (ExtendsTo T.IdOrdItem T.Key.cmp self.old list.items self.new) }
        ensures stops { IfErr result (λ e. StopsAt T.IdOrdItem T.Key.cmp self.old list.items e.value self.new) }
        ensures full { IfErr result (λ e. IsFullFor T.IdOrdItem T.Key.cmp self.new e.value) }
        ensures granted { length (items self.old) + length list.items ≤ self.old.capacity → IsOk result }
    {
        let room = self.capacity();
        if !self.has_room_for_all(&list) {
            return self.put_each(list);
        }
        // Where there is no memory to sort them, the items stay in the order given.
        let _ = list.sort_by(|x, y| x.key().cmp(y.key()));
        match self.put_each(list) {
            Ok(()) => {}
            Err(_) => unreachable!(),
        }
        self.give_back(room);
        Ok(())
    }

    /// Reserves room for the items of a list. Returns whether there was memory for that.
    fn has_room_for_all(&mut self, list: &[T]) -> bool
        ensures items { items self.new ≡ items self.old }
        ensures grows_unless { GrowsUnless (length (items self.old) + length list.now ≤ self.old.capacity) self.old self.new }
        ensures most { self.new.capacity ≤ most_extended self.old.capacity (length (items self.old) + length list.now) }
        ensures room { IsTrue result → length (items self.new) + length list.now ≤ self.new.capacity }
        ensures unchanged { result ≡ false → self.new ≡ self.old }
    {
        if let Some(first) = list.first() {
            self.items.suit(first);
        }
        match self.reserve(list.len()) {
            Ok(()) => true,
            Err(_) => false,
        }
    }

    /// Puts the items of a list into the map, in the order given.
    fn put_each(&mut self, list: Vec<T>) -> Result<(), MemoryRefused<T>>
        requires { length (items self.old) ≤ self.old.capacity }
        ensures all { OnOk result (ExtendsTo T.IdOrdItem T.Key.cmp self.old list.items self.new) }
        ensures stops { IfErr result (λ e. StopsAt T.IdOrdItem T.Key.cmp self.old list.items e.value self.new) }
        ensures full { IfErr result (λ e. IsFullFor T.IdOrdItem T.Key.cmp self.new e.value) }
        ensures granted { length (items self.old) + length list.items ≤ self.old.capacity → IsOk result }
    {
        for item in list {
            drop(self.insert_overwrite(item)?);
        }
        Ok(())
    }

    /// Lowers the capacity to `least`, but not below the number of items, if that frees more than two blocks.
    fn give_back(&mut self, least: usize)
        requires { least ≤ self.old.capacity }
        ensures items { items self.new ≡ items self.old }
        ensures least { least ≤ self.new.capacity }
        ensures no_more { self.new.capacity ≤ self.old.capacity }
        ensures fits { length (items self.new) ≤ self.new.capacity }
    {
        let wanted = self.len().max(least);
        if 2 * BLOCK < self.capacity() - wanted {
            self.items.lower_capacity(wanted);
        }
    }
}
