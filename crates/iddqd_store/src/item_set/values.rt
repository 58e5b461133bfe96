//! The iterators over the items of a set, in the order of the slots. They are the iterators of the maps.
ghost use Rattle.std.specs.Prelude.{◌≡◌, [], ◌<◌, ◌^◌, length, Some, IfSome};
ghost use Rattle.std.specs.Iterator.{YieldsFirst, YieldsFirstRef, UpTo, item_count};
ghost use Rattle.std.specs.Iterator.SizeHint.{IsWithinCount};
ghost use Rattle.iddqd_store.specs.Slots.{contents, live_count};

use super::{ItemSet, Slot};
use std::fmt::{self, Debug, Formatter, Write};
use std::iter::FusedIterator;
use std::marker::Model;
use std::vec;

/// Iterates over references to the items of a set, each once. `len` takes one step. Contracts see the items that are
/// left, as a list.
#[derive(Drop)]
pub struct Iter<'a, T> {
    slots: &'a [Slot<T>],
    // How many of the slots are live.
    len: usize,
}

impl<'a, T> Model for Iter<'a, T> {
    ghost use Rattle.std.specs.Prelude.{List, map, ◌≡◌, length};
    ghost use Rattle.iddqd_store.specs.Slots.{contents};
    ghost use Rattle.iddqd_store.specs.Slots.Chain.{item_of};

    ghost Value = { List T };

    ghost view = { λ it. contents (map item_of it.slots.now) };

    ghost invariant = { λ it. it.len ≡ length (contents (map item_of it.slots.now)) };
}

impl<'a, T> Iter<'a, T> {
    /// Returns an iterator over the items that are left.
    pub fn clone(&self) -> Self
        ensures { result ≡ self.now }
    {
        Iter {
            slots: self.slots,
            len: self.len,
        }
    }

    /// Returns an iterator over no items.
    pub fn default() -> Self
        ensures { result ≡ [] }
    {
        Iter { slots: &[], len: 0 }
    }
}

impl<'a, T> Iterator for Iter<'a, T> {
    type Item = &'a T;

    ghost next_gives = { YieldsFirstRef (λ rest. rest) };

    ghost remaining = { item_count (λ rest. rest) };

    fn next(&mut self) -> Option<&'a T> {
        // Most slots are live, so the first one is visited before the loop. A caller's loop then runs as one loop,
        // and not as an inner loop for each of its turns.
        let (slot, rest) = self.slots.split_first()?;
        self.slots = rest;
        if let Slot::Live(item) = slot {
            self.len -= 1;
            return Some(item);
        }
        while let Some((slot, rest)) = self.slots.split_first() {
            self.slots = rest;
            if let Slot::Live(item) = slot {
                self.len -= 1;
                return Some(item);
            }
        }
        None
    }

    fn size_hint(&self) -> (usize, Option<usize>)
        ensures lower { IsWithinCount result.0 (item_count (λ rest. rest) self.now) }
        ensures upper { IfSome result.1 (UpTo (item_count (λ rest. rest) self.now)) }
        ensures exact { result ≡ (length self.now, Some (length self.now)) }
    {
        (self.len, Some(self.len))
    }
}

impl<'a, T> ExactSizeIterator for Iter<'a, T> {
    fn len(&self) -> usize {
        self.len
    }
}

impl<'a, T> FusedIterator for Iter<'a, T> {}

impl<T: Debug> Debug for Iter<'_, T> {
    /// Writes the items that are left as a list.
    fn fmt<W: Write>(&self, f: &mut Formatter<W>) -> fmt::Result {
        f.debug_list().entries(self.clone()).finish()
    }
}

/// Iterates over the items of a set by value, each once. `len` takes one step. Contracts see the items that are left,
/// as a list.
#[derive(Drop)]
pub struct IntoIter<T> {
    slots: vec::IntoIter<Slot<T>>,
    // How many of the slots are live.
    len: usize,
}

impl<T> Model for IntoIter<T> {
    ghost use Rattle.std.specs.Prelude.{List, map, ◌≡◌, length};
    ghost use Rattle.std.specs.Vec.Iter.{into_iter_items};
    ghost use Rattle.iddqd_store.specs.Slots.{contents};
    ghost use Rattle.iddqd_store.specs.Slots.Chain.{item_of};

    ghost Value = { List T };

    ghost view = { λ it. contents (map item_of (into_iter_items it.slots)) };

    ghost invariant = { λ it. it.len ≡ length (contents (map item_of (into_iter_items it.slots))) };
}

impl<T: Drop> Iterator for IntoIter<T> {
    type Item = T;

    ghost next_gives = { YieldsFirst (λ rest. rest) };

    ghost remaining = { item_count (λ rest. rest) };

    fn next(&mut self) -> Option<T> {
        // The first slot is visited before the loop, for the reason in `next` of `Iter`.
        let first = self.slots.next()?;
        if let Slot::Live(item) = first {
            self.len -= 1;
            return Some(item);
        }
        while let Some(slot) = self.slots.next() {
            if let Slot::Live(item) = slot {
                self.len -= 1;
                return Some(item);
            }
        }
        None
    }

    fn size_hint(&self) -> (usize, Option<usize>)
        ensures lower { IsWithinCount result.0 (item_count (λ rest. rest) self.now) }
        ensures upper { IfSome result.1 (UpTo (item_count (λ rest. rest) self.now)) }
        ensures exact { result ≡ (length self.now, Some (length self.now)) }
    {
        let left = self.len;
        (left, Some(left))
    }
}

impl<T: Drop> ExactSizeIterator for IntoIter<T> {
    fn len(&self) -> usize {
        self.len
    }
}

impl<T: Drop> FusedIterator for IntoIter<T> {}

impl<T> Debug for IntoIter<T> {
    /// Writes how many items are left, and none of them.
    fn fmt<W: Write>(&self, f: &mut Formatter<W>) -> fmt::Result {
        f.debug_struct("IntoIter")
            .field("len", &self.len)
            .finish_non_exhaustive()
    }
}

impl<T> ItemSet<T> {
    /// Returns an iterator over references to the items, in the order of the slots. It allocates nothing.
    pub fn values(&self) -> Iter<'_, T>
        ensures gives { result ≡ contents self.now.slots }
        ensures len { length result ≡ live_count self.now.slots }
        ensures countable { live_count self.now.slots < 2 ^ 64 }
    {
        Iter {
            slots: self.slots.as_slice(),
            len: self.live,
        }
    }

    /// Returns an iterator over the items by value, in the order of the slots. Items that are not asked for are
    /// dropped with the iterator.
    pub fn into_values(self) -> IntoIter<T>
    where
        T: Drop,
        ensures gives { result ≡ contents self.slots }
        ensures len { length result ≡ live_count self.slots }
        ensures countable { live_count self.slots < 2 ^ 64 }
    {
        let ItemSet {
            slots,
            live,
            next_free: _,
            lowest: _,
        } = self;
        IntoIter {
            slots: slots.into_iter(),
            len: live,
        }
    }
}
