//! Iterating over items in their order, from both ends.
ghost use Rattle.std.specs.Prelude.{◌≡◌, length, Some, All, IfSome};
ghost use Rattle.std.specs.Iterator.{YieldsFirstRef, YieldsLastRef, UpTo, item_count};
ghost use Rattle.std.specs.Iterator.SizeHint.{IsWithinCount};
ghost use Rattle.iddqd_store.specs.Slots.{IsLive};
ghost use Rattle.iddqd_sorted.specs.Entries.{items_in};

use crate::entry::Entry;
use crate::item::Sortable;
use iddqd_store::ItemSet;
use std::fmt::{self, Debug, Formatter, Write};
use std::iter::{DoubleEndedIterator, ExactSizeIterator, FusedIterator};
use std::marker::Model;

/// Iterates over references to items in the order of a map, from both ends. Contracts see the items that are left, as a list.
///
/// `len` and `size_hint` are exact. For an iterator over all items they take one step. For one over a part they take one step for
/// each block of the order that is not yet begun.
#[derive(Drop)]
pub struct Iter<'a, T: Sortable> {
    items: &'a ItemSet<T>,
    entries: iddqd_order::Iter<'a, Entry<T::SortKey>>,
}

impl<'a, T: Sortable> Model for Iter<'a, T> {
    ghost use Rattle.std.specs.Prelude.{List, All};
    ghost use Rattle.iddqd_store.specs.Slots.{IsLive};
    ghost use Rattle.iddqd_sorted.specs.Entries.{items_in};

    ghost Value = { List T };

    ghost view = { λ it. items_in it.items.now.slots it.entries };

    ghost invariant = { λ it. All (λ e. IsLive it.items.now.slots e.slot) it.entries };
}

impl<'a, T: Sortable> Iter<'a, T> {
    /// Iterates over the items of these entries.
    pub(crate) fn over(
        items: &'a ItemSet<T>,
        entries: iddqd_order::Iter<'a, Entry<T::SortKey>>,
    ) -> Self
        requires { All (λ e. IsLive items.now.slots e.slot) entries }
        ensures gives { result ≡ items_in items.now.slots entries.entry }
        ensures as_many { length result ≡ length entries.entry }
    {
        Iter { items, entries }
    }

    /// Returns an iterator over the items that are left.
    pub fn clone(&self) -> Self
        ensures { result ≡ self.now }
    {
        Iter {
            items: self.items,
            entries: self.entries.clone(),
        }
    }
}

impl<'a, T: Sortable> Iterator for Iter<'a, T> {
    type Item = &'a T;

    ghost next_gives = { YieldsFirstRef (λ rest. rest) };

    ghost remaining = { item_count (λ rest. rest) };

    fn next(&mut self) -> Option<&'a T> {
        let Some(entry) = self.entries.next() else {
            return None;
        };
        Some(self.items.item(entry.slot))
    }

    fn size_hint(&self) -> (usize, Option<usize>)
        ensures lower { IsWithinCount result.0 (item_count (λ rest. rest) self.now) }
        ensures upper { IfSome result.1 (UpTo (item_count (λ rest. rest) self.now)) }
        ensures exact { result ≡ (length self.now, Some (length self.now)) }
    {
        let left = self.len();
        (left, Some(left))
    }
}

impl<'a, T: Sortable> DoubleEndedIterator for Iter<'a, T> {
    ghost next_back_gives = { YieldsLastRef (λ rest. rest) };

    fn next_back(&mut self) -> Option<&'a T> {
        let Some(entry) = self.entries.next_back() else {
            return None;
        };
        Some(self.items.item(entry.slot))
    }
}

impl<'a, T: Sortable> FusedIterator for Iter<'a, T> {}

impl<'a, T: Sortable> ExactSizeIterator for Iter<'a, T> {
    /// Returns the number of items that are left.
    fn len(&self) -> usize {
        self.entries.len()
    }
}

impl<T: Sortable + Debug> Debug for Iter<'_, T> {
    /// Writes the items that are left as a list.
    fn fmt<W: Write>(&self, f: &mut Formatter<W>) -> fmt::Result {
        f.debug_list().entries(self.clone()).finish()
    }
}
