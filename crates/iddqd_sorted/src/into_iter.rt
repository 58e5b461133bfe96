//! Iterating by value, in the order of a map, from both ends.
ghost use Rattle.std.specs.Prelude.{◌≡◌, length, Some, IfSome};
ghost use Rattle.std.specs.Iterator.{YieldsFirst, YieldsLast, UpTo, item_count};
ghost use Rattle.std.specs.Iterator.SizeHint.{IsWithinCount};
ghost use Rattle.std.specs.Map.Iter.{GivesInOrder};
ghost use Rattle.iddqd_sorted.specs.Items.{items};

use crate::item::Sortable;
use crate::map::Sorted;
use iddqd_store::SlotMap;
use std::fmt::{self, Debug, Formatter, Write};
use std::iter::{DoubleEndedIterator, ExactSizeIterator, FusedIterator};
use std::marker::Model;

/// Iterates over the items of a map by value, in its order, from both ends. Contracts see the items that are left, as a list.
///
/// A step removes an item as `pop_first` or `pop_last` does: it compares no key, hashes each key of the item once, and allocates no
/// memory. `len` and `size_hint` are exact, and take one step.
#[derive(Drop)]
pub struct IntoIter<M: SlotMap>
where
    M::Item: Sortable,
    M::FirstKey: Ord,
{
    left: Sorted<M>,
}

impl<M: SlotMap> Model for IntoIter<M>
where
    M::Item: Sortable,
    M::FirstKey: Ord,
{
    ghost use Rattle.std.specs.Prelude.{List};
    ghost use Rattle.iddqd_sorted.specs.Items.{items};

    ghost Value = { List M.Item };

    ghost view = { λ it. items it.left };
}

impl<M: SlotMap + Drop> Iterator for IntoIter<M>
where
    M::Item: Sortable,
    M::FirstKey: Ord,
{
    type Item = M::Item;

    ghost next_gives = { YieldsFirst (λ rest. rest) };

    ghost remaining = { item_count (λ rest. rest) };

    fn next(&mut self) -> Option<M::Item> {
        self.left.pop_first()
    }

    fn size_hint(&self) -> (usize, Option<usize>)
        ensures lower { IsWithinCount result.0 (item_count (λ rest. rest) self.now) }
        ensures upper { IfSome result.1 (UpTo (item_count (λ rest. rest) self.now)) }
        ensures exact { result ≡ (length self.now, Some (length self.now)) }
    {
        let left = self.left.len();
        (left, Some(left))
    }
}

impl<M: SlotMap + Drop> DoubleEndedIterator for IntoIter<M>
where
    M::Item: Sortable,
    M::FirstKey: Ord,
{
    ghost next_back_gives = { YieldsLast (λ rest. rest) };

    fn next_back(&mut self) -> Option<M::Item> {
        self.left.pop_last()
    }
}

impl<M: SlotMap + Drop> FusedIterator for IntoIter<M>
where
    M::Item: Sortable,
    M::FirstKey: Ord,
{}

impl<M: SlotMap + Drop> ExactSizeIterator for IntoIter<M>
where
    M::Item: Sortable,
    M::FirstKey: Ord,
{
    /// Returns the number of items that are left.
    fn len(&self) -> usize {
        self.left.len()
    }
}

impl<M: SlotMap> Debug for IntoIter<M>
where
    M::Item: Sortable,
    M::FirstKey: Ord,
{
    /// Writes how many items are left, and none of them.
    fn fmt<W: Write>(&self, f: &mut Formatter<W>) -> fmt::Result {
        f.debug_struct("IntoIter")
            .field("len", &self.left.len())
            .finish_non_exhaustive()
    }
}

impl<M: SlotMap + Drop> IntoIterator for Sorted<M>
where
    M::Item: Sortable,
    M::FirstKey: Ord,
{
    type Item = M::Item;

    type IntoIter = IntoIter<M>;

    ghost into_iter_gives = { λ m it. (it ≡ items m) × GivesInOrder M.Item };

    fn into_iter(self) -> IntoIter<M> {
        IntoIter { left: self }
    }
}
