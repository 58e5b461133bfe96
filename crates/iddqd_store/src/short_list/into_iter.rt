//! The iterator over a short list by value.
ghost use Rattle.std.specs.Prelude.{◌≡◌, length, IfSome, Some};
ghost use Rattle.std.specs.Iterator.{YieldsFirst, UpTo, item_count};
ghost use Rattle.std.specs.Iterator.SizeHint.{IsWithinCount};

use super::ShortList;
use std::fmt::{self, Debug, Formatter, Write};
use std::iter::FusedIterator;

/// Iterates over the items of a short list by value, in their order. Items that are not asked for are dropped with
/// it.
#[derive(Drop)]
pub struct ShortIntoIter<L> {
    left: L,
}

impl<L> ShortIntoIter<L> {
    /// Makes the iterator over this list.
    pub(crate) fn new(list: L) -> Self
        ensures { result.left ≡ list }
    {
        ShortIntoIter { left: list }
    }
}

impl<L: ShortList + Drop> Iterator for ShortIntoIter<L> {
    type Item = L::Item;

    ghost next_gives = { YieldsFirst (λ it. L.list it.left) };

    ghost remaining = { item_count (λ it. L.list it.left) };

    fn next(&mut self) -> Option<L::Item> {
        self.left.pop_front()
    }

    fn size_hint(&self) -> (usize, Option<usize>)
        ensures lower { IsWithinCount result.0 (item_count (λ it. L.list it.left) self.now) }
        ensures upper { IfSome result.1 (UpTo (item_count (λ it. L.list it.left) self.now)) }
        ensures exact { result ≡ (length (L.list self.now.left), Some (length (L.list self.now.left))) }
    {
        let left = self.left.len();
        (left, Some(left))
    }
}

impl<L: ShortList + Drop> ExactSizeIterator for ShortIntoIter<L> {
    fn len(&self) -> usize {
        self.left.len()
    }
}

impl<L: ShortList + Drop> FusedIterator for ShortIntoIter<L> {}

impl<L: Debug> Debug for ShortIntoIter<L> {
    /// Writes the items that are left as a list.
    fn fmt<W: Write>(&self, f: &mut Formatter<W>) -> fmt::Result {
        Debug::fmt(&self.left, f)
    }
}
