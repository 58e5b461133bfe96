//! The iterator over a short list by reference.
ghost use Rattle.std.specs.Prelude.{◌≡◌, length, IfSome, Some};
ghost use Rattle.std.specs.Iterator.{YieldsFirstRef, UpTo, item_count};
ghost use Rattle.std.specs.Iterator.SizeHint.{IsWithinCount};

use std::fmt::{self, Debug, Formatter, Write};
use std::iter::FusedIterator;
use std::marker::Model;
use std::mem;

/// Iterates over references to the items of a short list, in their order. Contracts see the items that are left, as a
/// list.
#[derive(Drop)]
pub struct ShortIter<'a, T> {
    pub(crate) first: Option<&'a T>,
    pub(crate) second: Option<&'a T>,
    pub(crate) third: Option<&'a T>,
}

impl<'a, T> Model for ShortIter<'a, T> {
    ghost use Rattle.std.specs.Prelude.{List, ◌≡◌, ◌++◌, None, option_copied};
    ghost use Rattle.std.specs.Option.{option_to_list};

    ghost Value = { List T };

    ghost view = { λ it. option_to_list (option_copied it.first) ++ option_to_list (option_copied it.second)
        ++ option_to_list (option_copied it.third) };

    ghost invariant = { λ it. (it.first ≡ None → it.second ≡ None) × (it.second ≡ None → it.third ≡ None) };
}

impl<'a, T> ShortIter<'a, T> {
    /// Returns an iterator over the items that are left.
    pub fn clone(&self) -> Self
        ensures { result ≡ self.now }
    {
        ShortIter {
            first: self.first,
            second: self.second,
            third: self.third,
        }
    }
}

impl<'a, T> Iterator for ShortIter<'a, T> {
    type Item = &'a T;

    ghost next_gives = { YieldsFirstRef (λ rest. rest) };

    ghost remaining = { item_count (λ rest. rest) };

    fn next(&mut self) -> Option<&'a T> {
        let third = self.third.take();
        let second = mem::replace(&mut self.second, third);
        mem::replace(&mut self.first, second)
    }

    fn size_hint(&self) -> (usize, Option<usize>)
        ensures lower { IsWithinCount result.0 (item_count (λ rest. rest) self.now) }
        ensures upper { IfSome result.1 (UpTo (item_count (λ rest. rest) self.now)) }
        ensures exact { result ≡ (length self.now, Some (length self.now)) }
    {
        let left = self.len();
        (left, Some(left))
    }
}

impl<'a, T> ExactSizeIterator for ShortIter<'a, T> {
    fn len(&self) -> usize {
        match (&self.first, &self.second, &self.third) {
            (None, _, _) => 0,
            (Some(_), None, _) => 1,
            (Some(_), Some(_), None) => 2,
            (Some(_), Some(_), Some(_)) => 3,
        }
    }
}

impl<'a, T> FusedIterator for ShortIter<'a, T> {}

impl<T: Debug> Debug for ShortIter<'_, T> {
    /// Writes the items that are left as a list.
    fn fmt<W: Write>(&self, f: &mut Formatter<W>) -> fmt::Result {
        f.debug_list().entries(self.clone()).finish()
    }
}
