//! A list of at most three items, kept inline.
ghost use Rattle.std.specs.Prelude.{◌≡◌, ◌<◌, ◌≤◌, ◌++◌, ◌∷◌, ◌==◌, [], length, option_copied, slice_get, IfNone};
ghost use Rattle.std.specs.Option.{option_to_list};

use super::{ShortIntoIter, ShortIter};
use crate::item_set::ItemIndex;
use std::cmp::{Eq, PartialEq};
use std::fmt::{self, Debug, Formatter, Write};
use std::marker::Model;
use std::mem;

/// A list of at most three items, kept inline (an array with a length). No call allocates. Contracts see a list.
#[derive(Drop)]
pub struct UpToThree<T> {
    first: Option<T>,
    second: Option<T>,
    third: Option<T>,
}

impl<T> Model for UpToThree<T> {
    ghost use Rattle.std.specs.Prelude.{List, ◌≡◌, ◌++◌, None};
    ghost use Rattle.std.specs.Option.{option_to_list};

    ghost Value = { List T };

    ghost view = { λ s. option_to_list s.first ++ option_to_list s.second ++ option_to_list s.third };

    ghost invariant = { λ s. (s.first ≡ None → s.second ≡ None) × (s.second ≡ None → s.third ≡ None) };
}

impl<T> UpToThree<T> {
    /// Makes an empty list.
    pub fn new() -> Self
        ensures { result ≡ [] }
    {
        UpToThree {
            first: None,
            second: None,
            third: None,
        }
    }

    /// Returns the number of items, at most three.
    pub fn len(&self) -> usize
        ensures value { result ≡ length self.now }
        ensures short { result ≤ 3 }
    {
        match (&self.first, &self.second, &self.third) {
            (None, _, _) => 0,
            (Some(_), None, _) => 1,
            (Some(_), Some(_), None) => 2,
            (Some(_), Some(_), Some(_)) => 3,
        }
    }

    /// Returns whether the list is empty.
    pub fn is_empty(&self) -> bool
        ensures { result ≡ (length self.now == 0) }
    {
        self.len() == 0
    }

    /// Returns the item at this place, counted from 0, or `None` if there are fewer items.
    pub fn get(&self, index: usize) -> Option<&T>
        ensures { option_copied result ≡ slice_get self.now index }
    {
        match index {
            0 => self.first.as_ref(),
            1 => self.second.as_ref(),
            2 => self.third.as_ref(),
            _ => None,
        }
    }

    /// Returns the first item, or `None` if the list is empty.
    pub fn first(&self) -> Option<&T>
        ensures { option_copied result ≡ slice_get self.now 0 }
    {
        self.first.as_ref()
    }

    /// Returns an iterator over references to the items, in their order.
    pub fn iter(&self) -> ShortIter<'_, T>
        ensures gives { result ≡ self.now }
        ensures short { length self.now ≤ 3 }
    {
        ShortIter {
            first: self.first.as_ref(),
            second: self.second.as_ref(),
            third: self.third.as_ref(),
        }
    }

    /// Appends an item. There have to be fewer than three.
    pub fn push(&mut self, item: T)
        requires { length self.old < 3 }
        ensures { self.new ≡ self.old ++ item ∷ [] }
    {
        let place = if self.first.is_none() {
            mem::replace(&mut self.first, Some(item))
        } else if self.second.is_none() {
            mem::replace(&mut self.second, Some(item))
        } else {
            mem::replace(&mut self.third, Some(item))
        };
        match place {
            None => {}
            Some(_) => unreachable!(),
        }
    }

    /// Inserts an item before the others. There have to be fewer than three.
    pub fn push_front(&mut self, item: T)
        requires { length self.old < 3 }
        ensures { self.new ≡ item ∷ self.old }
    {
        let second = mem::replace(&mut self.first, Some(item));
        let third = mem::replace(&mut self.second, second);
        match mem::replace(&mut self.third, third) {
            None => {}
            Some(_) => unreachable!(),
        }
    }

    /// Removes and returns the first item, or `None` if the list is empty.
    pub fn pop_front(&mut self) -> Option<T>
        ensures front { result ≡ slice_get self.old 0 }
        ensures rest { self.old ≡ option_to_list result ++ self.new }
        ensures fewer { length self.new < 3 }
        ensures end { IfNone result (self.new ≡ []) }
    {
        let third = self.third.take();
        let second = mem::replace(&mut self.second, third);
        mem::replace(&mut self.first, second)
    }
}

impl<T: Drop> IntoIterator for UpToThree<T> {
    type Item = T;

    type IntoIter = ShortIntoIter<UpToThree<T>>;

    ghost into_iter_gives = { λ s it. it.left ≡ s };

    fn into_iter(self) -> ShortIntoIter<UpToThree<T>> {
        ShortIntoIter::new(self)
    }
}

impl<'a, T> IntoIterator for &'a UpToThree<T> {
    type Item = &'a T;

    type IntoIter = ShortIter<'a, T>;

    ghost into_iter_gives = { λ s it. it ≡ s.now };

    fn into_iter(self) -> ShortIter<'a, T> {
        self.iter()
    }
}

impl<T: PartialEq> PartialEq for UpToThree<T> {
    ghost use Rattle.std.specs.Cmp.Lexicographic.{pointwise, lists_per};

    ghost eq = { λ s t. pointwise T.eq s t };

    ghost laws = { lists_per T.laws };

    fn eq(&self, other: &Self) -> bool {
        self.first == other.first && self.second == other.second && self.third == other.third
    }
}

impl<T: Eq> Eq for UpToThree<T> {
    ghost use Rattle.std.specs.Cmp.Lexicographic.{lists_equiv};

    ghost laws = { lists_equiv T.Eq.laws };
}

impl UpToThree<ItemIndex> {
    ghost use Rattle.iddqd_store.specs.Slots.Found.{contains, with_found};

    /// Returns whether the list has this slot.
    pub fn contains(&self, slot: ItemIndex) -> bool
        ensures { result ≡ contains self.now slot }
    {
        match (&self.first, &self.second, &self.third) {
            (None, _, _) => false,
            (Some(first), None, _) => slot == *first,
            (Some(first), Some(second), None) => slot == *first || slot == *second,
            (Some(first), Some(second), Some(third)) => {
                slot == *first || slot == *second || slot == *third
            }
        }
    }

    /// Appends the slot that a search found, unless it found none or the list has it already.
    pub fn push_found(&mut self, found: Option<ItemIndex>)
        requires { length self.old < 3 }
        ensures { self.new ≡ with_found self.old found }
    {
        if let Some(slot) = found {
            if !self.contains(slot) {
                self.push(slot);
            }
        }
    }
}

impl<T: Debug> Debug for UpToThree<T> {
    fn fmt<W: Write>(&self, f: &mut Formatter<W>) -> fmt::Result {
        f.debug_list().entries(self.iter()).finish()
    }
}
