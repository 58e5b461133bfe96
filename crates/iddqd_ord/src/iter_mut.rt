//! Iterating over the items of a map for writing, from both ends.
ghost use Rattle.std.specs.Prelude.{◌≡◌, ◌-◌, ◌++◌, [], IfNone, length, option_copied, slice_get};
ghost use Rattle.std.specs.Borrow.{sem};
ghost use Rattle.std.specs.Option.{option_copied_mut, option_map};
ghost use Rattle.iddqd_ord.specs.Between.{IsBetween};

use crate::item::{IdOrdItem, IdOrdItemMut};
use crate::map::IdOrdMap;
use iddqd_order::Place;

/// An iteration over the items of a map, or over those within bounds, which borrows the data of each of them once for writing,
/// one at a time: in ascending order of their keys, or from the last one on, or both.
pub struct IterMut<'a, T: IdOrdItem> {
    pub(crate) map: &'a mut IdOrdMap<T>,
    // The place before the next item, and the one behind the last item that is left.
    pub(crate) front: Place,
    pub(crate) back: Place,
    // How many items are left.
    pub(crate) left: usize,
    ghost there: { IsBetween map.now.blocks front back left },
}

impl<T: IdOrdItem> Drop for IterMut<'_, T> {
    fn drop(self)
        ensures { self.exit.0.now ≡ self.entry.map.now }
    {
        let IterMut {
            map: _,
            front: _,
            back: _,
            left: _,
        } = self;
    }
}

impl<T: IdOrdItem> IterMut<'_, T> {
    ghost use Rattle.iddqd_ord.specs.IterMuts.{rest_of};

    /// Returns how many items are left, in constant time.
    pub fn len(&self) -> usize
        ensures { result ≡ length (rest_of self.now) }
    {
        self.left
    }

    /// Returns the next item, or `None` at the end. The iteration stays at it.
    pub fn peek(&self) -> Option<&T>
        ensures { option_copied result ≡ slice_get (rest_of self.now) 0 }
    {
        if self.left == 0 {
            return None;
        }
        match self.map.place_or_next(self.front) {
            Some(place) => Some(self.map.item_in(place)),
            None => None,
        }
    }
}

impl<T: IdOrdItemMut> IterMut<'_, T> {
    ghost use Rattle.iddqd_ord.specs.IterMuts.{behind_of, done_of, lends_last, lends_next, rest_of};
    ghost use Rattle.iddqd_ord.specs.Items.{items};

    /// Returns the data of the next item, borrowed for writing, or `None` after the last one. The call compares no key,
    /// and allocates no memory.
    pub fn next_data(&mut self) -> Option<&mut T::Data>
        // It is the data of the next item, and `None` at the end.
        ensures value { option_copied_mut result ≡ option_map T.data_of (slice_get (rest_of self.old) 0) }
        ensures end { IfNone result (rest_of self.old ≡ []) }
        // At the end the map has the items that were passed from the front and those that were passed from behind.
        ensures whole { IfNone result (items self.old.map.now ≡ done_of self.old ++ behind_of self.old) }
        // What is written through the borrow ends in that item, which the iteration has passed.
        ensures* lends { sem 𝓛 (lends_next T.row T.Key.row T.Data.row T.put self.entry result) }
    {
        if self.left == 0 {
            return None;
        }
        match self.map.place_or_next(self.front) {
            Some(place) => {
                self.front = self.map.place_behind(place);
                self.left -= 1;
                Some(self.map.data_mut_in(place))
            }
            None => None,
        }
    }

    /// Returns the data of the last item that is left, borrowed for writing, or `None` if none is left. The call compares no
    /// key, and allocates no memory.
    pub fn next_data_back(&mut self) -> Option<&mut T::Data>
        // It is the data of the last item that is left, and `None` if there is none.
        ensures value { option_copied_mut result
            ≡ option_map T.data_of (slice_get (rest_of self.old) (length (rest_of self.old) - 1)) }
        ensures end { IfNone result (rest_of self.old ≡ []) }
        ensures whole { IfNone result (items self.old.map.now ≡ done_of self.old ++ behind_of self.old) }
        // What is written through the borrow ends in that item, which the iteration has passed.
        ensures* lends { sem 𝓛 (lends_last T.row T.Key.row T.Data.row T.put self.entry result) }
    {
        if self.left == 0 {
            return None;
        }
        match self.map.place_before(self.back) {
            Some(place) => {
                self.back = place;
                self.left -= 1;
                Some(self.map.data_mut_in(place))
            }
            None => None,
        }
    }
}
