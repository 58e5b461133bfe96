//! Iterating over the items of a map for writing.
//!
//! Made by tests/widths from crates/iddqd_bi/src/iter_mut.rt: change that file.
ghost use Rattle.std.specs.Prelude.{◌≡◌, [], length, slice_get, IfSome, IfNone};
ghost use Rattle.std.specs.Borrow.{sem};
ghost use Rattle.std.specs.Option.{option_and_then, option_copied_mut, option_map};
ghost use Rattle.iddqd_tri.specs.IterMuts.{lends_next, next_iteration, IsNextOf, IsCounted, rest_of};
ghost use Rattle.iddqd_tri.specs.RefMuts.{ref_item, ref_map};

use crate::item::{TriHashItem, TriHashItemMut};
use crate::map::{DefaultHashBuilder, TriHashMap};
use crate::ref_mut::RefMut;
use std::hash::{BuildHasher, Hash};

/// An iteration over the items of a map, which borrows each of them once for writing, one at a time.
pub struct IterMut<'a, T: TriHashItem, S: BuildHasher = DefaultHashBuilder> {
    pub(crate) map: &'a mut TriHashMap<T, S>,
    // The number of the first slot that the iteration has not passed.
    pub(crate) next: usize,
    // How many items are left, unless a guard of `next_mut` left another map behind.
    pub(crate) left: usize,
}

impl<T: TriHashItem, S: BuildHasher> Drop for IterMut<'_, T, S> {
    fn drop(self)
        ensures { self.exit.0.now ≡ self.entry.map.now }
    {
        let IterMut {
            map: _,
            next: _,
            left: _,
        } = self;
    }
}

impl<T: TriHashItem, S: BuildHasher> IterMut<'_, T, S> {
    /// Returns how many items are left, in constant time. After steps by `next_data` the contract says that the number
    /// is exact. After a guard of `next_mut` the number is exact too, but no clause says that; call `count_remaining`
    /// there to prove it.
    pub fn len(&self) -> usize
        ensures { IsCounted self.now → result ≡ length (rest_of self.now) }
    {
        let IterMut { left, .. } = self;
        *left
    }

    /// Returns how many items are left. It reads each slot that the iteration has not passed.
    pub fn count_remaining(&self) -> usize
        ensures { result ≡ length (rest_of self.now) }
    {
        self.map.count_from(self.next)
    }

    /// Returns a guard of the next item, or `None` after the last one. Contracts say less of the map afterwards than
    /// after `next_data`, or after `TriHashMap::next_from`.
    pub fn next_mut(&mut self) -> Option<RefMut<'_, T, S>>
        ensures next { option_and_then ref_item result ≡ slice_get (rest_of self.old) 0 }
        ensures unchanged { IfSome result (λ r. ref_map r ≡ self.old.map.now) }
    {
        let slot = self.map.slot_from(self.next)?;
        self.next = slot.number() + 1;
        self.left = self.left.wrapping_sub(1);
        Some(RefMut {
            map: self.map,
            slot,
        })
    }
}

impl<T: TriHashItemMut, S: BuildHasher> IterMut<'_, T, S> {
    /// Returns the data of the next item, borrowed for writing, or `None` after the last one.
    pub fn next_data(&mut self) -> Option<&mut T::Data>
        // It is the data of the next item, and `None` at the end.
        ensures next { IfSome result (λ r. IsNextOf self.old) }
        ensures value { option_copied_mut result ≡ option_map T.data_of (slice_get (rest_of self.old) 0) }
        ensures end { IfNone result (rest_of self.old ≡ []) }
        ensures counted { (f : T → T) → IsCounted self.old → IfSome result (λ r. IsCounted
            (next_iteration self.old f)) }
        // What is written through the borrow ends in that item.
        ensures* lends { sem 𝓛 (lends_next T.row S.row T.K1.row T.K2.row T.K3.row S.Hasher.row
            T.TriHashItem T.K1.Hash T.K2.Hash T.K3.Hash S.BuildHasher S.Hasher.Hasher T.Data.row T.put self.entry result) }
    {
        // The step is that of `next_mut`. As a function it would have to state all that both contracts need.
        let live = self.map.slot_from(self.next)?;
        self.next = live.number() + 1;
        self.left = self.left.wrapping_sub(1);
        Some(self.map.data_mut_at(live))
    }
}
