//! Iterating over the items.
//!
//! Made by tests/widths from crates/iddqd_bi/src/map/iterate.rt: change that file.
ghost use Rattle.std.specs.Prelude.{◌≡◌, ◌<◌, ◌^◌, length};
ghost use Rattle.std.specs.Map.Iter.{ShowsInOrder, GivesInOrder, deref};
ghost use Rattle.iddqd_store.specs.Map.{bag};

use super::IdHashMap;
use crate::item::IdHashItem;
use iddqd_store::{IntoIter, Iter};
use std::fmt::{self, Debug, Formatter, Write};
use std::hash::{BuildHasher, Hash};

impl<T: IdHashItem, S: BuildHasher> IdHashMap<T, S> {
    /// Iterates over the items by reference: each item once, in unspecified order. The call allocates no memory.
    ///
    /// An iteration passes every slot, also those that removals left free. Only `clear` and the calls that shrink the
    /// map make the slots fewer, so a map that was once large is iterated over faster after `shrink_to_fit`. The same
    /// holds for `retain`, `update_all` and the other calls that go over all items.
    pub fn iter(&self) -> Iter<'_, T>
        ensures gives { result ≡ bag self.now }
        ensures runs { ShowsInOrder (deref {X = T}) }
        ensures countable { length (bag self.now) < 2 ^ 64 }
    {
        self.items.values()
    }
}

impl<'a, T: IdHashItem, S: BuildHasher> IntoIterator for &'a IdHashMap<T, S> {
    type Item = &'a T;

    type IntoIter = Iter<'a, T>;

    ghost into_iter_gives = { λ m it. (it ≡ bag m.now) × ShowsInOrder (deref {X = T}) × (length (bag m.now) < 2 ^ 64) };

    fn into_iter(self) -> Iter<'a, T> {
        self.iter()
    }
}

impl<T: IdHashItem + Drop, S: BuildHasher + Drop> IntoIterator for IdHashMap<T, S> {
    type Item = T;

    type IntoIter = IntoIter<T>;

    ghost into_iter_gives = { λ m it. (it ≡ bag m) × GivesInOrder T × (length (bag m) < 2 ^ 64) };

    fn into_iter(self) -> IntoIter<T> {
        let IdHashMap {
            items,
            first: _,
            hash_builder: _,
            key_types: _,
        } = self;
        items.into_values()
    }
}

impl<T: IdHashItem + Debug, S: BuildHasher> Debug for IdHashMap<T, S> {
    /// Writes the items as a set, in the order of `iter`.
    fn fmt<W: Write>(&self, f: &mut Formatter<W>) -> fmt::Result {
        f.debug_set().entries(self.iter()).finish()
    }
}
