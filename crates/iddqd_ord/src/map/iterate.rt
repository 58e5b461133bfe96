//! Iterating over the items in the order of their keys.
ghost use Rattle.std.specs.Prelude.{◌≡◌, ◌<◌, ◌^◌, filter, length};
ghost use Rattle.std.specs.Map.Iter.{ShowsInOrder, deref};
ghost use Rattle.iddqd_ord.specs.Items.{items, is_within};
ghost use Rattle.iddqd_ord.specs.Ordered.{IsAscending};
ghost use Rattle.iddqd_order.specs.Walks.{IsWalked};

use super::IdOrdMap;
use crate::item::IdOrdItem;
use crate::query::{OrdRange, OrdSeek};
use iddqd_order::{IntoIter, Iter};
use iddqd_store::Meter;
use std::fmt::{self, Debug, Formatter, Write};

impl<T: IdOrdItem> IdOrdMap<T> {
    /// Iterates over the items by reference, in ascending order of their keys, or by `rev` in descending order. The call
    /// compares no key, and allocates no memory. `len` of the iterator takes one step.
    ///
    /// `map.iter().rev().take(3)`
    pub fn iter(&self) -> Iter<'_, T>
        ensures gives { result ≡ items self.now }
        ensures ascending { IsAscending T.Key.cmp T.key (items self.now) }
        ensures walked { IsWalked T }
        ensures countable { length (items self.now) < 2 ^ 64 }
    {
        self.items.iter()
    }

    /// Iterates over the items between two bounds, in ascending order of their keys. The bounds are queries:
    /// `map.range(&3..&7)`, `map.range("a"..="m")`, `map.range((&user, "a")..)`. The type of the queries has to be written
    /// for `..` alone. A range that ends before it begins has no items.
    ///
    /// Among fewer than `4 ^ r` items each bound compares at most `3 * r + 19` keys. The call allocates no memory. `len`
    /// and `size_hint` of the iterator count the items between the bounds, by a step for each block of items.
    ///
    /// The item before a key, and the one behind it: `map.range(..&key).next_back()`,
    /// `map.range((Bound::Excluded(&key), Bound::Unbounded)).next()`
    pub fn range<Q: OrdSeek<T::Key>, R: OrdRange<Q>>(&self, range: R) -> Iter<'_, T>
        ensures gives { R.has_bounds range → result
            ≡ filter (is_within T.IdOrdItem Q.side (R.start_bound range) (R.end_bound range)) (items self.now) }
        ensures walked { IsWalked T }
        ensures countable { length result < 2 ^ 64 }
    {
        let next = self.range_start(range.start_bound(), &mut Meter::new());
        let end = self.range_end(range.end_bound(), &mut Meter::new());
        self.items.range(next, end)
    }
}

impl<T: IdOrdItem> IdOrdMap<T> {
    /// Returns an iterator over the items by value.
    pub(crate) fn into_items(self) -> IntoIter<T>
        ensures gives { result ≡ items self }
        ensures countable { length (items self) < 2 ^ 64 }
    {
        let IdOrdMap {
            items,
            key_types: _,
        } = self;
        items.into_iter()
    }
}

impl<'a, T: IdOrdItem> IntoIterator for &'a IdOrdMap<T> {
    type Item = &'a T;

    type IntoIter = Iter<'a, T>;

    ghost into_iter_gives = { λ m it. (it ≡ items m.now) × ShowsInOrder (deref {X = T})
        × (length (items m.now) < 2 ^ 64) };

    fn into_iter(self) -> Iter<'a, T> {
        self.iter()
    }
}

impl<T: IdOrdItem + Debug> Debug for IdOrdMap<T> {
    /// Writes the items as a set, in the order of their keys.
    fn fmt<W: Write>(&self, f: &mut Formatter<W>) -> fmt::Result {
        f.debug_set().entries(self.iter()).finish()
    }
}
