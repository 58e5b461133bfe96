//! Iterating over items for writing.
ghost use Rattle.std.specs.Prelude.{◌≡◌, ◌++◌, [], filter};
ghost use Rattle.iddqd_ord.specs.Items.{items, is_within};
ghost use Rattle.iddqd_ord.specs.IterMuts.{behind_of, done_of, rest_of};

use super::IdOrdMap;
use crate::item::IdOrdItem;
use crate::iter_mut::IterMut;
use crate::query::{OrdRange, OrdSeek};
use iddqd_store::Meter;

impl<T: IdOrdItem> IdOrdMap<T> {
    /// Iterates over the items for writing, in ascending order of their keys or from the last one on: the data of each item
    /// once, one at a time. The call compares no key, and allocates no memory.
    ///
    /// ```text
    /// let mut items = map.iter_mut();
    /// while let Some(data) = items.next_data() {
    ///     *data = 0;
    /// }
    /// ```
    pub fn iter_mut(&mut self) -> IterMut<'_, T>
        // The iteration borrows this very map, unchanged so far.
        ensures same_map { result.map.ghost_name ≡ self.entry.ghost_name }
        ensures unchanged { result.map.now ≡ self.old }
        // No item has been passed, and all are left.
        ensures start { done_of result ≡ [] }
        ensures start_back { behind_of result ≡ [] }
        ensures gives { rest_of result ≡ items self.old }
    {
        let front = self.items.start();
        let back = self.items.end();
        let left = self.items.len();
        IterMut {
            map: self,
            front,
            back,
            left,
        }
    }

    /// Iterates over the items between two bounds for writing, as `iter_mut` does over all. The bounds are those of `range`:
    /// `map.range_mut(&3..&7)`. The other items stay.
    ///
    /// Among fewer than `4 ^ r` items each bound compares at most `3 * r + 19` keys. The items between them are counted, in a
    /// step for each block. The call allocates no memory.
    pub fn range_mut<Q: OrdSeek<T::Key>, R: OrdRange<Q>>(&mut self, range: R) -> IterMut<'_, T>
        // The iteration borrows this very map, unchanged so far.
        ensures same_map { result.map.ghost_name ≡ self.entry.ghost_name }
        ensures unchanged { result.map.now ≡ self.old }
        // The items within the bounds are left, between those before them and those behind them.
        ensures gives { R.has_bounds range → rest_of result
            ≡ filter (is_within T.IdOrdItem Q.side (R.start_bound range) (R.end_bound range)) (items self.old) }
        ensures parts { done_of result ++ (rest_of result ++ behind_of result) ≡ items self.old }
    {
        let front = self.range_start(range.start_bound(), &mut Meter::new());
        let end = self.range_end(range.end_bound(), &mut Meter::new());
        let left = self.count_between(front, end);
        if left == 0 {
            return IterMut {
                map: self,
                front,
                back: front,
                left,
            };
        }
        IterMut {
            map: self,
            front,
            back: end,
            left,
        }
    }
}
