//! The items whose keys a query seeks.
ghost use Rattle.std.specs.Prelude.{◌≡◌, ◌<◌, ◌^◌, filter, length};
ghost use Rattle.std.specs.Map.Iter.{ShowsInOrder, ShowsInReverse, deref};
ghost use Rattle.iddqd_ord.specs.Items.{items};

use super::IdOrdMap;
use crate::item::IdOrdItem;
use crate::query::OrdSeek;
use iddqd_order::Iter;
use iddqd_store::Meter;
use std::ops::Bound;

impl<T: IdOrdItem> IdOrdMap<T> {
    /// Iterates over the items whose keys the query seeks, in ascending order of their keys: all names that begin with a
    /// text, or all pairs with one first part.
    ///
    /// ```text
    /// for host in hosts.matching(Prefix("com.")) { .. }
    /// let of_user = files.matching(First(&user)).count();
    /// let newest = files.matching(First(&user)).next_back();
    /// ```
    ///
    /// Among fewer than `4 ^ r` items the call compares at most `6 * r + 38` keys. It allocates no memory.
    pub fn matching<Q: OrdSeek<T::Key>>(&self, query: Q) -> Iter<'_, T>
        ensures gives { result ≡ filter (λ x. Q.meets query (T.key x)) (items self.now) }
        ensures runs { ShowsInOrder (deref {X = T}) }
        ensures runs_back { ShowsInReverse (deref {X = T}) }
        ensures countable { length result < 2 ^ 64 }
    {
        let next = self.range_start(Bound::Included(&query), &mut Meter::new());
        let end = self.range_end(Bound::Included(&query), &mut Meter::new());
        self.items.range(next, end)
    }
}
