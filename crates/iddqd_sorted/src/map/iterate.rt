//! Iterating over the items in their order.
ghost use Rattle.std.specs.Prelude.{◌≡◌, ◌^◌, ◌<◌, filter, length};
ghost use Rattle.std.specs.Ordering.{is_eq};
ghost use Rattle.iddqd_sorted.specs.Items.{items};
ghost use Rattle.iddqd_sorted.specs.Ordered.{IsAscending};
ghost use Rattle.iddqd_order.specs.Walks.{IsWalked};
ghost use Rattle.iddqd_order.specs.Search.{ComparesWithin};

use super::Sorted;
use crate::item::{SortOrder, Sortable};
use crate::iter::Iter;
use iddqd_store::{Meter, SlotMap};
use std::fmt::{self, Debug, Formatter, Write};

impl<M: SlotMap> Sorted<M>
where
    M::Item: Sortable,
    M::FirstKey: Ord,
{
    /// Iterates over the items by reference, in their order, from both ends. The call compares no key, and allocates no memory.
    /// `len` of the iterator takes one step.
    pub fn iter(&self) -> Iter<'_, M::Item>
        ensures gives { result ≡ items self.now }
        ensures ascending { IsAscending ⟦<M as SortOrder>⟧.order (items self.now) }
        ensures walked { IsWalked M.Item }
        ensures countable { length (items self.now) < 2 ^ 64 }
    {
        Iter::over(self.map.slots(), self.order.iter())
    }

    /// Iterates over the items that have this sort key, in the order of their first keys, from both ends.
    ///
    /// Among fewer than `4 ^ r` items the call compares at most `6 * r + 38` sort keys. It allocates no memory.
    pub fn group(&self, sort_key: &<M::Item as Sortable>::SortKey) -> Iter<'_, M::Item>
        ensures gives { result ≡ filter (λ x. is_eq (M.Item.SortKey.cmp (M.Item.sort_key x) sort_key.now)) (items self.now) }
        ensures walked { IsWalked M.Item }
        ensures countable { length result < 2 ^ 64 }
    {
        self.group_counted(sort_key, &mut Meter::new())
    }

    /// Iterates as `group` does, which calls it, and counts the comparisons.
    #[inline(always)]
    fn group_counted(
        &self,
        sort_key: &<M::Item as Sortable>::SortKey,
        meter: &mut Meter,
    ) -> Iter<'_, M::Item>
        ensures gives { result ≡ filter (λ x. is_eq (M.Item.SortKey.cmp (M.Item.sort_key x) sort_key.now)) (items self.now) }
        ensures walked { IsWalked M.Item }
        ensures countable { length result < 2 ^ 64 }
        ensures asked { ComparesWithin 6 38 (length (items self.now)) meter.old meter.new }
    {
        let from = self.lower_bound(sort_key, meter);
        let to = self.upper_bound(sort_key, meter);
        Iter::over(self.map.slots(), self.order.range(from, to))
    }
}

impl<M: SlotMap> Debug for Sorted<M>
where
    M::Item: Sortable + Debug,
    M::FirstKey: Ord,
{
    /// Writes the items as a set, in their order.
    fn fmt<W: Write>(&self, f: &mut Formatter<W>) -> fmt::Result {
        f.debug_set().entries(self.iter()).finish()
    }
}
