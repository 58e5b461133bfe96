//! Iterating over the items between two bounds of sort keys.
ghost use Rattle.std.specs.Prelude.{◌≡◌, ◌^◌, ◌<◌, not, filter, length};
ghost use Rattle.std.specs.Range.Bound.{bound_map};
ghost use Rattle.iddqd_order.specs.Row.{position, IsPlace};
ghost use Rattle.iddqd_sorted.specs.Items.{items, is_from, is_to, is_within};
ghost use Rattle.iddqd_order.specs.Search.{ComparesWithin, IsStartOf};
ghost use Rattle.iddqd_order.specs.Walks.{IsWalked};

use super::Sorted;
use crate::item::Sortable;
use crate::iter::Iter;
use iddqd_order::Place;
use iddqd_store::{Meter, SlotMap};
use std::ops::{Bound, RangeBounds};

impl<M: SlotMap> Sorted<M>
where
    M::Item: Sortable,
    M::FirstKey: Ord,
{
    /// Iterates over the items whose sort keys are between two bounds, in their order, from both ends: `map.range(3..7)`,
    /// `map.range(..=now)`. A range that ends before it begins has no items.
    ///
    /// Among fewer than `4 ^ r` items the call compares at most `6 * r + 38` sort keys. It allocates no memory.
    pub fn range<R: RangeBounds<<M::Item as Sortable>::SortKey>>(
        &self,
        range: R,
    ) -> Iter<'_, M::Item>
        ensures gives { R.has_bounds range → result
            ≡ filter (is_within M.Item.sort_key M.Item.SortKey.cmp (R.start_bound range) (R.end_bound range)) (items self.now) }
        ensures walked { IsWalked M.Item }
        ensures countable { length result < 2 ^ 64 }
    {
        self.range_counted(range, &mut Meter::new())
    }

    /// Iterates as `range` does, which calls it, and counts the comparisons.
    #[inline(always)]
    fn range_counted<R: RangeBounds<<M::Item as Sortable>::SortKey>>(
        &self,
        range: R,
        meter: &mut Meter,
    ) -> Iter<'_, M::Item>
        ensures gives { R.has_bounds range → result
            ≡ filter (is_within M.Item.sort_key M.Item.SortKey.cmp (R.start_bound range) (R.end_bound range)) (items self.now) }
        ensures walked { IsWalked M.Item }
        ensures countable { length result < 2 ^ 64 }
        ensures asked { ComparesWithin 6 38 (length (items self.now)) meter.old meter.new }
    {
        let from = self.range_start(range.start_bound(), meter);
        let to = self.range_end(range.end_bound(), meter);
        Iter::over(self.map.slots(), self.order.range(from, to))
    }

    /// Returns the place of the first item that is not before a lower bound, or the end if there is none.
    fn range_start(&self, low: Bound<&<M::Item as Sortable>::SortKey>, meter: &mut Meter) -> Place
        ensures place { IsPlace self.now.blocks result }
        ensures starts { IsStartOf (is_from M.Item.sort_key M.Item.SortKey.cmp (bound_map (λ k. k.now) low.entry)) (items self.now)
            (position self.now.blocks result) }
        ensures asked { ComparesWithin 3 19 (length (items self.now)) meter.old meter.new }
    {
        match low {
            Bound::Included(sort_key) => self.lower_bound(sort_key, meter),
            Bound::Excluded(sort_key) => self.upper_bound(sort_key, meter),
            Bound::Unbounded => self.order.start(),
        }
    }

    /// Returns the place of the first item that is behind an upper bound, or the end if there is none.
    fn range_end(&self, high: Bound<&<M::Item as Sortable>::SortKey>, meter: &mut Meter) -> Place
        ensures place { IsPlace self.now.blocks result }
        ensures starts { IsStartOf (λ x. not (is_to M.Item.sort_key M.Item.SortKey.cmp (bound_map (λ k. k.now) high.entry) x)) (items self.now)
            (position self.now.blocks result) }
        ensures asked { ComparesWithin 3 19 (length (items self.now)) meter.old meter.new }
    {
        match high {
            Bound::Included(sort_key) => self.upper_bound(sort_key, meter),
            Bound::Excluded(sort_key) => self.lower_bound(sort_key, meter),
            Bound::Unbounded => self.order.end(),
        }
    }
}
