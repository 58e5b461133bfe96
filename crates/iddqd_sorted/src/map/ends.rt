//! The items at the ends of the order, and those up to a sort key.
ghost use Rattle.std.specs.Prelude.{◌≡◌, [], ◌∷◌, ◌++◌, ◌-◌, true, filter, length, slice_get, option_copied, MatchOption, IfSome, IfNone};
ghost use Rattle.std.specs.Ordering.{is_ge, is_le, is_lt};
ghost use Rattle.iddqd_sorted.specs.Items.{items};
ghost use Rattle.iddqd_sorted.specs.Ordered.{IsAscending};

use super::Sorted;
use crate::item::{SortOrder, Sortable};
use iddqd_store::{Meter, SlotMap};
use std::cmp::Ordering;

impl<M: SlotMap> Sorted<M>
where
    M::Item: Sortable,
    M::FirstKey: Ord,
{
    /// Returns the item with the lowest sort key, or `None` if there are no items. Of several it is the one with the lowest first
    /// key. The call compares and hashes no key.
    pub fn first(&self) -> Option<&M::Item>
        ensures item { option_copied result ≡ slice_get (items self.now) 0 }
        ensures ascending { IsAscending ⟦<M as SortOrder>⟧.order (items self.now) }
    {
        let place = self.order.first()?;
        Some(self.item_in(place))
    }

    /// Returns the item with the highest sort key, or `None` if there are no items. Of several it is the one with the highest
    /// first key. The call compares and hashes no key.
    pub fn last(&self) -> Option<&M::Item>
        ensures item { option_copied result ≡ slice_get (items self.now) (length (items self.now) - 1) }
        ensures ascending { IsAscending ⟦<M as SortOrder>⟧.order (items self.now) }
    {
        let place = self.order.last()?;
        Some(self.item_in(place))
    }

    /// Removes the item with the lowest sort key, and returns it, or `None` if there are no items. The capacity stays. The call
    /// compares no key, hashes each key of the item once, and allocates no memory.
    pub fn pop_first(&mut self) -> Option<M::Item>
        ensures parts { MatchOption result (items self.old ≡ []) (λ x. items self.old ≡ x ∷ items self.new) }
        ensures capacity { self.new.capacity ≡ self.old.capacity }
        ensures builder { self.new.builder ≡ self.old.builder }
        ensures absent { IfNone result (self.new ≡ self.old) }
    {
        let place = self.order.first()?;
        let (item, _) = self.remove_in(place, &mut Meter::new());
        Some(item)
    }

    /// Removes the item with the highest sort key, and returns it, or `None` if there are no items. The capacity stays. The call
    /// compares no key, hashes each key of the item once, and allocates no memory.
    pub fn pop_last(&mut self) -> Option<M::Item>
        ensures parts { MatchOption result (items self.old ≡ []) (λ x. items self.old ≡ items self.new ++ x ∷ []) }
        ensures capacity { self.new.capacity ≡ self.old.capacity }
        ensures builder { self.new.builder ≡ self.old.builder }
        ensures absent { IfNone result (self.new ≡ self.old) }
    {
        let place = self.order.last()?;
        let (item, _) = self.remove_in(place, &mut Meter::new());
        Some(item)
    }

    /// Removes the item with the lowest sort key if that is at most this one, and returns it: the next one that is due. If it
    /// returns `None`, no item is due, and the map is as it was. The capacity stays.
    ///
    /// The call compares one sort key, hashes each key of the item once, and allocates no memory.
    ///
    /// ```text
    /// while let Some(job) = jobs.pop_to(&now) {
    ///     // The job is due, and has left the map.
    /// }
    /// ```
    pub fn pop_to(&mut self, bound: &<M::Item as Sortable>::SortKey) -> Option<M::Item>
        ensures popped { IfSome result (λ x. items self.old ≡ x ∷ items self.new) }
        ensures due { IfSome result (λ x. is_le (M.Item.SortKey.cmp (M.Item.sort_key x) bound.now) ≡ true) }
        ensures none { IfNone result (filter (λ x. is_le (M.Item.SortKey.cmp (M.Item.sort_key x) bound.now)) (items self.old) ≡ []) }
        ensures unchanged { IfNone result (self.new ≡ self.old) }
        ensures capacity { self.new.capacity ≡ self.old.capacity }
        ensures builder { self.new.builder ≡ self.old.builder }
    {
        match self.first() {
            Some(item) => match item.sort_key().cmp(bound) {
                Ordering::Greater => None,
                _ => self.pop_first(),
            },
            None => None,
        }
    }

    /// Removes the item with the lowest sort key if that is lower than this one, and returns it. If it returns `None`, no item
    /// has a lower sort key, and the map is as it was. The capacity stays.
    ///
    /// The call compares one sort key, hashes each key of the item once, and allocates no memory.
    pub fn pop_before(&mut self, bound: &<M::Item as Sortable>::SortKey) -> Option<M::Item>
        ensures popped { IfSome result (λ x. items self.old ≡ x ∷ items self.new) }
        ensures lower { IfSome result (λ x. is_lt (M.Item.SortKey.cmp (M.Item.sort_key x) bound.now) ≡ true) }
        ensures none { IfNone result (filter (λ x. is_lt (M.Item.SortKey.cmp (M.Item.sort_key x) bound.now)) (items self.old) ≡ []) }
        ensures unchanged { IfNone result (self.new ≡ self.old) }
        ensures capacity { self.new.capacity ≡ self.old.capacity }
        ensures builder { self.new.builder ≡ self.old.builder }
    {
        match self.first() {
            Some(item) => match item.sort_key().cmp(bound) {
                Ordering::Less => self.pop_first(),
                _ => None,
            },
            None => None,
        }
    }

    /// Drops the items with lower sort keys than this one, as those that expired. The capacity stays.
    ///
    /// The call compares one sort key more than it drops items, hashes each key of these once, and allocates no memory.
    ///
    /// `sessions.drop_before(&since)`
    pub fn drop_before(&mut self, bound: &<M::Item as Sortable>::SortKey)
    where
        M::Item: Drop,
        ensures rest { items self.new ≡ filter (λ x. is_ge (M.Item.SortKey.cmp (M.Item.sort_key x) bound.now)) (items self.old) }
        ensures capacity { self.new.capacity ≡ self.old.capacity }
        ensures builder { self.new.builder ≡ self.old.builder }
    {
        while let Some(gone) = self.pop_before(bound) {
            drop(gone);
        }
    }
}
