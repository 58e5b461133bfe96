//! Equality of maps.
ghost use Rattle.std.specs.Cmp.{on_per, on_equiv};
ghost use Rattle.std.specs.Cmp.Lexicographic.{pointwise, lists_per, lists_equiv};
ghost use Rattle.iddqd_sorted.specs.Items.{items};

use super::Sorted;
use crate::item::Sortable;
use iddqd_store::SlotMap;

/// Two maps are equal if and only if they have equally many items, and these are equal by `==` in their order. It does not matter
/// how the maps were made, what their capacity is, or what state their builders are in.
///
/// The call compares each item with at most one other. It hashes no key, and compares none but those that `==` of two items
/// compares.
impl<M: SlotMap> PartialEq for Sorted<M>
where
    M::Item: Sortable + PartialEq,
    M::FirstKey: Ord,
{
    ghost eq = { λ m n. pointwise M.Item.eq (items m) (items n) };

    ghost laws = { on_per items (lists_per M.Item.PartialEq.laws) };

    fn eq(&self, other: &Self) -> bool {
        if self.len() != other.len() {
            return false;
        }
        let mut left = self.iter();
        let mut right = other.iter();
        while let Some(item) = left.next() {
            let Some(partner) = right.next() else {
                return false;
            };
            if item != partner {
                return false;
            }
        }
        true
    }
}

impl<M: SlotMap> Eq for Sorted<M>
where
    M::Item: Sortable + Eq,
    M::FirstKey: Ord,
{
    ghost laws = { on_equiv items (lists_equiv M.Item.Eq.laws) };
}
