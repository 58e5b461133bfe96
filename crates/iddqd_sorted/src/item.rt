//! The trait of items with a sort key.
ghost use Rattle.std.specs.Prelude.{◌≡◌, List, Option};
ghost use Rattle.std.specs.declared.cmp.Ordering.{Ordering};
ghost use Rattle.iddqd_sorted.specs.Entries.{IsListed};
ghost use Rattle.iddqd_sorted.specs.Items.{by_sort};
ghost use Rattle.iddqd_sorted.specs.declared.entry.Entry.{Entry};

use iddqd_store::SlotMap;

/// An item with a key by which a `Sorted` map orders it, beside the keys by which the map inside finds it. Several items may have
/// the same sort key, and it may change (`replace`). It depends on the item's value alone.
///
/// The order keeps a copy of each sort key, so the type is one that is `Copy`, as a number, a pair of numbers, or a time. Items
/// with equal sort keys are ordered by their first keys. For the order in which they came, take a pair of which the second part
/// is a number that counts up.
///
/// ```text
/// impl Sortable for Session {
///     type SortKey = u64;
///
///     ghost sort_key = { λ s. s.seen };
///
///     fn sort_key(&self) -> u64 {
///         self.seen
///     }
/// }
/// ```
pub trait Sortable {
    /// The type of the sort key.
    type SortKey: Ord + Copy;

    // The sort key of an item, as contracts see it.
    ghost sort_key: { Self → Self.SortKey };

    /// Returns the sort key.
    fn sort_key(&self) -> Self::SortKey
        ensures { result ≡ sort_key self.now };
}

/// The order of the items of any hash map, for contracts alone: by their sort keys, and those of one sort key by their first keys.
/// Each hash map of such items has it, so nobody implements it.
pub trait SortOrder: SlotMap
where
    Self::Item: Sortable,
    Self::FirstKey: Ord,
{
    // Compares two items.
    ghost order: { Self.Item → Self.Item → Ordering };

    // Whether the entries are those of the slots that have an item, each with its item's sort key, and the items ascend.
    ghost Lists: { List (Option Self.Item) → List (Entry Self.Item.SortKey) → Type 0 };
}

impl<M: SlotMap> SortOrder for M
where
    M::Item: Sortable,
    M::FirstKey: Ord,
{
    ghost order = { by_sort M.Item.sort_key M.Item.SortKey.cmp M.first_key M.FirstKey.cmp };

    ghost Lists = { IsListed (by_sort M.Item.sort_key M.Item.SortKey.cmp M.first_key M.FirstKey.cmp) M.Item.sort_key M.Item.SortKey.cmp };
}
