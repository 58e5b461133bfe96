//! The map inside.
ghost use Rattle.std.specs.Prelude.{◌≡◌, IsPermutation};
ghost use Rattle.iddqd_store.specs.Map.{bag};
ghost use Rattle.iddqd_sorted.specs.Items.{items};

use super::Sorted;
use crate::item::Sortable;
use iddqd_store::SlotMap;

impl<M: SlotMap> Sorted<M>
where
    M::Item: Sortable,
    M::FirstKey: Ord,
{
    /// Returns the map inside, for each of its lookups. Its capacity may be higher than that of this map.
    pub fn inside(&self) -> &M
        ensures items { IsPermutation (bag (M.shown result.now)) (items self.now) }
        ensures builder { (M.shown result.now).builder ≡ self.now.builder }
    {
        &self.map
    }

    /// Returns the builder that makes the hashes of the map's keys.
    pub fn hasher(&self) -> &M::Builder
        ensures { result.now ≡ self.now.builder }
    {
        self.map.hasher()
    }
}
