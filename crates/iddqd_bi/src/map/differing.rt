//! What differs between two maps. If items have several keys, an item may keep one of them and change another. So there
//! is a call for each key, which pairs the items off by that key alone.
ghost use Rattle.std.specs.Prelude.{IfOk};
ghost use Rattle.iddqd_store.specs.Differing.{IsDifference};
ghost use Rattle.iddqd_store.specs.Map.{bag};
ghost use Rattle.iddqd_store.specs.Rank.{agree};

use super::BiHashMap;
use crate::item::BiHashItem;
use iddqd_store::{Costs, Difference};
use std::alloc::{AllocError, Global};
use std::hash::{BuildHasher, Hash};

impl<T: BiHashItem, S: BuildHasher> BiHashMap<T, S> {
    /// Returns what differs between this map, the old one, and a new one: the items that were added, those that were
    /// removed, and the others in pairs with equal first keys. The result borrows the items.
    ///
    /// An item whose first key changed was removed and added. An item that keeps its first key is in a pair, whatever
    /// else changed. To change the old map into the new one, remove all items that go or are replaced before you insert
    /// any, so that no key is still taken.
    ///
    /// The call hashes the first key of each item of either map once, and searches for it once in the other map. Each
    /// search compares at most as many keys as items of the other map have that hash. The three lists grow as items
    /// come, and an empty one allocates nothing. If an allocation fails, the call returns the error. The maps do not
    /// change.
    ///
    /// ```text
    /// let difference = old.diff1(&new, rt.alloc())?;
    /// for item in &difference.added {
    ///     // No item of the old map has the first key of this one.
    /// }
    /// ```
    pub fn diff1<'a>(
        &'a self,
        new: &'a Self,
        alloc: Global,
    ) -> Result<Difference<'a, T>, AllocError>
        ensures { IfOk result (IsDifference (agree T.key1 T.K1.eq) (bag self.now) (bag new.now)) }
    {
        self.by_key1()
            .difference(&new.by_key1(), alloc, &mut Costs::new())
    }

    /// Returns what differs between this map, the old one, and a new one: the items that were added, those that were
    /// removed, and the others in pairs with equal second keys. The result borrows the items.
    ///
    /// An item whose second key changed was removed and added. An item that keeps its second key is in a pair, whatever
    /// else changed. To change the old map into the new one, remove all items that go or are replaced before you insert
    /// any, so that no key is still taken.
    ///
    /// The call hashes the second key of each item of either map once, and searches for it once in the other map. Each
    /// search compares at most as many keys as items of the other map have that hash. The three lists grow as items
    /// come, and an empty one allocates nothing. If an allocation fails, the call returns the error. The maps do not
    /// change.
    ///
    /// ```text
    /// let difference = old.diff2(&new, rt.alloc())?;
    /// for item in &difference.added {
    ///     // No item of the old map has the second key of this one.
    /// }
    /// ```
    pub fn diff2<'a>(
        &'a self,
        new: &'a Self,
        alloc: Global,
    ) -> Result<Difference<'a, T>, AllocError>
        ensures { IfOk result (IsDifference (agree T.key2 T.K2.eq) (bag self.now) (bag new.now)) }
    {
        self.by_key2()
            .difference(&new.by_key2(), alloc, &mut Costs::new())
    }
}
