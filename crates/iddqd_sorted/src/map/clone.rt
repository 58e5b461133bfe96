//! Cloning a map.
ghost use Rattle.std.specs.Prelude.{◌≡◌, ◌≤◌, length, true, Contains, IfOk};
ghost use Rattle.std.specs.Hash.{HashWrites};
ghost use Rattle.std.specs.List.{AllZip};
ghost use Rattle.iddqd_store.specs.Bag.{agrees};
ghost use Rattle.iddqd_sorted.specs.Items.{items};

use super::Sorted;
use crate::item::Sortable;
use iddqd_store::{SlotMap, TryReserveError};

impl<M: SlotMap> Sorted<M>
where
    M::Item: Sortable + Clone,
    M::FirstKey: Ord,
    M::Builder: Clone,
{
    /// Returns a map with a clone of each item and of the builder. The call fails if an allocation fails, or if a clone does.
    /// What was cloned is dropped then.
    ///
    /// A clone of an item must have equal keys and the same sort key, and the clone of the builder must make the same hashes. The
    /// call compares and hashes no key. The capacity of the clone is its number of items; the map inside may have more room.
    pub fn clone(&self) -> Result<Self, TryReserveError>
    where
        M: Drop,
        // A clone of an item has equal keys and the same sort key, and the clone of the builder makes the same hashes.
        requires same_keys { (x c : M.Item) → Contains (items self.now) x → M.Item.is_clone x c → agrees M.ranks x c ≡ true }
        requires same_first_key { (x c : M.Item) → Contains (items self.now) x → M.Item.is_clone x c
            → M.FirstKey.eq (M.first_key x) (M.first_key c) ≡ true }
        requires same_sort_key { (x c : M.Item) → Contains (items self.now) x → M.Item.is_clone x c
            → M.Item.sort_key c ≡ M.Item.sort_key x }
        requires same_hashes { (s : M.Builder) (writes : HashWrites) → M.Builder.is_clone self.now.builder s
            → M.hash_of s writes ≡ M.hash_of self.now.builder writes }
        // The copy has a clone of each item, in the same order, and they fit.
        ensures items { IfOk result (λ copy. AllZip M.Item.is_clone (items self.now) (items copy)) }
        ensures capacity { IfOk result (λ copy. copy.capacity ≡ length (items self.now)) }
        ensures fits { IfOk result (λ copy. length (items copy) ≤ copy.capacity) }
        ensures builder { IfOk result (λ copy. M.Builder.is_clone self.now.builder copy.builder) }
    {
        let map = self.map.clone()?;
        Ok(Sorted {
            map,
            order: self.order.clone()?,
        })
    }
}
