//! Keeping only some of the items, each with the data that a closure returns for it.
ghost use Rattle.std.specs.Prelude.{◌≡◌, ◌≤◌, length};
ghost use Rattle.std.specs.Fn.{CalledAt};
ghost use Rattle.iddqd_store.specs.Bag.Calling.{TakesInAnyOrder};
ghost use Rattle.iddqd_store.specs.Bag.Storing.{FilterMapsAll, RewritesAll};
ghost use Rattle.iddqd_store.specs.Map.{bag};

use super::BiHashMap;
use crate::item::BiHashItemMut;
use std::hash::{BuildHasher, Hash};

impl<T: BiHashItemMut, S: BuildHasher> BiHashMap<T, S> {
    /// Calls `f` once with each item, in unspecified order. Stores the data that `f` returns as the item's data, and
    /// drops the items for which `f` returns `None`.
    ///
    /// The capacity stays. The call hashes each key of a dropped item. It compares no key, and allocates no memory.
    ///
    /// `map.retain_mut(|item| item.count.checked_sub(1))`
    pub fn retain_mut<F: FnMut(&T) -> Option<T::Data>>(&mut self, mut f: F)
    where
        T: Drop,
        T::Data: Drop,
        requires { TakesInAnyOrder F.FnMut f (bag self.old) }
        ensures rewrites { RewritesAll (CalledAt F.FnMut) T.put f (bag self.old) (bag self.new) }
        ensures filter_maps { FilterMapsAll (CalledAt F.FnMut) T.put f (bag self.old) (bag self.new) }
        ensures no_more { length (bag self.new) ≤ length (bag self.old) }
        ensures capacity { self.new.capacity ≡ self.old.capacity }
        ensures builder { self.new.builder ≡ self.old.builder }
    {
        let mut from = 0;
        while let Some(slot) = self.slot_from(from) {
            from = slot.number() + 1;
            if !self.store_some_at(slot, &mut f) {
                drop(self.remove_at(slot));
            }
        }
    }
}
