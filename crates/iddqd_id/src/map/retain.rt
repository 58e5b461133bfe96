//! Keeping only some of the items.
//!
//! Made by tests/widths from crates/iddqd_bi/src/map/retain.rt: change that file.
ghost use Rattle.std.specs.Prelude.{◌≡◌, ◌≤◌, length};
ghost use Rattle.std.specs.Fn.{CalledAt};
ghost use Rattle.iddqd_store.specs.Bag.{Filters, Keeps};
ghost use Rattle.iddqd_store.specs.Bag.Calling.{TakesInAnyOrder};
ghost use Rattle.iddqd_store.specs.Map.{bag};

use super::IdHashMap;
use crate::item::IdHashItem;
use std::hash::{BuildHasher, Hash};

impl<T: IdHashItem, S: BuildHasher> IdHashMap<T, S> {
    /// Keeps the items for which `f` returns `true`, and drops the others. `f` is called once with each item, in
    /// unspecified order.
    ///
    /// The capacity stays. The call hashes each key of a dropped item. It compares no key, and allocates no memory.
    ///
    /// `map.retain(|item| item.count > 0)`
    pub fn retain<F: FnMut(&T) -> bool>(&mut self, mut f: F)
    where
        T: Drop,
        requires { TakesInAnyOrder F.FnMut f (bag self.old) }
        ensures kept { Keeps (CalledAt F.FnMut) f (bag self.old) (bag self.new) }
        ensures filters { Filters (CalledAt F.FnMut) f (bag self.old) (bag self.new) }
        ensures no_more { length (bag self.new) ≤ length (bag self.old) }
        ensures capacity { self.new.capacity ≡ self.old.capacity }
        ensures builder { self.new.builder ≡ self.old.builder }
    {
        let mut from = 0;
        while let Some(slot) = self.slot_from(from) {
            from = slot.number() + 1;
            if !f(self.item_at(slot)) {
                drop(self.remove_at(slot));
            }
        }
    }
}
