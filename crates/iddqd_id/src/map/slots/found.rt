//! The item of the slot that a search found.
//!
//! Made by tests/widths from crates/iddqd_bi/src/map/slots/found.rt: change that file.
ghost use Rattle.std.specs.Prelude.{◌≡◌, option_copied};
ghost use Rattle.std.specs.Option.{option_and_then};
ghost use Rattle.iddqd_store.specs.Slots.{get};

use super::super::IdHashMap;
use crate::item::IdHashItem;
use iddqd_store::ItemIndex;
use std::hash::{BuildHasher, Hash};

impl<T: IdHashItem, S: BuildHasher> IdHashMap<T, S> {
    /// Returns the item of a slot, or `None` if there is no slot or if it has none.
    pub(crate) fn item_of(&self, slot: Option<ItemIndex>) -> Option<&T>
        ensures { option_copied result ≡ option_and_then (get self.now.slots) slot }
    {
        self.items.get(slot?)
    }
}
