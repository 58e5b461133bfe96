//! Guards: items of a map, borrowed for writing.
//!
//! Made by tests/widths from crates/iddqd_bi/src/ref_mut.rt: change that file.
ghost use Rattle.std.specs.Prelude.{◌≡◌, true, is_some};
ghost use Rattle.iddqd_store.specs.Slots.{get};

use crate::item::TriHashItem;
use crate::map::{DefaultHashBuilder, TriHashMap};
use iddqd_store::ItemIndex;
use std::hash::{BuildHasher, Hash};

mod methods;

/// A guard of an item of a map. It dereferences to the item, whose data can be written by `data_mut`, and which
/// `replace` exchanges for one with equal keys. So no key of the map can change through it.
pub struct RefMut<'a, T: TriHashItem, S: BuildHasher = DefaultHashBuilder> {
    pub(crate) map: &'a mut TriHashMap<T, S>,
    pub(crate) slot: ItemIndex,
    ghost live: { is_some (get map.now.slots slot) ≡ true },
}

impl<T: TriHashItem, S: BuildHasher> Drop for RefMut<'_, T, S> {
    fn drop(self)
        ensures { self.exit.0.now ≡ self.entry.map.now }
    {
        let RefMut { map: _, slot: _ } = self;
    }
}
