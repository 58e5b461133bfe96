//! An entry of the order.
ghost use Rattle.std.specs.Prelude.{◌≡◌, ⊤};

use crate::item::Sortable;
use iddqd_order::Blocks;
use iddqd_store::{ItemIndex, SlotMap};
use std::alloc::AllocError;

/// An item in the order: its sort key, and the slot in which it is. The copy of the sort key saves a search from reading the
/// items: it reads one only where sort keys are equal.
#[derive(Copy)]
pub(crate) struct Entry<K> {
    pub(crate) sort_key: K,
    pub(crate) slot: ItemIndex,
}

/// A clone is a copy.
impl<K: Copy> Clone for Entry<K> {
    ghost is_clone = { λ e c. c ≡ e };

    ghost is_infallible = { λ _. ⊤ };

    fn clone(&self) -> Result<Self, AllocError> {
        Ok(*self)
    }
}

/// The order of a map's items: an entry for each slot that has one.
pub(crate) type Order<M> = Blocks<Entry<<<M as SlotMap>::Item as Sortable>::SortKey>>;
