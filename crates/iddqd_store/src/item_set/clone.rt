//! Clones of a set.
ghost use Rattle.std.specs.Prelude.{IfOk};
ghost use Rattle.std.specs.List.{AllZip};
ghost use Rattle.iddqd_store.specs.Slots.{contents, IsSlotClone};

use super::{ItemSet, Slot};
use crate::TryReserveError;
use std::alloc::AllocError;

impl<T: Clone> Clone for Slot<T> {
    ghost use Rattle.iddqd_store.specs.Slots.Chain.{IsCloneOf};

    ghost is_clone = { IsCloneOf T.is_clone };

    fn clone(&self) -> Result<Self, AllocError> {
        match self {
            Slot::Free(next) => Ok(Slot::Free(*next)),
            Slot::Live(item) => Ok(Slot::Live(item.clone()?)),
        }
    }
}

impl<T: Clone> ItemSet<T> {
    /// Returns a set with the same slots, each with a clone of its item. It allocates memory unless there is no slot.
    /// It fails if that memory cannot be allocated, or if an item cannot be cloned.
    pub fn clone(&self) -> Result<Self, TryReserveError>
        ensures slots { IfOk result (λ copy. AllZip (IsSlotClone T.is_clone) self.now.slots copy.slots) }
        ensures items { IfOk result (λ copy. AllZip T.is_clone (contents self.now.slots) (contents copy.slots)) }
    {
        Ok(ItemSet {
            slots: self.slots.clone()?,
            live: self.live,
            next_free: self.next_free,
            lowest: 0,
        })
    }
}
