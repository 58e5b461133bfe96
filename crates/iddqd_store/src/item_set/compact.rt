//! Sets without free slots: `compact` and `shrink_to`.
ghost use Rattle.std.specs.Prelude.{◌≡◌, ◌<◌, ◌≤◌, [], length, map, Some, OnOk, OnErr, vec_capacity};
ghost use Rattle.iddqd_store.specs.Map.{shrunk_to};
ghost use Rattle.iddqd_store.specs.Slots.{contents, live_count};
ghost use Rattle.iddqd_store.specs.Slots.Chain.{live_slots};

use super::{ItemSet, Slot};
use crate::TryReserveError;
use std::mem;

// Moves the live slots into `to`, which has capacity for them.
fn gathered<T: Drop>(slots: Vec<Slot<T>>, mut to: Vec<Slot<T>>) -> Vec<Slot<T>>
    requires empty { to.items ≡ [] }
    requires room { length (live_slots slots.items) ≤ vec_capacity to }
    ensures items { result.items ≡ live_slots slots.items }
    ensures capacity { vec_capacity result ≡ vec_capacity to }
{
    let mut rest = slots.into_iter();
    while let Some(slot) = rest.next() {
        if let Slot::Live(item) = slot {
            to.push_reserved(Slot::Live(item));
        }
    }
    to
}

impl<T: Drop> ItemSet<T> {
    /// Moves the items to the first slots, in their order, so that no slot is free. The capacity stays, and nothing
    /// is allocated.
    pub fn compact(&mut self)
        ensures slots { self.new.slots ≡ map Some (contents self.old.slots) }
        ensures capacity { self.new.capacity ≡ self.old.capacity }
    {
        self.slots.retain(|slot| slot.is_live());
        self.next_free = self.slots.len();
        self.lowest = 0;
    }

    /// Compacts the set, and lowers its capacity to `least`, or to the number of items if that is more. The capacity
    /// never grows.
    ///
    /// It allocates memory of the new size, unless the new capacity is 0 or the old one. If the allocation fails, the
    /// set is unchanged.
    pub fn shrink_to(&mut self, least: usize) -> Result<(), TryReserveError>
        ensures slots { OnOk result (self.new.slots ≡ map Some (contents self.old.slots)) }
        ensures capacity { OnOk result (self.new.capacity
            ≡ shrunk_to (live_count self.old.slots) least self.old.capacity) }
        ensures unchanged { OnErr result (self.new ≡ self.old) }
        ensures reason { OnErr result (0 < shrunk_to (live_count self.old.slots) least self.old.capacity) }
        ensures less { OnErr result
            (shrunk_to (live_count self.old.slots) least self.old.capacity < self.old.capacity) }
    {
        let wanted = self.live.max(least.min(self.slots.capacity()));
        if wanted == self.slots.capacity() {
            self.compact();
            return Ok(());
        }
        let alloc = *self.slots.allocator();
        let fresh = Vec::with_capacity(alloc, wanted)?;
        let slots = mem::replace(&mut self.slots, Vec::new(alloc));
        self.slots = gathered(slots, fresh);
        self.next_free = self.slots.len();
        self.lowest = 0;
        Ok(())
    }
}
