//! Shrinking the capacity.
ghost use Rattle.std.specs.Prelude.{◌≡◌, length, IsOk, OnOk};
ghost use Rattle.iddqd_store.specs.Map.{shrunk_to};
ghost use Rattle.iddqd_ord.specs.Items.{items};

use super::IdOrdMap;
use crate::item::IdOrdItem;
use iddqd_store::TryReserveError;

impl<T: IdOrdItem + Drop> IdOrdMap<T> {
    /// Shrinks the capacity to `least`, but not below the number of items. It never grows the capacity.
    ///
    /// The call gives back the memory that the capacity does not need, also if the capacity stays. It allocates nothing, never
    /// fails, and compares no key. The items stay in their blocks, which a map filled at random has two thirds full.
    pub fn shrink_to(&mut self, least: usize) -> Result<(), TryReserveError>
        // The items stay.
        ensures items { OnOk result (items self.new ≡ items self.old) }
        // The capacity is the one asked for, but no less than the number of items and no more than before.
        ensures shrunk { OnOk result (self.new.capacity ≡ shrunk_to (length (items self.old)) least self.old.capacity) }
        // The call never fails. That it returns a `Result` is for callers of the other maps, where it may.
        ensures granted { IsOk result }
    {
        let room = self.capacity();
        let wanted = self.len().max(least.min(room));
        self.items.lower_capacity(wanted);
        Ok(())
    }

    /// Shrinks the capacity to the number of items, as `shrink_to(0)` does.
    pub fn shrink_to_fit(&mut self) -> Result<(), TryReserveError>
        ensures items { OnOk result (items self.new ≡ items self.old) }
        // The capacity is the number of items, and the call never fails.
        ensures shrunk { OnOk result (self.new.capacity ≡ length (items self.old)) }
        ensures granted { IsOk result }
    {
        self.shrink_to(0)
    }
}
