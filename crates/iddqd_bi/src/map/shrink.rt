//! Shrinking the capacity.
ghost use Rattle.std.specs.Prelude.{◌≡◌, ◌<◌, ◌≤◌, length, IsOk, OnOk, OnErr};
ghost use Rattle.iddqd_store.specs.Map.{bag, shrunk_to};

use super::BiHashMap;
use crate::item::BiHashItem;
use crate::ranks::{First, Second};
use iddqd_store::{TryReserveError, pairs_for};
use std::hash::{BuildHasher, Hash};

impl<T: BiHashItem + Drop, S: BuildHasher> BiHashMap<T, S> {
    /// Shrinks the capacity to `least`, but not below the number of items. It never grows the capacity.
    ///
    /// The call allocates smaller slots and tables, and hashes each key anew. It compares none. If an allocation fails,
    /// the map is as before, and each key may have been hashed. For a map that gets capacity 0 the call allocates nothing.
    ///
    /// If the slots and tables are those of a map made with the new capacity, the call allocates and hashes nothing.
    /// They may be larger although the capacity stays, for example the slots of a large map that has grown. Then the
    /// call makes them smaller if there is memory for that, and succeeds in any case: a call that does not change the
    /// capacity never fails.
    pub fn shrink_to(&mut self, least: usize) -> Result<(), TryReserveError>
        // The items and the builder stay.
        ensures items { bag self.new ≡ bag self.old }
        ensures builder { self.new.builder ≡ self.old.builder }
        // The capacity is the one asked for, but no less than the number of items and no more than before. After an
        // error nothing has changed.
        ensures shrunk { OnOk result (self.new.capacity ≡ shrunk_to (length (bag self.old)) least self.old.capacity) }
        ensures reason { OnErr result (0 < shrunk_to (length (bag self.old)) least self.old.capacity) }
        ensures granted { shrunk_to (length (bag self.old)) least self.old.capacity ≡ self.old.capacity → IsOk result }
        ensures unchanged { OnErr result (self.new ≡ self.old) }
    {
        let room = self.capacity();
        let wanted = self.len().max(least.min(room));
        let pairs = pairs_for(wanted);
        // A map that is made for this many items stays as it is.
        if self.items.capacity() == wanted
            && self.first.is_made_for(pairs)
            && self.second.is_made_for(pairs)
        {
            return Ok(());
        }
        let rebuilt = self.rebuild(wanted);
        if wanted == room {
            return Ok(());
        }
        rebuilt
    }

    /// Shrinks the capacity to the number of items, as `shrink_to(0)` does.
    pub fn shrink_to_fit(&mut self) -> Result<(), TryReserveError>
        // The items and the builder stay.
        ensures items { bag self.new ≡ bag self.old }
        ensures builder { self.new.builder ≡ self.old.builder }
        // The capacity is the number of items. After an error nothing has changed.
        ensures shrunk { OnOk result (self.new.capacity ≡ length (bag self.old)) }
        ensures reason { OnErr result (0 < length (bag self.old)) }
        ensures granted { length (bag self.old) ≡ self.old.capacity → IsOk result }
        ensures unchanged { OnErr result (self.new ≡ self.old) }
    {
        self.shrink_to(0)
    }

    /// Makes slots and tables anew, for this many items. After an error the map is as before.
    fn rebuild(&mut self, wanted: usize) -> Result<(), TryReserveError>
        requires enough { length (bag self.old) ≤ wanted }
        requires shrinks { wanted ≤ self.old.capacity }
        ensures items { bag self.new ≡ bag self.old }
        ensures builder { self.new.builder ≡ self.old.builder }
        ensures capacity { OnOk result (self.new.capacity ≡ wanted) }
        ensures reason { OnErr result (0 < wanted) }
        ensures unchanged { OnErr result (self.new ≡ self.old) }
    {
        // All that can fail comes first: the new tables, the hashes of the keys, then the slots.
        let mut first = self.first.fresh(pairs_for(wanted))?;
        let mut second = self.second.fresh(pairs_for(wanted))?;
        self.items
            .fill_ahead::<First, S>(&mut first, &self.hash_builder);
        self.items
            .fill_ahead::<Second, S>(&mut second, &self.hash_builder);
        self.items.shrink_to(wanted)?;
        self.first = first;
        self.second = second;
        Ok(())
    }
}
