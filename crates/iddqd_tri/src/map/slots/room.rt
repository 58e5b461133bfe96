//! How many items fit, and room for more. The capacity of a map is the least of those of its slots and tables.
//!
//! Made by tests/widths from crates/iddqd_bi/src/map/slots/room.rt: change that file.
ghost use Rattle.std.specs.Prelude.{◌≡◌, ◌==◌, ◌<◌, ◌≤◌, length, OnOk, OnErr};
ghost use Rattle.iddqd_store.specs.Map.{bag, most_grown, Reserves};
ghost use Rattle.iddqd_store.specs.Table.Limit.{most_room};

use crate::item::TriHashItem;
use crate::map::TriHashMap;
use iddqd_store::{AHEAD, Meter, TryReserveError, at_once, pairs_wanted, slots_wanted};
use std::hash::{BuildHasher, Hash};

impl<T: TriHashItem, S: BuildHasher> TriHashMap<T, S> {
    /// Returns how many items fit: the least of what the slots and each table hold.
    pub(crate) fn least_capacity(&self) -> usize
        ensures value { result ≡ self.now.capacity }
        ensures fits { length (bag self.now) ≤ result }
        ensures most { result ≤ most_room }
    {
        self.items
            .capacity()
            .min(self.first.capacity())
            .min(self.second.capacity())
            .min(self.third.capacity())
    }

    /// Does nothing. A call of it gives the prover the fact that the items fit.
    #[inline(always)]
    pub(crate) fn note_that_items_fit(&self)
        ensures fits { length (bag self.now) ≤ self.now.capacity }
        ensures most { self.now.capacity ≤ most_room }
    {
        let _ = self.least_capacity();
    }

    /// Returns whether no further item fits.
    #[inline(always)]
    fn is_full(&self) -> bool
        ensures value { result ≡ (length (bag self.now) == self.now.capacity) }
        ensures fits { length (bag self.now) ≤ self.now.capacity }
    {
        self.items.len() == self.least_capacity()
    }

    /// Reserves capacity for as many more items as are `wanted` (`at_once`) if the map is full, and for one if there is
    /// no memory for so many. If that fails too, the map is as before.
    #[inline(always)]
    pub(crate) fn make_room(&mut self, wanted: usize) -> Result<(), TryReserveError>
        requires { 0 < wanted }
        ensures slots { self.new.slots ≡ self.old.slots }
        ensures builder { self.new.builder ≡ self.old.builder }
        ensures no_less_room { self.old.capacity ≤ self.new.capacity }
        ensures same_room { length (bag self.old) < self.old.capacity → self.new ≡ self.old }
        ensures most { self.new.capacity ≤ most_grown self.old.capacity (length (bag self.old)) wanted }
        ensures room { OnOk result (length (bag self.old) < self.new.capacity) }
        ensures reason { OnErr result (length (bag self.old) ≡ self.old.capacity) }
        ensures unchanged { OnErr result (self.new ≡ self.old) }
    {
        if self.is_full() {
            return self.grow_for(wanted);
        }
        Ok(())
    }

    /// Reserves capacity for as many more items as are `wanted` (`at_once`), and for one if there is no memory for so
    /// many.
    #[cold]
    #[inline(never)]
    fn grow_for(&mut self, wanted: usize) -> Result<(), TryReserveError>
        requires { 0 < wanted }
        ensures slots { self.new.slots ≡ self.old.slots }
        ensures builder { self.new.builder ≡ self.old.builder }
        ensures no_less_room { self.old.capacity ≤ self.new.capacity }
        ensures most { self.new.capacity ≤ most_grown self.old.capacity (length (bag self.old)) wanted }
        ensures room { OnOk result (length (bag self.old) < self.new.capacity) }
        ensures unchanged { OnErr result (self.new ≡ self.old) }
    {
        let wanted = at_once(wanted, self.items.len());
        // For one alone the same request would be made twice.
        if wanted > 1 && self.grow(wanted, AHEAD).is_ok() {
            return Ok(());
        }
        self.grow(1, AHEAD)
    }

    /// Reserves capacity for this many more items. If the slots have to grow, the tables are made for these items, and
    /// for twice the room of the slots, but ahead of the items for at most so many. It is not inlined into an insert,
    /// which seldom grows.
    ///
    /// It asks for all memory before it writes any of it: for that of the larger tables, and last for that of the
    /// slots, which grow in place. So if a step fails, slots and tables are as before, and the memory asked for goes
    /// back unwritten. Then each larger table replaces the old one, which never fails.
    #[cold]
    #[inline(never)]
    pub(crate) fn grow(&mut self, more: usize, ahead: usize) -> Result<(), TryReserveError>
        ensures { Reserves self.old more result self.new }
    {
        let len = self.items.len();
        let Some(wanted) = pairs_wanted(len, self.items.capacity(), more, ahead) else {
            return Err(TryReserveError);
        };
        let first = self.first.spare_for(wanted)?;
        let second = self.second.spare_for(wanted)?;
        let third = self.third.spare_for(wanted)?;
        let cells = self.first.cells_with(&first);
        let cells = cells.min(self.second.cells_with(&second));
        self.items
            .try_reserve(slots_wanted(len, self.items.capacity(), more, cells))?;
        let mut meter = Meter::new();
        self.first.take_over(first, &mut meter);
        self.second.take_over(second, &mut meter);
        self.third.take_over(third, &mut meter);
        Ok(())
    }
}
