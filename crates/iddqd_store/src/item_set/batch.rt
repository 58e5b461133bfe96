//! A record of the items that a batch has inserted, so that they can be removed again.
ghost use Rattle.std.specs.Prelude.{◌≡◌, ◌+◌, ◌<◌, ◌≤◌, ◌++◌, [], ◌∷◌, length, vec_capacity, IsOk, OnOk, All, IsPermutation, nat_eq};
ghost use Rattle.std.specs.List.{IsDistinct};
ghost use Rattle.iddqd_store.specs.Slots.{IsLive, contents};
ghost use Rattle.iddqd_store.specs.Slots.Found.{items_at};

use super::{ItemIndex, ItemSet};
use crate::error::TryReserveError;
use crate::load::at_once;
use std::alloc::Global;
use std::marker::Model;

/// The slots of the items that a batch has inserted into a map, in the order of the batch, and the capacity that
/// these items need if they are removed again.
#[derive(Drop)]
pub struct Batch<T> {
    slots: Vec<ItemIndex>,
    // This list is empty, and has the capacity for the items that are removed again.
    items: Vec<T>,
}

impl<T> Model for Batch<T> {
    ghost use Rattle.std.specs.Prelude.{◌≡◌, ◌≤◌, [], length, min, vec_capacity};
    ghost use Rattle.iddqd_store.specs.Slots.Batch.{Batch, batch_code};

    ghost Value = { Batch };

    ghost coded = { batch_code };

    ghost view = { λ e. record { slots = e.slots.items; room = min (vec_capacity e.slots) (vec_capacity e.items) } };

    ghost invariant = { λ e. (e.items.items ≡ []) × (length e.slots.items ≤ vec_capacity e.items) };
}

impl<T> Batch<T> {
    /// Makes an empty record. It allocates nothing.
    pub(crate) fn new(alloc: Global) -> Self
        ensures { result.slots ≡ [] }
    {
        Batch {
            slots: Vec::new(alloc),
            items: Vec::new(alloc),
        }
    }

    /// Returns how many items are noted.
    pub fn len(&self) -> usize
        ensures { result ≡ length self.now.slots }
    {
        self.slots.len()
    }

    /// Appends the slot of an item that was inserted.
    pub fn push(&mut self, slot: ItemIndex)
        requires { length self.old.slots < self.old.room }
        ensures { self.new.slots ≡ self.old.slots ++ slot ∷ [] }
    {
        self.slots.push_reserved(slot);
    }

    /// Returns the slots, and an empty list with the capacity for their items.
    pub fn into_parts(self) -> (Vec<ItemIndex>, Vec<T>)
        ensures slots { result.0.items ≡ self.slots }
        ensures empty { result.1.items ≡ [] }
        ensures room { length self.slots ≤ vec_capacity result.1 }
    {
        let Batch { slots, items } = self;
        (slots, items)
    }
}

impl<T: Drop> Batch<T> {
    /// Reserves spare capacity for one more item. If there is none, it reserves it for as many as are `wanted` (`at_once`),
    /// and for one if there is no memory for so many. It fails only if there is no spare capacity and the memory for one cannot be
    /// allocated.
    #[inline(always)]
    pub fn reserve_for(&mut self, wanted: usize) -> Result<(), TryReserveError>
        requires { 0 < wanted }
        ensures slots { self.new.slots ≡ self.old.slots }
        ensures room { OnOk result (length self.new.slots < self.new.room) }
        ensures granted { length self.old.slots < self.old.room → IsOk result }
    {
        let noted = self.slots.len();
        if noted < self.slots.capacity() && noted < self.items.capacity() {
            return Ok(());
        }
        self.grow(wanted)
    }

    // Allocates more capacity for the slots or for their items: for as many as are wanted (`at_once`), or for one.
    #[cold]
    #[inline(never)]
    fn grow(&mut self, wanted: usize) -> Result<(), TryReserveError>
        requires { 0 < wanted }
        ensures slots { self.new.slots ≡ self.old.slots }
        ensures room { OnOk result (length self.new.slots < self.new.room) }
    {
        let wanted = at_once(wanted, self.slots.len());
        // For one alone the same request would be made twice.
        if wanted > 1 && self.grow_by(wanted).is_ok() {
            return Ok(());
        }
        self.grow_by(1)
    }

    // Allocates more capacity for the slots or for their items. The vector of the items is made anew, since growing it
    // would copy memory that holds nothing. It is not made as large as that of the slots, since there may be memory for
    // fewer items alone.
    fn grow_by(&mut self, wanted: usize) -> Result<(), TryReserveError>
        requires { 0 < wanted }
        ensures slots { self.new.slots ≡ self.old.slots }
        ensures room { OnOk result (length self.new.slots < self.new.room) }
    {
        self.slots.reserve(wanted)?;
        let noted = self.slots.len();
        let room = self.items.capacity();
        if room <= noted {
            let mut items = Vec::new(*self.slots.allocator());
            items.reserve((noted + wanted).max(room.saturating_mul(2)))?;
            self.items = items;
        }
        Ok(())
    }
}
