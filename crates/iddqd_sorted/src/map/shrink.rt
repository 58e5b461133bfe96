//! Shrinking the capacity.
ghost use Rattle.std.specs.Prelude.{◌≡◌, ℕ, ◌+◌, ◌^◌, ◌<◌, ◌≤◌, length, map, slice_index_or, All, IsOk, IfOk, OnOk, OnErr};
ghost use Rattle.iddqd_store.specs.Map.{shrunk_to};
ghost use Rattle.iddqd_store.specs.Slots.{contents, IsLive, live_count};
ghost use Rattle.iddqd_order.specs.Row.{entries_in};
ghost use Rattle.iddqd_sorted.specs.Items.{items};
ghost use Rattle.iddqd_sorted.specs.Renumbered.{AreMarks, AreNumbers, marked, renumbered};

use super::Sorted;
use crate::entry::Entry;
use crate::item::Sortable;
use iddqd_order::Blocks;
use iddqd_store::{ItemIndex, ItemSet, SlotMap, TryReserveError};

impl<M: SlotMap> Sorted<M>
where
    M::Item: Sortable + Drop,
    M::FirstKey: Ord,
{
    /// Shrinks the capacity to `least`, but not below the number of items. It never grows the capacity.
    ///
    /// The call allocates smaller slots and tables, and hashes each key anew. Then each entry of the order gets the number of its
    /// item's new slot, where it stands: the call compares no key. While it runs, it needs 8 bytes for each slot beside the new
    /// memory. Last it gives back the memory that the order does not need. If an allocation fails, the map is as before.
    ///
    /// A call that does not change the capacity gives back what memory it can, and never fails.
    pub fn shrink_to(&mut self, least: usize) -> Result<(), TryReserveError>
        // The items and the builder stay.
        ensures items { items self.new ≡ items self.old }
        ensures builder { self.new.builder ≡ self.old.builder }
        // The capacity is the one asked for, but no less than the number of items and no more than before. After an error nothing
        // has changed.
        ensures shrunk { OnOk result (self.new.capacity ≡ shrunk_to (length (items self.old)) least self.old.capacity) }
        ensures reason { OnErr result (0 < shrunk_to (length (items self.old)) least self.old.capacity) }
        ensures granted { shrunk_to (length (items self.old)) least self.old.capacity ≡ self.old.capacity → IsOk result }
        ensures unchanged { OnErr result (self.new ≡ self.old) }
    {
        let room = self.capacity();
        let wanted = self.len().max(least.min(room));
        let rebuilt = self.rebuild(wanted);
        if wanted == room {
            return Ok(());
        }
        rebuilt
    }

    /// Shrinks the capacity to the number of items, as `shrink_to(0)` does.
    pub fn shrink_to_fit(&mut self) -> Result<(), TryReserveError>
        // The items and the builder stay.
        ensures items { items self.new ≡ items self.old }
        ensures builder { self.new.builder ≡ self.old.builder }
        // The capacity is the number of items. After an error nothing has changed.
        ensures shrunk { OnOk result (self.new.capacity ≡ length (items self.old)) }
        ensures reason { OnErr result (0 < length (items self.old)) }
        ensures granted { length (items self.old) ≡ self.old.capacity → IsOk result }
        ensures unchanged { OnErr result (self.new ≡ self.old) }
    {
        self.shrink_to(0)
    }

    /// Gives the items other slots, of which there are so many, and the entries the numbers of these. After an error the map is
    /// as before.
    fn rebuild(&mut self, wanted: usize) -> Result<(), TryReserveError>
        requires enough { length (items self.old) ≤ wanted }
        requires shrinks { wanted ≤ self.old.capacity }
        ensures items { items self.new ≡ items self.old }
        ensures builder { self.new.builder ≡ self.old.builder }
        ensures capacity { OnOk result (self.new.capacity ≡ wanted) }
        ensures reason { OnErr result (0 < wanted) }
        ensures unchanged { OnErr result (self.new ≡ self.old) }
    {
        // All that can fail comes first, and all code of the caller.
        let mut numbers = marks_of_live(self.map.slots())?;
        self.map.shrink_to(wanted)?;
        number_marked(self.map.slots(), &mut numbers);
        renumber(&mut self.order, &numbers);
        self.order.lower_capacity(wanted);
        Ok(())
    }
}

/// Returns the number of slots, or 0 if all are free.
fn slots_with_items<T>(slots: &ItemSet<T>) -> usize
    ensures within { result ≤ length slots.now.slots }
    ensures all { (slot : ℕ) → IsLive slots.now.slots slot → slot < result }
    ensures none { live_count slots.now.slots ≡ 0 → result ≡ 0 }
{
    if slots.len() == 0 {
        return 0;
    }
    slots.slot_count()
}

/// Returns 1 for each slot that has an item, and 0 for each that is free. If all are free, it allocates nothing.
fn marks_of_live<T>(slots: &ItemSet<T>) -> Result<Vec<usize>, TryReserveError>
    ensures marks { IfOk result (λ v. AreMarks slots.now.slots v.items) }
    ensures reason { OnErr result (0 < live_count slots.now.slots) }
{
    let count = slots_with_items(slots);
    let alloc = slots.allocator();
    let mut marks = Vec::with_capacity(alloc, count)?;
    for number in 0..count {
        marks.push_reserved(match slots.get(ItemIndex::new(number)) {
            Some(_) => 1,
            None => 0,
        });
    }
    Ok(marks)
}

/// Writes the number of a slot in the place of each mark of 1: for the first mark that of the first slot with an item, for the next mark
/// that of the next slot with one.
fn number_marked<T>(slots: &ItemSet<T>, marks: &mut [usize])
    requires { marked marks.old ≤ length (contents slots.now.slots) }
    ensures { AreNumbers slots.now.slots marks.old marks.new }
{
    let mut from = 0;
    for at in 0..marks.len() {
        if marks[at] == 1 {
            let Some(slot) = slots.next_live(from) else {
                unreachable!()
            };
            marks[at] = slot.number();
            from = slot.number() + 1;
        }
    }
}

/// Gives each entry the number that stands at the index of its own. No entry moves.
fn renumber<K: Copy>(order: &mut Blocks<Entry<K>>, numbers: &[usize])
    requires { All (λ e. (e.slot < length numbers.now) × (slice_index_or numbers.now e.slot 0 + 1 < 2 ^ 64)) (entries_in order.old) }
    ensures entries { entries_in order.new ≡ map (renumbered numbers.now) (entries_in order.old) }
    ensures capacity { order.new.capacity ≡ order.old.capacity }
{
    let mut next = order.first();
    while let Some(place) = next {
        let entry = *order.entry_in(place);
        let slot = ItemIndex::new(numbers[entry.slot.number()]);
        let _ = order.replace(
            place,
            Entry {
                sort_key: entry.sort_key,
                slot,
            },
        );
        next = order.next(place);
    }
}
