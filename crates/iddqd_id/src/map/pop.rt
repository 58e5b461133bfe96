//! Removing some item, or all items one by one.
//!
//! Made by tests/widths from crates/iddqd_bi/src/map/pop.rt: change that file.
ghost use Rattle.std.specs.Prelude.{◌≡◌, [], IfNone};
ghost use Rattle.std.specs.Option.{option_to_list};
ghost use Rattle.iddqd_store.specs.Map.{bag, Loses};
ghost use Rattle.iddqd_store.specs.Map.Extracting.{PopsFrom};

use super::IdHashMap;
use crate::item::IdHashItem;
use iddqd_store::Cursor;
use std::hash::{BuildHasher, Hash};

impl<T: IdHashItem, S: BuildHasher> IdHashMap<T, S> {
    /// Removes some item, and returns it, or `None` if the map has none. The capacity stays.
    ///
    /// Which item it is depends on the slots of the items, and not on their order of insertion. The call hashes the key
    /// of the item once, compares none, and allocates no memory. It passes free slots before the item, but none that an
    /// earlier `pop` has passed, unless an insert has used it or a lower one since. So a loop that calls `pop` until
    /// the map is empty takes time in proportion to the number of slots.
    ///
    /// ```text
    /// let Some(item) = map.pop() else {
    ///     // The map is empty.
    ///     return;
    /// };
    /// ```
    pub fn pop(&mut self) -> Option<T>
        ensures loses { Loses self.old (option_to_list result) self.new }
        // There was no item to remove.
        ensures empty { IfNone result (bag self.old ≡ []) }
        ensures absent { IfNone result (self.new ≡ self.old) }
    {
        let slot = self.first_slot()?;
        Some(self.remove_at(slot))
    }

    /// Removes the next item from the cursor on, and returns it, or `None` if there is none. The cursor moves on to
    /// where the item was. The capacity stays.
    ///
    /// Called with a new cursor until it returns `None`, it removes each item once, and leaves the map empty with its
    /// capacity, as `drain` of std does. The whole loop passes each slot once. If the loop ends early, the other items
    /// are still in the map. Between two calls a caller may read the map, write items and reserve room. After an
    /// insert, a removal by another call, or a call that shrinks the map, the loop may pass items over. A loop that
    /// makes a new cursor for each call passes the free slots before the next item each time, so its time grows with
    /// the square of the number of slots; `pop` remembers its place.
    ///
    /// The call hashes the key of the item once. It compares no key, and allocates no memory.
    ///
    /// ```text
    /// let mut at = Cursor::new();
    /// while let Some(item) = map.pop_from(&mut at) {
    ///     // The item has left the map.
    /// }
    /// ```
    ///
    /// The checker asks for a measure of this loop: `length (to_come l.map l.at)`, in a file that the guide shows
    /// (`extract`). It asks for none of a loop that begins with `for _ in 0..map.len()`.
    pub fn pop_from(&mut self, cursor: &mut Cursor) -> Option<T>
        ensures pops_from { PopsFrom self.old cursor.old result self.new cursor.new }
        ensures loses { Loses self.old (option_to_list result) self.new }
        ensures absent { IfNone result (self.new ≡ self.old) }
    {
        let slot = self.slot_from(cursor.next())?;
        cursor.pass(slot);
        Some(self.remove_at(slot))
    }
}
