//! Taking out the items for which a closure returns `true`, one by one.
//!
//! Made by tests/widths from crates/iddqd_bi/src/map/extract.rt: change that file.
ghost use Rattle.std.specs.Prelude.{◌≡◌, IfNone};
ghost use Rattle.std.specs.Fn.{CalledAt};
ghost use Rattle.std.specs.Option.{option_to_list};
ghost use Rattle.iddqd_store.specs.Bag.Calling.{TakesInTurn};
ghost use Rattle.iddqd_store.specs.Map.{Loses};
ghost use Rattle.iddqd_store.specs.Map.Extracting.{Extracts};
ghost use Rattle.iddqd_store.specs.Map.Walk.{to_come};

use super::IdHashMap;
use crate::item::IdHashItem;
use iddqd_store::Cursor;
use std::hash::{BuildHasher, Hash};

impl<T: IdHashItem, S: BuildHasher> IdHashMap<T, S> {
    /// Removes the next item for which `f` returns `true`, and returns it, or `None` if there is none from the cursor
    /// on. The cursor moves on past the last item with which `f` was called. The items before that one stay, and the
    /// capacity stays.
    ///
    /// Called until it returns `None`, it removes each item for which `f` returns `true` once, as `extract_if` of std
    /// does, and `f` is called once with each item. Between two calls a caller may read the map, write items and
    /// reserve room. After an insert, a removal by another call, or a call that shrinks the map, the loop may pass
    /// items over. A loop that ends early leaves the other items in the map.
    ///
    /// The call hashes the key of the item that it removes once. It compares no key, and allocates no memory. The whole
    /// loop passes each slot once; with a new cursor for each call it would pass the slots before the next item each
    /// time.
    ///
    /// ```text
    /// let mut at = Cursor::new();
    /// while let Some(lease) = leases.extract_from(&mut at, |lease| lease.until < now) {
    ///     // The lease has left the map.
    /// }
    /// ```
    ///
    /// The checker asks for a measure of this loop: `length (to_come l.leases l.at)`, in a file that the guide shows
    /// (`extract`). It asks for none of a loop that begins with `for _ in 0..leases.len()`.
    pub fn extract_from<F: FnMut(&T) -> bool>(&mut self, cursor: &mut Cursor, mut f: F) -> Option<T>
        requires { TakesInTurn F.FnMut f (to_come self.old cursor.old) }
        ensures extracts { Extracts (CalledAt F.FnMut) f self.old cursor.old result self.new cursor.new }
        ensures loses { Loses self.old (option_to_list result) self.new }
        ensures absent { IfNone result (self.new ≡ self.old) }
    {
        while let Some(slot) = self.slot_from(cursor.next()) {
            cursor.pass(slot);
            if f(self.item_at(slot)) {
                return Some(self.remove_at(slot));
            }
        }
        None
    }
}
