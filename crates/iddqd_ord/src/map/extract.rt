//! Taking out items one by one, in the order of their keys.
ghost use Rattle.std.specs.Prelude.{◌≡◌, ◌≤◌, [], length, drop, IfSome, IfNone};
ghost use Rattle.std.specs.Fn.{CalledAt};
ghost use Rattle.iddqd_store.specs.Bag.Calling.{TakesInTurn};
ghost use Rattle.iddqd_order.specs.Row.{index_of, HasEntry};
ghost use Rattle.iddqd_ord.specs.Items.{items};
ghost use Rattle.iddqd_ord.specs.Extracting.{Extracts, ExtractsBy, FindsFrom, PopsFrom, to_come};

use super::IdOrdMap;
use crate::cursor::Cursor;
use crate::item::IdOrdItem;
use iddqd_order::Place;

impl<T: IdOrdItem> IdOrdMap<T> {
    /// Removes the next item for which `f` returns `true`, in ascending order of the keys, and returns it, or `None` if
    /// there is none from the cursor on. The cursor moves on to where the item was. The items before that one stay, and the
    /// capacity stays.
    ///
    /// Called until it returns `None`, it removes each item for which `f` returns `true` once, as `extract_if` of std does,
    /// and `f` is called once with each item. Between two calls a caller may read the map, write items and reserve room.
    /// After an insert or a removal by another call the loop may pass items over. A loop that ends early leaves the other
    /// items in the map. No part of the map has to be made anew, so the call cannot fail.
    ///
    /// The call compares no key, and allocates no memory. The whole loop takes a step for each item.
    ///
    /// ```text
    /// let mut at = Cursor::new();
    /// while let Some(lease) = leases.extract_from(&mut at, |lease| lease.until < now) {
    ///     // The lease has left the map.
    /// }
    /// ```
    ///
    /// The checker asks for a measure of this loop: `length (to_come l.leases l.at)`. It asks for none of a loop that begins
    /// with `for _ in 0..leases.len()`.
    pub fn extract_from<F: FnMut(&T) -> bool>(&mut self, cursor: &mut Cursor, f: F) -> Option<T>
        requires { TakesInTurn F.FnMut f (to_come self.old cursor.old) }
        ensures extracts { Extracts (CalledAt F.FnMut) f self.old cursor.old result self.new cursor.new }
        // The same for a closure that only reads, by the test that it makes.
        ensures extracts_by { ExtractsBy (CalledAt F.FnMut) f self.old cursor.old result self.new cursor.new }
        ensures capacity { self.new.capacity ≡ self.old.capacity }
        ensures absent { IfNone result (self.new ≡ self.old) }
    {
        let from = self.items.entry_from(cursor.place);
        let Some(place) = self.find_from(from, f) else {
            cursor.place = self.end_place();
            return None;
        };
        let (item, after) = self.remove_in(place);
        cursor.place = after;
        Some(item)
    }

    /// Removes the next item from the cursor on, in ascending order of the keys, and returns it, or `None` if there is none.
    /// The cursor moves on to where the item was. The capacity stays.
    ///
    /// Called with a new cursor until it returns `None`, it removes each item once, and leaves the map empty with its
    /// capacity, as `drain` of std does. If the loop ends early, the other items are still in the map. Between two calls a
    /// caller may read the map, write items and reserve room. After an insert or a removal by another call the loop may pass
    /// items over.
    ///
    /// The call compares no key, and allocates no memory.
    ///
    /// ```text
    /// let mut at = Cursor::new();
    /// while let Some(item) = map.pop_from(&mut at) {
    ///     // The item has left the map.
    /// }
    /// ```
    ///
    /// The checker asks for a measure of this loop: `length (to_come l.map l.at)`. It asks for none of a loop that begins
    /// with `for _ in 0..map.len()`.
    pub fn pop_from(&mut self, cursor: &mut Cursor) -> Option<T>
        ensures pops_from { PopsFrom self.old cursor.old result self.new cursor.new }
        ensures capacity { self.new.capacity ≡ self.old.capacity }
        ensures absent { IfNone result (self.new ≡ self.old) }
    {
        let place = self.items.entry_from(cursor.place)?;
        let (item, after) = self.remove_in(place);
        cursor.place = after;
        Some(item)
    }

    /// Returns the place of the first item, from a place on, for which `f` returns `true`, or `None` if there is none.
    fn find_from<F: FnMut(&T) -> bool>(&self, from: Option<Place>, mut f: F) -> Option<Place>
        requires there { IfSome from (HasEntry self.now.blocks) }
        requires callable { TakesInTurn F.FnMut f (drop (index_of self.now.blocks from) (items self.now)) }
        ensures entry { IfSome result (HasEntry self.now.blocks) }
        ensures finds { FindsFrom (CalledAt F.FnMut) f (items self.now) (index_of self.now.blocks from)
            (index_of self.now.blocks result) }
    {
        let mut next = from;
        while let Some(place) = next {
            if f(self.item_in(place)) {
                return Some(place);
            }
            next = self.next_place(place);
        }
        None
    }
}
