//! Guards of items one by one, in an iteration that does not borrow the map between two steps.
ghost use Rattle.std.specs.Prelude.{◌≡◌, [], IfSome, IfNone, slice_get};
ghost use Rattle.std.specs.Borrow.{sem};
ghost use Rattle.iddqd_order.specs.Row.{position, HasEntry};
ghost use Rattle.iddqd_ord.specs.Extracting.{Passes, to_come};
ghost use Rattle.iddqd_ord.specs.Items.{items};
ghost use Rattle.iddqd_ord.specs.RefMuts.{ref_item, ref_lender, ref_map, ref_with, rests_if_none};
ghost use Rattle.iddqd_ord.specs.Writing.{map_with};

use super::IdOrdMap;
use crate::cursor::Cursor;
use crate::item::IdOrdItem;
use crate::ref_mut::RefMut;
use iddqd_order::Place;

impl<T: IdOrdItem> IdOrdMap<T> {
    /// Returns a guard of the next item from the cursor on, in ascending order of the keys, or `None` after the last one. The
    /// cursor moves on past that item. Between two steps a caller may read the map, write items and reserve room. After an
    /// insert or a removal the loop may pass items over. The call compares no key, and allocates no memory.
    ///
    /// ```text
    /// let mut at = Cursor::new();
    /// while let Some(mut item) = map.next_from(&mut at) {
    ///     *item.data_mut() = 0;
    /// }
    /// ```
    ///
    /// The checker asks for a measure of this loop: `length (to_come l.map l.at)`. It asks for none of a loop that begins
    /// with `for _ in 0..map.len()`.
    pub fn next_from(&mut self, cursor: &mut Cursor) -> Option<RefMut<'_, T>>
        // The guard borrows the next item, and the cursor passes it; or no item is left, and the cursor stays.
        ensures next { IfSome result (λ r. IfSome (ref_item r) (λ x.
            Passes self.old cursor.old x (λ f. ref_map (ref_with r f)) cursor.new)) }
        ensures end { IfNone result (to_come self.old cursor.old ≡ []) }
        ensures stays { IfNone result (cursor.new ≡ cursor.old) }
        // The guard borrows this very map, unchanged so far.
        ensures unchanged { IfSome result (λ r. ref_map r ≡ self.old) }
        ensures same_map { IfSome result (λ r. ref_lender r ≡ self.entry.ghost_name) }
        // If no item is left, the map ends as it was.
        ensures* rests_at_none { sem 𝓛 (rests_if_none T.row T.Key.row self.entry result) }
    {
        let place = self.pass_next(cursor)?;
        Some(RefMut { map: self, place })
    }

    /// Moves the cursor on past the next item, and returns that item's place, or `None` after the last one.
    fn pass_next(&self, cursor: &mut Cursor) -> Option<Place>
        ensures entry { IfSome result (HasEntry self.now.blocks) }
        ensures passes { IfSome result (λ p. IfSome (slice_get (items self.now) (position self.now.blocks p)) (λ x.
            Passes self.now cursor.old x (λ f. map_with self.now p f) cursor.new)) }
        ensures end { IfNone result (to_come self.now cursor.old ≡ []) }
        ensures stays { IfNone result (cursor.new ≡ cursor.old) }
    {
        let place = self.items.entry_from(cursor.place)?;
        cursor.place = self.items.behind(place);
        Some(place)
    }
}
