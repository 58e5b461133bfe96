//! Borrowing items for writing.
//!
//! Made by tests/widths from crates/iddqd_bi/src/map/write.rt: change that file.
ghost use Rattle.std.specs.Prelude.{◌≡◌, [], Some, IfSome, IfNone};
ghost use Rattle.std.specs.Borrow.{sem};
ghost use Rattle.std.specs.Option.{option_and_then};
ghost use Rattle.iddqd_store.specs.Bag.{IsOnly};
ghost use Rattle.iddqd_store.specs.Map.{bag};
ghost use Rattle.iddqd_store.specs.Map.Walk.{Passes, to_come};
ghost use Rattle.iddqd_id.specs.IterMuts.{done_of, rest_of, IsCounted};
ghost use Rattle.iddqd_id.specs.Keys.{has};
ghost use Rattle.iddqd_id.specs.RefMuts.{ref_lender, ref_map, ref_item, ref_with, rests_if_none};

use super::IdHashMap;
use crate::item::IdHashItem;
use crate::iter_mut::IterMut;
use crate::ref_mut::RefMut;
use iddqd_store::{Costs, Cursor, Query};
use std::hash::{BuildHasher, Hash};

impl<T: IdHashItem, S: BuildHasher> IdHashMap<T, S> {
    /// Returns a guard of the item with the key that the query stands for, or `None`. Through the guard the
    /// item's data can be written, for example by `*guard.data_mut() = data`, and the item can be replaced by one with
    /// equal keys.
    ///
    /// The call compares at most as many keys as items have the query's hash. It allocates no memory.
    ///
    /// ```text
    /// if let Some(mut item) = map.get_mut(&key) {
    ///     *item.data_mut() = data;
    /// }
    /// ```
    pub fn get_mut<Q: Query<T::Key>>(&mut self, query: Q) -> Option<RefMut<'_, T, S>>
        ensures found { IsOnly (has T.IdHashItem Q.stands_for query) (bag self.old) (option_and_then ref_item result) }
        ensures unchanged { IfSome result (λ r. ref_map r ≡ self.old) }
        ensures same_map { IfSome result (λ r. ref_lender r ≡ self.entry.ghost_name) }
        ensures* rests_at_none { sem 𝓛 (rests_if_none T.row S.row T.Key.row S.Hasher.row self.entry result) }
    {
        let slot = self.slot_of(query, &mut Costs::new())?;
        Some(RefMut { map: self, slot })
    }

    /// Returns a guard of the next item of an iteration over the map, or `None` after the last one. The cursor moves on
    /// past that item. Between two steps a caller may read the map, write items and reserve room. After an insert, a
    /// removal, or a call that shrinks the map, the loop may pass items over. The call allocates no memory.
    ///
    /// ```text
    /// let mut at = Cursor::new();
    /// while let Some(mut item) = map.next_from(&mut at) {
    ///     *item.data_mut() = 0;
    /// }
    /// ```
    ///
    /// The checker asks for a measure of this loop: `length (to_come l.map l.at)`, in a file that the guide shows
    /// (`extract`). It asks for none of a loop that begins with `for _ in 0..map.len()`.
    pub fn next_from(&mut self, cursor: &mut Cursor) -> Option<RefMut<'_, T, S>>
        // The guard borrows the next item, and the cursor passes it; or no item is left, and the cursor stays.
        ensures next { IfSome result (λ r. IfSome (ref_item r) (λ x.
            Passes self.old cursor.old x (λ f. ref_map (ref_with r f)) cursor.new)) }
        ensures end { IfNone result (to_come self.old cursor.old ≡ []) }
        ensures stays { IfNone result (cursor.new ≡ cursor.old) }
        // The guard borrows this very map, unchanged so far.
        ensures unchanged { IfSome result (λ r. ref_map r ≡ self.old) }
        ensures same_map { IfSome result (λ r. ref_lender r ≡ self.entry.ghost_name) }
        // If no item is left, the map ends as it was.
        ensures* rests_at_none { sem 𝓛 (rests_if_none T.row S.row T.Key.row S.Hasher.row self.entry result) }
    {
        let slot = self.slot_from(cursor.next())?;
        cursor.pass(slot);
        Some(RefMut { map: self, slot })
    }

    /// Iterates over the items for writing: each item once, in unspecified order, one at a time. The call allocates no
    /// memory.
    ///
    /// ```text
    /// let mut items = map.iter_mut();
    /// while let Some(data) = items.next_data() {
    ///     *data = 0;
    /// }
    /// ```
    pub fn iter_mut(&mut self) -> IterMut<'_, T, S>
        // The iteration borrows this very map, unchanged so far.
        ensures same_map { result.map.ghost_name ≡ self.entry.ghost_name }
        ensures unchanged { result.map.now ≡ self.old }
        // No item has been passed, and all are left.
        ensures start { done_of result ≡ [] }
        ensures gives { rest_of result ≡ bag self.old }
        ensures counted { IsCounted result }
    {
        let left = self.len();
        IterMut {
            map: self,
            next: 0,
            left,
        }
    }
}
