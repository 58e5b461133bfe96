//! Borrowing items for writing.
//!
//! Made by tests/widths from crates/iddqd_bi/src/map/write.rt: change that file.
ghost use Rattle.std.specs.Prelude.{◌≡◌, [], Some, IfSome, IfNone};
ghost use Rattle.std.specs.Borrow.{sem};
ghost use Rattle.std.specs.Option.{option_and_then};
ghost use Rattle.iddqd_store.specs.Bag.{IsOnly};
ghost use Rattle.iddqd_store.specs.Map.{bag};
ghost use Rattle.iddqd_store.specs.Map.Walk.{Passes, to_come};
ghost use Rattle.iddqd_tri.specs.IterMuts.{done_of, rest_of, IsCounted};
ghost use Rattle.iddqd_tri.specs.Keys.{has1, has2, has3, has_all};
ghost use Rattle.iddqd_tri.specs.RefMuts.{ref_lender, ref_map, ref_item, ref_with, rests_if_none};

use super::TriHashMap;
use crate::item::TriHashItem;
use crate::iter_mut::IterMut;
use crate::ref_mut::RefMut;
use iddqd_store::{Costs, Cursor, Query};
use std::hash::{BuildHasher, Hash};

impl<T: TriHashItem, S: BuildHasher> TriHashMap<T, S> {
    /// Returns a guard of the item with the first key that the query stands for, or `None`. Through the guard the
    /// item's data can be written, for example by `*guard.data_mut() = data`, and the item can be replaced by one with
    /// equal keys.
    ///
    /// The call compares at most as many keys as items have the query's hash at the first rank. It allocates no memory.
    ///
    /// ```text
    /// if let Some(mut item) = map.get1_mut(&key1) {
    ///     *item.data_mut() = data;
    /// }
    /// ```
    pub fn get1_mut<Q: Query<T::K1>>(&mut self, query: Q) -> Option<RefMut<'_, T, S>>
        ensures found { IsOnly (has1 T.TriHashItem Q.stands_for query) (bag self.old)
            (option_and_then ref_item result) }
        ensures unchanged { IfSome result (λ r. ref_map r ≡ self.old) }
        ensures same_map { IfSome result (λ r. ref_lender r ≡ self.entry.ghost_name) }
        ensures* rests_at_none { sem 𝓛
            (rests_if_none T.row S.row T.K1.row T.K2.row T.K3.row S.Hasher.row self.entry result) }
    {
        let slot = self.slot1_of(query, &mut Costs::new())?;
        Some(RefMut { map: self, slot })
    }

    /// Returns a guard of the item with the second key that the query stands for, or `None`. Through the guard the
    /// item's data can be written, for example by `*guard.data_mut() = data`, and the item can be replaced by one with
    /// equal keys.
    ///
    /// The call compares at most as many keys as items have the query's hash at the second rank. It allocates no
    /// memory.
    ///
    /// ```text
    /// if let Some(mut item) = map.get2_mut(&key2) {
    ///     *item.data_mut() = data;
    /// }
    /// ```
    pub fn get2_mut<Q: Query<T::K2>>(&mut self, query: Q) -> Option<RefMut<'_, T, S>>
        ensures found { IsOnly (has2 T.TriHashItem Q.stands_for query) (bag self.old)
            (option_and_then ref_item result) }
        ensures unchanged { IfSome result (λ r. ref_map r ≡ self.old) }
        ensures same_map { IfSome result (λ r. ref_lender r ≡ self.entry.ghost_name) }
        ensures* rests_at_none { sem 𝓛
            (rests_if_none T.row S.row T.K1.row T.K2.row T.K3.row S.Hasher.row self.entry result) }
    {
        let slot = self.slot2_of(query, &mut Costs::new())?;
        Some(RefMut { map: self, slot })
    }

    /// Returns a guard of the item with the third key that the query stands for, or `None`. Through the guard the
    /// item's data can be written, for example by `*guard.data_mut() = data`, and the item can be replaced by one with
    /// equal keys.
    ///
    /// The call compares at most as many keys as items have the query's hash at the third rank. It allocates no
    /// memory.
    ///
    /// ```text
    /// if let Some(mut item) = map.get3_mut(&key3) {
    ///     *item.data_mut() = data;
    /// }
    /// ```
    pub fn get3_mut<Q: Query<T::K3>>(&mut self, query: Q) -> Option<RefMut<'_, T, S>>
        ensures found { IsOnly (has3 T.TriHashItem Q.stands_for query) (bag self.old)
            (option_and_then ref_item result) }
        ensures unchanged { IfSome result (λ r. ref_map r ≡ self.old) }
        ensures same_map { IfSome result (λ r. ref_lender r ≡ self.entry.ghost_name) }
        ensures* rests_at_none { sem 𝓛
            (rests_if_none T.row S.row T.K1.row T.K2.row T.K3.row S.Hasher.row self.entry result) }
    {
        let slot = self.slot3_of(query, &mut Costs::new())?;
        Some(RefMut { map: self, slot })
    }

    /// Returns a guard of the item that has all keys that the queries stand for, or `None`.
    ///
    /// The call compares the keys that `get1_mut` compares, and the other keys of the item found. It allocates no
    /// memory.
    pub fn get_mut_unique<Q1: Query<T::K1>, Q2: Query<T::K2>, Q3: Query<T::K3>>(
        &mut self,
        query1: Q1,
        query2: Q2,
        query3: Q3,
    ) -> Option<RefMut<'_, T, S>>
        ensures found { IsOnly (has_all T.TriHashItem Q1.stands_for Q2.stands_for Q3.stands_for query1 query2 query3)
            (bag self.old)
            (option_and_then ref_item result) }
        ensures unchanged { IfSome result (λ r. ref_map r ≡ self.old) }
        ensures same_map { IfSome result (λ r. ref_lender r ≡ self.entry.ghost_name) }
        ensures* rests_at_none { sem 𝓛
            (rests_if_none T.row S.row T.K1.row T.K2.row T.K3.row S.Hasher.row self.entry result) }
    {
        let slot = self.slot_of_all(query1, query2, query3)?;
        Some(RefMut { map: self, slot })
    }

    /// Returns a guard of the next item of an iteration over the map, or `None` after the last one. The cursor moves on
    /// past that item. Between two steps a caller may read the map, write items and reserve room. After an insert, a
    /// removal, or a call that shrinks the map, the loop may pass items over. The call allocates no memory.
    ///
    /// ```text
    /// let mut at = Cursor::new();
    /// while let Some(mut item) = map.next_from(&mut at) {
    ///     *item.data_mut() = 0;
    /// }
    /// ```
    ///
    /// The checker asks for a measure of this loop: `length (to_come l.map l.at)`, in a file that the guide shows
    /// (`extract`). It asks for none of a loop that begins with `for _ in 0..map.len()`.
    pub fn next_from(&mut self, cursor: &mut Cursor) -> Option<RefMut<'_, T, S>>
        // The guard borrows the next item, and the cursor passes it; or no item is left, and the cursor stays.
        ensures next { IfSome result (λ r. IfSome (ref_item r) (λ x.
            Passes self.old cursor.old x (λ f. ref_map (ref_with r f)) cursor.new)) }
        ensures end { IfNone result (to_come self.old cursor.old ≡ []) }
        ensures stays { IfNone result (cursor.new ≡ cursor.old) }
        // The guard borrows this very map, unchanged so far.
        ensures unchanged { IfSome result (λ r. ref_map r ≡ self.old) }
        ensures same_map { IfSome result (λ r. ref_lender r ≡ self.entry.ghost_name) }
        // If no item is left, the map ends as it was.
        ensures* rests_at_none { sem 𝓛
            (rests_if_none T.row S.row T.K1.row T.K2.row T.K3.row S.Hasher.row self.entry result) }
    {
        let slot = self.slot_from(cursor.next())?;
        cursor.pass(slot);
        Some(RefMut { map: self, slot })
    }

    /// Iterates over the items for writing: each item once, in unspecified order, one at a time. The call allocates no
    /// memory.
    ///
    /// ```text
    /// let mut items = map.iter_mut();
    /// while let Some(data) = items.next_data() {
    ///     *data = 0;
    /// }
    /// ```
    pub fn iter_mut(&mut self) -> IterMut<'_, T, S>
        // The iteration borrows this very map, unchanged so far.
        ensures same_map { result.map.ghost_name ≡ self.entry.ghost_name }
        ensures unchanged { result.map.now ≡ self.old }
        // No item has been passed, and all are left.
        ensures start { done_of result ≡ [] }
        ensures gives { rest_of result ≡ bag self.old }
        ensures counted { IsCounted result }
    {
        let left = self.len();
        IterMut {
            map: self,
            next: 0,
            left,
        }
    }
}
