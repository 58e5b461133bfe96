//! Borrowing items for writing.
ghost use Rattle.std.specs.Prelude.{◌≡◌, IfSome, slice_set};
ghost use Rattle.std.specs.Borrow.{sem};
ghost use Rattle.std.specs.Option.{option_and_then};
ghost use Rattle.iddqd_store.specs.Bag.{IsOnly};
ghost use Rattle.iddqd_ord.specs.Items.{items, has};
ghost use Rattle.iddqd_ord.specs.Lent.{in_place};
ghost use Rattle.iddqd_ord.specs.RefMuts.{ref_index, ref_item, ref_lender, ref_map, rests_if_none};

use super::IdOrdMap;
use crate::item::IdOrdItem;
use crate::query::OrdQuery;
use crate::ref_mut::RefMut;
use iddqd_store::Meter;

impl<T: IdOrdItem> IdOrdMap<T> {
    /// Returns a guard of the item with the key that the query seeks, or `None`. Through the guard the item's data can be
    /// written, for example by `*guard.data_mut() = data`, and the item can be replaced by one with an equal key.
    ///
    /// Among fewer than `4 ^ r` items the call compares at most `3 * r + 19` keys. It allocates no memory.
    ///
    /// ```text
    /// if let Some(mut item) = map.get_mut(&key) {
    ///     *item.data_mut() = data;
    /// }
    /// ```
    pub fn get_mut<Q: OrdQuery<T::Key>>(&mut self, query: Q) -> Option<RefMut<'_, T>>
        ensures found { IsOnly (has T.IdOrdItem Q.compare query) (items self.old) (option_and_then ref_item result) }
        // Another item at the guard's index stands in the place of the item that was found.
        ensures index { (y : T) → IfSome result (λ r. slice_set (items self.old) (ref_index r) y
            ≡ in_place (has T.IdOrdItem Q.compare query) y (items self.old)) }
        ensures unchanged { IfSome result (λ r. ref_map r ≡ self.old) }
        ensures same_map { IfSome result (λ r. ref_lender r ≡ self.entry.ghost_name) }
        ensures* rests_at_none { sem 𝓛 (rests_if_none T.row T.Key.row self.entry result) }
    {
        let place = self.find_place(query, &mut Meter::new())?;
        Some(RefMut { map: self, place })
    }
}
