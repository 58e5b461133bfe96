//! Guards of the items with the lowest and the highest key.
ghost use Rattle.std.specs.Prelude.{◌≡◌, ◌+◌, ◌-◌, length, slice_get, IfSome};
ghost use Rattle.std.specs.Borrow.{sem};
ghost use Rattle.std.specs.Option.{option_and_then};
ghost use Rattle.iddqd_ord.specs.Items.{items};
ghost use Rattle.iddqd_ord.specs.RefMuts.{ref_index, ref_item, ref_lender, ref_map, rests_if_none};

use super::IdOrdMap;
use crate::item::IdOrdItem;
use crate::ref_mut::RefMut;

impl<T: IdOrdItem> IdOrdMap<T> {
    /// Returns a guard of the item with the lowest key, or `None` if there are no items. The call compares no key, and
    /// allocates no memory.
    ///
    /// ```text
    /// if let Some(mut item) = map.first_mut() {
    ///     *item.data_mut() = data;
    /// }
    /// ```
    pub fn first_mut(&mut self) -> Option<RefMut<'_, T>>
        ensures found { option_and_then ref_item result ≡ slice_get (items self.old) 0 }
        ensures index { IfSome result (λ r. ref_index r ≡ 0) }
        ensures unchanged { IfSome result (λ r. ref_map r ≡ self.old) }
        ensures same_map { IfSome result (λ r. ref_lender r ≡ self.entry.ghost_name) }
        ensures* rests_at_none { sem 𝓛 (rests_if_none T.row T.Key.row self.entry result) }
    {
        let place = self.first_place()?;
        Some(RefMut { map: self, place })
    }

    /// Returns a guard of the item with the highest key, or `None` if there are no items. The call compares no key, and
    /// allocates no memory.
    pub fn last_mut(&mut self) -> Option<RefMut<'_, T>>
        ensures found { option_and_then ref_item result ≡ slice_get (items self.old) (length (items self.old) - 1) }
        ensures index { IfSome result (λ r. ref_index r + 1 ≡ length (items self.old)) }
        ensures unchanged { IfSome result (λ r. ref_map r ≡ self.old) }
        ensures same_map { IfSome result (λ r. ref_lender r ≡ self.entry.ghost_name) }
        ensures* rests_at_none { sem 𝓛 (rests_if_none T.row T.Key.row self.entry result) }
    {
        let place = self.items.last()?;
        Some(RefMut { map: self, place })
    }
}
