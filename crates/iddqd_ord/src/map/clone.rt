//! Cloning a map.
ghost use Rattle.std.specs.Prelude.{◌≡◌, ◌≤◌, length, Contains, IfOk};
ghost use Rattle.std.specs.List.{AllZip};
ghost use Rattle.std.specs.declared.cmp.Ordering.TheVariants.{Equal};
ghost use Rattle.iddqd_ord.specs.Items.{items};

use super::IdOrdMap;
use crate::item::IdOrdItem;
use iddqd_store::TryReserveError;
use std::marker::PhantomData;

impl<T: IdOrdItem + Clone> IdOrdMap<T> {
    /// Returns a map with a clone of each item. The capacity of the clone is its number of items. The call fails if an
    /// allocation fails, or if a clone of an item does. The items that were cloned are dropped then.
    ///
    /// A clone of an item must have an equal key. The call compares no key. It makes one allocation for each block of
    /// items, and two more.
    pub fn clone(&self) -> Result<Self, TryReserveError>
        requires same_key { (x c : T) → Contains (items self.now) x → T.is_clone x c
            → T.Key.cmp (T.key c) (T.key x) ≡ Equal }
        ensures items { IfOk result (λ copy. AllZip T.is_clone (items self.now) (items copy)) }
        ensures capacity { IfOk result (λ copy. copy.capacity ≡ length (items self.now)) }
    {
        Ok(IdOrdMap {
            items: self.items.clone()?,
            key_types: PhantomData,
        })
    }
}
