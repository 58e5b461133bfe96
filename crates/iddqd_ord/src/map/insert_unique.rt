//! Inserting an item with an error that borrows the map.
ghost use Rattle.std.specs.Prelude.{◌≡◌, ◌<◌, ◌⊎◌, true, false, length, IsOk, OnOk, OnErr, IfErr};
ghost use Rattle.std.specs.Borrow.{sem};
ghost use Rattle.std.specs.List.{list_any};
ghost use Rattle.iddqd_ord.specs.Items.{items, has_key_of, Gains, IsFullFor};

use super::IdOrdMap;
use crate::error::InsertError;
use crate::item::IdOrdItem;
use iddqd_store::Meter;

impl<T: IdOrdItem> IdOrdMap<T> {
    ghost use Rattle.iddqd_ord.specs.InsertErrors.{HandsBackAndHolds, ends_as};

    /// Inserts an item at its place if no item of the map has its key.
    ///
    /// If the key is taken, the call fails, whatever memory there is, and the error has the item that has the key.
    /// Otherwise the call fails only if the map is full and there is no memory to grow. Each error has the item, and
    /// borrows the map, which is as it was.
    ///
    /// Among fewer than `4 ^ r` items the call compares at most `3 * r + 19` keys. It asks for
    /// memory only if the block that the item goes to is full.
    ///
    /// ```text
    /// match steps.insert_unique(step) {
    ///     Ok(()) => {}
    ///     Err(refused) => println!(rt; "taken: {:?}", refused.duplicate())?,
    /// }
    /// ```
    pub fn insert_unique(&mut self, item: T) -> Result<(), InsertError<'_, T>>
        // The result is `Ok` only if no item has the key, and then always if there is spare capacity.
        ensures free { OnOk result (list_any (has_key_of T.IdOrdItem T.Key.cmp item) (items self.old) ≡ false) }
        ensures granted { list_any (has_key_of T.IdOrdItem T.Key.cmp item) (items self.old) ≡ false
            → length (items self.old) < self.old.capacity → IsOk result }
        // The error has the item and borrows the map as it was. It occurs only if the key is taken or the map is full.
        ensures handed_back { IfErr result (λ e. HandsBackAndHolds self.entry item e) }
        ensures reason { OnErr result ((list_any (has_key_of T.IdOrdItem T.Key.cmp item) (items self.old) ≡ true)
            ⊎ IsFullFor T.IdOrdItem T.Key.cmp self.old item) }
        // Once the error is gone, the map has the item after `Ok`, and otherwise it is as it was.
        ensures* ends { sem 𝓛 (ends_as T.row T.Key.row self.entry result
            (λ new. Gains T.IdOrdItem T.Key.cmp self.old item new)) }
    {
        match self.place_for(item.key(), &mut Meter::new()) {
            Ok(place) => Err(InsertError {
                map: self,
                item,
                found: Some(place),
            }),
            Err(place) => match self.insert_or_refuse(item, place) {
                Ok(_) => Ok(()),
                Err(item) => Err(InsertError {
                    map: self,
                    item,
                    found: None,
                }),
            },
        }
    }
}
