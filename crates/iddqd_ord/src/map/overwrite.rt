//! Inserting an item in place of the one that has its key.
ghost use Rattle.std.specs.Prelude.{◌≡◌, ◌≢◌, ◌<◌, [], length, IsOk, IfOk, IfErr, OnOk, OnErr};
ghost use Rattle.iddqd_store.specs.Bag.{IsOnly};
ghost use Rattle.iddqd_ord.specs.Items.{items, has_key_of, IsFullFor};
ghost use Rattle.iddqd_ord.specs.Inserts.{Overwrites};
ghost use Rattle.iddqd_order.specs.Search.{ComparesWithin};

use super::IdOrdMap;
use crate::item::IdOrdItem;
use iddqd_store::{MemoryRefused, Meter};

impl<T: IdOrdItem> IdOrdMap<T> {
    /// Inserts an item, and removes the one that has its key, which the call returns.
    ///
    /// If an item has its key, the call allocates no memory and the capacity stays. Otherwise it fails only if the map is
    /// full and there is no memory to grow. The error then has the item, and the map is as it was.
    ///
    /// Among fewer than `4 ^ r` items the call compares at most `3 * r + 19` keys.
    pub fn insert_overwrite(&mut self, item: T) -> Result<Option<T>, MemoryRefused<T>>
        // The item that had the key is returned, and the new one is in its place.
        ensures displaced { IfOk result (IsOnly (has_key_of T.IdOrdItem T.Key.cmp item) (items self.old)) }
        ensures overwrites { OnOk result (Overwrites T.IdOrdItem T.Key.cmp self.old item self.new) }
        // With spare capacity the call never fails.
        ensures granted { length (items self.old) < self.old.capacity → IsOk result }
        // The error has the item, and the map is as it was. This happens only in a full map in which the key is free.
        ensures handed_back { IfErr result (λ e. e.value ≡ item) }
        ensures unchanged { OnErr result (self.new ≡ self.old) }
        ensures reason { OnErr result (IsFullFor T.IdOrdItem T.Key.cmp self.old item) }
    {
        self.insert_overwrite_counted(item, &mut Meter::new())
    }

    /// Inserts as `insert_overwrite` does, which calls it, and counts the keys compared.
    #[inline(always)]
    pub(super) fn insert_overwrite_counted(
        &mut self,
        item: T,
        meter: &mut Meter,
    ) -> Result<Option<T>, MemoryRefused<T>>
        ensures displaced { IfOk result (IsOnly (has_key_of T.IdOrdItem T.Key.cmp item) (items self.old)) }
        ensures overwrites { OnOk result (Overwrites T.IdOrdItem T.Key.cmp self.old item self.new) }
        ensures granted { length (items self.old) < self.old.capacity → IsOk result }
        ensures handed_back { IfErr result (λ e. e.value ≡ item) }
        ensures unchanged { OnErr result (self.new ≡ self.old) }
        ensures reason { OnErr result (IsFullFor T.IdOrdItem T.Key.cmp self.old item) }
        ensures asked { ComparesWithin 3 19 (length (items self.old)) meter.old meter.new }
    {
        match self.place_for(item.key(), meter) {
            Ok(place) => Ok(Some(self.replace_in(place, item))),
            Err(place) => match self.insert_or_refuse(item, place) {
                Ok(_) => Ok(None),
                Err(value) => Err(MemoryRefused { value }),
            },
        }
    }
}
