//! Replacing an item by another, whatever their keys are.
ghost use Rattle.std.specs.Prelude.{◌≡◌, ◌+◌, ◌*◌, ◌^◌, ◌<◌, ◌≤◌, ℕ, Some, length, IfOk, IfErr, OnOk, OnErr};
ghost use Rattle.iddqd_store.specs.Bag.{IsOnly};
ghost use Rattle.iddqd_ord.specs.Items.{items, has, has_key_of};
ghost use Rattle.iddqd_ord.specs.Rekeyed.{PutsAmong, TellsWhyNot, refused_item, others};

use super::IdOrdMap;
use crate::error::NotReplaced;
use crate::item::IdOrdItem;
use crate::query::OrdQuery;
use iddqd_store::Meter;
use std::cmp::Ordering;

impl<T: IdOrdItem> IdOrdMap<T> {
    /// Puts an item in the place of the one with the key that the query seeks, and returns the latter. The new item may
    /// have another key. The error has the new item, and the map is as it was: `Absent` if no item has the key asked for,
    /// and `Duplicate` if some other item has the key of the new one.
    ///
    /// Among fewer than `4 ^ r` items the call compares at most `3 * (3 * r + 19) + 1` keys. It searches for the query, and
    /// compares the keys of both items. If they are equal, the new item takes the place of the old one. Otherwise it searches for
    /// the new key, and where that is free, for its place once the old item is gone: if the last insert went to the end, it first
    /// looks at the end each time. It allocates no memory, and the capacity
    /// stays.
    ///
    /// `match map.rekey(&key, item) { Ok(old) => drop(old), Err(e) => keep_for_later(e.into_item()) }`
    pub fn rekey<Q: OrdQuery<T::Key>>(&mut self, query: Q, item: T) -> Result<T, NotReplaced<T>>
    where
        T: Drop,
        // The item with that key is returned, and the new one is among the others. None of these has its key, or is lost.
        ensures found { IfOk result (λ x. IsOnly (has T.IdOrdItem Q.compare query) (items self.old) (Some x)) }
        ensures puts { OnOk result (PutsAmong T.IdOrdItem T.Key.cmp
            (others (has T.IdOrdItem Q.compare query) (items self.old)) item (items self.new)) }
        ensures capacity { self.new.capacity ≡ self.old.capacity }
        // The error has the new item, and says which of the two cases it is. The map is as it was.
        ensures handed_back { IfErr result (λ e. refused_item e ≡ item) }
        ensures unchanged { OnErr result (self.new ≡ self.old) }
        ensures reason { IfErr result (TellsWhyNot (has T.IdOrdItem Q.compare query)
            (has_key_of T.IdOrdItem T.Key.cmp item) (items self.old)) }
    {
        self.rekey_counted(query, item, &mut Meter::new())
    }

    /// Replaces as `rekey` does, which calls it, and counts the keys compared.
    #[inline(always)]
    fn rekey_counted<Q: OrdQuery<T::Key>>(
        &mut self,
        query: Q,
        item: T,
        meter: &mut Meter,
    ) -> Result<T, NotReplaced<T>>
    where
        T: Drop,
        ensures found { IfOk result (λ x. IsOnly (has T.IdOrdItem Q.compare query) (items self.old) (Some x)) }
        ensures puts { OnOk result (PutsAmong T.IdOrdItem T.Key.cmp
            (others (has T.IdOrdItem Q.compare query) (items self.old)) item (items self.new)) }
        ensures capacity { self.new.capacity ≡ self.old.capacity }
        ensures handed_back { IfErr result (λ e. refused_item e ≡ item) }
        ensures unchanged { OnErr result (self.new ≡ self.old) }
        ensures reason { IfErr result (TellsWhyNot (has T.IdOrdItem Q.compare query)
            (has_key_of T.IdOrdItem T.Key.cmp item) (items self.old)) }
        ensures asked { (r : ℕ) → length (items self.old) < 4 ^ r → meter.new ≤ meter.old + (3 * (3 * r + 19) + 1) }
    {
        let Ok(place) = self.place_of(query, meter) else {
            return Err(NotReplaced::Absent(item));
        };
        meter.tick();
        match self.item_in(place).key().cmp(item.key()) {
            Ordering::Equal => Ok(self.replace_in(place, item)),
            _ => match self.place_for(item.key(), meter) {
                Ok(_) => Err(NotReplaced::Duplicate(item)),
                Err(_) => {
                    // The map has room for the new item once the old one is gone.
                    let (old, _) = self.remove_in(place);
                    let Err(place) = self.place_for(item.key(), meter) else {
                        unreachable!()
                    };
                    self.insert_within(item, place);
                    Ok(old)
                }
            },
        }
    }
}
