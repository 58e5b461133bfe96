//! Inserting an item whose key no other has.
ghost use Rattle.std.specs.Prelude.{◌≡◌, ◌<◌, false, length, Some, slice_get, IsOk, IfOk, OnOk, OnErr, IfErr};
ghost use Rattle.std.specs.List.{list_any};
ghost use Rattle.iddqd_order.specs.Row.{position, HasEntry, IsPlace};
ghost use Rattle.iddqd_order.specs.Search.{ComparesWithin, IsSplit};
ghost use Rattle.iddqd_ord.specs.Items.{items, key_comparison, has_key_of, Gains};
ghost use Rattle.iddqd_ord.specs.Inserts.{TellsWhy};
ghost use Rattle.iddqd_ord.specs.Ordered.{IsAscending};

use super::IdOrdMap;
use crate::error::Rejected;
use crate::item::IdOrdItem;
use iddqd_order::Place;
use iddqd_store::Meter;

impl<T: IdOrdItem> IdOrdMap<T> {
    /// Inserts an item at its place if no item of the map has its key. The error has the item, says whether the key is
    /// taken, and does not borrow the map, which is as it was. So `map.try_insert(item)?` works through a
    /// `From<Rejected<T>>` of your own, and `.map_err(|rejected| rejected.item)` hands the item back.
    ///
    /// If the key is taken, the call fails, whatever memory there is. Otherwise it fails only if the map is full and there
    /// is no memory to grow.
    ///
    /// Among fewer than `4 ^ r` items the call compares at most `3 * r + 19` keys. It moves the items behind the new one in
    /// its block, of at most 128. It asks for memory only if that block is full, and for more capacity only if the map is.
    ///
    /// `match map.try_insert(item) { Ok(()) => {}, Err(e) => report(e.taken, e.item) }`
    pub fn try_insert(&mut self, item: T) -> Result<(), Rejected<T>>
        // The result is `Ok` only if no item has the key, and then always if there is spare capacity.
        ensures gains { OnOk result (Gains T.IdOrdItem T.Key.cmp self.old item self.new) }
        ensures free { OnOk result (list_any (has_key_of T.IdOrdItem T.Key.cmp item) (items self.old) ≡ false) }
        ensures granted { list_any (has_key_of T.IdOrdItem T.Key.cmp item) (items self.old) ≡ false
            → length (items self.old) < self.old.capacity → IsOk result }
        // The error has the item and says whether the key is taken. If it is not, the map is full. The map is as it was.
        ensures handed_back { IfErr result (λ e. e.item ≡ item) }
        ensures unchanged { OnErr result (self.new ≡ self.old) }
        ensures reason { IfErr result (λ e. TellsWhy T.IdOrdItem T.Key.cmp self.old item e) }
    {
        self.try_insert_counted(item, &mut Meter::new())
    }

    /// Inserts as `try_insert` does, which calls it, and counts the keys compared.
    #[inline(always)]
    fn try_insert_counted(&mut self, item: T, meter: &mut Meter) -> Result<(), Rejected<T>>
        ensures gains { OnOk result (Gains T.IdOrdItem T.Key.cmp self.old item self.new) }
        ensures free { OnOk result (list_any (has_key_of T.IdOrdItem T.Key.cmp item) (items self.old) ≡ false) }
        ensures granted { list_any (has_key_of T.IdOrdItem T.Key.cmp item) (items self.old) ≡ false
            → length (items self.old) < self.old.capacity → IsOk result }
        ensures handed_back { IfErr result (λ e. e.item ≡ item) }
        ensures unchanged { OnErr result (self.new ≡ self.old) }
        ensures reason { IfErr result (λ e. TellsWhy T.IdOrdItem T.Key.cmp self.old item e) }
        ensures asked { ComparesWithin 3 19 (length (items self.old)) meter.old meter.new }
    {
        match self.place_for(item.key(), meter) {
            Ok(_) => Err(Rejected { item, taken: true }),
            Err(place) => match self.insert_or_refuse(item, place) {
                Ok(_) => Ok(()),
                Err(item) => Err(Rejected { item, taken: false }),
            },
        }
    }

    /// Inserts an item at the place at which a search for its key ended, and returns where it is. If the map is full and there is
    /// no memory to grow, it returns the item. Each insert of an item whose key is free ends here.
    #[inline(always)]
    pub(super) fn insert_or_refuse(&mut self, item: T, place: Place) -> Result<Place, T>
        requires place { IsPlace self.old.blocks place }
        requires gap { IsSplit (key_comparison T.IdOrdItem T.Key.cmp item) (items self.old) (position self.old.blocks place) 0 }
        ensures gains { OnOk result (Gains T.IdOrdItem T.Key.cmp self.old item self.new) }
        ensures entry { IfOk result (HasEntry self.new.blocks) }
        ensures item { IfOk result (λ p. slice_get (items self.new) (position self.new.blocks p) ≡ Some item) }
        ensures ascending { OnOk result (IsAscending T.Key.cmp T.key (items self.new)) }
        ensures free { list_any (has_key_of T.IdOrdItem T.Key.cmp item) (items self.old) ≡ false }
        ensures granted { length (items self.old) < self.old.capacity → IsOk result }
        ensures handed_back { IfErr result (λ x. x ≡ item) }
        ensures full { OnErr result (length (items self.old) ≡ self.old.capacity) }
        ensures unchanged { OnErr result (self.new ≡ self.old) }
    {
        match self.make_room(&item) {
            Ok(()) => Ok(self.insert_into(item, place)),
            Err(_) => Err(item),
        }
    }
}
