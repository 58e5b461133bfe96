//! Reading and writing items by their slots.
//!
//! Made by tests/widths from crates/iddqd_bi/src/map/slots/write.rt: change that file.
ghost use Rattle.std.specs.Prelude.{◌≡◌, true, false, Some, None, IsPermutation};
ghost use Rattle.std.specs.Borrow.{sem};
ghost use Rattle.std.specs.Fn.{CalledAt, FnOnceReturnsAt, FnOnceTakesAt, TakesAt};
ghost use Rattle.iddqd_store.specs.Bag.{IsSound, swap};
ghost use Rattle.iddqd_store.specs.Map.{bag};
ghost use Rattle.iddqd_store.specs.Map.Written.{map_with};
ghost use Rattle.iddqd_store.specs.Slots.{get, IsLive};

use super::super::IdHashMap;
use crate::item::{IdHashItem, IdHashItemMut, Ranked};
use iddqd_store::ItemIndex;
use std::hash::{BuildHasher, Hash};

impl<T: IdHashItem, S: BuildHasher> IdHashMap<T, S> {
    /// Returns the item of a live slot.
    pub(crate) fn item_at(&self, slot: ItemIndex) -> &T
        requires { IsLive self.now.slots slot }
        ensures { get self.now.slots slot ≡ Some result.now }
    {
        self.items.item(slot)
    }

    /// Replaces the item of a live slot by one with equal keys, and returns it.
    pub(crate) fn replace_at(&mut self, slot: ItemIndex, item: T) -> T
        requires live { IsLive self.old.slots slot }
        requires same_keys { (x : T) → get self.old.slots slot ≡ Some x
            → (T.Key.eq (T.key x) (T.key item) ≡ true) }
        ensures old { get self.old.slots slot ≡ Some result }
        ensures new { self.new ≡ map_with self.old slot (λ x. item) }
        ensures swaps { IsPermutation (bag self.new) (swap ⟦<T as Ranked>⟧.ranks (bag self.old) result item) }
    {
        self.items.replace(slot, item)
    }
}

/// Writes the data of an item.
fn write_data<T: IdHashItemMut>(item: &mut T, d: T::Data)
where
    T::Data: Drop,
    ensures { item.new ≡ T.put item.old d }
{
    *item.data_mut() = d;
}

impl<T: IdHashItemMut, S: BuildHasher> IdHashMap<T, S> {
    ghost use Rattle.iddqd_id.specs.Lent.{lends_data};

    /// Returns the data of the item of a live slot, borrowed for writing.
    pub(crate) fn data_mut_at(&mut self, slot: ItemIndex) -> &mut T::Data
        requires { IsLive self.old.slots slot }
        ensures value { (x : T) → get self.old.slots slot ≡ Some x → result.now ≡ T.data_of x }
        ensures sound { IsSound ⟦<T as Ranked>⟧.ranks (bag self.old) }
        ensures swaps { (x : T) (d : T.Data) → get self.old.slots slot ≡ Some x
            → IsPermutation (bag (map_with self.old slot (λ y. T.put y d)))
            (swap ⟦<T as Ranked>⟧.ranks (bag self.old) x (T.put x d)) }
        ensures* writes_back { sem 𝓛 (lends_data T.row S.row T.Key.row S.Hasher.row
            T.IdHashItem T.Key.Hash S.BuildHasher S.Hasher.Hasher
            T.Data.row T.put self.entry slot result) }
    {
        self.items.item_mut(slot).data_mut()
    }

    /// Calls a closure with the item of a slot, and stores what it returns as the item's data.
    pub(crate) fn store_at<F: FnMut(&T) -> T::Data>(&mut self, slot: ItemIndex, f: &mut F)
    where
        T::Data: Drop,
        requires live { IsLive self.old.slots slot }
        requires callable { (x : T) → get self.old.slots slot ≡ Some x → TakesAt F.FnMut f.old x }
        ensures stored { (x : T) × (d : T.Data) × (get self.old.slots slot ≡ Some x)
            × (CalledAt F.FnMut) f.old x d f.new × (self.new ≡ map_with self.old slot (λ y. T.put y d))
            × IsPermutation (bag self.new) (swap ⟦<T as Ranked>⟧.ranks (bag self.old) x (T.put x d)) }
    {
        let item = self.items.item_mut(slot);
        let d = f(&*item);
        write_data(item, d);
    }

    /// Calls a closure with the item of a slot. If it returns data, stores it as the item's data, and returns `true`;
    /// otherwise the item stays as it is.
    pub(crate) fn store_some_at<F: FnMut(&T) -> Option<T::Data>>(
        &mut self,
        slot: ItemIndex,
        f: &mut F,
    ) -> bool
    where
        T::Data: Drop,
        requires live { IsLive self.old.slots slot }
        requires callable { (x : T) → get self.old.slots slot ≡ Some x → TakesAt F.FnMut f.old x }
        ensures stored { result ≡ true → (x : T) × (d : T.Data) × (get self.old.slots slot ≡ Some x)
            × (CalledAt F.FnMut) f.old x (Some d) f.new × (self.new ≡ map_with self.old slot (λ y. T.put y d)) }
        ensures unchanged { result ≡ false → (x : T) × (get self.old.slots slot ≡ Some x)
            × (CalledAt F.FnMut) f.old x None f.new × (self.new ≡ self.old) }
    {
        let item = self.items.item_mut(slot);
        match f(&*item) {
            Some(d) => write_data(item, d),
            None => return false,
        }
        true
    }

    /// Calls a closure with the item of a slot, and stores what it returns as the item's data. The closure is called
    /// only once.
    pub(crate) fn store_once<F: FnOnce(&T) -> T::Data>(&mut self, slot: ItemIndex, f: F)
    where
        T::Data: Drop,
        requires live { IsLive self.old.slots slot }
        requires callable { (x : T) → get self.old.slots slot ≡ Some x → FnOnceTakesAt F.FnOnce f x }
        ensures stored { (x : T) × (d : T.Data) × (get self.old.slots slot ≡ Some x)
            × FnOnceReturnsAt F.FnOnce f x d × (self.new ≡ map_with self.old slot (λ y. T.put y d))
            × IsPermutation (bag self.new) (swap ⟦<T as Ranked>⟧.ranks (bag self.old) x (T.put x d)) }
    {
        let d = f(self.item_at(slot));
        *self.data_mut_at(slot) = d;
    }
}
