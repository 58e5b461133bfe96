//! Reading and writing items by their slots.
ghost use Rattle.std.specs.Prelude.{◌≡◌, [], ◌∷◌, true, false, ℕ, All, nat_eq, Some, None, IsPermutation, IfSome, is_some};
ghost use Rattle.std.specs.Borrow.{sem};
ghost use Rattle.std.specs.Fn.{CalledAt, FnOnceReturnsAt, FnOnceTakesAt, TakesAt};
ghost use Rattle.std.specs.List.{AllByRecursion, IsDistinct};
ghost use Rattle.std.specs.Option.{option_and_then};
ghost use Rattle.iddqd_store.specs.Bag.{IsSound, agrees, swap};
ghost use Rattle.iddqd_store.specs.Bag.Calling.{TakesInTurn};
ghost use Rattle.iddqd_store.specs.Bag.Storing.{Stores};
ghost use Rattle.iddqd_store.specs.Map.{bag};
ghost use Rattle.iddqd_store.specs.Map.Written.{map_with, map_with_if};
ghost use Rattle.iddqd_store.specs.Slots.{get, IsLive};
ghost use Rattle.iddqd_store.specs.Slots.Found.{held_at, items_at};
ghost use Rattle.iddqd_store.specs.Slots.Kept.{KeepsKeys};

use super::super::BiHashMap;
use super::found::each_once;
use crate::item::{BiHashItem, BiHashItemMut, Ranked};
use iddqd_store::{ItemIndex, UpToTwo};
use std::hash::{BuildHasher, Hash};

impl<T: BiHashItem, S: BuildHasher> BiHashMap<T, S> {
    /// Returns the item of a live slot.
    pub(crate) fn item_at(&self, slot: ItemIndex) -> &T
        requires { IsLive self.now.slots slot }
        ensures { get self.now.slots slot ≡ Some result.now }
    {
        self.items.item(slot)
    }

    /// Replaces the item of a live slot by one with equal keys, and returns it.
    pub(crate) fn replace_at(&mut self, slot: ItemIndex, item: T) -> T
        requires live { IsLive self.old.slots slot }
        requires same_keys { (x : T) → get self.old.slots slot ≡ Some x
            → (T.K1.eq (T.key1 x) (T.key1 item) ≡ true) × (T.K2.eq (T.key2 x) (T.key2 item) ≡ true) }
        ensures old { get self.old.slots slot ≡ Some result }
        ensures new { self.new ≡ map_with self.old slot (λ x. item) }
        ensures swaps { IsPermutation (bag self.new) (swap ⟦<T as Ranked>⟧.ranks (bag self.old) result item) }
    {
        self.items.replace(slot, item)
    }
}

/// Writes the data of an item.
fn write_data<T: BiHashItemMut>(item: &mut T, d: T::Data)
where
    T::Data: Drop,
    ensures { item.new ≡ T.put item.old d }
{
    *item.data_mut() = d;
}

impl<T: BiHashItemMut, S: BuildHasher> BiHashMap<T, S> {
    ghost use Rattle.iddqd_bi.specs.Lent.{lends_data, lends_data_if};

    /// Returns the data of the item of a live slot, borrowed for writing.
    pub(crate) fn data_mut_at(&mut self, slot: ItemIndex) -> &mut T::Data
        requires { IsLive self.old.slots slot }
        ensures value { (x : T) → get self.old.slots slot ≡ Some x → result.now ≡ T.data_of x }
        ensures sound { IsSound ⟦<T as Ranked>⟧.ranks (bag self.old) }
        ensures swaps { (x : T) (d : T.Data) → get self.old.slots slot ≡ Some x
            → IsPermutation (bag (map_with self.old slot (λ y. T.put y d)))
            (swap ⟦<T as Ranked>⟧.ranks (bag self.old) x (T.put x d)) }
        ensures* writes_back { sem 𝓛 (lends_data T.row S.row T.K1.row T.K2.row S.Hasher.row
            T.BiHashItem T.K1.Hash T.K2.Hash S.BuildHasher S.Hasher.Hasher
            T.Data.row T.put self.entry slot result) }
    {
        self.items.item_mut(slot).data_mut()
    }

    /// Returns the data of the item of a live slot, borrowed for writing, or `None` if there is no slot.
    pub(crate) fn data_mut_of(&mut self, slot: Option<ItemIndex>) -> Option<&mut T::Data>
        requires { IfSome slot (IsLive self.old.slots) }
        ensures some { is_some result ≡ is_some slot }
        ensures sound { IfSome slot (λ slot. IsSound ⟦<T as Ranked>⟧.ranks (bag self.old)) }
        ensures value { (x : T) → option_and_then (get self.old.slots) slot ≡ Some x
            → IfSome result (λ r. r.now ≡ T.data_of x) }
        ensures swaps { (x : T) (d : T.Data) → option_and_then (get self.old.slots) slot ≡ Some x
            → IsPermutation (bag (map_with_if self.old slot (λ y. T.put y d)))
            (swap ⟦<T as Ranked>⟧.ranks (bag self.old) x (T.put x d)) }
        ensures* writes_back { sem 𝓛 (lends_data_if T.row S.row T.K1.row T.K2.row S.Hasher.row
            T.BiHashItem T.K1.Hash T.K2.Hash S.BuildHasher S.Hasher.Hasher
            T.Data.row T.put self.entry slot result) }
    {
        match slot {
            Some(slot) => Some(self.data_mut_at(slot)),
            None => None,
        }
    }

    /// Calls a closure with the item of a slot, and stores what it returns as the item's data.
    pub(crate) fn store_at<F: FnMut(&T) -> T::Data>(&mut self, slot: ItemIndex, f: &mut F)
    where
        T::Data: Drop,
        requires live { IsLive self.old.slots slot }
        requires callable { (x : T) → get self.old.slots slot ≡ Some x → TakesAt F.FnMut f.old x }
        ensures stored { (x : T) × (d : T.Data) × (get self.old.slots slot ≡ Some x)
            × (CalledAt F.FnMut) f.old x d f.new × (self.new ≡ map_with self.old slot (λ y. T.put y d))
            × IsPermutation (bag self.new) (swap ⟦<T as Ranked>⟧.ranks (bag self.old) x (T.put x d)) }
    {
        let item = self.items.item_mut(slot);
        let d = f(&*item);
        write_data(item, d);
    }

    /// Calls a closure with the item of a slot. If it returns data, stores it as the item's data, and returns `true`;
    /// otherwise the item stays as it is.
    pub(crate) fn store_some_at<F: FnMut(&T) -> Option<T::Data>>(
        &mut self,
        slot: ItemIndex,
        f: &mut F,
    ) -> bool
    where
        T::Data: Drop,
        requires live { IsLive self.old.slots slot }
        requires callable { (x : T) → get self.old.slots slot ≡ Some x → TakesAt F.FnMut f.old x }
        ensures stored { result ≡ true → (x : T) × (d : T.Data) × (get self.old.slots slot ≡ Some x)
            × (CalledAt F.FnMut) f.old x (Some d) f.new × (self.new ≡ map_with self.old slot (λ y. T.put y d)) }
        ensures unchanged { result ≡ false → (x : T) × (get self.old.slots slot ≡ Some x)
            × (CalledAt F.FnMut) f.old x None f.new × (self.new ≡ self.old) }
    {
        let item = self.items.item_mut(slot);
        match f(&*item) {
            Some(d) => write_data(item, d),
            None => return false,
        }
        true
    }

    /// Calls a closure with the item of a slot, and stores what it returns as the item's data. The closure is called
    /// only once.
    pub(crate) fn store_once<F: FnOnce(&T) -> T::Data>(&mut self, slot: ItemIndex, f: F)
    where
        T::Data: Drop,
        requires live { IsLive self.old.slots slot }
        requires callable { (x : T) → get self.old.slots slot ≡ Some x → FnOnceTakesAt F.FnOnce f x }
        ensures stored { (x : T) × (d : T.Data) × (get self.old.slots slot ≡ Some x)
            × FnOnceReturnsAt F.FnOnce f x d × (self.new ≡ map_with self.old slot (λ y. T.put y d))
            × IsPermutation (bag self.new) (swap ⟦<T as Ranked>⟧.ranks (bag self.old) x (T.put x d)) }
    {
        let d = f(self.item_at(slot));
        *self.data_mut_at(slot) = d;
    }

    /// Calls a closure with the item of each of these slots, in their order, and stores what it returns as the item's
    /// data.
    fn store_all<F: FnMut(&T) -> T::Data>(&mut self, found: &UpToTwo<ItemIndex>, mut f: F)
    where
        T::Data: Drop,
        requires live { All (IsLive self.old.slots) found.now }
        requires apart { IsDistinct nat_eq found.now }
        requires callable { TakesInTurn F.FnMut f (items_at self.old.slots found.now) }
        ensures stores { Stores (CalledAt F.FnMut) T.put ⟦<T as Ranked>⟧.ranks f
            (items_at self.old.slots found.now) (bag self.old) (bag self.new) }
        ensures keeps_keys { KeepsKeys (agrees ⟦<T as Ranked>⟧.ranks) self.old.slots self.new.slots }
        ensures capacity { self.new.capacity ≡ self.old.capacity }
        ensures builder { self.new.builder ≡ self.old.builder }
        ensures live { (slot : ℕ) → IsLive self.old.slots slot → IsLive self.new.slots slot }
    {
        for slot in found.iter() {
            self.store_at(*slot, &mut f);
        }
    }

    /// Calls a closure once with each item whose slot a search found, and stores what it returns as the item's data.
    pub(crate) fn store_found<F: FnMut(&T) -> T::Data>(
        &mut self,
        slot1: Option<ItemIndex>,
        slot2: Option<ItemIndex>,
        f: F,
    )
    where
        T::Data: Drop,
        requires live { AllByRecursion (λ slot. IfSome slot (IsLive self.old.slots)) (slot1 ∷ slot2 ∷ []) }
        requires callable { TakesInTurn F.FnMut f (held_at self.old.slots (slot1 ∷ slot2 ∷ [])) }
        ensures stores { Stores (CalledAt F.FnMut) T.put ⟦<T as Ranked>⟧.ranks f
            (held_at self.old.slots (slot1 ∷ slot2 ∷ [])) (bag self.old) (bag self.new) }
        ensures keeps_keys { KeepsKeys (agrees ⟦<T as Ranked>⟧.ranks) self.old.slots self.new.slots }
        ensures sound { IsSound ⟦<T as Ranked>⟧.ranks (bag self.new) }
        ensures capacity { self.new.capacity ≡ self.old.capacity }
        ensures builder { self.new.builder ≡ self.old.builder }
        ensures still_live { (slot : ℕ) → IsLive self.old.slots slot → IsLive self.new.slots slot }
    {
        self.store_all(&each_once(slot1, slot2), f);
        // This borrow gives the prover the map's invariant after the writes, for the clause `sound`.
        let _ = &self.items;
    }
}
