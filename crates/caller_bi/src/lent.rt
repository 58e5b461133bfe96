//! What a caller can prove of a map after writing what an entry borrows for one key.
ghost use Rattle.std.specs.Prelude.{◌≡◌, ◌≢◌, ◌<◌, [], ◌∷◌, length, Some, None, IsOk, IsErrOf, IsPermutation, OnOk, OnErr};
ghost use Rattle.iddqd_bi.specs.Bag.{IsOnly, first_mismatch, listing, swap};
ghost use Rattle.iddqd_bi.specs.Map.{bag};
ghost use Rattle.iddqd_bi.specs.Keys.{has1};
ghost use Rattle.iddqd_bi.specs.Mismatch.{HandsBack};

use crate::entries::NotEntered;
use iddqd_bi::{BiHashItem, BiHashItemMut, BiHashMap, Entry, EntryError, Ranked};
use std::hash::{BuildHasher, Hash};

/// Writes the data of the item that has the first of two keys, if there is one. The entry borrows the data.
pub fn write_data1<'a, T: BiHashItemMut, S: BuildHasher>(
    map: &'a mut BiHashMap<T, S>,
    key1: &'a T::K1,
    key2: &'a T::K2,
    d: T::Data,
)
where
    T::Data: Drop,
    ensures present { (x : T) → IsOnly (has1 T.BiHashItem T.K1.eq key1.now) (bag map.old) (Some x)
        → IsPermutation (bag map.new) (swap ⟦<T as Ranked>⟧.ranks (bag map.old) x (T.put x d)) }
    ensures absent { IsOnly (has1 T.BiHashItem T.K1.eq key1.now) (bag map.old) None → map.new ≡ map.old }
{
    if let Entry::Occupied(mut found) = map.entry(key1, key2) {
        if let Some(data) = found.data1_mut() {
            *data = d;
        }
    }
}

/// Writes the data of the item through a guard of it, which lasts for as long as the map is borrowed.
pub fn write_by_key1<'a, T: BiHashItemMut, S: BuildHasher>(
    map: &'a mut BiHashMap<T, S>,
    key1: &'a T::K1,
    key2: &'a T::K2,
    d: T::Data,
)
where
    T::Data: Drop,
    ensures present { (x : T) → IsOnly (has1 T.BiHashItem T.K1.eq key1.now) (bag map.old) (Some x)
        → IsPermutation (bag map.new) (swap ⟦<T as Ranked>⟧.ranks (bag map.old) x (T.put x d)) }
    ensures absent { IsOnly (has1 T.BiHashItem T.K1.eq key1.now) (bag map.old) None → map.new ≡ map.old }
{
    if let Entry::Occupied(found) = map.entry(key1, key2) {
        if let Some(mut item) = found.into_mut().into_by_key1() {
            *item.data_mut() = d;
        }
    }
}

/// Writes the data of the item through the data that the held items borrow. They stay held.
pub fn write_held1<'a, T: BiHashItemMut, S: BuildHasher>(
    map: &'a mut BiHashMap<T, S>,
    key1: &'a T::K1,
    key2: &'a T::K2,
    d: T::Data,
)
where
    T::Data: Drop,
    ensures present { (x : T) → IsOnly (has1 T.BiHashItem T.K1.eq key1.now) (bag map.old) (Some x)
        → IsPermutation (bag map.new) (swap ⟦<T as Ranked>⟧.ranks (bag map.old) x (T.put x d)) }
    ensures absent { IsOnly (has1 T.BiHashItem T.K1.eq key1.now) (bag map.old) None → map.new ≡ map.old }
{
    if let Entry::Occupied(found) = map.entry(key1, key2) {
        let mut held = found.into_mut();
        if let Some(written) = held.data1_mut() {
            *written = d;
        }
    }
}

/// Inserts an item through a vacant entry, and holds it. It is returned if an item has one of the keys, or if the
/// insert fails.
pub fn insert_held<'a, T: BiHashItem, S: BuildHasher>(
    map: &'a mut BiHashMap<T, S>,
    key1: &'a T::K1,
    key2: &'a T::K2,
    item: T,
) -> Result<(), NotEntered<T>>
    ensures gains { OnOk result (IsPermutation (bag map.new) (item ∷ bag map.old)) }
    ensures granted { listing (⟦<T as Ranked>⟧.key_tests key1.now key2.now) (bag map.old) ≡ []
        → first_mismatch (⟦<T as Ranked>⟧.key_tests key1.now key2.now) item ≡ None
        → length (bag map.old) < map.old.capacity → IsOk result }
    ensures unchanged { OnErr result (map.new ≡ map.old) }
    ensures handed_back { (x : T) → IsErrOf result (NotEntered.Occupied x) → x ≡ item }
    ensures occupied { (x : T) → IsErrOf result (NotEntered.Occupied x)
        → listing (⟦<T as Ranked>⟧.key_tests key1.now key2.now) (bag map.old) ≢ [] }
    ensures vacant { (e : EntryError T) → IsErrOf result (NotEntered.Refused e)
        → listing (⟦<T as Ranked>⟧.key_tests key1.now key2.now) (bag map.old) ≡ [] }
    ensures refused { (e : EntryError T) → IsErrOf result (NotEntered.Refused e)
        → HandsBack ⟦<T as Ranked>⟧.ranks (⟦<T as Ranked>⟧.key_tests key1.now key2.now) map.old item e }
{
    match map.entry(key1, key2) {
        Entry::Vacant(v) => match v.insert_mut(item) {
            Ok(_held) => return Ok(()),
            Err(e) => return Err(NotEntered::Refused(e)),
        },
        Entry::Occupied(_o) => return Err(NotEntered::Occupied(item)),
    }
}
