//! What a caller can prove of a map after the calls of an entry.
ghost use Rattle.std.specs.Prelude.{◌≡◌, ◌≢◌, ◌<◌, [], ◌∷◌, ◌++◌, true, length, List, None, IsOk, IsErrOf, IsPermutation, OnOk, OnErr, IfErr};
ghost use Rattle.std.specs.Bool.{OnTrue, OnFalse};
ghost use Rattle.std.specs.Fn.{CalledAt};
ghost use Rattle.iddqd_bi.specs.Bag.{first_mismatch, entry, listing, with_item};
ghost use Rattle.iddqd_bi.specs.Calling.{TakesInTurn};
ghost use Rattle.iddqd_bi.specs.Storing.{Stores};
ghost use Rattle.iddqd_bi.specs.Map.{bag};
ghost use Rattle.iddqd_bi.specs.Mismatch.{HandsBack};
ghost use Rattle.iddqd_bi.specs.Callers.{InsertsOrWrites, WritesEntry};

use iddqd_bi::{BiHashItem, BiHashItemMut, BiHashMap, Entry, EntryError, Ranked, UpToTwo};
use std::hash::{BuildHasher, Hash};

/// Why an item was not inserted through an entry, with the item.
#[derive(Drop)]
pub enum NotEntered<T> {
    /// An item of the map has one of the keys.
    Occupied(T),
    /// No item has one of the keys, but the insert of the vacant entry failed.
    Refused(EntryError<T>),
}

/// Inserts an item through an entry. It is returned if an item has one of the keys, or if the insert fails.
pub fn insert_through<'a, T: BiHashItem, S: BuildHasher>(
    map: &'a mut BiHashMap<T, S>,
    key1: &'a T::K1,
    key2: &'a T::K2,
    item: T,
) -> Result<(), NotEntered<T>>
    ensures gains { OnOk result (IsPermutation (bag map.new) (item ∷ bag map.old)) }
    ensures granted { listing (⟦<T as Ranked>⟧.key_tests key1.now key2.now) (bag map.old) ≡ []
        → first_mismatch (⟦<T as Ranked>⟧.key_tests key1.now key2.now) item ≡ None
        → length (bag map.old) < map.old.capacity → IsOk result }
    ensures unchanged { OnErr result (map.new ≡ map.old) }
    ensures handed_back { (x : T) → IsErrOf result (NotEntered.Occupied x) → x ≡ item }
    ensures occupied { (x : T) → IsErrOf result (NotEntered.Occupied x)
        → listing (⟦<T as Ranked>⟧.key_tests key1.now key2.now) (bag map.old) ≢ [] }
    ensures vacant { (e : EntryError T) → IsErrOf result (NotEntered.Refused e)
        → listing (⟦<T as Ranked>⟧.key_tests key1.now key2.now) (bag map.old) ≡ [] }
    ensures refused { (e : EntryError T) → IsErrOf result (NotEntered.Refused e)
        → HandsBack ⟦<T as Ranked>⟧.ranks (⟦<T as Ranked>⟧.key_tests key1.now key2.now) map.old item e }
{
    let entry = map.entry(key1, key2);
    match entry {
        Entry::Vacant(v) => match v.insert(item) {
            Ok(_r) => return Ok(()),
            Err(e) => return Err(NotEntered::Refused(e)),
        },
        Entry::Occupied(_o) => return Err(NotEntered::Occupied(item)),
    }
}

/// Inserts an item in place of those that have one of two keys. Returns whether it was inserted: it is, if there are
/// such items and it has both keys.
pub fn overwrite_through<'a, T: BiHashItem + Drop, S: BuildHasher>(
    map: &'a mut BiHashMap<T, S>,
    key1: &'a T::K1,
    key2: &'a T::K2,
    item: T,
) -> bool
    ensures went_in { OnTrue result (IsPermutation (bag map.new)
        (with_item ⟦<T as Ranked>⟧.ranks (bag map.old) item)) }
    ensures granted { listing (⟦<T as Ranked>⟧.key_tests key1.now key2.now) (bag map.old) ≢ []
        → first_mismatch (⟦<T as Ranked>⟧.key_tests key1.now key2.now) item ≡ None → result ≡ true }
    ensures unchanged { OnFalse result (map.new ≡ map.old) }
{
    match map.entry(key1, key2) {
        Entry::Vacant(_v) => return false,
        Entry::Occupied(mut o) => match o.insert(item) {
            Ok(_gone) => return true,
            Err(_e) => return false,
        },
    }
}

/// Removes the items that have one of two keys, and returns whether there were any.
pub fn remove_through<'a, T: BiHashItem + Drop, S: BuildHasher>(
    map: &'a mut BiHashMap<T, S>,
    key1: &'a T::K1,
    key2: &'a T::K2,
) -> bool
    ensures taken { OnTrue result (IsPermutation (bag map.old)
        (listing (⟦<T as Ranked>⟧.key_tests key1.now key2.now) (bag map.old) ++ bag map.new)) }
    ensures none { OnFalse result (map.new ≡ map.old) }
    ensures reason { OnFalse result
        (listing (⟦<T as Ranked>⟧.key_tests key1.now key2.now) (bag map.old) ≡ []) }
{
    match map.entry(key1, key2) {
        Entry::Vacant(_v) => return false,
        Entry::Occupied(o) => {
            let _gone = o.remove();
            return true;
        }
    }
}

/// Calls `f` with each item that has one of two keys, and stores what it returns as the item's data.
pub fn modify_both<'a, T: BiHashItemMut, S: BuildHasher, F: FnMut(&T) -> T::Data>(
    map: &'a mut BiHashMap<T, S>,
    key1: &'a T::K1,
    key2: &'a T::K2,
    f: F,
)
where
    T::Data: Drop,
    F: Drop,
    requires callable { TakesInTurn F.FnMut f
        (listing (⟦<T as Ranked>⟧.key_tests key1.now key2.now) (bag map.old)) }
    ensures { Stores (CalledAt F.FnMut) T.put ⟦<T as Ranked>⟧.ranks f
        (listing (⟦<T as Ranked>⟧.key_tests key1.now key2.now) (bag map.old)) (bag map.old)
        (bag map.new) }
{
    match map.entry(key1, key2).and_modify(f) {
        Entry::Vacant(_v) => return,
        Entry::Occupied(_o) => return,
    }
}

/// Updates the items that the keys name by a call of the occupied entry, with a closure that may always be called.
pub fn modify_found<'a, T: BiHashItemMut, S: BuildHasher, F: FnMut(&T) -> T::Data>(
    map: &'a mut BiHashMap<T, S>,
    key1: &'a T::K1,
    key2: &'a T::K2,
    f: F,
)
where
    T::Data: Drop,
    F: Drop,
    requires callable { F.IsAlwaysCallable f }
    ensures { Stores (CalledAt F.FnMut) T.put ⟦<T as Ranked>⟧.ranks f
        (listing (⟦<T as Ranked>⟧.key_tests key1.now key2.now) (bag map.old)) (bag map.old)
        (bag map.new) }
{
    match map.entry(key1, key2) {
        Entry::Vacant(_v) => return,
        Entry::Occupied(mut o) => {
            o.for_each(f);
            return;
        }
    }
}

/// Calls `f` with each item that has one of two keys, stores what it returns as the item's data, and then removes these
/// items: the entry still knows what it found.
pub fn modify_and_take<'a, T: BiHashItemMut, S: BuildHasher, F: FnMut(&T) -> T::Data>(
    map: &'a mut BiHashMap<T, S>,
    key1: &'a T::K1,
    key2: &'a T::K2,
    f: F,
) -> UpToTwo<T>
where
    T::Data: Drop,
    F: Drop,
    requires callable { TakesInTurn F.FnMut f
        (listing (⟦<T as Ranked>⟧.key_tests key1.now key2.now) (bag map.old)) }
    // What `f` returns is stored in the items that the keys find, and then these items are removed.
    ensures taken { (stored : List T) × Stores (CalledAt F.FnMut) T.put ⟦<T as Ranked>⟧.ranks f
        (listing (⟦<T as Ranked>⟧.key_tests key1.now key2.now) (bag map.old)) (bag map.old) stored
        × (result ≡ listing (⟦<T as Ranked>⟧.key_tests key1.now key2.now) stored)
        × IsPermutation stored (result ++ bag map.new) }
    ensures none { listing (⟦<T as Ranked>⟧.key_tests key1.now key2.now) (bag map.old) ≡ [] → map.new ≡ map.old }
    ensures some { listing (⟦<T as Ranked>⟧.key_tests key1.now key2.now) (bag map.old) ≢ [] → result ≢ [] }
    ensures capacity { map.new.capacity ≡ map.old.capacity }
    ensures builder { map.new.builder ≡ map.old.builder }
{
    match map.entry(key1, key2) {
        Entry::Vacant(_v) => return UpToTwo::new(),
        Entry::Occupied(mut found) => {
            found.for_each(f);
            return found.remove();
        }
    }
}

/// Inserts an item if no item has one of two keys. Then writes data into the item that has both, if there is one.
pub fn or_insert_and_write<'a, T: BiHashItemMut + Drop, S: BuildHasher>(
    map: &'a mut BiHashMap<T, S>,
    key1: &'a T::K1,
    key2: &'a T::K2,
    item: T,
    d: T::Data,
) -> Result<(), EntryError<T>>
where
    T::Data: Drop,
    ensures writes { OnOk result (WritesEntry ⟦<T as Ranked>⟧.ranks (λ x. T.put x d) (bag map.old) item
        (entry (⟦<T as Ranked>⟧.key_tests key1.now key2.now) (bag map.old)) (bag map.new)) }
    ensures granted { first_mismatch (⟦<T as Ranked>⟧.key_tests key1.now key2.now) item ≡ None
        → length (bag map.old) < map.old.capacity → IsOk result }
    ensures occupied { listing (⟦<T as Ranked>⟧.key_tests key1.now key2.now) (bag map.old) ≢ []
        → IsOk result }
    ensures unchanged { OnErr result (map.new ≡ map.old) }
    ensures refused { IfErr result (λ e. HandsBack ⟦<T as Ranked>⟧.ranks
        (⟦<T as Ranked>⟧.key_tests key1.now key2.now) map.old item e) }
{
    match map.entry(key1, key2).or_insert(item) {
        Ok(held) => {
            if let Some(mut found) = held.into_unique() {
                *found.data_mut() = d;
                return Ok(());
            }
            return Ok(());
        }
        Err(e) => return Err(e.into_error()),
    }
}

/// Inserts an item if no item has one of two keys. Otherwise writes data into the item that has both, if there is one.
pub fn insert_or_write<'a, T: BiHashItemMut + Drop, S: BuildHasher>(
    map: &'a mut BiHashMap<T, S>,
    key1: &'a T::K1,
    key2: &'a T::K2,
    item: T,
    d: T::Data,
) -> Result<(), EntryError<T>>
where
    T::Data: Drop,
    ensures writes { OnOk result (InsertsOrWrites ⟦<T as Ranked>⟧.ranks (λ x. T.put x d) (bag map.old)
        item (entry (⟦<T as Ranked>⟧.key_tests key1.now key2.now) (bag map.old)) (bag map.new)) }
    ensures granted { first_mismatch (⟦<T as Ranked>⟧.key_tests key1.now key2.now) item ≡ None
        → length (bag map.old) < map.old.capacity → IsOk result }
    ensures occupied { listing (⟦<T as Ranked>⟧.key_tests key1.now key2.now) (bag map.old) ≢ []
        → IsOk result }
    ensures unchanged { OnErr result (map.new ≡ map.old) }
    ensures refused { IfErr result (λ e. HandsBack ⟦<T as Ranked>⟧.ranks
        (⟦<T as Ranked>⟧.key_tests key1.now key2.now) map.old item e) }
{
    match map.entry(key1, key2) {
        Entry::Vacant(v) => match v.insert(item) {
            Ok(_r) => return Ok(()),
            Err(e) => return Err(e),
        },
        Entry::Occupied(o) => {
            let held = o.into_mut();
            if let Some(mut one) = held.into_unique() {
                *one.data_mut() = d;
                return Ok(());
            }
            return Ok(());
        }
    }
}
