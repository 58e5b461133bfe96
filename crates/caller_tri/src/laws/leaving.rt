//! What holds after items have been removed.
//!
//! Made by tests/widths from crates/caller_bi/src/laws/leaving.rt: change that file.
ghost use Rattle.std.specs.Prelude.{◌≡◌, true, false};

use iddqd_tri::{TriHashItem, TriHashMap};
use std::hash::{BuildHasher, Hash};

/// Removes the item with this first key, and returns whether one of its keys is still found. None is.
pub fn remove1_and_find_keys<T: TriHashItem + Drop, S: BuildHasher>(
    map: &mut TriHashMap<T, S>,
    key: &T::K1,
) -> bool
    ensures { result ≡ false }
{
    let _len = map.len();
    match map.remove1(key) {
        Some(item) => {
            if map.contains_key1(item.key1()) {
                return true;
            }
            if map.contains_key2(item.key2()) {
                return true;
            }
            map.contains_key3(item.key3())
        }
        None => false,
    }
}

/// Removes the item with this second key, and returns whether one of its keys is still found. None is.
pub fn remove2_and_find_keys<T: TriHashItem + Drop, S: BuildHasher>(
    map: &mut TriHashMap<T, S>,
    key: &T::K2,
) -> bool
    ensures { result ≡ false }
{
    let _len = map.len();
    match map.remove2(key) {
        Some(item) => {
            if map.contains_key1(item.key1()) {
                return true;
            }
            if map.contains_key2(item.key2()) {
                return true;
            }
            map.contains_key3(item.key3())
        }
        None => false,
    }
}

/// Removes the item with this third key, and returns whether one of its keys is still found. None is.
pub fn remove3_and_find_keys<T: TriHashItem + Drop, S: BuildHasher>(
    map: &mut TriHashMap<T, S>,
    key: &T::K3,
) -> bool
    ensures { result ≡ false }
{
    let _len = map.len();
    match map.remove3(key) {
        Some(item) => {
            if map.contains_key1(item.key1()) {
                return true;
            }
            if map.contains_key2(item.key2()) {
                return true;
            }
            map.contains_key3(item.key3())
        }
        None => false,
    }
}

/// Removes the item with all keys, and returns whether one of its keys is still found. None is.
pub fn remove_unique_and_find_keys<T: TriHashItem + Drop, S: BuildHasher>(
    map: &mut TriHashMap<T, S>,
    key1: &T::K1,
    key2: &T::K2,
    key3: &T::K3,
) -> bool
    ensures { result ≡ false }
{
    let _len = map.len();
    match map.remove_unique(key1, key2, key3) {
        Some(item) => {
            if map.contains_key1(item.key1()) {
                return true;
            }
            if map.contains_key2(item.key2()) {
                return true;
            }
            map.contains_key3(item.key3())
        }
        None => false,
    }
}

/// Tests that the map has one item more after an overwrite, less those that are returned, which are three at most.
pub fn overwritten_length<T: TriHashItem + Drop, S: BuildHasher>(
    map: &mut TriHashMap<T, S>,
    item: T,
) -> bool
    ensures { result ≡ true }
{
    let before = map.len();
    let _ = map.capacity();
    match map.insert_overwrite(item) {
        Ok(gone) => {
            let count = gone.len();
            drop(gone);
            let _ = map.capacity();
            count <= 3 && map.len() + count == before + 1
        }
        Err(refusal) => {
            drop(refusal);
            map.len() == before
        }
    }
}
