//! What holds after items have been removed.
//!
//! Made by tests/widths from crates/caller_bi/src/laws/leaving.rt: change that file.
ghost use Rattle.std.specs.Prelude.{◌≡◌, true, false};

use iddqd_id::{IdHashItem, IdHashMap};
use std::hash::{BuildHasher, Hash};

/// Removes the item with this key, and returns whether its key is still found. It is not.
pub fn remove_and_find_keys<T: IdHashItem + Drop, S: BuildHasher>(
    map: &mut IdHashMap<T, S>,
    key: &T::Key,
) -> bool
    ensures { result ≡ false }
{
    let _len = map.len();
    match map.remove(key) {
        Some(item) => { map.contains_key(item.key()) }
        None => false,
    }
}

/// Tests that the map has one item more after an overwrite, less the one that is returned, if there is one.
pub fn overwritten_length<T: IdHashItem + Drop, S: BuildHasher>(
    map: &mut IdHashMap<T, S>,
    item: T,
) -> bool
    ensures { result ≡ true }
{
    let before = map.len();
    let _ = map.capacity();
    match map.insert_overwrite(item) {
        Ok(Some(gone)) => {
            drop(gone);
            map.len() == before
        }
        Ok(None) => {
            let _ = map.capacity();
            map.len() == before + 1
        }
        Err(refusal) => {
            drop(refusal);
            map.len() == before
        }
    }
}
