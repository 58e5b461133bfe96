//! What a caller can prove of lookups after an insert or a removal.
//!
//! Made by tests/widths from crates/caller_bi/src/finding.rt: change that file.
ghost use Rattle.std.specs.Prelude.{◌≡◌, true, false, length};
ghost use Rattle.iddqd_id.specs.Map.{bag};

use iddqd_id::{IdHashItem, IdHashMap};
use std::hash::{BuildHasher, Hash};

/// Inserts an item in place of those that conflict with it, and returns whether this key of it is found then. It
/// is found; if there was no memory for the item, the call returns `true` as well.
pub fn put_and_find<T: IdHashItem + Drop, S: BuildHasher>(
    map: &mut IdHashMap<T, S>,
    item: T,
    key: &T::Key,
) -> bool
    requires has { T.Key.eq key.now (T.key item) ≡ true }
    ensures { result ≡ true }
{
    match map.insert_overwrite(item) {
        Ok(displaced) => {
            drop(displaced);
            let _len = map.len();
            map.contains_key(key)
        }
        Err(refusal) => {
            drop(refusal);
            true
        }
    }
}

/// Removes the item with this key, and returns whether the key is still found, which it never is.
pub fn remove_and_find<T: IdHashItem + Drop, S: BuildHasher>(
    map: &mut IdHashMap<T, S>,
    key: &T::Key,
) -> bool
    ensures { result ≡ false }
{
    let _len = map.len();
    drop(map.remove(key));
    map.contains_key(key)
}

/// Returns how many items an iteration gives.
pub fn count_all<T: IdHashItem, S: BuildHasher>(map: &IdHashMap<T, S>) -> usize
    ensures { result ≡ length (bag map.now) }
{
    map.iter().count()
}
