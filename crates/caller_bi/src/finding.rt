//! What a caller can prove of lookups after an insert or a removal.
ghost use Rattle.std.specs.Prelude.{◌≡◌, true, false, length};
ghost use Rattle.iddqd_bi.specs.Map.{bag};

use iddqd_bi::{BiHashItem, BiHashMap};
use std::hash::{BuildHasher, Hash};

/// Inserts an item in place of those that conflict with it, and returns whether this first key of it is found then. It
/// is found; if there was no memory for the item, the call returns `true` as well.
pub fn put_and_find<T: BiHashItem + Drop, S: BuildHasher>(
    map: &mut BiHashMap<T, S>,
    item: T,
    key: &T::K1,
) -> bool
    requires has { T.K1.eq key.now (T.key1 item) ≡ true }
    ensures { result ≡ true }
{
    match map.insert_overwrite(item) {
        Ok(displaced) => {
            drop(displaced);
            let _len = map.len();
            map.contains_key1(key)
        }
        Err(refusal) => {
            drop(refusal);
            true
        }
    }
}

/// Removes the item with this first key, and returns whether the key is still found, which it never is.
pub fn remove_and_find<T: BiHashItem + Drop, S: BuildHasher>(
    map: &mut BiHashMap<T, S>,
    key: &T::K1,
) -> bool
    ensures { result ≡ false }
{
    let _len = map.len();
    drop(map.remove1(key));
    map.contains_key1(key)
}

/// Returns how many items an iteration gives.
pub fn count_all<T: BiHashItem, S: BuildHasher>(map: &BiHashMap<T, S>) -> usize
    ensures { result ≡ length (bag map.now) }
{
    map.iter().count()
}
