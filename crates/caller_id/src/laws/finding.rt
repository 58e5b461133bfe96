//! Laws by which lookups agree with each other.
//!
//! Made by tests/widths from crates/caller_bi/src/laws/finding.rt: change that file.
ghost use Rattle.std.specs.Prelude.{◌≡◌, true};

use iddqd_id::{IdHashItem, IdHashMap, Query};
use std::hash::{BuildHasher, Hash};

/// Tests that a lookup by a key returns an item exactly if the map has one with that key, and that this item has
/// the key.
pub fn found_where_contained<T: IdHashItem, S: BuildHasher, Q: Query<T::Key>>(
    map: &IdHashMap<T, S>,
    query: Q,
) -> bool
    ensures { result ≡ true }
{
    match map.get(query) {
        Some(item) => map.contains_key(query) && query.stands_for(item.key()),
        None => !map.contains_key(query),
    }
}
