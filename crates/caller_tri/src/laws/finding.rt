//! Laws by which lookups agree with each other.
//!
//! Made by tests/widths from crates/caller_bi/src/laws/finding.rt: change that file.
ghost use Rattle.std.specs.Prelude.{◌≡◌, true};

use iddqd_tri::{Query, TriHashItem, TriHashMap};
use std::hash::{BuildHasher, Hash};

/// Tests that a lookup by a first key returns an item exactly if the map has one with that key, and that this item has
/// the key.
pub fn found1_where_contained<T: TriHashItem, S: BuildHasher, Q: Query<T::K1>>(
    map: &TriHashMap<T, S>,
    query: Q,
) -> bool
    ensures { result ≡ true }
{
    match map.get1(query) {
        Some(item) => map.contains_key1(query) && query.stands_for(item.key1()),
        None => !map.contains_key1(query),
    }
}

/// Tests that a lookup by a second key returns an item exactly if the map has one with that key, and that this item has
/// the key.
pub fn found2_where_contained<T: TriHashItem, S: BuildHasher, Q: Query<T::K2>>(
    map: &TriHashMap<T, S>,
    query: Q,
) -> bool
    ensures { result ≡ true }
{
    match map.get2(query) {
        Some(item) => map.contains_key2(query) && query.stands_for(item.key2()),
        None => !map.contains_key2(query),
    }
}

/// Tests that a lookup by a third key returns an item exactly if the map has one with that key, and that this item has
/// the key.
pub fn found3_where_contained<T: TriHashItem, S: BuildHasher, Q: Query<T::K3>>(
    map: &TriHashMap<T, S>,
    query: Q,
) -> bool
    ensures { result ≡ true }
{
    match map.get3(query) {
        Some(item) => map.contains_key3(query) && query.stands_for(item.key3()),
        None => !map.contains_key3(query),
    }
}

/// Tests that a lookup by all keys returns an item exactly if the item with the first key has the other keys too.
pub fn unique_where_all<
    T: TriHashItem,
    S: BuildHasher,
    Q1: Query<T::K1>,
    Q2: Query<T::K2>,
    Q3: Query<T::K3>,
>(map: &TriHashMap<T, S>, query1: Q1, query2: Q2, query3: Q3) -> bool
    ensures { result ≡ true }
{
    let given = map.get_unique(query1, query2, query3).is_some();
    match map.get1(query1) {
        Some(item) => {
            if query2.stands_for(item.key2()) {
                if query3.stands_for(item.key3()) {
                    return given;
                }
                return !given;
            }
            !given
        }
        None => !given,
    }
}

/// Tests that a lookup by all keys returns an item exactly if the map says that it has one with all keys.
pub fn unique_where_contained<
    T: TriHashItem,
    S: BuildHasher,
    Q1: Query<T::K1>,
    Q2: Query<T::K2>,
    Q3: Query<T::K3>,
>(map: &TriHashMap<T, S>, query1: Q1, query2: Q2, query3: Q3) -> bool
    ensures { result ≡ true }
{
    let given = map.get_unique(query1, query2, query3).is_some();
    if map.contains_key_unique(query1, query2, query3) {
        given
    } else {
        !given
    }
}
