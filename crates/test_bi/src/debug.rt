//! What guards, entries and iterators print by `Debug`.
use crate::row::{Row, row_of};
use iddqd_bi::{BiHashMap, Cursor, Entry};
use std::alloc::Global;
use std::fmt::Debug;
use std::test::*;

/// Returns whether `Debug` of a value prints `shown`.
fn shows<T: Debug>(alloc: Global, value: &T, shown: &str) -> bool {
    match format!(in alloc; "{value:?}") {
        Ok(text) => text.as_str() == shown,
        Err(_) => false,
    }
}

/// Returns whether an occupied entry whose second key found nothing prints what its first key found.
fn occupied_shows(alloc: Global, map: &mut BiHashMap<Row>) -> bool {
    match map.entry(&1, &20) {
        Entry::Vacant(_) => false,
        Entry::Occupied(entry) => {
            shows(
                alloc,
                &entry,
                "OccupiedEntry { by_key1: Some(Row { key1: 1, key2: 10, value: 100 }), by_key2: None }",
            ) && shows(
                alloc,
                &entry.get(),
                "NonUnique { by_key1: Some(Row { key1: 1, key2: 10, value: 100 }), by_key2: None }",
            )
        }
    }
}

/// Returns whether what an entry holds for writing prints what its keys found.
fn held_shows(alloc: Global, map: &mut BiHashMap<Row>) -> bool {
    match map.entry(&2, &10) {
        Entry::Vacant(_) => false,
        Entry::Occupied(mut entry) => shows(
            alloc,
            &entry.get_mut(),
            "OccupiedEntryMut { by_key1: None, by_key2: Some(Row { key1: 1, key2: 10, value: 100 }) }",
        ),
    }
}

#[test]
fn entries_print(rt: HostRuntime) {
    let alloc = rt.alloc();
    let mut map = BiHashMap::new(alloc);
    let _ = map.insert_overwrite(row_of(1, 10, 100));
    assert!(rt; occupied_shows(alloc, &mut map));
    assert!(rt; held_shows(alloc, &mut map));
    assert!(rt; shows(alloc, &map.entry(&2, &20), "Vacant(VacantEntry { .. })"));
    assert!(rt;
        shows(
            alloc,
            &map.entry(&1, &11),
            "Occupied(OccupiedEntry { by_key1: Some(Row { key1: 1, key2: 10, value: 100 }), by_key2: None })"
        )
    );
}

/// Returns whether a guard prints its item.
fn guard_shows(alloc: Global, map: &mut BiHashMap<Row>) -> bool {
    match map.get1_mut(&1) {
        Some(guard) => shows(alloc, &guard, "Row { key1: 1, key2: 10, value: 100 }"),
        None => false,
    }
}

/// Returns whether the iterators over a list of conflicting items print what they have left.
fn conflicts_show(alloc: Global, map: &BiHashMap<Row>) -> bool {
    let found = map.conflicts_with(&row_of(1, 20, 0));
    let shown = "[Row { key1: 1, key2: 10, value: 100 }]";
    shows(alloc, &found.iter(), shown) && shows(alloc, &found.into_iter(), shown)
}

#[test]
fn guards_and_iterators_print(rt: HostRuntime) {
    let alloc = rt.alloc();
    let mut map = BiHashMap::new(alloc);
    let _ = map.insert_overwrite(row_of(1, 10, 100));
    assert!(rt; guard_shows(alloc, &mut map));
    assert!(rt; conflicts_show(alloc, &map));
    assert!(rt;
        shows(
            alloc,
            &map.iter(),
            "[Row { key1: 1, key2: 10, value: 100 }]"
        )
    );
    assert!(rt; shows(alloc, &map.iter_mut(), "IterMut { len: 1, .. }"));
    assert!(rt; shows(alloc, &Cursor::new(), "Cursor { next: 0 }"));
    assert!(rt; shows(alloc, &map.into_iter(), "IntoIter { len: 1, .. }"));
}
