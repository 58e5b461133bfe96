//! What maps, short lists and errors print, and the conversion of errors by `?` into an `anyhow::Error`.
use crate::row::{Row, row_of};
use iddqd_bi::{
    BiHashMap, DuplicateItem, Entry, EntryError, ExtendUniqueError, FromIterError, InsertError,
    KeyMismatch, MemoryRefused, NotReplaced, Rejected, TryEntryError, TryReserveError,
};
use std::alloc::Global;
use std::fmt::{Debug, Display};
use std::test::*;

/// Returns whether `Display` of a value prints `told`, and `Debug` prints `shown`.
fn prints<T: Debug + Display>(alloc: Global, value: &T, told: &str, shown: &str) -> bool {
    match format!(in alloc; "{value}|{value:?}") {
        Ok(text) => match text.as_str().split_once("|") {
            Some((to_reader, to_developer)) => to_reader == told && to_developer == shown,
            None => false,
        },
        Err(_) => false,
    }
}

/// Returns whether `Debug` of a value prints `shown`.
fn shows<T: Debug>(alloc: Global, value: &T, shown: &str) -> bool {
    match format!(in alloc; "{value:?}") {
        Ok(text) => text.as_str() == shown,
        Err(_) => false,
    }
}

/// What `Display` prints for a conflict.
const TAKEN: &str = "an item with an equal key is there already";

/// Returns whether the error of an insert and the list of its duplicates print what they should.
fn refusal_prints(alloc: Global, map: &mut BiHashMap<Row>) -> bool {
    match map.insert_unique(row_of(1, 20, 0)) {
        Ok(()) => false,
        Err(refusal) => {
            prints(
                alloc,
                &refusal,
                TAKEN,
                "InsertError { reason: Duplicate, .. }",
            ) && shows(
                alloc,
                &refusal.duplicates(),
                "[Row { key1: 1, key2: 10, value: 100 }, Row { key1: 2, key2: 20, value: 200 }]",
            )
        }
    }
}

/// Returns whether the error of an insert through an entry prints what it should.
fn entry_prints(alloc: Global, map: &mut BiHashMap<Row>) -> bool {
    match map.entry(&3, &30).or_insert(row_of(3, 31, 0)) {
        Ok(_held) => false,
        Err(refusal) => prints(
            alloc,
            &refusal,
            "the second key is not the entry's",
            "EntryRefusal { error: Key2 { .. }, .. }",
        ),
    }
}

#[test]
fn a_map_and_what_holds_it_print(rt: HostRuntime) {
    let alloc = rt.alloc();
    let mut map = BiHashMap::new(alloc);
    let _ = map.insert_overwrite(row_of(1, 10, 100));
    let _ = map.insert_overwrite(row_of(2, 20, 200));
    assert!(rt; refusal_prints(alloc, &mut map));
    assert!(rt; entry_prints(alloc, &mut map));
    assert!(rt;
        shows(
            alloc,
            &map,
            "{Row { key1: 1, key2: 10, value: 100 }, Row { key1: 2, key2: 20, value: 200 }}"
        )
    );
}

/// Reserves capacity. The error is converted by `?` into an `anyhow::Error`.
fn grow(map: &mut BiHashMap<Row>, more: usize) -> anyhow::Result<()> {
    map.reserve(more)?;
    Ok(())
}

/// Returns whether the errors for lack of memory print what they should.
fn memory_prints(alloc: Global) -> bool {
    let row = row_of(1, 10, 100);
    let refused = MemoryRefused { value: row };
    let entry = EntryError::Memory(row);
    let built: FromIterError<Row> = FromIterError::Memory(row);
    prints(alloc, &TryReserveError, "out of memory", "TryReserveError")
        && prints(
            alloc,
            &refused,
            "out of memory: the item was not inserted",
            "MemoryRefused { .. }",
        )
        && prints(
            alloc,
            &entry,
            "out of memory: the item was not inserted",
            "Memory { .. }",
        )
        && prints(
            alloc,
            &built,
            "out of memory: the map was not built",
            "Memory { .. }",
        )
}

/// Returns whether the errors about keys print what they should.
fn keys_print(alloc: Global) -> bool {
    let row = row_of(1, 10, 100);
    prints(
        alloc,
        &KeyMismatch::Key1(row),
        "the first key is another one",
        "Key1 { .. }",
    ) && prints(
        alloc,
        &DuplicateItem::new(row, row),
        TAKEN,
        "DuplicateItem { .. }",
    )
}

/// Returns whether the error of `extend_unique` prints what it should, with these keys taken.
fn list_prints(alloc: Global, taken1: bool, taken2: bool, told: &str, shown: &str) -> bool {
    let error = ExtendUniqueError {
        before: Vec::new(alloc),
        item: row_of(1, 10, 100),
        taken1,
        taken2,
    };
    prints(alloc, &error, told, shown)
}

/// Returns whether the errors of `extend_unique` print what they should.
fn lists_print(alloc: Global) -> bool {
    list_prints(
        alloc,
        true,
        true,
        "none was inserted, because of item 0: an item with an equal first key is there already; an item with an equal second key is there already",
        "ExtendUniqueError { before: 0, taken1: true, taken2: true, .. }",
    ) && list_prints(
        alloc,
        false,
        true,
        "none was inserted, because of item 0: an item with an equal second key is there already",
        "ExtendUniqueError { before: 0, taken1: false, taken2: true, .. }",
    ) && list_prints(
        alloc,
        false,
        false,
        "none was inserted, because of item 0: out of memory",
        "ExtendUniqueError { before: 0, taken1: false, taken2: false, .. }",
    )
}

/// Returns whether the error of `try_insert` prints what it should, with these keys taken.
fn rejected_prints(alloc: Global, taken1: bool, taken2: bool, told: &str, shown: &str) -> bool {
    let item = row_of(1, 10, 100);
    let error = Rejected {
        item,
        taken1,
        taken2,
    };
    prints(alloc, &error, told, shown)
}

/// Returns whether the errors of `try_insert` print what they should.
fn rejections_print(alloc: Global) -> bool {
    rejected_prints(
        alloc,
        true,
        true,
        "an item with an equal first key is there already; an item with an equal second key is there already",
        "Rejected { taken1: true, taken2: true, .. }",
    ) && rejected_prints(
        alloc,
        true,
        false,
        "an item with an equal first key is there already",
        "Rejected { taken1: true, taken2: false, .. }",
    ) && rejected_prints(
        alloc,
        false,
        true,
        "an item with an equal second key is there already",
        "Rejected { taken1: false, taken2: true, .. }",
    ) && rejected_prints(
        alloc,
        false,
        false,
        "out of memory: the item was not inserted",
        "Rejected { taken1: false, taken2: false, .. }",
    )
}

/// Why an entry inserted nothing where a closure makes the item and may run out of memory.
type Tried = TryEntryError<EntryError<Row>, TryReserveError>;

/// Returns whether the errors of `or_try_insert_with` print what the error of the closure prints, or that of the entry.
fn tried_prints(alloc: Global) -> bool {
    let failed: Tried = TryEntryError::Closure(TryReserveError);
    let refused: Tried = TryEntryError::Insert(EntryError::Key1(row_of(1, 10, 100)));
    prints(alloc, &failed, "out of memory", "Closure(TryReserveError)")
        && prints(
            alloc,
            &refused,
            "the first key is not the entry's",
            "Insert(Key1 { .. })",
        )
}

/// Returns whether the errors of `rekey1` print what they should.
fn not_replaced_prints(alloc: Global) -> bool {
    let row = row_of(1, 10, 100);
    prints(
        alloc,
        &NotReplaced::Absent(row),
        "no item has the key asked for",
        "Absent { .. }",
    ) && prints(
        alloc,
        &NotReplaced::Duplicate(row),
        "a third item has a key of the new one",
        "Duplicate { .. }",
    )
}

#[test]
fn errors_print_and_are_errors_of_any_kind(rt: HostRuntime) {
    let alloc = rt.alloc();
    assert!(rt; memory_prints(alloc));
    assert!(rt; keys_print(alloc));
    assert!(rt; lists_print(alloc));
    assert!(rt; rejections_print(alloc) && not_replaced_prints(alloc));
    assert!(rt; tried_prints(alloc));
    let mut map = BiHashMap::new(alloc);
    assert!(rt; grow(&mut map, 1).is_ok() && grow(&mut map, usize::MAX).is_err());
}
