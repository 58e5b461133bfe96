//! A map whose builder has a random seed, and a list that promises more items than fit into any memory.
use crate::row::{Row, row_of};
use iddqd_bi::{BiHashMap, InsertReason};
use std::hash::{BuildHasher, RandomState};
use std::test::*;

/// Returns whether a map finds the rows that were inserted, and rejects a row that conflicts with both.
fn holds<S: BuildHasher>(map: &mut BiHashMap<Row, S>) -> bool {
    let one = row_of(1, 10, 0);
    let two = row_of(2, 20, 0);
    let went_in = map.try_insert(one).is_ok() && map.try_insert(two).is_ok();
    let is_refused = map.try_insert(row_of(2, 10, 5)).is_err();
    went_in && is_refused && map.get1(&1) == Some(&one) && map.get2(&20) == Some(&two)
}

#[test]
fn a_random_seed_serves_as_well(rt: HostRuntime) -> Result<(), Fail> {
    let mut map = BiHashMap::with_hasher(rt.alloc(), RandomState::new(&rt)?);
    assert!(rt; holds(&mut map));
    drop(map);
    Ok(())
}

/// Returns whether a list of more items than fit into any memory ends at its fourth item, which conflicts with the
/// first.
fn ends_at_the_conflict(map: &mut BiHashMap<Row>) -> bool {
    let rows = (0..1u64 << 61).map(|number| row_of(number % 3, number, 0));
    match map.extend_unique(rows) {
        Ok(()) => false,
        Err(error) => {
            error.taken1
                && !error.taken2
                && matches!(error.reason(), InsertReason::Duplicate)
                && error.before.len() == 3
                && error.item == row_of(0, 3, 0)
        }
    }
}

#[test]
fn a_promise_beyond_any_memory_is_no_need(rt: HostRuntime) {
    let mut map = BiHashMap::new(rt.alloc());
    assert!(rt; ends_at_the_conflict(&mut map));
    assert!(rt; map.is_empty());
    drop(map);
}
