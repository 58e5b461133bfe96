//! Maps of references, boxes and reference-counted pointers to items.
use crate::row::row_of;
use iddqd_tri::{TriHashItem, TriHashItemMut, TriHashMap};
use std::alloc::Global;
use std::rc::Rc;
use std::sync::Arc;
use std::test::Fail;

/// Returns whether a map finds an item by the keys 1, 10 and 100.
fn has_all<T: TriHashItem<K1 = u64, K2 = u64, K3 = u64>>(map: &TriHashMap<T>) -> bool {
    map.contains_key_unique(&1, &10, &100) && !map.contains_key1(&10) && !map.contains_key3(&10)
}

/// Returns whether a map finds this item, which has the keys 1, 10 and 100, by each of its keys.
fn is_found<T: TriHashItem<K1 = u64, K2 = u64, K3 = u64> + Drop>(alloc: Global, item: T) -> bool {
    let mut map = TriHashMap::new(alloc);
    let was_empty = map.is_empty();
    let _ = map.insert_overwrite(item);
    was_empty && !map.is_empty() && has_all(&map)
}

/// Writes the data of an item.
fn write<T: TriHashItemMut<Data = u64>>(item: &mut T, value: u64) {
    *item.data_mut() = value;
}

#[test]
fn references_and_boxes_are_items(rt: HostRuntime) -> Result<(), Fail> {
    let alloc = rt.alloc();
    let mut row = row_of(1, 10, 100, 7);
    write(&mut row, 8);
    write(&mut &mut row, 9);
    assert!(rt; row.value == 9);
    let mut boxed = Box::new(alloc, row)?;
    write(&mut boxed, 10);
    assert!(rt; boxed.value == 10 && is_found(alloc, boxed));
    assert!(rt; is_found(alloc, Rc::new(alloc, row)?));
    assert!(rt; is_found(alloc, Arc::new(alloc, row)?));
    assert!(rt; is_found(alloc, &row) && is_found(alloc, &mut row));
    Ok(())
}
