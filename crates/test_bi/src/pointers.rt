//! Maps of references, boxes and reference-counted pointers to items.
use crate::row::row_of;
use iddqd_bi::{BiHashItem, BiHashItemMut, BiHashMap};
use std::alloc::Global;
use std::rc::Rc;
use std::sync::Arc;
use std::test::Fail;

/// Returns whether a map finds an item by the keys 1 and 10.
fn has_both<T: BiHashItem<K1 = u64, K2 = u64>>(map: &BiHashMap<T>) -> bool {
    map.contains_key1(&1) && map.contains_key2(&10) && !map.contains_key1(&10)
}

/// Returns whether a map finds this item, which has the keys 1 and 10, by each of its keys.
fn is_found<T: BiHashItem<K1 = u64, K2 = u64> + Drop>(alloc: Global, item: T) -> bool {
    let mut map = BiHashMap::new(alloc);
    let was_empty = map.is_empty();
    let _ = map.insert_overwrite(item);
    was_empty && !map.is_empty() && has_both(&map)
}

/// Writes the data of an item.
fn write<T: BiHashItemMut<Data = u64>>(item: &mut T, value: u64) {
    *item.data_mut() = value;
}

#[test]
fn references_and_boxes_are_items(rt: HostRuntime) -> Result<(), Fail> {
    let alloc = rt.alloc();
    let mut row = row_of(1, 10, 100);
    write(&mut row, 101);
    write(&mut &mut row, 102);
    assert!(rt; row.value == 102);
    let mut boxed = Box::new(alloc, row)?;
    write(&mut boxed, 103);
    assert!(rt; boxed.value == 103 && is_found(alloc, boxed));
    assert!(rt; is_found(alloc, Rc::new(alloc, row)?));
    assert!(rt; is_found(alloc, Arc::new(alloc, row)?));
    assert!(rt; is_found(alloc, &row) && is_found(alloc, &mut row));
    Ok(())
}
