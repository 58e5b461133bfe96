//! Maps in code that requires only traits of std: cloned and compared with a struct, made by `or_default`, and taken out of
//! their place.
ghost use Rattle.std.proofs.Common.{rules};

use crate::row::{Row, row_of};
use iddqd_bi::{BiHashMap, ClonesKeys};
use std::collections::HashMap;
use std::mem;
use std::test::Fail;

impl ClonesKeys for Row {
    ghost clone_key1 = { Prim.search rules };

    ghost clone_key2 = { Prim.search rules };
}

/// A struct that has a map.
#[derive(Clone, Debug, Drop, PartialEq)]
struct Shelf {
    number: u8,
    rows: BiHashMap<Row>,
}

#[test]
fn a_struct_with_a_map_is_cloned_and_compared(rt: HostRuntime) -> Result<(), Fail> {
    let mut rows = BiHashMap::new(rt.alloc());
    let _ = rows.insert_overwrite(row_of(1, 10, 0));
    let mut shelf = Shelf { number: 3, rows };
    let copy = shelf.clone()?;
    assert!(rt; copy == shelf);
    let _ = shelf.rows.pop();
    assert!(rt; copy != shelf && copy.rows.len() == 1);
    Ok(())
}

#[test]
fn a_map_of_maps_begins_each_empty(rt: HostRuntime) -> Result<(), Fail> {
    let mut shelves: HashMap<u8, BiHashMap<Row>> = HashMap::new(rt.alloc());
    let _ = shelves
        .entry(3)?
        .or_default()
        .insert_overwrite(row_of(1, 10, 0));
    let _ = shelves
        .entry(3)?
        .or_default()
        .insert_overwrite(row_of(2, 20, 0));
    assert!(rt; shelves.entry(3)?.or_default().len() == 2);
    assert!(rt; shelves.entry(4)?.or_default().is_empty());
    Ok(())
}

#[test]
fn a_map_is_taken_out_of_its_place(rt: HostRuntime) -> Result<(), Fail> {
    let mut rows = BiHashMap::new(rt.alloc());
    let _ = rows.insert_overwrite(row_of(1, 10, 0));
    let taken = mem::try_take(&mut rows)?;
    assert!(rt; taken.len() == 1);
    assert!(rt; rows.is_empty() && rows.capacity() == 0);
    Ok(())
}
