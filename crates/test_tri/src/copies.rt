//! Cloning a map with three keys whose items may fail to clone.
//!
//! Made by tests/widths from crates/test_bi/src/copies.rt: change that file.
ghost use Rattle.std.specs.Prelude.{◌≡◌};

use iddqd_tri::{TriHashItem, TriHashMap};
use std::alloc::{AllocError, Global};
use std::cell::Cell;
use std::rc::Rc;
use std::test::Fail;

/// An item that shares a counter with others. The counter says how many more clones can be made of them, and its
/// reference count how many of them there are.
#[derive(Drop)]
struct Held {
    key1: u64,
    key2: u64,
    key3: u64,
    left: Rc<Cell<u64>>,
}

impl Clone for Held {
    ghost is_clone = { λ x c. (c.key1 ≡ x.key1) × (c.key2 ≡ x.key2) × (c.key3 ≡ x.key3) };

    fn clone(&self) -> Result<Self, AllocError> {
        let left = self.left.get();
        if left == 0 {
            return Err(AllocError);
        }
        self.left.set(left - 1);
        Ok(Held {
            key1: self.key1,
            key2: self.key2,
            key3: self.key3,
            left: self.left.clone()?,
        })
    }
}

impl TriHashItem for Held {
    type K1 = u64;

    type K2 = u64;

    type K3 = u64;

    ghost key1 = { λ x. x.key1 };

    ghost key2 = { λ x. x.key2 };

    ghost key3 = { λ x. x.key3 };

    fn key1(&self) -> &u64 {
        &self.key1
    }

    fn key2(&self) -> &u64 {
        &self.key2
    }

    fn key3(&self) -> &u64 {
        &self.key3
    }
}

/// The keys of an item.
type Keys = (u64, u64, u64);

/// Returns a list of items with these keys.
fn listed(alloc: Global, left: &Rc<Cell<u64>>, keys: &[Keys]) -> Result<Vec<Held>, AllocError> {
    let mut items = Vec::new(alloc);
    for (key1, key2, key3) in keys {
        items.push(Held {
            key1: *key1,
            key2: *key2,
            key3: *key3,
            left: left.clone()?,
        })?;
    }
    Ok(items)
}

/// Returns a map of these items.
fn map_of(alloc: Global, items: Vec<Held>) -> TriHashMap<Held> {
    let mut map = TriHashMap::new(alloc);
    for item in items {
        let _ = map.insert_overwrite(item);
    }
    map
}

const FOUR: &[Keys] = &[(1, 10, 100), (2, 20, 200), (3, 30, 300), (4, 40, 400)];

/// Returns the length of a map's clone, if there is one.
fn cloned(map: &TriHashMap<Held>) -> Option<usize> {
    match map.clone() {
        Ok(copy) => Some(copy.len()),
        Err(_) => None,
    }
}

/// Returns whether the clone of a map of four items has this length, or fails for `None`, and the map is as before.
fn is_cloned_so(map: TriHashMap<Held>, wanted: Option<usize>) -> bool {
    cloned(&map) == wanted && map.len() == 4 && map.contains_key3(&400)
}

#[test]
fn an_item_that_is_not_cloned_gives_no_map(rt: HostRuntime) -> Result<(), Fail> {
    for (allowed, wanted) in [(0, None), (1, None), (2, None), (3, None), (4, Some(4))] {
        let left = Rc::new(rt.alloc(), Cell::new(allowed))?;
        let items = listed(rt.alloc(), &left, FOUR)?;
        assert!(rt; is_cloned_so(map_of(rt.alloc(), items), wanted));
        assert!(rt; Rc::strong_count(&left) == 1);
    }
    Ok(())
}
