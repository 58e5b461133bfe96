//! Tests of slots: the calls that no map's test runs, and that values are dropped once.
use iddqd_store::{ItemIndex, ItemSet};
use std::alloc::Global;
use std::rc::Rc;
use std::test::Fail;

/// Makes a set with 10 in slot 0 and 30 in slot 2.
fn two_of_three(alloc: Global) -> Result<ItemSet<u64>, Fail> {
    let mut set = ItemSet::with_capacity(alloc, 3)?;
    for item in [10, 20, 30] {
        if set.len() < set.capacity() {
            set.insert_reserved(item);
        }
    }
    let _ = set.remove(ItemIndex::new(1));
    Ok(set)
}

/// Adds one to the item of a slot, then replaces it by seven, and returns the old item.
fn write(set: &mut ItemSet<u64>, slot: ItemIndex) -> Option<u64> {
    let item = set.get_mut(slot)?;
    *item = item.wrapping_add(1);
    set.get(slot)?;
    Some(set.replace(slot, 7))
}

/// Returns whether a set has two items, and both are seven.
fn has_two_sevens(set: &ItemSet<u64>) -> bool {
    let mut items = set.values();
    items.next() == Some(&7) && items.next() == Some(&7) && items.next() == None
}

#[test]
fn items_are_written_in_their_slots(rt: HostRuntime) -> Result<(), Fail> {
    let mut set = two_of_three(rt.alloc())?;
    for (at, wanted) in [(0, Some(11)), (1, None), (2, Some(31)), (3, None)] {
        assert!(rt; at < 4);
        assert!(rt; write(&mut set, ItemIndex::new(at)) == wanted);
    }
    assert!(rt; has_two_sevens(&set));
    Ok(())
}

#[test]
fn slots_are_copied_and_compacted(rt: HostRuntime) -> Result<(), Fail> {
    let mut set = two_of_three(rt.alloc())?;
    let copy = set.clone()?;
    set.compact();
    set.shrink_to(0)?;
    for (set, at) in [(copy, 2), (set, 1)] {
        assert!(rt; at < 3);
        assert!(rt; set.get(ItemIndex::new(at)).copied() == Some(30) && set.capacity() == at + 1);
    }
    Ok(())
}

/// Makes a set of four items that share ownership of `alive`.
fn shared_by_four(alloc: Global, alive: &Rc<()>) -> Result<ItemSet<Rc<()>>, Fail> {
    let mut set = ItemSet::new(alloc);
    set.try_reserve(4)?;
    for _ in 0..4 {
        if set.len() < set.capacity() {
            set.insert_reserved(alive.clone()?);
        }
    }
    Ok(set)
}

/// Returns how many owners `alive` has after an iteration took one item out of the set, and after the iteration was
/// dropped.
fn walked(set: ItemSet<Rc<()>>, alive: &Rc<()>) -> [usize; 2] {
    let mut values = set.into_values();
    drop(values.next());
    let behind_one = Rc::strong_count(alive);
    drop(values);
    [behind_one, Rc::strong_count(alive)]
}

#[test]
fn each_item_is_dropped_once(rt: HostRuntime) -> Result<(), Fail> {
    let alive = Rc::new(rt.alloc(), ())?;
    let mut set = shared_by_four(rt.alloc(), &alive)?;
    assert!(rt; Rc::strong_count(&alive) == 5);
    drop(set.remove(ItemIndex::new(1)));
    set.shrink_to(0)?;
    assert!(rt; Rc::strong_count(&alive) == 4);
    assert!(rt; walked(set, &alive) == [3, 1]);
    Ok(())
}
