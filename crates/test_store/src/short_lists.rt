//! Tests of short lists, which keep their order and can be iterated, and of what errors convert to.
use iddqd_store::{DuplicateItem, MemoryRefused, TryReserveError, UpToThree, UpToTwo};
use std::alloc::AllocError;
use std::io;

/// Makes a list of two items.
fn two(first: u32, second: u32) -> UpToTwo<u32> {
    let mut list = UpToTwo::new();
    list.push(first);
    list.push(second);
    list
}

/// Makes a list of three items.
fn three(first: u32, second: u32, third: u32) -> UpToThree<u32> {
    let mut list = UpToThree::new();
    list.push(first);
    list.push(second);
    list.push(third);
    list
}

/// Makes an error with this list, and returns the list by the error's parts, or `None` if the error shows something
/// else.
fn refused_for(list: UpToTwo<u32>) -> Option<UpToTwo<u32>> {
    let refused = DuplicateItem::new(MemoryRefused { value: 5 }, list);
    let is_shown = refused.new_item().value == 5 && refused.duplicates().len() == 2;
    let (_, list) = refused.into_parts();
    if is_shown { Some(list) } else { None }
}

/// Returns whether these are the first items of both lists, and removes them.
fn pop(two: &mut UpToTwo<u32>, three: &mut UpToThree<u32>, firsts: [Option<u32>; 2]) -> bool {
    let [first, second] = firsts;
    let are_first = two.get(0).copied() == first && three.get(0).copied() == second;
    are_first && two.pop_front() == first && three.pop_front() == second
}

/// Returns whether the items of both lists come out in the order in which they were inserted, until none are left.
fn keep_their_order(two: &mut UpToTwo<u32>, three: &mut UpToThree<u32>) -> bool {
    pop(two, three, [Some(10), Some(10)])
        && pop(two, three, [Some(20), Some(20)])
        && pop(two, three, [None, Some(30)])
        && two.is_empty()
        && three.is_empty()
}

#[test]
fn short_lists_keep_their_order(rt: HostRuntime) {
    let mut three = three(10, 20, 30);
    match refused_for(two(10, 20)) {
        Some(mut two) => assert!(rt; keep_their_order(&mut two, &mut three)),
        None => assert!(rt; false),
    }
}

fn is_two(list: &UpToTwo<u32>) -> bool {
    *list == two(10, 20) && *list != two(20, 10) && *list != UpToTwo::new()
}

fn lends_two(list: &UpToTwo<u32>) -> bool {
    let mut lent = list.iter();
    lent.len() == 2
        && lent.next() == Some(&10)
        && lent.clone().len() == 1
        && lent.next() == Some(&20)
        && lent.next() == None
}

fn gives_two(list: UpToTwo<u32>) -> bool {
    let mut given = list.into_iter();
    given.len() == 2 && given.next() == Some(10) && given.next() == Some(20) && given.next() == None
}

#[test]
fn a_list_of_two_is_walked(rt: HostRuntime) {
    let list = two(10, 20);
    assert!(rt; is_two(&list) && list.first() == Some(&10));
    assert!(rt; lends_two(&list));
    assert!(rt; gives_two(list));
}

fn is_three(list: &UpToThree<u32>) -> bool {
    *list == three(10, 20, 30) && *list != three(10, 20, 31)
}

/// Returns the numbers of a borrowed list, two digits for each.
fn digits(list: &UpToThree<u32>) -> u32 {
    let mut digits: u32 = 0;
    for x in list {
        digits = digits.wrapping_mul(100).wrapping_add(*x);
    }
    digits
}

fn gives_three(list: UpToThree<u32>) -> bool {
    let mut given = list.into_iter();
    given.next() == Some(10)
        && given.len() == 2
        && given.next() == Some(20)
        && given.next() == Some(30)
        && given.next() == None
}

#[test]
fn a_list_of_three_is_walked(rt: HostRuntime) {
    let list = three(10, 20, 30);
    assert!(rt; is_three(&list) && list.first() == Some(&10));
    assert!(rt; digits(&list) == 10_20_30);
    assert!(rt; gives_three(list));
}

/// A call that runs out of memory, and returns a number in its error.
fn refused() -> Result<(), MemoryRefused<u32>> {
    Err(MemoryRefused { value: 5 })
}

fn as_no_memory(reserves: bool) -> Result<(), AllocError> {
    if reserves {
        Err(TryReserveError)?;
    }
    Ok(refused()?)
}

fn as_io(reserves: bool) -> io::Result<()> {
    if reserves {
        Err(TryReserveError)?;
    }
    Ok(refused()?)
}

#[test]
fn refusals_convert(rt: HostRuntime) {
    for reserves in [true, false] {
        assert!(rt; as_no_memory(reserves) == Err(AllocError));
        assert!(rt; as_io(reserves).is_err_and(|e| e.kind() == io::ErrorKind::OutOfMemory));
    }
    let refusal: TryReserveError = MemoryRefused { value: 5 }.into();
    assert!(rt; refusal == TryReserveError);
}
