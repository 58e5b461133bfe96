//! `==` of maps is an equivalence relation if `==` of the items is one, and depends on the items alone.
//!
//! Made by tests/widths from crates/caller_bi/src/laws/comparing.rt: change that file.
ghost use Rattle.std.specs.Prelude.{◌≡◌, true, IsPermutation};
ghost use Rattle.iddqd_tri.specs.Map.{bag};

use iddqd_tri::{TriHashItem, TriHashMap};
use std::hash::{BuildHasher, Hash};

/// Tests that a map equals itself.
pub fn equal_to_itself<T: TriHashItem + Eq, S: BuildHasher>(map: &TriHashMap<T, S>) -> bool
    ensures { result ≡ true }
{
    *map == *map
}

/// Tests that one map equals another exactly if that one equals it.
pub fn equal_turned_round<T: TriHashItem + PartialEq, S: BuildHasher>(
    left: &TriHashMap<T, S>,
    right: &TriHashMap<T, S>,
) -> bool
    ensures { result ≡ true }
{
    if *left == *right {
        *right == *left
    } else {
        !(*right == *left)
    }
}

/// Tests that a map equals a third one if it equals a second one that equals the third.
pub fn equal_through_a_third<T: TriHashItem + PartialEq, S: BuildHasher>(
    first: &TriHashMap<T, S>,
    second: &TriHashMap<T, S>,
    third: &TriHashMap<T, S>,
) -> bool
    ensures { result ≡ true }
{
    if *first == *second {
        if *second == *third {
            return *first == *third;
        }
    }
    true
}

/// Returns whether two maps are equal. They are equal if they have the same items, however these were inserted,
/// whatever their order is, and whatever the capacity is.
pub fn equal_to_the_same_items<T: TriHashItem + Eq, S: BuildHasher>(
    left: &TriHashMap<T, S>,
    right: &TriHashMap<T, S>,
) -> bool
    ensures { IsPermutation (bag left.now) (bag right.now) → result ≡ true }
{
    *left == *right
}
