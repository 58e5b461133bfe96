//! What iterations give.
//!
//! Made by tests/widths from crates/caller_bi/src/laws/walking.rt: change that file.
ghost use Rattle.std.specs.Prelude.{◌≡◌, true, IfOk};
ghost use Rattle.iddqd_tri.specs.Map.{bag};

use iddqd_tri::{Iter, TriHashItem, TriHashMap};
use std::alloc::{AllocError, Global};
use std::hash::{BuildHasher, Hash};

/// Tests that an iteration that gives nothing gives nothing when it is asked again.
pub fn none_again<T>(walk: &mut Iter<'_, T>) -> bool
    ensures { result ≡ true }
{
    match walk.next() {
        Some(_) => true,
        None => walk.next().is_none(),
    }
}

/// Tests that the length of an iteration is that of the map, and one less after its first item.
pub fn length_is_exact<T: TriHashItem, S: BuildHasher>(map: &TriHashMap<T, S>) -> bool
    ensures { result ≡ true }
{
    let mut walk = map.iter();
    if walk.len() != map.len() {
        return false;
    }
    match walk.next() {
        Some(_) => walk.len() + 1 == map.len(),
        None => map.is_empty(),
    }
}

/// Returns the items of the map in a vector, each once.
pub fn all_given<T: TriHashItem + Drop, S: BuildHasher + Drop>(
    alloc: Global,
    map: TriHashMap<T, S>,
) -> Result<Vec<T>, AllocError>
    ensures { IfOk result (λ all. all.items ≡ bag map) }
{
    map.into_iter().collect(alloc)
}
