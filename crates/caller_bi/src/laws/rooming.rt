//! Tests that inserts succeed after capacity was reserved, and that reserving and shrinking keep the items.
ghost use Rattle.std.specs.Prelude.{◌≡◌, ◌≢◌, ◌∷◌, ◌<◌, ◌≤◌, ◌+◌, ◌⊎◌, [], true, length, IsPermutation};
ghost use Rattle.std.specs.Bool.{OnTrue, OnFalse};
ghost use Rattle.iddqd_bi.specs.Bag.{conflicts_of};
ghost use Rattle.iddqd_bi.specs.Map.{IsFullFor, bag};

use iddqd_bi::{BiHashItem, BiHashMap, InsertReason, Ranked};
use std::hash::{BuildHasher, Hash};

/// Tests that an insert does not run out of memory after capacity for one item was reserved.
pub fn insert_after_reserve<T: BiHashItem + Drop, S: BuildHasher>(
    map: &mut BiHashMap<T, S>,
    item: T,
) -> bool
    ensures { result ≡ true }
{
    if map.try_reserve(1).is_err() {
        return true;
    }
    insert_or_lack(map, item)
}

/// Inserts an item if nothing conflicts with it, otherwise drops it. Returns `false` if nothing conflicts with it and
/// there was no memory for it.
fn insert_or_lack<T: BiHashItem + Drop, S: BuildHasher>(map: &mut BiHashMap<T, S>, item: T) -> bool
    ensures memory { length (bag map.old) < map.old.capacity → result ≡ true }
    ensures taken { OnTrue result (IsPermutation (bag map.new) (item ∷ bag map.old)
        ⊎ (conflicts_of ⟦<T as Ranked>⟧.ranks (bag map.old) item ≢ [])) }
    ensures lacking { OnFalse result (IsFullFor ⟦<T as Ranked>⟧.ranks map.old item) }
    ensures one_at_most { IsPermutation (bag map.new) (item ∷ bag map.old) ⊎ (map.new ≡ map.old) }
    ensures no_less_room { map.old.capacity ≤ map.new.capacity }
{
    match map.insert_unique(item) {
        Ok(()) => true,
        Err(refusal) => {
            let is_taken = refusal.reason() == InsertReason::Duplicate;
            drop(refusal);
            is_taken
        }
    }
}

/// Tests that inserting the items of a vector one after another does not run out of memory after capacity for as many
/// was reserved.
pub fn insert_all_after_reserve<T: BiHashItem + Drop, S: BuildHasher>(
    map: &mut BiHashMap<T, S>,
    mut items: Vec<T>,
) -> bool
    ensures { result ≡ true }
{
    if map.try_reserve(items.len()).is_err() {
        return true;
    }
    while let Some(item) = items.pop() {
        if !insert_or_lack(map, item) {
            return false;
        }
    }
    true
}

/// Tests that `extend` by a vector does not run out of memory after capacity for as many items was reserved.
pub fn extend_after_reserve<T: BiHashItem + Drop, S: BuildHasher>(
    map: &mut BiHashMap<T, S>,
    items: Vec<T>,
) -> bool
    ensures { result ≡ true }
{
    if map.try_reserve(items.len()).is_err() {
        return true;
    }
    map.extend(items).is_ok()
}

/// Reserves capacity, and returns whether that succeeded. The items stay either way, and if it failed the map does.
pub fn reserve_keeps<T: BiHashItem, S: BuildHasher>(map: &mut BiHashMap<T, S>, more: usize) -> bool
    ensures items { bag map.new ≡ bag map.old }
    ensures room { result ≡ true → length (bag map.old) + more ≤ map.new.capacity }
    ensures still_short { OnFalse result (map.new.capacity < length (bag map.old) + more) }
    ensures unchanged { OnFalse result (map.new ≡ map.old) }
{
    map.reserve(more).is_ok()
}

/// Shrinks the capacity, and returns whether that succeeded. The items stay either way.
pub fn shrink_keeps<T: BiHashItem + Drop, S: BuildHasher>(
    map: &mut BiHashMap<T, S>,
    least: usize,
) -> bool
    ensures items { bag map.new ≡ bag map.old }
    ensures shrunk { result ≡ true → map.new.capacity ≡ length (bag map.old) }
    ensures granted { length (bag map.old) ≡ map.old.capacity → result ≡ true }
{
    map.shrink_to(least).is_ok() && map.shrink_to_fit().is_ok()
}
