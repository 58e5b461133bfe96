//! What a caller can prove of a map after an insert, whether it succeeded or failed.
ghost use Rattle.std.specs.Prelude.{◌≡◌, ◌≢◌, ◌<◌, ◌≤◌, ◌+◌, ◌⊎◌, ◌∷◌, [], true, length, IsPermutation};
ghost use Rattle.std.specs.Bool.{OnTrue, OnFalse};
ghost use Rattle.iddqd_bi.specs.Bag.{conflicts_of, conflicting, with_item};
ghost use Rattle.iddqd_bi.specs.Map.{Gains, IsFullFor, bag};
ghost use Rattle.iddqd_bi.specs.Callers.{GainsBoth, MayRefuse};

use iddqd_bi::{BiHashMap, Ranked};
use std::hash::{BuildHasher, Hash};

/// Inserts an item, or drops it if the insert fails. Returns whether it was inserted.
pub fn insert_or_drop<T: Ranked + Drop, S: BuildHasher>(map: &mut BiHashMap<T, S>, item: T) -> bool
    ensures gains { OnTrue result (Gains 1 map.old item map.new) }
    ensures unchanged { OnFalse result (map.new ≡ map.old) }
    ensures reason { OnFalse result (MayRefuse T.ranks map.old item) }
    ensures no_less_room { map.old.capacity ≤ map.new.capacity }
{
    let answer = map.insert_unique(item);
    match answer {
        Ok(()) => true,
        Err(refusal) => {
            drop(refusal);
            false
        }
    }
}

/// Inserts two items, one after the other, and returns whether both were inserted: they are, if nothing conflicts and
/// there is spare capacity. Otherwise one of them may have been inserted nevertheless, and the reason for the other is
/// known.
pub fn insert_both<T: Ranked + Drop, S: BuildHasher>(map: &mut BiHashMap<T, S>, a: T, b: T) -> bool
    ensures both { OnTrue result (GainsBoth (bag map.old) a b (bag map.new)) }
    // Otherwise neither was inserted, or only b was, or only a was.
    ensures refused { OnFalse result (((map.new ≡ map.old) × MayRefuse T.ranks map.old a × MayRefuse T.ranks map.old b)
        ⊎ (Gains 1 map.old b map.new × MayRefuse T.ranks map.old a)
        ⊎ (Gains 1 map.old a map.new × MayRefuse T.ranks map.new b)) }
    ensures no_less_room { map.old.capacity ≤ map.new.capacity }
    ensures granted { conflicts_of T.ranks (bag map.old) a ≡ [] → conflicts_of T.ranks (a ∷ bag map.old) b ≡ []
        → 1 + length (bag map.old) < map.old.capacity → result ≡ true }
{
    let has_a = insert_or_drop(map, a);
    let has_b = insert_or_drop(map, b);
    has_a && has_b
}

/// Inserts an item, and returns how many items conflict with it. If some do, the item is dropped, and the map is as
/// before.
pub fn count_conflicts<T: Ranked + Drop, S: BuildHasher>(
    map: &mut BiHashMap<T, S>,
    item: T,
) -> usize
    ensures count { result ≡ length (conflicting T.ranks (bag map.old) item) }
    ensures went_in { result ≡ 0 → length (bag map.old) < map.old.capacity
        → IsPermutation (bag map.new) (item ∷ bag map.old) }
    ensures unchanged { result ≢ 0 → map.new ≡ map.old }
{
    let answer = map.insert_unique(item);
    match answer {
        Ok(()) => 0,
        Err(refusal) => {
            let count = refusal.duplicates().len();
            drop(refusal);
            count
        }
    }
}

/// Inserts an item in place of those that conflict with it, which are dropped. Returns whether it was inserted.
pub fn overwrite_or_drop<T: Ranked + Drop, S: BuildHasher>(
    map: &mut BiHashMap<T, S>,
    item: T,
) -> bool
    ensures went_in { OnTrue result (IsPermutation (bag map.new) (with_item T.ranks (bag map.old) item)) }
    ensures unchanged { OnFalse result (map.new ≡ map.old) }
    ensures reason { OnFalse result (IsFullFor T.ranks map.old item) }
{
    map.insert_overwrite(item).is_ok()
}
