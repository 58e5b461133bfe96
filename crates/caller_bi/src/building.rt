//! What a caller can prove of a map after `extend`.
ghost use Rattle.std.specs.Prelude.{◌≡◌, ◌+◌, ◌≤◌, ◌∷◌, ◌++◌, List, length, IsPermutation, OnOk, IfErr, IsOk};
ghost use Rattle.iddqd_bi.specs.Bag.{with_items};
ghost use Rattle.iddqd_bi.specs.Map.{GrowsUnless, IsFullFor, bag};

use iddqd_bi::{BiHashItem, BiHashMap, MemoryRefused, Ranked};
use std::hash::{BuildHasher, Hash};

/// Inserts the items of a vector one after another, each in place of those that conflict with it. The call succeeds if
/// there is spare capacity for all of them. After an error the map has the items before the returned one.
pub fn extend_by_vec<T: BiHashItem + Drop, S: BuildHasher>(
    map: &mut BiHashMap<T, S>,
    items: Vec<T>,
) -> Result<(), MemoryRefused<T>>
    ensures all { OnOk result
        (IsPermutation (bag map.new) (with_items ⟦<T as Ranked>⟧.ranks (bag map.old) items.items)) }
    ensures refused { IfErr result (λ e. (before : List T) × (behind : List T)
        × (items.items ≡ before ++ e.value ∷ behind)
        × IsPermutation (bag map.new) (with_items ⟦<T as Ranked>⟧.ranks (bag map.old) before)) }
    ensures full { IfErr result (λ e. IsFullFor ⟦<T as Ranked>⟧.ranks map.new e.value) }
    ensures granted { length (bag map.old) + length items.items ≤ map.old.capacity → IsOk result }
    ensures room { GrowsUnless (length (bag map.old) + length items.items ≤ map.old.capacity) map.old map.new }
{
    map.extend(items)
}
