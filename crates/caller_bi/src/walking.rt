//! What a caller can prove of a map after iterating over it for writing.
ghost use Rattle.std.specs.Prelude.{◌≡◌, ◌⊎◌, ◌-◌, [], ◌∷◌, List, IsPermutation, length};
ghost use Rattle.std.specs.Prelude.{map as each};
ghost use Rattle.std.specs.Bool.{OnTrue, OnFalse};
ghost use Rattle.iddqd_bi.specs.Map.{bag};

use iddqd_bi::{BiHashItem, BiHashItemMut, BiHashMap, Cursor};
use std::hash::{BuildHasher, Hash};

/// Writes the same data into every item.
pub fn write_all<T: BiHashItemMut, S: BuildHasher>(map: &mut BiHashMap<T, S>, d: T::Data)
where
    T::Data: Drop + Copy,
    ensures { IsPermutation (bag map.new) (each (λ x. T.put x d) (bag map.old)) }
{
    let mut at = Cursor::new();
    while let Some(mut item) = map.next_from(&mut at) {
        *item.data_mut() = d;
    }
}

/// Writes the data of the first item of an iteration, and returns whether there is one.
pub fn write_first<T: BiHashItemMut, S: BuildHasher>(map: &mut BiHashMap<T, S>, d: T::Data) -> bool
where
    T::Data: Drop,
    ensures some { OnTrue result ((x : T) × (rest : List T) × (bag map.old ≡ x ∷ rest)
        × (bag map.new ≡ T.put x d ∷ rest)) }
    ensures none { OnFalse result ((bag map.old ≡ []) × (bag map.new ≡ [])) }
{
    let mut walk = map.iter_mut();
    if let Some(data) = walk.next_data() {
        *data = d;
        return true;
    }
    return false;
}

/// Writes the data of the first item of an iteration, and returns how many are left after it. No slot is read to count
/// them.
pub fn write_first_and_count<T: BiHashItemMut, S: BuildHasher>(
    map: &mut BiHashMap<T, S>,
    d: T::Data,
) -> usize
where
    T::Data: Drop,
    ensures count { result ≡ length (bag map.old) - 1 }
    ensures written { ((bag map.old ≡ []) × (bag map.new ≡ []))
        ⊎ ((x : T) × (rest : List T) × (bag map.old ≡ x ∷ rest) × (bag map.new ≡ T.put x d ∷ rest)) }
{
    let mut walk = map.iter_mut();
    if let Some(first) = walk.next_data() {
        *first = d;
        return walk.len();
    }
    return 0;
}

/// Returns how many items an iteration for writing has left before its first step. The iteration is then dropped by a
/// call of `drop`, and the map is as it was.
pub fn count_by_walk<T: BiHashItem, S: BuildHasher>(map: &mut BiHashMap<T, S>) -> usize
    ensures count { result ≡ length (bag map.old) }
    ensures unchanged { map.new ≡ map.old }
{
    let walk = map.iter_mut();
    let count = walk.len();
    drop(walk);
    count
}
