//! What a caller can prove of a map after writing an item.
ghost use Rattle.std.specs.Prelude.{◌≡◌, Some, None, IsOk, IsPermutation, IfOk, IfErr, OnErr, true, false};
ghost use Rattle.std.specs.List.{list_any};
ghost use Rattle.iddqd_bi.specs.Bag.{IsOnly, first_mismatch, tests_of, swap};
ghost use Rattle.iddqd_bi.specs.Map.{bag};
ghost use Rattle.iddqd_bi.specs.Keys.{has1};

use iddqd_bi::{BiHashItem, BiHashItemMut, BiHashMap, Query, Ranked};
use std::hash::{BuildHasher, Hash};

/// Writes the data of the item with this first key, if there is one.
pub fn write1<T: BiHashItemMut, S: BuildHasher>(map: &mut BiHashMap<T, S>, key: &T::K1, d: T::Data)
where
    T::Data: Drop,
    ensures present { (x : T) → IsOnly (has1 T.BiHashItem T.K1.eq key.now) (bag map.old) (Some x)
        → IsPermutation (bag map.new) (swap ⟦<T as Ranked>⟧.ranks (bag map.old) x (T.put x d)) }
    ensures absent { IsOnly (has1 T.BiHashItem T.K1.eq key.now) (bag map.old) None → map.new ≡ map.old }
{
    if let Some(mut item) = map.get1_mut(key) {
        *item.data_mut() = d;
    }
}

/// Writes the data of the item with this first key twice, if there is one. The last write counts.
pub fn write1_twice<T: BiHashItemMut, S: BuildHasher>(
    map: &mut BiHashMap<T, S>,
    key: &T::K1,
    first: T::Data,
    last: T::Data,
)
where
    T::Data: Drop,
    ensures present { (x : T) → IsOnly (has1 T.BiHashItem T.K1.eq key.now) (bag map.old) (Some x)
        → IsPermutation (bag map.new)
        (swap ⟦<T as Ranked>⟧.ranks (bag map.old) x (T.put (T.put x first) last)) }
    ensures absent { IsOnly (has1 T.BiHashItem T.K1.eq key.now) (bag map.old) None → map.new ≡ map.old }
{
    if let Some(mut item) = map.get1_mut(key) {
        *item.data_mut() = first;
        *item.data_mut() = last;
    }
}

/// Writes the data of the item with this first key through a guard that is borrowed again.
pub fn write1_again<T: BiHashItemMut, S: BuildHasher, Q: Query<T::K1>>(
    map: &mut BiHashMap<T, S>,
    query: Q,
    d: T::Data,
)
where
    T::Data: Drop,
    ensures present { (x : T) → IsOnly (has1 T.BiHashItem Q.stands_for query) (bag map.old) (Some x)
        → IsPermutation (bag map.new) (swap ⟦<T as Ranked>⟧.ranks (bag map.old) x (T.put x d)) }
    ensures absent { IsOnly (has1 T.BiHashItem Q.stands_for query) (bag map.old) None → map.new ≡ map.old }
{
    if let Some(mut item) = map.get1_mut(query) {
        *item.reborrow().data_mut() = d;
    }
}

/// Replaces the item with this first key by one with equal keys, and returns it. If there is no such item, or if its
/// keys are not equal, the error is the new item.
pub fn replace1<T: BiHashItem, S: BuildHasher>(
    map: &mut BiHashMap<T, S>,
    key: &T::K1,
    item: T,
) -> Result<T, T>
    ensures replaced { IfOk result (λ x. IsPermutation (bag map.new)
        (swap ⟦<T as Ranked>⟧.ranks (bag map.old) x item)) }
    ensures only { IfOk result (λ x. IsOnly (has1 T.BiHashItem T.K1.eq key.now) (bag map.old) (Some x)) }
    ensures granted { (x : T) → IsOnly (has1 T.BiHashItem T.K1.eq key.now) (bag map.old) (Some x)
        → first_mismatch (tests_of ⟦<T as Ranked>⟧.ranks x) item ≡ None → IsOk result }
    ensures unchanged { OnErr result (map.new ≡ map.old) }
    ensures handed_back { IfErr result (λ x. x ≡ item) }
{
    match map.get1_mut(key) {
        Some(mut found) => match found.replace(item) {
            Ok(old) => return Ok(old),
            Err(refused) => return Err(refused.into_item()),
        },
        None => return Err(item),
    }
}

/// Returns whether an item has this first key, by the call that borrows it for writing. The guard is dropped at once,
/// and the map is as it was.
pub fn is_lent1<T: BiHashItem, S: BuildHasher>(map: &mut BiHashMap<T, S>, key: &T::K1) -> bool
    ensures is { result ≡ list_any (has1 T.BiHashItem T.K1.eq key.now) (bag map.old) }
    ensures unchanged { map.new ≡ map.old }
{
    map.get1_mut(key).is_some()
}

/// Writes the data of the item with this first key, and returns whether there is one. It calls `drop` of the guard.
pub fn write1_and_tell<T: BiHashItemMut, S: BuildHasher>(
    map: &mut BiHashMap<T, S>,
    key: &T::K1,
    d: T::Data,
) -> bool
where
    T::Data: Drop,
    ensures present { (x : T) → IsOnly (has1 T.BiHashItem T.K1.eq key.now) (bag map.old) (Some x)
        → (result ≡ true) × IsPermutation (bag map.new) (swap ⟦<T as Ranked>⟧.ranks (bag map.old) x (T.put x d)) }
    ensures absent { IsOnly (has1 T.BiHashItem T.K1.eq key.now) (bag map.old) None
        → (result ≡ false) × (map.new ≡ map.old) }
{
    if let Some(mut lent) = map.get1_mut(key) {
        *lent.data_mut() = d;
        drop(lent);
        return true;
    }
    return false;
}
