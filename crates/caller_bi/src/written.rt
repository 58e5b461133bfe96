//! What a caller can prove of an entry after writing what it lends for one key: it still knows what it found.
ghost use Rattle.std.specs.Prelude.{◌≡◌, ◌∷◌, ◌++◌, None, Some, drop, IsPermutation};
ghost use Rattle.iddqd_bi.specs.Bag.{IsOnly, entry, is_unique, listing, swap};
ghost use Rattle.iddqd_bi.specs.Keys.{has1};
ghost use Rattle.iddqd_bi.specs.Map.{bag};

use iddqd_bi::{BiHashItemMut, BiHashMap, Entry, Ranked, UpToTwo};
use std::hash::{BuildHasher, Hash};

/// Writes the data of the item that has the first of two keys, if there is one, and then returns whether one item has
/// both keys.
pub fn write_and_ask1<'a, T: BiHashItemMut, S: BuildHasher>(
    map: &'a mut BiHashMap<T, S>,
    key1: &'a T::K1,
    key2: &'a T::K2,
    d: T::Data,
) -> bool
where
    T::Data: Drop,
    ensures present { (x : T) → IsOnly (has1 T.BiHashItem T.K1.eq key1.now) (bag map.old) (Some x)
        → IsPermutation (bag map.new) (swap ⟦<T as Ranked>⟧.ranks (bag map.old) x (T.put x d)) }
    ensures absent { IsOnly (has1 T.BiHashItem T.K1.eq key1.now) (bag map.old) None → map.new ≡ map.old }
    ensures one { result ≡ is_unique (entry (⟦<T as Ranked>⟧.key_tests key1.now key2.now) (bag map.old)) }
{
    match map.entry(key1, key2) {
        Entry::Vacant(_v) => return false,
        Entry::Occupied(mut found) => match found.data1_mut() {
            Some(data) => {
                *data = d;
                return found.is_unique();
            }
            None => return found.is_unique(),
        },
    }
}

/// Writes the data of the item that has the first of two keys, if there is one. Then it removes the items that have one of
/// the keys, and returns them.
pub fn write_and_remove1<'a, T: BiHashItemMut, S: BuildHasher>(
    map: &'a mut BiHashMap<T, S>,
    key1: &'a T::K1,
    key2: &'a T::K2,
    d: T::Data,
) -> UpToTwo<T>
where
    T::Data: Drop,
    // The item that was written is the first one, with the new data.
    ensures written { (x : T) → IsOnly (has1 T.BiHashItem T.K1.eq key1.now) (bag map.old) (Some x)
        → result ≡ T.put x d ∷ drop 1 (listing (⟦<T as Ranked>⟧.key_tests key1.now key2.now) (bag map.old)) }
    ensures left { (x : T) → IsOnly (has1 T.BiHashItem T.K1.eq key1.now) (bag map.old) (Some x)
        → IsPermutation (swap ⟦<T as Ranked>⟧.ranks (bag map.old) x (T.put x d)) (result ++ bag map.new) }
    ensures absent { IsOnly (has1 T.BiHashItem T.K1.eq key1.now) (bag map.old) None
        → (result ≡ listing (⟦<T as Ranked>⟧.key_tests key1.now key2.now) (bag map.old))
        × IsPermutation (bag map.old) (result ++ bag map.new) }
{
    match map.entry(key1, key2) {
        Entry::Vacant(_v) => return UpToTwo::new(),
        Entry::Occupied(mut found) => match found.data1_mut() {
            Some(lent) => {
                *lent = d;
                return found.remove();
            }
            None => return found.remove(),
        },
    }
}
