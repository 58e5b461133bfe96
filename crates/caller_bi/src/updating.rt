//! What a caller can prove of a map after updates by closures.
ghost use Rattle.std.specs.Prelude.{◌≡◌, ◌==◌, ◌<◌, ◌+◌, ◌-◌, ◌^◌, true, false, if◌then◌else◌, map, filter_map, None, Some, All, IsPermutation};
ghost use Rattle.std.specs.List.{list_any};
ghost use Rattle.std.specs.Option.{option_map};
ghost use Rattle.iddqd_bi.specs.Bag.{IsOnly, swap};
ghost use Rattle.iddqd_bi.specs.Keys.{has1};
ghost use Rattle.iddqd_bi.specs.Map.{bag};

use crate::items::File;
use iddqd_bi::{BiHashItem, BiHashItemMut, BiHashMap, Query, Ranked};
use std::hash::{BuildHasher, Hash};

/// Counts one more opening of the file with this number, and returns whether there is such a file. The count of the
/// file must be below the largest number of its type.
pub fn note_opened(files: &mut BiHashMap<File>, number: u64) -> bool
    requires { (f : File) → IsOnly (λ f. number == f.number) (bag files.old) (Some f) → f.opened + 1 < 2 ^ 64 }
    ensures found { result ≡ list_any (λ f. number == f.number) (bag files.old) }
    ensures counted { result ≡ true → (f : File) × IsOnly (λ f. number == f.number) (bag files.old) (Some f)
        × IsPermutation (bag files.new)
        (swap ⟦<File as Ranked>⟧.ranks (bag files.old) f (record f { opened = f.opened + 1 })) }
    ensures absent { result ≡ false → files.new ≡ files.old }
{
    files.update1(&number, |file| file.opened + 1)
}

/// Counts one more opening of every file. No count may be the largest number of its type.
pub fn note_all_opened(files: &mut BiHashMap<File>)
    requires { All (λ f. f.opened + 1 < 2 ^ 64) (bag files.old) }
    ensures { IsPermutation (bag files.new) (map (λ (f : File). record f { opened = f.opened + 1 }) (bag files.old)) }
{
    files.update_all(|f| f.opened + 1);
}

/// Takes back one opening of every file, and drops the files that were never opened.
pub fn take_back_openings(files: &mut BiHashMap<File>)
    ensures { IsPermutation (bag files.new) (filter_map
        (λ (f : File). option_map (λ n. record f { opened = n }) (if f.opened == 0 then None else Some (f.opened - 1)))
        (bag files.old)) }
{
    files.retain_mut(|f| {
        if f.opened == 0 {
            None
        } else {
            Some(f.opened - 1)
        }
    });
}

/// Stores this data in every item.
pub fn set_all<T: BiHashItemMut, S: BuildHasher>(items: &mut BiHashMap<T, S>, d: T::Data)
where
    T::Data: Drop + Copy,
    ensures { IsPermutation (bag items.new) (map (λ x. T.put x d) (bag items.old)) }
{
    items.update_all(|_x| d);
}

/// Stores this data in the item with the first key that the query stands for, and returns whether there is one.
pub fn set1<T: BiHashItemMut, S: BuildHasher, Q: Query<T::K1>>(
    items: &mut BiHashMap<T, S>,
    query: Q,
    d: T::Data,
) -> bool
where
    T::Data: Drop,
    ensures found { result ≡ list_any (has1 T.BiHashItem Q.stands_for query) (bag items.old) }
    ensures present { result ≡ true → (x : T) × IsOnly (has1 T.BiHashItem Q.stands_for query) (bag items.old) (Some x)
        × IsPermutation (bag items.new) (swap ⟦<T as Ranked>⟧.ranks (bag items.old) x (T.put x d)) }
    ensures absent { result ≡ false → items.new ≡ items.old }
{
    items.update1(query, |_x| d)
}
