//! What a caller can do with the error of an insert.
ghost use Rattle.std.specs.Prelude.{◌≡◌, ◌≢◌, ◌∷◌, ◌<◌, ◌⊎◌, [], true, length, IsOk, IsPermutation, OnOk, OnErr, IfErr};
ghost use Rattle.std.specs.Bool.{OnTrue, OnFalse};
ghost use Rattle.iddqd_bi.specs.Bag.{conflicts_of, conflicting};
ghost use Rattle.iddqd_bi.specs.Map.{IsFullFor, bag};

use iddqd_bi::{BiHashMap, InsertError, InsertReason, Ranked};
use std::hash::{BuildHasher, Hash};

/// An item that was not added, and why.
#[derive(Drop)]
pub struct NotAdded<T> {
    pub item: T,
    pub reason: InsertReason,
}

/// Converts an `InsertError`, for `map_err` and `?`. The result has the item and the reason.
impl<T: Ranked, S: BuildHasher> From<InsertError<'_, T, S>> for NotAdded<T> {
    ghost use Rattle.iddqd_store.specs.declared.error.InsertReason.{InsertReason};

    ghost from_gives = { λ refusal e. (e.item ≡ refusal.item)
        × (e.reason ≡ InsertReason.Duplicate → conflicts_of T.ranks (bag refusal.map.now) refusal.item ≢ [])
        × (e.reason ≡ InsertReason.Memory → conflicts_of T.ranks (bag refusal.map.now) refusal.item ≡ []) };

    fn from(refusal: InsertError<'_, T, S>) -> NotAdded<T> {
        let reason = refusal.reason();
        NotAdded {
            item: refusal.into_item(),
            reason,
        }
    }
}

/// Inserts an item. The error has the item, and the reason.
pub fn add<T: Ranked, S: BuildHasher>(map: &mut BiHashMap<T, S>, item: T) -> Result<(), NotAdded<T>>
    ensures went_in { OnOk result (IsPermutation (bag map.new) (item ∷ bag map.old)) }
    ensures taken { IfErr result (λ e. e.reason ≡ InsertReason.Duplicate → conflicts_of T.ranks (bag map.old) item ≢ []) }
    ensures full { IfErr result (λ e. e.reason ≡ InsertReason.Memory → IsFullFor T.ranks map.old item) }
    ensures handed_back { IfErr result (λ e. e.item ≡ item) }
    ensures unchanged { OnErr result (map.new ≡ map.old) }
{
    match map.insert_unique(item) {
        Ok(()) => Ok(()),
        Err(refusal) => {
            let reason = refusal.reason();
            Err(NotAdded {
                item: refusal.into_item(),
                reason,
            })
        }
    }
}

/// Inserts an item, with an error made by `From`. After it nothing is known of the map.
pub fn add_by_from<T: Ranked, S: BuildHasher>(
    map: &mut BiHashMap<T, S>,
    item: T,
) -> Result<(), NotAdded<T>>
    ensures went_in { OnOk result (IsPermutation (bag map.new) (item ∷ bag map.old)) }
    ensures taken { IfErr result (λ e. e.reason ≡ InsertReason.Duplicate → conflicts_of T.ranks (bag map.old) item ≢ []) }
    ensures full { IfErr result (λ e. e.reason ≡ InsertReason.Memory → IsFullFor T.ranks map.old item) }
    ensures handed_back { IfErr result (λ e. e.item ≡ item) }
{
    match map.insert_unique(item) {
        Ok(()) => Ok(()),
        Err(refusal) => Err(NotAdded::from(refusal)),
    }
}

/// Inserts an item, with an error made by `map_err` and `?`, after which nothing is known of the map.
pub fn add_by_map_err<T: Ranked, S: BuildHasher>(
    map: &mut BiHashMap<T, S>,
    item: T,
) -> Result<(), NotAdded<T>>
    ensures taken { IfErr result (λ e. e.reason ≡ InsertReason.Duplicate → conflicts_of T.ranks (bag map.old) item ≢ []) }
    ensures full { IfErr result (λ e. e.reason ≡ InsertReason.Memory → IsFullFor T.ranks map.old item) }
    ensures handed_back { IfErr result (λ e. e.item ≡ item) }
{
    map.insert_unique(item).map_err(NotAdded::from)?;
    Ok(())
}

/// Inserts an item, or drops it if the insert fails. Returns whether it was inserted.
pub fn is_added<T: Ranked + Drop, S: BuildHasher>(map: &mut BiHashMap<T, S>, item: T) -> bool
    ensures went_in { OnTrue result (IsPermutation (bag map.new) (item ∷ bag map.old)) }
    ensures granted { conflicts_of T.ranks (bag map.old) item ≡ [] → length (bag map.old) < map.old.capacity → result ≡ true }
    ensures unchanged { OnFalse result (map.new ≡ map.old) }
{
    map.insert_unique(item).is_ok()
}

/// Inserts an item, or drops it, and returns how many items there are then. The map is used after the `match`.
pub fn add_and_count<T: Ranked + Drop, S: BuildHasher>(map: &mut BiHashMap<T, S>, item: T) -> usize
    ensures count { result ≡ length (bag map.new) }
    ensures went_in { conflicts_of T.ranks (bag map.old) item ≡ [] → length (bag map.old) < map.old.capacity
        → IsPermutation (bag map.new) (item ∷ bag map.old) }
    ensures one_at_most { IsPermutation (bag map.new) (item ∷ bag map.old) ⊎ (map.new ≡ map.old) }
    ensures unchanged { conflicts_of T.ranks (bag map.old) item ≢ [] → map.new ≡ map.old }
{
    match map.insert_unique(item) {
        Ok(()) => {}
        Err(refusal) => drop(refusal),
    }
    map.len()
}

/// Inserts an item. The error has the item, and how many items of the map conflict with it. The map's error is kept
/// while they are counted.
pub fn add_or_count<T: Ranked + Drop, S: BuildHasher>(
    map: &mut BiHashMap<T, S>,
    item: T,
) -> Result<(), (T, usize)>
    ensures went_in { OnOk result (IsPermutation (bag map.new) (item ∷ bag map.old)) }
    ensures granted { conflicts_of T.ranks (bag map.old) item ≡ [] → length (bag map.old) < map.old.capacity → IsOk result }
    ensures count { IfErr result (λ e. e.1 ≡ length (conflicting T.ranks (bag map.old) item)) }
    ensures back { IfErr result (λ e. e.0 ≡ item) }
    ensures unchanged { OnErr result (map.new ≡ map.old) }
{
    match map.insert_unique(item) {
        Ok(()) => Ok(()),
        Err(refusal) => {
            let count = refusal.duplicates().len();
            Err((refusal.into_item(), count))
        }
    }
}
