//! Equality of maps.
//!
//! Made by tests/widths from crates/iddqd_bi/src/map/compare.rt: change that file.
ghost use Rattle.std.specs.Prelude.{◌≡◌, ◌↔◌};
ghost use Rattle.std.specs.Bool.{IsTrue};
ghost use Rattle.std.specs.List.{list_any};
ghost use Rattle.iddqd_store.specs.Bag.{IsSameBag, is_same, same_item};
ghost use Rattle.iddqd_store.specs.Map.{bag, hash_of};
ghost use Rattle.iddqd_store.specs.Rank.All.{UniqueCosts};
ghost use Rattle.iddqd_store.proofs.BagLemmas.SameTest.{is_same-partial, is_same-equivalence};
ghost use Rattle.std.specs.Cmp.{on_per, on_equiv};
ghost use Rattle.iddqd_id.specs.Keys.{ranks};
ghost use Rattle.iddqd_store.proofs.MapLemmas.{IsEquivalence-key};

use super::IdHashMap;
use crate::item::{Hashed, IdHashItem};
use iddqd_store::Costs;
use std::hash::{BuildHasher, Hash};

/// Two maps are equal if and only if their items pair off, so that the items of each pair agree in the key and are
/// equal by `==`. It does not matter how the maps were made, what their capacity is, or what state their builders are
/// in.
///
/// There is at most one search for each item of the left map, by its key.
impl<T: IdHashItem + PartialEq, S: BuildHasher> PartialEq for IdHashMap<T, S> {
    ghost eq = { λ m n. is_same (ranks T.IdHashItem T.Key.eq) T.eq (bag m) (bag n) };

    ghost laws = { on_per bag (is_same-partial (ranks T.IdHashItem T.Key.eq) T.eq
        (IsEquivalence-key T.Key.eq T.key T.Key.Eq.laws, tt) T.laws) };

    fn eq(&self, other: &Self) -> bool
        ensures eq { result ≡ is_same (ranks T.IdHashItem T.Key.eq) T.eq (bag self.now) (bag other.now) }
        ensures same { IsTrue result
            ↔ IsSameBag (ranks T.IdHashItem T.Key.eq) T.eq (bag self.now) (bag other.now) }
    {
        if self.len() != other.len() {
            return false;
        }
        for item in self {
            if !other.has_partner(item, &mut Costs::new()) {
                return false;
            }
        }
        true
    }
}

impl<T: IdHashItem + Eq, S: BuildHasher> Eq for IdHashMap<T, S> {
    ghost laws = { on_equiv bag (is_same-equivalence (ranks T.IdHashItem T.Key.eq) T.eq
        (IsEquivalence-key T.Key.eq T.key T.Key.Eq.laws, tt)
        T.Eq.laws) };
}

impl<T: IdHashItem + PartialEq, S: BuildHasher> IdHashMap<T, S> {
    /// Returns whether an item of the map agrees with this one in the key and is equal to it by `==`. The keys
    /// that `==` of two items compares are not counted.
    fn has_partner(&self, item: &T, costs: &mut Costs) -> bool
        ensures value { result ≡ list_any (same_item (ranks T.IdHashItem T.Key.eq) T.eq item.now) (bag self.now) }
        ensures costs { UniqueCosts (⟦<T as Hashed<S>>⟧.hash self.now.builder) (bag self.now) self.now.capacity
            (hash_of S.BuildHasher S.Hasher.Hasher self.now.builder (T.Key.hash_input (T.key item.now)))
            0 costs.old costs.new }
    {
        match self.item_of(self.slot_of(item.key(), costs)) {
            Some(found) => item == found,
            None => false,
        }
    }
}
