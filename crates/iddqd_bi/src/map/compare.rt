//! Equality of maps.
ghost use Rattle.std.specs.Prelude.{◌≡◌, ◌↔◌};
ghost use Rattle.std.specs.Bool.{IsTrue};
ghost use Rattle.std.specs.List.{list_any};
ghost use Rattle.iddqd_store.specs.Bag.{IsSameBag, is_same, same_item};
ghost use Rattle.iddqd_store.specs.Map.{bag, hash_of};
ghost use Rattle.iddqd_store.specs.Rank.All.{UniqueCosts};
ghost use Rattle.iddqd_store.proofs.BagLemmas.SameTest.{is_same-partial, is_same-equivalence};
ghost use Rattle.std.specs.Cmp.{on_per, on_equiv};
ghost use Rattle.iddqd_bi.specs.Keys.{ranks};
ghost use Rattle.iddqd_store.proofs.MapLemmas.{IsEquivalence-key};

use super::BiHashMap;
use super::slots::found::has_others;
use crate::item::{BiHashItem, Hashed};
use iddqd_store::Costs;
use std::hash::{BuildHasher, Hash};

/// Two maps are equal if and only if their items pair off, so that the items of each pair agree in both keys and are
/// equal by `==`. It does not matter how the maps were made, what their capacity is, or what state their builders are
/// in.
///
/// There is at most one search for each item of the left map, by its first key.
impl<T: BiHashItem + PartialEq, S: BuildHasher> PartialEq for BiHashMap<T, S> {
    ghost eq = { λ m n. is_same (ranks T.BiHashItem T.K1.eq T.K2.eq) T.eq (bag m) (bag n) };

    ghost laws = { on_per bag (is_same-partial (ranks T.BiHashItem T.K1.eq T.K2.eq) T.eq
        (IsEquivalence-key T.K1.eq T.key1 T.K1.Eq.laws, (IsEquivalence-key T.K2.eq T.key2 T.K2.Eq.laws, tt)) T.laws) };

    fn eq(&self, other: &Self) -> bool
        ensures eq { result ≡ is_same (ranks T.BiHashItem T.K1.eq T.K2.eq) T.eq (bag self.now) (bag other.now) }
        ensures same { IsTrue result
            ↔ IsSameBag (ranks T.BiHashItem T.K1.eq T.K2.eq) T.eq (bag self.now) (bag other.now) }
    {
        if self.len() != other.len() {
            return false;
        }
        for item in self {
            if !other.has_partner(item, &mut Costs::new()) {
                return false;
            }
        }
        true
    }
}

impl<T: BiHashItem + Eq, S: BuildHasher> Eq for BiHashMap<T, S> {
    ghost laws = { on_equiv bag (is_same-equivalence (ranks T.BiHashItem T.K1.eq T.K2.eq) T.eq
        (IsEquivalence-key T.K1.eq T.key1 T.K1.Eq.laws, (IsEquivalence-key T.K2.eq T.key2 T.K2.Eq.laws, tt))
        T.Eq.laws) };
}

impl<T: BiHashItem + PartialEq, S: BuildHasher> BiHashMap<T, S> {
    /// Returns whether an item of the map agrees with this one in both keys and is equal to it by `==`. The keys
    /// that `==` of two items compares are not counted.
    fn has_partner(&self, item: &T, costs: &mut Costs) -> bool
        ensures value { result ≡ list_any (same_item (ranks T.BiHashItem T.K1.eq T.K2.eq) T.eq item.now) (bag self.now) }
        ensures costs { UniqueCosts (⟦<T as Hashed<S>>⟧.hash1 self.now.builder) (bag self.now) self.now.capacity
            (hash_of S.BuildHasher S.Hasher.Hasher self.now.builder (T.K1.hash_input (T.key1 item.now)))
            1 costs.old costs.new }
    {
        match self.item_of(self.slot1_of(item.key1(), costs)) {
            Some(found) => has_others(found, item.key2(), costs) && item == found,
            None => false,
        }
    }
}
