//! Cloning a map.
//!
//! Made by tests/widths from crates/iddqd_bi/src/map/clone.rt: change that file.
ghost use Rattle.std.specs.Prelude.{◌≡◌, ◌≤◌, length, true, Contains, IfOk};
ghost use Rattle.std.specs.Hash.{HashWrites};
ghost use Rattle.std.specs.List.{AllZip};
ghost use Rattle.iddqd_store.specs.Bag.{IsCopy};
ghost use Rattle.iddqd_store.specs.Map.{bag, hash_of};
ghost use Rattle.iddqd_store.specs.Rank.{agree};
ghost use Rattle.iddqd_store.specs.Slots.{IsSlotClone};

use super::TriHashMap;
use crate::item::TriHashItem;
use iddqd_store::TryReserveError;
use std::hash::{BuildHasher, Hash};
use std::marker::PhantomData;

impl<T: TriHashItem + Clone, S: BuildHasher + Clone> TriHashMap<T, S> {
    /// Returns a map with a clone of each item and of the builder. The call fails if an allocation fails, or if a clone
    /// does.
    ///
    /// The clone's tables have as many cells as this map's. After a growth that failed they may be larger than the
    /// capacity says (`reserve`), so the clone of an empty map of capacity 0 may need memory too.
    ///
    /// A clone of an item must have equal keys, and the clone of the builder must make the same hashes. The call
    /// compares and hashes no key.
    pub fn clone(&self) -> Result<Self, TryReserveError>
        // A clone of an item has equal keys, and the clone of the builder makes the same hashes.
        requires same_key1 { (x c : T) → Contains (bag self.now) x → T.is_clone x c → agree T.key1 T.K1.eq x c ≡ true }
        requires same_key2 { (x c : T) → Contains (bag self.now) x → T.is_clone x c → agree T.key2 T.K2.eq x c ≡ true }
        requires same_key3 { (x c : T) → Contains (bag self.now) x → T.is_clone x c → agree T.key3 T.K3.eq x c ≡ true }
        requires same_hashes { (s : S) (writes : HashWrites) → S.is_clone self.now.builder s
            → hash_of S.BuildHasher S.Hasher.Hasher s writes
            ≡ hash_of S.BuildHasher S.Hasher.Hasher self.now.builder writes }
        // The copy has a clone of each item, and they fit.
        ensures items { IfOk result (λ copy. IsCopy T.is_clone (bag self.now) (bag copy)) }
        ensures fits { IfOk result (λ copy. length (bag copy) ≤ copy.capacity) }
        ensures builder { IfOk result (λ copy. S.is_clone self.now.builder copy.builder) }
    {
        self.copied()
    }

    /// Returns a map with a clone of each item, in the same slot, and of the builder.
    pub(crate) fn copied(&self) -> Result<Self, TryReserveError>
        // A clone of an item has equal keys, and the clone of the builder makes the same hashes.
        requires same_key1 { (x c : T) → Contains (bag self.now) x → T.is_clone x c → agree T.key1 T.K1.eq x c ≡ true }
        requires same_key2 { (x c : T) → Contains (bag self.now) x → T.is_clone x c → agree T.key2 T.K2.eq x c ≡ true }
        requires same_key3 { (x c : T) → Contains (bag self.now) x → T.is_clone x c → agree T.key3 T.K3.eq x c ≡ true }
        requires same_hashes { (s : S) (writes : HashWrites) → S.is_clone self.now.builder s
            → hash_of S.BuildHasher S.Hasher.Hasher s writes
            ≡ hash_of S.BuildHasher S.Hasher.Hasher self.now.builder writes }
        ensures slots { IfOk result (λ copy. AllZip (IsSlotClone T.is_clone) self.now.slots copy.slots) }
        ensures items { IfOk result (λ copy. IsCopy T.is_clone (bag self.now) (bag copy)) }
        ensures fits { IfOk result (λ copy. length (bag copy) ≤ copy.capacity) }
        ensures builder { IfOk result (λ copy. S.is_clone self.now.builder copy.builder) }
    {
        let hash_builder = self.hash_builder.clone()?;
        let first = self.first.clone()?;
        let second = self.second.clone()?;
        let third = self.third.clone()?;
        let copy = TriHashMap {
            items: self.items.clone()?,
            first,
            second,
            third,
            hash_builder,
            key_types: PhantomData,
        };
        // This call gives the prover the fact that the items fit, for the clause `fits`.
        let _ = copy.capacity();
        Ok(copy)
    }
}
