//! Replacing an item by another, whatever their keys are.
//!
//! Made by tests/widths from crates/iddqd_bi/src/map/rekey.rt: change that file.
ghost use Rattle.std.specs.Prelude.{◌≡◌, map, Some, IfOk, IfErr, OnErr};
ghost use Rattle.iddqd_store.specs.Bag.{IsOnly};
ghost use Rattle.iddqd_store.specs.Map.{bag, hash_of};
ghost use Rattle.iddqd_store.specs.Rank.All.{hashes_of};
ghost use Rattle.iddqd_id.specs.Keys.{has};
ghost use Rattle.iddqd_id.specs.Rekeyed.{PutsInPlace, RekeyingCosts, TellsWhyNot, refused_item};

use super::IdHashMap;
use crate::error::NotReplaced;
use crate::item::{Hashed, Ranked};
use iddqd_store::{Costs, Query};
use std::hash::{BuildHasher, Hash};

impl<T: Ranked, S: BuildHasher> IdHashMap<T, S> {
    /// Puts an item in the place of the one with the key that the query stands for, and returns the latter. The new
    /// item may have other keys. The error has the new item, and the map is as it was: `Absent` if no item has the key
    /// asked for, and `Duplicate` if some other item conflicts with the new one.
    ///
    /// The call hashes the query and searches for it once, and hashes the key of the new item and searches for it once.
    /// It also hashes the key of the old item, if the new one has another. It allocates no memory, and the
    /// capacity stays.
    ///
    /// `match map.rekey(&key, item) { Ok(old) => drop(old), Err(e) => keep_for_later(e.into_item()) }`
    pub fn rekey<Q: Query<T::Key>>(&mut self, query: Q, item: T) -> Result<T, NotReplaced<T>>
        // The item with that key is returned, and the new one is in its place.
        ensures found { IfOk result (λ x. IsOnly (has T.IdHashItem Q.stands_for query) (bag self.old) (Some x)) }
        ensures puts { IfOk result (λ x. PutsInPlace self.old x item self.new) }
        // The error has the new item, and says which of the two cases it is. The map is as it was.
        ensures handed_back { IfErr result (λ e. refused_item e ≡ item) }
        ensures unchanged { OnErr result (self.new ≡ self.old) }
        ensures reason { IfErr result (λ e. TellsWhyNot T.ranks
            (has T.IdHashItem Q.stands_for query) (bag self.old) item e) }
    {
        self.rekey_counted(query, item, &mut Costs::new())
    }

    /// Replaces as `rekey` does, which calls it, and counts its costs: those of a search by the query and, if it finds
    /// an item, those of `rekey_at`.
    #[inline(always)]
    fn rekey_counted<Q: Query<T::Key>>(
        &mut self,
        query: Q,
        item: T,
        costs: &mut Costs,
    ) -> Result<T, NotReplaced<T>>
        // The item with that key is returned, and the new one is in its place.
        ensures found { IfOk result (λ x. IsOnly (has T.IdHashItem Q.stands_for query) (bag self.old) (Some x)) }
        ensures puts { IfOk result (λ x. PutsInPlace self.old x item self.new) }
        // The error has the new item, and says which of the two cases it is. The map is as it was.
        ensures handed_back { IfErr result (λ e. refused_item e ≡ item) }
        ensures unchanged { OnErr result (self.new ≡ self.old) }
        ensures reason { IfErr result (λ e. TellsWhyNot T.ranks
            (has T.IdHashItem Q.stands_for query) (bag self.old) item e) }
        ensures costs { RekeyingCosts (⟦<T as Hashed<S>>⟧.hash self.old.builder)
            (⟦<T as Hashed<S>>⟧.hashes self.old.builder) (bag self.old) self.old.capacity
            (hash_of S.BuildHasher S.Hasher.Hasher self.old.builder (Q.hash_input query))
            (hashes_of (⟦<T as Hashed<S>>⟧.hashes self.old.builder) item) (map (λ _. 2) T.ranks) result
            costs.old costs.new }
    {
        let Some(slot) = self.slot_of(query, costs) else {
            return Err(NotReplaced::Absent(item));
        };
        match self.rekey_at(slot, item, costs) {
            Ok(old) => Ok(old),
            Err(new_item) => Err(NotReplaced::Duplicate(new_item)),
        }
    }
}
