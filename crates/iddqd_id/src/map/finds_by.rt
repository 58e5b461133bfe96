//! The search by the key, for code that serves each of the hash maps.
//!
//! Written by hand; tests/one_key.patch says why.
ghost use Rattle.iddqd_store.specs.Rank.{key_hash};

use super::IdHashMap;
use crate::item::IdHashItem;
use crate::ranks::First;
use iddqd_store::{Costs, FindsBy, ItemIndex, Meter, Query, Searched};
use std::hash::{BuildHasher, Hash};

impl<T: IdHashItem, S: BuildHasher> FindsBy<First> for IdHashMap<T, S> {
    type Key = T::Key;

    ghost key = { T.key };

    ghost key_hash = { key_hash T.key T.Key.hash_input S.BuildHasher S.Hasher.Hasher };

    #[inline(always)]
    fn slot_by<Q: Query<T::Key>>(&self, query: Q, costs: &mut Costs) -> Option<(ItemIndex, u64)> {
        let hash = self.hash_builder.hash_one(query);
        match self.by_key().search(hash, query, costs) {
            Searched::Found(slot) => Some((slot, hash)),
            Searched::Vacant(_) => None,
        }
    }

    #[inline(always)]
    fn remove_by(&mut self, slot: ItemIndex, hash: u64, meter: &mut Meter) -> T {
        self.remove_slot(slot, Some(hash), meter)
    }
}
