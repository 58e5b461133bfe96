//! The searches of each rank, for code that serves each of the hash maps.
ghost use Rattle.iddqd_store.specs.Rank.{key_hash};

use super::BiHashMap;
use crate::item::BiHashItem;
use crate::ranks::{First, Second};
use iddqd_store::{Costs, FindsBy, ItemIndex, Meter, Query, Searched};
use std::hash::{BuildHasher, Hash};

impl<T: BiHashItem, S: BuildHasher> FindsBy<First> for BiHashMap<T, S> {
    type Key = T::K1;

    ghost key = { T.key1 };

    ghost key_hash = { key_hash T.key1 T.K1.hash_input S.BuildHasher S.Hasher.Hasher };

    #[inline(always)]
    fn slot_by<Q: Query<T::K1>>(&self, query: Q, costs: &mut Costs) -> Option<(ItemIndex, u64)> {
        let hash = self.hash_builder.hash_one(query);
        match self.by_key1().search(hash, query, costs) {
            Searched::Found(slot) => Some((slot, hash)),
            Searched::Vacant(_) => None,
        }
    }

    #[inline(always)]
    fn remove_by(&mut self, slot: ItemIndex, hash: u64, meter: &mut Meter) -> T {
        self.remove_slot(slot, Some(hash), None, meter)
    }
}

impl<T: BiHashItem, S: BuildHasher> FindsBy<Second> for BiHashMap<T, S> {
    type Key = T::K2;

    ghost key = { T.key2 };

    ghost key_hash = { key_hash T.key2 T.K2.hash_input S.BuildHasher S.Hasher.Hasher };

    #[inline(always)]
    fn slot_by<Q: Query<T::K2>>(&self, query: Q, costs: &mut Costs) -> Option<(ItemIndex, u64)> {
        let hash = self.hash_builder.hash_one(query);
        match self.by_key2().search(hash, query, costs) {
            Searched::Found(slot) => Some((slot, hash)),
            Searched::Vacant(_) => None,
        }
    }

    #[inline(always)]
    fn remove_by(&mut self, slot: ItemIndex, hash: u64, meter: &mut Meter) -> T {
        self.remove_slot(slot, None, Some(hash), meter)
    }
}
