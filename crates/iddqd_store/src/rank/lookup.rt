//! Searches for an item by one rank.
ghost use Rattle.std.specs.Prelude.{Contains, ◌≡◌, option_copied};
ghost use Rattle.std.specs.Option.{option_and_then};
ghost use Rattle.iddqd_store.specs.Bag.{IsOnly};
ghost use Rattle.iddqd_store.specs.Map.{bag, hash_of};
ghost use Rattle.iddqd_store.specs.Rank.Index.{HasHash};
ghost use Rattle.iddqd_store.specs.Rank.Search.{IsSearch};
ghost use Rattle.iddqd_store.specs.Searched.{found_of, IfFound, IfVacant};
ghost use Rattle.iddqd_store.specs.Slots.Found.{FoundAt};
ghost use Rattle.iddqd_store.specs.Slots.{get, IsLive};
ghost use Rattle.iddqd_store.specs.Rank.{agree, IsVacantFor, NamesOneByHash, SearchCosts, IsSearchable};
ghost use Rattle.iddqd_store.specs.Table.Limit.{capacity_of};

use super::matchers::{ByKey, ByQuery};
use super::{HashedKey, KeyOf};
use crate::index_table::{Costs, IndexTable, KeyMatcher, Meter, Searched, Vacancy};
use crate::item_set::{ItemIndex, ItemSet};
use crate::query::Query;
use std::hash::{BuildHasher, Hash};
use std::marker::{Model, PhantomData};

mod differing;

/// The slots of a map and the table of one rank, borrowed: what a search by that rank reads.
#[derive(Drop)]
pub struct Lookup<'a, T, R: KeyOf<T>, S: BuildHasher> {
    items: &'a ItemSet<T>,
    table: &'a IndexTable,
    hash_builder: &'a S,
    rank: PhantomData<R>,
}

impl<'a, T, R: KeyOf<T>, S: BuildHasher> Model for Lookup<'a, T, R, S> {
    ghost use Rattle.iddqd_store.specs.Map.{Map, map_code};
    ghost use Rattle.iddqd_store.specs.Rank.{agree, key_hash, IsSearchable};

    ghost Value = { Map T S };

    ghost coded = { map_code T.code S.code };

    ghost view = { λ l. record {
      slots = l.items.now.slots;
      capacity = l.table.now.limit;
      builder = l.hash_builder.now;
    } };

    ghost invariant = { λ l. IsSearchable (agree R.key R.Key.eq)
        (key_hash R.key R.Key.hash_input S.BuildHasher S.Hasher.Hasher l.hash_builder.now)
        l.items.now.slots l.table.now.pairs };
}

impl<'a, T, R: KeyOf<T>, S: BuildHasher> Lookup<'a, T, R, S> {
    /// Makes a lookup of the slots, of a table that indexes them by the keys of the rank, and of the builder of the
    /// hashers.
    pub fn new(items: &'a ItemSet<T>, table: &'a IndexTable, hash_builder: &'a S) -> Self
        requires { IsSearchable (agree R.key R.Key.eq) (⟦<R as HashedKey<T, S>>⟧.hash hash_builder.now)
            items.now.slots table.now.pairs }
        ensures { result ≡ record { slots = items.now.slots; capacity = table.now.limit; builder = hash_builder.now } }
    {
        Lookup {
            items,
            table,
            hash_builder,
            rank: PhantomData,
        }
    }

    /// Returns the slot of the item whose key the query stands for, or `None`.
    pub fn slot_of<Q: Query<R::Key>>(&self, query: Q, costs: &mut Costs) -> Option<ItemIndex>
        ensures found { FoundAt (λ x. Q.stands_for query (R.key x)) self.now.slots result }
        ensures costs { SearchCosts (⟦<R as HashedKey<T, S>>⟧.hash self.now.builder) (bag self.now) self.now.capacity
            (hash_of S.BuildHasher S.Hasher.Hasher self.now.builder (Q.hash_input query)) result
            costs.old.asked costs.new.asked costs.old.probed costs.new.probed }
    {
        let hash = self.hash_builder.hash_one(query);
        self.search(hash, query, costs).found()
    }

    /// Returns the item whose key the matcher accepts, or `None`. All keys that it accepts have to be equal, and to
    /// have this hash. It is asked only about keys that have this hash.
    pub fn find_with<M: KeyMatcher<R::Key>>(
        &self,
        hash: u64,
        matcher: &mut M,
        meter: &mut Meter,
    ) -> Option<&'a T>
        requires names { NamesOneByHash (agree R.key R.Key.eq) (⟦<R as HashedKey<T, S>>⟧.hash self.now.builder) hash
            (λ x. M.accepts matcher.old (R.key x)) (bag self.now) }
        requires asks { (x : T) → Contains (bag self.now) x → ⟦<R as HashedKey<T, S>>⟧.hash self.now.builder x ≡ hash
            → M.MayAsk matcher.old (R.key x) }
        ensures found { IsOnly (λ x. M.accepts matcher.old (R.key x)) (bag self.now) (option_copied result) }
        ensures is_kept { M.IsKept matcher.old matcher.new }
        ensures costs { SearchCosts (⟦<R as HashedKey<T, S>>⟧.hash self.now.builder) (bag self.now)
            self.now.capacity hash result (M.asked matcher.old) (M.asked matcher.new) meter.old meter.new }
    {
        match self.search_with(hash, matcher, meter) {
            Searched::Found(slot) => self.items.get(slot),
            Searched::Vacant(_) => None,
        }
    }

    /// Returns the slot of the item whose key the query stands for. If there is none, it returns the empty cell for a
    /// pair with this hash, or `Vacancy::unknown` if the table has no cells. The hash has to be that of the query.
    /// This call makes the matcher of the query, so that clauses of its callers speak of queries alone.
    #[inline(always)]
    pub fn search<Q: Query<R::Key>>(
        &self,
        hash: u64,
        query: Q,
        costs: &mut Costs,
    ) -> Searched<ItemIndex, Vacancy>
        requires { hash ≡ hash_of S.BuildHasher S.Hasher.Hasher self.now.builder (Q.hash_input query) }
        ensures { IsSearch (⟦<R as HashedKey<T, S>>⟧.hash self.now.builder) self.now.slots self.now.capacity hash
            (λ x. Q.stands_for query (R.key x)) result costs.old costs.new }
    {
        let Costs { asked, probed } = costs;
        self.search_with(hash, &mut ByQuery::new(&query, asked), probed)
    }

    /// Returns the slot of the item whose key the matcher accepts. If there is none, it returns the empty cell for a
    /// pair with this hash, or `Vacancy::unknown` if the table has no cells. All other searches of a rank call this one.
    #[inline(always)]
    pub fn search_with<M: KeyMatcher<R::Key>>(
        &self,
        hash: u64,
        matcher: &mut M,
        meter: &mut Meter,
    ) -> Searched<ItemIndex, Vacancy>
        requires names { NamesOneByHash (agree R.key R.Key.eq) (⟦<R as HashedKey<T, S>>⟧.hash self.now.builder) hash
            (λ x. M.accepts matcher.old (R.key x)) (bag self.now) }
        requires asks { (x : T) → Contains (bag self.now) x → ⟦<R as HashedKey<T, S>>⟧.hash self.now.builder x ≡ hash
            → M.MayAsk matcher.old (R.key x) }
        ensures found { IsOnly (λ x. M.accepts matcher.old (R.key x)) (bag self.now)
            (option_and_then (get self.now.slots) (found_of result)) }
        ensures live { IfFound result (IsLive self.now.slots) }
        ensures hashed { IfFound result (λ slot. HasHash
            (⟦<R as HashedKey<T, S>>⟧.hash self.now.builder) self.now.slots slot hash) }
        ensures vacant { IfVacant result (IsVacantFor
            (⟦<R as HashedKey<T, S>>⟧.hash self.now.builder) (bag self.now) hash) }
        ensures cells { IfVacant result (λ at. capacity_of at.cells ≡ self.now.capacity) }
        ensures is_kept { M.IsKept matcher.old matcher.new }
        ensures costs { SearchCosts (⟦<R as HashedKey<T, S>>⟧.hash self.now.builder) (bag self.now)
            self.now.capacity hash (found_of result) (M.asked matcher.old) (M.asked matcher.new)
            meter.old meter.new }
    {
        let mut keys: ByKey<'_, T, R, M> = ByKey {
            items: self.items,
            keys: matcher,
            rank: PhantomData,
        };
        match self.table.find_cell(hash, &mut keys, meter) {
            Searched::Found(found) => Searched::Found(found.0),
            Searched::Vacant(at) => Searched::Vacant(at),
        }
    }
}
