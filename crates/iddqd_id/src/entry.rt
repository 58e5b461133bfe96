//! Entries: what a lookup of one key found, with a borrow of the map.
//!
//! Made by tests/widths from crates/iddqd_bi/src/entry.rt: change that file.
ghost use Rattle.std.specs.Prelude.{◌≡◌, [], ◌∷◌};
ghost use Rattle.iddqd_store.specs.Bag.{listing};
ghost use Rattle.iddqd_store.specs.Map.{bag, hash_of};
ghost use Rattle.iddqd_store.specs.Rank.All.{AreVacantFor};
ghost use Rattle.iddqd_store.specs.Rank.{key_hash};
ghost use Rattle.iddqd_id.specs.Keys.{key_tests};

use crate::item::IdHashItem;
use crate::map::{DefaultHashBuilder, IdHashMap};
use iddqd_store::{ItemIndex, Query, Vacancy};
use std::hash::{BuildHasher, Hash};

mod all;
mod occupied;
mod vacant;

/// What `entry` found: a vacant entry or an occupied one. It borrows the map.
#[derive(Drop)]
pub enum Entry<
    'a,
    T: IdHashItem,
    S: BuildHasher = DefaultHashBuilder,
    Q: Query<T::Key> = &'a <T as IdHashItem>::Key,
> {
    /// No item has the key.
    Vacant(VacantEntry<'a, T, S, Q>),
    /// An item has the key.
    Occupied(OccupiedEntry<'a, T, S, Q>),
}

/// An entry with a key that no item of the map has. It keeps the empty cell at which the search for it ended, so that an
/// insert need not search again.
#[derive(Drop)]
pub struct VacantEntry<
    'a,
    T: IdHashItem,
    S: BuildHasher = DefaultHashBuilder,
    Q: Query<T::Key> = &'a <T as IdHashItem>::Key,
> {
    pub(crate) map: &'a mut IdHashMap<T, S>,
    pub(crate) query: Q,
    pub(crate) at: Vacancy,
    ghost absent: { listing (key_tests T.IdHashItem Q.stands_for query)
        (bag map.now) ≡ [] },
    ghost vacant: { AreVacantFor
        (key_hash T.key T.Key.hash_input S.BuildHasher S.Hasher.Hasher map.now.builder ∷ []) (bag map.now)
        (hash_of S.BuildHasher S.Hasher.Hasher map.now.builder (Q.hash_input query) ∷ [])
        (at ∷ []) },
}

/// An entry with a key that an item of the map has. It keeps the slot of that item.
#[derive(Drop)]
pub struct OccupiedEntry<
    'a,
    T: IdHashItem,
    S: BuildHasher = DefaultHashBuilder,
    Q: Query<T::Key> = &'a <T as IdHashItem>::Key,
> {
    pub(crate) map: &'a mut IdHashMap<T, S>,
    pub(crate) query: Q,
    pub(crate) slot: ItemIndex,
}
