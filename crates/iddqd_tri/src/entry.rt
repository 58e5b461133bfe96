//! Entries: what a lookup of three keys at once found, with a borrow of the map.
//!
//! Made by tests/widths from crates/iddqd_bi/src/entry.rt: change that file.
ghost use Rattle.std.specs.Prelude.{◌≡◌, [], ◌∷◌};
ghost use Rattle.iddqd_store.specs.Bag.{listing};
ghost use Rattle.iddqd_store.specs.Map.{bag, hash_of};
ghost use Rattle.iddqd_store.specs.Rank.All.{AreVacantFor};
ghost use Rattle.iddqd_store.specs.Rank.{key_hash};
ghost use Rattle.iddqd_tri.specs.Keys.{key_tests};

use crate::item::TriHashItem;
use crate::map::{DefaultHashBuilder, TriHashMap};
use iddqd_store::{ItemIndex, Query, Vacancy};
use std::hash::{BuildHasher, Hash};

mod all;
mod occupied;
mod occupied_mut;
mod occupied_ref;
mod vacant;

pub use occupied_ref::OccupiedEntryRef;

/// What `entry` found: a vacant entry or an occupied one. It borrows the map.
#[derive(Drop)]
pub enum Entry<
    'a,
    T: TriHashItem,
    S: BuildHasher = DefaultHashBuilder,
    Q1: Query<T::K1> = &'a <T as TriHashItem>::K1,
    Q2: Query<T::K2> = &'a <T as TriHashItem>::K2,
    Q3: Query<T::K3> = &'a <T as TriHashItem>::K3,
> {
    /// No item has one of the keys.
    Vacant(VacantEntry<'a, T, S, Q1, Q2, Q3>),
    /// At least one item has one of the keys. One item may have all keys.
    Occupied(OccupiedEntry<'a, T, S, Q1, Q2, Q3>),
}

/// An entry with three keys of which no item of the map has one. It keeps the empty cells at which the searches for
/// them ended, so that an insert need not search again.
#[derive(Drop)]
pub struct VacantEntry<
    'a,
    T: TriHashItem,
    S: BuildHasher = DefaultHashBuilder,
    Q1: Query<T::K1> = &'a <T as TriHashItem>::K1,
    Q2: Query<T::K2> = &'a <T as TriHashItem>::K2,
    Q3: Query<T::K3> = &'a <T as TriHashItem>::K3,
> {
    pub(crate) map: &'a mut TriHashMap<T, S>,
    pub(crate) query1: Q1,
    pub(crate) query2: Q2,
    pub(crate) query3: Q3,
    pub(crate) at: (Vacancy, Vacancy, Vacancy),
    ghost absent: { listing (key_tests T.TriHashItem Q1.stands_for Q2.stands_for Q3.stands_for query1 query2 query3)
        (bag map.now) ≡ [] },
    ghost vacant: { AreVacantFor
        (key_hash T.key1 T.K1.hash_input S.BuildHasher S.Hasher.Hasher map.now.builder
        ∷ key_hash T.key2 T.K2.hash_input S.BuildHasher S.Hasher.Hasher map.now.builder
        ∷ key_hash T.key3 T.K3.hash_input S.BuildHasher S.Hasher.Hasher map.now.builder ∷ []) (bag map.now)
        (hash_of S.BuildHasher S.Hasher.Hasher map.now.builder (Q1.hash_input query1)
        ∷ hash_of S.BuildHasher S.Hasher.Hasher map.now.builder (Q2.hash_input query2)
        ∷ hash_of S.BuildHasher S.Hasher.Hasher map.now.builder (Q3.hash_input query3) ∷ [])
        (at.0 ∷ at.1 ∷ at.2 ∷ []) },
}

/// An entry with three keys of which at least one is that of an item. It keeps the slot of each item that a key found.
#[derive(Drop)]
pub struct OccupiedEntry<
    'a,
    T: TriHashItem,
    S: BuildHasher = DefaultHashBuilder,
    Q1: Query<T::K1> = &'a <T as TriHashItem>::K1,
    Q2: Query<T::K2> = &'a <T as TriHashItem>::K2,
    Q3: Query<T::K3> = &'a <T as TriHashItem>::K3,
> {
    pub(crate) map: &'a mut TriHashMap<T, S>,
    pub(crate) query1: Q1,
    pub(crate) query2: Q2,
    pub(crate) query3: Q3,
    pub(crate) slot1: Option<ItemIndex>,
    pub(crate) slot2: Option<ItemIndex>,
    pub(crate) slot3: Option<ItemIndex>,
}

/// The items that three keys found, borrowed for writing, one at a time.
#[derive(Drop)]
pub struct OccupiedEntryMut<'a, T: TriHashItem, S: BuildHasher = DefaultHashBuilder> {
    pub(crate) map: &'a mut TriHashMap<T, S>,
    pub(crate) slot1: Option<ItemIndex>,
    pub(crate) slot2: Option<ItemIndex>,
    pub(crate) slot3: Option<ItemIndex>,
}
