//! The map, its fields and its invariant.
use crate::item::BiHashItem;
use iddqd_store::{IndexTable, ItemSet};
use std::hash::{BuildHasher, BuildHasherDefault, FoldHasher, Hash};
use std::marker::{Model, PhantomData};

mod build;
mod capacity;
mod clone;
mod collect;
mod compare;
mod conflicts;
mod data;
mod differing;
mod emptied;
mod entry;
mod extend;
mod extract;
mod find;
mod finds_by;
mod insert;
mod iterate;
mod overwrite;
mod pop;
mod rekey;
mod remove;
mod retain;
mod retain_mut;
mod shrink;
mod slot_map;
pub(crate) mod slots;
mod update;
mod write;

pub use collect::{ClonesHashes, ClonesKeys};

/// The default builder of hashers, which is std's, with a fixed seed. It does not protect against attackers who choose
/// keys with equal hashes. For such keys make the map by `with_hasher(alloc, RandomState::new(&rt)?)`.
pub type DefaultHashBuilder = BuildHasherDefault<FoldHasher>;

/// A hash map of items with two keys. No two items of a map have an equal key of the same rank.
///
/// The items are in numbered slots, and for each rank a table leads from the hash of a key to the slot of its item. A
/// lookup by one key hashes it once, and compares at most as many keys as items have that hash.
#[derive(Drop)]
pub struct BiHashMap<T: BiHashItem, S: BuildHasher = DefaultHashBuilder> {
    items: ItemSet<T>,
    first: IndexTable,
    second: IndexTable,
    hash_builder: S,
    // It names the types of the keys. Without it no function that owns a map whose keys are references has a proof.
    key_types: PhantomData<(T::K1, T::K2)>,
}

impl<T: BiHashItem, S: BuildHasher> Model for BiHashMap<T, S> {
    ghost use Rattle.std.specs.Prelude.{[], ◌∷◌, min};
    ghost use Rattle.iddqd_store.specs.Map.{Map, map_code};
    ghost use Rattle.iddqd_store.specs.Rank.Index.{IsIndexed};
    ghost use Rattle.iddqd_store.specs.Rank.{key_hash};
    ghost use Rattle.iddqd_bi.specs.Keys.{ranks};

    ghost Value = { Map T S };

    ghost coded = { map_code T.code S.code };

    ghost view = { λ m. record {
      slots = m.items.slots;
      capacity = min m.items.capacity (min m.first.limit m.second.limit);
      builder = m.hash_builder;
    } };

    ghost invariant = { λ m. IsIndexed (ranks T.BiHashItem T.K1.eq T.K2.eq)
        (key_hash T.key1 T.K1.hash_input S.BuildHasher S.Hasher.Hasher m.hash_builder
        ∷ key_hash T.key2 T.K2.hash_input S.BuildHasher S.Hasher.Hasher m.hash_builder ∷ [])
        m.items.slots (m.first.pairs ∷ m.second.pairs ∷ []) };
}
