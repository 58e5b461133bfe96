//! The map, its fields and its invariant.
//!
//! Made by tests/widths from crates/iddqd_bi/src/map.rt: change that file.
use crate::item::IdHashItem;
use iddqd_store::{IndexTable, ItemSet};
use std::hash::{BuildHasher, BuildHasherDefault, FoldHasher, Hash};
use std::marker::{Model, PhantomData};

mod build;
mod capacity;
mod clone;
mod collect;
mod compare;
mod data;
mod differing;
mod emptied;
mod entry;
mod extend;
mod extract;
mod find;
mod finds_by;
mod insert;
mod iterate;
mod overwrite;
mod pop;
mod rekey;
mod remove;
mod retain;
mod retain_mut;
mod shrink;
mod slot_map;
pub(crate) mod slots;
mod update;
mod write;

pub use collect::{ClonesHashes, ClonesKeys};

/// The default builder of hashers, which is std's, with a fixed seed. It does not protect against attackers who choose
/// keys with equal hashes. For such keys make the map by `with_hasher(alloc, RandomState::new(&rt)?)`.
pub type DefaultHashBuilder = BuildHasherDefault<FoldHasher>;

/// A hash map of items with one key. No two items of a map have an equal key.
///
/// The items are in numbered slots, and a table leads from the hash of a key to the slot of its item. A
/// lookup by one key hashes it once, and compares at most as many keys as items have that hash.
#[derive(Drop)]
pub struct IdHashMap<T: IdHashItem, S: BuildHasher = DefaultHashBuilder> {
    items: ItemSet<T>,
    first: IndexTable,
    hash_builder: S,
    // It names the types of the keys. Without it no function that owns a map whose keys are references has a proof.
    key_types: PhantomData<T::Key>,
}

impl<T: IdHashItem, S: BuildHasher> Model for IdHashMap<T, S> {
    ghost use Rattle.std.specs.Prelude.{[], ◌∷◌, min};
    ghost use Rattle.iddqd_store.specs.Map.{Map, map_code};
    ghost use Rattle.iddqd_store.specs.Rank.Index.{IsIndexed};
    ghost use Rattle.iddqd_store.specs.Rank.{key_hash};
    ghost use Rattle.iddqd_id.specs.Keys.{ranks};

    ghost Value = { Map T S };

    ghost coded = { map_code T.code S.code };

    ghost view = { λ m. record {
      slots = m.items.slots;
      capacity = min m.items.capacity m.first.limit;
      builder = m.hash_builder;
    } };

    ghost invariant = { λ m. IsIndexed (ranks T.IdHashItem T.Key.eq)
        (key_hash T.key T.Key.hash_input S.BuildHasher S.Hasher.Hasher m.hash_builder ∷ [])
        m.items.slots (m.first.pairs ∷ []) };
}
