//! The traits of std by which generic code makes a map of items, adds items to one, makes an empty one and clones one.
//! Each does what the map's function of the same name does, if there is one; the errors of those functions tell more.
//!
//! Made by tests/widths from crates/iddqd_bi/src/map/collect.rt: change that file.
ghost use Rattle.std.specs.Prelude.{◌≡◌, [], true};
ghost use Rattle.std.proofs.Common.{rules};
ghost use Rattle.std.specs.Hash.{HashWrites};
ghost use Rattle.iddqd_store.specs.Bag.{IsCopy};
ghost use Rattle.iddqd_store.specs.Map.{bag, hash_of};
ghost use Rattle.iddqd_store.specs.Map.State.{ExtendsTo, state_of, empty_state};
ghost use Rattle.iddqd_store.specs.Rank.{agree};

use super::{DefaultHashBuilder, IdHashMap};
use crate::item::{IdHashItem, Ranked};
use std::alloc::{AllocError, Global};
use std::default::MadeWith;
use std::hash::{BuildHasher, Hash, RandomState};

/// `items.into_iter().collect::<IdHashMap<_>>(alloc)?` makes a map. Each item is inserted as `insert_overwrite` does.
impl<T: Ranked + Drop, S: BuildHasher + Default + Drop> FromIterator<T> for IdHashMap<T, S> {
    type Alloc = Global;

    ghost from_iter_gives = { λ xs m. ExtendsTo T.ranks empty_state xs (state_of m) };

    fn from_iter<U: IntoIterator<Item = T>>(alloc: Global, iter: U) -> Result<Self, AllocError> {
        Ok(IdHashMap::from_iter(alloc, iter)?)
    }
}

/// Each item is inserted as `insert_overwrite` does. An item for which there is no memory is dropped, and those before
/// it stay in the map.
impl<T: Ranked + Drop, S: BuildHasher> Extend<T> for IdHashMap<T, S> {
    ghost extend_gives = { λ m xs n. ExtendsTo T.ranks (state_of m) xs (state_of n) };

    fn extend<U: IntoIterator<Item = T>>(&mut self, iter: U) -> Result<(), AllocError> {
        Ok(IdHashMap::extend(self, iter)?)
    }
}

/// `or_default()` on an entry of a `HashMap` whose values are maps makes an empty map.
impl<T: IdHashItem, S: BuildHasher + Default> MadeWith<Global> for IdHashMap<T, S> {
    ghost is_made_with = { λ m. (bag m ≡ []) × (m.capacity ≡ 0) × S.is_default m.builder };

    fn made_with(alloc: Global) -> Self {
        IdHashMap::default(alloc)
    }
}

/// An item whose clone has equal keys. Each law says so of one key; for keys that are fields of an item that derives
/// `Clone`, `Prim.search rules` proves it.
pub trait ClonesKeys: IdHashItem + Clone {
    ghost clone_key: { (x c : Self) → Self.is_clone x c → agree Self.key Self.Key.eq x c ≡ true };
}

/// A builder whose clone makes the same hashes.
pub trait ClonesHashes: BuildHasher + Clone {
    ghost same_hashes: { (b s : Self) (writes : HashWrites) → Self.is_clone b s
        → hash_of Self.BuildHasher Self.Hasher.Hasher s writes ≡ hash_of Self.BuildHasher Self.Hasher.Hasher b writes };
}

impl ClonesHashes for DefaultHashBuilder {
    ghost same_hashes = { Prim.search rules };
}

impl ClonesHashes for RandomState {
    ghost same_hashes = { Prim.search rules };
}

/// A struct that holds a map may derive `Clone`.
impl<T: ClonesKeys, S: ClonesHashes> Clone for IdHashMap<T, S> {
    ghost is_clone = { λ m n. IsCopy T.is_clone (bag m) (bag n) × S.is_clone m.builder n.builder };

    fn clone(&self) -> Result<Self, AllocError> {
        Ok(IdHashMap::clone(self)?)
    }
}
