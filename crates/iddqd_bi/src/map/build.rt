//! Making empty maps.
ghost use Rattle.std.specs.Prelude.{◌≡◌, ◌<◌, [], IfOk, IsOk, IsErr};
ghost use Rattle.iddqd_store.specs.Map.{bag};
ghost use Rattle.iddqd_store.specs.Table.Limit.{most_room};

use super::{BiHashMap, DefaultHashBuilder};
use crate::item::BiHashItem;
use iddqd_store::{IndexTable, ItemSet, TryReserveError, pairs_for};
use std::alloc::Global;
use std::hash::{BuildHasher, Hash};
use std::marker::PhantomData;

impl<T: BiHashItem> BiHashMap<T, DefaultHashBuilder> {
    /// Makes an empty map of capacity 0 with the default builder. The call allocates no memory.
    pub fn new(alloc: Global) -> Self
        ensures empty { bag result ≡ [] }
        ensures capacity { result.capacity ≡ 0 }
        ensures builder { ⟦<DefaultHashBuilder as Default>⟧.is_default result.builder }
    {
        BiHashMap::with_hasher(alloc, DefaultHashBuilder::default())
    }

    /// Makes an empty map with the default builder, in which exactly `items` items fit.
    ///
    /// The call allocates the slots and each table. It fails if an allocation fails, or if the number of items is too
    /// large for memory. For 0 items it allocates nothing, and succeeds. A table has 16 bytes for each of its cells,
    /// whose number is a power of two: up to 4,096 items the least that is three times as many, up to 65,536 the least
    /// that is twice as many, and above that the least of which the items fill seven eighths.
    pub fn with_capacity(alloc: Global, items: usize) -> Result<Self, TryReserveError>
        ensures empty { IfOk result (λ map. bag map ≡ []) }
        ensures capacity { IfOk result (λ map. map.capacity ≡ items) }
        ensures builder { IfOk result (λ map. ⟦<DefaultHashBuilder as Default>⟧.is_default map.builder) }
        ensures never_refused { items ≡ 0 → IsOk result }
        ensures past { most_room < items → IsErr result }
    {
        BiHashMap::with_capacity_and_hasher(alloc, items, DefaultHashBuilder::default())
    }
}

impl<T: BiHashItem, S: BuildHasher> BiHashMap<T, S> {
    /// Makes an empty map of capacity 0 with this builder. The call allocates no memory.
    pub fn with_hasher(alloc: Global, hash_builder: S) -> Self
        ensures empty { bag result ≡ [] }
        ensures capacity { result.capacity ≡ 0 }
        ensures builder { result.builder ≡ hash_builder }
    {
        BiHashMap {
            items: ItemSet::new(alloc),
            first: IndexTable::new(alloc),
            second: IndexTable::new(alloc),
            hash_builder,
            key_types: PhantomData,
        }
    }

    /// Makes an empty map of capacity 0 with the default value of the builder's type. The call allocates no memory.
    pub fn default(alloc: Global) -> Self
    where
        S: Default,
        ensures empty { bag result ≡ [] }
        ensures capacity { result.capacity ≡ 0 }
        ensures builder { S.is_default result.builder }
    {
        BiHashMap::with_hasher(alloc, S::default())
    }

    /// Returns the builder that makes the hashes of the map's keys.
    pub fn hasher(&self) -> &S
        ensures { result.now ≡ self.now.builder }
    {
        &self.hash_builder
    }

    /// Makes an empty map with this builder, in which exactly `items` items fit.
    ///
    /// The call allocates the slots and each table. It fails if an allocation fails, or if the number of items is too
    /// large for memory. For 0 items it allocates nothing, and succeeds. A table has 16 bytes for each of its cells,
    /// whose number is a power of two: up to 4,096 items the least that is three times as many, up to 65,536 the least
    /// that is twice as many, and above that the least of which the items fill seven eighths.
    pub fn with_capacity_and_hasher(
        alloc: Global,
        items: usize,
        hash_builder: S,
    ) -> Result<Self, TryReserveError>
    where
        S: Drop,
        // A new map is empty, and has exactly the capacity asked for.
        ensures empty { IfOk result (λ map. bag map ≡ []) }
        ensures capacity { IfOk result (λ map. map.capacity ≡ items) }
        ensures builder { IfOk result (λ map. map.builder ≡ hash_builder) }
        // The call never fails for capacity 0, and always fails for more than the largest table holds.
        ensures never_refused { items ≡ 0 → IsOk result }
        ensures past { most_room < items → IsErr result }
    {
        let first = IndexTable::with_capacity(alloc, pairs_for(items))?;
        let second = IndexTable::with_capacity(alloc, pairs_for(items))?;
        Ok(BiHashMap {
            items: ItemSet::with_capacity(alloc, items)?,
            first,
            second,
            hash_builder,
            key_types: PhantomData,
        })
    }
}
