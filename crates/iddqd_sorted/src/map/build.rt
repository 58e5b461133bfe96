//! Making empty maps.
ghost use Rattle.std.specs.Prelude.{◌≡◌, ◌<◌, [], IfOk, IsOk, IsErr};
ghost use Rattle.iddqd_store.specs.Table.Limit.{most_room};
ghost use Rattle.iddqd_sorted.specs.Items.{items};

use super::Sorted;
use crate::item::Sortable;
use iddqd_bi::DefaultHashBuilder;
use iddqd_order::Blocks;
use iddqd_store::{SlotMap, TryReserveError};
use std::alloc::Global;

/// How many entries a block of the order has at most.
const BLOCK: usize = 64;

impl<M: SlotMap<Builder = DefaultHashBuilder>> Sorted<M>
where
    M::Item: Sortable,
    M::FirstKey: Ord,
{
    /// Makes an empty map of capacity 0 with the default builder. The call allocates no memory.
    pub fn new(alloc: Global) -> Self
        ensures empty { items result ≡ [] }
        ensures capacity { result.capacity ≡ 0 }
        ensures builder { ⟦<DefaultHashBuilder as Default>⟧.is_default result.builder }
    {
        Sorted::with_hasher(alloc, DefaultHashBuilder::default())
    }

    /// Makes an empty map with the default builder, in which exactly `count` items fit.
    ///
    /// The call allocates the slots, each table, and the order. It fails if an allocation fails, or if the number of items is too
    /// large for memory. For 0 items it allocates nothing, and succeeds.
    pub fn with_capacity(alloc: Global, count: usize) -> Result<Self, TryReserveError>
    where
        M: Drop,
        ensures empty { IfOk result (λ map. items map ≡ []) }
        ensures capacity { IfOk result (λ map. map.capacity ≡ count) }
        ensures builder { IfOk result (λ map. ⟦<DefaultHashBuilder as Default>⟧.is_default map.builder) }
        ensures never_refused { count ≡ 0 → IsOk result }
        ensures past { most_room < count → IsErr result }
    {
        Sorted::with_capacity_and_hasher(alloc, count, DefaultHashBuilder::default())
    }
}

impl<M: SlotMap> Sorted<M>
where
    M::Item: Sortable,
    M::FirstKey: Ord,
{
    /// Makes an empty map of capacity 0 with this builder of hashers. The call allocates no memory.
    pub fn with_hasher(alloc: Global, hash_builder: M::Builder) -> Self
        ensures empty { items result ≡ [] }
        ensures capacity { result.capacity ≡ 0 }
        ensures builder { result.builder ≡ hash_builder }
    {
        Sorted {
            map: M::empty(alloc, hash_builder),
            order: Blocks::new(alloc, BLOCK),
        }
    }

    /// Makes an empty map of capacity 0 with the default value of the builder's type. The call allocates no memory.
    pub fn default(alloc: Global) -> Self
    where
        M::Builder: Default,
        ensures empty { items result ≡ [] }
        ensures capacity { result.capacity ≡ 0 }
        ensures builder { M.Builder.is_default result.builder }
    {
        Sorted::with_hasher(alloc, M::Builder::default())
    }

    /// Makes an empty map with this builder of hashers, in which exactly `count` items fit.
    ///
    /// The call allocates the slots, each table, and the order. It fails if an allocation fails, or if the number of items is too
    /// large for memory. For 0 items it allocates nothing, and succeeds.
    pub fn with_capacity_and_hasher(
        alloc: Global,
        count: usize,
        hash_builder: M::Builder,
    ) -> Result<Self, TryReserveError>
    where
        M: Drop,
        ensures empty { IfOk result (λ map. items map ≡ []) }
        ensures capacity { IfOk result (λ map. map.capacity ≡ count) }
        ensures builder { IfOk result (λ map. map.builder ≡ hash_builder) }
        ensures never_refused { count ≡ 0 → IsOk result }
        ensures past { most_room < count → IsErr result }
    {
        let mut map = M::empty(alloc, hash_builder);
        map.grow(count, 0)?;
        Ok(Sorted {
            map,
            order: Blocks::with_capacity(alloc, BLOCK, count)?,
        })
    }
}
