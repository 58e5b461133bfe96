//! Making empty maps.
ghost use Rattle.std.specs.Prelude.{◌≡◌, [], IfOk, IsOk};
ghost use Rattle.iddqd_ord.specs.Items.{items};

use super::IdOrdMap;
use crate::item::IdOrdItem;
use iddqd_order::Blocks;
use iddqd_store::TryReserveError;
use std::alloc::Global;
use std::marker::PhantomData;

/// How many items a block has at most, unless the size of the first one that comes says less (`Blocks::suit`).
pub(super) const BLOCK: usize = 128;

impl<T: IdOrdItem> IdOrdMap<T> {
    /// Makes an empty map of capacity 0. The call allocates no memory.
    pub fn new(alloc: Global) -> Self
        ensures empty { items result ≡ [] }
        ensures capacity { result.capacity ≡ 0 }
    {
        IdOrdMap {
            items: Blocks::new(alloc, BLOCK),
            key_types: PhantomData,
        }
    }

    /// Makes an empty map of capacity 0, as `new` does.
    pub fn default(alloc: Global) -> Self
        ensures empty { items result ≡ [] }
        ensures capacity { result.capacity ≡ 0 }
    {
        IdOrdMap::new(alloc)
    }

    /// Makes an empty map in which exactly `count` items fit.
    ///
    /// The call fails if an allocation fails, or if the number of items is too large
    /// for memory. For 0 items it allocates nothing, and succeeds.
    pub fn with_capacity(alloc: Global, count: usize) -> Result<Self, TryReserveError>
        ensures empty { IfOk result (λ map. items map ≡ []) }
        ensures capacity { IfOk result (λ map. map.capacity ≡ count) }
        ensures never_refused { count ≡ 0 → IsOk result }
    {
        Ok(IdOrdMap {
            items: Blocks::with_capacity(alloc, BLOCK, count)?,
            key_types: PhantomData,
        })
    }
}
