//! What `mem::try_take` leaves in place of a map.
//!
//! Made by tests/widths from crates/iddqd_bi/src/map/emptied.rt: change that file.
ghost use Rattle.std.specs.Prelude.{◌≡◌, [], IfOk};
ghost use Rattle.iddqd_store.specs.Map.{bag};

use super::IdHashMap;
use crate::item::IdHashItem;
use std::alloc::AllocError;
use std::default::Emptied;
use std::hash::BuildHasher;

/// `mem::try_take(&mut map)?` takes the map out, and leaves an empty map of capacity 0 in its place, with a clone of
/// the builder. The call allocates no memory for it, and fails only if the clone of the builder does; the map then
/// stays as it was.
impl<T: IdHashItem, S: BuildHasher + Clone> Emptied for IdHashMap<T, S> {
    ghost is_emptied = { λ m. (bag m ≡ []) × (m.capacity ≡ 0) };

    fn emptied(like: &Self) -> Result<Self, AllocError>
        ensures empty { IfOk result (λ m. (bag m ≡ []) × (m.capacity ≡ 0)) }
        ensures builder { IfOk result (λ m. S.is_clone like.now.builder m.builder) }
    {
        let hash_builder = like.hash_builder.clone()?;
        Ok(IdHashMap::with_hasher(like.items.allocator(), hash_builder))
    }
}
