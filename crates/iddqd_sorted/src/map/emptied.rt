//! What `mem::try_take` leaves in place of a map.
ghost use Rattle.std.specs.Prelude.{◌≡◌, [], IfOk};
ghost use Rattle.iddqd_sorted.specs.Items.{items};

use super::Sorted;
use crate::item::Sortable;
use iddqd_store::SlotMap;
use std::alloc::AllocError;
use std::default::Emptied;

/// `mem::try_take(&mut map)?` takes the map out, and leaves an empty map of capacity 0 in its place, with a clone of the builder.
/// The call allocates no memory for it, and fails only if the clone of the builder does; the map then stays as it was.
impl<M: SlotMap> Emptied for Sorted<M>
where
    M::Item: Sortable,
    M::FirstKey: Ord,
    M::Builder: Clone,
{
    ghost is_emptied = { λ m. (items m ≡ []) × (m.capacity ≡ 0) };

    fn emptied(like: &Self) -> Result<Self, AllocError>
        ensures empty { IfOk result (λ m. (items m ≡ []) × (m.capacity ≡ 0)) }
        ensures builder { IfOk result (λ m. M.Builder.is_clone like.now.builder m.builder) }
    {
        let hash_builder = like.map.hasher().clone()?;
        Ok(Sorted::with_hasher(like.map.allocator(), hash_builder))
    }
}
