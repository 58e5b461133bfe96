//! What `mem::try_take` leaves in place of a map.
ghost use Rattle.std.specs.Prelude.{◌≡◌, [], IfOk, IsOk};
ghost use Rattle.iddqd_ord.specs.Items.{items};

use super::IdOrdMap;
use crate::item::IdOrdItem;
use std::alloc::AllocError;
use std::default::Emptied;

/// `mem::try_take(&mut map)?` takes the map out, and leaves an empty map of capacity 0 in its place. The call allocates no
/// memory for it, and never fails.
impl<T: IdOrdItem> Emptied for IdOrdMap<T> {
    ghost is_emptied = { λ m. (items m ≡ []) × (m.capacity ≡ 0) };

    fn emptied(like: &Self) -> Result<Self, AllocError>
        ensures empty { IfOk result (λ m. (items m ≡ []) × (m.capacity ≡ 0)) }
        ensures granted { IsOk result }
    {
        Ok(IdOrdMap::new(like.items.allocator()))
    }
}
