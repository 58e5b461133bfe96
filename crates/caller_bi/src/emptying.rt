//! What a caller can prove of a map that items leave one by one, and of one that is taken out of its place.
ghost use Rattle.std.specs.Prelude.{◌≡◌, [], IfOk, OnOk, OnErr, IsPermutation};
ghost use Rattle.iddqd_bi.specs.Map.{bag};

use iddqd_bi::{BiHashItem, BiHashMap, Cursor};
use std::alloc::{AllocError, Global};
use std::hash::{BuildHasher, Hash};
use std::mem;

/// Removes all items, and returns them in a vector. The map keeps its capacity. If there is no memory for the vector,
/// nothing changes.
pub fn drained<T: BiHashItem + Drop, S: BuildHasher>(
    alloc: Global,
    map: &mut BiHashMap<T, S>,
) -> Result<Vec<T>, AllocError>
    ensures taken { IfOk result (λ items. IsPermutation items.items (bag map.old)) }
    ensures items { OnOk result (bag map.new ≡ []) }
    ensures unchanged { OnErr result (map.new ≡ map.old) }
    ensures capacity { map.new.capacity ≡ map.old.capacity }
{
    let mut items = Vec::with_capacity(alloc, map.len())?;
    let mut at = Cursor::new();
    while let Some(item) = map.pop_from(&mut at) {
        items.push_reserved(item);
    }
    Ok(items)
}

/// Takes the map out of its place, and leaves an empty map of capacity 0 there. If the clone of its builder fails, nothing
/// changes.
pub fn taken_out<T: BiHashItem, S: BuildHasher + Clone>(
    map: &mut BiHashMap<T, S>,
) -> Result<BiHashMap<T, S>, AllocError>
    ensures taken { IfOk result (λ out. out ≡ map.old) }
    ensures left { OnOk result (bag map.new ≡ []) }
    ensures capacity { OnOk result (map.new.capacity ≡ 0) }
    ensures unchanged { OnErr result (map.new ≡ map.old) }
{
    mem::try_take(map)
}
