//! What a caller can prove of a map after `retain`.
ghost use Rattle.std.specs.Prelude.{◌≡◌, ◌-◌, length};
ghost use Rattle.std.specs.Fn.{CalledAt};
ghost use Rattle.iddqd_bi.specs.Bag.{Keeps};
ghost use Rattle.iddqd_bi.specs.Calling.{TakesInAnyOrder};
ghost use Rattle.iddqd_bi.specs.Map.{bag};

use iddqd_bi::{BiHashMap, Ranked};
use std::hash::{BuildHasher, Hash};

/// Keeps the items for which a closure returns `true`, and returns how many were dropped. The difference is never
/// negative, since no more items are kept than there were.
pub fn keep_and_count<T: Ranked + Drop, S: BuildHasher, F: FnMut(&T) -> bool>(
    map: &mut BiHashMap<T, S>,
    keep: F,
) -> usize
    requires { TakesInAnyOrder F.FnMut keep (bag map.old) }
    ensures kept { Keeps (CalledAt F.FnMut) keep (bag map.old) (bag map.new) }
    ensures count { result ≡ length (bag map.old) - length (bag map.new) }
{
    let before = map.len();
    map.retain(keep);
    before - map.len()
}
