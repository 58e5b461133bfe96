//! Carrying out the commands that remove an item by its keys. Each has a function of its own, which is not inlined into
//! `apply`, since it needs stack space for a reply.
ghost use Rattle.std.specs.Prelude.{◌≡◌};
ghost use Rattle.iddqd_store.specs.Map.State.{state_of};
ghost use Rattle.iddqd_commands.specs.Run.{Applies};
ghost use Rattle.iddqd_commands.specs.Step.{Removes};
ghost use Rattle.iddqd_bi.specs.Keys.{has1, has2, has_both};

use super::reading::tell;
use crate::command::{BiReply, BiSink};
use iddqd_bi::{BiHashItemMut, BiHashMap};
use std::hash::BuildHasher;

/// Removes the item with this first key.
#[inline(never)]
pub(super) fn apply_remove1<T: BiHashItemMut, S: BuildHasher, K: BiSink<T>>(
    map: &mut BiHashMap<T, S>,
    key: &T::K1,
    sink: &mut K,
) -> Result<(), K::Fault>
    ensures step { Applies Removes K.took
        (state_of map.old) sink.old (has1 T.BiHashItem T.K1.eq key.now) result (state_of map.new) sink.new }
    ensures builder { map.new.builder ≡ map.old.builder }
{
    let taken = map.remove1(key);
    tell(map, BiReply::Taken(taken), sink)
}

/// Removes the item with this second key.
#[inline(never)]
pub(super) fn apply_remove2<T: BiHashItemMut, S: BuildHasher, K: BiSink<T>>(
    map: &mut BiHashMap<T, S>,
    key: &T::K2,
    sink: &mut K,
) -> Result<(), K::Fault>
    ensures step { Applies Removes K.took
        (state_of map.old) sink.old (has2 T.BiHashItem T.K2.eq key.now) result (state_of map.new) sink.new }
    ensures builder { map.new.builder ≡ map.old.builder }
{
    let taken = map.remove2(key);
    tell(map, BiReply::Taken(taken), sink)
}

/// Removes the item with both keys.
#[inline(never)]
pub(super) fn apply_remove_unique<T: BiHashItemMut, S: BuildHasher, K: BiSink<T>>(
    map: &mut BiHashMap<T, S>,
    key1: &T::K1,
    key2: &T::K2,
    sink: &mut K,
) -> Result<(), K::Fault>
    ensures step { Applies Removes K.took
        (state_of map.old) sink.old (has_both T.BiHashItem T.K1.eq T.K2.eq key1.now key2.now)
        result (state_of map.new) sink.new }
    ensures builder { map.new.builder ≡ map.old.builder }
{
    let taken = map.remove_unique(key1, key2);
    tell(map, BiReply::Taken(taken), sink)
}
