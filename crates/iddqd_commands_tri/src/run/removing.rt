//! Carrying out the commands that remove an item by its keys. Each has a function of its own, which is not inlined into
//! `apply`, since it needs stack space for a reply.
//!
//! Made by tests/widths from crates/iddqd_commands_bi/src/run/removing.rt: change that file.
ghost use Rattle.std.specs.Prelude.{◌≡◌};
ghost use Rattle.iddqd_store.specs.Map.State.{state_of};
ghost use Rattle.iddqd_commands.specs.Run.{Applies};
ghost use Rattle.iddqd_commands.specs.Step.{Removes};
ghost use Rattle.iddqd_tri.specs.Keys.{has1, has2, has3, has_all};

use super::reading::tell;
use crate::command::{TriReply, TriSink};
use iddqd_tri::{TriHashItemMut, TriHashMap};
use std::hash::BuildHasher;

/// Removes the item with this first key.
#[inline(never)]
pub(super) fn apply_remove1<T: TriHashItemMut, S: BuildHasher, K: TriSink<T>>(
    map: &mut TriHashMap<T, S>,
    key: &T::K1,
    sink: &mut K,
) -> Result<(), K::Fault>
    ensures step { Applies Removes K.took
        (state_of map.old) sink.old (has1 T.TriHashItem T.K1.eq key.now) result (state_of map.new) sink.new }
    ensures builder { map.new.builder ≡ map.old.builder }
{
    let taken = map.remove1(key);
    tell(map, TriReply::Taken(taken), sink)
}

/// Removes the item with this second key.
#[inline(never)]
pub(super) fn apply_remove2<T: TriHashItemMut, S: BuildHasher, K: TriSink<T>>(
    map: &mut TriHashMap<T, S>,
    key: &T::K2,
    sink: &mut K,
) -> Result<(), K::Fault>
    ensures step { Applies Removes K.took
        (state_of map.old) sink.old (has2 T.TriHashItem T.K2.eq key.now) result (state_of map.new) sink.new }
    ensures builder { map.new.builder ≡ map.old.builder }
{
    let taken = map.remove2(key);
    tell(map, TriReply::Taken(taken), sink)
}

/// Removes the item with this third key.
#[inline(never)]
pub(super) fn apply_remove3<T: TriHashItemMut, S: BuildHasher, K: TriSink<T>>(
    map: &mut TriHashMap<T, S>,
    key: &T::K3,
    sink: &mut K,
) -> Result<(), K::Fault>
    ensures step { Applies Removes K.took
        (state_of map.old) sink.old (has3 T.TriHashItem T.K3.eq key.now) result (state_of map.new) sink.new }
    ensures builder { map.new.builder ≡ map.old.builder }
{
    let taken = map.remove3(key);
    tell(map, TriReply::Taken(taken), sink)
}

/// Removes the item with all keys.
#[inline(never)]
pub(super) fn apply_remove_unique<T: TriHashItemMut, S: BuildHasher, K: TriSink<T>>(
    map: &mut TriHashMap<T, S>,
    key1: &T::K1,
    key2: &T::K2,
    key3: &T::K3,
    sink: &mut K,
) -> Result<(), K::Fault>
    ensures step { Applies Removes K.took
        (state_of map.old) sink.old (has_all T.TriHashItem T.K1.eq T.K2.eq T.K3.eq key1.now key2.now key3.now)
        result (state_of map.new) sink.new }
    ensures builder { map.new.builder ≡ map.old.builder }
{
    let taken = map.remove_unique(key1, key2, key3);
    tell(map, TriReply::Taken(taken), sink)
}
