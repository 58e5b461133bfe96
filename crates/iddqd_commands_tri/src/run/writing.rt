//! Carrying out the commands that replace an item, or write its data, through the guard of it. A function makes the
//! reply of each, and the one that hands it over is not inlined into `apply`, as for entries.
//!
//! Made by tests/widths from crates/iddqd_commands_bi/src/run/writing.rt: change that file.
ghost use Rattle.std.specs.Prelude.{◌≡◌, [], ◌∷◌};
ghost use Rattle.iddqd_store.specs.Map.State.{state_of};
ghost use Rattle.iddqd_commands.specs.Reply.{displaced};
ghost use Rattle.iddqd_commands.specs.Run.{Applies};
ghost use Rattle.iddqd_commands.specs.Step.{Replaces, Sets};
ghost use Rattle.iddqd_commands.specs.Values.{value_of};
ghost use Rattle.iddqd_tri.specs.Keys.{has1, has2, has3};

use super::entries::mismatch;
use super::reading::tell;
use crate::command::{TriReply, TriSink};
use iddqd_store::UpToThree;
use iddqd_tri::{Ranked, TriHashItemMut, TriHashMap};
use std::hash::BuildHasher;

/// Replaces the item with this first key, and hands the reply over.
#[inline(never)]
pub(super) fn apply_replace1<T: TriHashItemMut, S: BuildHasher, K: TriSink<T>>(
    map: &mut TriHashMap<T, S>,
    key: &T::K1,
    item: T,
    sink: &mut K,
) -> Result<(), K::Fault>
    ensures step { Applies (Replaces ⟦<T as Ranked>⟧.ranks (has1 T.TriHashItem T.K1.eq key.now)) K.took
        (state_of map.old) sink.old item result (state_of map.new) sink.new }
    ensures builder { map.new.builder ≡ map.old.builder }
{
    let reply = replace1(map, key, item);
    tell(map, reply, sink)
}

/// Replaces the item with this second key, and hands the reply over.
#[inline(never)]
pub(super) fn apply_replace2<T: TriHashItemMut, S: BuildHasher, K: TriSink<T>>(
    map: &mut TriHashMap<T, S>,
    key: &T::K2,
    item: T,
    sink: &mut K,
) -> Result<(), K::Fault>
    ensures step { Applies (Replaces ⟦<T as Ranked>⟧.ranks (has2 T.TriHashItem T.K2.eq key.now)) K.took
        (state_of map.old) sink.old item result (state_of map.new) sink.new }
    ensures builder { map.new.builder ≡ map.old.builder }
{
    let reply = replace2(map, key, item);
    tell(map, reply, sink)
}

/// Replaces the item with this third key, and hands the reply over.
#[inline(never)]
pub(super) fn apply_replace3<T: TriHashItemMut, S: BuildHasher, K: TriSink<T>>(
    map: &mut TriHashMap<T, S>,
    key: &T::K3,
    item: T,
    sink: &mut K,
) -> Result<(), K::Fault>
    ensures step { Applies (Replaces ⟦<T as Ranked>⟧.ranks (has3 T.TriHashItem T.K3.eq key.now)) K.took
        (state_of map.old) sink.old item result (state_of map.new) sink.new }
    ensures builder { map.new.builder ≡ map.old.builder }
{
    let reply = replace3(map, key, item);
    tell(map, reply, sink)
}

/// Writes the data of the item with this first key, and hands the reply over.
#[inline(never)]
pub(super) fn apply_set1<T: TriHashItemMut, S: BuildHasher, K: TriSink<T>>(
    map: &mut TriHashMap<T, S>,
    key: &T::K1,
    new_data: T::Data,
    sink: &mut K,
) -> Result<(), K::Fault>
where
    T::Data: Drop,
    ensures step { Applies (Sets ⟦<T as Ranked>⟧.ranks T.put (has1 T.TriHashItem T.K1.eq key.now)) K.took
        (state_of map.old) sink.old new_data result (state_of map.new) sink.new }
    ensures builder { map.new.builder ≡ map.old.builder }
{
    let reply = set1(map, key, new_data);
    tell(map, reply, sink)
}

/// Writes the data of the item with this second key, and hands the reply over.
#[inline(never)]
pub(super) fn apply_set2<T: TriHashItemMut, S: BuildHasher, K: TriSink<T>>(
    map: &mut TriHashMap<T, S>,
    key: &T::K2,
    new_data: T::Data,
    sink: &mut K,
) -> Result<(), K::Fault>
where
    T::Data: Drop,
    ensures step { Applies (Sets ⟦<T as Ranked>⟧.ranks T.put (has2 T.TriHashItem T.K2.eq key.now)) K.took
        (state_of map.old) sink.old new_data result (state_of map.new) sink.new }
    ensures builder { map.new.builder ≡ map.old.builder }
{
    let reply = set2(map, key, new_data);
    tell(map, reply, sink)
}

/// Writes the data of the item with this third key, and hands the reply over.
#[inline(never)]
pub(super) fn apply_set3<T: TriHashItemMut, S: BuildHasher, K: TriSink<T>>(
    map: &mut TriHashMap<T, S>,
    key: &T::K3,
    new_data: T::Data,
    sink: &mut K,
) -> Result<(), K::Fault>
where
    T::Data: Drop,
    ensures step { Applies (Sets ⟦<T as Ranked>⟧.ranks T.put (has3 T.TriHashItem T.K3.eq key.now)) K.took
        (state_of map.old) sink.old new_data result (state_of map.new) sink.new }
    ensures builder { map.new.builder ≡ map.old.builder }
{
    let reply = set3(map, key, new_data);
    tell(map, reply, sink)
}

/// Replaces the item with this first key.
fn replace1<'m, T: TriHashItemMut, S: BuildHasher>(
    map: &mut TriHashMap<T, S>,
    key: &T::K1,
    item: T,
) -> TriReply<'m, T>
    ensures step { Replaces ⟦<T as Ranked>⟧.ranks (has1 T.TriHashItem T.K1.eq key.now)
        (state_of map.old) item (value_of result) (state_of map.new) }
    ensures builder { map.new.builder ≡ map.old.builder }
{
    match map.get1_mut(key) {
        Some(mut r) => match r.replace(item) {
            Ok(old) => return displaced_one(old),
            Err(e) => return mismatch(e),
        },
        None => return TriReply::Absent(item),
    }
}

/// Replaces the item with this second key.
fn replace2<'m, T: TriHashItemMut, S: BuildHasher>(
    map: &mut TriHashMap<T, S>,
    key: &T::K2,
    item: T,
) -> TriReply<'m, T>
    ensures step { Replaces ⟦<T as Ranked>⟧.ranks (has2 T.TriHashItem T.K2.eq key.now)
        (state_of map.old) item (value_of result) (state_of map.new) }
    ensures builder { map.new.builder ≡ map.old.builder }
{
    match map.get2_mut(key) {
        Some(mut r) => match r.replace(item) {
            Ok(old) => return displaced_one(old),
            Err(e) => return mismatch(e),
        },
        None => return TriReply::Absent(item),
    }
}

/// Replaces the item with this third key.
fn replace3<'m, T: TriHashItemMut, S: BuildHasher>(
    map: &mut TriHashMap<T, S>,
    key: &T::K3,
    item: T,
) -> TriReply<'m, T>
    ensures step { Replaces ⟦<T as Ranked>⟧.ranks (has3 T.TriHashItem T.K3.eq key.now)
        (state_of map.old) item (value_of result) (state_of map.new) }
    ensures builder { map.new.builder ≡ map.old.builder }
{
    match map.get3_mut(key) {
        Some(mut r) => match r.replace(item) {
            Ok(old) => return displaced_one(old),
            Err(e) => return mismatch(e),
        },
        None => return TriReply::Absent(item),
    }
}

/// Writes the data of the item with this first key.
fn set1<'m, T: TriHashItemMut, S: BuildHasher>(
    map: &mut TriHashMap<T, S>,
    key: &T::K1,
    new_data: T::Data,
) -> TriReply<'m, T>
where
    T::Data: Drop,
    ensures step { Sets ⟦<T as Ranked>⟧.ranks T.put (has1 T.TriHashItem T.K1.eq key.now)
        (state_of map.old) new_data (value_of result) (state_of map.new) }
    ensures builder { map.new.builder ≡ map.old.builder }
{
    match map.get1_mut(key) {
        Some(mut r) => {
            *r.data_mut() = new_data;
            return TriReply::Done;
        }
        None => return TriReply::AbsentData(new_data),
    }
}

/// Writes the data of the item with this second key.
fn set2<'m, T: TriHashItemMut, S: BuildHasher>(
    map: &mut TriHashMap<T, S>,
    key: &T::K2,
    new_data: T::Data,
) -> TriReply<'m, T>
where
    T::Data: Drop,
    ensures step { Sets ⟦<T as Ranked>⟧.ranks T.put (has2 T.TriHashItem T.K2.eq key.now)
        (state_of map.old) new_data (value_of result) (state_of map.new) }
    ensures builder { map.new.builder ≡ map.old.builder }
{
    match map.get2_mut(key) {
        Some(mut r) => {
            *r.data_mut() = new_data;
            return TriReply::Done;
        }
        None => return TriReply::AbsentData(new_data),
    }
}

/// Writes the data of the item with this third key.
fn set3<'m, T: TriHashItemMut, S: BuildHasher>(
    map: &mut TriHashMap<T, S>,
    key: &T::K3,
    new_data: T::Data,
) -> TriReply<'m, T>
where
    T::Data: Drop,
    ensures step { Sets ⟦<T as Ranked>⟧.ranks T.put (has3 T.TriHashItem T.K3.eq key.now)
        (state_of map.old) new_data (value_of result) (state_of map.new) }
    ensures builder { map.new.builder ≡ map.old.builder }
{
    match map.get3_mut(key) {
        Some(mut r) => {
            *r.data_mut() = new_data;
            return TriReply::Done;
        }
        None => return TriReply::AbsentData(new_data),
    }
}

/// Makes the reply that returns one item.
fn displaced_one<'m, T: TriHashItemMut>(item: T) -> TriReply<'m, T>
    ensures { value_of result ≡ displaced (item ∷ []) }
{
    let mut gone = UpToThree::new();
    gone.push(item);
    TriReply::Displaced(gone)
}
