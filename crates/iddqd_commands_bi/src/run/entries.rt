//! Carrying out the commands on entries. A function makes the reply of each, which borrows nothing; its arms return one by
//! one, since the prover knows less of the map where arms join. The functions that hand the replies over are not inlined
//! into `apply`, since they need stack space for a reply.
ghost use Rattle.std.specs.Prelude.{◌≡◌};
ghost use Rattle.iddqd_store.specs.Map.State.{state_of};
ghost use Rattle.iddqd_commands.specs.Reply.{key};
ghost use Rattle.iddqd_commands.specs.Run.{Applies};
ghost use Rattle.iddqd_commands.specs.Step.{EntryInserts, EntryRemoves, OrInserts};
ghost use Rattle.iddqd_commands.specs.Values.{value_of};
ghost use Rattle.iddqd_bi.specs.Mismatch.{mismatch_item, mismatch_rank};
ghost use Rattle.iddqd_commands_bi.specs.EntryReplies.{refusal_value};

use super::reading::tell;
use crate::command::{BiReply, BiSink};
use iddqd_bi::{BiHashItemMut, BiHashMap, Entry, EntryError, KeyMismatch, Ranked};
use iddqd_store::UpToTwo;
use std::hash::BuildHasher;

/// Inserts the item through the entry of these keys, and hands the reply over.
#[inline(never)]
pub(super) fn apply_entry_insert<T: BiHashItemMut, S: BuildHasher, K: BiSink<T>>(
    map: &mut BiHashMap<T, S>,
    key1: &T::K1,
    key2: &T::K2,
    item: T,
    sink: &mut K,
) -> Result<(), K::Fault>
    ensures step { Applies (EntryInserts ⟦<T as Ranked>⟧.ranks (⟦<T as Ranked>⟧.key_tests key1.now key2.now)) K.took
        (state_of map.old) sink.old item result (state_of map.new) sink.new }
    ensures builder { map.new.builder ≡ map.old.builder }
{
    let reply = entry_insert(map, key1, key2, item);
    tell(map, reply, sink)
}

/// Removes the items that the entry of these keys found, and hands the reply over.
#[inline(never)]
pub(super) fn apply_entry_remove<T: BiHashItemMut, S: BuildHasher, K: BiSink<T>>(
    map: &mut BiHashMap<T, S>,
    key1: &T::K1,
    key2: &T::K2,
    sink: &mut K,
) -> Result<(), K::Fault>
    ensures step { Applies (λ old tests reply new. EntryRemoves tests old reply new) K.took
        (state_of map.old) sink.old (⟦<T as Ranked>⟧.key_tests key1.now key2.now)
        result (state_of map.new) sink.new }
    ensures builder { map.new.builder ≡ map.old.builder }
{
    let reply = entry_remove(map, key1, key2);
    tell(map, reply, sink)
}

/// Inserts the item if the entry of these keys is vacant, and hands the reply over.
#[inline(never)]
pub(super) fn apply_or_insert<T: BiHashItemMut + Drop, S: BuildHasher, K: BiSink<T>>(
    map: &mut BiHashMap<T, S>,
    key1: &T::K1,
    key2: &T::K2,
    item: T,
    sink: &mut K,
) -> Result<(), K::Fault>
    ensures step { Applies (OrInserts ⟦<T as Ranked>⟧.ranks (⟦<T as Ranked>⟧.key_tests key1.now key2.now)) K.took
        (state_of map.old) sink.old item result (state_of map.new) sink.new }
    ensures builder { map.new.builder ≡ map.old.builder }
{
    let reply = or_insert(map, key1, key2, item);
    tell(map, reply, sink)
}

/// Inserts the item through the entry of these keys.
fn entry_insert<'a, 'm, T: BiHashItemMut, S: BuildHasher>(
    map: &'a mut BiHashMap<T, S>,
    key1: &'a T::K1,
    key2: &'a T::K2,
    item: T,
) -> BiReply<'m, T>
    ensures step { EntryInserts ⟦<T as Ranked>⟧.ranks (⟦<T as Ranked>⟧.key_tests key1.now key2.now)
        (state_of map.old) item (value_of result) (state_of map.new) }
    ensures builder { map.new.builder ≡ map.old.builder }
{
    match map.entry(key1, key2) {
        Entry::Vacant(v) => match v.insert(item) {
            Ok(_r) => return BiReply::Displaced(UpToTwo::new()),
            Err(e) => return refusal(e),
        },
        Entry::Occupied(mut o) => match o.insert(item) {
            Ok(displaced) => return BiReply::Displaced(displaced),
            Err(e) => return mismatch(e),
        },
    }
}

/// Removes the items that the entry of these keys found.
fn entry_remove<'a, 'm, T: BiHashItemMut, S: BuildHasher>(
    map: &'a mut BiHashMap<T, S>,
    key1: &'a T::K1,
    key2: &'a T::K2,
) -> BiReply<'m, T>
    ensures step { EntryRemoves (⟦<T as Ranked>⟧.key_tests key1.now key2.now)
        (state_of map.old) (value_of result) (state_of map.new) }
    ensures builder { map.new.builder ≡ map.old.builder }
{
    match map.entry(key1, key2) {
        Entry::Vacant(_v) => return BiReply::Displaced(UpToTwo::new()),
        Entry::Occupied(o) => return BiReply::Displaced(o.remove()),
    }
}

/// Inserts the item if the entry of these keys is vacant.
fn or_insert<'a, 'm, T: BiHashItemMut + Drop, S: BuildHasher>(
    map: &'a mut BiHashMap<T, S>,
    key1: &'a T::K1,
    key2: &'a T::K2,
    item: T,
) -> BiReply<'m, T>
    ensures step { OrInserts ⟦<T as Ranked>⟧.ranks (⟦<T as Ranked>⟧.key_tests key1.now key2.now)
        (state_of map.old) item (value_of result) (state_of map.new) }
    ensures builder { map.new.builder ≡ map.old.builder }
{
    match map.entry(key1, key2) {
        Entry::Vacant(v) => match v.insert(item) {
            Ok(_r) => return BiReply::Done,
            Err(e) => return refusal(e),
        },
        Entry::Occupied(_o) => return BiReply::Kept,
    }
}

/// Makes the reply for an item that was not inserted through a vacant entry.
fn refusal<'m, T: BiHashItemMut>(refused: EntryError<T>) -> BiReply<'m, T>
    ensures { value_of result ≡ refusal_value refused }
{
    match refused {
        EntryError::Key1(item) => BiReply::Key1(item),
        EntryError::Key2(item) => BiReply::Key2(item),
        EntryError::Memory(item) => BiReply::Memory(item),
    }
}

/// Makes the reply for an item whose keys are not those of what it was to replace.
pub(super) fn mismatch<'m, T: BiHashItemMut>(refused: KeyMismatch<T>) -> BiReply<'m, T>
    ensures { value_of result ≡ key (mismatch_rank refused) (mismatch_item refused) }
{
    match refused {
        KeyMismatch::Key1(item) => BiReply::Key1(item),
        KeyMismatch::Key2(item) => BiReply::Key2(item),
    }
}
