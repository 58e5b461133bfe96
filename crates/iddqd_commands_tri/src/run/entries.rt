//! Carrying out the commands on entries. A function makes the reply of each, which borrows nothing; its arms return one
//! by one, since the prover knows less of the map where arms join. The functions that hand the replies over are not
//! inlined into `apply`, since they need stack space for a reply.
//!
//! Made by tests/widths from crates/iddqd_commands_bi/src/run/entries.rt: change that file.
ghost use Rattle.std.specs.Prelude.{◌≡◌};
ghost use Rattle.iddqd_store.specs.Map.State.{state_of};
ghost use Rattle.iddqd_commands.specs.Reply.{key};
ghost use Rattle.iddqd_commands.specs.Run.{Applies};
ghost use Rattle.iddqd_commands.specs.Step.{EntryInserts, EntryRemoves, OrInserts};
ghost use Rattle.iddqd_commands.specs.Values.{value_of};
ghost use Rattle.iddqd_tri.specs.Mismatch.{mismatch_item, mismatch_rank};
ghost use Rattle.iddqd_commands_tri.specs.EntryReplies.{refusal_value};

use super::reading::tell;
use crate::command::{TriReply, TriSink};
use iddqd_store::UpToThree;
use iddqd_tri::{Entry, EntryError, KeyMismatch, Ranked, TriHashItemMut, TriHashMap};
use std::hash::BuildHasher;

/// Inserts the item through the entry of these keys, and hands the reply over.
#[inline(never)]
pub(super) fn apply_entry_insert<T: TriHashItemMut, S: BuildHasher, K: TriSink<T>>(
    map: &mut TriHashMap<T, S>,
    key1: &T::K1,
    key2: &T::K2,
    key3: &T::K3,
    item: T,
    sink: &mut K,
) -> Result<(), K::Fault>
    ensures step { Applies (EntryInserts ⟦<T as Ranked>⟧.ranks
        (⟦<T as Ranked>⟧.key_tests key1.now key2.now key3.now)) K.took
        (state_of map.old) sink.old item result (state_of map.new) sink.new }
    ensures builder { map.new.builder ≡ map.old.builder }
{
    let reply = entry_insert(map, key1, key2, key3, item);
    tell(map, reply, sink)
}

/// Removes the items that the entry of these keys found, and hands the reply over.
#[inline(never)]
pub(super) fn apply_entry_remove<T: TriHashItemMut, S: BuildHasher, K: TriSink<T>>(
    map: &mut TriHashMap<T, S>,
    key1: &T::K1,
    key2: &T::K2,
    key3: &T::K3,
    sink: &mut K,
) -> Result<(), K::Fault>
    ensures step { Applies (λ old tests reply new. EntryRemoves tests old reply new) K.took
        (state_of map.old) sink.old (⟦<T as Ranked>⟧.key_tests key1.now key2.now key3.now)
        result (state_of map.new) sink.new }
    ensures builder { map.new.builder ≡ map.old.builder }
{
    let reply = entry_remove(map, key1, key2, key3);
    tell(map, reply, sink)
}

/// Inserts the item if the entry of these keys is vacant, and hands the reply over.
#[inline(never)]
pub(super) fn apply_or_insert<T: TriHashItemMut + Drop, S: BuildHasher, K: TriSink<T>>(
    map: &mut TriHashMap<T, S>,
    key1: &T::K1,
    key2: &T::K2,
    key3: &T::K3,
    item: T,
    sink: &mut K,
) -> Result<(), K::Fault>
    ensures step { Applies (OrInserts ⟦<T as Ranked>⟧.ranks
        (⟦<T as Ranked>⟧.key_tests key1.now key2.now key3.now)) K.took
        (state_of map.old) sink.old item result (state_of map.new) sink.new }
    ensures builder { map.new.builder ≡ map.old.builder }
{
    let reply = or_insert(map, key1, key2, key3, item);
    tell(map, reply, sink)
}

/// Inserts the item through the entry of these keys.
fn entry_insert<'a, 'm, T: TriHashItemMut, S: BuildHasher>(
    map: &'a mut TriHashMap<T, S>,
    key1: &'a T::K1,
    key2: &'a T::K2,
    key3: &'a T::K3,
    item: T,
) -> TriReply<'m, T>
    ensures step { EntryInserts ⟦<T as Ranked>⟧.ranks (⟦<T as Ranked>⟧.key_tests key1.now key2.now key3.now)
        (state_of map.old) item (value_of result) (state_of map.new) }
    ensures builder { map.new.builder ≡ map.old.builder }
{
    match map.entry(key1, key2, key3) {
        Entry::Vacant(v) => match v.insert(item) {
            Ok(_r) => return TriReply::Displaced(UpToThree::new()),
            Err(e) => return refusal(e),
        },
        Entry::Occupied(mut o) => match o.insert(item) {
            Ok(displaced) => return TriReply::Displaced(displaced),
            Err(e) => return mismatch(e),
        },
    }
}

/// Removes the items that the entry of these keys found.
fn entry_remove<'a, 'm, T: TriHashItemMut, S: BuildHasher>(
    map: &'a mut TriHashMap<T, S>,
    key1: &'a T::K1,
    key2: &'a T::K2,
    key3: &'a T::K3,
) -> TriReply<'m, T>
    ensures step { EntryRemoves (⟦<T as Ranked>⟧.key_tests key1.now key2.now key3.now)
        (state_of map.old) (value_of result) (state_of map.new) }
    ensures builder { map.new.builder ≡ map.old.builder }
{
    match map.entry(key1, key2, key3) {
        Entry::Vacant(_v) => return TriReply::Displaced(UpToThree::new()),
        Entry::Occupied(o) => return TriReply::Displaced(o.remove()),
    }
}

/// Inserts the item if the entry of these keys is vacant.
fn or_insert<'a, 'm, T: TriHashItemMut + Drop, S: BuildHasher>(
    map: &'a mut TriHashMap<T, S>,
    key1: &'a T::K1,
    key2: &'a T::K2,
    key3: &'a T::K3,
    item: T,
) -> TriReply<'m, T>
    ensures step { OrInserts ⟦<T as Ranked>⟧.ranks (⟦<T as Ranked>⟧.key_tests key1.now key2.now key3.now)
        (state_of map.old) item (value_of result) (state_of map.new) }
    ensures builder { map.new.builder ≡ map.old.builder }
{
    match map.entry(key1, key2, key3) {
        Entry::Vacant(v) => match v.insert(item) {
            Ok(_r) => return TriReply::Done,
            Err(e) => return refusal(e),
        },
        Entry::Occupied(_o) => return TriReply::Kept,
    }
}

/// Makes the reply for an item that was not inserted through a vacant entry.
fn refusal<'m, T: TriHashItemMut>(refused: EntryError<T>) -> TriReply<'m, T>
    ensures { value_of result ≡ refusal_value refused }
{
    match refused {
        EntryError::Key1(item) => TriReply::Key1(item),
        EntryError::Key2(item) => TriReply::Key2(item),
        EntryError::Key3(item) => TriReply::Key3(item),
        EntryError::Memory(item) => TriReply::Memory(item),
    }
}

/// Makes the reply for an item whose keys are not those of what it was to replace.
pub(super) fn mismatch<'m, T: TriHashItemMut>(refused: KeyMismatch<T>) -> TriReply<'m, T>
    ensures { value_of result ≡ key (mismatch_rank refused) (mismatch_item refused) }
{
    match refused {
        KeyMismatch::Key1(item) => TriReply::Key1(item),
        KeyMismatch::Key2(item) => TriReply::Key2(item),
        KeyMismatch::Key3(item) => TriReply::Key3(item),
    }
}
