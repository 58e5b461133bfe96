//! Carrying out the commands that insert items.
//!
//! Made by tests/widths from crates/iddqd_commands_bi/src/run/inserting.rt: change that file.
ghost use Rattle.std.specs.Prelude.{◌≡◌};
ghost use Rattle.iddqd_store.specs.Map.State.{state_of};
ghost use Rattle.iddqd_commands.specs.Run.{Applies};
ghost use Rattle.iddqd_commands.specs.Step.{Extends, ExtendsUnique, InsertsOverwrite, InsertsUnique};

use super::reading::{tell, tell_duplicate};
use crate::command::{TriReply, TriSink};
use iddqd_tri::{MemoryRefused, Ranked, TriHashItemMut, TriHashMap};
use std::hash::BuildHasher;

/// Inserts an item if nothing conflicts with it. If something does, it searches once more, for the reply.
pub(super) fn apply_insert_unique<T: TriHashItemMut, S: BuildHasher, K: TriSink<T>>(
    map: &mut TriHashMap<T, S>,
    item: T,
    sink: &mut K,
) -> Result<(), K::Fault>
    ensures step { Applies (InsertsUnique ⟦<T as Ranked>⟧.ranks) K.took
        (state_of map.old) sink.old item result (state_of map.new) sink.new }
    ensures builder { map.new.builder ≡ map.old.builder }
{
    match map.try_insert(item) {
        Ok(()) => tell(map, TriReply::Done, sink),
        Err(refused) => {
            if refused.taken1 | refused.taken2 | refused.taken3 {
                tell_duplicate(map, refused.item, sink)
            } else {
                tell(map, TriReply::Memory(refused.item), sink)
            }
        }
    }
}

/// Inserts an item in place of those that conflict with it.
pub(super) fn apply_insert_overwrite<T: TriHashItemMut, S: BuildHasher, K: TriSink<T>>(
    map: &mut TriHashMap<T, S>,
    item: T,
    sink: &mut K,
) -> Result<(), K::Fault>
    ensures step { Applies (InsertsOverwrite ⟦<T as Ranked>⟧.ranks) K.took
        (state_of map.old) sink.old item result (state_of map.new) sink.new }
    ensures builder { map.new.builder ≡ map.old.builder }
{
    match map.insert_overwrite(item) {
        Ok(displaced) => tell(map, TriReply::Displaced(displaced), sink),
        Err(MemoryRefused { value }) => tell(map, TriReply::Memory(value), sink),
    }
}

/// Inserts the items one by one, each in place of those that conflict with it.
pub(super) fn apply_extend<T: TriHashItemMut + Drop, S: BuildHasher, K: TriSink<T>>(
    map: &mut TriHashMap<T, S>,
    items: Vec<T>,
    sink: &mut K,
) -> Result<(), K::Fault>
    ensures step { Applies (Extends ⟦<T as Ranked>⟧.ranks) K.took
        (state_of map.old) sink.old items.items result (state_of map.new) sink.new }
    ensures builder { map.new.builder ≡ map.old.builder }
{
    match map.extend(items) {
        Ok(()) => tell(map, TriReply::Done, sink),
        Err(MemoryRefused { value }) => tell(map, TriReply::Memory(value), sink),
    }
}

/// Inserts all items if nothing conflicts, and otherwise none.
pub(super) fn apply_extend_unique<T: TriHashItemMut + Drop, S: BuildHasher, K: TriSink<T>>(
    map: &mut TriHashMap<T, S>,
    items: Vec<T>,
    sink: &mut K,
) -> Result<(), K::Fault>
    ensures step { Applies (ExtendsUnique ⟦<T as Ranked>⟧.ranks) K.took
        (state_of map.old) sink.old items.items result (state_of map.new) sink.new }
    ensures builder { map.new.builder ≡ map.old.builder }
{
    match map.extend_unique(items) {
        Ok(()) => tell(map, TriReply::Done, sink),
        Err(refused) => {
            let reason = refused.reason();
            tell(
                map,
                TriReply::ExtendRefused(refused.before, refused.item, reason),
                sink,
            )
        }
    }
}
