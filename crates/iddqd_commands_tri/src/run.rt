//! Carrying out commands.
//!
//! Made by tests/widths from crates/iddqd_commands_bi/src/run.rt: change that file.
ghost use Rattle.std.specs.Prelude.{◌≡◌};
ghost use Rattle.iddqd_store.specs.Map.State.{state_of};
ghost use Rattle.iddqd_commands.specs.Run.{Applies, Run};
ghost use Rattle.iddqd_commands_tri.specs.Step.{Step};

use crate::command::{TriCommand, TriSink};
use iddqd_tri::{TriHashItemMut, TriHashMap};
use std::hash::BuildHasher;

mod entries;
mod inserting;
mod reading;
mod removing;
mod sizing;
mod writing;

use entries::{apply_entry_insert, apply_entry_remove, apply_or_insert};
use inserting::{apply_extend, apply_extend_unique, apply_insert_overwrite, apply_insert_unique};
use reading::{
    tell_done, tell_found_unique, tell_found1, tell_found2, tell_found3, tell_items, tell_length,
    tell_present,
};
use removing::{apply_remove_unique, apply_remove1, apply_remove2, apply_remove3};
use sizing::{apply_reserve, apply_shrink_to};
use writing::{apply_replace1, apply_replace2, apply_replace3, apply_set1, apply_set2, apply_set3};

/// A map that carries out commands. `TriHashMap` does, and the contracts of its `run` and `apply` say what these do.
pub trait TriCommands<T: TriHashItemMut> {
    /// Carries out the commands in order, and hands each reply to the sink. The run ends at the sink's first fault,
    /// which it returns. The run has carried out the command of that reply, and none after it.
    ///
    /// Each command costs what `apply` of it does.
    fn run<K: TriSink<T>>(
        &mut self,
        commands: Vec<TriCommand<T>>,
        sink: &mut K,
    ) -> Result<(), K::Fault>;

    /// Carries out one command, and hands its reply to the sink. An error is a fault of the sink; the command was
    /// carried out nevertheless.
    ///
    /// A command costs what its call does, except an `InsertUnique` that is refused for a conflict: it hashes and
    /// compares twice what `insert_unique` does, since it searches once more, for the items that its reply has.
    fn apply<K: TriSink<T>>(
        &mut self,
        command: TriCommand<T>,
        sink: &mut K,
    ) -> Result<(), K::Fault>;
}

impl<T: TriHashItemMut + Drop, S: BuildHasher> TriCommands<T> for TriHashMap<T, S>
where
    T::K1: Drop,
    T::K2: Drop,
    T::K3: Drop,
    T::Data: Drop,
{
    fn run<K: TriSink<T>>(
        &mut self,
        commands: Vec<TriCommand<T>>,
        sink: &mut K,
    ) -> Result<(), K::Fault>
        ensures run { Run (Step T.TriHashItem T.K1.eq T.K2.eq T.K3.eq T.put) K.took
            (state_of self.old) sink.old commands.items result (state_of self.new) sink.new }
        ensures builder { self.new.builder ≡ self.old.builder }
    {
        for command in commands {
            self.apply(command, sink)?;
        }
        Ok(())
    }

    fn apply<K: TriSink<T>>(&mut self, command: TriCommand<T>, sink: &mut K) -> Result<(), K::Fault>
        ensures step { Applies (Step T.TriHashItem T.K1.eq T.K2.eq T.K3.eq T.put) K.took
            (state_of self.old) sink.old command result (state_of self.new) sink.new }
        ensures builder { self.new.builder ≡ self.old.builder }
    {
        // On entry a function clears the stack space of all its values. So no arm holds a reply: each is a call, and a
        // lookup does not pay for the replies of all other commands.
        match command {
            TriCommand::InsertUnique(item) => apply_insert_unique(self, item, sink),
            TriCommand::InsertOverwrite(item) => apply_insert_overwrite(self, item, sink),
            TriCommand::Get1(key) => tell_found1(self, &key, sink),
            TriCommand::Get2(key) => tell_found2(self, &key, sink),
            TriCommand::Get3(key) => tell_found3(self, &key, sink),
            TriCommand::GetUnique(key1, key2, key3) => tell_found_unique(
                self, &key1, &key2, &key3, sink,
            ),
            TriCommand::Contains1(key) => tell_present(self, self.contains_key1(&key), sink),
            TriCommand::Contains2(key) => tell_present(self, self.contains_key2(&key), sink),
            TriCommand::Contains3(key) => tell_present(self, self.contains_key3(&key), sink),
            TriCommand::ContainsUnique(key1, key2, key3) => tell_present(
                self,
                self.contains_key_unique(&key1, &key2, &key3),
                sink,
            ),
            TriCommand::Remove1(key) => apply_remove1(self, &key, sink),
            TriCommand::Remove2(key) => apply_remove2(self, &key, sink),
            TriCommand::Remove3(key) => apply_remove3(self, &key, sink),
            TriCommand::RemoveUnique(key1, key2, key3) => apply_remove_unique(
                self, &key1, &key2, &key3, sink,
            ),
            TriCommand::Reserve(more) => apply_reserve(self, more, sink),
            TriCommand::ShrinkTo(least) => apply_shrink_to(self, least, sink),
            TriCommand::ShrinkToFit => apply_shrink_to(self, 0, sink),
            TriCommand::Clear => {
                self.clear();
                tell_done(self, sink)
            }
            TriCommand::Len => tell_length(self, sink),
            TriCommand::Items => tell_items(self, sink),
            TriCommand::Extend(items) => apply_extend(self, items, sink),
            TriCommand::ExtendUnique(items) => apply_extend_unique(self, items, sink),
            TriCommand::EntryInsert(key1, key2, key3, item) => apply_entry_insert(
                self, &key1, &key2, &key3, item, sink,
            ),
            TriCommand::EntryRemove(key1, key2, key3) => apply_entry_remove(
                self, &key1, &key2, &key3, sink,
            ),
            TriCommand::OrInsert(key1, key2, key3, item) => apply_or_insert(
                self, &key1, &key2, &key3, item, sink,
            ),
            TriCommand::Replace1(key, item) => apply_replace1(self, &key, item, sink),
            TriCommand::Replace2(key, item) => apply_replace2(self, &key, item, sink),
            TriCommand::Replace3(key, item) => apply_replace3(self, &key, item, sink),
            TriCommand::Set1(key, data) => apply_set1(self, &key, data, sink),
            TriCommand::Set2(key, data) => apply_set2(self, &key, data, sink),
            TriCommand::Set3(key, data) => apply_set3(self, &key, data, sink),
        }
    }
}
