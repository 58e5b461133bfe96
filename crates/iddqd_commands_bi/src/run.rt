//! Carrying out commands.
ghost use Rattle.std.specs.Prelude.{◌≡◌};
ghost use Rattle.iddqd_store.specs.Map.State.{state_of};
ghost use Rattle.iddqd_commands.specs.Run.{Applies, Run};
ghost use Rattle.iddqd_commands_bi.specs.Step.{Step};

use crate::command::{BiCommand, BiSink};
use iddqd_bi::{BiHashItemMut, BiHashMap};
use std::hash::BuildHasher;

mod entries;
mod inserting;
mod reading;
mod removing;
mod sizing;
mod writing;

use entries::{apply_entry_insert, apply_entry_remove, apply_or_insert};
use inserting::{apply_extend, apply_extend_unique, apply_insert_overwrite, apply_insert_unique};
use reading::{
    tell_done, tell_found_unique, tell_found1, tell_found2, tell_items, tell_length, tell_present,
};
use removing::{apply_remove_unique, apply_remove1, apply_remove2};
use sizing::{apply_reserve, apply_shrink_to};
use writing::{apply_replace1, apply_replace2, apply_set1, apply_set2};

/// A map that carries out commands. `BiHashMap` does, and the contracts of its `run` and `apply` say what these do.
pub trait BiCommands<T: BiHashItemMut> {
    /// Carries out the commands in order, and hands each reply to the sink. The run ends at the sink's first fault,
    /// which it returns. The run has carried out the command of that reply, and none after it.
    ///
    /// Each command costs what `apply` of it does.
    fn run<K: BiSink<T>>(
        &mut self,
        commands: Vec<BiCommand<T>>,
        sink: &mut K,
    ) -> Result<(), K::Fault>;

    /// Carries out one command, and hands its reply to the sink. An error is a fault of the sink; the command was
    /// carried out nevertheless.
    ///
    /// A command costs what its call does, except an `InsertUnique` that is refused for a conflict: it hashes and compares
    /// twice what `insert_unique` does, since it searches once more, for the items that its reply has.
    fn apply<K: BiSink<T>>(&mut self, command: BiCommand<T>, sink: &mut K) -> Result<(), K::Fault>;
}

impl<T: BiHashItemMut + Drop, S: BuildHasher> BiCommands<T> for BiHashMap<T, S>
where
    T::K1: Drop,
    T::K2: Drop,
    T::Data: Drop,
{
    fn run<K: BiSink<T>>(
        &mut self,
        commands: Vec<BiCommand<T>>,
        sink: &mut K,
    ) -> Result<(), K::Fault>
        ensures run { Run (Step T.BiHashItem T.K1.eq T.K2.eq T.put) K.took
            (state_of self.old) sink.old commands.items result (state_of self.new) sink.new }
        ensures builder { self.new.builder ≡ self.old.builder }
    {
        for command in commands {
            self.apply(command, sink)?;
        }
        Ok(())
    }

    fn apply<K: BiSink<T>>(&mut self, command: BiCommand<T>, sink: &mut K) -> Result<(), K::Fault>
        ensures step { Applies (Step T.BiHashItem T.K1.eq T.K2.eq T.put) K.took
            (state_of self.old) sink.old command result (state_of self.new) sink.new }
        ensures builder { self.new.builder ≡ self.old.builder }
    {
        // On entry a function clears the stack space of all its values. So no arm holds a reply: each is a call, and a
        // lookup does not pay for the replies of all other commands.
        match command {
            BiCommand::InsertUnique(item) => apply_insert_unique(self, item, sink),
            BiCommand::InsertOverwrite(item) => apply_insert_overwrite(self, item, sink),
            BiCommand::Get1(key) => tell_found1(self, &key, sink),
            BiCommand::Get2(key) => tell_found2(self, &key, sink),
            BiCommand::GetUnique(key1, key2) => tell_found_unique(self, &key1, &key2, sink),
            BiCommand::Contains1(key) => tell_present(self, self.contains_key1(&key), sink),
            BiCommand::Contains2(key) => tell_present(self, self.contains_key2(&key), sink),
            BiCommand::ContainsUnique(key1, key2) => tell_present(
                self,
                self.contains_key_unique(&key1, &key2),
                sink,
            ),
            BiCommand::Remove1(key) => apply_remove1(self, &key, sink),
            BiCommand::Remove2(key) => apply_remove2(self, &key, sink),
            BiCommand::RemoveUnique(key1, key2) => apply_remove_unique(self, &key1, &key2, sink),
            BiCommand::Reserve(more) => apply_reserve(self, more, sink),
            BiCommand::ShrinkTo(least) => apply_shrink_to(self, least, sink),
            BiCommand::ShrinkToFit => apply_shrink_to(self, 0, sink),
            BiCommand::Clear => {
                self.clear();
                tell_done(self, sink)
            }
            BiCommand::Len => tell_length(self, sink),
            BiCommand::Items => tell_items(self, sink),
            BiCommand::Extend(items) => apply_extend(self, items, sink),
            BiCommand::ExtendUnique(items) => apply_extend_unique(self, items, sink),
            BiCommand::EntryInsert(key1, key2, item) => apply_entry_insert(
                self, &key1, &key2, item, sink,
            ),
            BiCommand::EntryRemove(key1, key2) => apply_entry_remove(self, &key1, &key2, sink),
            BiCommand::OrInsert(key1, key2, item) => apply_or_insert(
                self, &key1, &key2, item, sink,
            ),
            BiCommand::Replace1(key, item) => apply_replace1(self, &key, item, sink),
            BiCommand::Replace2(key, item) => apply_replace2(self, &key, item, sink),
            BiCommand::Set1(key, data) => apply_set1(self, &key, data, sink),
            BiCommand::Set2(key, data) => apply_set2(self, &key, data, sink),
        }
    }
}
