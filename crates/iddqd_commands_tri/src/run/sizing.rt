//! Carrying out the commands that change the capacity.
//!
//! Made by tests/widths from crates/iddqd_commands_bi/src/run/sizing.rt: change that file.
ghost use Rattle.std.specs.Prelude.{◌≡◌};
ghost use Rattle.iddqd_store.specs.Map.State.{state_of};
ghost use Rattle.iddqd_commands.specs.Run.{Applies};
ghost use Rattle.iddqd_commands.specs.Step.{Reserves, ShrinksTo};

use super::reading::tell;
use crate::command::{TriReply, TriSink};
use iddqd_tri::{TriHashItemMut, TriHashMap};
use std::hash::BuildHasher;

/// Reserves capacity for more items.
pub(super) fn apply_reserve<T: TriHashItemMut, S: BuildHasher, K: TriSink<T>>(
    map: &mut TriHashMap<T, S>,
    more: usize,
    sink: &mut K,
) -> Result<(), K::Fault>
    ensures step { Applies Reserves K.took
        (state_of map.old) sink.old more result (state_of map.new) sink.new }
    ensures builder { map.new.builder ≡ map.old.builder }
{
    match map.reserve(more) {
        Ok(()) => tell(map, TriReply::Done, sink),
        Err(_) => tell(map, TriReply::Refused, sink),
    }
}

/// Shrinks the capacity, but not below this number nor that of the items.
pub(super) fn apply_shrink_to<T: TriHashItemMut + Drop, S: BuildHasher, K: TriSink<T>>(
    map: &mut TriHashMap<T, S>,
    least: usize,
    sink: &mut K,
) -> Result<(), K::Fault>
    ensures step { Applies ShrinksTo K.took
        (state_of map.old) sink.old least result (state_of map.new) sink.new }
    ensures builder { map.new.builder ≡ map.old.builder }
{
    match map.shrink_to(least) {
        Ok(()) => tell(map, TriReply::Done, sink),
        Err(_) => tell(map, TriReply::Refused, sink),
    }
}
