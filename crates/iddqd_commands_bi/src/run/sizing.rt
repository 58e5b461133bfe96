//! Carrying out the commands that change the capacity.
ghost use Rattle.std.specs.Prelude.{◌≡◌};
ghost use Rattle.iddqd_store.specs.Map.State.{state_of};
ghost use Rattle.iddqd_commands.specs.Run.{Applies};
ghost use Rattle.iddqd_commands.specs.Step.{Reserves, ShrinksTo};

use super::reading::tell;
use crate::command::{BiReply, BiSink};
use iddqd_bi::{BiHashItemMut, BiHashMap};
use std::hash::BuildHasher;

/// Reserves capacity for more items.
pub(super) fn apply_reserve<T: BiHashItemMut, S: BuildHasher, K: BiSink<T>>(
    map: &mut BiHashMap<T, S>,
    more: usize,
    sink: &mut K,
) -> Result<(), K::Fault>
    ensures step { Applies Reserves K.took
        (state_of map.old) sink.old more result (state_of map.new) sink.new }
    ensures builder { map.new.builder ≡ map.old.builder }
{
    match map.reserve(more) {
        Ok(()) => tell(map, BiReply::Done, sink),
        Err(_) => tell(map, BiReply::Refused, sink),
    }
}

/// Shrinks the capacity, but not below this number nor that of the items.
pub(super) fn apply_shrink_to<T: BiHashItemMut + Drop, S: BuildHasher, K: BiSink<T>>(
    map: &mut BiHashMap<T, S>,
    least: usize,
    sink: &mut K,
) -> Result<(), K::Fault>
    ensures step { Applies ShrinksTo K.took
        (state_of map.old) sink.old least result (state_of map.new) sink.new }
    ensures builder { map.new.builder ≡ map.old.builder }
{
    match map.shrink_to(least) {
        Ok(()) => tell(map, BiReply::Done, sink),
        Err(_) => tell(map, BiReply::Refused, sink),
    }
}
