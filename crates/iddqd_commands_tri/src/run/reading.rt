//! Handing a reply to the sink, and the commands that only read the map.
//!
//! Made by tests/widths from crates/iddqd_commands_bi/src/run/reading.rt: change that file.
ghost use Rattle.std.specs.Prelude.{length};
ghost use Rattle.iddqd_store.specs.Bag.{conflicting};
ghost use Rattle.iddqd_store.specs.Map.{bag};
ghost use Rattle.iddqd_store.specs.Map.State.{state_of};
ghost use Rattle.iddqd_commands.specs.Reply.{done, present, duplicate, items, size};
ghost use Rattle.iddqd_commands.specs.Run.{Applies};
ghost use Rattle.iddqd_commands.specs.Step.{Fits, Gets};
ghost use Rattle.iddqd_commands.specs.Values.{value_of};
ghost use Rattle.iddqd_tri.specs.Keys.{has1, has2, has3, has_all};

use crate::command::{TriReply, TriSink};
use iddqd_store::DuplicateItem;
use iddqd_tri::{Ranked, TriHashItemMut, TriHashMap};
use std::hash::BuildHasher;

/// Hands a reply to the sink. The clauses of each of these functions state that the items fit, because the clauses of
/// each step state it; the map's capacity tells that. A reply that borrows nothing would leave its lifetime open, so
/// each reply is handed over from a borrow of the map. The function is inlined, so that the sink's code knows the
/// reply.
#[inline(always)]
pub(super) fn tell<'m, T: TriHashItemMut, S: BuildHasher, K: TriSink<T>>(
    map: &'m TriHashMap<T, S>,
    reply: TriReply<'m, T>,
    sink: &mut K,
) -> Result<(), K::Fault>
    ensures took { K.took sink.old (value_of reply.entry) result sink.new }
    ensures fits { Fits (state_of map.now) }
{
    let _ = map.capacity();
    sink.take(reply)
}

/// Tells that a command was carried out.
pub(super) fn tell_done<T: TriHashItemMut, S: BuildHasher, K: TriSink<T>>(
    map: &TriHashMap<T, S>,
    sink: &mut K,
) -> Result<(), K::Fault>
    ensures took { K.took sink.old done result sink.new }
    ensures fits { Fits (state_of map.now) }
{
    tell(map, TriReply::Done, sink)
}

/// Tells whether there is an item.
pub(super) fn tell_present<T: TriHashItemMut, S: BuildHasher, K: TriSink<T>>(
    map: &TriHashMap<T, S>,
    answer: bool,
    sink: &mut K,
) -> Result<(), K::Fault>
    ensures took { K.took sink.old (present answer) result sink.new }
    ensures fits { Fits (state_of map.now) }
{
    tell(map, TriReply::Present(answer), sink)
}

/// Tells how many items there are.
pub(super) fn tell_length<T: TriHashItemMut, S: BuildHasher, K: TriSink<T>>(
    map: &TriHashMap<T, S>,
    sink: &mut K,
) -> Result<(), K::Fault>
    ensures took { K.took sink.old (size (length (bag map.now))) result sink.new }
    ensures fits { Fits (state_of map.now) }
{
    tell(map, TriReply::Length(map.len()), sink)
}

/// Tells which item has this first key.
pub(super) fn tell_found1<T: TriHashItemMut, S: BuildHasher, K: TriSink<T>>(
    map: &TriHashMap<T, S>,
    key: &T::K1,
    sink: &mut K,
) -> Result<(), K::Fault>
    ensures { Applies Gets K.took (state_of map.now) sink.old
        (has1 T.TriHashItem T.K1.eq key.now) result (state_of map.now) sink.new }
{
    tell(map, TriReply::Found(map.get1(key)), sink)
}

/// Tells which item has this second key.
pub(super) fn tell_found2<T: TriHashItemMut, S: BuildHasher, K: TriSink<T>>(
    map: &TriHashMap<T, S>,
    key: &T::K2,
    sink: &mut K,
) -> Result<(), K::Fault>
    ensures { Applies Gets K.took (state_of map.now) sink.old
        (has2 T.TriHashItem T.K2.eq key.now) result (state_of map.now) sink.new }
{
    tell(map, TriReply::Found(map.get2(key)), sink)
}

/// Tells which item has this third key.
pub(super) fn tell_found3<T: TriHashItemMut, S: BuildHasher, K: TriSink<T>>(
    map: &TriHashMap<T, S>,
    key: &T::K3,
    sink: &mut K,
) -> Result<(), K::Fault>
    ensures { Applies Gets K.took (state_of map.now) sink.old
        (has3 T.TriHashItem T.K3.eq key.now) result (state_of map.now) sink.new }
{
    tell(map, TriReply::Found(map.get3(key)), sink)
}

/// Tells which item has all keys.
pub(super) fn tell_found_unique<T: TriHashItemMut, S: BuildHasher, K: TriSink<T>>(
    map: &TriHashMap<T, S>,
    key1: &T::K1,
    key2: &T::K2,
    key3: &T::K3,
    sink: &mut K,
) -> Result<(), K::Fault>
    ensures { Applies Gets K.took (state_of map.now) sink.old
        (has_all T.TriHashItem T.K1.eq T.K2.eq T.K3.eq key1.now key2.now key3.now) result (state_of map.now) sink.new }
{
    tell(map, TriReply::Found(map.get_unique(key1, key2, key3)), sink)
}

/// Tells that the item was not inserted, and which items conflict with it.
pub(super) fn tell_duplicate<T: TriHashItemMut, S: BuildHasher, K: TriSink<T>>(
    map: &TriHashMap<T, S>,
    item: T,
    sink: &mut K,
) -> Result<(), K::Fault>
    ensures took { K.took sink.old (duplicate item (conflicting ⟦<T as Ranked>⟧.ranks
        (bag map.now) item)) result sink.new }
    ensures fits { Fits (state_of map.now) }
{
    let duplicates = map.conflicts_with(&item);
    tell(
        map,
        TriReply::Duplicate(DuplicateItem::new(item, duplicates)),
        sink,
    )
}

/// Tells the items.
pub(super) fn tell_items<T: TriHashItemMut, S: BuildHasher, K: TriSink<T>>(
    map: &TriHashMap<T, S>,
    sink: &mut K,
) -> Result<(), K::Fault>
    ensures took { K.took sink.old (items (bag map.now)) result sink.new }
    ensures fits { Fits (state_of map.now) }
{
    tell(map, TriReply::Items(map.iter()), sink)
}
