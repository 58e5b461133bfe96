//! Handing a reply to the sink, and the commands that only read the map.
ghost use Rattle.std.specs.Prelude.{length};
ghost use Rattle.iddqd_store.specs.Bag.{conflicting};
ghost use Rattle.iddqd_store.specs.Map.{bag};
ghost use Rattle.iddqd_store.specs.Map.State.{state_of};
ghost use Rattle.iddqd_commands.specs.Reply.{done, present, duplicate, items, size};
ghost use Rattle.iddqd_commands.specs.Run.{Applies};
ghost use Rattle.iddqd_commands.specs.Step.{Fits, Gets};
ghost use Rattle.iddqd_commands.specs.Values.{value_of};
ghost use Rattle.iddqd_bi.specs.Keys.{has1, has2, has_both};

use crate::command::{BiReply, BiSink};
use iddqd_bi::{BiHashItemMut, BiHashMap, Ranked};
use iddqd_store::DuplicateItem;
use std::hash::BuildHasher;

/// Hands a reply to the sink. The clauses of each of these functions state that the items fit, because the clauses of
/// each step state it; the map's capacity tells that. A reply that borrows nothing would leave its lifetime open, so each
/// reply is handed over from a borrow of the map. The function is inlined, so that the sink's code knows the reply.
#[inline(always)]
pub(super) fn tell<'m, T: BiHashItemMut, S: BuildHasher, K: BiSink<T>>(
    map: &'m BiHashMap<T, S>,
    reply: BiReply<'m, T>,
    sink: &mut K,
) -> Result<(), K::Fault>
    ensures took { K.took sink.old (value_of reply.entry) result sink.new }
    ensures fits { Fits (state_of map.now) }
{
    let _ = map.capacity();
    sink.take(reply)
}

/// Tells that a command was carried out.
pub(super) fn tell_done<T: BiHashItemMut, S: BuildHasher, K: BiSink<T>>(
    map: &BiHashMap<T, S>,
    sink: &mut K,
) -> Result<(), K::Fault>
    ensures took { K.took sink.old done result sink.new }
    ensures fits { Fits (state_of map.now) }
{
    tell(map, BiReply::Done, sink)
}

/// Tells whether there is an item.
pub(super) fn tell_present<T: BiHashItemMut, S: BuildHasher, K: BiSink<T>>(
    map: &BiHashMap<T, S>,
    answer: bool,
    sink: &mut K,
) -> Result<(), K::Fault>
    ensures took { K.took sink.old (present answer) result sink.new }
    ensures fits { Fits (state_of map.now) }
{
    tell(map, BiReply::Present(answer), sink)
}

/// Tells how many items there are.
pub(super) fn tell_length<T: BiHashItemMut, S: BuildHasher, K: BiSink<T>>(
    map: &BiHashMap<T, S>,
    sink: &mut K,
) -> Result<(), K::Fault>
    ensures took { K.took sink.old (size (length (bag map.now))) result sink.new }
    ensures fits { Fits (state_of map.now) }
{
    tell(map, BiReply::Length(map.len()), sink)
}

/// Tells which item has this first key.
pub(super) fn tell_found1<T: BiHashItemMut, S: BuildHasher, K: BiSink<T>>(
    map: &BiHashMap<T, S>,
    key: &T::K1,
    sink: &mut K,
) -> Result<(), K::Fault>
    ensures { Applies Gets K.took (state_of map.now) sink.old
        (has1 T.BiHashItem T.K1.eq key.now) result (state_of map.now) sink.new }
{
    tell(map, BiReply::Found(map.get1(key)), sink)
}

/// Tells which item has this second key.
pub(super) fn tell_found2<T: BiHashItemMut, S: BuildHasher, K: BiSink<T>>(
    map: &BiHashMap<T, S>,
    key: &T::K2,
    sink: &mut K,
) -> Result<(), K::Fault>
    ensures { Applies Gets K.took (state_of map.now) sink.old
        (has2 T.BiHashItem T.K2.eq key.now) result (state_of map.now) sink.new }
{
    tell(map, BiReply::Found(map.get2(key)), sink)
}

/// Tells which item has both keys.
pub(super) fn tell_found_unique<T: BiHashItemMut, S: BuildHasher, K: BiSink<T>>(
    map: &BiHashMap<T, S>,
    key1: &T::K1,
    key2: &T::K2,
    sink: &mut K,
) -> Result<(), K::Fault>
    ensures { Applies Gets K.took (state_of map.now) sink.old
        (has_both T.BiHashItem T.K1.eq T.K2.eq key1.now key2.now) result (state_of map.now) sink.new }
{
    tell(map, BiReply::Found(map.get_unique(key1, key2)), sink)
}

/// Tells that the item was not inserted, and which items conflict with it.
pub(super) fn tell_duplicate<T: BiHashItemMut, S: BuildHasher, K: BiSink<T>>(
    map: &BiHashMap<T, S>,
    item: T,
    sink: &mut K,
) -> Result<(), K::Fault>
    ensures took { K.took sink.old (duplicate item (conflicting ⟦<T as Ranked>⟧.ranks (bag map.now) item)) result sink.new }
    ensures fits { Fits (state_of map.now) }
{
    let duplicates = map.conflicts_with(&item);
    tell(
        map,
        BiReply::Duplicate(DuplicateItem::new(item, duplicates)),
        sink,
    )
}

/// Tells the items.
pub(super) fn tell_items<T: BiHashItemMut, S: BuildHasher, K: BiSink<T>>(
    map: &BiHashMap<T, S>,
    sink: &mut K,
) -> Result<(), K::Fault>
    ensures took { K.took sink.old (items (bag map.now)) result sink.new }
    ensures fits { Fits (state_of map.now) }
{
    tell(map, BiReply::Items(map.iter()), sink)
}
