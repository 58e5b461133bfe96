//! The map, its fields and its invariant.
use crate::entry::Order;
use crate::item::Sortable;
use iddqd_store::SlotMap;
use std::marker::Model;

mod batch;
mod build;
mod capacity;
mod clone;
mod collect;
mod collection;
mod compare;
mod emptied;
mod ends;
mod extend;
mod extend_unique;
mod insert;
mod inside;
mod iterate;
mod overwrite;
mod places;
mod range;
pub(crate) mod rekey;
mod remove;
mod replace;
mod retain;
mod settle;
mod shrink;
mod update;

/// A hash map that also lists its items in ascending order of their sort keys, and those of one sort key in ascending order of
/// their first keys.
///
/// It is the hash map and, beside it, an order of its slots. So no item is kept twice, and each lookup is one of the map inside.
/// Beside an item the order has its sort key and the number of its slot, with a sort key of 8 bytes 16 bytes for each item.
#[derive(Drop)]
pub struct Sorted<M: SlotMap>
where
    M::Item: Sortable,
    M::FirstKey: Ord,
{
    map: M,
    order: Order<M>,
}

impl<M: SlotMap> Model for Sorted<M>
where
    M::Item: Sortable,
    M::FirstKey: Ord,
{
    ghost use Rattle.std.specs.Prelude.{min};
    ghost use Rattle.iddqd_order.specs.Row.{line};
    ghost use Rattle.iddqd_sorted.specs.Entries.{IsListed};
    ghost use Rattle.iddqd_sorted.specs.Items.{SortedValue, sorted_code, by_sort};

    ghost Value = { SortedValue M.Item M.Item.SortKey M.Builder };

    ghost coded = { sorted_code M.Item.code M.Item.SortKey.code M.Builder.code };

    ghost view = { λ m. record {
      slots = (M.shown m.map).slots;
      blocks = m.order.blocks;
      capacity = min (M.shown m.map).capacity m.order.capacity;
      builder = (M.shown m.map).builder;
    } };

    // The order lists exactly the slots that have an item. That no two items have an equal key of the same rank, and that the
    // tables lead to them, is the invariant of the map inside.
    ghost invariant = { λ m. IsListed (by_sort M.Item.sort_key M.Item.SortKey.cmp M.first_key M.FirstKey.cmp) M.Item.sort_key M.Item.SortKey.cmp
        (M.shown m.map).slots (line m.order.blocks) };
}
