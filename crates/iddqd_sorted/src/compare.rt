//! What searches in the order ask of its entries.
ghost use Rattle.std.specs.Prelude.{true, false};
ghost use Rattle.std.specs.Ordering.{ordering_then};
ghost use Rattle.iddqd_order.specs.Search.{order_at, side_of};
ghost use Rattle.iddqd_store.specs.Slots.{get, IsLive};

use crate::entry::Entry;
use crate::item::Sortable;
use iddqd_order::Compare;
use iddqd_store::{ItemSet, Meter, SlotMap};
use std::cmp::Ordering;

/// Compares entries with an item that has this sort key and this first key. It reads an item only where the sort keys are equal.
#[derive(Drop)]
pub(crate) struct ByItem<'a, M: SlotMap>
where
    M::Item: Sortable,
{
    pub(crate) items: &'a ItemSet<M::Item>,
    pub(crate) sort_key: <M::Item as Sortable>::SortKey,
    pub(crate) first_key: &'a M::FirstKey,
}

impl<'a, M: SlotMap> Compare<Entry<<M::Item as Sortable>::SortKey>> for ByItem<'a, M>
where
    M::Item: Sortable,
    M::FirstKey: Ord,
{
    ghost order = { λ p e. ordering_then (M.Item.SortKey.cmp e.sort_key p.sort_key)
        (order_at (λ x. M.FirstKey.cmp (M.first_key x) p.first_key.now) (get p.items.now.slots e.slot)) };

    ghost MayAsk = { λ p e. IsLive p.items.now.slots e.slot };

    fn compare(
        &self,
        entry: &Entry<<M::Item as Sortable>::SortKey>,
        meter: &mut Meter,
    ) -> Ordering {
        meter.tick();
        match entry.sort_key.cmp(&self.sort_key) {
            Ordering::Equal => M::first_key(self.items.item(entry.slot)).cmp(self.first_key),
            unequal => unequal,
        }
    }
}

/// Tells whether an entry is before those that have this sort key. It has no branch on what `past` says, as `Behind` has none.
#[derive(Drop)]
pub(crate) struct Before<'a, K> {
    pub(crate) sort_key: &'a K,
}

impl<'a, K: Ord> Compare<Entry<K>> for Before<'a, K> {
    ghost order = { λ p e. side_of false (K.cmp e.sort_key p.sort_key.now) };

    ghost MayAsk = { λ _ _. Unit {0} };

    fn compare(&self, entry: &Entry<K>, meter: &mut Meter) -> Ordering {
        meter.tick();
        match entry.sort_key.cmp(self.sort_key) {
            Ordering::Less => Ordering::Less,
            Ordering::Equal => Ordering::Greater,
            Ordering::Greater => Ordering::Greater,
        }
    }
}

/// Tells whether an entry is behind those that have this sort key.
#[derive(Drop)]
pub(crate) struct Behind<'a, K> {
    pub(crate) sort_key: &'a K,
}

impl<'a, K: Ord> Compare<Entry<K>> for Behind<'a, K> {
    ghost order = { λ p e. side_of true (K.cmp e.sort_key p.sort_key.now) };

    ghost MayAsk = { λ _ _. Unit {0} };

    fn compare(&self, entry: &Entry<K>, meter: &mut Meter) -> Ordering {
        meter.tick();
        match entry.sort_key.cmp(self.sort_key) {
            Ordering::Less => Ordering::Less,
            Ordering::Equal => Ordering::Less,
            Ordering::Greater => Ordering::Greater,
        }
    }
}
