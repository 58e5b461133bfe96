//! Entries that come to their places in the order.
ghost use Rattle.std.specs.Prelude.{◌≡◌, ℕ, ◌+◌, ◌<◌, ◌≤◌, [], All, true, length, Some, None, slice_index_or, slice_set};
ghost use Rattle.std.specs.List.{remove};
ghost use Rattle.std.specs.declared.cmp.Ordering.TheVariants.{Less, Equal, Greater};
ghost use Rattle.iddqd_order.specs.Row.{entries_in, line, position, HasEntry};
ghost use Rattle.iddqd_order.specs.Search.{ComparesWithin, IsSearchable, IsSplit};
ghost use Rattle.iddqd_store.specs.Bag.{conflicts_of};
ghost use Rattle.iddqd_store.specs.Slots.{contents, get, IsLive};
ghost use Rattle.iddqd_sorted.specs.Keeping.{ComparesOnceIf};
ghost use Rattle.iddqd_sorted.specs.Settled.{ListsBefore, ListsOthers, Resettles, Settles};
ghost use Rattle.iddqd_sorted.specs.declared.entry.Entry.{Entry};

use crate::compare::ByItem;
use crate::entry::{Entry, Order};
use crate::item::{SortOrder, Sortable};
use iddqd_order::{Blocks, Compare, Place};
use iddqd_store::{ItemIndex, Meter, SlotMap};
use std::cmp::Ordering;

/// Returns the place of the entry of a slot. Among fewer than `4 ^ r` entries it compares at most `3 * r + 16` sort keys.
pub(super) fn place_of_slot<M: SlotMap>(
    map: &M,
    order: &Order<M>,
    slot: ItemIndex,
    meter: &mut Meter,
) -> Place
where
    M::Item: Sortable,
    M::FirstKey: Ord,
    requires live { IsLive (M.shown map.now).slots slot }
    requires listed { ⟦<M as SortOrder>⟧.Lists (M.shown map.now).slots (line order.now.blocks) }
    ensures entry { HasEntry order.now.blocks result }
    ensures slot { (d : Entry M.Item.SortKey) → (slice_index_or (line order.now.blocks) (position order.now.blocks result) d).slot ≡ slot }
    ensures within { position order.now.blocks result < length (line order.now.blocks) }
    ensures fits { length (line order.now.blocks) ≤ order.now.capacity }
    ensures asked { ComparesWithin 3 16 (length (line order.now.blocks)) meter.old meter.new }
{
    let item = map.slots().item(slot);
    let compare: ByItem<'_, M> = ByItem {
        items: map.slots(),
        sort_key: item.sort_key(),
        first_key: M::first_key(item),
    };
    match order.search(&compare, meter) {
        Ok(place) => place,
        Err(_) => unreachable!(),
    }
}

/// Returns the place of the entry of a slot whose item changed, but for its first key: `before` was its sort key. Among fewer than
/// `4 ^ r` entries it compares at most `3 * r + 16` sort keys.
fn place_before_change<M: SlotMap>(
    map: &M,
    order: &Order<M>,
    slot: ItemIndex,
    before: <M::Item as Sortable>::SortKey,
    meter: &mut Meter,
) -> Place
where
    M::Item: Sortable,
    M::FirstKey: Ord,
    requires live { IsLive (M.shown map.now).slots slot }
    requires lists { ListsBefore M.Item.sort_key M.Item.SortKey.cmp M.first_key M.FirstKey.cmp
        (M.shown map.now).slots slot before (line order.now.blocks) }
    ensures entry { HasEntry order.now.blocks result }
    ensures slot { (d : Entry M.Item.SortKey) → (slice_index_or (line order.now.blocks) (position order.now.blocks result) d).slot ≡ slot }
    ensures within { position order.now.blocks result < length (line order.now.blocks) }
    ensures fits { length (line order.now.blocks) ≤ order.now.capacity }
    ensures asked { ComparesWithin 3 16 (length (line order.now.blocks)) meter.old meter.new }
{
    let item = map.slots().item(slot);
    let compare: ByItem<'_, M> = ByItem {
        items: map.slots(),
        sort_key: before,
        first_key: M::first_key(item),
    };
    match order.search(&compare, meter) {
        Ok(place) => place,
        Err(_) => unreachable!(),
    }
}

/// Brings the entry of a slot whose item changed, but for its first key, to the place of the item: `before` was its sort key. If the
/// sort key stayed, it compares once, and no entry changes. Otherwise, among fewer than `4 ^ r` entries, it compares at most
/// `6 * r + 38` sort keys. It asks for no memory.
pub(super) fn resettle_changed<M: SlotMap>(
    map: &M,
    order: &mut Order<M>,
    slot: ItemIndex,
    before: <M::Item as Sortable>::SortKey,
    meter: &mut Meter,
)
where
    M::Item: Sortable,
    M::FirstKey: Ord,
    requires live { IsLive (M.shown map.now).slots slot }
    requires lists { ListsBefore M.Item.sort_key M.Item.SortKey.cmp M.first_key M.FirstKey.cmp
        (M.shown map.now).slots slot before (line order.old.blocks) }
    requires free { (x : M.Item) → get (M.shown map.now).slots slot ≡ Some x
        → conflicts_of M.ranks (contents (slice_set (M.shown map.now).slots slot None)) x ≡ [] }
    ensures settles { Resettles ⟦<M as SortOrder>⟧.order M.Item.sort_key M.Item.SortKey.cmp
        (M.shown map.now).slots slot (line order.old.blocks) (line order.new.blocks) }
    ensures capacity { order.new.capacity ≡ order.old.capacity }
    ensures asked { ComparesWithin 6 38 (length (line order.old.blocks)) meter.old meter.new }
    ensures asked_once { (x : M.Item) → get (M.shown map.now).slots slot ≡ Some x
        → ComparesOnceIf (M.Item.SortKey.cmp before (M.Item.sort_key x) ≡ Equal) meter.old meter.new }
{
    meter.tick();
    let after = map.slots().item(slot).sort_key();
    if let Ordering::Equal = before.cmp(&after) {
        return;
    }
    let place = place_before_change(map, order, slot, before, meter);
    resettle(map, order, place, slot, meter);
}

/// Inserts the entry of a slot, which the order does not list yet, at the place where the slot's item belongs. No other item
/// conflicts with it, and the entry fits. The call asks for no memory. Among fewer than `4 ^ r` entries it compares at
/// most `3 * r + 19` sort keys.
pub(super) fn settle<M: SlotMap>(map: &M, order: &mut Order<M>, slot: ItemIndex, meter: &mut Meter)
where
    M::Item: Sortable,
    M::FirstKey: Ord,
    requires live { IsLive (M.shown map.now).slots slot }
    requires free { (x : M.Item) → get (M.shown map.now).slots slot ≡ Some x
        → conflicts_of M.ranks (contents (slice_set (M.shown map.now).slots slot None)) x ≡ [] }
    requires others { ListsOthers ⟦<M as SortOrder>⟧.order M.Item.sort_key M.Item.SortKey.cmp
        (M.shown map.now).slots slot (line order.old.blocks) }
    requires room { length (line order.old.blocks) < order.old.capacity }
    ensures settles { Settles ⟦<M as SortOrder>⟧.order M.Item.sort_key M.Item.SortKey.cmp
        (M.shown map.now).slots slot (line order.old.blocks) (line order.new.blocks) }
    ensures capacity { order.new.capacity ≡ order.old.capacity }
    ensures asked { ComparesWithin 3 19 (length (line order.old.blocks)) meter.old meter.new }
{
    let item = map.slots().item(slot);
    let sort_key = item.sort_key();
    let compare: ByItem<'_, M> = ByItem {
        items: map.slots(),
        sort_key,
        first_key: M::first_key(item),
    };
    let Err(place) = order.search_last_first(&compare, meter) else {
        unreachable!()
    };
    let _ = order.insert_within(place, Entry { sort_key, slot });
}

/// Brings the entry at a place to the place of its slot's item, which changed. No other item conflicts with it. The call
/// asks for no memory. Among fewer than `4 ^ r` entries it compares at most `3 * r + 21` sort keys. If the item does not
/// pass a neighbour in the order, no other entry moves.
pub(super) fn resettle<M: SlotMap>(
    map: &M,
    order: &mut Order<M>,
    place: Place,
    slot: ItemIndex,
    meter: &mut Meter,
)
where
    M::Item: Sortable,
    M::FirstKey: Ord,
    requires entry { HasEntry order.old.blocks place }
    requires live { IsLive (M.shown map.now).slots slot }
    requires free { (x : M.Item) → get (M.shown map.now).slots slot ≡ Some x
        → conflicts_of M.ranks (contents (slice_set (M.shown map.now).slots slot None)) x ≡ [] }
    requires others { ListsOthers ⟦<M as SortOrder>⟧.order M.Item.sort_key M.Item.SortKey.cmp
        (M.shown map.now).slots slot (remove (line order.old.blocks) (position order.old.blocks place)) }
    requires fits { length (line order.old.blocks) ≤ order.old.capacity }
    ensures settles { Settles ⟦<M as SortOrder>⟧.order M.Item.sort_key M.Item.SortKey.cmp
        (M.shown map.now).slots slot (remove (line order.old.blocks) (position order.old.blocks place)) (line order.new.blocks) }
    ensures capacity { order.new.capacity ≡ order.old.capacity }
    ensures asked { ComparesWithin 3 21 (length (line order.old.blocks)) meter.old meter.new }
{
    let item = map.slots().item(slot);
    let sort_key = item.sort_key();
    let compare: ByItem<'_, M> = ByItem {
        items: map.slots(),
        sort_key,
        first_key: M::first_key(item),
    };
    if stays_in(order, place, &compare, meter) {
        let _ = order.replace(place, Entry { sort_key, slot });
        return;
    }
    let _ = order.remove(place);
    settle(map, order, slot, meter);
}

/// Returns whether what is sought is behind the entry before this place, or there is none.
fn is_above_previous<E, C: Compare<E>>(
    order: &Blocks<E>,
    place: Place,
    sought: &C,
    meter: &mut Meter,
) -> bool
    requires entry { HasEntry order.now.blocks place }
    requires asks { All (C.MayAsk sought.now) (remove (entries_in order.now) (position order.now.blocks place)) }
    requires ordered { IsSearchable (C.order sought.now) (remove (entries_in order.now) (position order.now.blocks place)) }
    ensures lower { result ≡ true → (j : ℕ) (d : E) → j < position order.now.blocks place
        → C.order sought.now (slice_index_or (entries_in order.now) j d) ≡ Less }
    ensures asked { meter.new ≤ meter.old + 1 }
{
    match order.previous(place) {
        Some(previous) => match sought.compare(order.entry_in(previous), meter) {
            Ordering::Less => true,
            _ => false,
        },
        None => true,
    }
}

/// Returns whether what is sought is before the entry behind this place, or there is none.
fn is_below_next<E, C: Compare<E>>(
    order: &Blocks<E>,
    place: Place,
    sought: &C,
    meter: &mut Meter,
) -> bool
    requires entry { HasEntry order.now.blocks place }
    requires asks { All (C.MayAsk sought.now) (remove (entries_in order.now) (position order.now.blocks place)) }
    requires ordered { IsSearchable (C.order sought.now) (remove (entries_in order.now) (position order.now.blocks place)) }
    ensures higher { result ≡ true → (j : ℕ) (d : E) → position order.now.blocks place < j → j < length (entries_in order.now)
        → C.order sought.now (slice_index_or (entries_in order.now) j d) ≡ Greater }
    ensures asked { meter.new ≤ meter.old + 1 }
{
    match order.next(place) {
        Some(next) => match sought.compare(order.entry_in(next), meter) {
            Ordering::Greater => true,
            _ => false,
        },
        None => true,
    }
}

/// Returns whether what is sought may stand in the place of the entry at this place.
fn stays_in<E, C: Compare<E>>(
    order: &Blocks<E>,
    place: Place,
    sought: &C,
    meter: &mut Meter,
) -> bool
    requires entry { HasEntry order.now.blocks place }
    requires asks { All (C.MayAsk sought.now) (remove (entries_in order.now) (position order.now.blocks place)) }
    requires ordered { IsSearchable (C.order sought.now) (remove (entries_in order.now) (position order.now.blocks place)) }
    ensures gap { result ≡ true → IsSplit (C.order sought.now) (remove (entries_in order.now) (position order.now.blocks place))
        (position order.now.blocks place) 0 }
    ensures asked { meter.new ≤ meter.old + 2 }
{
    if !is_above_previous(order, place, sought, meter) {
        return false;
    }
    is_below_next(order, place, sought, meter)
}
