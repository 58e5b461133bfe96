//! Single items and their places.
ghost use Rattle.std.specs.Prelude.{◌≡◌, true, false, ◌+◌, ◌-◌, ◌*◌, ◌<◌, ◌≤◌, ◌∷◌, not, drop, length, max, IfSome, IfOk, IfErr, slice_get, slice_index_or, slice_set, OnOk, OnErr};
ghost use Rattle.std.specs.List.{insert, remove};
ghost use Rattle.std.specs.Option.{option_and_then};
ghost use Rattle.iddqd_store.specs.Bag.{IsOnly};
ghost use Rattle.std.specs.Range.Bound.{bound_map};
ghost use Rattle.std.specs.declared.cmp.Ordering.TheVariants.{Equal};
ghost use Rattle.iddqd_order.specs.Row.{position, index_of, HasEntry, IsPlace};
ghost use Rattle.iddqd_order.specs.Search.{ComparesWithin, IsSplit, IsStartOf, is_past, side_of};
ghost use Rattle.iddqd_ord.specs.Items.{items, has, query_comparison, key_comparison, is_from, is_to};
ghost use Rattle.iddqd_ord.specs.Ordered.{IsAscending};

use super::IdOrdMap;
use crate::item::IdOrdItem;
use crate::query::{OrdQuery, OrdSeek};
use iddqd_order::{Compare, Place};
use iddqd_store::{Meter, TryReserveError};
use std::cmp::Ordering;
use std::ops::Bound;

/// Compares the keys of items with a query.
#[derive(Drop)]
struct ByQuery<'a, Q> {
    query: &'a Q,
}

impl<'a, T: IdOrdItem, Q: OrdQuery<T::Key>> Compare<T> for ByQuery<'a, Q> {
    ghost order = { λ p x. Q.compare p.query.now (T.key x) };

    ghost MayAsk = { λ _ _. Unit {0} };

    fn compare(&self, item: &T, meter: &mut Meter) -> Ordering {
        meter.tick();
        self.query.compare(item.key())
    }
}

/// Tells whether an item is before what is sought. It has no branch on what `past` says, as `Behind` has none.
#[derive(Drop)]
struct Before<'a, Q> {
    query: &'a Q,
}

impl<'a, T: IdOrdItem, Q: OrdSeek<T::Key>> Compare<T> for Before<'a, Q> {
    ghost order = { λ p x. side_of false (Q.side p.query.now (T.key x)) };

    ghost MayAsk = { λ _ _. Unit {0} };

    fn compare(&self, item: &T, meter: &mut Meter) -> Ordering {
        meter.tick();
        match self.query.compare_key(item.key()) {
            Ordering::Less => Ordering::Less,
            Ordering::Equal => Ordering::Greater,
            Ordering::Greater => Ordering::Greater,
        }
    }
}

/// Tells whether an item is behind what is sought.
#[derive(Drop)]
struct Behind<'a, Q> {
    query: &'a Q,
}

impl<'a, T: IdOrdItem, Q: OrdSeek<T::Key>> Compare<T> for Behind<'a, Q> {
    ghost order = { λ p x. side_of true (Q.side p.query.now (T.key x)) };

    ghost MayAsk = { λ _ _. Unit {0} };

    fn compare(&self, item: &T, meter: &mut Meter) -> Ordering {
        meter.tick();
        match self.query.compare_key(item.key()) {
            Ordering::Less => Ordering::Less,
            Ordering::Equal => Ordering::Less,
            Ordering::Greater => Ordering::Greater,
        }
    }
}

impl<T: IdOrdItem> IdOrdMap<T> {
    ghost use Rattle.iddqd_ord.specs.Lent.{in_place};

    /// Searches for the item that a query seeks. `Ok` has its place, and `Err` the place at which it would go.
    pub(crate) fn place_of<Q: OrdQuery<T::Key>>(
        &self,
        query: Q,
        meter: &mut Meter,
    ) -> Result<Place, Place>
        ensures entry { IfOk result (HasEntry self.now.blocks) }
        ensures found { IfOk result (λ p. IsSplit (query_comparison T.IdOrdItem Q.compare query) (items self.now)
            (position self.now.blocks p) 1) }
        ensures place { IfErr result (IsPlace self.now.blocks) }
        ensures gap { IfErr result (λ p. IsSplit (query_comparison T.IdOrdItem Q.compare query) (items self.now)
            (position self.now.blocks p) 0) }
        ensures ascending { IsAscending T.Key.cmp T.key (items self.now) }
        ensures fits { length (items self.now) ≤ self.now.capacity }
        ensures asked { ComparesWithin 3 19 (length (items self.now)) meter.old meter.new }
    {
        self.items.search(&ByQuery { query: &query }, meter)
    }

    /// Searches as `place_of` does, for a place to insert at: if the last insert went to the end, it first looks whether this one does
    /// too.
    #[inline(always)]
    pub(crate) fn place_for<Q: OrdQuery<T::Key>>(
        &self,
        query: Q,
        meter: &mut Meter,
    ) -> Result<Place, Place>
        ensures entry { IfOk result (HasEntry self.now.blocks) }
        ensures found { IfOk result (λ p. IsSplit (query_comparison T.IdOrdItem Q.compare query) (items self.now)
            (position self.now.blocks p) 1) }
        ensures place { IfErr result (IsPlace self.now.blocks) }
        ensures gap { IfErr result (λ p. IsSplit (query_comparison T.IdOrdItem Q.compare query) (items self.now)
            (position self.now.blocks p) 0) }
        ensures ascending { IsAscending T.Key.cmp T.key (items self.now) }
        ensures fits { length (items self.now) ≤ self.now.capacity }
        ensures asked { ComparesWithin 3 19 (length (items self.now)) meter.old meter.new }
    {
        self.items
            .search_last_first(&ByQuery { query: &query }, meter)
    }

    /// Returns the place behind all items, if there are some and the query seeks a higher key than theirs.
    #[inline(always)]
    pub(super) fn place_at_end<Q: OrdQuery<T::Key>>(
        &self,
        query: Q,
        meter: &mut Meter,
    ) -> Option<Place>
        ensures place { IfSome result (IsPlace self.now.blocks) }
        ensures gap { IfSome result (λ p. IsSplit (query_comparison T.IdOrdItem Q.compare query) (items self.now)
            (position self.now.blocks p) 0) }
        ensures asked { meter.new ≤ meter.old + 1 }
    {
        self.items.behind_last(&ByQuery { query: &query }, meter)
    }

    /// Returns the item at this place, which is the first of the items from this place on.
    pub(crate) fn item_in(&self, place: Place) -> &T
        requires { HasEntry self.now.blocks place }
        ensures item { (d : T) → result.now ≡ slice_index_or (items self.now) (position self.now.blocks place) d }
        ensures within { position self.now.blocks place < length (items self.now) }
        ensures first { drop (position self.now.blocks place) (items self.now)
            ≡ result.now ∷ drop (position self.now.blocks place + 1) (items self.now) }
    {
        self.items.entry_in(place)
    }

    /// Returns the place of the first item, or `None` if there is none.
    pub(crate) fn first_place(&self) -> Option<Place>
        ensures entry { IfSome result (HasEntry self.now.blocks) }
        ensures index { index_of self.now.blocks result ≡ 0 }
        ensures item { option_and_then (λ p. slice_get (items self.now) (position self.now.blocks p)) result
            ≡ slice_get (items self.now) 0 }
    {
        self.items.first()
    }

    /// Returns the place of the last item, or `None` if there is none.
    pub(crate) fn last_place(&self) -> Option<Place>
        ensures entry { IfSome result (HasEntry self.now.blocks) }
        ensures item { option_and_then (λ p. slice_get (items self.now) (position self.now.blocks p)) result
            ≡ slice_get (items self.now) (length (items self.now) - 1) }
    {
        self.items.last()
    }

    /// Returns the place of the item that a query seeks, or `None` if there is none.
    pub(crate) fn find_place<Q: OrdQuery<T::Key>>(
        &self,
        query: Q,
        meter: &mut Meter,
    ) -> Option<Place>
        ensures entry { IfSome result (HasEntry self.now.blocks) }
        ensures found { IsOnly (has T.IdOrdItem Q.compare query) (items self.now)
            (option_and_then (λ p. slice_get (items self.now) (position self.now.blocks p)) result) }
        ensures index { (y : T) → IfSome result (λ p. slice_set (items self.now) (position self.now.blocks p) y
            ≡ in_place (has T.IdOrdItem Q.compare query) y (items self.now)) }
        ensures asked { ComparesWithin 3 19 (length (items self.now)) meter.old meter.new }
    {
        match self.place_of(query, meter) {
            Ok(place) => Some(place),
            Err(_) => None,
        }
    }

    /// Returns the item at this place, or `None` if no item is there.
    pub(crate) fn item_if(&self, place: Place) -> Option<&T> {
        self.items.entry_if(place)
    }

    /// Returns the place of the next item, or `None` if this is the last one.
    pub(crate) fn next_place(&self, place: Place) -> Option<Place>
        requires { HasEntry self.now.blocks place }
        ensures entry { IfSome result (HasEntry self.now.blocks) }
        ensures index { index_of self.now.blocks result ≡ position self.now.blocks place + 1 }
    {
        self.items.next(place)
    }

    /// Returns the place of the item at this place or, if none is there, of the next one.
    pub(crate) fn place_or_next(&self, place: Place) -> Option<Place>
        requires { IsPlace self.now.blocks place }
        ensures entry { IfSome result (HasEntry self.now.blocks) }
        ensures index { index_of self.now.blocks result ≡ position self.now.blocks place }
    {
        self.items.at_or_after(place)
    }

    /// Returns the place behind the last item.
    pub(crate) fn end_place(&self) -> Place
        ensures place { IsPlace self.now.blocks result }
        ensures last { position self.now.blocks result ≡ length (items self.now) }
    {
        self.items.end()
    }

    /// Reserves capacity for this item if the map is full. If that fails, the map is as before.
    #[inline(always)]
    pub(crate) fn make_room(&mut self, item: &T) -> Result<(), TryReserveError>
        ensures blocks { self.new.blocks ≡ self.old.blocks }
        ensures no_less_room { self.old.capacity ≤ self.new.capacity }
        ensures same_room { length (items self.old) < self.old.capacity → self.new ≡ self.old }
        ensures most { self.new.capacity ≤ max (2 * self.old.capacity) 4 }
        ensures room { OnOk result (length (items self.old) < self.new.capacity) }
        ensures reason { OnErr result (length (items self.old) ≡ self.old.capacity) }
        ensures unchanged { OnErr result (self.new ≡ self.old) }
    {
        if self.items.len() == self.items.capacity() {
            self.items.suit(item);
            self.items.try_reserve(1)?;
        }
        Ok(())
    }

    /// Inserts an item at the place that a search for its key found, and returns its place. There has to be room.
    // Where the compiler inlines this, callers of an insert do not have that inlined, and take longer.
    #[inline(never)]
    pub(crate) fn insert_into(&mut self, item: T, place: Place) -> Place
        requires room { length (items self.old) < self.old.capacity }
        requires place { IsPlace self.old.blocks place }
        requires gap { IsSplit (key_comparison T.IdOrdItem T.Key.cmp item) (items self.old) (position self.old.blocks place) 0 }
        ensures inserted { items self.new ≡ insert (items self.old) (position self.old.blocks place) item }
        ensures ascending { IsAscending T.Key.cmp T.key (items self.new) }
        ensures capacity { self.new.capacity ≡ self.old.capacity }
        ensures entry { HasEntry self.new.blocks result }
        ensures at { position self.new.blocks result ≡ position self.old.blocks place }
    {
        self.items.insert(place, item)
    }

    /// Inserts as `insert_into` does, for `rekey`, which is to ask for no memory.
    pub(super) fn insert_within(&mut self, item: T, place: Place)
        requires room { length (items self.old) < self.old.capacity }
        requires place { IsPlace self.old.blocks place }
        requires gap { IsSplit (key_comparison T.IdOrdItem T.Key.cmp item) (items self.old) (position self.old.blocks place) 0 }
        ensures inserted { items self.new ≡ insert (items self.old) (position self.old.blocks place) item }
        ensures capacity { self.new.capacity ≡ self.old.capacity }
    {
        let _ = self.items.insert_within(place, item);
    }

    /// Removes the item at this place. Returns it, and the place of the item that followed it, or an end.
    pub(crate) fn remove_in(&mut self, place: Place) -> (T, Place)
        requires { HasEntry self.old.blocks place }
        ensures item { (d : T) → result.0 ≡ slice_index_or (items self.old) (position self.old.blocks place) d }
        ensures within { position self.old.blocks place < length (items self.old) }
        ensures rest { items self.new ≡ remove (items self.old) (position self.old.blocks place) }
        ensures place { IsPlace self.new.blocks result.1 }
        ensures index { position self.new.blocks result.1 ≡ position self.old.blocks place }
        ensures capacity { self.new.capacity ≡ self.old.capacity }
    {
        self.items.remove(place)
    }

    /// Puts an item with an equal key in the place of the one at this place, and returns the latter.
    pub(crate) fn replace_in(&mut self, place: Place, item: T) -> T
        requires entry { HasEntry self.old.blocks place }
        requires same_key { (d : T) → key_comparison T.IdOrdItem T.Key.cmp item
            (slice_index_or (items self.old) (position self.old.blocks place) d) ≡ Equal }
        ensures item { (d : T) → result ≡ slice_index_or (items self.old) (position self.old.blocks place) d }
        ensures replaced { items self.new ≡ slice_set (items self.old) (position self.old.blocks place) item }
        ensures entry { HasEntry self.new.blocks place }
        ensures at { position self.new.blocks place ≡ position self.old.blocks place }
        ensures capacity { self.new.capacity ≡ self.old.capacity }
    {
        self.items.replace(place, item)
    }

    /// Does nothing. A call of it gives the prover the facts that the keys ascend and that the items fit. It is for functions with a
    /// loop that may take no step, and so may call nothing that has these facts among its clauses.
    #[inline(always)]
    pub(crate) fn note_order(&self)
        ensures ascending { IsAscending T.Key.cmp T.key (items self.now) }
        ensures fits { length (items self.now) ≤ self.now.capacity }
    {
        let _ = self.items.capacity();
    }

    /// Returns the place of the first item that is not lower than what is sought. It is the end if there is none.
    fn lower_bound<Q: OrdSeek<T::Key>>(&self, query: Q, meter: &mut Meter) -> Place
        ensures place { IsPlace self.now.blocks result }
        ensures starts { IsStartOf (λ x. is_past false (query_comparison T.IdOrdItem Q.side query x)) (items self.now)
            (position self.now.blocks result) }
        ensures asked { ComparesWithin 3 19 (length (items self.now)) meter.old meter.new }
    {
        match self.items.search(&Before { query: &query }, meter) {
            Ok(_) => unreachable!(),
            Err(place) => place,
        }
    }

    /// Returns the place of the first item that is higher than what is sought. It is the end if there is none.
    fn upper_bound<Q: OrdSeek<T::Key>>(&self, query: Q, meter: &mut Meter) -> Place
        ensures place { IsPlace self.now.blocks result }
        ensures starts { IsStartOf (λ x. is_past true (query_comparison T.IdOrdItem Q.side query x)) (items self.now)
            (position self.now.blocks result) }
        ensures asked { ComparesWithin 3 19 (length (items self.now)) meter.old meter.new }
    {
        match self.items.search(&Behind { query: &query }, meter) {
            Ok(_) => unreachable!(),
            Err(place) => place,
        }
    }

    /// Returns the place of the first item that is not before a lower bound, or the end if there is none.
    pub(crate) fn range_start<Q: OrdSeek<T::Key>>(&self, low: Bound<&Q>, meter: &mut Meter) -> Place
        ensures place { IsPlace self.now.blocks result }
        ensures starts { IsStartOf (is_from T.IdOrdItem Q.side (bound_map (λ q. q.now) low.entry)) (items self.now)
            (position self.now.blocks result) }
        ensures asked { ComparesWithin 3 19 (length (items self.now)) meter.old meter.new }
    {
        match low {
            Bound::Included(query) => self.lower_bound(*query, meter),
            Bound::Excluded(query) => self.upper_bound(*query, meter),
            Bound::Unbounded => self.items.start(),
        }
    }

    /// Returns the place of the first item that is behind an upper bound, or the end if there is none.
    pub(crate) fn range_end<Q: OrdSeek<T::Key>>(&self, high: Bound<&Q>, meter: &mut Meter) -> Place
        ensures place { IsPlace self.now.blocks result }
        ensures starts { IsStartOf (λ x. not (is_to T.IdOrdItem Q.side (bound_map (λ q. q.now) high.entry) x)) (items self.now)
            (position self.now.blocks result) }
        ensures asked { ComparesWithin 3 19 (length (items self.now)) meter.old meter.new }
    {
        match high {
            Bound::Included(query) => self.upper_bound(*query, meter),
            Bound::Excluded(query) => self.lower_bound(*query, meter),
            Bound::Unbounded => self.items.end(),
        }
    }
}
