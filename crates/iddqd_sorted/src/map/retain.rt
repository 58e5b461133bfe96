//! Keeping only some of the items.
ghost use Rattle.std.specs.Prelude.{◌≡◌, ◌+◌, ◌<◌, ◌≤◌, ◌∷◌, drop, length, IfSome, slice_index_or};
ghost use Rattle.std.specs.Fn.{CalledAt};
ghost use Rattle.std.specs.List.Retain.{IsFiltered};
ghost use Rattle.iddqd_store.specs.Bag.Calling.{TakesInTurn};
ghost use Rattle.iddqd_order.specs.Row.{line, position, index_of, HasEntry, IsPlace};
ghost use Rattle.iddqd_sorted.specs.Items.{items, Filters};

use super::Sorted;
use crate::item::Sortable;
use iddqd_order::Place;
use iddqd_store::{Meter, SlotMap};

impl<M: SlotMap> Sorted<M>
where
    M::Item: Sortable,
    M::FirstKey: Ord,
{
    /// Keeps the items for which `f` returns `true`, and drops the others. `f` is called once with each item, in their order.
    ///
    /// The capacity stays. The call compares no key, hashes each key of a dropped item once, and allocates no memory.
    ///
    /// `map.retain(|item| item.count > 0)`
    pub fn retain<F: FnMut(&M::Item) -> bool>(&mut self, mut f: F)
    where
        M::Item: Drop,
        requires { TakesInTurn F.FnMut f (items self.old) }
        ensures kept { IsFiltered (CalledAt F.FnMut) f (items self.old) (items self.new) }
        ensures filters { Filters (CalledAt F.FnMut) f (items self.old) (items self.new) }
        ensures no_more { length (items self.new) ≤ length (items self.old) }
        ensures capacity { self.new.capacity ≡ self.old.capacity }
        ensures builder { self.new.builder ≡ self.old.builder }
    {
        let mut next = self.first_place();
        while let Some(place) = next {
            if f(self.item_from(place)) {
                next = self.next_place(place);
            } else {
                let (item, after) = self.remove_in(place, &mut Meter::new());
                drop(item);
                next = self.place_or_next(after);
            }
        }
    }

    /// Returns the place of the first item, or `None` if there is none.
    fn first_place(&self) -> Option<Place>
        ensures entry { IfSome result (HasEntry self.now.blocks) }
        ensures index { index_of self.now.blocks result ≡ 0 }
        ensures counted { length (items self.now) ≡ length (line self.now.blocks) }
    {
        self.order.first()
    }

    /// Returns the place of the next item, or `None` if this is the last one.
    fn next_place(&self, place: Place) -> Option<Place>
        requires { HasEntry self.now.blocks place }
        ensures entry { IfSome result (HasEntry self.now.blocks) }
        ensures index { index_of self.now.blocks result ≡ position self.now.blocks place + 1 }
        ensures counted { length (items self.now) ≡ length (line self.now.blocks) }
    {
        self.order.next(place)
    }

    /// Returns the place of the item at this place or, if none is there, of the next one.
    fn place_or_next(&self, place: Place) -> Option<Place>
        requires { IsPlace self.now.blocks place }
        ensures entry { IfSome result (HasEntry self.now.blocks) }
        ensures index { index_of self.now.blocks result ≡ position self.now.blocks place }
        ensures counted { length (items self.now) ≡ length (line self.now.blocks) }
    {
        self.order.at_or_after(place)
    }

    /// Returns the item at this place. It is the first of the items from this place on.
    fn item_from(&self, place: Place) -> &M::Item
        requires { HasEntry self.now.blocks place }
        ensures within { position self.now.blocks place < length (items self.now) }
        ensures first { drop (position self.now.blocks place) (items self.now)
            ≡ result.now ∷ drop (position self.now.blocks place + 1) (items self.now) }
        ensures item { result.now ≡ slice_index_or (items self.now) (position self.now.blocks place) result.now }
    {
        self.item_in(place)
    }
}
