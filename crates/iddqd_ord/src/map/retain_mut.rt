//! Keeping only some of the items, each with the data that a closure returns for it.
ghost use Rattle.std.specs.Prelude.{◌≡◌, ◌≤◌, ◌+◌, ◌++◌, length, take, drop, IfSome, Option, Some, slice_get};
ghost use Rattle.std.specs.Fn.{CalledAt, TakesAt};
ghost use Rattle.std.specs.Option.{option_map, option_to_list};
ghost use Rattle.iddqd_store.specs.Bag.Calling.{TakesInTurn};
ghost use Rattle.iddqd_store.specs.Bag.Storing.{Rewrites};
ghost use Rattle.iddqd_order.specs.Row.{position, index_of, HasEntry};
ghost use Rattle.iddqd_ord.specs.Calls.{FilterMaps};
ghost use Rattle.iddqd_ord.specs.Items.{items};

use super::IdOrdMap;
use crate::item::IdOrdItemMut;
use iddqd_order::Place;

impl<T: IdOrdItemMut> IdOrdMap<T> {
    /// Calls `f` once with each item, in ascending order of the keys. Stores the data that `f` returns as the item's data,
    /// and drops the items for which `f` returns `None`.
    ///
    /// The capacity stays. The call compares no key, and allocates no memory.
    ///
    /// `map.retain_mut(|item| item.count.checked_sub(1))`
    pub fn retain_mut<F: FnMut(&T) -> Option<T::Data>>(&mut self, mut f: F)
    where
        T: Drop,
        T::Data: Drop,
        requires { TakesInTurn F.FnMut f (items self.old) }
        ensures rewrites { Rewrites (CalledAt F.FnMut) T.put f (items self.old) (items self.new) }
        ensures filter_maps { FilterMaps (CalledAt F.FnMut) T.put f (items self.old) (items self.new) }
        ensures no_more { length (items self.new) ≤ length (items self.old) }
        ensures capacity { self.new.capacity ≡ self.old.capacity }
    {
        let mut next = self.first_place();
        while let Some(place) = next {
            next = self.rewrite_in(place, &mut f);
        }
    }

    /// Calls a closure with the item at this place. Stores the data that it returns as the item's data, or drops the item if
    /// it returns `None`. Returns the place of the next item.
    fn rewrite_in<F: FnMut(&T) -> Option<T::Data>>(
        &mut self,
        place: Place,
        f: &mut F,
    ) -> Option<Place>
    where
        T: Drop,
        T::Data: Drop,
        requires there { HasEntry self.old.blocks place }
        requires callable { (x : T) → slice_get (items self.old) (position self.old.blocks place) ≡ Some x
            → TakesAt F.FnMut f.old x }
        ensures entry { IfSome result (HasEntry self.new.blocks) }
        // The items before the place stay, and behind them stands what the closure made of this one.
        ensures rewritten { (x : T) × (o : Option T.Data)
            × (slice_get (items self.old) (position self.old.blocks place) ≡ Some x)
            × (CalledAt F.FnMut) f.old x o f.new
            × (take (index_of self.new.blocks result) (items self.new)
            ≡ take (position self.old.blocks place) (items self.old) ++ option_to_list (option_map (T.put x) o)) }
        ensures behind { drop (index_of self.new.blocks result) (items self.new)
            ≡ drop (position self.old.blocks place + 1) (items self.old) }
        ensures capacity { self.new.capacity ≡ self.old.capacity }
    {
        match f(self.item_in(place)) {
            Some(data) => {
                *self.data_mut_in(place) = data;
                self.next_place(place)
            }
            None => {
                let (item, after) = self.remove_in(place);
                drop(item);
                self.place_or_next(after)
            }
        }
    }
}
