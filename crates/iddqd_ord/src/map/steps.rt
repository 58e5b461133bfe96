//! Going from place to place, in both directions.
ghost use Rattle.std.specs.Prelude.{◌≡◌, ◌+◌, length, slice_range, IfSome, MatchOption};
ghost use Rattle.iddqd_order.specs.Row.{position, HasEntry, IsPlace};
ghost use Rattle.iddqd_ord.specs.Items.{items};

use super::IdOrdMap;
use crate::item::IdOrdItem;
use iddqd_order::Place;

impl<T: IdOrdItem> IdOrdMap<T> {
    /// Returns the place behind an item.
    pub(crate) fn place_behind(&self, place: Place) -> Place
        requires { HasEntry self.now.blocks place }
        ensures place { IsPlace self.now.blocks result }
        ensures index { position self.now.blocks result ≡ position self.now.blocks place + 1 }
    {
        self.items.behind(place)
    }

    /// Returns the place of the item before a place, or `None` if there is none.
    pub(crate) fn place_before(&self, place: Place) -> Option<Place>
        requires { IsPlace self.now.blocks place }
        ensures entry { IfSome result (HasEntry self.now.blocks) }
        ensures index { MatchOption result (position self.now.blocks place ≡ 0)
            (λ p. position self.now.blocks p + 1 ≡ position self.now.blocks place) }
    {
        self.items.previous(place)
    }

    /// Counts the items from one place up to another. There are none if the second one comes first. The call takes a step for
    /// each block.
    pub(crate) fn count_between(&self, from: Place, to: Place) -> usize
        requires from { IsPlace self.now.blocks from }
        requires to { IsPlace self.now.blocks to }
        ensures { result ≡ length (slice_range (items self.now) (position self.now.blocks from)
            (position self.now.blocks to)) }
    {
        self.items.range(from, to).len()
    }
}
