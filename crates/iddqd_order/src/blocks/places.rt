//! Places: the ends, the next one, the one before, and places that were kept while entries came and went.
ghost use Rattle.std.specs.Prelude.{◌≡◌, ◌+◌, ◌<◌, ◌≤◌, [], length, true, IfSome, MatchOption};
ghost use Rattle.iddqd_order.specs.Row.{entries_in, position, index_of, HasEntry, IsPlace};

use crate::blocks::Blocks;
use crate::place::Place;

impl<E> Blocks<E> {
    /// Returns the place of the entry at this place or, if none stands there, of the next one.
    pub fn at_or_after(&self, place: Place) -> Option<Place>
        requires { IsPlace self.now.blocks place }
        ensures entry { IfSome result (HasEntry self.now.blocks) }
        ensures index { index_of self.now.blocks result ≡ position self.now.blocks place }
    {
        let blocks = self.row.len();
        if blocks <= place.block {
            return None;
        }
        if place.offset < self.row.len_at(place.block) {
            return Some(place);
        }
        if place.block + 1 < blocks {
            return Some(Place {
                block: place.block + 1,
                offset: 0,
            });
        }
        None
    }

    /// Returns the place of the first entry, or the end if there is none.
    pub fn start(&self) -> Place
        ensures place { IsPlace self.now.blocks result }
        ensures first { position self.now.blocks result ≡ 0 }
    {
        Place {
            block: 0,
            offset: 0,
        }
    }

    /// Returns the place of the first entry, or `None` if there is none.
    pub fn first(&self) -> Option<Place>
        ensures entry { IfSome result (HasEntry self.now.blocks) }
        ensures index { index_of self.now.blocks result ≡ 0 }
    {
        self.at_or_after(self.start())
    }

    /// Returns the place of the next entry, or `None` if this is the last one.
    pub fn next(&self, place: Place) -> Option<Place>
        requires { HasEntry self.now.blocks place }
        ensures entry { IfSome result (HasEntry self.now.blocks) }
        ensures index { index_of self.now.blocks result ≡ position self.now.blocks place + 1 }
    {
        self.at_or_after(self.behind(place))
    }

    /// Returns the place behind this entry.
    pub fn behind(&self, place: Place) -> Place
        requires { HasEntry self.now.blocks place }
        ensures place { IsPlace self.now.blocks result }
        ensures index { position self.now.blocks result ≡ position self.now.blocks place + 1 }
    {
        // The length of the block tells the prover that the offset can be counted.
        let _ = self.row.len_at(place.block);
        Place {
            block: place.block,
            offset: place.offset + 1,
        }
    }

    /// Returns the place of the entry before this place, or `None` if there is none.
    pub fn previous(&self, place: Place) -> Option<Place>
        requires { IsPlace self.now.blocks place }
        ensures entry { IfSome result (HasEntry self.now.blocks) }
        ensures index { MatchOption result (position self.now.blocks place ≡ 0)
            (λ p. position self.now.blocks p + 1 ≡ position self.now.blocks place) }
    {
        if 0 < place.offset {
            return Some(Place {
                block: place.block,
                offset: place.offset - 1,
            });
        }
        if place.block == 0 {
            return None;
        }
        // The number of the blocks tells the prover that none is empty.
        let _ = self.row.len();
        Some(Place {
            block: place.block - 1,
            offset: self.row.len_at(place.block - 1) - 1,
        })
    }

    /// Returns the place behind the last entry.
    pub fn end(&self) -> Place
        ensures place { IsPlace self.now.blocks result }
        ensures last { position self.now.blocks result ≡ length (entries_in self.now) }
    {
        Place {
            block: self.row.len(),
            offset: 0,
        }
    }

    /// Returns the place of the last entry, or `None` if there is none.
    pub fn last(&self) -> Option<Place>
        ensures entry { IfSome result (HasEntry self.now.blocks) }
        ensures index { MatchOption result (entries_in self.now ≡ [])
            (λ p. position self.now.blocks p + 1 ≡ length (entries_in self.now)) }
    {
        self.previous(self.end())
    }

    /// Returns the place of the entry whose index is the position of a place, or `None` if there are no more entries. The
    /// place may be one that an entry had before others came or went, so that its offset is past the end of its block. If
    /// nothing has changed since, the call takes one step.
    pub fn entry_from(&self, place: Place) -> Option<Place>
        ensures entry { IfSome result (HasEntry self.now.blocks) }
        ensures index { MatchOption result (length (entries_in self.now) ≤ position self.now.blocks place)
            (λ p. position self.now.blocks p ≡ position self.now.blocks place) }
    {
        let blocks = self.row.len();
        let mut place = place;
        while place.block < blocks {
            let len = self.row.len_at(place.block);
            if place.offset < len {
                return Some(place);
            }
            place = Place {
                block: place.block + 1,
                offset: place.offset - len,
            };
        }
        None
    }
}
