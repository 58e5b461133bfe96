//! A place in an iteration over the items of a map, which is not borrowed between two steps.
ghost use Rattle.std.specs.Prelude.{◌≡◌};
ghost use Rattle.iddqd_ord.specs.Extracting.{IsAtStart};

use iddqd_order::Place;
use std::fmt::{self, Debug, Formatter, Write};
use std::marker::Model;

/// A place between two items in an iteration over the items of a map, which `pop_from`, `extract_from` and `next_from` move
/// on. Contracts see which items are before it (`passed`), and which are still to come (`to_come`).
///
/// The place keeps its meaning as long as no other call inserts or removes an item. Between two steps the map can be used:
///
/// ```text
/// let mut at = Cursor::new();
/// while let Some(lease) = leases.extract_from(&mut at, |lease| lease.until < now) {
///     // The lease has left the map.
/// }
/// ```
#[derive(Clone, Copy)]
pub struct Cursor {
    pub(crate) place: Place,
}

impl Model for Cursor {
    ghost use Rattle.iddqd_order.specs.declared.place.Place.{Place};

    ghost Value = { Place };

    ghost view = { λ c. c.place };

    ghost inverse = { λ p. record { place = p } };
}

impl Cursor {
    /// Returns the place before the first item. It allocates no memory.
    pub fn new() -> Self
        ensures { IsAtStart result }
    {
        Cursor {
            place: Place::first(),
        }
    }
}

impl Debug for Cursor {
    /// Prints the name of the type.
    fn fmt<W: Write>(&self, f: &mut Formatter<W>) -> fmt::Result {
        f.debug_struct("Cursor").finish_non_exhaustive()
    }
}
