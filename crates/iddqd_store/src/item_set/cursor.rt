//! A place in an iteration over the items of a map.
ghost use Rattle.std.specs.Prelude.{◌≡◌, ◌+◌};

use super::ItemIndex;
use std::marker::Model;

/// A place between two items in an iteration over the items of a map. Contracts see a number.
///
/// The place keeps its meaning as long as no item is inserted or removed. Between two steps the map can be used:
///
/// ```
/// let mut at = Cursor::new();
/// while let Some(mut item) = map.next_from(&mut at) {
///     *item.data_mut() = 0;
/// }
/// ```
#[derive(Clone, Copy, Debug)]
pub struct Cursor {
    next: usize,
}

impl Model for Cursor {
    ghost use Rattle.std.specs.Prelude.{ℕ};

    ghost Value = { ℕ };

    ghost view = { λ c. c.next };

    ghost inverse = { λ n. record { next = n } };
}

impl Cursor {
    /// Returns the place before the first item.
    pub fn new() -> Self
        ensures { result ≡ 0 }
    {
        Cursor { next: 0 }
    }

    /// Returns the number of the first slot after the place.
    pub fn next(&self) -> usize
        ensures { result ≡ self.now }
    {
        self.next
    }

    /// Moves on to the place after the item in a slot.
    pub fn pass(&mut self, slot: ItemIndex)
        ensures { self.new ≡ slot + 1 }
    {
        self.next = slot.number() + 1;
    }
}
