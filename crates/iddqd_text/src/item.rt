//! The items of the program.
ghost use Rattle.std.specs.Prelude.{◌≡◌, ℕ, List, Some};
ghost use Rattle.iddqd_text.specs.Printed.{printed};
ghost use Rattle.iddqd_text.specs.Sorted.{first_of};

use std::fmt;

mod bi;
mod tri;

pub use bi::BiItem;
pub use tri::TriItem;

/// An item that is printed as its numbers, and sorted by the first of them.
pub trait Numbers: fmt::Display {
    // The numbers, in the order in which they are printed.
    ghost numbers: { Self → List ℕ };

    /// Returns the first key, which is the first of the numbers.
    fn first_key(&self) -> u64
        ensures { result ≡ first_of (numbers self.now) };

    // The item is printed as these numbers in brackets.
    ghost shows: { (x : Self) → Self.output x ≡ Some (printed (numbers x)) };
}
