//! A count that only contracts see.

ghost use Rattle.std.specs.Prelude.{◌≡◌, ℕ, ◌+◌};
ghost use Rattle.std.specs.Borrow.{ftrue};

use std::marker::Model;
use std::mem::size_of;

/// A number that only proofs read. It takes no bytes at run time, so no code can compute it: the proofs of `new` and
/// `more` are written by hand.
#[derive(Drop)]
struct Count {
    ghost number: { ℕ },
}

impl Model for Count {
    ghost also_owns = { λ _. ftrue };
}

impl Count {
    fn new() -> Count
        ensures { result.number ≡ 0 }
    {
        Count {}
    }

    fn more(_before: &Count) -> Count
        ensures { result.number ≡ _before.now.number + 1 }
    {
        Count {}
    }
}

/// Counts events for contracts: probed cells, questions of a matcher, or failed reads and writes. Contracts see a
/// number, which only `tick` changes. At run time a meter takes no bytes.
#[derive(Drop)]
pub struct Meter {
    count: Count,
}

const _: () = prove!(size_of::<Meter>() == 0);

impl Model for Meter {
    ghost Value = { ℕ };

    ghost view = { λ m. m.count.number };
}

impl Meter {
    /// Makes a meter at 0. A function that takes a meter makes none (the script `metered_cells`).
    pub fn new() -> Meter
        ensures { result ≡ 0 }
    {
        Meter {
            count: Count::new(),
        }
    }

    /// Adds one.
    pub fn tick(&mut self)
        ensures { self.new ≡ self.old + 1 }
    {
        self.count = Count::more(&self.count);
    }
}

/// What searches cost, for contracts: the keys that queries are compared with, and the probed cells. At run time it takes no
/// bytes.
#[derive(Drop)]
pub struct Costs {
    /// Counts the compared keys.
    pub asked: Meter,
    /// Counts the probed cells.
    pub probed: Meter,
}

const _: () = prove!(size_of::<Costs>() == 0);

impl Model for Costs {
    ghost use Rattle.iddqd_store.specs.Rank.{Costs};

    ghost Value = { Costs };

    ghost view = { λ c. record { asked = c.asked; probed = c.probed } };
}

impl Costs {
    /// Makes two meters at 0. A function that takes costs makes none (the script `metered_cells`).
    pub fn new() -> Costs
        ensures { result ≡ record { asked = 0; probed = 0 } }
    {
        Costs {
            asked: Meter::new(),
            probed: Meter::new(),
        }
    }
}
