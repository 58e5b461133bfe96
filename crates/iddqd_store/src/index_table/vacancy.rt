//! The empty cell at which an unsuccessful search ended.
ghost use Rattle.std.specs.Prelude.{◌≡◌, ℕ, List};
ghost use Rattle.iddqd_store.specs.Table.{IsFree};

use std::marker::Model;

/// The empty cell at which a search for a hash ended without a result. A pair with this hash goes into that cell, as
/// long as the table has the same hashes in the same number of cells. Contracts see the three numbers.
#[derive(Drop)]
pub struct Vacancy {
    hash: u64,
    cells: usize,
    at: usize,
}

impl Model for Vacancy {
    ghost use Rattle.iddqd_store.specs.Table.{Spot};

    ghost Value = { Spot };

    ghost view = { λ v. record { hash = v.hash; cells = v.cells; at = v.at } };
}

impl Vacancy {
    /// Makes a vacancy that names no cell: an insert has to probe for the cell.
    pub fn unknown(hash: u64) -> Vacancy
        ensures hash { result.hash ≡ hash }
        ensures nowhere { result.cells ≡ 0 }
        ensures vacant { (hashes : List ℕ) → IsFree hashes result }
    {
        Vacancy {
            hash,
            cells: 0,
            at: 0,
        }
    }

    /// Makes a vacancy that names cell `at` of a table with `cells` cells.
    pub(crate) fn new(hash: u64, cells: usize, at: usize) -> Vacancy
        ensures { result ≡ record { hash = hash; cells = cells; at = at } }
    {
        Vacancy { hash, cells, at }
    }

    /// Returns the hash that was searched for.
    pub fn hash(&self) -> u64
        ensures { result ≡ self.now.hash }
    {
        self.hash
    }

    /// Returns how many cells the table had, or 0 if no cell is named.
    pub(crate) fn cells(&self) -> usize
        ensures { result ≡ self.now.cells }
    {
        self.cells
    }

    /// Returns the number of the cell.
    pub(crate) fn at(&self) -> usize
        ensures { result ≡ self.now.at }
    {
        self.at
    }
}
