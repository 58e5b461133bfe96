//! The cells of a table. One function reads what a cell has, and counts that on the meter that it takes. `copy_cell`
//! copies a cell, and `clone` all cells, without reading what they have. The script `metered_cells` lists each line that
//! names the row.
ghost use Rattle.std.specs.Prelude.{◌≡◌, ℕ, ◌+◌, ◌^◌, ◌<◌, List, [], Option, None, Some, length, slice_set, replicate, IfOk, IsOk};
ghost use Rattle.iddqd_store.specs.Table.Cell.{pair_of, hash_of, number_of};
ghost use Rattle.iddqd_store.specs.Table.Ring.{cell};

use super::Meter;
use crate::TryReserveError;
use crate::item_set::ItemIndex;
use std::alloc::Global;
use std::marker::Model;
use std::mem::size_of;

/// A cell of 16 bytes: a hash and a slot's number. An empty cell has a number that no slot has.
#[derive(Clone, Copy)]
pub(crate) struct Cell {
    hash: u64,
    number: usize,
}

const _: () = prove!(size_of::<Cell>() == 16);

impl Model for Cell {
    ghost Value = { Option (ℕ × ℕ) };

    ghost view = { λ c. pair_of c.hash c.number };

    ghost invariant = { λ c. c.number + 1 ≡ 2 ^ 64 → c.hash + 1 ≡ 2 ^ 64 };

    ghost inverse = { λ p. record { hash = hash_of p; number = number_of p } };
}

impl Cell {
    /// Returns an empty cell: all ones, so that one byte pattern fills a row of empty cells.
    fn empty() -> Cell
        ensures { result ≡ None }
    {
        Cell {
            hash: u64::MAX,
            number: usize::MAX,
        }
    }

    /// Makes a cell with a pair.
    fn full(hash: u64, slot: ItemIndex) -> Cell
        ensures { result ≡ Some (hash, slot) }
    {
        Cell {
            hash,
            number: slot.number(),
        }
    }

    /// Returns the pair in the cell, or `None` if the cell is empty.
    fn pair(self) -> Option<(u64, ItemIndex)>
        ensures { result ≡ self }
    {
        if self.number == usize::MAX {
            None
        } else {
            Some((self.hash, ItemIndex::new(self.number)))
        }
    }
}

/// Memory for this many cells. None of it is written: a caller who is refused another part gives it back as it came.
#[derive(Drop)]
pub struct SpareCells {
    row: Vec<Cell>,
    count: usize,
}

impl Model for SpareCells {
    ghost use Rattle.std.specs.Prelude.{◌≡◌, ◌≤◌, ℕ, [], vec_capacity};

    ghost Value = { ℕ };

    ghost view = { λ s. s.count };

    ghost invariant = { λ s. (s.row.items ≡ []) × (s.count ≤ vec_capacity s.row) };
}

impl SpareCells {
    /// Asks for memory for this many cells. It fails if there is none, or if its size does not fit in a `usize`. For 0
    /// cells it asks for none.
    pub(super) fn new(alloc: Global, count: usize) -> Result<SpareCells, TryReserveError>
        ensures cells { IfOk result (λ s. s ≡ count) }
        ensures never_refused { count ≡ 0 → IsOk result }
    {
        Ok(SpareCells {
            row: Vec::with_capacity(alloc, count)?,
            count,
        })
    }

    /// Returns for how many cells there is memory.
    pub fn len(&self) -> usize
        ensures { result ≡ self.now }
    {
        self.count
    }

    /// Makes a row of as many empty cells, which writes the memory. It asks for none.
    pub(super) fn into_cells(self) -> Cells
        ensures { result ≡ replicate self None }
    {
        let SpareCells { mut row, count } = self;
        // This never fails, since the row has the memory.
        let _ = row.resize(count, Cell::empty());
        Cells { row }
    }
}

/// Cells in a row, each of them empty or with a hash and a slot's number.
#[derive(Drop)]
pub struct Cells {
    row: Vec<Cell>,
}

impl Model for Cells {
    ghost Value = { List (Option (ℕ × ℕ)) };

    ghost view = { λ c. c.row.items };
}

impl Cells {
    /// Makes a row without cells. It allocates nothing.
    pub fn new(alloc: Global) -> Cells
        ensures { result ≡ [] }
    {
        Cells {
            row: Vec::new(alloc),
        }
    }

    /// Makes a row of this many empty cells. It fails if the memory cannot be allocated, or if its size does not fit
    /// in a `usize`.
    pub fn with_len(alloc: Global, count: usize) -> Result<Cells, TryReserveError>
        ensures { IfOk result (λ c. c ≡ replicate count None) }
    {
        Ok(Cells {
            row: Vec::from_elem(alloc, Cell::empty(), count)?,
        })
    }

    /// Returns the number of cells.
    pub fn len(&self) -> usize
        ensures { result ≡ length self.now }
    {
        self.row.len()
    }

    /// Returns the pair in cell `i`, or `None` if the cell is empty. No other function reads what a cell has.
    pub fn cell_at(&self, i: usize, meter: &mut Meter) -> Option<(u64, ItemIndex)>
        requires { i < length self.now }
        ensures value { result ≡ cell self.now i }
        ensures probe { meter.new ≡ meter.old + 1 }
    {
        meter.tick();
        self.row[i].pair()
    }

    /// Writes a pair into cell `i`.
    pub fn write(&mut self, i: usize, hash: u64, slot: ItemIndex)
        requires { i < length self.old }
        ensures { self.new ≡ slice_set self.old i (Some (hash, slot)) }
    {
        self.row[i] = Cell::full(hash, slot);
    }

    /// Copies cell `j` of other cells into cell `i`, whether it has a pair or is empty. This is no probe: the function
    /// returns nothing of what the cell has.
    #[inline(always)]
    pub fn copy_cell(&mut self, i: usize, other: &Cells, j: usize)
        requires at { i < length self.old }
        requires from { j < length other.now }
        ensures { self.new ≡ slice_set self.old i (cell other.now j) }
    {
        self.row[i] = other.row[j];
    }

    /// Empties cell `i`.
    pub fn empty(&mut self, i: usize)
        requires { i < length self.old }
        ensures { self.new ≡ slice_set self.old i None }
    {
        self.row[i] = Cell::empty();
    }

    /// Returns the same cells, which are copied at once. It fails if the memory cannot be allocated.
    pub fn clone(&self) -> Result<Cells, TryReserveError>
        ensures { IfOk result (λ c. c ≡ self.now) }
    {
        Ok(Cells {
            row: self.row.clone()?,
        })
    }

    /// Empties all cells.
    pub fn clear(&mut self)
        ensures { self.new ≡ replicate (length self.old) None }
    {
        self.row.fill(Cell::empty());
    }
}
