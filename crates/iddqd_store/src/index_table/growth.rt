//! Growth: a larger table with the pairs of another one, which it replaces.
ghost use Rattle.std.specs.Prelude.{◌≡◌, ◌+◌, ◌*◌, ◌<◌, ◌≤◌, length, IfOk, OnErr, IsErr};
ghost use Rattle.std.specs.List.Sorted.{IsPermutation};
ghost use Rattle.iddqd_store.specs.Slots.{contents};
ghost use Rattle.iddqd_store.specs.Table.Limit.{capacity_of, IsSize, most_room};
ghost use Rattle.iddqd_store.specs.Table.Room.{GrowsFor, IsSpareFor, ProbesAtMost, growth_within};

use super::cells::{Cells, SpareCells};
use super::{IndexTable, Meter, probe};
use crate::TryReserveError;
use std::alloc::Global;

// Makes a table of spare cells with the pairs of other cells, which are inserted in order, by the hashes in the cells. It
// asks for no memory.
//
// It goes over the old cells by chunks, and lists the places of the full cells of a chunk before it inserts their pairs.
// The place of each cell is written into the list, but it counts only if the cell has a pair. Otherwise the next place
// is written over it. So no branch depends on whether an old cell has a pair, which the processor cannot predict.
fn regrown(
    alloc: Global,
    cells: &Cells,
    spare: SpareCells,
    pairs: usize,
    meter: &mut Meter,
) -> IndexTable
    requires size { IsSize spare }
    requires some { 0 < spare }
    requires fits { length (contents cells.now) ≤ capacity_of spare }
    requires counted { pairs ≡ length (contents cells.now) }
    ensures pairs { IsPermutation (contents cells.now) result.pairs }
    ensures cells { length result.row ≡ spare }
    ensures limit { result.limit ≡ capacity_of spare }
    ensures probes { meter.new ≤ meter.old + (length cells.now + 2 * pairs + pairs * pairs) }
{
    let count = spare.len();
    let mut grown = spare.into_cells();
    let mut places = [0usize; 64];
    let mut from = 0usize;
    while from < cells.len() {
        let to = from + (cells.len() - from).min(64);
        let mut full = 0usize;
        for i in from..to {
            places[full] = i;
            full += usize::from(cells.cell_at(i, meter).is_some());
        }
        for k in 0..full {
            let i = places[k];
            let Some((hash, _)) = cells.cell_at(i, meter) else {
                unreachable!()
            };
            let at = probe::first_empty_from(&grown, probe::home_of(hash, count), meter);
            grown.copy_cell(at, cells, i);
        }
        from = to;
    }
    IndexTable {
        alloc,
        cells: grown,
        count: pairs,
    }
}

impl IndexTable {
    /// Makes room for this many more pairs: if they do not fit, a larger table with the same pairs replaces this one.
    ///
    /// It fails only if the pairs do not fit and more cells cannot be allocated; the table is then unchanged. All cells
    /// are allocated before the first pair is copied. Pairs are copied by the hashes in their cells, so no matcher is
    /// asked, and no item is read. The old cells are freed once the larger table has all pairs.
    pub fn try_reserve(&mut self, more: usize, meter: &mut Meter) -> Result<(), TryReserveError>
        // The pairs fit in the table that there is then, or the call fails.
        ensures room { GrowsFor self.old more result self.new }
        // That table has the pairs, and no less room.
        ensures pairs { IsPermutation self.old.pairs self.new.pairs }
        ensures limit { self.old.limit ≤ self.new.limit }
        ensures costs { ProbesAtMost (growth_within self.old) result meter.old meter.new }
        ensures no_probe { length self.old.pairs + more ≤ self.old.limit → meter.new ≡ meter.old }
    {
        let spare = self.spare_for(more)?;
        self.take_over(spare, meter);
        Ok(())
    }

    /// Asks for the memory that the table needs for this many more pairs: for no cell if they fit, and otherwise for as few
    /// as hold them. Nothing of it is written before `take_over`.
    pub fn spare_for(&self, more: usize) -> Result<SpareCells, TryReserveError>
        ensures spare { IfOk result (IsSpareFor self.now more) }
        ensures reason { OnErr result (self.now.limit < length self.now.pairs + more) }
        ensures past { most_room < length self.now.pairs + more → IsErr result }
    {
        let limit = self.capacity();
        let Some(wanted) = self.count.checked_add(more) else {
            return Err(TryReserveError);
        };
        if wanted <= limit {
            return SpareCells::new(self.alloc, 0);
        }
        let Some(count) = probe::cells_for(wanted) else {
            return Err(TryReserveError);
        };
        SpareCells::new(self.alloc, count)
    }

    /// Puts a larger table with the same pairs, whose memory was asked for before, in the place of this one. If it was for no
    /// cell, the table stays. The call asks for no memory, so it never fails.
    ///
    /// Pairs are copied by the hashes in their cells, so no matcher is asked, and no item is read. The old cells are freed
    /// once the larger table has all pairs.
    pub fn take_over(&mut self, spare: SpareCells, meter: &mut Meter)
        requires size { IsSize spare }
        requires fits { 0 < spare → length self.old.pairs ≤ capacity_of spare }
        ensures pairs { IsPermutation self.old.pairs self.new.pairs }
        ensures stays { spare ≡ 0 → self.new ≡ self.old }
        ensures limit { 0 < spare → self.new.limit ≡ capacity_of spare }
        ensures costs { meter.new ≤ meter.old + growth_within self.old }
        ensures no_probe { spare ≡ 0 → meter.new ≡ meter.old }
    {
        if spare.len() == 0 {
            return;
        }
        *self = regrown(self.alloc, &self.cells, spare, self.count, meter);
    }

    /// Returns how many cells the table has once it has taken the spare ones over.
    pub fn cells_with(&self, spare: &SpareCells) -> usize
        ensures none { spare.now ≡ 0 → result ≡ length self.now.row }
        ensures some { 0 < spare.now → result ≡ spare.now }
    {
        match spare.len() {
            0 => self.cells(),
            cells => cells,
        }
    }
}
