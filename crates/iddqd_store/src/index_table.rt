//! A hash table of pairs of a hash and a slot's index: open addressing with linear probing, and backward-shift
//! deletion, so there are no tombstones.
ghost use Rattle.std.specs.Prelude.{ℕ, Contains, Some, ◌≡◌, ◌≢◌, ◌+◌, ◌%◌, ◌∷◌, ◌<◌, ◌≤◌, ◌&&◌, [], true, length, IsSome, IsOk, IsErr, ◌↔◌, ◌⊎◌, IfOk};
ghost use Rattle.std.specs.List.Sorted.{IsPermutation};
ghost use Rattle.std.specs.Option.{option_map};
ghost use Rattle.iddqd_store.specs.Searched.{found_of, IfFound, IfVacant};
ghost use Rattle.iddqd_store.specs.Slots.{contents};
ghost use Rattle.iddqd_store.specs.Table.Ring.{cell, gap, stretch, IsFull};
ghost use Rattle.iddqd_store.specs.Table.Limit.{capacity_of, IsLeast, IsSize, most_room};
ghost use Rattle.iddqd_store.specs.Table.Room.{IsSized};
ghost use Rattle.iddqd_store.specs.Table.Search.{CostsByHash, FindsByHash, IsVacantForHash};
ghost use Rattle.iddqd_store.specs.Table.{hashes, HaveOwnSlots, IsCellOf, IsFree, IsTable, Probes, ReplacesPair, Table, table_of};

use crate::TryReserveError;
use crate::item_set::ItemIndex;
use cells::Cells;
use std::alloc::Global;
use std::marker::Model;

mod cells;
mod growth;
mod matcher;
mod meter;
mod probe;
mod removal;
mod searched;
mod vacancy;

pub use cells::SpareCells;
pub use matcher::{KeyMatcher, Matcher};
pub use meter::{Costs, Meter};
pub use searched::Searched;
pub use vacancy::Vacancy;

/// A hash table of pairs of a hash and a slot's index.
///
/// The home bucket of a hash, which is called its home here, is the cell `hash % n` among `n` cells. Every cell from
/// a pair's home to the pair's own cell is occupied, going round from the last cell to cell 0 (linear probing). The
/// number of cells is 0 or a power of two from 8 on. At least an eighth of the cells is empty, so each search ends.
///
/// Contracts see its `pairs` in some order, its `limit`, which is how many fit, and its `row` of cells. Which cells
/// are occupied depends only on the hashes of the pairs and the number of cells (`cell_at`), and not on the order in
/// which pairs were inserted and removed.
///
/// Reading what a cell has is a probe. Only `Cells::cell_at` probes, and it counts the probe on the meter that it is
/// given. The clauses `probe`, `probes`, `no_probe` and `costs` count probes. Growth and `clone` also copy cells, which
/// is no probe. A function whose clauses count no probes may make a meter of its own: in this file none does. A function
/// that takes a meter makes no other, which the script `metered_cells` checks.
#[derive(Drop)]
pub struct IndexTable {
    alloc: Global,
    cells: Cells,
    count: usize,
}

impl Model for IndexTable {
    ghost Value = { Table };

    ghost view = { λ t. table_of t.cells };

    ghost invariant = { λ t. IsTable t.cells × (t.count ≡ length (contents t.cells)) };
}

// Makes a table with this many cells, all of them empty.
fn with_cells(alloc: Global, count: usize) -> Result<IndexTable, TryReserveError>
    requires { IsSize count }
    ensures empty { IfOk result (λ t. t.pairs ≡ []) }
    ensures cells { IfOk result (λ t. length t.row ≡ count) }
    ensures limit { IfOk result (λ t. t.limit ≡ capacity_of count) }
{
    let mut table = IndexTable::new(alloc);
    table.cells = Cells::with_len(alloc, count)?;
    Ok(table)
}

impl IndexTable {
    /// Makes a table without pairs and without cells. It allocates nothing.
    pub fn new(alloc: Global) -> IndexTable
        ensures pairs { result.pairs ≡ [] }
        ensures cells { length result.row ≡ 0 }
        ensures limit { result.limit ≡ 0 }
    {
        IndexTable {
            alloc,
            cells: Cells::new(alloc),
            count: 0,
        }
    }

    /// Makes a table without pairs, with the least number of cells in which this many pairs fit:
    /// `with_capacity(alloc, 8)` has 16 cells, in which 14 pairs fit.
    ///
    /// It fails if the cells cannot be allocated, and always for more than `most_room` pairs. For 0 pairs it never
    /// fails, and allocates nothing.
    pub fn with_capacity(alloc: Global, pairs: usize) -> Result<IndexTable, TryReserveError>
        ensures empty { IfOk result (λ t. t.pairs ≡ []) }
        ensures limit { IfOk result (λ t. IsLeast pairs t.limit) }
        ensures never_refused { pairs ≡ 0 → IsOk result }
        ensures past { most_room < pairs → IsErr result }
    {
        if pairs == 0 {
            return Ok(IndexTable::new(alloc));
        }
        match probe::cells_for(pairs) {
            Some(count) => with_cells(alloc, count),
            None => Err(TryReserveError),
        }
    }

    /// Makes a table as `with_capacity` does, with the allocator of this table.
    pub fn fresh(&self, pairs: usize) -> Result<IndexTable, TryReserveError>
        ensures empty { IfOk result (λ t. t.pairs ≡ []) }
        ensures limit { IfOk result (λ t. IsLeast pairs t.limit) }
        ensures never_refused { pairs ≡ 0 → IsOk result }
        ensures past { most_room < pairs → IsErr result }
    {
        IndexTable::with_capacity(self.alloc, pairs)
    }

    /// Returns the number of pairs. It probes no cell.
    pub fn len(&self) -> usize
        ensures value { result ≡ length self.now.pairs }
        ensures fits { result ≤ self.now.limit }
    {
        // The count is kept beside the cells.
        self.count
    }

    /// Returns how many pairs fit without growing: seven eighths of the number of cells.
    pub fn capacity(&self) -> usize
        ensures value { result ≡ self.now.limit }
        ensures most { result ≤ most_room }
        ensures fits { length self.now.pairs ≤ result }
    {
        self.cells.len() / 8 * 7
    }

    /// Returns whether the table has as many cells as a table made for this many pairs. It probes no cell.
    pub fn is_made_for(&self, pairs: usize) -> bool
        ensures { result ≡ true ↔ IsLeast pairs self.now.limit }
    {
        let cells = self.cells();
        let Some(least) = probe::cells_for(pairs) else {
            return false;
        };
        cells == least
    }

    /// Returns the number of cells: 0, or a power of two from 8 on.
    pub fn cells(&self) -> usize
        ensures value { result ≡ length self.now.row }
        ensures sized { IsSized self.now }
    {
        self.cells.len()
    }

    /// Returns an index that the table has under this hash and that the matcher accepts, or `None` if there is none.
    ///
    /// It allocates nothing. It probes the cells from the home of the hash on, up to the one with the result or to
    /// the first empty one. These are at most one more than there are pairs, and none if there are no cells. The
    /// matcher is asked only about indexes under this very hash, and about each pair at most once. No index may stand in two
    /// pairs, unless the matcher may always be asked.
    pub fn find<M: Matcher>(
        &self,
        hash: u64,
        matcher: &mut M,
        meter: &mut Meter,
    ) -> Option<ItemIndex>
        requires own { HaveOwnSlots self.now.pairs ⊎ ((m : M) (slot : ℕ) → M.MayAsk m slot) }
        requires asks { (slot : ℕ) → Contains self.now.pairs (hash, slot) → M.MayAsk matcher.old slot }
        ensures found { FindsByHash self.now hash (M.accepts matcher.old) result }
        ensures is_kept { M.IsKept matcher.old matcher.new }
        ensures costs { CostsByHash self.now hash result (M.asked matcher.old) (M.asked matcher.new)
            meter.old meter.new }
        ensures sized { IsSized self.now }
    {
        match self.find_cell(hash, matcher, meter) {
            Searched::Found((slot, _)) => Some(slot),
            Searched::Vacant(_) => None,
        }
    }

    /// Searches as `find` does, and returns the cell of the index too. If there is no such index, it returns the empty
    /// cell at which the search ended, or `Vacancy::unknown` if the table has no cells. Each search of the table is a call
    /// of this function.
    #[inline(always)]
    pub(crate) fn find_cell<M: Matcher>(
        &self,
        hash: u64,
        matcher: &mut M,
        meter: &mut Meter,
    ) -> Searched<(ItemIndex, usize), Vacancy>
        requires own { HaveOwnSlots self.now.pairs ⊎ ((m : M) (slot : ℕ) → M.MayAsk m slot) }
        requires asks { (slot : ℕ) → Contains self.now.pairs (hash, slot) → M.MayAsk matcher.old slot }
        ensures found { FindsByHash self.now hash (M.accepts matcher.old) (option_map (λ f. f.0) (found_of result)) }
        ensures cell { IfFound result (λ f. IsCellOf self.now.row (hash, f.0) f.1) }
        ensures probes { IfFound result (λ f. meter.new
            ≡ meter.old + gap (length self.now.row) (hash % length self.now.row) f.1 + 1) }
        ensures vacant { IfVacant result (IsVacantForHash self.now hash) }
        ensures is_kept { M.IsKept matcher.old matcher.new }
        ensures costs { CostsByHash self.now hash (found_of result) (M.asked matcher.old) (M.asked matcher.new)
            meter.old meter.new }
        ensures sized { IsSized self.now }
    {
        let count = self.cells.len();
        if count == 0 {
            return Searched::Vacant(Vacancy::unknown(hash));
        }
        let mut at = probe::home_of(hash, count);
        while let Some(pair) = self.cells.cell_at(at, meter) {
            let (stored, slot) = pair;
            if stored == hash && matcher.matches(slot) {
                return Searched::Found((slot, at));
            }
            at = probe::after(at, count);
        }
        Searched::Vacant(Vacancy::new(hash, count, at))
    }

    /// Inserts a pair. There has to be spare capacity, so it allocates nothing. It probes the cells from the home of
    /// the hash on, up to the first empty one.
    pub fn insert_reserved(&mut self, hash: u64, slot: ItemIndex, meter: &mut Meter)
        requires { length self.old.pairs < self.old.limit }
        ensures added { IsPermutation ((hash, slot) ∷ self.old.pairs) self.new.pairs }
        ensures cells { length self.new.row ≡ length self.old.row }
        ensures limit { self.new.limit ≡ self.old.limit }
        ensures probes { meter.new
            ≡ meter.old + stretch (hashes self.old.pairs) (length self.old.row) hash + 1 }
        ensures within { stretch (hashes self.old.pairs) (length self.old.row) hash
            ≤ length self.old.pairs }
    {
        let at = probe::first_empty(&self.cells, hash, meter);
        self.cells.write(at, hash, slot);
        self.count += 1;
    }

    /// Inserts a pair at the empty cell at which a search for its hash ended. There has to be spare capacity. It
    /// probes no cell, unless the number of cells has changed since that search: then it probes for the cell as
    /// `insert_reserved` does.
    #[inline(always)]
    pub fn insert_into(&mut self, spot: Vacancy, slot: ItemIndex, meter: &mut Meter)
        requires room { length self.old.pairs < self.old.limit }
        requires vacant { IsFree (hashes self.old.pairs) spot }
        ensures added { IsPermutation ((spot.hash, slot) ∷ self.old.pairs) self.new.pairs }
        ensures cells { length self.new.row ≡ length self.old.row }
        ensures limit { self.new.limit ≡ self.old.limit }
        ensures no_probe { spot.cells ≡ length self.old.row → meter.new ≡ meter.old }
        ensures probes { spot.cells ≢ length self.old.row → meter.new
            ≡ meter.old + stretch (hashes self.old.pairs) (length self.old.row) spot.hash + 1 }
        ensures within { stretch (hashes self.old.pairs) (length self.old.row) spot.hash
            ≤ length self.old.pairs }
    {
        if spot.cells() != self.cells.len() {
            self.insert_reserved(spot.hash(), slot, meter);
            return;
        }
        self.cells.write(spot.at(), spot.hash(), slot);
        self.count += 1;
    }

    /// Writes another slot's number into a pair, which keeps its hash and its cell. It allocates nothing. It probes the
    /// cells from the home of the hash on, up to that of the pair.
    pub fn renumber(&mut self, hash: u64, from: ItemIndex, to: ItemIndex, meter: &mut Meter)
        requires { Contains self.old.pairs (hash, from) }
        ensures replaced { ReplacesPair self.old.pairs self.new.pairs (hash, from) (hash, to) }
        ensures cells { length self.new.row ≡ length self.old.row }
        ensures limit { self.new.limit ≡ self.old.limit }
        ensures probes { Probes (hashes self.old.pairs) (length self.old.row) hash (Some from) meter.old meter.new }
        ensures within { stretch (hashes self.old.pairs) (length self.old.row) hash
            ≤ length self.old.pairs }
    {
        let at = probe::seek(&self.cells, hash, from, meter);
        self.cells.write(at, hash, to);
    }

    /// Removes all pairs. The cells stay, and none is probed.
    pub fn clear(&mut self)
        ensures pairs { self.new.pairs ≡ [] }
        ensures cells { length self.new.row ≡ length self.old.row }
        ensures limit { self.new.limit ≡ self.old.limit }
    {
        // A table without pairs stays as it is.
        if self.count > 0 {
            self.cells.clear();
            self.count = 0;
        }
    }

    /// Returns the pair in cell `i`, or `None` if the cell is empty. It has a pair exactly if its place is full
    /// (`IsFull`).
    pub fn cell_at(&self, i: usize, meter: &mut Meter) -> Option<(u64, ItemIndex)>
        requires { i < length self.now.row }
        ensures value { result ≡ cell self.now.row i }
        ensures probe { meter.new ≡ meter.old + 1 }
        ensures occupied { IsSome result ↔ IsFull (hashes self.now.pairs) (length self.now.row) i }
    {
        self.cells.cell_at(i, meter)
    }

    /// Returns a table with the same pairs in the same cells. The cells are copied at once, and not probed one by
    /// one. It fails if the memory cannot be allocated.
    pub fn clone(&self) -> Result<IndexTable, TryReserveError>
        ensures { IfOk result (λ t. t ≡ self.now) }
    {
        Ok(IndexTable {
            alloc: self.alloc,
            cells: self.cells.clone()?,
            count: self.count,
        })
    }
}
