//! Probing: the way from the home of a hash on, from cell to cell, and from the last cell to cell 0.
ghost use Rattle.std.specs.Prelude.{◌≡◌, ◌≢◌, ℕ, ◌+◌, ◌-◌, ◌%◌, ◌^◌, ◌∷◌, ◌<◌, if◌then◌else◌, nat_lt, None, Some, length, IfSome, IsNone, ◌↔◌, Contains};
ghost use Rattle.std.specs.List.Sorted.{IsPermutation};
ghost use Rattle.iddqd_store.specs.Slots.{contents};
ghost use Rattle.iddqd_store.specs.Table.Ring.{cell, gap, stretch};
ghost use Rattle.iddqd_store.specs.Table.Limit.{capacity_of, IsLeast, IsSize, most_room};
ghost use Rattle.iddqd_store.specs.Table.{hashes, IsTable, IsFirstEmpty, IsWayTo};

use super::Meter;
use super::cells::Cells;
use crate::item_set::ItemIndex;

// Returns the cell after `at`. The number of cells is a power of two, so a mask leads from the last cell to cell 0.
pub(super) fn after(at: usize, count: usize) -> usize
    requires size { IsSize count }
    requires below { at < count }
    ensures { result ≡ (if nat_lt (at + 1) count then at + 1 else 0) }
{
    (at + 1) & (count - 1)
}

// Returns the least number of cells in which this many pairs fit, or `None` if that does not fit in a `usize`.
pub(super) fn cells_for(pairs: usize) -> Option<usize>
    ensures past { IsNone result ↔ (most_room < pairs) }
    ensures least { IfSome result (λ count. IsLeast pairs (capacity_of count)) }
    ensures size { IfSome result IsSize }
{
    if pairs == 0 {
        return Some(0);
    }
    let mut count: usize = 8;
    while count / 8 * 7 < pairs {
        count = count.checked_mul(2)?;
    }
    Some(count)
}

// Returns the home bucket of a hash, its home: the lowest bits, since the number of cells is a power of two. So no
// division is needed.
pub(super) fn home_of(hash: u64, count: usize) -> usize
    requires size { IsSize count }
    requires some { 0 < count }
    ensures { result ≡ hash % count }
{
    (hash & (count as u64 - 1)) as usize
}

// Returns the first empty cell from this one on.
#[inline(always)]
pub(super) fn first_empty_from(cells: &Cells, from: usize, meter: &mut Meter) -> usize
    requires table { IsTable cells.now }
    requires from { from < length cells.now }
    ensures first_empty { IsFirstEmpty cells.now from result }
    ensures probes { meter.new ≡ meter.old + gap (length cells.now) from result + 1 }
{
    let count = cells.len();
    let mut at = from;
    while cells.cell_at(at, meter).is_some() {
        at = after(at, count);
    }
    at
}

// Returns the first empty cell from the home of a hash on.
pub(super) fn first_empty(cells: &Cells, hash: u64, meter: &mut Meter) -> usize
    requires table { IsTable cells.now }
    requires some { 0 < length cells.now }
    ensures first_empty { IsFirstEmpty cells.now (hash % length cells.now) result }
    ensures small { length cells.now < 2 ^ 64 }
    ensures probes { meter.new
        ≡ meter.old + stretch (hashes (contents cells.now)) (length cells.now) hash + 1 }
{
    first_empty_from(cells, home_of(hash, cells.len()), meter)
}

// Returns how many steps lead from one place to another, going round.
pub(super) fn steps(from: usize, to: usize, count: usize) -> usize
    requires size { IsSize count }
    requires from { from < count }
    requires to { to < count }
    ensures { result ≡ gap count from to }
{
    to.wrapping_sub(from) & (count - 1)
}

// Returns the cell of a pair that the table has.
pub(super) fn seek(cells: &Cells, hash: u64, index: ItemIndex, meter: &mut Meter) -> usize
    requires table { IsTable cells.now }
    requires there { Contains (contents cells.now) (hash, index) }
    ensures pair { cell cells.now result ≡ Some (hash, index) }
    ensures way { IsWayTo cells.now (hash % length cells.now) result }
    ensures probes { meter.new ≡ meter.old + gap (length cells.now) (hash % length cells.now) result + 1 }
{
    let count = cells.len();
    let mut at = home_of(hash, count);
    while let Some(pair) = cells.cell_at(at, meter) {
        let (stored, slot) = pair;
        if slot == index && stored == hash {
            return at;
        }
        at = after(at, count);
    }
    unreachable!()
}

// Empties a cell by backward-shift deletion: pairs after the hole move into it.
//
// Each pair that is probed is written into the hole. The write counts only if the hole then moves to the cell of that
// pair. Otherwise another pair is written over it, or the cell is emptied at the end, as the last hole. So no branch
// depends on whether a pair moves.
pub(super) fn close_up(cells: &mut Cells, hash: u64, emptied: usize, meter: &mut Meter)
    requires table { IsTable cells.old }
    requires pair { cell cells.old emptied ≢ None }
    requires way { IsWayTo cells.old (hash % length cells.old) emptied }
    ensures table { IsTable cells.new }
    ensures len { length cells.new ≡ length cells.old }
    ensures removed { (pair : ℕ × ℕ) → cell cells.old emptied ≡ Some pair
        → IsPermutation (contents cells.old) (pair ∷ contents cells.new) }
    ensures probes { meter.new + gap (length cells.old) (hash % length cells.old) emptied
        ≡ meter.old + stretch (hashes (contents cells.old)) (length cells.old) hash }
{
    let count = cells.len();
    let mut hole = emptied;
    // The number of steps from the hole to the cell that is probed.
    let mut far = 1usize;
    let mut at = after(emptied, count);
    while let Some(pair) = cells.cell_at(at, meter) {
        let (stored, index) = pair;
        let way = steps(home_of(stored, count), at, count);
        cells.write(hole, stored, index);
        if far <= way {
            hole = at;
            far = 1;
        } else {
            far += 1;
        }
        at = after(at, count);
    }
    cells.empty(hole);
}
