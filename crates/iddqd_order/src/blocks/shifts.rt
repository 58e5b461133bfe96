//! Entries that move from block to block, where there is no memory for a split.
ghost use Rattle.std.specs.Prelude.{◌≡◌, ℕ, ◌+◌, ◌*◌, ◌<◌, ◌≤◌, length, IfSome, IfNone};
ghost use Rattle.iddqd_order.specs.Row.{line, block_at, start_of, position, IsWithin, HasRoom, KeepsEntries};

use crate::place::Place;
use crate::row::BlockRow;

/// Returns the first block behind this one that is not full, or `None` if all are.
fn gap_behind<E>(row: &BlockRow<E>, at: usize) -> Option<usize>
    requires { at < length row.now.blocks }
    ensures behind { IfSome result (λ b. at < b) }
    ensures within { IfSome result (λ b. b < length row.now.blocks) }
    ensures room { IfSome result (λ b. length (block_at row.now.blocks b) < row.now.memory) }
    ensures full { IfSome result (λ b. (k : ℕ) → at < k → k < b → length (block_at row.now.blocks k) ≡ row.now.memory) }
    ensures all { IfNone result ((k : ℕ) → at < k → k < length row.now.blocks → length (block_at row.now.blocks k) ≡ row.now.memory) }
{
    let memory = row.memory();
    let count = row.len();
    let mut b = at + 1;
    while b < count {
        if row.len_at(b) < memory {
            return Some(b);
        }
        b += 1;
    }
    None
}

/// Returns the last block before this one that is not full, or `None` if all are.
fn gap_before<E>(row: &BlockRow<E>, at: usize) -> Option<usize>
    requires { at < length row.now.blocks }
    ensures before { IfSome result (λ b. b < at) }
    ensures room { IfSome result (λ b. length (block_at row.now.blocks b) < row.now.memory) }
    ensures full { IfSome result (λ b. (k : ℕ) → b < k → k < at → length (block_at row.now.blocks k) ≡ row.now.memory) }
    ensures all { IfNone result ((k : ℕ) → k < at → length (block_at row.now.blocks k) ≡ row.now.memory) }
{
    let memory = row.memory();
    let mut b = at;
    while 0 < b {
        b -= 1;
        if row.len_at(b) < memory {
            return Some(b);
        }
    }
    None
}

/// Moves the last entry of each block from `at` on to the next one, as far as `gap`. So there is room in the block `at`.
fn shift_up<E>(row: &mut BlockRow<E>, at: usize, gap: usize)
    requires order { at ≤ gap }
    requires within { gap < length row.old.blocks }
    requires room { length (block_at row.old.blocks gap) < row.old.memory }
    requires full { (k : ℕ) → at ≤ k → k < gap → length (block_at row.old.blocks k) ≡ row.old.memory }
    requires many { 2 ≤ row.old.memory }
    ensures entries { KeepsEntries row.old row.new }
    ensures count { length row.new.blocks ≡ length row.old.blocks }
    ensures room { length (block_at row.new.blocks at) < row.new.memory }
    ensures start { start_of row.new.blocks at ≡ start_of row.old.blocks at }
    ensures len { at < gap → length (block_at row.new.blocks at) + 1 ≡ row.new.memory }
{
    let mut b = gap;
    while at < b {
        b -= 1;
        row.pass_up(b);
    }
}

/// Moves the first entry of each block down to `at` to the block before it, as far as `gap`. So there is room in the block
/// `at`.
fn shift_down<E>(row: &mut BlockRow<E>, at: usize, gap: usize)
    requires order { gap ≤ at }
    requires within { at < length row.old.blocks }
    requires room { length (block_at row.old.blocks gap) < row.old.memory }
    requires full { (k : ℕ) → gap < k → k ≤ at → length (block_at row.old.blocks k) ≡ row.old.memory }
    requires many { 2 ≤ row.old.memory }
    ensures entries { KeepsEntries row.old row.new }
    ensures count { length row.new.blocks ≡ length row.old.blocks }
    ensures room { length (block_at row.new.blocks at) < row.new.memory }
    ensures start { start_of row.new.blocks (at + 1) ≡ start_of row.old.blocks (at + 1) }
    ensures len { gap < at → length (block_at row.new.blocks at) + 1 ≡ row.new.memory }
{
    let mut b = gap;
    while b < at {
        row.pass_down(b);
        b += 1;
    }
}

/// Makes room in the block of this place, which is full: moves an entry from each block to the next one, or to the one before,
/// as far as a block that is not full. Returns where the place is then, or `None` if all blocks are full.
pub(super) fn shift<E>(row: &mut BlockRow<E>, place: Place) -> Option<Place>
    requires place { IsWithin row.old.blocks place }
    requires full { length (block_at row.old.blocks place.block) ≡ row.old.memory }
    requires many { 2 ≤ row.old.memory }
    ensures entries { KeepsEntries row.old row.new }
    ensures room { IfSome result (HasRoom row.new.blocks row.new.memory) }
    ensures same { IfSome result (λ p. position row.new.blocks p ≡ position row.old.blocks place) }
    ensures unchanged { IfNone result (row.new ≡ row.old) }
    ensures full { IfNone result (length (line row.old.blocks) ≡ row.old.memory * length row.old.blocks) }
{
    let at = place.block;
    if let Some(gap) = gap_behind(row, at) {
        if place.offset < row.memory() {
            shift_up(row, at, gap);
            return Some(place);
        }
        // Behind the last entry of its block the place is the front of the next one.
        shift_up(row, at + 1, gap);
        return Some(Place {
            block: at + 1,
            offset: 0,
        });
    }
    match gap_before(row, at) {
        Some(gap) => {
            if 0 < place.offset {
                shift_down(row, at, gap);
                return Some(Place {
                    block: at,
                    offset: place.offset - 1,
                });
            }
            // Before the first entry of its block the place is the end of the one before.
            shift_down(row, at - 1, gap);
            Some(Place {
                block: at - 1,
                offset: row.len_at(at - 1),
            })
        }
        None => None,
    }
}
