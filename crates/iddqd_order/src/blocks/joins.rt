//! Blocks that are too short: two of them are joined, and where a block is wanted, several move together.
ghost use Rattle.std.specs.Prelude.{◌≡◌, ℕ, ◌+◌, ◌^◌, ◌<◌, ◌≤◌, length, false, IfSome, IsTrue};
ghost use Rattle.iddqd_order.specs.Row.{line, block_at, start_of, position, IsPlace, IsWithin, KeepsEntries};

use super::splits::{place_of, position_of};
use crate::place::Place;
use crate::row::BlockRow;

/// At how many blocks a search for thin ones looks, unless it finds none among these.
const ENOUGH: usize = 64;

/// Returns whether this block and the next one, if there is one, are to be joined: both have no more than three quarters of a
/// block between them.
fn joins_next<E>(row: &BlockRow<E>, at: usize) -> bool
    ensures next { IsTrue result → at + 1 < length row.now.blocks }
    ensures most { IsTrue result → row.now.memory ≤ 128 }
    ensures short { IsTrue result
        → length (block_at row.now.blocks at) + length (block_at row.now.blocks (at + 1)) ≤ row.now.memory }
{
    let count = row.len();
    if count <= at || count - at == 1 {
        return false;
    }
    let memory = row.memory();
    row.len_at(at) + row.len_at(at + 1) <= memory - memory / 4
}

/// Joins the block of this place with one beside it if both are short, but not at the start. Returns where the place is then.
pub(super) fn close_up<E>(row: &mut BlockRow<E>, place: Place) -> Place
    requires { IsPlace row.old.blocks place }
    ensures entries { KeepsEntries row.old row.new }
    ensures place { IsPlace row.new.blocks result }
    ensures same { position row.new.blocks result ≡ position row.old.blocks place }
{
    let at = place.block;
    // While entries are removed from the front, the first block is not joined with the next one, again and again.
    if at == 0 && place.offset == 0 {
        return place;
    }
    if joins_next(row, at) {
        row.join(at);
        return place;
    }
    if at == 0 {
        return place;
    }
    if joins_next(row, at - 1) {
        let before = row.len_at(at - 1);
        row.join(at - 1);
        return Place {
            block: at - 1,
            offset: before + place.offset,
        };
    }
    place
}

/// Returns the first and the last of some neighbours, from this block on, whose entries fit into one block less, or `None` if no such are
/// found. It takes the first two that it meets, and else the fewest of those that it meets among `ENOUGH` blocks. Only if there are none
/// among these it looks at more.
fn thin_from<E>(row: &BlockRow<E>, from: usize) -> Option<(usize, usize)>
    ensures order { IfSome result (λ n. n.0 ≤ n.1) }
    ensures within { IfSome result (λ n. n.1 < length row.now.blocks) }
{
    let memory = row.memory();
    let count = row.len();
    if count < 2 {
        return None;
    }
    let mut found = None;
    let mut least = count;
    let mut first = from;
    let mut room = 0;
    for at in from..count {
        if room == 0 {
            first = at;
        }
        room += memory - row.len_at(at);
        if memory <= room {
            if at - first < least {
                least = at - first;
                found = Some((first, at));
            }
            room = 0;
        }
        if least == 1 || (least < count && ENOUGH <= at - from) {
            return found;
        }
    }
    found
}

/// Returns the first and the last of some neighbours whose entries fit into one block less, or `None` if no such are found. Of many blocks
/// it goes on with those at which the last such search ended, so that it does not look at the same full ones each time.
fn find_thin<E>(row: &BlockRow<E>) -> Option<(usize, usize)>
    ensures order { IfSome result (λ n. n.0 ≤ n.1) }
    ensures within { IfSome result (λ n. n.1 < length row.now.blocks) }
{
    let from = row.thin();
    if from != 0 && ENOUGH < row.len() {
        if let Some(found) = thin_from(row, from) {
            return Some(found);
        }
    }
    thin_from(row, 0)
}

/// Fills each block from `from` on, up to `to`, with entries of the next one, until that has none left and becomes spare. Returns whether
/// one did.
fn condense<E>(row: &mut BlockRow<E>, from: usize, to: usize) -> bool
    requires order { from ≤ to }
    requires within { to < length row.old.blocks }
    ensures entries { KeepsEntries row.old row.new }
    ensures some { from < length row.new.blocks }
    ensures before { (k : ℕ) → k ≤ from → start_of row.new.blocks k ≡ start_of row.old.blocks k }
    ensures joined { IsTrue result → length row.new.blocks + 1 ≡ length row.old.blocks }
    ensures joined_behind { IsTrue result → (k : ℕ) → to ≤ k → start_of row.new.blocks k ≡ start_of row.old.blocks (k + 1) }
    ensures count { result ≡ false → length row.new.blocks ≡ length row.old.blocks }
    ensures behind { result ≡ false → (k : ℕ) → to < k → start_of row.new.blocks k ≡ start_of row.old.blocks k }
{
    let memory = row.memory();
    let mut at = from;
    while at < to {
        let room = memory - row.len_at(at);
        if row.len_at(at + 1) <= room {
            row.join(at);
            return true;
        }
        row.pull(at, room);
        at += 1;
    }
    false
}

/// Makes a block spare if some neighbours have room for so many entries: these move together. Returns where the place is then.
///
/// Only if the place is among these neighbours, it takes a step for each of them to find it again.
pub(super) fn spare_one<E>(row: &mut BlockRow<E>, place: Place) -> Place
    requires place { IsWithin row.old.blocks place }
    requires countable { length (line row.old.blocks) < 2 ^ 64 }
    ensures entries { KeepsEntries row.old row.new }
    ensures place { IsWithin row.new.blocks result }
    ensures same { position row.new.blocks result ≡ position row.old.blocks place }
{
    let Some((from, to)) = find_thin(row) else {
        return place;
    };
    row.begin_at(to);
    if place.block < from {
        let _ = condense(row, from, to);
        return place;
    }
    if to < place.block {
        let block = if condense(row, from, to) {
            place.block - 1
        } else {
            place.block
        };
        return Place {
            block,
            offset: place.offset,
        };
    }
    let before = position_of(row, from, place);
    let _ = condense(row, from, to);
    place_of(row, from, before)
}
