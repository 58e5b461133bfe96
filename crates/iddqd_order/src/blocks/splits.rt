//! Room for one more entry in a block.
ghost use Rattle.std.specs.Prelude.{◌≡◌, ◌+◌, ◌*◌, ◌^◌, ◌<◌, ◌≤◌, [], length, false, IsTrue};
ghost use Rattle.std.specs.List.{insert};
ghost use Rattle.iddqd_order.specs.Row.{line, block_at, start_of, position, IsPlace, IsWithin, HasEntry, HasRoom, KeepsEntries, room_of};

use super::joins::spare_one;
use super::shifts::shift;
use crate::block::Block;
use crate::place::Place;
use crate::row::BlockRow;
use std::alloc::Global;
use std::mem::replace;

/// Returns where a full block is split for an entry at this place: in halves. But entries that come in ascending or descending
/// order are to leave full blocks behind, so the last block is split before its last entry if the new one goes after it, and
/// the first block behind its first entry if the new one goes before it.
fn split_offset(place: Place, count: usize, len: usize) -> usize
    requires within { place.block < count }
    requires many { 2 ≤ len }
    ensures some { 0 < result }
    ensures most { result < len }
{
    if place.block + 1 == count && place.offset == len {
        len - 1
    } else if place.block == 0 && place.offset == 0 {
        1
    } else {
        len / 2
    }
}

/// Splits the block of this place, which is full, with a spare block. Returns where the place is then.
fn split<E>(row: &mut BlockRow<E>, place: Place) -> Place
    requires place { IsWithin row.old.blocks place }
    requires full { length (block_at row.old.blocks place.block) ≡ row.old.memory }
    requires many { 2 ≤ row.old.memory }
    requires some { 0 < row.old.spare }
    ensures entries { KeepsEntries row.old row.new }
    ensures room { HasRoom row.new.blocks row.new.memory result }
    ensures same { position row.new.blocks result ≡ position row.old.blocks place }
{
    let offset = split_offset(place, row.len(), row.memory());
    row.split(place.block, offset);
    if place.offset <= offset {
        return place;
    }
    Place {
        block: place.block + 1,
        offset: place.offset - offset,
    }
}

/// Makes a spare block if there is none and memory may be asked for. Returns whether there is one then.
fn has_spare<E>(row: &mut BlockRow<E>, alloc: Global, asks: bool) -> bool
    ensures blocks { row.new.blocks ≡ row.old.blocks }
    ensures memory { row.new.memory ≡ row.old.memory }
    ensures most { row.new.most ≡ row.old.most }
    ensures no_less { row.old.spare ≤ row.new.spare }
    ensures some { IsTrue result → 0 < row.new.spare }
    ensures none { result ≡ false → row.new.spare ≡ 0 }
{
    if row.spare() != 0 {
        return true;
    }
    let most = row.most();
    if !asks || row.memory() < most || 128 < most {
        return false;
    }
    match row.make(alloc) {
        Ok(()) => true,
        Err(_) => false,
    }
}

/// Asks for a spare block if there is none, unless all entries are in one block. If that is refused, nothing has changed.
#[inline(always)]
pub(super) fn keep_spare<E>(row: &mut BlockRow<E>, alloc: Global)
    ensures blocks { row.new.blocks ≡ row.old.blocks }
    ensures memory { row.new.memory ≡ row.old.memory }
    ensures no_less { row.old.spare ≤ row.new.spare }
{
    if row.spare() == 0 && 1 < row.len() {
        let _ = has_spare(row, alloc, true);
    }
}

/// Gives the block that is kept back if those of the row hold as many entries as fit.
fn release<E>(row: &BlockRow<E>, kept: &mut Block<E>, capacity: usize)
    requires unused { kept.old.entries ≡ [] }
    requires held { capacity ≤ room_of row.now kept.old }
    ensures unused { kept.new.entries ≡ [] }
    ensures held { capacity ≤ room_of row.now kept.new }
{
    if kept.room() != 0 && capacity <= row.room() {
        kept.shrink(0);
    }
}

/// Returns the number of entries from the start of a block up to this place, which is in it or behind it.
pub(super) fn position_of<E>(row: &BlockRow<E>, from: usize, place: Place) -> usize
    requires place { IsWithin row.now.blocks place }
    requires order { from ≤ place.block }
    requires countable { length (line row.now.blocks) < 2 ^ 64 }
    ensures { start_of row.now.blocks from + result ≡ position row.now.blocks place }
{
    let mut before = 0;
    for b in from..place.block {
        before += row.len_at(b);
    }
    before + place.offset
}

/// Returns the place with so many entries between the start of a block and it, in a block or at its end.
pub(super) fn place_of<E>(row: &BlockRow<E>, from: usize, before: usize) -> Place
    requires some { from < length row.now.blocks }
    requires within { start_of row.now.blocks from + before ≤ length (line row.now.blocks) }
    ensures within { IsWithin row.now.blocks result }
    ensures before { position row.now.blocks result ≡ start_of row.now.blocks from + before }
{
    let last = row.len() - 1;
    let mut place = Place {
        block: from,
        offset: before,
    };
    while place.block < last {
        let len = row.len_at(place.block);
        if place.offset <= len {
            return place;
        }
        place = Place {
            block: place.block + 1,
            offset: place.offset - len,
        };
    }
    place
}

/// Moves all entries to the block that is kept, which has memory for one more. Returns where the place is then.
fn gather<E>(row: &mut BlockRow<E>, kept: &mut Block<E>, alloc: Global, place: Place) -> Place
    requires place { IsWithin row.old.blocks place }
    requires unused { kept.old.entries ≡ [] }
    requires many { 4 ≤ length (line row.old.blocks) }
    requires fits { length (line row.old.blocks) < kept.old.room }
    ensures entries { line row.new.blocks ≡ line row.old.blocks }
    ensures held { kept.old.room ≤ row.new.memory * (length row.new.blocks + row.new.spare) }
    ensures unused { kept.new.entries ≡ [] }
    ensures room { HasRoom row.new.blocks row.new.memory result }
    ensures same { position row.new.blocks result ≡ position row.old.blocks place }
{
    // The number of entries is less than that for which there is memory, so it can be counted.
    let _ = kept.room();
    let offset = position_of(row, 0, place);
    let wide = replace(kept, Block::none(alloc));
    row.gather(wide);
    Place { block: 0, offset }
}

/// Returns whether the block that `shift` tries first is not full.
fn has_room_beside<E>(row: &BlockRow<E>, at: usize) -> bool
    requires { at < length row.now.blocks }
{
    let count = row.len();
    if at + 1 < count {
        return row.len_at(at + 1) < row.memory();
    }
    0 < at && row.len_at(at - 1) < row.memory()
}

/// Makes room in the block of this place, which is full: by a split, with a spare block or, if memory may be asked for, a new
/// one. If none is to be had, an entry moves to the block beside. If that is full too, a split takes the block that becomes spare
/// when thin blocks move together. If the blocks have less room than that, entries move up to a block that is not full, or if all
/// are, to the one that is kept. Returns where the place is then.
#[cold]
#[inline(never)]
fn open<E>(
    row: &mut BlockRow<E>,
    kept: &mut Block<E>,
    capacity: usize,
    alloc: Global,
    asks: bool,
    place: Place,
) -> Place
    requires place { IsWithin row.old.blocks place }
    requires full { length (block_at row.old.blocks place.block) ≡ row.old.memory }
    requires many { 4 ≤ row.old.memory }
    requires unused { kept.old.entries ≡ [] }
    requires fits { length (line row.old.blocks) < capacity }
    requires held { capacity ≤ room_of row.old kept.old }
    ensures entries { line row.new.blocks ≡ line row.old.blocks }
    ensures unused { kept.new.entries ≡ [] }
    ensures held { capacity ≤ room_of row.new kept.new }
    ensures room { HasRoom row.new.blocks row.new.memory result }
    ensures same { position row.new.blocks result ≡ position row.old.blocks place }
{
    if has_spare(row, alloc, asks) {
        release(row, kept, capacity);
        return split(row, place);
    }
    let mut place = place;
    if !has_room_beside(row, place.block) {
        place = spare_one(row, place);
        if row.len_at(place.block) < row.memory() {
            return place;
        }
        if row.spare() != 0 {
            return split(row, place);
        }
    }
    match shift(row, place) {
        Some(place) => place,
        None => gather(row, kept, alloc, place),
    }
}

/// Makes room for one more entry at this place. Returns where the place is then.
#[inline(always)]
fn make_room<E>(
    row: &mut BlockRow<E>,
    kept: &mut Block<E>,
    capacity: usize,
    alloc: Global,
    asks: bool,
    place: Place,
) -> Place
    requires place { IsPlace row.old.blocks place }
    requires some { 0 < length row.old.blocks }
    requires many { 4 ≤ row.old.memory }
    requires unused { kept.old.entries ≡ [] }
    requires fits { length (line row.old.blocks) < capacity }
    requires held { capacity ≤ room_of row.old kept.old }
    ensures entries { line row.new.blocks ≡ line row.old.blocks }
    ensures unused { kept.new.entries ≡ [] }
    ensures held { capacity ≤ room_of row.new kept.new }
    ensures room { HasRoom row.new.blocks row.new.memory result }
    ensures same { position row.new.blocks result ≡ position row.old.blocks place }
{
    let place = within(row, place);
    if row.len_at(place.block) < row.memory() {
        return place;
    }
    open(row, kept, capacity, alloc, asks, place)
}

/// Inserts an entry before this place, and returns its place. There is memory for it, and more is asked for only if `asks`.
#[inline(always)]
pub(super) fn insert<E>(
    row: &mut BlockRow<E>,
    kept: &mut Block<E>,
    capacity: usize,
    alloc: Global,
    asks: bool,
    place: Place,
    entry: E,
) -> Place
    requires place { IsPlace row.old.blocks place }
    requires unused { kept.old.entries ≡ [] }
    requires fits { length (line row.old.blocks) < capacity }
    requires held { capacity ≤ room_of row.old kept.old }
    requires some { 0 < row.old.memory * (length row.old.blocks + row.old.spare) }
    ensures entries { line row.new.blocks ≡ insert (line row.old.blocks) (position row.old.blocks place) entry }
    ensures unused { kept.new.entries ≡ [] }
    ensures held { capacity ≤ room_of row.new kept.new }
    ensures some { 0 < row.new.memory * (length row.new.blocks + row.new.spare) }
    ensures entry { HasEntry row.new.blocks result }
    ensures at { position row.new.blocks result ≡ position row.old.blocks place }
{
    if row.len() == 0 {
        set_aside(row, kept, capacity, alloc, asks);
        row.start(entry);
        return Place {
            block: 0,
            offset: 0,
        };
    }
    let place = make_room(row, kept, capacity, alloc, asks, place);
    row.insert(place.block, place.offset, entry);
    place
}

/// If all memory is in one wide block, which is empty, and memory may be asked for, gets a block that is not wide, and keeps the wide
/// one, as after a reserve. So no entry that comes then has to move past all others. If the memory is refused, nothing has changed.
#[cold]
#[inline(never)]
fn set_aside<E>(
    row: &mut BlockRow<E>,
    kept: &mut Block<E>,
    capacity: usize,
    alloc: Global,
    asks: bool,
)
    requires none { row.old.blocks ≡ [] }
    requires unused { kept.old.entries ≡ [] }
    requires held { capacity ≤ room_of row.old kept.old }
    requires some { 0 < row.old.memory * (length row.old.blocks + row.old.spare) }
    ensures blocks { row.new.blocks ≡ [] }
    ensures unused { kept.new.entries ≡ [] }
    ensures held { capacity ≤ room_of row.new kept.new }
    ensures some { 0 < row.new.memory * (length row.new.blocks + row.new.spare) }
{
    if !asks || row.most() <= 128 {
        return;
    }
    if let Some(wide) = row.exchange(alloc) {
        if kept.room() < wide.room() {
            replace(kept, wide).free();
        } else {
            wide.free();
        }
    }
}

/// Returns the same place, in a block.
#[inline(always)]
fn within<E>(row: &BlockRow<E>, place: Place) -> Place
    requires place { IsPlace row.now.blocks place }
    requires some { 0 < length row.now.blocks }
    ensures within { IsWithin row.now.blocks result }
    ensures same { position row.now.blocks result ≡ position row.now.blocks place }
{
    let count = row.len();
    if place.block == count {
        return Place {
            block: count - 1,
            offset: row.len_at(count - 1),
        };
    }
    place
}
