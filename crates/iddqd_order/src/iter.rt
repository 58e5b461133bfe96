//! Iterating over entries, from both ends.
ghost use Rattle.std.specs.Prelude.{◌≡◌, ◌-◌, ◌^◌, ◌<◌, ◌≤◌, [], length, slice_range, IfSome, Some};
ghost use Rattle.std.specs.Option.{option_map};
ghost use Rattle.std.specs.Iterator.{YieldsFirstRef, YieldsLastRef, UpTo, item_count};
ghost use Rattle.std.specs.Iterator.SizeHint.{IsWithinCount};
ghost use Rattle.iddqd_order.specs.Row.{line, entry_lists, block_at, position, IsPlace};

use crate::block::Block;
use crate::place::Place;
use crate::row::BlockRow;
use std::alloc::AllocError;
use std::fmt::{self, Debug, Formatter, Write};
use std::iter::{DoubleEndedIterator, ExactSizeIterator, FusedIterator};
use std::marker::Model;

/// Iterates over references to entries, in order, from both ends. Contracts see the entries that are left, as a list.
///
/// `len` and `size_hint` are exact. For an iterator over all entries they take one step. For one over a part they take one
/// step for each block that is not yet begun.
#[derive(Drop)]
pub struct Iter<'a, E> {
    front: &'a [E],
    blocks: &'a [Block<E>],
    back: &'a [E],
    // The number of entries in `blocks`, if it is known. It changes only where a block leaves them.
    middle: Option<usize>,
}

impl<'a, E> Model for Iter<'a, E> {
    ghost use Rattle.std.specs.Prelude.{List, ℕ, ◌≡◌, ◌+◌, ◌^◌, ◌<◌, ◌++◌, length, All, IfSome};
    ghost use Rattle.iddqd_order.specs.Row.{line, entry_lists, BlockValue};

    ghost Value = { List E };

    ghost view = { λ it. it.front.now ++ (line (entry_lists it.blocks.now) ++ it.back.now) };

    ghost invariant = { λ it. All (λ b. 0 < length b.entries) it.blocks.now
        × (length (it.front.now ++ (line (entry_lists it.blocks.now) ++ it.back.now)) < 2 ^ 64)
        × IfSome it.middle (λ n. n ≡ length (line (entry_lists it.blocks.now))) };
}

impl<'a, E> Iter<'a, E> {
    /// Iterates over all entries of a row.
    pub(crate) fn all(row: &'a BlockRow<E>, count: usize) -> Iter<'a, E>
        requires { count ≡ length (line row.now.blocks) }
        ensures { result ≡ line row.now.blocks }
    {
        Iter {
            front: &[],
            blocks: row.blocks(),
            back: &[],
            middle: Some(count),
        }
    }

    /// Iterates over the entries of a row from one place up to another.
    pub(crate) fn part(row: &'a BlockRow<E>, _count: usize, from: Place, to: Place) -> Iter<'a, E>
        requires count { _count ≡ length (line row.now.blocks) }
        requires from { IsPlace row.now.blocks from }
        requires to { IsPlace row.now.blocks to }
        ensures { result ≡ slice_range (line row.now.blocks) (position row.now.blocks from) (position row.now.blocks to) }
    {
        if to.block < from.block {
            return Iter::default();
        }
        if from.block == to.block {
            return Iter {
                front: part_of(row, from.block, from.offset, to.offset),
                blocks: &[],
                back: &[],
                middle: Some(0),
            };
        }
        Iter {
            front: part_of(row, from.block, from.offset, row.len_at(from.block)),
            blocks: row.between(from.block + 1, to.block),
            back: part_of(row, to.block, 0, to.offset),
            middle: None,
        }
    }

    /// Returns an iterator over the entries that are left.
    pub fn clone(&self) -> Self
        ensures { result ≡ self.now }
    {
        Iter {
            front: self.front,
            blocks: self.blocks,
            back: self.back,
            middle: self.middle,
        }
    }

    /// Returns an iterator over no entries.
    pub fn default() -> Self
        ensures { result ≡ [] }
    {
        Iter {
            front: &[],
            blocks: &[],
            back: &[],
            middle: Some(0),
        }
    }
}

/// Returns the number of entries in some blocks without one that has so many, if the number with it is known.
fn without(middle: Option<usize>, len: usize) -> Option<usize>
    requires { IfSome middle (λ n. len ≤ n) }
    ensures { result ≡ option_map (λ n. n - len) middle }
{
    match middle {
        Some(count) => Some(count - len),
        None => None,
    }
}

/// Returns the entries of a block from one offset up to another. There are none if the second comes first, or if there is no such
/// block.
fn part_of<E>(row: &BlockRow<E>, at: usize, from: usize, to: usize) -> &[E]
    requires { to ≤ length (block_at row.now.blocks at) }
    ensures { result.now ≡ slice_range (block_at row.now.blocks at) from to }
{
    if to <= from || row.len() <= at {
        return &[];
    }
    &row.entries_of(at)[from..to]
}

impl<'a, E> Iterator for Iter<'a, E> {
    type Item = &'a E;

    ghost next_gives = { YieldsFirstRef (λ rest. rest) };

    ghost remaining = { item_count (λ rest. rest) };

    fn next(&mut self) -> Option<&'a E> {
        if let Some((entry, rest)) = self.front.split_first() {
            self.front = rest;
            return Some(entry);
        }
        let Some((block, later)) = self.blocks.split_first() else {
            let Some((entry, rest)) = self.back.split_first() else {
                return None;
            };
            self.back = rest;
            return Some(entry);
        };
        let (entry, rest) = block.split_first();
        self.middle = without(self.middle, block.len());
        self.blocks = later;
        self.front = rest;
        Some(entry)
    }

    fn size_hint(&self) -> (usize, Option<usize>)
        ensures lower { IsWithinCount result.0 (item_count (λ rest. rest) self.now) }
        ensures upper { IfSome result.1 (UpTo (item_count (λ rest. rest) self.now)) }
        ensures exact { result ≡ (length self.now, Some (length self.now)) }
    {
        let left = self.len();
        (left, Some(left))
    }
}

impl<'a, E> DoubleEndedIterator for Iter<'a, E> {
    ghost next_back_gives = { YieldsLastRef (λ rest. rest) };

    fn next_back(&mut self) -> Option<&'a E> {
        if let Some((entry, rest)) = self.back.split_last() {
            self.back = rest;
            return Some(entry);
        }
        let Some((block, earlier)) = self.blocks.split_last() else {
            let Some((entry, rest)) = self.front.split_last() else {
                return None;
            };
            self.front = rest;
            return Some(entry);
        };
        let (entry, rest) = block.split_last();
        self.middle = without(self.middle, block.len());
        self.blocks = earlier;
        self.back = rest;
        Some(entry)
    }
}

impl<'a, E> FusedIterator for Iter<'a, E> {}

/// Counts the entries of these blocks.
fn count_in<E>(blocks: &[Block<E>]) -> usize
    requires { length (line (entry_lists blocks.now)) < 2 ^ 64 }
    ensures { result ≡ length (line (entry_lists blocks.now)) }
{
    let mut count = 0;
    for block in blocks {
        count += block.len();
    }
    count
}

/// Returns the number of entries of these blocks, which is counted if it is not known.
fn count_unless<E>(middle: Option<usize>, blocks: &[Block<E>]) -> usize
    requires known { IfSome middle (λ n. n ≡ length (line (entry_lists blocks.now))) }
    requires fits { length (line (entry_lists blocks.now)) < 2 ^ 64 }
    ensures { result ≡ length (line (entry_lists blocks.now)) }
{
    match middle {
        Some(count) => count,
        None => count_in(blocks),
    }
}

impl<'a, E> ExactSizeIterator for Iter<'a, E> {
    /// Returns the number of entries that are left.
    fn len(&self) -> usize {
        self.front.len() + count_unless(self.middle, self.blocks) + self.back.len()
    }
}

impl<E: Debug> Debug for Iter<'_, E> {
    /// Writes the entries that are left as a list.
    fn fmt<W: Write>(&self, f: &mut Formatter<W>) -> fmt::Result {
        f.debug_list().entries(self.clone()).finish()
    }
}
