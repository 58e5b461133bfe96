//! A block of a row.
ghost use Rattle.std.specs.Prelude.{◌≡◌, ◌+◌, ◌<◌, ◌≤◌, ◌++◌, [], ◌∷◌, length, take, drop, slice_set, slice_index_or, IfOk, OnOk, OnErr};
ghost use Rattle.std.specs.Borrow.{sem};
ghost use Rattle.std.specs.List.{insert, remove, AllZip};

use std::alloc::{AllocError, Global};
use std::collections::VecDeque;
use std::marker::Model;
use std::mem::replace;
use std::vec::VecCloneMethods;

/// Entries, which have their memory before they come. Contracts see them, and the number of those for which there is memory.
#[derive(Drop)]
pub(crate) struct Block<E> {
    entries: Vec<E>,
}

impl<E> Model for Block<E> {
    ghost use Rattle.std.specs.Prelude.{vec_capacity};
    ghost use Rattle.iddqd_order.specs.Row.{BlockValue, block_code};

    ghost Value = { BlockValue E };

    ghost coded = { block_code E.code };

    ghost view = { λ b. record { entries = b.entries.items; room = vec_capacity b.entries } };
}

impl<E> Block<E> {
    ghost use Rattle.iddqd_order.specs.Lends.{lends_in_block};

    /// Makes an empty block, with memory for so many entries.
    pub(crate) fn new(alloc: Global, memory: usize) -> Result<Block<E>, AllocError>
        ensures empty { IfOk result (λ b. b.entries ≡ []) }
        ensures room { IfOk result (λ b. memory ≤ b.room) }
    {
        Ok(Block {
            entries: Vec::with_capacity(alloc, memory)?,
        })
    }

    /// Makes an empty block with no memory. It allocates nothing.
    pub(crate) fn none(alloc: Global) -> Block<E>
        ensures empty { result.entries ≡ [] }
        ensures room { result.room ≡ 0 }
    {
        Block {
            entries: Vec::new(alloc),
        }
    }

    /// Returns the number of entries for which there is memory.
    pub(crate) fn room(&self) -> usize
        ensures { result ≡ self.now.room }
    {
        self.entries.capacity()
    }

    pub(crate) fn len(&self) -> usize
        ensures { result ≡ length self.now.entries }
    {
        self.entries.len()
    }

    /// Returns all entries.
    pub(crate) fn entries(&self) -> &[E]
        ensures { result.now ≡ self.now.entries }
    {
        self.entries.as_slice()
    }

    /// Returns the first entry, and the others.
    pub(crate) fn split_first(&self) -> (&E, &[E])
        requires { 0 < length self.now.entries }
        ensures { self.now.entries ≡ result.0.now ∷ result.1.now }
    {
        let entries = self.entries.as_slice();
        (&entries[0], &entries[1..])
    }

    /// Returns the last entry, and the others.
    pub(crate) fn split_last(&self) -> (&E, &[E])
        requires { 0 < length self.now.entries }
        ensures { self.now.entries ≡ result.1.now ++ result.0.now ∷ [] }
    {
        let entries = self.entries.as_slice();
        let last = entries.len() - 1;
        (&entries[last], &entries[..last])
    }

    /// Gets memory for so many entries, if there is less. After an error nothing has changed.
    pub(crate) fn grow(&mut self, memory: usize) -> Result<(), AllocError>
        ensures entries { self.new.entries ≡ self.old.entries }
        ensures no_less { self.old.room ≤ self.new.room }
        ensures room { OnOk result (memory ≤ self.new.room) }
        ensures unchanged { OnErr result (self.new ≡ self.old) }
    {
        let len = self.entries.len();
        if memory <= len {
            return Ok(());
        }
        self.entries.reserve_exact(memory - len)?;
        Ok(())
    }

    /// Gives memory for more than so many entries back.
    pub(crate) fn shrink(&mut self, memory: usize)
        ensures entries { self.new.entries ≡ self.old.entries }
        ensures room { memory ≤ self.old.room → memory ≤ self.new.room }
        ensures no_more { self.new.room ≤ self.old.room }
    {
        self.entries.shrink_to(memory);
    }

    /// Inserts an entry before this offset.
    pub(crate) fn insert(&mut self, offset: usize, entry: E)
        requires within { offset ≤ length self.old.entries }
        requires room { length self.old.entries < self.old.room }
        ensures entries { self.new.entries ≡ insert self.old.entries offset entry }
        ensures no_less { self.old.room ≤ self.new.room }
    {
        // The toolchain moves the entries by a loop in `insert` of a list, and all at once in a rotation by one.
        self.entries.push_reserved(entry);
        self.entries[offset..].rotate_right(1);
    }

    /// Inserts an entry behind the others.
    pub(crate) fn push(&mut self, entry: E)
        requires { length self.old.entries < self.old.room }
        ensures entries { self.new.entries ≡ self.old.entries ++ entry ∷ [] }
        ensures room { self.new.room ≡ self.old.room }
    {
        self.entries.push_reserved(entry);
    }

    /// Removes the last entry, and returns it.
    pub(crate) fn take_last(&mut self) -> E
        requires { 0 < length self.old.entries }
        ensures parts { self.old.entries ≡ self.new.entries ++ result ∷ [] }
        ensures room { self.new.room ≡ self.old.room }
    {
        self.entries.take_last()
    }

    /// Removes the entry at this offset, and returns it.
    pub(crate) fn remove(&mut self, offset: usize) -> E
        requires { offset < length self.old.entries }
        ensures value { result ≡ slice_index_or self.old.entries offset result }
        ensures rest { self.new.entries ≡ remove self.old.entries offset }
        ensures no_less { self.old.room ≤ self.new.room }
    {
        self.entries.remove(offset)
    }

    /// Puts an entry in the place of the one at this offset, and returns the latter.
    pub(crate) fn replace(&mut self, offset: usize, entry: E) -> E
        requires { offset < length self.old.entries }
        ensures value { result ≡ slice_index_or self.old.entries offset result }
        ensures entries { self.new.entries ≡ slice_set self.old.entries offset entry }
        ensures room { self.new.room ≡ self.old.room }
    {
        replace(&mut self.entries[offset], entry)
    }

    /// Returns the entry at this offset, borrowed for writing.
    pub(crate) fn entry_mut(&mut self, offset: usize) -> &mut E
        requires { offset < length self.old.entries }
        ensures value { result.now ≡ slice_index_or self.old.entries offset result.now }
        ensures* writes_back { sem 𝓛 (lends_in_block E.row self.entry offset result) }
    {
        &mut self.entries[offset]
    }

    /// Drops all entries. The memory stays.
    pub(crate) fn clear(&mut self)
    where
        E: Drop,
        ensures none { self.new.entries ≡ [] }
        ensures room { self.new.room ≡ self.old.room }
    {
        self.entries.clear();
    }

    /// Moves the entries from this offset on to an empty block.
    pub(crate) fn split_into(&mut self, offset: usize, tail: &mut Block<E>)
        requires within { offset ≤ length self.old.entries }
        requires empty { tail.old.entries ≡ [] }
        requires room { length self.old.entries ≤ tail.old.room + offset }
        ensures head { self.new.entries ≡ take offset self.old.entries }
        ensures tail { tail.new.entries ≡ drop offset self.old.entries }
        ensures no_less { self.old.room ≤ self.new.room }
        ensures no_less_tail { tail.old.room ≤ tail.new.room }
    {
        while offset < self.len() {
            tail.push(self.take_last());
        }
        tail.entries.reverse();
    }

    /// Moves the entries of the next block to the end of this one.
    pub(crate) fn append(&mut self, next: &mut Block<E>)
        requires { length self.old.entries + length next.old.entries ≤ self.old.room }
        ensures all { self.new.entries ≡ self.old.entries ++ next.old.entries }
        ensures none { next.new.entries ≡ [] }
        ensures no_less { self.old.room ≤ self.new.room }
        ensures no_less_next { next.old.room ≤ next.new.room }
    {
        match self.entries.append(&mut next.entries) {
            Ok(()) => {}
            Err(_) => unreachable!(),
        }
    }

    /// Moves so many entries from the front of the next block to the end of this one.
    pub(crate) fn pull(&mut self, next: &mut Block<E>, count: usize)
        requires within { count ≤ length next.old.entries }
        requires room { length self.old.entries + count ≤ self.old.room }
        ensures all { self.new.entries ++ next.new.entries ≡ self.old.entries ++ next.old.entries }
        ensures longer { length self.new.entries ≡ length self.old.entries + count }
        ensures room { self.new.room ≡ self.old.room }
        ensures next_room { next.new.room ≡ next.old.room }
    {
        // It takes one step to take the last entry of a list, and many to take the first.
        next.entries.reverse();
        let mut left = count;
        while 0 < left {
            self.push(next.take_last());
            left -= 1;
        }
        next.entries.reverse();
    }

    /// Gives the memory of an empty block back.
    pub(crate) fn free(self)
        requires { self.entries ≡ [] }
    {
        let Block { entries } = self;
        entries.destroy_empty();
    }
}

impl<E: Clone> Block<E> {
    /// Makes a block with a clone of each entry, and with memory for so many entries.
    pub(crate) fn cloned(&self, alloc: Global, memory: usize) -> Result<Block<E>, AllocError>
        ensures entries { IfOk result (λ b. AllZip E.is_clone self.now.entries b.entries) }
        ensures room { IfOk result (λ b. memory ≤ b.room) }
    {
        let mut entries = Vec::with_capacity(alloc, memory)?;
        VecCloneMethods::extend_from_slice(&mut entries, self.entries.as_slice())?;
        Ok(Block { entries })
    }
}

impl<E: Drop> Block<E> {
    /// Returns the first entry, and the others.
    pub(crate) fn into_first(self) -> (E, VecDeque<E>)
        requires { 0 < length self.entries }
        ensures { self.entries ≡ result.0 ∷ result.1.items }
    {
        let Block { entries } = self;
        let mut rest = VecDeque::from_vec(entries);
        match rest.pop_front() {
            Some(entry) => (entry, rest),
            None => unreachable!(),
        }
    }

    /// Returns the last entry, and the others.
    pub(crate) fn into_last(self) -> (E, VecDeque<E>)
        requires { 0 < length self.entries }
        ensures { self.entries ≡ result.1.items ++ result.0 ∷ [] }
    {
        let Block { entries } = self;
        let mut rest = VecDeque::from_vec(entries);
        match rest.pop_back() {
            Some(entry) => (entry, rest),
            None => unreachable!(),
        }
    }
}
