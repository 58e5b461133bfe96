//! The errors of the maps that do not borrow the map, and their conversions by `?`.
ghost use Rattle.std.specs.Prelude.{◌≡◌};

use std::alloc::AllocError;
use std::io;
use std::marker::Model;

mod display;

/// The error of `reserve`, `shrink_to`, `with_capacity`, `clone` and the like: memory could not be allocated, because
/// there is none, or because the size does not fit in a `usize`.
#[derive(Clone, Copy, Debug, PartialEq, Eq)]
pub struct TryReserveError;

/// Lets `?` convert an `AllocError` of std.
impl From<AllocError> for TryReserveError {
    fn from(_refused: AllocError) -> TryReserveError {
        TryReserveError
    }
}

/// Lets `?` convert to `AllocError`.
impl From<TryReserveError> for AllocError {
    fn from(_refused: TryReserveError) -> AllocError {
        AllocError
    }
}

/// Lets `?` convert to `io::Error`, of kind `OutOfMemory`.
impl From<TryReserveError> for io::Error {
    ghost use Rattle.std.specs.IoError.{error_kind};
    ghost use Rattle.std.specs.declared.io.ErrorKind.TheVariants.{OutOfMemory};

    ghost from_gives = { λ _ e. error_kind e ≡ OutOfMemory };

    fn from(_refused: TryReserveError) -> io::Error {
        io::Error::from(AllocError)
    }
}

/// The error of `insert_overwrite`, `extend` and `from_iter`: there was no memory for this item, which comes back.
#[derive(Drop)]
pub struct MemoryRefused<T> {
    /// The item that was not inserted.
    pub value: T,
}

/// Lets `?` convert to `AllocError`. The value is dropped.
impl<T: Drop> From<MemoryRefused<T>> for AllocError {
    fn from(_refused: MemoryRefused<T>) -> AllocError {
        AllocError
    }
}

/// Lets `?` convert to `io::Error`, of kind `OutOfMemory`. The value is dropped.
impl<T: Drop> From<MemoryRefused<T>> for io::Error {
    ghost use Rattle.std.specs.IoError.{error_kind};
    ghost use Rattle.std.specs.declared.io.ErrorKind.TheVariants.{OutOfMemory};

    ghost from_gives = { λ _ e. error_kind e ≡ OutOfMemory };

    fn from(_refused: MemoryRefused<T>) -> io::Error {
        io::Error::from(AllocError)
    }
}

/// Lets `?` convert to `TryReserveError`. The value is dropped.
impl<T: Drop> From<MemoryRefused<T>> for TryReserveError {
    fn from(_refused: MemoryRefused<T>) -> TryReserveError {
        TryReserveError
    }
}

/// Why `insert_unique` or `extend_unique` did not insert an item.
#[derive(Clone, Copy, Debug, PartialEq, Eq, Drop)]
pub enum InsertReason {
    /// Items of the map, or items before it in the list of `extend_unique`, conflict with the item.
    Duplicate,
    /// Nothing conflicts with the item, but there was no memory for it.
    Memory,
}

/// The error of `from_iter_unique`. The map of the items before this one was dropped.
#[derive(Drop)]
pub enum FromIterError<T, L> {
    /// An item, and the items before it that conflict with it, as a short list `L` in the order of the keys.
    Duplicate(DuplicateItem<T, L>),
    /// An item with which nothing conflicts, and for which there was no memory.
    Memory(T),
}

/// An item that was not inserted, and the items that conflict with it: a short list `L` of them or of references to
/// them, in the order of the keys.
#[derive(Drop)]
pub struct DuplicateItem<T, L> {
    new_item: T,
    duplicates: L,
}

impl<T, L> Model for DuplicateItem<T, L> {
    ghost use Rattle.iddqd_store.specs.Errors.{Duplicates, duplicates_code};

    ghost Value = { Duplicates T L };

    ghost coded = { duplicates_code T.code L.code };

    ghost view = { λ d. record { new_item = d.new_item; duplicates = d.duplicates } };
}

impl<T, L> DuplicateItem<T, L> {
    /// Makes the error of an item and of those that conflict with it.
    pub fn new(new_item: T, duplicates: L) -> Self
        ensures { result ≡ record { new_item = new_item; duplicates = duplicates } }
    {
        DuplicateItem {
            new_item,
            duplicates,
        }
    }

    /// Returns the item that was not inserted.
    pub fn new_item(&self) -> &T
        ensures { result.now ≡ self.now.new_item }
    {
        &self.new_item
    }

    /// Returns the items that conflict with it, in the order of the keys.
    pub fn duplicates(&self) -> &L
        ensures { result.now ≡ self.now.duplicates }
    {
        &self.duplicates
    }

    /// Returns the item, and the items that conflict with it.
    pub fn into_parts(self) -> (T, L)
        ensures { result ≡ (self.new_item, self.duplicates) }
    {
        let DuplicateItem {
            new_item,
            duplicates,
        } = self;
        (new_item, duplicates)
    }
}
