//! What the errors that do not borrow the map print. They implement `Error`, so `?` converts them into `anyhow::Error`.
//! Printing needs no trait of the items, and `Error` needs only `Drop`.
use super::{DuplicateItem, FromIterError, InsertReason, MemoryRefused, TryReserveError};
use std::error::Error;
use std::fmt::{self, Debug, Display, Formatter, Write};

impl Display for TryReserveError {
    fn fmt<W: Write>(&self, f: &mut Formatter<W>) -> fmt::Result {
        f.write_str("out of memory")
    }
}

impl Error for TryReserveError {}

impl<T> Debug for MemoryRefused<T> {
    fn fmt<W: Write>(&self, f: &mut Formatter<W>) -> fmt::Result {
        f.debug_struct("MemoryRefused").finish_non_exhaustive()
    }
}

impl<T> Display for MemoryRefused<T> {
    fn fmt<W: Write>(&self, f: &mut Formatter<W>) -> fmt::Result {
        f.write_str("out of memory: the item was not inserted")
    }
}

impl<T: Drop> Error for MemoryRefused<T> {}

impl Display for InsertReason {
    fn fmt<W: Write>(&self, f: &mut Formatter<W>) -> fmt::Result {
        match self {
            InsertReason::Duplicate => f.write_str("an item with an equal key is there already"),
            InsertReason::Memory => f.write_str("out of memory: the item was not inserted"),
        }
    }
}

impl<T, L> Debug for FromIterError<T, L> {
    fn fmt<W: Write>(&self, f: &mut Formatter<W>) -> fmt::Result {
        match self {
            FromIterError::Duplicate(duplicate) => f
                .debug_tuple("Duplicate")
                .field(duplicate)
                .finish(),
            FromIterError::Memory(_item) => f.debug_struct("Memory").finish_non_exhaustive(),
        }
    }
}

impl<T, L> Display for FromIterError<T, L> {
    fn fmt<W: Write>(&self, f: &mut Formatter<W>) -> fmt::Result {
        match self {
            FromIterError::Duplicate(duplicate) => Display::fmt(duplicate, f),
            FromIterError::Memory(_item) => f.write_str("out of memory: the map was not built"),
        }
    }
}

impl<T: Drop, L: Drop> Error for FromIterError<T, L> {}

impl<T, L> Debug for DuplicateItem<T, L> {
    fn fmt<W: Write>(&self, f: &mut Formatter<W>) -> fmt::Result {
        f.debug_struct("DuplicateItem").finish_non_exhaustive()
    }
}

impl<T, L> Display for DuplicateItem<T, L> {
    fn fmt<W: Write>(&self, f: &mut Formatter<W>) -> fmt::Result {
        f.write_str("an item with an equal key is there already")
    }
}

impl<T: Drop, L: Drop> Error for DuplicateItem<T, L> {}
