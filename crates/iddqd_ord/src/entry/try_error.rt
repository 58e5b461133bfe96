//! Why `or_try_insert_with` inserted nothing.
ghost use Rattle.std.specs.Prelude.{◌≡◌};

use crate::error::EntryError;
use crate::item::IdOrdItem;
use crate::map::IdOrdMap;
use std::error::Error;
use std::fmt::{self, Debug, Display, Formatter, Write};

/// Why `Entry::or_try_insert_with` inserted nothing. `R` is the error of the insert, and always an `EntryError`. It is a
/// parameter for the proof alone: the checker does not find an enum inside another one where the error is dropped.
#[derive(Drop)]
pub enum TryEntryError<R, E> {
    /// The closure failed, with this error.
    Closure(E),
    /// The closure returned an item, and the entry rejected it.
    Insert(R),
}

/// The error of `Entry::or_try_insert_with`: a `TryEntryError`, with a borrow of the map, which is as it was before the
/// call. By that borrow contracts tell the caller exactly what the map is.
pub struct TryEntryRefusal<'a, T: IdOrdItem, E> {
    pub(crate) map: &'a mut IdOrdMap<T>,
    pub(crate) error: TryEntryError<EntryError<T>, E>,
}

impl<T: IdOrdItem, E> TryEntryRefusal<'_, T, E> {
    /// Returns why no item was inserted.
    pub fn error(&self) -> &TryEntryError<EntryError<T>, E>
        ensures { result.now ≡ self.now.error }
    {
        &self.error
    }

    /// Returns why no item was inserted, by value.
    pub fn into_error(self) -> TryEntryError<EntryError<T>, E>
        ensures error { result ≡ self.entry.error }
        ensures map { self.exit.0.now ≡ self.entry.map.now }
    {
        let TryEntryRefusal { map: _, error } = self;
        error
    }
}

impl<T: IdOrdItem + Drop, E: Drop> Drop for TryEntryRefusal<'_, T, E> {
    fn drop(self)
        ensures { self.exit.0.now ≡ self.entry.map.now }
    {
        let error = self.into_error();
        drop(error);
    }
}

impl<R: Debug, E: Debug> Debug for TryEntryError<R, E> {
    fn fmt<W: Write>(&self, f: &mut Formatter<W>) -> fmt::Result {
        match self {
            TryEntryError::Closure(error) => f.debug_tuple("Closure").field(error).finish(),
            TryEntryError::Insert(error) => f.debug_tuple("Insert").field(error).finish(),
        }
    }
}

impl<R: Display, E: Display> Display for TryEntryError<R, E> {
    fn fmt<W: Write>(&self, f: &mut Formatter<W>) -> fmt::Result {
        match self {
            TryEntryError::Closure(error) => Display::fmt(error, f),
            TryEntryError::Insert(error) => Display::fmt(error, f),
        }
    }
}

impl<R: Error, E: Error> Error for TryEntryError<R, E> {}

impl<T: IdOrdItem, E: Debug> Debug for TryEntryRefusal<'_, T, E> {
    fn fmt<W: Write>(&self, f: &mut Formatter<W>) -> fmt::Result {
        f.debug_struct("TryEntryRefusal")
            .field("error", &self.error)
            .finish_non_exhaustive()
    }
}

impl<T: IdOrdItem, E: Display> Display for TryEntryRefusal<'_, T, E> {
    fn fmt<W: Write>(&self, f: &mut Formatter<W>) -> fmt::Result {
        Display::fmt(&self.error, f)
    }
}
