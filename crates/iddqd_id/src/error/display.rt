//! What the errors print. No item is printed, so an item needs neither `Debug` nor `Display`; `Error` needs `Drop`.
//!
//! Made by tests/widths from crates/iddqd_bi/src/error/display.rt: change that file.
use super::{
    EntryError, EntryRefusal, ExtendUniqueError, InsertError, KeyMismatch, NotReplaced, Rejected,
    TryEntryError, TryEntryRefusal,
};
use crate::item::{IdHashItem, Ranked};
use iddqd_store::InsertReason;
use std::error::Error;
use std::fmt::{self, Debug, Display, Formatter, Write};
use std::hash::{BuildHasher, Hash};

impl<T> Debug for KeyMismatch<T> {
    fn fmt<W: Write>(&self, f: &mut Formatter<W>) -> fmt::Result {
        f.debug_struct("KeyMismatch").finish_non_exhaustive()
    }
}

impl<T> Display for KeyMismatch<T> {
    fn fmt<W: Write>(&self, f: &mut Formatter<W>) -> fmt::Result {
        f.write_str("the key is another one")
    }
}

impl<T: Drop> Error for KeyMismatch<T> {}

impl<T> Debug for EntryError<T> {
    fn fmt<W: Write>(&self, f: &mut Formatter<W>) -> fmt::Result {
        let name = match self {
            EntryError::Key(_item) => "Key",
            EntryError::Memory(_item) => "Memory",
        };
        f.debug_struct(name).finish_non_exhaustive()
    }
}

impl<T> Display for EntryError<T> {
    fn fmt<W: Write>(&self, f: &mut Formatter<W>) -> fmt::Result {
        f.write_str(match self {
            EntryError::Key(_item) => "the key is not the entry's",
            EntryError::Memory(_item) => "out of memory: the item was not inserted",
        })
    }
}

impl<T: Drop> Error for EntryError<T> {}

impl<T: Ranked, S: BuildHasher> Debug for InsertError<'_, T, S> {
    fn fmt<W: Write>(&self, f: &mut Formatter<W>) -> fmt::Result {
        f.debug_struct("InsertError")
            .field("reason", &self.reason())
            .finish_non_exhaustive()
    }
}

impl<T: Ranked, S: BuildHasher> Display for InsertError<'_, T, S> {
    fn fmt<W: Write>(&self, f: &mut Formatter<W>) -> fmt::Result {
        Display::fmt(&self.reason(), f)
    }
}

impl<T: IdHashItem, S: BuildHasher> Debug for EntryRefusal<'_, T, S> {
    fn fmt<W: Write>(&self, f: &mut Formatter<W>) -> fmt::Result {
        f.debug_struct("EntryRefusal")
            .field("error", &self.error)
            .finish_non_exhaustive()
    }
}

impl<T: IdHashItem, S: BuildHasher> Display for EntryRefusal<'_, T, S> {
    fn fmt<W: Write>(&self, f: &mut Formatter<W>) -> fmt::Result {
        Display::fmt(&self.error, f)
    }
}

impl<R: Debug, E: Debug> Debug for TryEntryError<R, E> {
    fn fmt<W: Write>(&self, f: &mut Formatter<W>) -> fmt::Result {
        match self {
            TryEntryError::Closure(error) => f.debug_tuple("Closure").field(error).finish(),
            TryEntryError::Insert(error) => f.debug_tuple("Insert").field(error).finish(),
        }
    }
}

impl<R: Display, E: Display> Display for TryEntryError<R, E> {
    fn fmt<W: Write>(&self, f: &mut Formatter<W>) -> fmt::Result {
        match self {
            TryEntryError::Closure(error) => Display::fmt(error, f),
            TryEntryError::Insert(error) => Display::fmt(error, f),
        }
    }
}

impl<R: Error, E: Error> Error for TryEntryError<R, E> {}

impl<T: IdHashItem, E: Debug, S: BuildHasher> Debug for TryEntryRefusal<'_, T, E, S> {
    fn fmt<W: Write>(&self, f: &mut Formatter<W>) -> fmt::Result {
        f.debug_struct("TryEntryRefusal")
            .field("error", &self.error)
            .finish_non_exhaustive()
    }
}

impl<T: IdHashItem, E: Display, S: BuildHasher> Display for TryEntryRefusal<'_, T, E, S> {
    fn fmt<W: Write>(&self, f: &mut Formatter<W>) -> fmt::Result {
        Display::fmt(&self.error, f)
    }
}

impl<T> Debug for Rejected<T> {
    fn fmt<W: Write>(&self, f: &mut Formatter<W>) -> fmt::Result {
        f.debug_struct("Rejected")
            .field("taken", &self.taken)
            .finish_non_exhaustive()
    }
}

impl<T> Display for Rejected<T> {
    fn fmt<W: Write>(&self, f: &mut Formatter<W>) -> fmt::Result {
        f.write_str(if self.taken {
            "an item with an equal key is there already"
        } else {
            "out of memory: the item was not inserted"
        })
    }
}

impl<T: Drop> Error for Rejected<T> {}

impl<T> Debug for ExtendUniqueError<T> {
    fn fmt<W: Write>(&self, f: &mut Formatter<W>) -> fmt::Result {
        f.debug_struct("ExtendUniqueError")
            .field("before", &self.before.len())
            .field("taken", &self.taken)
            .finish_non_exhaustive()
    }
}

impl<T> Display for ExtendUniqueError<T> {
    fn fmt<W: Write>(&self, f: &mut Formatter<W>) -> fmt::Result {
        let at = self.before.len();
        write!(f, "none was inserted, because of item {at}: ")?;
        f.write_str(match self.reason() {
            InsertReason::Duplicate => "an item with an equal key is there already",
            InsertReason::Memory => "out of memory",
        })
    }
}

impl<T: Drop> Error for ExtendUniqueError<T> {}

impl<T> Debug for NotReplaced<T> {
    fn fmt<W: Write>(&self, f: &mut Formatter<W>) -> fmt::Result {
        let name = match self {
            NotReplaced::Absent(_item) => "Absent",
            NotReplaced::Duplicate(_item) => "Duplicate",
        };
        f.debug_struct(name).finish_non_exhaustive()
    }
}

impl<T> Display for NotReplaced<T> {
    fn fmt<W: Write>(&self, f: &mut Formatter<W>) -> fmt::Result {
        f.write_str(match self {
            NotReplaced::Absent(_item) => "no item has the key asked for",
            NotReplaced::Duplicate(_item) => "another item has the key of the new one",
        })
    }
}

impl<T: Drop> Error for NotReplaced<T> {}
