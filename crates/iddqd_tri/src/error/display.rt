//! What the errors print. No item is printed, so an item needs neither `Debug` nor `Display`; `Error` needs `Drop`.
//!
//! Made by tests/widths from crates/iddqd_bi/src/error/display.rt: change that file.
use super::{
    EntryError, EntryRefusal, ExtendUniqueError, InsertError, KeyMismatch, NotReplaced, Rejected,
    TryEntryError, TryEntryRefusal,
};
use crate::item::{Ranked, TriHashItem};
use iddqd_store::InsertReason;
use std::error::Error;
use std::fmt::{self, Debug, Display, Formatter, Write};
use std::hash::{BuildHasher, Hash};

impl<T> Debug for KeyMismatch<T> {
    fn fmt<W: Write>(&self, f: &mut Formatter<W>) -> fmt::Result {
        let name = match self {
            KeyMismatch::Key1(_item) => "Key1",
            KeyMismatch::Key2(_item) => "Key2",
            KeyMismatch::Key3(_item) => "Key3",
        };
        f.debug_struct(name).finish_non_exhaustive()
    }
}

impl<T> Display for KeyMismatch<T> {
    fn fmt<W: Write>(&self, f: &mut Formatter<W>) -> fmt::Result {
        f.write_str(match self {
            KeyMismatch::Key1(_item) => "the first key is another one",
            KeyMismatch::Key2(_item) => "the second key is another one",
            KeyMismatch::Key3(_item) => "the third key is another one",
        })
    }
}

impl<T: Drop> Error for KeyMismatch<T> {}

impl<T> Debug for EntryError<T> {
    fn fmt<W: Write>(&self, f: &mut Formatter<W>) -> fmt::Result {
        let name = match self {
            EntryError::Key1(_item) => "Key1",
            EntryError::Key2(_item) => "Key2",
            EntryError::Key3(_item) => "Key3",
            EntryError::Memory(_item) => "Memory",
        };
        f.debug_struct(name).finish_non_exhaustive()
    }
}

impl<T> Display for EntryError<T> {
    fn fmt<W: Write>(&self, f: &mut Formatter<W>) -> fmt::Result {
        f.write_str(match self {
            EntryError::Key1(_item) => "the first key is not the entry's",
            EntryError::Key2(_item) => "the second key is not the entry's",
            EntryError::Key3(_item) => "the third key is not the entry's",
            EntryError::Memory(_item) => "out of memory: the item was not inserted",
        })
    }
}

impl<T: Drop> Error for EntryError<T> {}

impl<T: Ranked, S: BuildHasher> Debug for InsertError<'_, T, S> {
    fn fmt<W: Write>(&self, f: &mut Formatter<W>) -> fmt::Result {
        f.debug_struct("InsertError")
            .field("reason", &self.reason())
            .finish_non_exhaustive()
    }
}

impl<T: Ranked, S: BuildHasher> Display for InsertError<'_, T, S> {
    fn fmt<W: Write>(&self, f: &mut Formatter<W>) -> fmt::Result {
        Display::fmt(&self.reason(), f)
    }
}

impl<T: TriHashItem, S: BuildHasher> Debug for EntryRefusal<'_, T, S> {
    fn fmt<W: Write>(&self, f: &mut Formatter<W>) -> fmt::Result {
        f.debug_struct("EntryRefusal")
            .field("error", &self.error)
            .finish_non_exhaustive()
    }
}

impl<T: TriHashItem, S: BuildHasher> Display for EntryRefusal<'_, T, S> {
    fn fmt<W: Write>(&self, f: &mut Formatter<W>) -> fmt::Result {
        Display::fmt(&self.error, f)
    }
}

impl<R: Debug, E: Debug> Debug for TryEntryError<R, E> {
    fn fmt<W: Write>(&self, f: &mut Formatter<W>) -> fmt::Result {
        match self {
            TryEntryError::Closure(error) => f.debug_tuple("Closure").field(error).finish(),
            TryEntryError::Insert(error) => f.debug_tuple("Insert").field(error).finish(),
        }
    }
}

impl<R: Display, E: Display> Display for TryEntryError<R, E> {
    fn fmt<W: Write>(&self, f: &mut Formatter<W>) -> fmt::Result {
        match self {
            TryEntryError::Closure(error) => Display::fmt(error, f),
            TryEntryError::Insert(error) => Display::fmt(error, f),
        }
    }
}

impl<R: Error, E: Error> Error for TryEntryError<R, E> {}

impl<T: TriHashItem, E: Debug, S: BuildHasher> Debug for TryEntryRefusal<'_, T, E, S> {
    fn fmt<W: Write>(&self, f: &mut Formatter<W>) -> fmt::Result {
        f.debug_struct("TryEntryRefusal")
            .field("error", &self.error)
            .finish_non_exhaustive()
    }
}

impl<T: TriHashItem, E: Display, S: BuildHasher> Display for TryEntryRefusal<'_, T, E, S> {
    fn fmt<W: Write>(&self, f: &mut Formatter<W>) -> fmt::Result {
        Display::fmt(&self.error, f)
    }
}

impl<T> Debug for Rejected<T> {
    fn fmt<W: Write>(&self, f: &mut Formatter<W>) -> fmt::Result {
        f.debug_struct("Rejected")
            .field("taken1", &self.taken1)
            .field("taken2", &self.taken2)
            .field("taken3", &self.taken3)
            .finish_non_exhaustive()
    }
}

impl<T> Display for Rejected<T> {
    fn fmt<W: Write>(&self, f: &mut Formatter<W>) -> fmt::Result {
        if !self.taken1 && !self.taken2 && !self.taken3 {
            return f.write_str("out of memory: the item was not inserted");
        }
        tell_taken(f, self.taken1, self.taken2, self.taken3)
    }
}

impl<T: Drop> Error for Rejected<T> {}

/// Prints which keys are taken, one phrase for each.
fn tell_taken<W: Write>(
    f: &mut Formatter<W>,
    taken1: bool,
    taken2: bool,
    taken3: bool,
) -> fmt::Result {
    let mut parted = "";
    for (taken, key) in [(taken1, "first"), (taken2, "second"), (taken3, "third")] {
        if taken {
            write!(
                f,
                "{parted}an item with an equal {key} key is there already"
            )?;
            parted = "; ";
        }
    }
    Ok(())
}

impl<T> Debug for ExtendUniqueError<T> {
    fn fmt<W: Write>(&self, f: &mut Formatter<W>) -> fmt::Result {
        f.debug_struct("ExtendUniqueError")
            .field("before", &self.before.len())
            .field("taken1", &self.taken1)
            .field("taken2", &self.taken2)
            .field("taken3", &self.taken3)
            .finish_non_exhaustive()
    }
}

impl<T> Display for ExtendUniqueError<T> {
    fn fmt<W: Write>(&self, f: &mut Formatter<W>) -> fmt::Result {
        let at = self.before.len();
        write!(f, "none was inserted, because of item {at}: ")?;
        match self.reason() {
            InsertReason::Duplicate => tell_taken(f, self.taken1, self.taken2, self.taken3),
            InsertReason::Memory => f.write_str("out of memory"),
        }
    }
}

impl<T: Drop> Error for ExtendUniqueError<T> {}

impl<T> Debug for NotReplaced<T> {
    fn fmt<W: Write>(&self, f: &mut Formatter<W>) -> fmt::Result {
        let name = match self {
            NotReplaced::Absent(_item) => "Absent",
            NotReplaced::Duplicate(_item) => "Duplicate",
        };
        f.debug_struct(name).finish_non_exhaustive()
    }
}

impl<T> Display for NotReplaced<T> {
    fn fmt<W: Write>(&self, f: &mut Formatter<W>) -> fmt::Result {
        f.write_str(match self {
            NotReplaced::Absent(_item) => "no item has the key asked for",
            NotReplaced::Duplicate(_item) => "a third item has a key of the new one",
        })
    }
}

impl<T: Drop> Error for NotReplaced<T> {}
