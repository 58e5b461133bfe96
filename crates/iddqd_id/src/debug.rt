//! What guards, entries and iterations for writing print by `Debug`. Nothing that they lend is written.
//!
//! Made by tests/widths from crates/iddqd_bi/src/debug.rt: change that file.
use crate::entry::{Entry, OccupiedEntry, VacantEntry};
use crate::item::IdHashItem;
use crate::iter_mut::IterMut;
use crate::ref_mut::RefMut;
use iddqd_store::Query;
use std::fmt::{self, Debug, Formatter, Write};
use std::hash::{BuildHasher, Hash};

impl<T: IdHashItem + Debug, S: BuildHasher> Debug for RefMut<'_, T, S> {
    /// Prints the item as it prints itself.
    fn fmt<W: Write>(&self, f: &mut Formatter<W>) -> fmt::Result {
        let item: &T = self;
        Debug::fmt(item, f)
    }
}

impl<T: IdHashItem, S: BuildHasher> Debug for IterMut<'_, T, S> {
    /// Prints how many items are left, and none of them.
    fn fmt<W: Write>(&self, f: &mut Formatter<W>) -> fmt::Result {
        f.debug_struct("IterMut")
            .field("len", &self.left)
            .finish_non_exhaustive()
    }
}

impl<T: IdHashItem + Debug, S: BuildHasher, Q: Query<T::Key>> Debug for Entry<'_, T, S, Q> {
    /// Prints the variant with its entry.
    fn fmt<W: Write>(&self, f: &mut Formatter<W>) -> fmt::Result {
        match self {
            Entry::Vacant(entry) => f.debug_tuple("Vacant").field(entry).finish(),
            Entry::Occupied(entry) => f.debug_tuple("Occupied").field(entry).finish(),
        }
    }
}

impl<T: IdHashItem, S: BuildHasher, Q: Query<T::Key>> Debug for VacantEntry<'_, T, S, Q> {
    /// Prints the name of the type. It prints no key, so the keys need no `Debug`.
    fn fmt<W: Write>(&self, f: &mut Formatter<W>) -> fmt::Result {
        f.debug_struct("VacantEntry").finish_non_exhaustive()
    }
}

impl<T: IdHashItem + Debug, S: BuildHasher, Q: Query<T::Key>> Debug for OccupiedEntry<'_, T, S, Q> {
    /// Prints the item that the key found.
    fn fmt<W: Write>(&self, f: &mut Formatter<W>) -> fmt::Result {
        f.debug_struct("OccupiedEntry")
            .field("item", &self.map.item_of(Some(self.slot)))
            .finish()
    }
}
