//! What guards, entries and iterations for writing print by `Debug`. Nothing that they lend is written.
//!
//! Made by tests/widths from crates/iddqd_bi/src/debug.rt: change that file.
use crate::entry::{Entry, OccupiedEntry, OccupiedEntryMut, VacantEntry};
use crate::item::TriHashItem;
use crate::iter_mut::IterMut;
use crate::ref_mut::RefMut;
use iddqd_store::Query;
use std::fmt::{self, Debug, Formatter, Write};
use std::hash::{BuildHasher, Hash};

impl<T: TriHashItem + Debug, S: BuildHasher> Debug for RefMut<'_, T, S> {
    /// Prints the item as it prints itself.
    fn fmt<W: Write>(&self, f: &mut Formatter<W>) -> fmt::Result {
        let item: &T = self;
        Debug::fmt(item, f)
    }
}

impl<T: TriHashItem, S: BuildHasher> Debug for IterMut<'_, T, S> {
    /// Prints how many items are left, and none of them.
    fn fmt<W: Write>(&self, f: &mut Formatter<W>) -> fmt::Result {
        f.debug_struct("IterMut")
            .field("len", &self.left)
            .finish_non_exhaustive()
    }
}

impl<
    T: TriHashItem + Debug,
    S: BuildHasher,
    Q1: Query<T::K1>,
    Q2: Query<T::K2>,
    Q3: Query<T::K3>,
> Debug for Entry<'_, T, S, Q1, Q2, Q3> {
    /// Prints the variant with its entry.
    fn fmt<W: Write>(&self, f: &mut Formatter<W>) -> fmt::Result {
        match self {
            Entry::Vacant(entry) => f.debug_tuple("Vacant").field(entry).finish(),
            Entry::Occupied(entry) => f.debug_tuple("Occupied").field(entry).finish(),
        }
    }
}

impl<T: TriHashItem, S: BuildHasher, Q1: Query<T::K1>, Q2: Query<T::K2>, Q3: Query<T::K3>> Debug
    for VacantEntry<'_, T, S, Q1, Q2, Q3> {
    /// Prints the name of the type. It prints no key, so the keys need no `Debug`.
    fn fmt<W: Write>(&self, f: &mut Formatter<W>) -> fmt::Result {
        f.debug_struct("VacantEntry").finish_non_exhaustive()
    }
}

impl<
    T: TriHashItem + Debug,
    S: BuildHasher,
    Q1: Query<T::K1>,
    Q2: Query<T::K2>,
    Q3: Query<T::K3>,
> Debug for OccupiedEntry<'_, T, S, Q1, Q2, Q3> {
    /// Prints the item that each key found, or `None`.
    fn fmt<W: Write>(&self, f: &mut Formatter<W>) -> fmt::Result {
        f.debug_struct("OccupiedEntry")
            .field("by_key1", &self.map.item_of(self.slot1))
            .field("by_key2", &self.map.item_of(self.slot2))
            .field("by_key3", &self.map.item_of(self.slot3))
            .finish()
    }
}

impl<T: TriHashItem + Debug, S: BuildHasher> Debug for OccupiedEntryMut<'_, T, S> {
    /// Prints the item that each key found, or `None`.
    fn fmt<W: Write>(&self, f: &mut Formatter<W>) -> fmt::Result {
        f.debug_struct("OccupiedEntryMut")
            .field("by_key1", &self.map.item_of(self.slot1))
            .field("by_key2", &self.map.item_of(self.slot2))
            .field("by_key3", &self.map.item_of(self.slot3))
            .finish()
    }
}
