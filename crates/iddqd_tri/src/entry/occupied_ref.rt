//! The items that three keys found, borrowed for reading.
//!
//! Made by tests/widths from crates/iddqd_bi/src/entry/occupied_ref.rt: change that file.
ghost use Rattle.std.specs.Prelude.{◌≡◌, true, is_some, not, option_copied};
ghost use Rattle.iddqd_tri.specs.OccupiedRefs.{is_one, seen_unique, seen_item1, seen_item2, seen_item3};

/// The items that three keys found, borrowed for reading.
#[derive(Debug, Drop)]
pub enum OccupiedEntryRef<'a, T> {
    /// One item has all keys.
    Unique(&'a T),
    /// No item has all keys. At least one of the keys has an item.
    NonUnique {
        /// The item with the first key, or `None`.
        by_key1: Option<&'a T>,
        /// The item with the second key, or `None`.
        by_key2: Option<&'a T>,
        /// The item with the third key, or `None`.
        by_key3: Option<&'a T>,
    },
}

impl<'a, T> OccupiedEntryRef<'a, T> {
    /// Makes the value for the items that three keys found. They are one item if `is_unique` is true.
    pub(crate) fn of(
        is_unique: bool,
        by_key1: Option<&'a T>,
        by_key2: Option<&'a T>,
        by_key3: Option<&'a T>,
    ) -> Self
        requires some { is_unique ≡ true → is_some by_key1 ≡ true }
        requires one2 { is_unique ≡ true → option_copied by_key1 ≡ option_copied by_key2 }
        requires one3 { is_unique ≡ true → option_copied by_key1 ≡ option_copied by_key3 }
        ensures is_one { is_one result ≡ is_unique }
        ensures by_key1 { seen_item1 result ≡ option_copied by_key1.entry }
        ensures by_key2 { seen_item2 result ≡ option_copied by_key2.entry }
        ensures by_key3 { seen_item3 result ≡ option_copied by_key3.entry }
    {
        if is_unique {
            if let Some(item) = by_key1 {
                return OccupiedEntryRef::Unique(item);
            }
        }
        OccupiedEntryRef::NonUnique {
            by_key1,
            by_key2,
            by_key3,
        }
    }

    /// Returns whether one item has all keys.
    pub fn is_unique(&self) -> bool
        ensures { result ≡ is_one self.now }
    {
        match self {
            OccupiedEntryRef::Unique(_) => true,
            OccupiedEntryRef::NonUnique { .. } => false,
        }
    }

    /// Returns whether no item has all keys.
    pub fn is_non_unique(&self) -> bool
        ensures { result ≡ not (is_one self.now) }
    {
        !self.is_unique()
    }

    /// Returns the item that has all keys, or `None`.
    pub fn as_unique(&self) -> Option<&'a T>
        ensures { option_copied result ≡ seen_unique self.now }
    {
        match self {
            OccupiedEntryRef::Unique(item) => Some(*item),
            OccupiedEntryRef::NonUnique { .. } => None,
        }
    }

    /// Returns the item with the first key, or `None`.
    pub fn by_key1(&self) -> Option<&'a T>
        ensures { option_copied result ≡ seen_item1 self.now }
    {
        match self {
            OccupiedEntryRef::Unique(item) => Some(*item),
            OccupiedEntryRef::NonUnique { by_key1, .. } => *by_key1,
        }
    }

    /// Returns the item with the second key, or `None`.
    pub fn by_key2(&self) -> Option<&'a T>
        ensures { option_copied result ≡ seen_item2 self.now }
    {
        match self {
            OccupiedEntryRef::Unique(item) => Some(*item),
            OccupiedEntryRef::NonUnique { by_key2, .. } => *by_key2,
        }
    }

    /// Returns the item with the third key, or `None`.
    pub fn by_key3(&self) -> Option<&'a T>
        ensures { option_copied result ≡ seen_item3 self.now }
    {
        match self {
            OccupiedEntryRef::Unique(item) => Some(*item),
            OccupiedEntryRef::NonUnique { by_key3, .. } => *by_key3,
        }
    }
}
