//! The errors of calls that insert or replace one item.
//!
//! Made by tests/widths from crates/iddqd_bi/src/error.rt: change that file.
ghost use Rattle.std.specs.Prelude.{◌≡◌, ◌≢◌, ◌<◌, [], Some, map, false};
ghost use Rattle.iddqd_store.specs.Map.{bag};
ghost use Rattle.iddqd_store.specs.Bag.{conflicts_of, conflicting};
ghost use Rattle.iddqd_store.specs.Slots.Found.{items_at};
ghost use Rattle.iddqd_tri.specs.Keys.{ranks};
ghost use Rattle.iddqd_tri.specs.Rekeyed.{refused_item};
ghost use Rattle.iddqd_tri.specs.Mismatch.{error_item, error_rank, mismatch_item, mismatch_rank};

use crate::item::{Ranked, TriHashItem};
use crate::map::{DefaultHashBuilder, TriHashMap};
use iddqd_store::{InsertReason, ItemIndex, UpToThree};
use std::hash::{BuildHasher, Hash};

mod display;

/// The error of `insert_unique`: the item that was not inserted, with the items of the map that conflict with it, or
/// with none if there was no memory. The error borrows the map, which is as it was before the call. By that borrow
/// contracts tell the caller exactly what the map is.
///
/// ```text
/// match devices.insert_unique(device) {
///     Ok(()) => Ok(()),
///     Err(e) => match e.reason() {
///         InsertReason::Duplicate => Err(Refused::Taken(e.into_item())),
///         InsertReason::Memory => Err(Refused::Full(e.into_item())),
///     },
/// }
/// ```
pub struct InsertError<'a, T: TriHashItem, S: BuildHasher = DefaultHashBuilder> {
    pub(crate) map: &'a mut TriHashMap<T, S>,
    pub(crate) item: T,
    pub(crate) found: UpToThree<ItemIndex>,
    ghost found_is: { items_at map.now.slots found
        ≡ conflicting (ranks T.TriHashItem T.K1.eq T.K2.eq T.K3.eq) (bag map.now) item },
}

/// The error of `try_insert`: the item that was not inserted, and which of its keys items of the map have. If none is
/// taken, the map was full, and there was no memory to grow. The error does not borrow the map.
///
/// ```text
/// let Err(e) = devices.try_insert(device) else { return Ok(()) };
/// if e.taken1 {
///     return Err(Refused::Key1(e.item));
/// }
/// if e.taken2 {
///     return Err(Refused::Key2(e.item));
/// }
/// if e.taken3 {
///     return Err(Refused::Key3(e.item));
/// }
/// Err(Refused::Memory(e.item))
/// ```
#[derive(Drop)]
pub struct Rejected<T> {
    /// The item that was not inserted.
    pub item: T,
    /// Whether an item of the map has its first key.
    pub taken1: bool,
    /// Whether an item of the map has its second key.
    pub taken2: bool,
    /// Whether an item of the map has its third key.
    pub taken3: bool,
}

/// The error of `extend_unique`, after which the map has the items that it had before the call: the item at which the
/// call failed, and which of its keys are taken. If none is, there was no memory for the item. The items after it in
/// the list were dropped.
#[derive(Drop)]
pub struct ExtendUniqueError<T> {
    /// The items before `item`, in the order of the list.
    pub before: Vec<T>,
    /// The item at which the call failed.
    pub item: T,
    /// Whether an item of the map, or one of `before`, has its first key.
    pub taken1: bool,
    /// Whether an item of the map, or one of `before`, has its second key.
    pub taken2: bool,
    /// Whether an item of the map, or one of `before`, has its third key.
    pub taken3: bool,
}

/// The error of `RefMut::replace` and `OccupiedEntry::insert`: the new item has another key than the item that it was
/// to replace, or than the entry. The error has the new item, and names the lowest rank at which the keys differ.
#[derive(Drop)]
pub enum KeyMismatch<T> {
    /// The first rank is the lowest at which the keys differ.
    Key1(T),
    /// The second rank is the lowest at which the keys differ.
    Key2(T),
    /// The third rank is the lowest at which the keys differ.
    Key3(T),
}

/// The error of `rekey1`, `rekey2`, `rekey3`: the new item, which did not replace another.
#[derive(Drop)]
pub enum NotReplaced<T> {
    /// No item has the key that was asked for.
    Absent(T),
    /// An item has that key, but some other item conflicts with the new item.
    Duplicate(T),
}

/// The error of an insert through a vacant entry. It has the item, and names the lowest rank at which the item's key is
/// not the entry's, or says that there was no memory.
#[derive(Drop)]
pub enum EntryError<T> {
    /// The first rank is the lowest at which the keys differ.
    Key1(T),
    /// The second rank is the lowest at which the keys differ.
    Key2(T),
    /// The third rank is the lowest at which the keys differ.
    Key3(T),
    /// All keys are the entry's, but the map was full, and there was no memory to grow.
    Memory(T),
}

/// The error of `VacantEntry::insert_entry`, `Entry::or_insert` and `Entry::or_insert_with`: an `EntryError`, with a
/// borrow of the map, which is as it was before the call. By that borrow contracts tell the caller exactly what the map
/// is.
pub struct EntryRefusal<'a, T: TriHashItem, S: BuildHasher = DefaultHashBuilder> {
    pub(crate) map: &'a mut TriHashMap<T, S>,
    pub(crate) error: EntryError<T>,
}

/// Why `Entry::or_try_insert_with` inserted nothing. `R` is the error of the insert, and always an `EntryError`. It is
/// a parameter for the proof alone: the checker does not find an enum inside another one where the error is dropped.
#[derive(Drop)]
pub enum TryEntryError<R, E> {
    /// The closure failed, with this error.
    Closure(E),
    /// The closure returned an item, and the entry rejected it.
    Insert(R),
}

/// The error of `Entry::or_try_insert_with`: a `TryEntryError`, with a borrow of the map, which is as it was before the
/// call. By that borrow contracts tell the caller exactly what the map is.
pub struct TryEntryRefusal<'a, T: TriHashItem, E, S: BuildHasher = DefaultHashBuilder> {
    pub(crate) map: &'a mut TriHashMap<T, S>,
    pub(crate) error: TryEntryError<EntryError<T>, E>,
}

impl<T> ExtendUniqueError<T> {
    /// Returns why the call failed: `Duplicate` if a key of the item is taken, otherwise `Memory`.
    pub fn reason(&self) -> InsertReason
        ensures duplicate { result ≡ InsertReason.Duplicate → self.now.taken1 ≡ false → self.now.taken2 ≡ false
            → self.now.taken3 ≡ false → ⊥ }
        ensures none_taken { result ≡ InsertReason.Memory → (self.now.taken1 ≡ false) × (self.now.taken2 ≡ false) ×
            (self.now.taken3 ≡ false) }
    {
        if !self.taken1 && !self.taken2 && !self.taken3 {
            InsertReason::Memory
        } else {
            InsertReason::Duplicate
        }
    }
}

impl<T> KeyMismatch<T> {
    /// Returns the item that was not inserted.
    pub fn item(&self) -> &T
        ensures { result.now ≡ mismatch_item self.now }
    {
        match self {
            KeyMismatch::Key1(item) | KeyMismatch::Key2(item) | KeyMismatch::Key3(item) => item,
        }
    }

    /// Returns the item that was not inserted, by value.
    pub fn into_item(self) -> T
        ensures { result ≡ mismatch_item self }
    {
        match self {
            KeyMismatch::Key1(item) | KeyMismatch::Key2(item) | KeyMismatch::Key3(item) => item,
        }
    }

    /// Makes the error for an item whose key differs at this rank, counted from 0.
    pub(crate) fn of_rank(rank: usize, item: T) -> Self
        ensures item { mismatch_item result ≡ item }
        ensures rank { rank < 3 → mismatch_rank result ≡ rank }
    {
        match rank {
            0 => KeyMismatch::Key1(item),
            1 => KeyMismatch::Key2(item),
            _ => KeyMismatch::Key3(item),
        }
    }
}

impl<T> NotReplaced<T> {
    /// Returns the item that was not inserted.
    pub fn item(&self) -> &T
        ensures { result.now ≡ refused_item self.now }
    {
        match self {
            NotReplaced::Absent(item) | NotReplaced::Duplicate(item) => item,
        }
    }

    /// Returns the item that was not inserted, by value.
    pub fn into_item(self) -> T
        ensures { result ≡ refused_item self }
    {
        match self {
            NotReplaced::Absent(item) | NotReplaced::Duplicate(item) => item,
        }
    }
}

impl<T> EntryError<T> {
    /// Makes the error for an item whose key is not the entry's at this rank, counted from 0.
    pub(crate) fn of_rank(rank: usize, item: T) -> Self
        ensures item { error_item result ≡ item }
        ensures rank { rank < 3 → error_rank result ≡ Some rank }
    {
        match rank {
            0 => EntryError::Key1(item),
            1 => EntryError::Key2(item),
            _ => EntryError::Key3(item),
        }
    }

    /// Returns the item that was not inserted.
    pub fn item(&self) -> &T
        ensures { result.now ≡ error_item self.now }
    {
        match self {
            EntryError::Key1(item)
            | EntryError::Key2(item)
            | EntryError::Key3(item)
            | EntryError::Memory(item) => item,
        }
    }

    /// Returns the item that was not inserted, by value.
    pub fn into_item(self) -> T
        ensures { result ≡ error_item self }
    {
        match self {
            EntryError::Key1(item)
            | EntryError::Key2(item)
            | EntryError::Key3(item)
            | EntryError::Memory(item) => item,
        }
    }
}

impl<T: TriHashItem, S: BuildHasher> EntryRefusal<'_, T, S> {
    /// Returns why the item was not inserted, with the item.
    pub fn error(&self) -> &EntryError<T>
        ensures { result.now ≡ self.now.error }
    {
        &self.error
    }

    /// Returns the item that was not inserted.
    pub fn item(&self) -> &T
        ensures { result.now ≡ error_item self.now.error }
    {
        self.error.item()
    }

    /// Returns the item that was not inserted, by value.
    pub fn into_item(self) -> T
        ensures item { result ≡ error_item self.entry.error }
        ensures map { self.exit.0.now ≡ self.entry.map.now }
    {
        let EntryRefusal { map: _, error } = self;
        error.into_item()
    }

    /// Returns why the item was not inserted, with the item, by value.
    pub fn into_error(self) -> EntryError<T>
        ensures error { result ≡ self.entry.error }
        ensures map { self.exit.0.now ≡ self.entry.map.now }
    {
        let EntryRefusal { map: _, error } = self;
        error
    }
}

impl<T: TriHashItem, E, S: BuildHasher> TryEntryRefusal<'_, T, E, S> {
    /// Returns why no item was inserted.
    pub fn error(&self) -> &TryEntryError<EntryError<T>, E>
        ensures { result.now ≡ self.now.error }
    {
        &self.error
    }

    /// Returns why no item was inserted, by value.
    pub fn into_error(self) -> TryEntryError<EntryError<T>, E>
        ensures error { result ≡ self.entry.error }
        ensures map { self.exit.0.now ≡ self.entry.map.now }
    {
        let TryEntryRefusal { map: _, error } = self;
        error
    }
}

/// The error of `from_iter_unique`: `Duplicate` owns an item and those before it that it conflicts with, and `Memory`
/// owns the item for which there was no memory.
pub type FromIterError<T> = iddqd_store::FromIterError<T, UpToThree<T>>;

impl<T: Ranked, S: BuildHasher> InsertError<'_, T, S> {
    /// Returns the item that was not inserted.
    pub fn item(&self) -> &T
        ensures { result.now ≡ self.now.item }
    {
        &self.item
    }

    /// Returns why the item was not inserted: `Duplicate` if an item of the map conflicts with it, otherwise `Memory`.
    /// The call compares no key.
    pub fn reason(&self) -> InsertReason
        ensures duplicate { result ≡ InsertReason.Duplicate → conflicts_of T.ranks
            (bag self.now.map.now) self.now.item ≢ [] }
        ensures none_taken { result ≡ InsertReason.Memory → conflicts_of T.ranks (bag self.now.map.now) self.now.item
            ≡ [] }
    {
        if self.duplicates().is_empty() {
            InsertReason::Memory
        } else {
            InsertReason::Duplicate
        }
    }

    /// Returns the items of the map that conflict with the item, each once, in the order of the keys. The call searches
    /// for nothing again.
    pub fn duplicates(&self) -> UpToThree<&T>
        ensures { map (λ item. item.now) result ≡ conflicting T.ranks (bag self.now.map.now) self.now.item }
    {
        let map = &*self.map;
        map.items_of(&self.found)
    }
}

impl<'a, T: Ranked, S: BuildHasher> InsertError<'a, T, S> {
    /// Returns the item that was not inserted, by value.
    pub fn into_item(self) -> T
        ensures item { result ≡ self.entry.item }
        ensures map { self.exit.0.now ≡ self.entry.map.now }
    {
        let InsertError {
            map: _,
            item,
            found: _,
        } = self;
        item
    }

    /// Returns the item that was not inserted, by value, with the items of the map that conflict with it, as
    /// `duplicates` does. They stay borrowed for as long as the error borrowed the map.
    ///
    /// Contracts do not say what the map is afterwards. A caller who has to prove that calls `duplicates` and then
    /// `into_item`.
    pub fn into_parts(self) -> (T, UpToThree<&'a T>)
        ensures item { result.0 ≡ self.entry.item }
        ensures duplicates { map (λ item. item.now) result.1
            ≡ conflicting T.ranks (bag self.entry.map.now) self.entry.item }
    {
        let InsertError { map, item, found } = self;
        let map: &'a TriHashMap<T, S> = map;
        (item, map.items_of(&found))
    }
}

impl<T: TriHashItem + Drop, S: BuildHasher> Drop for InsertError<'_, T, S> {
    fn drop(self)
        ensures { self.exit.0.now ≡ self.entry.map.now }
    {
        let InsertError {
            map: _,
            item,
            found: _,
        } = self;
        drop(item);
    }
}

impl<T: TriHashItem + Drop, S: BuildHasher> Drop for EntryRefusal<'_, T, S> {
    fn drop(self)
        ensures { self.exit.0.now ≡ self.entry.map.now }
    {
        let EntryRefusal { map: _, error } = self;
        drop(error);
    }
}

impl<T: TriHashItem + Drop, E: Drop, S: BuildHasher> Drop for TryEntryRefusal<'_, T, E, S> {
    fn drop(self)
        ensures { self.exit.0.now ≡ self.entry.map.now }
    {
        let error = self.into_error();
        drop(error);
    }
}
