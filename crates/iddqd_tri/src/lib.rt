//! `TriHashMap`, a hash map of items with three keys, with its guards, entries, iterations and errors.
//!
//! A script makes most of the three-key text from the two-key text: change the latter, and then run
//! `tests/widths --write` with the changed files.
//!
//! Made by tests/widths from crates/iddqd_bi/src/lib.rt: change that file.
#![tactic(auto)]

mod debug;
mod entry;
mod error;
mod item;
mod iter_mut;
mod made;
mod map;
mod pointers;
pub mod ranks;
mod ref_mut;
mod rows;

pub use entry::{Entry, OccupiedEntry, OccupiedEntryMut, OccupiedEntryRef, VacantEntry};
pub use error::{
    EntryError, EntryRefusal, ExtendUniqueError, FromIterError, InsertError, KeyMismatch,
    NotReplaced, Rejected, TryEntryError, TryEntryRefusal,
};
pub use item::{Hashed, Ranked, TriHashItem, TriHashItemMut};
pub use iter_mut::IterMut;
pub use made::{WithKeys, WithMadeKeys};
pub use map::{ClonesHashes, ClonesKeys, DefaultHashBuilder, TriHashMap};
pub use ref_mut::RefMut;

// Types of `iddqd_store` that the signatures of this crate name.
pub use iddqd_store::{
    ByMade, ByPair, Cursor, Difference, DuplicateItem, Equivalent, HasData, Holds, InsertReason,
    IntoIter, ItemPair, Iter, KeepsKey, KeepsMade, KeepsPair, KeyMatcher, LendsPair, Made,
    MakesKey, MemoryRefused, Meter, Query, Row3, ShortIntoIter, ShortIter, TryReserveError,
    UpToThree,
};
