//! `IdHashMap`, a hash map of items with one key, with its guards, entries, iterations and errors.
//!
//! ```text
//! let mut users = IdHashMap::<User>::new(rt.alloc());
//! users.try_insert(User::new("ada"))?;
//! if let Some(user) = users.get("ada") {
//!     println!(rt; "{user:?}")?;
//! }
//! ```
//!
//! A script makes most of this text from that of the map with two keys: change the latter, and then run
//! `tests/widths --write` with the changed files.
//!
//! Made by tests/widths from crates/iddqd_bi/src/lib.rt: change that file.
#![tactic(auto)]

mod debug;
mod entry;
mod error;
mod item;
mod iter_mut;
mod made;
mod map;
mod pointers;
pub mod ranks;
mod ref_mut;
mod rows;

pub use entry::{Entry, OccupiedEntry, VacantEntry};
pub use error::{
    EntryError, EntryRefusal, ExtendUniqueError, FromIterError, InsertError, KeyMismatch,
    NotReplaced, Rejected, TryEntryError, TryEntryRefusal,
};
pub use item::{Hashed, IdHashItem, IdHashItemMut, Ranked};
pub use iter_mut::IterMut;
pub use made::{WithKeys, WithMadeKeys};
pub use map::{ClonesHashes, ClonesKeys, DefaultHashBuilder, IdHashMap};
pub use ref_mut::RefMut;

// Types of `iddqd_store` that the signatures of this crate name.
pub use iddqd_store::{
    ByMade, ByPair, Cursor, Difference, DuplicateItem, Equivalent, HasData, Holds, InsertReason,
    IntoIter, ItemPair, Iter, KeepsKey, KeepsMade, KeepsPair, KeyMatcher, LendsPair, Made,
    MakesKey, MemoryRefused, Meter, Query, Row1, TryReserveError,
};
