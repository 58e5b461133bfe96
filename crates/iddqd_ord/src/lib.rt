//! `IdOrdMap`, a map of items with one key, in the order of their keys.
//!
//! ```text
//! let mut steps = IdOrdMap::<Step>::new(rt.alloc());
//! steps.try_insert(Step::new(7, "weld"))?;
//! for step in &steps {
//!     println!(rt; "{step:?}")?;
//! }
//! ```
#![tactic(auto)]

mod cursor;
mod debug;
mod entry;
mod error;
mod headed;
mod into_iter;
mod item;
mod iter_mut;
mod made;
mod map;
mod pointers;
mod query;
mod ref_mut;
mod rows;

pub use cursor::Cursor;
pub use entry::{Entry, OccupiedEntry, TryEntryError, TryEntryRefusal, VacantEntry};
pub use error::{
    EntryError, EntryRefusal, ExtendUniqueError, FromIterError, InsertError, KeyMismatch,
    NotReplaced, Rejected,
};
pub use headed::{HeadedStr, HeadedString};
pub use iddqd_order::{IntoIter, Iter};
pub use item::{IdOrdItem, IdOrdItemMut};
pub use iter_mut::IterMut;
pub use made::{InOrder, KeepsOrder, KeyOrder, WithKeys, WithMadeKeys};
pub use map::{ClonesKeys, IdOrdMap};
pub use query::{First, FirstTwo, OrdQuery, OrdRange, OrdSeek, Prefix};
pub use ref_mut::RefMut;

// Types of `iddqd_store` that the signatures of this crate name.
pub use iddqd_store::{
    ByMade, ByPair, Difference, DuplicateItem, HasData, Holds, InsertReason, ItemPair, KeepsMade,
    KeepsPair, LendsPair, Made, MakesKey, MemoryRefused, Row1, TryReserveError,
};
