//! The parts that the hash maps are made of: slots for items, hash tables, searches by one key, queries, short lists and
//! errors. Here are also the definitions that their contracts use. The ordered map has its errors, its queries and its meter
//! from here too.
#![tactic(auto)]

mod collection;
mod data;
mod differing;
mod equivalent;
mod error;
mod index_table;
mod item_set;
mod lent;
mod load;
mod made;
mod query;
mod rank;
mod rows;
mod short_list;
mod slot_map;

pub use collection::{Collection, Fillable, Visitor};
pub use data::{HasData, KeepsKey, KeepsMade, KeepsPair};
pub use differing::{Difference, ItemPair};
pub use equivalent::Equivalent;
pub use error::{DuplicateItem, FromIterError, InsertReason, MemoryRefused, TryReserveError};
pub use index_table::{
    Costs, IndexTable, KeyMatcher, Matcher, Meter, Searched, SpareCells, Vacancy,
};
pub use item_set::{Batch, Cursor, IntoIter, ItemIndex, ItemSet, Iter};
pub use lent::{ByPair, LendsPair};
pub use load::{AHEAD, at_once, pairs_for, pairs_wanted, slots_wanted};
pub use made::{ByMade, Holds, Made, MakesKey};
pub use query::Query;
pub use rank::{ByQuery, FoundByHash, HashedKey, KeyOf, Lookup};
pub use rows::{Row1, Row2, Row3};
pub use short_list::{ShortIntoIter, ShortIter, ShortList, UpToThree, UpToTwo};
pub use slot_map::{FindsBy, SlotMap, StoresData};
