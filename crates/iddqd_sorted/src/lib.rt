//! `Sorted`, a hash map that also keeps its items in an order, in which several may have one place.
#![tactic(auto)]

mod compare;
mod entry;
mod error;
mod into_iter;
mod item;
mod iter;
mod map;
mod widths;

pub use error::ExtendUniqueError;
pub use into_iter::IntoIter;
pub use item::{SortOrder, Sortable};
pub use iter::Iter;
pub use map::Sorted;
pub use widths::one_key::IdHashOrdMap;
pub use widths::three_keys::TriHashOrdMap;
pub use widths::two_keys::BiHashOrdMap;
