//! Entries: what a lookup found, with a borrow of the map.
ghost use Rattle.iddqd_ord.specs.Items.{items, query_comparison};
ghost use Rattle.iddqd_order.specs.Row.{position, IsPlace};
ghost use Rattle.iddqd_order.specs.Search.{IsSplit};

use crate::item::IdOrdItem;
use crate::map::IdOrdMap;
use crate::query::OrdQuery;
use iddqd_order::Place;

mod all;
mod occupied;
mod try_error;
mod vacant;

pub use try_error::{TryEntryError, TryEntryRefusal};

/// What `entry` found: a vacant entry or an occupied one. It borrows the map.
#[derive(Drop)]
pub enum Entry<'a, T: IdOrdItem, Q: OrdQuery<T::Key> = &'a <T as IdOrdItem>::Key> {
    /// No item has the key.
    Vacant(VacantEntry<'a, T, Q>),
    /// An item has the key.
    Occupied(OccupiedEntry<'a, T>),
}

/// An entry with a key that no item of the map has. It keeps the place at which the search for it ended, so that an
/// insert searches for nothing.
#[derive(Drop)]
pub struct VacantEntry<'a, T: IdOrdItem, Q: OrdQuery<T::Key> = &'a <T as IdOrdItem>::Key> {
    pub(crate) map: &'a mut IdOrdMap<T>,
    pub(crate) query: Q,
    pub(crate) place: Place,
    ghost at: { IsPlace map.now.blocks place },
    ghost absent: { IsSplit (query_comparison T.IdOrdItem Q.compare query) (items map.now) (position map.now.blocks place) 0 },
}

/// An entry of an item of the map: the one with a key that was looked up, or the first or the last one. It keeps the
/// place of that item.
#[derive(Drop)]
pub struct OccupiedEntry<'a, T: IdOrdItem> {
    pub(crate) map: &'a mut IdOrdMap<T>,
    pub(crate) place: Place,
}
