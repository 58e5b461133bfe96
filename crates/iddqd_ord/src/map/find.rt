//! Lookups. Each searches the blocks once, and `place_of` counts the keys that it compares.
ghost use Rattle.std.specs.Prelude.{◌≡◌, option_copied};
ghost use Rattle.std.specs.List.{list_any};
ghost use Rattle.iddqd_store.specs.Bag.{IsOnly};
ghost use Rattle.iddqd_ord.specs.Items.{items, has};

use super::IdOrdMap;
use crate::item::IdOrdItem;
use crate::query::OrdQuery;
use iddqd_store::Meter;

impl<T: IdOrdItem> IdOrdMap<T> {
    /// Returns the item with the key that the query seeks, or `None`. A query is a `&key`, or what is compared with
    /// keys, such as a `&str` for a `String`: `map.get(&key)`, `map.get("main")`.
    ///
    /// Among fewer than `4 ^ r` items the call compares at most `3 * r + 19` keys.
    pub fn get<Q: OrdQuery<T::Key>>(&self, query: Q) -> Option<&T>
        ensures { IsOnly (has T.IdOrdItem Q.compare query) (items self.now) (option_copied result) }
    {
        match self.place_of(query, &mut Meter::new()) {
            Ok(place) => Some(self.item_in(place)),
            Err(_) => None,
        }
    }

    /// Returns whether an item has the key that the query seeks. It costs what `get` costs.
    pub fn contains_key<Q: OrdQuery<T::Key>>(&self, query: Q) -> bool
        ensures { result ≡ list_any (has T.IdOrdItem Q.compare query) (items self.now) }
    {
        match self.place_of(query, &mut Meter::new()) {
            Ok(_) => true,
            Err(_) => false,
        }
    }
}
