//! Which items conflict with an item that is to be inserted.
ghost use Rattle.std.specs.Prelude.{◌≡◌, map};
ghost use Rattle.iddqd_store.specs.Bag.{conflicting};
ghost use Rattle.iddqd_store.specs.Map.{bag};

use super::BiHashMap;
use super::slots::found::each_once;
use crate::item::Ranked;
use iddqd_store::{Costs, Searched, UpToTwo};
use std::hash::{BuildHasher, Hash};

impl<T: Ranked, S: BuildHasher> BiHashMap<T, S> {
    /// Returns the items of the map that conflict with this one, each once, in the order of the keys. These are the
    /// items that `insert_overwrite` would remove. If there is none, an insert fails only for lack of memory.
    ///
    /// The call hashes each key of the item once, and searches for it once. It allocates no memory.
    ///
    /// ```text
    /// for other in map.conflicts_with(&item) {
    ///     // This item has a key of the new one.
    /// }
    /// ```
    pub fn conflicts_with(&self, item: &T) -> UpToTwo<&T>
        ensures { map (λ x. x.now) result ≡ conflicting T.ranks (bag self.now) item.now }
    {
        // The slots are chosen first and borrowed after the match, so that its arms join before anything is borrowed.
        let found = match self.places(item, &mut Costs::new()) {
            Searched::Vacant(_) => UpToTwo::new(),
            Searched::Found(found) => each_once(found.0.slot(), found.1.slot()),
        };
        self.items_of(&found)
    }
}
