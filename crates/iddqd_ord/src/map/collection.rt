//! The map to code that serves every map of the family.
ghost use Rattle.std.specs.Prelude.{⊤};
ghost use Rattle.iddqd_ord.specs.Items.{items};

use super::IdOrdMap;
use crate::error::Rejected;
use crate::item::IdOrdItem;
use iddqd_store::{Collection, Fillable, InsertReason, Visitor};
use std::alloc::Global;

impl<T: IdOrdItem> Collection for IdOrdMap<T> {
    type Item = T;

    type FirstKey = T::Key;

    ghost listed = { λ m. items m };

    ghost first_key = { T.key };

    fn key_of(item: &T) -> &T::Key {
        item.key()
    }

    fn item_count(&self) -> usize {
        self.len()
    }

    fn visit_each<V: Visitor<T>>(&self, target: &mut V::Target) -> Result<(), V::Error> {
        for item in self {
            V::visit(item, target)?;
        }
        Ok(())
    }
}

impl<T: IdOrdItem> Fillable for IdOrdMap<T> {
    // The map has no builder.
    ghost HasNewBuilder = { λ _. ⊤ };

    fn new_empty(alloc: Global) -> Self {
        IdOrdMap::new(alloc)
    }

    fn take_in(&mut self, item: T) -> Result<(), InsertReason>
    where
        T: Drop,
    {
        match self.try_insert(item) {
            Ok(()) => Ok(()),
            Err(Rejected { taken: true, .. }) => Err(InsertReason::Duplicate),
            Err(_) => Err(InsertReason::Memory),
        }
    }
}
