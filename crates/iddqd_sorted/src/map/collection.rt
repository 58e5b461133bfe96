//! The map to code that serves every map of the family.
ghost use Rattle.iddqd_sorted.specs.Items.{items};

use super::Sorted;
use crate::item::Sortable;
use iddqd_store::{Collection, Costs, Fillable, InsertReason, Meter, SlotMap, Visitor};
use std::alloc::Global;

impl<M: SlotMap> Collection for Sorted<M>
where
    M::Item: Sortable,
    M::FirstKey: Ord,
{
    type Item = M::Item;

    type FirstKey = M::FirstKey;

    ghost listed = { λ m. items m };

    ghost first_key = { M.first_key };

    fn key_of(item: &M::Item) -> &M::FirstKey {
        M::first_key(item)
    }

    fn item_count(&self) -> usize {
        self.len()
    }

    fn visit_each<V: Visitor<M::Item>>(&self, target: &mut V::Target) -> Result<(), V::Error> {
        for item in self.iter() {
            V::visit(item, target)?;
        }
        Ok(())
    }
}

impl<M: SlotMap> Fillable for Sorted<M>
where
    M::Item: Sortable,
    M::FirstKey: Ord,
    M::Builder: Default,
{
    ghost HasNewBuilder = { λ m. M.Builder.is_default m.builder };

    fn new_empty(alloc: Global) -> Self {
        Sorted::<M>::default(alloc)
    }

    fn take_in(&mut self, item: M::Item) -> Result<(), InsertReason>
    where
        M::Item: Drop,
    {
        let Ok(at) = self.free_places(&item, &mut Costs::new()) else {
            return Err(InsertReason::Duplicate);
        };
        match self.insert_free(item, at, 1, &mut Meter::new(), &mut Meter::new()) {
            Ok(()) => Ok(()),
            Err(_) => Err(InsertReason::Memory),
        }
    }
}
