//! What code that serves every map of the family asks of it: a list of its items, and that it takes an item more.
ghost use Rattle.std.specs.Prelude.{◌≡◌, [], ◌∷◌, List, length, IsPermutation, OnOk};
ghost use Rattle.iddqd_store.specs.Collection.{VisitsEach};
ghost use Rattle.iddqd_store.specs.Map.{bag};

use crate::error::InsertReason;
use crate::index_table::{Costs, Meter};
use crate::load::AHEAD;
use crate::slot_map::SlotMap;
use std::alloc::Global;

/// What is done with each item of a collection in turn, as that it is written.
pub trait Visitor<T> {
    /// What the visits change.
    type Target;

    /// Why a visit ends before the last item.
    type Error;

    // What the target is before and after the visit of an item.
    ghost visits: { T → Self.Target → Self.Target → Type 0 };

    /// Visits an item.
    fn visit(item: &T, target: &mut Self::Target) -> Result<(), Self::Error>
        ensures { OnOk result (visits item.now target.old target.new) };
}

/// Any map of the family, as a list of its items in the order of its iterator, each of which has a first key. Each hash map is one
/// as a `SlotMap`. The ordered map and the hash maps with an order have it from their own crates.
pub trait Collection {
    /// The type of the items.
    type Item;

    /// The type of the first key.
    type FirstKey: Eq;

    // The items, in the order of the iterator.
    ghost listed: { Self → List Self.Item };

    // The first key of an item.
    ghost first_key: { Self.Item → Self.FirstKey };

    /// Returns the first key of an item.
    fn key_of(item: &Self::Item) -> &Self::FirstKey
        ensures { result.now ≡ first_key item.now };

    /// Returns the number of items.
    fn item_count(&self) -> usize
        ensures { result ≡ length (listed self.now) };

    /// Visits each item, in the order of the iterator, up to the first at which the visitor fails.
    fn visit_each<V: Visitor<Self::Item>>(&self, target: &mut V::Target) -> Result<(), V::Error>
        ensures { OnOk result (VisitsEach V.visits (listed self.now) target.old target.new) };
}

/// A map of the family that is made empty and takes its items one by one.
pub trait Fillable: Collection {
    // The map has the builder of hashers that a new one has, if it has one.
    ghost HasNewBuilder: { Self → Type 0 };

    /// Makes an empty map. The call allocates no memory.
    fn new_empty(alloc: Global) -> Self
        ensures empty { Self.listed result ≡ [] }
        ensures builder { HasNewBuilder result };

    /// Inserts an item, or returns why not: an item of the map has a key of it, or there is no memory. Each key of the item is
    /// hashed once, and searched for once. If the call fails, the item is dropped.
    fn take_in(&mut self, item: Self::Item) -> Result<(), InsertReason>
    where
        Self::Item: Drop,
        ensures gained { OnOk result (IsPermutation (Self.listed self.new) (item ∷ Self.listed self.old)) }
        ensures builder { OnOk result (HasNewBuilder self.old → HasNewBuilder self.new) };
}

impl<M: SlotMap> Collection for M {
    type Item = M::Item;

    type FirstKey = M::FirstKey;

    ghost listed = { λ m. bag (M.shown m) };

    ghost first_key = { M.first_key };

    fn key_of(item: &M::Item) -> &M::FirstKey {
        M::first_key(item)
    }

    fn item_count(&self) -> usize {
        self.len()
    }

    fn visit_each<V: Visitor<M::Item>>(&self, target: &mut V::Target) -> Result<(), V::Error> {
        for item in self.slots().values() {
            V::visit(item, target)?;
        }
        Ok(())
    }
}

impl<M: SlotMap> Fillable for M
where
    M::Builder: Default,
{
    ghost HasNewBuilder = { λ m. M.Builder.is_default (M.shown m).builder };

    fn new_empty(alloc: Global) -> M {
        M::empty(alloc, M::Builder::default())
    }

    fn take_in(&mut self, item: M::Item) -> Result<(), InsertReason>
    where
        M::Item: Drop,
    {
        let Ok(at) = self.places(&item, &mut Costs::new()) else {
            return Err(InsertReason::Duplicate);
        };
        if self.len() == self.capacity() {
            if let Err(_) = self.grow(1, AHEAD) {
                return Err(InsertReason::Memory);
            }
        }
        self.insert_into(item, at, &mut Meter::new());
        Ok(())
    }
}
