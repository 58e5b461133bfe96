//! Removing the item that a key finds, and that of a slot.
ghost use Rattle.std.specs.Prelude.{◌≡◌, ◌+◌, ◌≤◌, [], ◌∷◌, not, filter, length, map, None, Some, IfNone, IsPermutation};
ghost use Rattle.iddqd_store.specs.Bag.{IsOnly};
ghost use Rattle.iddqd_store.specs.Map.{Loses};
ghost use Rattle.iddqd_store.specs.Rank.{walks_within};
ghost use Rattle.iddqd_store.specs.Slots.{get, IsLive, Updates};
ghost use Rattle.iddqd_sorted.specs.Items.{items, bag};
ghost use Rattle.iddqd_sorted.specs.Keyed.{RemovingCosts};
ghost use Rattle.iddqd_sorted.specs.Ordered.{IsAscending};
ghost use Rattle.iddqd_sorted.specs.Overwriting.{map_of};
ghost use Rattle.iddqd_order.specs.Search.{ComparesWithin};

use super::Sorted;
use super::settle::place_of_slot;
use crate::item::{SortOrder, Sortable};
use iddqd_store::{Costs, FindsBy, ItemIndex, Meter, Query, SlotMap};

impl<M: SlotMap> Sorted<M>
where
    M::Item: Sortable,
    M::FirstKey: Ord,
{
    /// Removes the item whose key of the rank `R` the query stands for, and returns it, or `None` if there is none. The
    /// capacity stays.
    ///
    /// The call hashes the query and searches for it once, hashes each other key of the item once, and walks once through each
    /// table. Among fewer than `4 ^ r` items it compares at most `3 * r + 19` sort keys. It allocates no memory.
    pub(crate) fn remove_by<R, Q: Query<<M as FindsBy<R>>::Key>>(
        &mut self,
        query: Q,
        costs: &mut Costs,
        meter: &mut Meter,
    ) -> Option<M::Item>
    where
        M: FindsBy<R>,
        ensures taken { IsOnly (λ x. Q.stands_for query (⟦<M as FindsBy<R>>⟧.key x)) (items self.old) result }
        ensures rest { items self.new ≡ filter (λ x. not (Q.stands_for query (⟦<M as FindsBy<R>>⟧.key x))) (items self.old) }
        ensures capacity { self.new.capacity ≡ self.old.capacity }
        ensures builder { self.new.builder ≡ self.old.builder }
        ensures absent { IfNone result (self.new ≡ self.old) }
        ensures asked { ComparesWithin 3 19 (length (items self.old)) meter.old meter.new }
        ensures costs { RemovingCosts (⟦<M as FindsBy<R>>⟧.key_hash self.old.builder) (bag self.old) self.old.capacity
            (M.hash_of self.old.builder (Q.hash_input query)) (map (λ _. 1) M.ranks) result costs.old costs.new }
    {
        let Some((slot, hash)) = self.map.slot_by(query, costs) else {
            return None;
        };
        let place = place_of_slot(&self.map, &self.order, slot, meter);
        // The map goes first: it may hash keys, which runs code of the caller, and the order does not.
        let gone = self.map.remove_by(slot, hash, &mut costs.probed);
        let _ = self.order.remove(place);
        Some(gone)
    }

    /// Removes the item of this slot, by a search in the order and one walk through each table, and returns it. The call hashes
    /// each key of it once, and allocates no memory.
    pub(super) fn remove_slot(
        &mut self,
        slot: ItemIndex,
        probed: &mut Meter,
        meter: &mut Meter,
    ) -> M::Item
        requires { IsLive self.old.slots slot }
        ensures value { get self.old.slots slot ≡ Some result }
        ensures updates { Updates self.old.slots self.new.slots slot None }
        ensures loses { Loses (map_of self.old) (result ∷ []) (map_of self.new) }
        ensures left { IsPermutation (items self.old) (result ∷ items self.new) }
        ensures ascending { IsAscending ⟦<M as SortOrder>⟧.order (items self.new) }
        ensures asked { ComparesWithin 3 19 (length (bag self.old)) meter.old meter.new }
        ensures probed { probed.new ≤ probed.old + walks_within (length (bag self.old)) (map (λ _. 1) M.ranks) }
    {
        let place = place_of_slot(&self.map, &self.order, slot, meter);
        // The map goes first: it may hash keys, which runs code of the caller, and the order does not.
        let gone = self.map.remove_at(slot, probed);
        let _ = self.order.remove(place);
        gone
    }
}
