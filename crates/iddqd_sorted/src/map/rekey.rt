//! Replacing an item by another, whatever their keys are.
ghost use Rattle.std.specs.Prelude.{[], ◌≡◌, not, filter, length, map, Some, IfOk, IfErr, OnOk, OnErr};
ghost use Rattle.iddqd_store.specs.Bag.{IsOnly, conflicts_of};
ghost use Rattle.iddqd_store.specs.Rank.All.{hashes_of};
ghost use Rattle.iddqd_sorted.specs.Items.{items, bag, with_item};
ghost use Rattle.iddqd_sorted.specs.Keeping.{ComparesOnceIf, SharePlace};
ghost use Rattle.iddqd_sorted.specs.Keyed.{RekeyingCosts, TellsWhyRefused, refused_item};
ghost use Rattle.iddqd_order.specs.Search.{ComparesWithin};

use super::Sorted;
use super::settle::{place_of_slot, resettle};
use crate::item::{SortOrder, Sortable};
use iddqd_store::{Costs, FindsBy, Meter, Query, SlotMap};

/// Why an item does not replace another, with that item.
pub(crate) enum Refused<T> {
    /// No item has the key asked for.
    Absent(T),
    /// Some other item conflicts with the new one.
    Conflict(T),
}

impl<M: SlotMap> Sorted<M>
where
    M::Item: Sortable,
    M::FirstKey: Ord,
{
    /// Puts an item in the place of the one whose key of the rank `R` the query stands for, and returns the latter. The new
    /// item may have other keys and another sort key. The error has the new item, and the map is as it was: `Absent` if no
    /// item has the key asked for, and `Conflict` if some other item conflicts with the new one. The capacity stays.
    ///
    /// The call hashes the query and searches for it once, and hashes each key of the new item and searches for it once. It
    /// walks through each table at most twice. If the sort key and the first key stay, it compares this sort key once, and nothing
    /// moves in the order. Otherwise, among fewer than `4 ^ r` items, it compares at most `6 * r + 40` sort keys. It allocates no
    /// memory.
    pub(crate) fn rekey_by<R, Q: Query<<M as FindsBy<R>>::Key>>(
        &mut self,
        query: Q,
        item: M::Item,
        costs: &mut Costs,
        meter: &mut Meter,
    ) -> Result<M::Item, Refused<M::Item>>
    where
        M: FindsBy<R>,
        ensures found { IfOk result (λ x. IsOnly (λ y. Q.stands_for query (⟦<M as FindsBy<R>>⟧.key y)) (items self.old) (Some x)) }
        ensures puts { OnOk result (items self.new ≡ with_item ⟦<M as SortOrder>⟧.order
            (filter (λ y. not (Q.stands_for query (⟦<M as FindsBy<R>>⟧.key y))) (items self.old)) item) }
        // None of the others has one of the item's keys, so `with_item` leaves none of them out.
        ensures free { OnOk result (conflicts_of M.ranks
            (filter (λ y. not (Q.stands_for query (⟦<M as FindsBy<R>>⟧.key y))) (items self.old)) item ≡ []) }
        ensures capacity { self.new.capacity ≡ self.old.capacity }
        ensures builder { self.new.builder ≡ self.old.builder }
        ensures handed_back { IfErr result (λ e. refused_item e ≡ item) }
        ensures unchanged { OnErr result (self.new ≡ self.old) }
        ensures reason { IfErr result (λ e. TellsWhyRefused M.ranks (λ y. Q.stands_for query (⟦<M as FindsBy<R>>⟧.key y))
            (items self.old) item e) }
        ensures asked { ComparesWithin 6 40 (length (items self.old)) meter.old meter.new }
        // If the sort key and the first key stay, one comparison is all.
        ensures asked_once { IfOk result (λ x. ComparesOnceIf
            (SharePlace ⟦<M as SortOrder>⟧.order x item) meter.old meter.new) }
        ensures costs { RekeyingCosts (⟦<M as FindsBy<R>>⟧.key_hash self.old.builder) (M.hashes self.old.builder) (bag self.old)
            self.old.capacity (M.hash_of self.old.builder (Q.hash_input query)) (hashes_of (M.hashes self.old.builder) item)
            (map (λ _. 2) M.ranks) result costs.old costs.new }
    {
        let Some((slot, _)) = self.map.slot_by(query, costs) else {
            return Err(Refused::Absent(item));
        };
        if !self.is_level(slot, &item, meter) {
            let place = place_of_slot(&self.map, &self.order, slot, meter);
            return match self.map.rekey_at(slot, item, costs) {
                Ok(gone) => {
                    resettle(&self.map, &mut self.order, place, slot, meter);
                    Ok(gone)
                }
                Err(item) => Err(Refused::Conflict(item)),
            };
        }
        // The new item has the place in the order of the old one.
        match self.map.rekey_at(slot, item, costs) {
            Ok(gone) => Ok(gone),
            Err(item) => Err(Refused::Conflict(item)),
        }
    }
}
