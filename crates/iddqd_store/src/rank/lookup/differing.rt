//! What differs between two maps by the keys of a rank.
ghost use Rattle.std.specs.Prelude.{◌≡◌, ◌++◌, All, IfOk, IsPermutation, true, map, option_copied};
ghost use Rattle.iddqd_store.specs.Bag.{IsOnly};
ghost use Rattle.iddqd_store.specs.Differing.{IsDifference, SearchesEach, paired, unpaired};
ghost use Rattle.iddqd_store.specs.Map.{bag};
ghost use Rattle.iddqd_store.specs.Rank.{Costs, SearchCosts, agree};

use super::Lookup;
use crate::differing::{Difference, ItemPair};
use crate::index_table::Costs;
use crate::rank::{HashedKey, KeyOf};
use std::alloc::{AllocError, Global};
use std::hash::{BuildHasher, Hash};

impl<'a, T, R: KeyOf<T>, S: BuildHasher> Lookup<'a, T, R, S> {
    /// Returns what differs between the old map, which is that of this lookup, and the new one. The call searches once for
    /// each item of the old map in the new one, and for each item of the new map in the old one. It fails if an allocation
    /// for one of the three lists fails.
    pub fn difference(
        &self,
        new: &Self,
        alloc: Global,
        costs: &mut Costs,
    ) -> Result<Difference<'a, T>, AllocError>
        ensures differs { IfOk result (IsDifference (agree R.key R.Key.eq) (bag self.now) (bag new.now)) }
        ensures costs { (between : Costs)
            × SearchesEach (⟦<R as HashedKey<T, S>>⟧.hash new.now.builder) (bag new.now) (bag self.now) costs.old between
            × SearchesEach (⟦<R as HashedKey<T, S>>⟧.hash self.now.builder) (bag self.now) (bag new.now) between costs.new }
    {
        let (removed, common) = self.pair_with(new, alloc, costs)?;
        let added = new.unpaired_with(self, alloc, costs)?;
        Ok(Difference {
            added,
            removed,
            common,
        })
    }

    /// Returns the items whose key no item of the other map has, and the other items in pairs, each before the item of
    /// the other map that has an equal key.
    fn pair_with(
        &self,
        other: &Self,
        alloc: Global,
        costs: &mut Costs,
    ) -> Result<(Vec<&'a T>, Vec<ItemPair<'a, T>>), AllocError>
        ensures alone { IfOk result (λ r. map (λ x. x.now) r.0.items
            ≡ unpaired (agree R.key R.Key.eq) (bag self.now) (bag other.now)) }
        ensures before { IfOk result (λ r. map (λ p. p.before.now) r.1.items
            ≡ paired (agree R.key R.Key.eq) (bag self.now) (bag other.now)) }
        ensures after { IfOk result (λ r. IsPermutation (bag other.now)
            (unpaired (agree R.key R.Key.eq) (bag other.now) (bag self.now) ++ map (λ p. p.after.now) r.1.items)) }
        ensures agree_in_pairs { IfOk result (λ r.
            All (λ p. agree R.key R.Key.eq p.before.now p.after.now ≡ true) r.1.items) }
        ensures costs { SearchesEach (⟦<R as HashedKey<T, S>>⟧.hash other.now.builder) (bag other.now) (bag self.now)
            costs.old costs.new }
    {
        let mut alone = Vec::new(alloc);
        let mut pairs = Vec::new(alloc);
        for before in self.items.values() {
            match other.partner_of(before, costs) {
                Some(after) => pairs.push(ItemPair { before, after })?,
                None => alone.push(before)?,
            }
        }
        Ok((alone, pairs))
    }

    /// Returns the items whose key no item of the other map has.
    fn unpaired_with(
        &self,
        other: &Self,
        alloc: Global,
        costs: &mut Costs,
    ) -> Result<Vec<&'a T>, AllocError>
        ensures value { IfOk result (λ xs. map (λ x. x.now) xs.items
            ≡ unpaired (agree R.key R.Key.eq) (bag self.now) (bag other.now)) }
        ensures costs { SearchesEach (⟦<R as HashedKey<T, S>>⟧.hash other.now.builder) (bag other.now) (bag self.now)
            costs.old costs.new }
    {
        let mut alone = Vec::new(alloc);
        for item in self.items.values() {
            if other.partner_of(item, costs).is_none() {
                alone.push(item)?;
            }
        }
        Ok(alone)
    }

    /// Returns the item that has the key of this item, or `None`.
    fn partner_of(&self, item: &T, costs: &mut Costs) -> Option<&'a T>
        ensures found { IsOnly (agree R.key R.Key.eq item.now) (bag self.now) (option_copied result) }
        ensures costs { SearchCosts (⟦<R as HashedKey<T, S>>⟧.hash self.now.builder) (bag self.now) self.now.capacity
            (⟦<R as HashedKey<T, S>>⟧.hash self.now.builder item.now) result
            costs.old.asked costs.new.asked costs.old.probed costs.new.probed }
    {
        self.items.get(self.slot_of(R::key(item), costs)?)
    }
}
