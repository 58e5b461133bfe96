//! What differs between two maps, by one walk over both.
ghost use Rattle.std.specs.Prelude.{◌≡◌, ◌+◌, ◌≤◌, IfOk, length, map};
ghost use Rattle.iddqd_ord.specs.Items.{items, has_key_of};
ghost use Rattle.iddqd_store.specs.Differing.{IsDifference, paired};

use super::IdOrdMap;
use crate::item::IdOrdItem;
use iddqd_store::{Difference, ItemPair, Meter};
use std::alloc::{AllocError, Global};
use std::cmp::Ordering;

impl<T: IdOrdItem> IdOrdMap<T> {
    /// Returns what differs between this map, the old one, and a new one: the items that were added, those that were
    /// removed, and the others in pairs with equal keys. Each list is in ascending order of the keys. The result borrows the
    /// items.
    ///
    /// An item whose key changed was removed and added. An item that keeps its key is in a pair, whatever else changed.
    ///
    /// The call walks once over both maps, and compares at most as many keys as both have items. The three lists grow as
    /// items come, and an empty one allocates nothing. If an allocation fails, the call returns the error. The maps do not
    /// change.
    ///
    /// ```text
    /// let difference = old.diff(&new, rt.alloc())?;
    /// for pair in &difference.common {
    ///     // Both maps have an item with this key.
    /// }
    /// ```
    pub fn diff<'a>(&'a self, new: &'a Self, alloc: Global) -> Result<Difference<'a, T>, AllocError>
        ensures differs { IfOk result (IsDifference (has_key_of T.IdOrdItem T.Key.cmp) (items self.now) (items new.now)) }
        ensures after { IfOk result (λ d. map (λ p. p.after.now) d.common.items
            ≡ paired (has_key_of T.IdOrdItem T.Key.cmp) (items new.now) (items self.now)) }
    {
        self.merge_with(new, alloc, &mut Meter::new())
    }

    /// Walks over the old map and the new one together, from lower keys to higher ones, and says what differs.
    fn merge_with<'a>(
        &'a self,
        new: &'a Self,
        alloc: Global,
        meter: &mut Meter,
    ) -> Result<Difference<'a, T>, AllocError>
        ensures differs { IfOk result (IsDifference (has_key_of T.IdOrdItem T.Key.cmp) (items self.now) (items new.now)) }
        ensures after { IfOk result (λ d. map (λ p. p.after.now) d.common.items
            ≡ paired (has_key_of T.IdOrdItem T.Key.cmp) (items new.now) (items self.now)) }
        ensures asked { meter.new ≤ meter.old + length (items self.now) + length (items new.now) }
    {
        let (mut added, mut removed, mut common) = (
            Vec::new(alloc),
            Vec::new(alloc),
            Vec::new(alloc),
        );
        let (mut olds, mut news) = (self.iter(), new.iter());
        let (mut next_old, mut next_new) = (olds.next(), news.next());
        loop {
            match (next_old, next_new) {
                (Some(before), Some(after)) => match compare_keys(before, after, meter) {
                    Ordering::Less => {
                        removed.push(before)?;
                        next_old = olds.next();
                    }
                    Ordering::Equal => {
                        common.push(ItemPair { before, after })?;
                        next_old = olds.next();
                        next_new = news.next();
                    }
                    Ordering::Greater => {
                        added.push(after)?;
                        next_new = news.next();
                    }
                },
                (Some(before), None) => {
                    removed.push(before)?;
                    next_old = olds.next();
                }
                (None, Some(after)) => {
                    added.push(after)?;
                    next_new = news.next();
                }
                (None, None) => break,
            }
        }
        Ok(Difference {
            added,
            removed,
            common,
        })
    }
}

/// Compares the keys of two items, and counts that.
fn compare_keys<T: IdOrdItem>(one: &T, other: &T, meter: &mut Meter) -> Ordering
    ensures value { result ≡ T.Key.cmp (T.key one.now) (T.key other.now) }
    ensures asked { meter.new ≡ meter.old + 1 }
{
    meter.tick();
    one.key().cmp(other.key())
}
