//! Inserting an item that conflicts with no other.
//!
//! Made by tests/widths from crates/iddqd_bi/src/map/insert.rt: change that file.
ghost use Rattle.std.specs.Prelude.{◌≡◌, ◌≢◌, ◌<◌, ◌⊎◌, [], length, IsOk, OnOk, OnErr, IfErr};
ghost use Rattle.std.specs.Borrow.{sem};
ghost use Rattle.iddqd_store.specs.Bag.{conflicts_of};
ghost use Rattle.iddqd_store.specs.Map.{bag, Gains, IsFullFor};

use super::TriHashMap;
use super::slots::Refusal;
use super::slots::found::each_once;
use crate::error::{InsertError, Rejected};
use crate::item::Ranked;
use iddqd_store::{Costs, UpToThree};
use std::hash::{BuildHasher, Hash};

impl<T: Ranked, S: BuildHasher> TriHashMap<T, S> {
    ghost use Rattle.iddqd_tri.specs.InsertErrors.{HandsBackAndHolds, TellsWhy, ends_as};

    /// Inserts an item if no item of the map conflicts with it. Two items conflict if they have an equal key of the
    /// same rank.
    ///
    /// If items conflict with it, the call fails, whatever memory there is, and the error has these items, in the order
    /// of the keys. Otherwise the call fails only if the map is full and there is no memory to grow. Each error has the
    /// item, and borrows the map, which is as it was.
    ///
    /// The call hashes each key of the item once, and searches for it once. It allocates memory only if the map is
    /// full. The capacity then grows to no more than twice as many items as there are with this one, or 7.
    ///
    /// ```text
    /// match devices.insert_unique(device) {
    ///     Ok(()) => {}
    ///     Err(refused) => println!(rt; "{refused}: {:?}", refused.duplicates())?,
    /// }
    /// ```
    #[inline(always)]
    pub fn insert_unique(&mut self, item: T) -> Result<(), InsertError<'_, T, S>>
        // The result is `Ok` only if nothing conflicts, and then always if there is spare capacity.
        ensures free { OnOk result (conflicts_of T.ranks (bag self.old) item ≡ []) }
        ensures granted { conflicts_of T.ranks (bag self.old) item ≡ []
            → length (bag self.old) < self.old.capacity → IsOk result }
        // The error has the item and borrows the map as it was. It occurs only for a conflict or in a full map.
        ensures handed_back { IfErr result (λ e. HandsBackAndHolds self.entry item e) }
        ensures reason { OnErr result ((conflicts_of T.ranks
            (bag self.old) item ≢ []) ⊎ IsFullFor T.ranks self.old item) }
        // Once the error is gone, the map has the item after `Ok`, and otherwise it is as it was.
        ensures* ends { sem 𝓛 (ends_as T.row S.row T.K1.row T.K2.row T.K3.row S.Hasher.row
            T.TriHashItem T.K1.Hash T.K2.Hash T.K3.Hash S.BuildHasher S.Hasher.Hasher
            self.entry result (λ new. Gains 1 self.old item new)) }
    {
        match self.insert_or_refuse(item, 1, &mut Costs::new()) {
            Ok(()) => Ok(()),
            Err(Refusal::Duplicate(item, found)) => {
                let slots = each_once(found.0.slot(), found.1.slot(), found.2.slot());
                Err(InsertError {
                    map: self,
                    item,
                    found: slots,
                })
            }
            Err(Refusal::Memory(item)) => Err(InsertError {
                map: self,
                item,
                found: UpToThree::new(),
            }),
        }
    }

    /// Inserts an item as `insert_unique` does, with an error that owns the item, says which of its keys are taken, and
    /// does not borrow the map, which is as it was. So `map.try_insert(item)?` works through a `From<Rejected<T>>` of
    /// your own, and `.map_err(|rejected| rejected.item)` hands the item back.
    ///
    /// If items conflict with it, the call fails, whatever memory there is, and the error says of each key whether an
    /// item has it. Otherwise the call fails only if the map is full and there is no memory to grow. No key is taken
    /// then.
    ///
    /// The call hashes each key of the item once, and searches for it once. It allocates memory only if the map is
    /// full. The capacity then grows to no more than twice as many items as there are with this one, or 7.
    ///
    /// `match map.try_insert(item) { Ok(()) => {}, Err(e) => report(e.taken1, e.item) }`
    pub fn try_insert(&mut self, item: T) -> Result<(), Rejected<T>>
        // The result is `Ok` only if nothing conflicts, and then always if there is spare capacity.
        ensures gains { OnOk result (Gains 1 self.old item self.new) }
        ensures free { OnOk result (conflicts_of T.ranks (bag self.old) item ≡ []) }
        ensures granted { conflicts_of T.ranks (bag self.old) item ≡ []
            → length (bag self.old) < self.old.capacity → IsOk result }
        // The error has the item and says which keys are taken. In a full map it may say that none is. The map is as it
        // was.
        ensures handed_back { IfErr result (λ e. e.item ≡ item) }
        ensures unchanged { OnErr result (self.new ≡ self.old) }
        ensures reason { IfErr result (λ e. TellsWhy T.TriHashItem T.K1.eq T.K2.eq T.K3.eq self.old item e) }
    {
        match self.insert_or_refuse(item, 1, &mut Costs::new()) {
            Ok(()) => Ok(()),
            Err(Refusal::Duplicate(item, found)) => {
                let taken1 = found.0.slot().is_some();
                let taken2 = found.1.slot().is_some();
                let taken3 = found.2.slot().is_some();
                Err(Rejected {
                    item,
                    taken1,
                    taken2,
                    taken3,
                })
            }
            Err(Refusal::Memory(item)) => Err(Rejected {
                item,
                taken1: false,
                taken2: false,
                taken3: false,
            }),
        }
    }
}
