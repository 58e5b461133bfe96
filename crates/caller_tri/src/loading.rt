//! What a caller can prove of a map into which a batch of items is inserted as a whole, or not at all.
//!
//! Made by tests/widths from crates/caller_bi/src/loading.rt: change that file.
ghost use Rattle.std.specs.Prelude.{◌++◌, IsPermutation, OnOk, OnErr, IfErr};
ghost use Rattle.iddqd_tri.specs.Bag.{IsSound};
ghost use Rattle.iddqd_tri.specs.Callers.{IsRejected};
ghost use Rattle.iddqd_tri.specs.Map.{bag};

use iddqd_tri::{InsertReason, Ranked, TriHashItem, TriHashMap};
use std::hash::{BuildHasher, Hash};

/// Inserts all items of a batch, or none of them. The error has the item that was rejected, and the reason.
pub fn load<T: TriHashItem + Drop, S: BuildHasher>(
    map: &mut TriHashMap<T, S>,
    batch: Vec<T>,
) -> Result<(), (T, InsertReason)>
    ensures all { OnOk result (IsPermutation (bag map.new) (batch.items ++ bag map.old)) }
    ensures none { OnErr result (IsPermutation (bag map.new) (bag map.old)) }
    ensures rejected { IfErr result (λ e.
        IsRejected ⟦<T as Ranked>⟧.ranks (bag map.old) batch.items e.0 e.1) }
    ensures sound { IsSound ⟦<T as Ranked>⟧.ranks (bag map.new) }
{
    match map.extend_unique(batch) {
        Ok(()) => Ok(()),
        Err(refused) => {
            let reason = refused.reason();
            Err((refused.item, reason))
        }
    }
}
