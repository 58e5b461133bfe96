//! Inserting many items at once: all of them, or none.
ghost use Rattle.std.specs.Prelude.{◌≡◌, ◌==◌, ◌++◌, Some, take, IsPermutation, OnOk, OnErr, IfErr, slice_get};
ghost use Rattle.std.specs.List.{list_any};
ghost use Rattle.iddqd_bi.specs.Bag.{IsSound};
ghost use Rattle.iddqd_bi.specs.Map.{bag};

use iddqd_bi::{BiHashItem, BiHashMap, Ranked};

/// A record, known by its number and by its code.
#[derive(Drop)]
pub struct Record {
    pub number: u64,
    pub code: u32,
}

impl BiHashItem for Record {
    type K1 = u64;

    type K2 = u32;

    ghost key1 = { λ r. r.number };

    ghost key2 = { λ r. r.code };

    fn key1(&self) -> &u64 {
        &self.number
    }

    fn key2(&self) -> &u32 {
        &self.code
    }
}

/// Why a batch was not loaded: the record that was rejected, how many records are before it in the batch, and which of
/// its keys one of these or of the map has. If none is taken, there was no memory.
#[derive(Drop)]
pub struct Rejected {
    pub item: Record,
    pub index: usize,
    pub number_taken: bool,
    pub code_taken: bool,
}

/// Loads a batch as a whole. If that fails, nothing is loaded, and the error says which record was rejected.
pub fn load(records: &mut BiHashMap<Record>, batch: Vec<Record>) -> Result<(), Rejected>
    ensures all { OnOk result (IsPermutation (bag records.new) (batch.items ++ bag records.old)) }
    ensures none { OnErr result (IsPermutation (bag records.new) (bag records.old)) }
    ensures which { IfErr result (λ e. slice_get batch.items e.index ≡ Some e.item) }
    ensures apart { IfErr result (λ e. IsSound ⟦<Record as Ranked>⟧.ranks (take e.index batch.items ++ bag records.old)) }
    ensures number_taken { IfErr result (λ e. e.number_taken
        ≡ list_any (λ r. e.item.number == r.number) (take e.index batch.items ++ bag records.old)) }
    ensures code_taken { IfErr result (λ e. e.code_taken
        ≡ list_any (λ r. e.item.code == r.code) (take e.index batch.items ++ bag records.old)) }
{
    match records.extend_unique(batch) {
        Ok(()) => Ok(()),
        Err(refused) => Err(Rejected {
            index: refused.before.len(),
            item: refused.item,
            number_taken: refused.taken1,
            code_taken: refused.taken2,
        }),
    }
}
