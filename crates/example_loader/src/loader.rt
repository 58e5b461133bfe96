//! Records of persons, each known by a number and by a mail address. A batch is loaded as a whole, or not at all.
ghost use Rattle.std.specs.Prelude.{◌≡◌, ◌<◌, ◌==◌, ◌||◌, ◌++◌, ℕ, true, false, Some, take, slice_get, IsPermutation, OnOk, OnErr, IfErr, IfSome, IfNone, IsSomeAnd};
ghost use Rattle.std.specs.List.{list_any};
ghost use Rattle.iddqd_bi.specs.Bag.{IsSound};
ghost use Rattle.iddqd_bi.specs.Map.{bag};

use iddqd_bi::{BiHashItem, BiHashMap, Ranked};
use serde::Deserialize;

/// What is known of a person.
#[derive(Drop, Deserialize)]
pub struct Record {
    pub id: u64,
    pub mail: String,
    pub year: u16,
}

impl BiHashItem for Record {
    type K1 = u64;

    type K2 = String;

    ghost key1 = { λ r. r.id };

    ghost key2 = { λ r. r.mail };

    fn key1(&self) -> &u64 {
        &self.id
    }

    fn key2(&self) -> &String {
        &self.mail
    }
}

/// Why a batch was not loaded: the record that was rejected, how many records are before it in the batch, and which of
/// its keys one of these or of the map has. If none is taken, there was no memory.
#[derive(Drop)]
pub struct Rejected {
    pub item: Record,
    pub index: usize,
    pub id_taken: bool,
    pub mail_taken: bool,
    /// The place in the batch of the first record that has one of these keys. If there is none, a loaded one has it.
    pub earlier: Option<usize>,
}

/// Returns the place of the first record that has the id or the mail of this one, if there is one.
fn first_like(records: &[Record], item: &Record) -> Option<usize>
    ensures found { IfSome result (λ at. IsSomeAnd (slice_get records.now at) (λ r.
        ((item.now.id == r.id) || ⟦<String as PartialEq>⟧.eq item.now.mail r.mail) ≡ true)) }
    ensures first { IfSome result (λ at. (before : ℕ) → before < at → IfSome (slice_get records.now before) (λ r.
        ((item.now.id == r.id) || ⟦<String as PartialEq>⟧.eq item.now.mail r.mail) ≡ false)) }
    ensures none { IfNone result ((at : ℕ) → IfSome (slice_get records.now at) (λ r.
        ((item.now.id == r.id) || ⟦<String as PartialEq>⟧.eq item.now.mail r.mail) ≡ false)) }
{
    records
        .iter()
        .position(|record| item.id == record.id || item.mail == record.mail)
}

/// Loads a batch as a whole. If that fails, nothing is loaded, and the error says which record was rejected, and which
/// record of the batch has a key of it.
pub fn load(records: &mut BiHashMap<Record>, batch: Vec<Record>) -> Result<(), Rejected>
    ensures all { OnOk result (IsPermutation (bag records.new) (batch.items ++ bag records.old)) }
    ensures none { OnErr result (IsPermutation (bag records.new) (bag records.old)) }
    ensures which { IfErr result (λ e. slice_get batch.items e.index ≡ Some e.item) }
    ensures apart { IfErr result (λ e. IsSound ⟦<Record as Ranked>⟧.ranks (take e.index batch.items ++ bag records.old)) }
    ensures id_taken { IfErr result (λ e. e.id_taken
        ≡ list_any (λ r. e.item.id == r.id) (take e.index batch.items ++ bag records.old)) }
    ensures mail_taken { IfErr result (λ e. e.mail_taken
        ≡ list_any (λ r. ⟦<String as PartialEq>⟧.eq e.item.mail r.mail) (take e.index batch.items ++ bag records.old)) }
    ensures earlier { IfErr result (λ e. IfSome e.earlier (λ at. IsSomeAnd (slice_get (take e.index batch.items) at) (λ r.
        ((e.item.id == r.id) || ⟦<String as PartialEq>⟧.eq e.item.mail r.mail) ≡ true))) }
    ensures loaded { IfErr result (λ e. IfNone e.earlier ((at : ℕ) → IfSome (slice_get (take e.index batch.items) at) (λ r.
        ((e.item.id == r.id) || ⟦<String as PartialEq>⟧.eq e.item.mail r.mail) ≡ false))) }
{
    match records.extend_unique(batch) {
        Ok(()) => Ok(()),
        Err(refused) => Err(Rejected {
            index: refused.before.len(),
            earlier: first_like(refused.before.as_slice(), &refused.item),
            item: refused.item,
            id_taken: refused.taken1,
            mail_taken: refused.taken2,
        }),
    }
}
