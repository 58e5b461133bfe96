//! What a search by a hash found.
ghost use Rattle.std.specs.Prelude.{◌≡◌, Some, IfSome};

use crate::item_set::ItemIndex;
use std::marker::Model;

/// The slot that a search found, if any, with the hash that was searched for. The key in that slot has this hash, so
/// a removal need not hash it again.
#[derive(Drop)]
pub struct FoundByHash {
    slot: Option<ItemIndex>,
    hash: u64,
}

impl Model for FoundByHash {
    ghost use Rattle.iddqd_store.specs.Rank.{FoundByHash};

    ghost Value = { FoundByHash };

    ghost view = { λ s. record { slot = s.slot; hash = s.hash } };
}

impl FoundByHash {
    /// Makes the result of a search for this hash.
    pub fn new(slot: Option<ItemIndex>, hash: u64) -> FoundByHash
        ensures { result ≡ record { slot = slot; hash = hash } }
    {
        FoundByHash { slot, hash }
    }

    /// Returns the slot.
    pub fn slot(&self) -> Option<ItemIndex>
        ensures { result ≡ self.now.slot }
    {
        self.slot
    }

    /// Returns the hash.
    pub fn hash(&self) -> u64
        ensures { result ≡ self.now.hash }
    {
        self.hash
    }

    /// Returns the hash of the key in this slot if the search found the slot, otherwise `None`.
    pub fn hash_at(&self, slot: ItemIndex) -> Option<u64>
        ensures known { self.now.slot ≡ Some slot → result ≡ Some self.now.hash }
        ensures hashed { IfSome result (λ hash. (self.now.slot ≡ Some slot) × (hash ≡ self.now.hash)) }
    {
        match self.slot {
            Some(found) => { if found == slot { Some(self.hash) } else { None } }
            None => None,
        }
    }
}
