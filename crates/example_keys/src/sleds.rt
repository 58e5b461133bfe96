//! One item in two maps, behind an `Arc`: a map of all sleds, and a map of those that are busy.
ghost use Rattle.std.specs.Prelude.{◌≡◌, ◌==◌, OnErr, IsOk, option_copied};
ghost use Rattle.iddqd_bi.specs.Bag.{IsOnly};
ghost use Rattle.iddqd_bi.specs.Map.{bag};

use iddqd_bi::{BiHashItem, BiHashMap, Rejected};
use std::alloc::AllocError;
use std::sync::Arc;

/// A sled, known by its serial number and by its slot.
#[derive(Drop)]
pub struct Sled {
    pub serial: u64,
    pub slot: u32,
}

impl BiHashItem for Sled {
    type K1 = u64;

    type K2 = u32;

    ghost key1 = { λ s. s.serial };

    ghost key2 = { λ s. s.slot };

    fn key1(&self) -> &u64 {
        &self.serial
    }

    fn key2(&self) -> &u32 {
        &self.slot
    }
}

/// Notes a sled among all. The error has it, and says which of its keys are taken.
pub fn note(all: &mut BiHashMap<Arc<Sled>>, sled: Arc<Sled>) -> Result<(), Rejected<Arc<Sled>>>
    ensures unchanged { OnErr result (all.new ≡ all.old) }
{
    all.try_insert(sled)
}

/// Makes the sled in this slot busy, and returns whether there is one. The item is shared: only a count is raised.
pub fn make_busy(
    all: &BiHashMap<Arc<Sled>>,
    busy: &mut BiHashMap<Arc<Sled>>,
    slot: u32,
) -> Result<bool, AllocError> {
    let Some(sled) = all.get2(&slot) else {
        return Ok(false);
    };
    let shared = sled.clone()?;
    busy.insert_overwrite(shared)?;
    Ok(true)
}

/// Returns the sled in this slot, if there is one.
pub fn in_slot(sleds: &BiHashMap<Arc<Sled>>, slot: u32) -> Option<&Arc<Sled>>
    ensures { IsOnly (λ s. slot == s.value.slot) (bag sleds.now) (option_copied result) }
{
    sleds.get2(&slot)
}
