//! Keeping only some of the items.
ghost use Rattle.std.specs.Prelude.{filter, nat_le, IsPermutation};
ghost use Rattle.iddqd_id.specs.Map.{bag};

use iddqd_id::{IdHashItem, IdHashMap};

/// A lease of an address by a machine, known by the address, with the time at which it runs out.
#[derive(Drop)]
pub struct Lease {
    pub address: u32,
    pub machine: u64,
    pub until: u64,
}

impl IdHashItem for Lease {
    type Key = u32;

    ghost key = { λ l. l.address };

    fn key(&self) -> &u32 {
        &self.address
    }
}

/// Ends the leases that have run out.
pub fn expire(leases: &mut IdHashMap<Lease>, now: u64)
    ensures { IsPermutation (bag leases.new) (filter (λ l. nat_le now l.until) (bag leases.old)) }
{
    leases.retain(|l| l.until >= now);
}
