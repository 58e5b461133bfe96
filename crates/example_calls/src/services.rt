//! What differs between two maps.
ghost use Rattle.std.specs.Prelude.{◌≡◌, ◌==◌, IfOk, filter, length, not};
ghost use Rattle.std.specs.Prelude.{map as each};
ghost use Rattle.iddqd_bi.specs.Differing.{IsDifference, unpaired};
ghost use Rattle.iddqd_bi.specs.Map.{bag};

use iddqd_bi::{BiHashItem, BiHashMap, Difference};
use std::alloc::{AllocError, Global};

/// A service of a configuration, known by its number and by its port.
#[derive(Debug, Drop, PartialEq)]
pub struct Service {
    pub number: u64,
    pub port: u16,
    pub version: u32,
}

impl BiHashItem for Service {
    type K1 = u64;

    type K2 = u16;

    ghost key1 = { λ s. s.number };

    ghost key2 = { λ s. s.port };

    fn key1(&self) -> &u64 {
        &self.number
    }

    fn key2(&self) -> &u16 {
        &self.port
    }
}

/// Returns what differs between two configurations, where services with the same number are the same.
pub fn changes<'s>(
    old: &'s BiHashMap<Service>,
    new: &'s BiHashMap<Service>,
    alloc: Global,
) -> Result<Difference<'s, Service>, AllocError>
    ensures { IfOk result (IsDifference (λ x y. x.number == y.number) (bag old.now) (bag new.now)) }
{
    old.diff1(new, alloc)
}

/// Returns the services that are to be started: those whose number no old service has.
pub fn to_start<'s>(
    old: &'s BiHashMap<Service>,
    new: &'s BiHashMap<Service>,
    alloc: Global,
) -> Result<Vec<&'s Service>, AllocError>
    ensures { IfOk result (λ xs. each (λ x. x.now) xs.items
        ≡ unpaired (λ x y. x.number == y.number) (bag new.now) (bag old.now)) }
{
    let difference = changes(old, new, alloc)?;
    Ok(difference.added)
}

/// Returns how many services are to be restarted: those that changed and kept their number.
pub fn count_changed(difference: &Difference<'_, Service>) -> usize
    ensures { result ≡ length (filter (λ pair. not (⟦<Service as PartialEq>⟧.eq pair.before.now pair.after.now))
        difference.now.common.items) }
{
    difference
        .common
        .iter()
        .filter(|pair| pair.is_modified())
        .count()
}
