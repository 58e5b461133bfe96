//! A key that is computed from an enum, beside one that is in each of its variants.
ghost use Rattle.std.specs.Prelude.{◌≡◌, ◌==◌, ◌∷◌, OnOk, OnErr, IsPermutation, option_copied};
ghost use Rattle.iddqd_bi.specs.Bag.{IsOnly};
ghost use Rattle.iddqd_bi.specs.Map.{bag};
ghost use Rattle.example_keys.specs.Addresses.{id_of, ports_of};

use iddqd_bi::{BiHashMap, Made, MakesKey, Rejected, WithMadeKeys};
use std::net::IpAddr;

/// An address with those of its ports that belong to one zone.
#[derive(PartialEq, Eq, Hash, Clone, Copy)]
pub struct Ports {
    pub address: IpAddr,
    pub first: u16,
    pub last: u16,
}

/// An address by which a zone is reached: all of its ports, or some of them. It is known by its number and its ports.
#[derive(Clone, Copy)]
pub enum External {
    Floating {
        id: u128,
        address: IpAddr,
    },
    Shared {
        id: u128,
        address: IpAddr,
        first: u16,
        last: u16,
    },
}

impl MakesKey<1> for External {
    type Made = u128;

    ghost made = { id_of };

    fn make_key(&self) -> u128 {
        match *self {
            External::Floating { id, .. } => id,
            External::Shared { id, .. } => id,
        }
    }
}

impl MakesKey<2> for External {
    type Made = Ports;

    ghost made = { ports_of };

    fn make_key(&self) -> Ports {
        match *self {
            External::Floating { address, .. } => Ports {
                address,
                first: 0,
                last: u16::MAX,
            },
            External::Shared {
                address,
                first,
                last,
                ..
            } => Ports {
                address,
                first,
                last,
            },
        }
    }
}

/// Gives an address out. The error has it, and says which of its keys are taken.
pub fn give(
    given: &mut BiHashMap<WithMadeKeys<External>>,
    external: External,
) -> Result<(), Rejected<WithMadeKeys<External>>>
    ensures went_in { OnOk result (IsPermutation (bag given.new) (external ∷ bag given.old)) }
    ensures unchanged { OnErr result (given.new ≡ given.old) }
{
    given.try_insert(WithMadeKeys::new(external))
}

/// Returns what has these ports, if there is one.
pub fn with_ports(
    given: &BiHashMap<WithMadeKeys<External>>,
    ports: Ports,
) -> Option<&WithMadeKeys<External>>
    ensures { IsOnly (λ e. ⟦<Ports as PartialEq>⟧.eq ports (ports_of e)) (bag given.now) (option_copied result) }
{
    given.get2(Made { key: ports })
}
