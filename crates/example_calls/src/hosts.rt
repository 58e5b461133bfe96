//! A key of a type of std, an IP address, and one that is an enum.
ghost use Rattle.std.specs.Prelude.{◌≡◌, ◌<◌, ◌∷◌, [], Some, None, length, IsOk, IsPermutation, OnOk, OnErr, IfErr, option_copied};
ghost use Rattle.std.proofs.Common.{rules};
ghost use Rattle.iddqd_bi.specs.Bag.{IsOnly, conflicts_of, swap};
ghost use Rattle.iddqd_bi.specs.Map.{bag};

use iddqd_bi::{BiHashItem, BiHashItemMut, BiHashMap, Ranked};
use std::net::Ipv4Addr;

/// What a host does in its network.
#[derive(PartialEq, Eq, Hash, Clone, Copy)]
pub enum Duty {
    Gateway,
    Resolver,
    Printer(u8),
}

/// A host, known by its address and by its duty, and how many packets it has sent.
#[derive(Drop)]
pub struct Host {
    pub address: Ipv4Addr,
    pub duty: Duty,
    pub sent: u64,
}

impl BiHashItem for Host {
    type K1 = Ipv4Addr;

    type K2 = Duty;

    ghost key1 = { λ h. h.address };

    ghost key2 = { λ h. h.duty };

    fn key1(&self) -> &Ipv4Addr {
        &self.address
    }

    fn key2(&self) -> &Duty {
        &self.duty
    }
}

impl BiHashItemMut for Host {
    type Data = u64;

    ghost data_of = { λ h. h.sent };

    ghost put = { λ h n. record h { sent = n } };

    ghost keeps_key1 = { Prim.search rules };

    ghost keeps_key2 = { Prim.search rules };

    ghost put_shows = { Prim.search rules };

    fn data_mut(&mut self) -> &mut u64 {
        &mut self.sent
    }
}

/// Adds a host, or returns it if another host has its address or its duty, or if there is no memory.
pub fn add(hosts: &mut BiHashMap<Host>, host: Host) -> Result<(), Host>
    ensures went_in { OnOk result (IsPermutation (bag hosts.new) (host ∷ bag hosts.old)) }
    ensures granted { conflicts_of ⟦<Host as Ranked>⟧.ranks (bag hosts.old) host ≡ []
        → length (bag hosts.old) < hosts.old.capacity → IsOk result }
    ensures handed_back { IfErr result (λ h. h ≡ host) }
    ensures unchanged { OnErr result (hosts.new ≡ hosts.old) }
{
    hosts.try_insert(host).map_err(|rejected| rejected.item)
}

/// The host with a duty, if there is one.
pub fn with_duty(hosts: &BiHashMap<Host>, duty: Duty) -> Option<&Host>
    ensures { IsOnly (λ h. ⟦<Duty as PartialEq>⟧.eq duty h.duty) (bag hosts.now) (option_copied result) }
{
    hosts.get2(&duty)
}

/// Stores how many packets the host at an address has sent, if there is one.
pub fn note_sent(hosts: &mut BiHashMap<Host>, address: Ipv4Addr, sent: u64)
    ensures present { (h : Host) → IsOnly (λ h. ⟦<Ipv4Addr as PartialEq>⟧.eq address h.address) (bag hosts.old) (Some h)
        → IsPermutation (bag hosts.new)
        (swap ⟦<Host as Ranked>⟧.ranks (bag hosts.old) h (record h { sent = sent })) }
    ensures absent { IsOnly (λ h. ⟦<Ipv4Addr as PartialEq>⟧.eq address h.address) (bag hosts.old) None
        → hosts.new ≡ hosts.old }
{
    if let Some(mut host) = hosts.get1_mut(&address) {
        *host.data_mut() = sent;
    }
}
