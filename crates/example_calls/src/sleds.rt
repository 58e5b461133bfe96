//! Items that hold a map: sleds, each with its zones.
ghost use Rattle.std.specs.Prelude.{◌≡◌, false};
ghost use Rattle.std.proofs.Common.{rules};

use iddqd_id::{IdHashItem, IdHashItemMut, IdHashMap};

/// A zone of a sled, known by its number, and whether it runs.
#[derive(Drop)]
pub struct Zone {
    pub number: u64,
    pub running: bool,
}

impl IdHashItem for Zone {
    type Key = u64;

    ghost key = { λ z. z.number };

    fn key(&self) -> &u64 {
        &self.number
    }
}

impl IdHashItemMut for Zone {
    type Data = bool;

    ghost data_of = { λ z. z.running };

    ghost put = { λ z d. record z { running = d } };

    ghost keeps_key = { Prim.search rules };

    ghost put_shows = { Prim.search rules };

    fn data_mut(&mut self) -> &mut bool {
        &mut self.running
    }
}

/// A sled, known by its number, with its zones.
#[derive(Drop)]
pub struct Sled {
    pub number: u64,
    pub zones: IdHashMap<Zone>,
}

impl IdHashItem for Sled {
    type Key = u64;

    ghost key = { λ s. s.number };

    fn key(&self) -> &u64 {
        &self.number
    }
}

impl IdHashItemMut for Sled {
    type Data = IdHashMap<Zone>;

    ghost data_of = { λ s. s.zones };

    ghost put = { λ s d. record s { zones = d } };

    ghost keeps_key = { Prim.search rules };

    ghost put_shows = { Prim.search rules };

    fn data_mut(&mut self) -> &mut IdHashMap<Zone> {
        &mut self.zones
    }
}

/// Stops a zone of a sled, and returns whether there are both. If not, nothing changes.
pub fn stop(sleds: &mut IdHashMap<Sled>, sled: u64, zone: u64) -> bool
    ensures unchanged { result ≡ false → sleds.new ≡ sleds.old }
{
    let Some(zones) = sleds.data_mut(&sled) else {
        return false;
    };
    let Some(running) = zones.data_mut(&zone) else {
        return false;
    };
    *running = false;
    true
}

/// The same, by an update of the inner map.
pub fn halt(sleds: &mut IdHashMap<Sled>, sled: u64, zone: u64) -> bool
    ensures unchanged { result ≡ false → sleds.new ≡ sleds.old }
{
    match sleds.data_mut(&sled) {
        Some(zones) => zones.update(&zone, |_zone| false),
        None => false,
    }
}
