//! A registry as a type of its own, which contracts see as the list of its devices, beside how many fit.
ghost use Rattle.std.specs.Prelude.{◌≡◌, ◌<◌, ◌∷◌, ◌==◌, [], length, IsOk, IsPermutation, OnOk, OnErr, IfErr, IfSome, IfNone, option_copied};
ghost use Rattle.iddqd_bi.specs.Bag.{IsOnly, conflicts_of};

use iddqd_bi::{BiHashItem, BiHashMap, Ranked};
use std::alloc::Global;
use std::marker::Model;

/// A device, known by its serial number and by the port that it is plugged into.
#[derive(Drop)]
pub struct Device {
    pub serial: u64,
    pub port: u16,
}

impl BiHashItem for Device {
    type K1 = u64;

    type K2 = u16;

    ghost key1 = { λ d. d.serial };

    ghost key2 = { λ d. d.port };

    fn key1(&self) -> &u64 {
        &self.serial
    }

    fn key2(&self) -> &u16 {
        &self.port
    }
}

/// The devices that are plugged in.
#[derive(Drop)]
pub struct Hub {
    devices: BiHashMap<Device>,
}

impl Model for Hub {
    ghost use Rattle.std.specs.Prelude.{List, ℕ};
    ghost use Rattle.example_calls.specs.declared.hub.Device.{Device};
    ghost use Rattle.iddqd_bi.specs.Map.{bag};

    ghost Value = { List Device × ℕ };

    ghost view = { λ h. (bag h.devices, h.devices.capacity) };
}

impl Hub {
    /// Makes a hub with nothing plugged in.
    pub fn new(alloc: Global) -> Self
        ensures { result.0 ≡ [] }
    {
        Hub {
            devices: BiHashMap::new(alloc),
        }
    }

    /// Plugs a device in, or returns it if its serial number or its port is taken, or if there is no memory.
    pub fn plug_in(&mut self, device: Device) -> Result<(), Device>
        ensures went_in { OnOk result (IsPermutation self.new.0 (device ∷ self.old.0)) }
        ensures granted { conflicts_of ⟦<Device as Ranked>⟧.ranks self.old.0 device ≡ []
            → length self.old.0 < self.old.1 → IsOk result }
        ensures handed_back { IfErr result (λ d. d ≡ device) }
        ensures unchanged { OnErr result (self.new ≡ self.old) }
    {
        self.devices.try_insert(device).map_err(|e| e.item)
    }

    /// Unplugs the device at this port, and returns it, if there is one.
    pub fn unplug(&mut self, port: u16) -> Option<Device>
        ensures it { IsOnly (λ d. port == d.port) self.old.0 result }
        ensures gone { IfSome result (λ d. IsPermutation self.old.0 (d ∷ self.new.0)) }
        ensures none { IfNone result (self.new ≡ self.old) }
    {
        self.devices.remove2(&port)
    }

    /// Returns the device at this port, if there is one.
    pub fn at_port(&self, port: u16) -> Option<&Device>
        ensures { IsOnly (λ d. port == d.port) self.now.0 (option_copied result) }
    {
        self.devices.get2(&port)
    }

    /// Returns how many devices are plugged in.
    pub fn len(&self) -> usize
        ensures { result ≡ length self.now.0 }
    {
        self.devices.len()
    }
}
