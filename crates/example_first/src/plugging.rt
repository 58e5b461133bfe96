//! Plugging devices in and finding them, with contracts.
ghost use Rattle.std.specs.Prelude.{◌≡◌, ◌<◌, ◌∷◌, ◌==◌, [], length, IsOk, IsPermutation, OnOk, OnErr, IfErr, option_copied};
ghost use Rattle.std.specs.List.{list_any};
ghost use Rattle.iddqd_bi.specs.Bag.{IsOnly, conflicts_of};
ghost use Rattle.iddqd_bi.specs.Map.{bag};

use crate::Device;
use iddqd_bi::{BiHashMap, Ranked, Rejected};

/// Plugs a device in. If its serial number or its port is taken, or if there is no memory, the error has the device, and
/// says which of the two is taken.
pub fn plug_in(devices: &mut BiHashMap<Device>, device: Device) -> Result<(), Rejected<Device>>
    ensures went_in { OnOk result (IsPermutation (bag devices.new) (device ∷ bag devices.old)) }
    ensures granted { conflicts_of ⟦<Device as Ranked>⟧.ranks (bag devices.old) device ≡ []
        → length (bag devices.old) < devices.old.capacity → IsOk result }
    ensures handed_back { IfErr result (λ e. e.item ≡ device) }
    ensures serial_taken { IfErr result (λ e. e.taken1 ≡ list_any (λ d. device.serial == d.serial) (bag devices.old)) }
    ensures port_taken { IfErr result (λ e. e.taken2 ≡ list_any (λ d. device.port == d.port) (bag devices.old)) }
    ensures unchanged { OnErr result (devices.new ≡ devices.old) }
{
    devices.try_insert(device)
}

/// Returns the device at this port, if there is one.
pub fn at_port(devices: &BiHashMap<Device>, port: u16) -> Option<&Device>
    ensures { IsOnly (λ d. port == d.port) (bag devices.now) (option_copied result) }
{
    devices.get2(&port)
}
