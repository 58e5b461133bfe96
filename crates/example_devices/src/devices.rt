//! Devices, each known by its serial number and by the port that it is plugged into, up to a limit. The memory for all
//! of them is allocated at the start, so that no later call can run out of memory.
ghost use Rattle.std.specs.Prelude.{◌≡◌, ◌∷◌, ◌==◌, [], List, Some, true, false, IsPermutation, IsErrOf, OnOk, OnErr, IfOk, IfSome, IfNone, option_copied};
ghost use Rattle.std.specs.List.{list_any};
ghost use Rattle.iddqd_bi.specs.Bag.{IsOnly};
ghost use Rattle.iddqd_bi.specs.Map.{IsFullFor, bag};

use iddqd_bi::{BiHashItem, BiHashMap, NotReplaced, Ranked, Rejected, TryReserveError};
use std::alloc::Global;

/// A device that is plugged in.
#[derive(Clone, Copy)]
pub struct Device {
    pub serial: u64,
    pub port: u16,
}

impl BiHashItem for Device {
    type K1 = u64;

    type K2 = u16;

    ghost key1 = { λ d. d.serial };

    ghost key2 = { λ d. d.port };

    fn key1(&self) -> &u64 {
        &self.serial
    }

    fn key2(&self) -> &u16 {
        &self.port
    }
}

/// Why a device was not plugged in.
#[derive(Clone, Copy)]
pub enum PlugError {
    /// A device with this serial number is plugged in.
    SerialTaken,
    /// The port has a device.
    PortTaken,
    /// The serial number and the port are free, but there are as many devices as the limit allows.
    Full,
}

/// Why a device was not moved.
#[derive(Clone, Copy)]
pub enum MoveError {
    /// No device has the serial number.
    NoDevice,
    /// Another device is at the port.
    PortTaken,
}

/// Makes a map without devices, in which as many fit as the limit says.
pub fn with_limit(alloc: Global, limit: usize) -> Result<BiHashMap<Device>, TryReserveError>
    ensures empty { IfOk result (λ devices. bag devices ≡ []) }
    ensures limit { IfOk result (λ devices. devices.capacity ≡ limit) }
{
    BiHashMap::with_capacity(alloc, limit)
}

/// Plugs a device in if its serial number and its port are free and the limit allows it.
pub fn plug_in(devices: &mut BiHashMap<Device>, device: Device) -> Result<(), PlugError>
    ensures went_in { OnOk result (IsPermutation (bag devices.new) (device ∷ bag devices.old)) }
    ensures unchanged { OnErr result (devices.new ≡ devices.old) }
    ensures serial_taken { IsErrOf result PlugError.SerialTaken
        → list_any (λ d. device.serial == d.serial) (bag devices.old) ≡ true }
    ensures port_taken { IsErrOf result PlugError.PortTaken
        → list_any (λ d. device.port == d.port) (bag devices.old) ≡ true }
    ensures full { IsErrOf result PlugError.Full → IsFullFor ⟦<Device as Ranked>⟧.ranks devices.old device }
    ensures same_limit { devices.new.capacity ≡ devices.old.capacity }
{
    // If the limit is reached, an insert of a device that conflicts with none would raise it.
    if devices.len() == devices.capacity() && devices.conflicts_with(&device).is_empty() {
        return Err(PlugError::Full);
    }
    match devices.try_insert(device) {
        Ok(()) => Ok(()),
        Err(Rejected { taken1: true, .. }) => Err(PlugError::SerialTaken),
        Err(Rejected { taken2: true, .. }) => Err(PlugError::PortTaken),
        Err(_) => Err(PlugError::Full),
    }
}

/// Removes the device with this serial number, and returns it, if there is one.
pub fn unplug(devices: &mut BiHashMap<Device>, serial: u64) -> Option<Device>
    ensures it { IsOnly (λ d. serial == d.serial) (bag devices.old) result }
    ensures gone { IfSome result (λ d. IsPermutation (bag devices.old) (d ∷ bag devices.new)) }
    ensures none { IfNone result (devices.new ≡ devices.old) }
    ensures same_limit { devices.new.capacity ≡ devices.old.capacity }
{
    devices.remove1(&serial)
}

/// Returns the device at this port, if there is one.
pub fn at_port(devices: &BiHashMap<Device>, port: u16) -> Option<&Device>
    ensures { IsOnly (λ d. port == d.port) (bag devices.now) (option_copied result) }
{
    devices.get2(&port)
}

/// Returns the device with this serial number, if there is one.
pub fn by_serial(devices: &BiHashMap<Device>, serial: u64) -> Option<&Device>
    ensures { IsOnly (λ d. serial == d.serial) (bag devices.now) (option_copied result) }
{
    devices.get1(&serial)
}

/// Moves the device with this serial number to a port at which no other device is, and returns the port that it had. No
/// memory is allocated.
pub fn move_to(devices: &mut BiHashMap<Device>, serial: u64, port: u16) -> Result<u16, MoveError>
    ensures was { IfOk result (λ had.
        IsOnly (λ d. serial == d.serial) (bag devices.old) (Some (record { serial = serial; port = had }))) }
    ensures moved { IfOk result (λ had. IsPermutation (record { serial = serial; port = had } ∷ bag devices.new)
        (record { serial = serial; port = port } ∷ bag devices.old)) }
    ensures unchanged { OnErr result (devices.new ≡ devices.old) }
    ensures no_device { IsErrOf result MoveError.NoDevice
        → list_any (λ d. serial == d.serial) (bag devices.old) ≡ false }
    ensures port_taken { IsErrOf result MoveError.PortTaken → (device : Device) × (others : List Device)
        × (device.serial ≡ serial) × IsPermutation (bag devices.old) (device ∷ others)
        × (list_any (λ d. port == d.port) others ≡ true) }
    ensures same_limit { devices.new.capacity ≡ devices.old.capacity }
{
    match devices.rekey1(&serial, Device { serial, port }) {
        Ok(device) => Ok(device.port),
        Err(NotReplaced::Absent(_)) => Err(MoveError::NoDevice),
        Err(NotReplaced::Duplicate(_)) => Err(MoveError::PortTaken),
    }
}
