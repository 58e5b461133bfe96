//! A registry of devices whose changes are in a journal: each is a line of a log, which is written and synced before it is made.
ghost use Rattle.std.specs.Prelude.{◌≡◌, ◌≢◌, ◌∷◌, ◌++◌, ◌==◌, ◌+◌, ℕ, List, [], true, false, Some, length, take, drop, ◌⊎◌, IsPermutation, IsErrOf, OnOk, OnErr, IfOk, IfSome, option_map};
ghost use Rattle.std.specs.List.{list_any};
ghost use Rattle.std.specs.Option.{ForSome};
ghost use Rattle.iddqd_bi.specs.Bag.{IsOnly, conflicts_of};
ghost use Rattle.iddqd_bi.specs.Map.{bag};
ghost use Rattle.example_journal.specs.Changes.{InRange, IsTorn, Tells, line_of};
ghost use Rattle.example_journal.specs.declared.changes.Change.{Change};
ghost use Rattle.example_journal.specs.declared.registry.Failure.{Failure};

use crate::changes::{Change, Device, load, write_all, write_line};
use crate::log::Log;
use iddqd_bi::{BiHashMap, Ranked};
use std::alloc::{AllocError, Global};
use std::io;

/// Why a call failed.
#[derive(Clone, Copy)]
pub enum Failure {
    /// A device has the serial number or the port.
    Taken,
    /// No device has the serial number.
    NoDevice,
    /// The journal is not open: nobody knows what the log has.
    Closed,
    /// The line that begins at this byte of the log is not one that the registry writes there.
    Damaged(usize),
    /// The log failed, or there is no memory. The log has the lines that it had.
    Log(io::Error),
}

impl From<io::Error> for Failure {
    ghost from_gives = { λ error failure. failure ≡ Failure.Log error };

    fn from(error: io::Error) -> Failure {
        Failure::Log(error)
    }
}

/// The devices and the log of their journal. While the journal is open, its lines leave these devices.
#[derive(Drop)]
pub struct Registry<L: Log + Drop> {
    devices: BiHashMap<Device>,
    log: L,
    len: usize,
    is_open: bool,
    alloc: Global,
    ghost measured: { is_open ≡ true → ForSome (L.kept log) (λ lines. length lines ≡ len) },
    ghost agrees: { is_open ≡ true → ForSome (L.kept log) (λ lines. ∥ Tells lines (bag devices) ∥₁) },
}

impl<L: Log + Drop> Registry<L> {
    /// Makes a registry without devices, whose journal is not yet open.
    pub fn new(alloc: Global, log: L) -> Registry<L>
        ensures log { L.kept result.log ≡ L.kept log }
        ensures closed { result.is_open ≡ false }
        ensures none { bag result.devices ≡ [] }
    {
        Registry {
            devices: BiHashMap::new(alloc),
            log,
            len: 0,
            is_open: false,
            alloc,
        }
    }

    /// Opens the journal, again if it is open: loads the devices that its lines leave, and cuts off a torn line behind them.
    /// Returns how many bytes were cut off. After an error the journal is closed, and there are no devices.
    pub fn open(&mut self) -> Result<usize, Failure>
        ensures opened { OnOk result (self.new.is_open ≡ true) }
        ensures kept { IfOk result (λ n. (torn : List ℕ) × (length torn ≡ n) × IsTorn torn
            × (L.kept self.old.log ≡ option_map (λ lines. lines ++ torn) (L.kept self.new.log))) }
        ensures closed { OnErr result (self.new.is_open ≡ false) }
        ensures none { OnErr result (bag self.new.devices ≡ []) }
        ensures untouched { (at : ℕ) → IsErrOf result (Failure.Damaged at) → L.kept self.new.log ≡ L.kept self.old.log }
        // After any error the log has what it had, or its whole lines with anything in the place of the torn one.
        ensures safe { OnErr result ((L.kept self.new.log ≡ L.kept self.old.log) ⊎ ((len : ℕ) × (part : List ℕ)
            × (L.kept self.new.log ≡ option_map (λ here. take len here ++ part) (L.kept self.old.log))
            × IfSome (L.kept self.old.log) (λ here. IsTorn (drop len here)))) }
    {
        self.is_open = false;
        self.devices.clear();
        let bytes = self.log.read(self.alloc)?;
        let (devices, len) = load(self.alloc, bytes.as_slice())?;
        self.log.write(len, b"")?;
        self.devices = devices;
        self.len = len;
        self.is_open = true;
        Ok(bytes.len() - len)
    }

    /// Closes the journal if the log does not have as many bytes as the registry wrote: another process has changed it since.
    /// Such a change between this look and a write is not seen.
    fn look(&mut self) -> Result<(), Failure>
        ensures devices { self.new.devices ≡ self.old.devices }
        ensures log { L.kept self.new.log ≡ L.kept self.old.log }
        ensures len { self.new.len ≡ self.old.len }
        ensures still_open { OnOk result (self.new.is_open ≡ true) }
        ensures was_open { OnOk result (self.old.is_open ≡ true) }
        ensures closed { IsErrOf result Failure.Closed → self.new.is_open ≡ false }
        ensures other { (IsErrOf result Failure.Taken → ⊥) × (IsErrOf result Failure.NoDevice → ⊥) }
    {
        if !self.is_open {
            return Err(Failure::Closed);
        }
        if self.log.size()? != self.len {
            self.is_open = false;
            return Err(Failure::Closed);
        }
        Ok(())
    }

    /// Writes the line of a change, and closes the journal until the change is made. After an error the log has the lines that it
    /// had, or the journal is closed.
    fn write(&mut self, change: Change) -> Result<(), Failure>
        ensures devices { self.new.devices ≡ self.old.devices }
        ensures written { OnOk result (L.kept self.new.log ≡ option_map (λ lines. lines ++ line_of change) (L.kept self.old.log)) }
        ensures measured { OnOk result (ForSome (L.kept self.new.log) (λ lines. length lines ≡ self.new.len)) }
        ensures in_range { OnOk result (InRange change) }
        ensures was_open { OnOk result (self.old.is_open ≡ true) }
        ensures same_lines { OnErr result (self.new.is_open ≡ true → L.kept self.new.log ≡ L.kept self.old.log) }
        ensures other { (IsErrOf result Failure.Taken → ⊥) × (IsErrOf result Failure.NoDevice → ⊥)
            × (IsErrOf result Failure.Closed → self.new.is_open ≡ false) }
        ensures left { self.old.is_open ≡ false → L.kept self.new.log ≡ L.kept self.old.log }
    {
        self.look()?;
        let line = write_line(self.alloc, change)?;
        let Some(len) = self.len.checked_add(line.len()) else {
            return Err(Failure::Log(AllocError.into()));
        };
        self.is_open = false;
        if let Err(error) = self.log.write(self.len, line.as_bytes()) {
            self.log.write(self.len, b"").map_err(|_| Failure::Closed)?;
            self.is_open = true;
            return Err(Failure::Log(error));
        }
        self.len = len;
        Ok(())
    }

    /// Plugs a device in, if its serial number and its port are free. What can fail comes before its line: whoever finds the
    /// line in the journal can plug the device in.
    pub fn plug_in(&mut self, device: Device) -> Result<(), Failure>
        ensures went_in { OnOk result (IsPermutation (bag self.new.devices) (device ∷ bag self.old.devices)) }
        ensures written { OnOk result (L.kept self.new.log
            ≡ option_map (λ lines. lines ++ line_of (Change.Plug device)) (L.kept self.old.log)) }
        ensures unchanged { OnErr result (bag self.new.devices ≡ bag self.old.devices) }
        ensures same_lines { OnErr result (self.new.is_open ≡ true → L.kept self.new.log ≡ L.kept self.old.log) }
        ensures taken { IsErrOf result Failure.Taken
            → conflicts_of ⟦<Device as Ranked>⟧.ranks (bag self.old.devices) device ≢ [] }
        ensures other { (IsErrOf result Failure.NoDevice → ⊥) × (IsErrOf result Failure.Closed → self.new.is_open ≡ false) }
        ensures left { self.old.is_open ≡ false → L.kept self.new.log ≡ L.kept self.old.log }
    {
        if !self.devices.conflicts_with(&device).is_empty() {
            return Err(Failure::Taken);
        }
        self.devices.reserve(1).map_err(io::Error::from)?;
        self.write(Change::Plug(device))?;
        if self.devices.try_insert(device).is_err() {
            unreachable!()
        }
        self.is_open = true;
        Ok(())
    }

    /// Unplugs the device with this serial number, and returns it.
    pub fn unplug(&mut self, serial: u64) -> Result<Device, Failure>
        ensures it { IfOk result (λ d. IsOnly (λ d. serial == d.serial) (bag self.old.devices) (Some d)) }
        ensures gone { IfOk result (λ d. IsPermutation (bag self.old.devices) (d ∷ bag self.new.devices)) }
        ensures written { IfOk result (λ d. L.kept self.new.log
            ≡ option_map (λ lines. lines ++ line_of (Change.Unplug d)) (L.kept self.old.log)) }
        ensures unchanged { OnErr result (bag self.new.devices ≡ bag self.old.devices) }
        ensures same_lines { OnErr result (self.new.is_open ≡ true → L.kept self.new.log ≡ L.kept self.old.log) }
        ensures no_device { IsErrOf result Failure.NoDevice
            → list_any (λ d. serial == d.serial) (bag self.old.devices) ≡ false }
        ensures other { (IsErrOf result Failure.Taken → ⊥) × (IsErrOf result Failure.Closed → self.new.is_open ≡ false) }
        ensures left { self.old.is_open ≡ false → L.kept self.new.log ≡ L.kept self.old.log }
    {
        let Some(device) = self.devices.get1(&serial).copied() else {
            return Err(Failure::NoDevice);
        };
        self.write(Change::Unplug(device))?;
        self.devices.remove1(&serial);
        self.is_open = true;
        Ok(device)
    }

    /// Puts one line for each device in the place of all lines.
    pub fn compact(&mut self) -> Result<(), Failure>
        ensures same_devices { self.new.devices ≡ self.old.devices }
        ensures was_open { OnOk result (self.old.is_open ≡ true) }
        ensures same_lines { OnErr result (L.kept self.new.log ≡ L.kept self.old.log) }
    {
        self.look()?;
        let lines = write_all(self.alloc, &self.devices)?;
        let len = lines.len();
        self.log.replace(lines)?;
        self.len = len;
        Ok(())
    }

    /// Reads the bytes of the log.
    pub fn read(&self) -> io::Result<Vec<u8>>
        ensures { IfOk result (λ bytes. IfSome (L.kept self.now.log) (λ here. bytes.items ≡ here)) }
    {
        self.log.read(self.alloc)
    }

    /// The devices.
    pub fn devices(&self) -> &BiHashMap<Device>
        ensures { result.now ≡ self.now.devices }
    {
        &self.devices
    }

    /// Puts these bytes behind the first `at` of the log, as a crash or another program may, and opens it again.
    pub fn crash(&mut self, at: usize, bytes: &[u8]) -> Result<usize, Failure> {
        self.is_open = false;
        self.log.write(at, bytes)?;
        self.open()
    }
}
