//! A hub with its devices, as JSON. Two devices of a hub never have an equal serial number or an equal port.
ghost use Rattle.std.specs.Prelude.{◌≡◌, Some, [], string_bytes, IfOk};
ghost use Rattle.iddqd_bi.specs.Map.{bag};
ghost use Rattle.serde.specs.Event.{Log, WritesSeq};
ghost use Rattle.serde_json.specs.Sent.{IsTextOf};

use iddqd_bi::{BiHashItem, BiHashMap};
use iddqd_serde::Seq;
use serde::{Described, Deserialize, Serialize};
use serde_json::Error;
use std::alloc::Global;

/// A device, known by its serial number and by the port that it is plugged into.
#[derive(Drop, Serialize, Deserialize)]
pub struct Device {
    pub serial: u64,
    pub port: u16,
    pub label: String,
}

impl BiHashItem for Device {
    type K1 = u64;

    type K2 = u16;

    ghost key1 = { λ d. d.serial };

    ghost key2 = { λ d. d.port };

    fn key1(&self) -> &u64 {
        &self.serial
    }

    fn key2(&self) -> &u16 {
        &self.port
    }
}

/// A hub. In JSON its devices are a list.
#[derive(Drop, Serialize, Deserialize)]
pub struct Hub {
    pub name: String,
    #[serde(with = "iddqd_serde")]
    pub devices: BiHashMap<Device>,
}

/// Reads a hub. If two of its devices have an equal key, the error has the line and the column at which the second ends.
pub fn read_hub(alloc: Global, text: &[u8]) -> Result<Hub, Error> {
    serde_json::from_slice(alloc, text)
}

/// Writes a hub.
pub fn write_hub(alloc: Global, hub: &Hub) -> Result<String, Error> {
    serde_json::to_string(alloc, hub)
}

/// Reads devices from a list. Two devices with an equal key are an error, as for a hub.
pub fn read_devices(alloc: Global, text: &[u8]) -> Result<Seq<BiHashMap<Device>>, Error> {
    serde_json::from_slice(alloc, text)
}

/// Writes devices as a list, each once.
pub fn write_devices(alloc: Global, devices: &Seq<BiHashMap<Device>>) -> Result<String, Error>
    ensures { IfOk result (λ text. (log : Log)
        × WritesSeq ⟦<Device as Described>⟧.writes (bag devices.now.0) (Some []) log
        × IsTextOf log (string_bytes text)) }
{
    serde_json::to_string(alloc, devices)
}
