//! A site with its people and its devices, as JSON objects: each person under their name, and each device under its serial
//! number. So no name stands under another, and none stands twice.
ghost use Rattle.std.specs.Prelude.{◌≡◌, Some, [], string_bytes, IfOk};
ghost use Rattle.iddqd_bi.specs.Map.{bag};
ghost use Rattle.iddqd_serde.specs.Entries.{entries};
ghost use Rattle.serde.specs.Event.{Log, WritesMap};
ghost use Rattle.serde_json.specs.Sent.{IsTextOf};

use crate::hub::Device;
use crate::team::User;
use iddqd_bi::BiHashMap;
use iddqd_id::IdHashMap;
use iddqd_serde::as_map::AsMap;
use serde::{Described, Deserialize, Serialize};
use serde_json::{Error, Value};
use std::alloc::Global;

/// A site. In JSON its people and its devices are objects.
#[derive(Drop, Serialize, Deserialize)]
pub struct Site {
    #[serde(with = "iddqd_serde::as_map")]
    pub people: IdHashMap<User>,
    #[serde(with = "iddqd_serde::as_map")]
    pub devices: BiHashMap<Device>,
}

/// Reads a site. If a person stands under another name, or a device under another serial number, the error has the line and
/// the column of that name or number. If two of them have an equal key, it has those at which the second ends.
pub fn read_site(alloc: Global, text: &[u8]) -> Result<Site, Error> {
    serde_json::from_slice(alloc, text)
}

/// Reads any value from a text and then a site from the value, as a program does that looks at a part first.
pub fn site_from_value(alloc: Global, text: &[u8]) -> Result<Site, Error> {
    let value: Value = serde_json::from_slice(alloc, text)?;
    serde_json::from_value(alloc, value)
}

/// Writes a site.
pub fn write_site(alloc: Global, site: &Site) -> Result<String, Error> {
    serde_json::to_string(alloc, site)
}

/// Reads devices from an object, as those of a site are read.
pub fn read_numbered(alloc: Global, text: &[u8]) -> Result<AsMap<BiHashMap<Device>>, Error> {
    serde_json::from_slice(alloc, text)
}

/// Writes devices as an object, each once, and each under its serial number.
pub fn write_numbered(alloc: Global, devices: &AsMap<BiHashMap<Device>>) -> Result<String, Error>
    ensures { IfOk result (λ text. (log : Log)
        × WritesMap ⟦<u64 as Described>⟧.writes ⟦<Device as Described>⟧.writes
        (entries (λ d. d.serial) (bag devices.now.0)) (Some []) log
        × IsTextOf log (string_bytes text)) }
{
    serde_json::to_string(alloc, devices)
}
