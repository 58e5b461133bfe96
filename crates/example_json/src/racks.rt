//! A rack with cables and devices, as JSON: a map with three keys, and one with two.
use crate::hub::Device;
use iddqd_bi::BiHashMap;
use iddqd_tri::{TriHashItem, TriHashMap};
use serde::{Deserialize, Serialize};
use serde_json::{Error, Value};
use std::alloc::Global;

/// A cable, known by its number and by the port at each of its ends.
#[derive(Drop, Serialize, Deserialize)]
pub struct Cable {
    pub number: u64,
    pub from: u16,
    pub to: u16,
}

impl TriHashItem for Cable {
    type K1 = u64;

    type K2 = u16;

    type K3 = u16;

    ghost key1 = { λ c. c.number };

    ghost key2 = { λ c. c.from };

    ghost key3 = { λ c. c.to };

    fn key1(&self) -> &u64 {
        &self.number
    }

    fn key2(&self) -> &u16 {
        &self.from
    }

    fn key3(&self) -> &u16 {
        &self.to
    }
}

/// A rack. In JSON its cables and its devices are lists.
#[derive(Drop, Serialize, Deserialize)]
pub struct Rack {
    #[serde(with = "iddqd_serde")]
    pub cables: TriHashMap<Cable>,
    #[serde(with = "iddqd_serde")]
    pub devices: BiHashMap<Device>,
}

/// Reads a rack from its text, and writes it anew.
pub fn rewritten(alloc: Global, text: &[u8]) -> Result<String, Error> {
    let rack: Rack = serde_json::from_slice(alloc, text)?;
    serde_json::to_string(alloc, &rack)
}

/// Reads any value from its text and then a rack from the value, as a program does that looks at a part first, and writes it
/// anew.
pub fn rewritten_from_value(alloc: Global, text: &[u8]) -> Result<String, Error> {
    let value: Value = serde_json::from_slice(alloc, text)?;
    let rack: Rack = serde_json::from_value(alloc, value)?;
    serde_json::to_string(alloc, &rack)
}
