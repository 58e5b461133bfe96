//! Devices in a table of a database and in a map. The table is loaded as a whole, or not at all.
ghost use Rattle.std.specs.Prelude.{◌≡◌, ◌++◌, Some, take, slice_get, List, length, IsPermutation, IfOk, OnOk, OnErr, IfErr};
ghost use Rattle.std.specs.List.{list_any};
ghost use Rattle.iddqd_bi.specs.Bag.{IsSound};
ghost use Rattle.iddqd_bi.specs.Map.{bag};

use iddqd_bi::{BiHashItem, BiHashMap, Ranked};
use sqlite::{Alter, Connection, Error, Row, params};
use std::alloc::Global;

/// A device, known by its serial number and by the port that it is plugged into.
#[derive(Drop, Debug)]
pub struct Device {
    pub serial: i64,
    pub port: i64,
    pub label: String,
}

impl BiHashItem for Device {
    type K1 = i64;

    type K2 = i64;

    ghost key1 = { λ d. d.serial };

    ghost key2 = { λ d. d.port };

    fn key1(&self) -> &i64 {
        &self.serial
    }

    fn key2(&self) -> &i64 {
        &self.port
    }
}

/// Why a batch was not inserted: the device that was rejected, how many devices are before it in the batch, and which of
/// its keys one of these or of the map has. If none is taken, there was no memory.
#[derive(Drop)]
pub struct Rejected {
    pub item: Device,
    pub index: usize,
    pub serial_taken: bool,
    pub port_taken: bool,
}

/// Why a table was not loaded.
#[derive(Drop)]
pub enum NotLoaded {
    /// The database could not be read, or a row of it is no device.
    Database(Error),
    /// This row was rejected.
    Row(Rejected),
    /// There was no memory for the rows.
    Memory,
}

/// Lets `?` tell the row for which a table was rejected.
impl From<Rejected> for NotLoaded {
    fn from(rejected: Rejected) -> NotLoaded {
        NotLoaded::Row(rejected)
    }
}

/// Reads the rows of the table, by their serial numbers.
fn rows_of<S: Alter>(alloc: Global, conn: &mut Connection<S>) -> Result<Vec<Device>, NotLoaded> {
    let rows = match conn.query_all(
        "SELECT serial, port, label FROM device ORDER BY serial",
        &[],
    ) {
        Ok(rows) => rows,
        Err(error) => return Err(NotLoaded::Database(error)),
    };
    let mut devices = Vec::new(alloc);
    for row in rows {
        let device = match device_of(&row) {
            Ok(device) => device,
            Err(error) => return Err(NotLoaded::Database(error)),
        };
        if devices.push(device).is_err() {
            return Err(NotLoaded::Memory);
        }
    }
    Ok(devices)
}

/// Reads a device from a row.
fn device_of(row: &Row) -> Result<Device, Error> {
    let serial = row.get(0)?;
    let port = row.get(1)?;
    let label = row.get(2)?;
    Ok(Device {
        serial,
        port,
        label,
    })
}

/// Inserts a batch as a whole. If that fails, nothing is inserted, and the error says which device was rejected.
pub fn insert_all(devices: &mut BiHashMap<Device>, batch: Vec<Device>) -> Result<(), Rejected>
    ensures all { OnOk result (IsPermutation (bag devices.new) (batch.items ++ bag devices.old)) }
    ensures none { OnErr result (IsPermutation (bag devices.new) (bag devices.old)) }
    ensures which { IfErr result (λ e. slice_get batch.items e.index ≡ Some e.item) }
    ensures apart { IfErr result (λ e. IsSound ⟦<Device as Ranked>⟧.ranks (take e.index batch.items ++ bag devices.old)) }
    ensures serial_taken { IfErr result (λ e. e.serial_taken
        ≡ list_any (λ d. ⟦<i64 as PartialEq>⟧.eq e.item.serial d.serial) (take e.index batch.items ++ bag devices.old)) }
    ensures port_taken { IfErr result (λ e. e.port_taken
        ≡ list_any (λ d. ⟦<i64 as PartialEq>⟧.eq e.item.port d.port) (take e.index batch.items ++ bag devices.old)) }
{
    match devices.extend_unique(batch) {
        Ok(()) => Ok(()),
        Err(refused) => Err(Rejected {
            index: refused.before.len(),
            item: refused.item,
            serial_taken: refused.taken1,
            port_taken: refused.taken2,
        }),
    }
}

/// Loads the table, and returns how many rows it has. If one of them cannot be inserted, none is.
pub fn load<S: Alter>(
    alloc: Global,
    conn: &mut Connection<S>,
    devices: &mut BiHashMap<Device>,
) -> Result<usize, NotLoaded>
    ensures all { IfOk result (λ count. (batch : List Device) × (length batch ≡ count)
        × IsPermutation (bag devices.new) (batch ++ bag devices.old)) }
    ensures none { OnErr result (IsPermutation (bag devices.new) (bag devices.old)) }
{
    let batch = rows_of(alloc, conn)?;
    let count = batch.len();
    insert_all(devices, batch)?;
    Ok(count)
}

/// Writes a device into the table.
pub fn store<S: Alter>(conn: &mut Connection<S>, device: &Device) -> Result<usize, Error> {
    conn.execute(
        "INSERT INTO device (serial, port, label) VALUES (?1, ?2, ?3)",
        params![device.serial, device.port, &device.label],
    )
}

/// Removes all rows of the table.
pub fn clear<S: Alter>(conn: &mut Connection<S>) -> Result<usize, Error> {
    conn.execute("DELETE FROM device", &[])
}
