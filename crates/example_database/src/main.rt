//! Reads lines `SERIAL PORT LABEL` into a table of a database in memory, which lets any two rows have the same serial number
//! and the same port. At an empty line and at the end of the input it loads the table into an empty map, by serial numbers, and
//! prints one of
//!
//!     loaded N                       all its N rows were inserted
//!     row N: duplicate SERIAL PORT LABEL
//!                                    its row N, counted from 1, has a key of a row before it; nothing was inserted
//!     row N: no memory               there was no memory for its row N, and nothing was inserted
//!
//! An empty line also removes the rows from the table. Any other line, also one that is not UTF-8, is answered by `bad line`, and the
//! table keeps its rows.
#![tactic(auto)]

mod devices;

use crate::devices::{Device, NotLoaded, clear, load, store};
use iddqd_bi::BiHashMap;
use sqlite::{Connection, Error, MemStore};
use std::alloc::{AllocError, Global};
use std::io;
use std::io::BufRead;

/// Returns the device of a line, if it is one.
fn parse(alloc: Global, line: &str) -> Result<Option<Device>, AllocError> {
    let words: Vec<&str> = line.split_whitespace().collect(alloc)?;
    let [serial, port, label] = words.as_slice() else {
        return Ok(None);
    };
    let Ok(serial) = serial.parse::<i64>() else {
        return Ok(None);
    };
    let Ok(port) = port.parse::<i64>() else {
        return Ok(None);
    };
    Ok(Some(Device {
        serial,
        port,
        label: String::from_str(alloc, label)?,
    }))
}

/// Makes a database with an empty table.
fn open(alloc: Global) -> Result<Connection<MemStore>, Error> {
    let mut conn = Connection::open_in_memory(alloc)?;
    conn.execute_batch("CREATE TABLE device (serial INTEGER, port INTEGER, label TEXT) STRICT")?;
    Ok(conn)
}

/// Loads the table, and prints the outcome.
fn answer(rt: &(impl Print + AllocGlobal), conn: &mut Connection<MemStore>) -> io::Result<()> {
    let mut devices = BiHashMap::new(rt.alloc());
    let loaded = load(rt.alloc(), conn, &mut devices);
    tell(rt, loaded)
}

/// Prints the outcome of a load.
fn tell(rt: &impl Print, loaded: Result<usize, NotLoaded>) -> io::Result<()> {
    match loaded {
        Ok(count) => println!(rt; "loaded {count}"),
        Err(NotLoaded::Row(rejected)) => {
            let row = rejected.index.saturating_add(1);
            let device = rejected.item;
            if rejected.serial_taken || rejected.port_taken {
                println!(rt;
                    "row {row}: duplicate {} {} {}",
                    device.serial, device.port, device.label
                )
            } else {
                println!(rt; "row {row}: no memory")
            }
        }
        Err(NotLoaded::Database(_)) => rt.println("the database cannot be read"),
        Err(NotLoaded::Memory) => rt.println("no memory"),
    }
}

/// Writes the device of a line into the table.
fn take_line(
    rt: &(impl Print + AllocGlobal),
    conn: &mut Connection<MemStore>,
    line: &[u8],
) -> io::Result<()> {
    let Ok(line) = str::from_utf8(line) else {
        return rt.println("bad line");
    };
    match parse(rt.alloc(), line)? {
        Some(device) => match store(conn, &device) {
            Ok(_) => Ok(()),
            Err(_) => rt.println("not stored"),
        },
        None => rt.println("bad line"),
    }
}

fn main(rt: HostRuntime) -> io::Result<()> {
    let alloc = rt.alloc();
    let Ok(mut conn) = open(alloc) else {
        return rt.println("no database");
    };
    for line in rt.reader().split(alloc, b'\n') {
        let line = line?;
        let line = line.strip_suffix(b"\r").unwrap_or(line.as_slice());
        if !line.is_empty() {
            take_line(&rt, &mut conn, line)?;
        } else {
            answer(&rt, &mut conn)?;
            if clear(&mut conn).is_err() {
                rt.println("not cleared")?;
            }
        }
    }
    answer(&rt, &mut conn)
}
