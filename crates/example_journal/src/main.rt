//! A registry of devices that outlives its process: each change is a line of a journal, which is written and synced before
//! the registry changes. With an argument the journal is the file of that name, and otherwise it is kept in memory.
//!
//!     plug SERIAL PORT    plugged in | taken
//!     unplug SERIAL       unplugged from PORT | none
//!     list                each device as SERIAL PORT, by the serial numbers, and `end`
//!     journal             the bytes of the journal, as a TEXT
//!     compact             compacted
//!     copy NAME           writes these bytes to a new file of that name: copied
//!     crash N [TEXT]      puts TEXT behind the first N bytes of the journal, and opens it again: as `open`
//!     room N              from now on the disk has room for N more bytes: set
//!     reads N             from now on the disk can be read N more times: set
//!     open                opens the journal again, as at the start: opened, N torn bytes cut off | damaged at byte N
//!
//! In a TEXT, which is one word, `_` is a space, `/` the end of a line, and `?` a byte 0. A command may be answered by `failed` and
//! why. If nobody knows what the journal has, or it did not open, it is closed: a change is answered by `closed` then.
//!
//! Beside a journal in the file NAME, `compact` makes the file NAME.new, and then gives it the name NAME. If there is a NAME.new,
//! `compact` is answered by `failed: File exists ..`, and both files stay as they are. If NAME is a link, `compact` replaces the link
//! by the new file, and the file behind it keeps the old lines.
//!
//! One process at a time may have the journal. A change looks first whether the file is as long as the registry left it, and is
//! answered by `closed` if another process has made it longer or shorter, or has taken it away; `open` loads what is there then. A
//! change of another process that falls between this look and the line is not seen.
#![tactic(auto)]

mod changes;
mod log;
mod registry;

use crate::changes::Device;
use crate::log::{Disk, FileLog, Limited, Log, create};
use crate::registry::{Failure, Registry};
use iddqd_bi::BiHashMap;
use std::alloc::Global;
use std::cell::Cell;
use std::io::{BufRead, Read, Write};
use std::num::ParseIntError;
use std::str::FromStr;
use std::{env, io};

/// Returns the bytes that a TEXT stands for, or the TEXT that stands for these bytes.
fn swapped(alloc: Global, bytes: &[u8]) -> io::Result<Vec<u8>> {
    let swap = |byte: &u8| match *byte {
        b'_' => b' ',
        b' ' => b'_',
        b'/' => b'\n',
        b'\n' => b'/',
        b'?' => 0,
        0 => b'?',
        byte => byte,
    };
    Ok(bytes.iter().map(swap).collect(alloc)?)
}

/// Returns the number that a word is.
fn number<N: FromStr<Err = ParseIntError>>(word: &str) -> io::Result<N> {
    word.parse().map_err(|_| io::ErrorKind::InvalidInput.into())
}

/// Prints devices, by their serial numbers.
fn list(rt: &HostRuntime, devices: &BiHashMap<Device>) -> io::Result<()> {
    let mut sorted: Vec<Device> = devices.iter().copied().collect(rt.alloc())?;
    sorted.sort_by_key(|device| device.serial)?;
    for device in sorted.as_slice() {
        print!(rt; "{} {}, ", device.serial, device.port)?;
    }
    rt.println("end")
}

/// Carries out the command of these words, and prints the answer unless it fails.
fn answer<L: Log + Drop>(
    rt: &HostRuntime,
    registry: &mut Registry<L>,
    disk: &Disk,
    words: &[&str],
) -> Result<(), Failure> {
    Ok(match words {
        ["plug", serial, port] => {
            let (serial, port) = (number(serial)?, number(port)?);
            registry.plug_in(Device { serial, port })?;
            rt.println("plugged in")?
        }
        ["unplug", serial] => {
            let device = registry.unplug(number(serial)?)?;
            println!(rt; "unplugged from {}", device.port)?
        }
        ["list"] => list(rt, registry.devices())?,
        ["journal"] => {
            io::writer(rt).write_all(swapped(rt.alloc(), registry.read()?.as_slice())?.as_slice())?;
            rt.println("")?
        }
        ["compact"] => {
            registry.compact()?;
            rt.println("compacted")?
        }
        ["copy", name] => {
            create(rt, name, registry.read()?.as_slice())?;
            rt.println("copied")?
        }
        ["crash", len, text @ ..] => {
            let text = swapped(rt.alloc(), text.first().copied().unwrap_or("").as_bytes())?;
            let torn = registry.crash(number(len)?, text.as_slice())?;
            println!(rt; "opened, {torn} torn bytes cut off")?
        }
        ["open"] => println!(rt; "opened, {} torn bytes cut off", registry.open()?)?,
        ["room", len] => {
            disk.room.set(number(len)?);
            rt.println("set")?
        }
        ["reads", count] => {
            disk.reads.set(number(count)?);
            rt.println("set")?
        }
        _ => rt.println("bad line")?,
    })
}

/// Opens the journal in this log, and answers each line of the input.
fn serve<L: Log + Drop>(rt: &HostRuntime, log: L) -> io::Result<()> {
    let alloc = rt.alloc();
    let disk = Disk {
        room: Cell::new(usize::MAX),
        reads: Cell::new(usize::MAX),
    };
    let mut registry = Registry::new(alloc, Limited { log, disk: &disk });
    for line in b"open\n".as_slice().chain(rt.reader()).split(alloc, b'\n') {
        let line = line?;
        let text = str::from_utf8(line.as_slice()).unwrap_or("");
        let words: Vec<&str> = text.split_whitespace().collect(alloc)?;
        match answer(rt, &mut registry, &disk, words.as_slice()) {
            Ok(()) => {}
            Err(Failure::Taken) => rt.println("taken")?,
            Err(Failure::NoDevice) => rt.println("none")?,
            Err(Failure::Closed) => rt.println("closed")?,
            Err(Failure::Damaged(at)) => println!(rt; "damaged at byte {at}")?,
            Err(Failure::Log(error)) => println!(rt; "failed: {error}")?,
        }
    }
    Ok(())
}

fn main(rt: HostRuntime) -> io::Result<()> {
    match env::args(&rt)?.nth(1) {
        Some(path) => serve(&rt, FileLog { rt: &rt, path }),
        None => serve(&rt, Vec::new(rt.alloc())),
    }
}
