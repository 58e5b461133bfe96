//! Reads lines about devices, of which at most three are plugged in at a time, and answers each.
//!
//!     plug SERIAL PORT    plugged in | serial taken | port taken | full
//!     unplug SERIAL       unplugged from PORT | none
//!     port PORT           serial SERIAL | none
//!     serial SERIAL       port PORT | none
//!     move SERIAL PORT    moved from PORT | no device | port taken
//!     count               how many are plugged in
//!
//! Any other line is answered by `bad line`, also one that is not UTF-8.
#![tactic(auto)]

mod devices;

use crate::devices::{
    Device, MoveError, PlugError, at_port, by_serial, move_to, plug_in, unplug, with_limit,
};
use iddqd_bi::BiHashMap;
use std::io;
use std::io::BufRead;

const LIMIT: usize = 3;

/// What a line asks for.
enum Command {
    Plug(Device),
    Unplug(u64),
    Port(u16),
    Serial(u64),
    Move(u64, u16),
    Count,
}

/// Returns what the words of a line ask for, if they ask for anything.
fn parse(words: &[&str]) -> Option<Command> {
    Some(match words {
        ["plug", serial, port] => Command::Plug(Device {
            serial: serial.parse().ok()?,
            port: port.parse().ok()?,
        }),
        ["unplug", serial] => Command::Unplug(serial.parse().ok()?),
        ["port", port] => Command::Port(port.parse().ok()?),
        ["serial", serial] => Command::Serial(serial.parse().ok()?),
        ["move", serial, port] => Command::Move(serial.parse().ok()?, port.parse().ok()?),
        ["count"] => Command::Count,
        _ => return None,
    })
}

/// Carries out a command, and prints the answer.
fn answer(rt: &impl Print, devices: &mut BiHashMap<Device>, command: Command) -> io::Result<()> {
    match command {
        Command::Plug(device) => rt.println(match plug_in(devices, device) {
            Ok(()) => "plugged in",
            Err(PlugError::SerialTaken) => "serial taken",
            Err(PlugError::PortTaken) => "port taken",
            Err(PlugError::Full) => "full",
        }),
        Command::Unplug(serial) => match unplug(devices, serial) {
            Some(device) => println!(rt; "unplugged from {}", device.port),
            None => rt.println("none"),
        },
        Command::Port(port) => match at_port(devices, port) {
            Some(device) => println!(rt; "serial {}", device.serial),
            None => rt.println("none"),
        },
        Command::Serial(serial) => match by_serial(devices, serial) {
            Some(device) => println!(rt; "port {}", device.port),
            None => rt.println("none"),
        },
        Command::Move(serial, port) => match move_to(devices, serial, port) {
            Ok(had) => println!(rt; "moved from {had}"),
            Err(MoveError::NoDevice) => rt.println("no device"),
            Err(MoveError::PortTaken) => rt.println("port taken"),
        },
        Command::Count => println!(rt; "{}", devices.len()),
    }
}

/// Carries out the command of a line, and prints the answer.
fn answer_line(
    rt: &(impl Print + AllocGlobal),
    devices: &mut BiHashMap<Device>,
    line: &[u8],
) -> io::Result<()> {
    let Ok(line) = str::from_utf8(line) else {
        return rt.println("bad line");
    };
    let words: Vec<&str> = line.split_whitespace().collect(rt.alloc())?;
    match parse(words.as_slice()) {
        Some(command) => answer(rt, devices, command),
        None => rt.println("bad line"),
    }
}

/// Answers each line of the input.
fn answer_lines(
    rt: &(impl Print + Input + AllocGlobal),
    devices: &mut BiHashMap<Device>,
) -> io::Result<()> {
    for line in rt.reader().split(rt.alloc(), b'\n') {
        answer_line(rt, devices, line?.as_slice())?;
    }
    Ok(())
}

fn main(rt: HostRuntime) -> io::Result<()> {
    let mut devices = with_limit(rt.alloc(), LIMIT)?;
    answer_lines(&rt, &mut devices)
}
