//! Reads lines of JSON, and writes what it read. A line is a hub with devices, a list of devices, a rack with cables and devices, a
//! team of users, a site of people and devices, or devices under their serial numbers:
//!
//!     {"name":"attic","devices":[{"serial":1,"port":2,"label":"lamp"}]}
//!     [{"serial":1,"port":2,"label":"lamp"}]
//!     {"cables":[{"number":1,"from":2,"to":3}],"devices":[]}
//!     {"users":[{"name":"ada","seen":1}]}
//!     {"people":{"ada":{"name":"ada","seen":1}},"devices":{}}
//!     {"1":{"serial":1,"port":2,"label":"lamp"}}
//!
//! It answers each line by the same hub, devices, rack, team or site, in the order of their maps, or else by `not read: MESSAGE`. The message
//! has the line and the column of the text that was refused, but for a rack that is read from a value. The line is 1, since each text
//! is one line. A rack is read twice, and answered twice: from its text, and from a value that was read from the text. A line that is not
//! UTF-8 is not read either.
#![tactic(auto)]

mod hub;
mod racks;
mod site;
mod team;

use crate::hub::{read_devices, read_hub, write_devices, write_hub};
use crate::racks::{rewritten, rewritten_from_value};
use crate::site::{read_numbered, read_site, site_from_value, write_numbered, write_site};
use crate::team::{read_team, write_team};
use serde_json::Error;
use std::alloc::Global;
use std::io;
use std::io::BufRead;

/// Reads a line, and writes it anew.
fn answer(alloc: Global, line: &[u8]) -> Result<String, Error> {
    if line.starts_with(b"[") {
        return write_devices(alloc, &read_devices(alloc, line)?);
    }
    if line.starts_with(b"{\"users\"") {
        return write_team(alloc, &read_team(alloc, line)?);
    }
    if line.starts_with(b"{\"people\"") {
        return write_site(alloc, &read_site(alloc, line)?);
    }
    if line.get(2).is_some_and(u8::is_ascii_digit) {
        return write_numbered(alloc, &read_numbered(alloc, line)?);
    }
    write_hub(alloc, &read_hub(alloc, line)?)
}

/// Reads a site from a value, and writes it anew.
fn site_written(alloc: Global, line: &[u8]) -> Result<String, Error> {
    write_site(alloc, &site_from_value(alloc, line)?)
}

/// Prints what was read of a line, or why it was not read.
fn show(rt: &impl Print, read: Result<String, Error>) -> io::Result<()> {
    match read {
        Ok(text) => println!(rt; "{text}"),
        Err(error) => println!(rt; "not read: {error}"),
    }
}

/// Answers a line.
fn answer_line(rt: &impl Print, alloc: Global, line: &[u8]) -> io::Result<()> {
    if line.starts_with(b"{\"people\"") {
        show(rt, answer(alloc, line))?;
        return show(rt, site_written(alloc, line));
    }
    if !line.starts_with(b"{\"cables\"") {
        return show(rt, answer(alloc, line));
    }
    show(rt, rewritten(alloc, line))?;
    show(rt, rewritten_from_value(alloc, line))
}

fn main(rt: HostRuntime) -> io::Result<()> {
    let alloc = rt.alloc();
    for line in rt.reader().split(alloc, b'\n') {
        answer_line(&rt, alloc, line?.as_slice())?;
    }
    Ok(())
}
