//! Devices, the changes of a registry of them, and the lines of these changes in a journal.
ghost use Rattle.std.specs.Prelude.{◌≡◌, ◌≤◌, ◌++◌, true, false, List, [], ℕ, length, take, drop, flat_map, IfOk, IfSome, string_bytes};
ghost use Rattle.std.specs.List.{AllByRecursion};
ghost use Rattle.iddqd_bi.specs.Map.{bag};
ghost use Rattle.example_journal.specs.Changes.{Begins, InRange, IsTorn, Leads, Makes, Tells, line_of};
ghost use Rattle.example_journal.specs.declared.changes.Device.{Device};
ghost use Rattle.example_journal.specs.declared.changes.Change.{Change};

use crate::registry::Failure;
use iddqd_bi::{BiHashItem, BiHashMap};
use std::alloc::Global;
use std::io;

/// A device, known by its serial number and by the port that it is plugged into.
#[derive(Clone, Copy)]
pub struct Device {
    pub serial: u64,
    pub port: u16,
}

impl BiHashItem for Device {
    type K1 = u64;

    type K2 = u16;

    ghost key1 = { λ d. d.serial };

    ghost key2 = { λ d. d.port };

    fn key1(&self) -> &u64 {
        &self.serial
    }

    fn key2(&self) -> &u16 {
        &self.port
    }
}

/// A change of the registry.
#[derive(Clone, Copy)]
pub enum Change {
    Plug(Device),
    Unplug(Device),
}

/// Returns the line of a change, with its end.
pub fn write_line(alloc: Global, change: Change) -> io::Result<String>
    ensures line { IfOk result (λ line. string_bytes line ≡ line_of change) }
    ensures in_range { InRange change }
{
    Ok(match change {
        Change::Plug(Device { serial, port }) => format!(in alloc; "plug {serial} {port}\n")?,
        Change::Unplug(Device { serial, port }) => format!(in alloc; "unplug {serial} {port}\n")?,
    })
}

/// Returns the change that a line may be that of: which other text the line has is not looked at.
fn parse(line: &[u8]) -> Option<Change> {
    let mut words = str::from_utf8(line).ok()?.split_whitespace();
    let word = words.next()?;
    let serial = words.next()?.parse().ok()?;
    let port = words.next()?.parse().ok()?;
    Some(match word {
        "plug" => Change::Plug(Device { serial, port }),
        _ => Change::Unplug(Device { serial, port }),
    })
}

/// Returns the change whose line this is, letter by letter, if there is one.
fn read_line(alloc: Global, line: &[u8]) -> io::Result<Option<Change>>
    ensures { IfOk result (λ read. IfSome read (λ change. (line.now ≡ line_of change) × InRange change)) }
{
    let Some(change) = parse(line) else {
        return Ok(None);
    };
    if write_line(alloc, change)?.as_bytes() != line {
        return Ok(None);
    }
    Ok(Some(change))
}

/// Makes the change whose line this is, letter by letter, and returns whether there is one that can be made.
fn make(alloc: Global, devices: &mut BiHashMap<Device>, line: &[u8]) -> io::Result<bool>
    ensures { IfOk result (λ made. made ≡ true → (change : Change) × (line.now ≡ line_of change) × InRange change
        × Makes (bag devices.old) change (bag devices.new)) }
{
    let Some(change) = read_line(alloc, line)? else {
        return Ok(false);
    };
    match change {
        Change::Plug(device) => {
            devices.reserve(1)?;
            Ok(devices.try_insert(device).is_ok())
        }
        Change::Unplug(device) => match devices.remove1(&device.serial) {
            Some(gone) => Ok(gone.port == device.port),
            None => Ok(false),
        },
    }
}

/// What makes a line of its first bytes: the rest of the word, and a number for each that is not there. Where a part of a number
/// is there, no digit has to follow.
const ENDING: &[u8] = b"unplug 0 0\n";

/// Returns whether these bytes can be the first ones of a line: whether they and the last bytes of `ENDING` are a line.
fn begins_line(alloc: Global, bytes: &[u8]) -> io::Result<bool>
    ensures { IfOk result (λ begins. begins ≡ true → Begins bytes.now) }
{
    for at in 0..ENDING.len() {
        let mut line = bytes.to_vec(alloc)?;
        line.extend_from_slice(&ENDING[at..])?;
        if read_line(alloc, line.as_slice())?.is_some() {
            return Ok(true);
        }
    }
    Ok(false)
}

/// Loads the devices that the lines of a journal leave, and returns how long these lines are. Behind them is a torn
/// line: the first bytes of a line, without its end.
pub fn load(alloc: Global, bytes: &[u8]) -> Result<(BiHashMap<Device>, usize), Failure>
    ensures { IfOk result (λ r. (r.1 ≤ length bytes.now) × IsTorn (drop r.1 bytes.now)
        × Tells (take r.1 bytes.now) (bag r.0)) }
{
    // The first line plugs a device in. A text that does not begin so, nor is a part of such a line, is no journal.
    if !bytes.starts_with(b"plug ") && !b"plug ".starts_with(bytes) {
        return Err(Failure::Damaged(0));
    }
    let mut devices = BiHashMap::new(alloc);
    let mut at = 0;
    while bytes[at..].contains(&b'\n') {
        let rest = &bytes[at..];
        let end = rest.iter().position(|byte| *byte == b'\n').unwrap_or(0);
        let (line, _) = rest.split_at(end + 1);
        if !make(alloc, &mut devices, line)? {
            return Err(Failure::Damaged(at));
        }
        at += line.len();
    }
    if !begins_line(alloc, &bytes[at..])? {
        return Err(Failure::Damaged(at));
    }
    Ok((devices, at))
}

/// Returns the lines of changes that leave these devices: one for each.
pub fn write_all(alloc: Global, devices: &BiHashMap<Device>) -> io::Result<Vec<u8>>
    ensures { IfOk result (λ lines. Tells lines.items (bag devices.now)) }
{
    let mut lines = Vec::new(alloc);
    for device in devices {
        lines.extend_from_slice(write_line(alloc, Change::Plug(*device))?.as_bytes())?;
    }
    Ok(lines)
}

/// Wherever a crash cuts the lines of changes, `open` loads what the first of these changes leave, and none in part. That a
/// crash leaves the first bytes, and no zeros among them, is taken for granted: see `Log`.
pub fn cut_anywhere()
    ensures { (changes : List Change) (at : ℕ) (lines torn : List ℕ) (devices : List Device) → AllByRecursion InRange changes
        → take at (flat_map line_of changes) ≡ lines ++ torn → Tells lines devices
        → (n : ℕ) × (lines ≡ flat_map line_of (take n changes)) × Leads [] (take n changes) devices }
{}
