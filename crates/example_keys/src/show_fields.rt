//! Keys that are fields of an item: puts items into maps, finds some of them, and prints what it finds.
use crate::disks::{Disk, DiskIdentity, in_slot};
use crate::hosts::{Host, HostName};
use crate::links::{Link, with_path, with_peer};
use crate::racks::{Machine, Rack, put_in, take_out};
use crate::services::{Note, Service, at_place, named, offer, tagged};
use crate::sleds::{Sled, make_busy, note};
use crate::updates::{Board, Update, begin, of_board};
use crate::words::{Word, add_all};
use crate::zones::{TypedUuid, Zone, ZoneKind, identified, start};
use crate::{disks, hosts, sleds, words};
use iddqd_bi::BiHashMap;
use std::alloc::Global;
use std::net::{Ipv4Addr, SocketAddrV4};
use std::path::PathBuf;
use std::sync::Arc;
use uuid::Uuid;

fn use_disks(rt: &impl Print, alloc: Global, disks: &mut BiHashMap<Disk>) -> anyhow::Result<()> {
    let vendor = "maker".to_string(alloc)?;
    let serial = "s1".to_string(alloc)?;
    let identity = DiskIdentity { vendor, serial };
    disks::add(disks, Disk::Synthetic { identity, slot: 4 })?;
    println!(rt; "disk in slot 4: {}", in_slot(disks, 4).is_some())?;
    Ok(())
}

fn show_disks(rt: &impl Print, alloc: Global) -> anyhow::Result<()> {
    let mut disks = BiHashMap::new(alloc);
    use_disks(rt, alloc, &mut disks)
}

fn use_hosts(rt: &impl Print, alloc: Global, hosts: &mut BiHashMap<Host>) -> anyhow::Result<()> {
    let name = HostName::new("Host.Example".to_string(alloc)?);
    let shown = "Host.Example".to_string(alloc)?;
    hosts::add(
        hosts,
        Host {
            name,
            address: 1,
            shown,
        },
    )?;
    let asked = HostName::new("HOST.example".to_string(alloc)?);
    if let Some(host) = hosts::named(hosts, &asked) {
        println!(rt; "HOST.example: {}", host.shown)?;
    }
    Ok(())
}

fn show_hosts(rt: &impl Print, alloc: Global) -> anyhow::Result<()> {
    let mut hosts = BiHashMap::new(alloc);
    use_hosts(rt, alloc, &mut hosts)
}

fn use_links(rt: &impl Print, alloc: Global, links: &mut BiHashMap<Link>) -> anyhow::Result<()> {
    let path = PathBuf::from_str(alloc, "/net/a")?;
    let asked = PathBuf::from_str(alloc, "/net/a")?;
    let peer = SocketAddrV4::new(Ipv4Addr::new(10, 0, 0, 1), 80);
    crate::links::open(links, Link { path, peer })?;
    let found = with_path(links, &asked).is_some();
    println!(rt;
        "link with peer: {}, with path: {found}",
        with_peer(links, peer).is_some()
    )?;
    Ok(())
}

fn show_links(rt: &impl Print, alloc: Global) -> anyhow::Result<()> {
    let mut links = BiHashMap::new(alloc);
    use_links(rt, alloc, &mut links)
}

fn use_racks(rt: &impl Print, alloc: Global, racks: &mut BiHashMap<Rack>) -> anyhow::Result<()> {
    racks.try_insert(Rack {
        number: 1,
        row: 2,
        machines: BiHashMap::new(alloc),
    })?;
    let put = put_in(
        racks,
        1,
        Machine {
            number: 9,
            place: 3,
        },
    )?;
    let absent = put_in(
        racks,
        5,
        Machine {
            number: 9,
            place: 3,
        },
    )?;
    let taken = take_out(racks, 1, 9).is_some();
    println!(rt; "machine in rack 1: {put}, in rack 5: {absent}, taken: {taken}")?;
    Ok(())
}

fn show_racks(rt: &impl Print, alloc: Global) -> anyhow::Result<()> {
    let mut racks = BiHashMap::new(alloc);
    use_racks(rt, alloc, &mut racks)
}

fn use_services(
    rt: &impl Print,
    alloc: Global,
    services: &mut BiHashMap<Service>,
) -> anyhow::Result<()> {
    let place = ("a".to_string(alloc)?, "http".to_string(alloc)?, 80);
    offer(
        services,
        Service {
            name: Some("web".to_string(alloc)?),
            place,
        },
    )?;
    let found = named(services, "web").is_some();
    println!(rt;
        "service web: {found}, at a: {}",
        at_place(services, "a", "http", 80).is_some()
    )?;
    Ok(())
}

fn show_services(rt: &impl Print, alloc: Global) -> anyhow::Result<()> {
    let mut services = BiHashMap::new(alloc);
    use_services(rt, alloc, &mut services)
}

fn use_notes(rt: &impl Print, alloc: Global, notes: &mut BiHashMap<Note>) -> anyhow::Result<()> {
    let tags = Vec::from_array(alloc, ["red".to_string(alloc)?, "new".to_string(alloc)?])?;
    notes.try_insert(Note { tags, number: 1 })?;
    let found = tagged(notes, &["red", "new"]).is_some();
    println!(rt;
        "note with tags: {found}, with others: {}",
        tagged(notes, &["red"]).is_some()
    )?;
    Ok(())
}

fn show_notes(rt: &impl Print, alloc: Global) -> anyhow::Result<()> {
    let mut notes = BiHashMap::new(alloc);
    use_notes(rt, alloc, &mut notes)
}

fn use_sleds(
    rt: &impl Print,
    alloc: Global,
    all: &mut BiHashMap<Arc<Sled>>,
    busy: &mut BiHashMap<Arc<Sled>>,
) -> anyhow::Result<()> {
    note(
        all,
        Arc::new(
            alloc,
            Sled {
                serial: 100,
                slot: 1,
            },
        )?,
    )?;
    note(
        all,
        Arc::new(
            alloc,
            Sled {
                serial: 200,
                slot: 2,
            },
        )?,
    )?;
    let made = make_busy(all, busy, 2)?;
    let found = sleds::in_slot(busy, 2).is_some();
    println!(rt; "busy: {made}, {found}, {} of {}", busy.len(), all.len())?;
    Ok(())
}

fn show_sleds(rt: &impl Print, alloc: Global) -> anyhow::Result<()> {
    let mut all = BiHashMap::new(alloc);
    let mut busy = BiHashMap::new(alloc);
    use_sleds(rt, alloc, &mut all, &mut busy)
}

fn board_of(alloc: Global, serial: &str) -> anyhow::Result<Board> {
    let part = "p1".to_string(alloc)?;
    Ok(Board {
        part,
        serial: serial.to_string(alloc)?,
    })
}

fn use_updates(
    rt: &impl Print,
    alloc: Global,
    updates: &mut BiHashMap<Update>,
) -> anyhow::Result<()> {
    let board = Arc::new(alloc, board_of(alloc, "s1")?)?;
    begin(updates, Update { board, order: 1 })?;
    let asked = board_of(alloc, "s1")?;
    println!(rt;
        "update of board s1: {}",
        of_board(updates, &asked).is_some()
    )?;
    Ok(())
}

fn show_updates(rt: &impl Print, alloc: Global) -> anyhow::Result<()> {
    let mut updates = BiHashMap::new(alloc);
    use_updates(rt, alloc, &mut updates)
}

fn use_words<'t>(
    rt: &impl Print,
    words: &mut BiHashMap<Word<'t>>,
    text: &'t str,
) -> anyhow::Result<()> {
    add_all(words, text).map_err(|_refused| anyhow::anyhow!("no memory"))?;
    if let Some(word) = words::find(words, "two") {
        println!(rt; "two is word {} of {}", word.number, words.len())?;
    }
    Ok(())
}

fn show_words(rt: &impl Print, alloc: Global) -> anyhow::Result<()> {
    let mut words = BiHashMap::new(alloc);
    use_words(rt, &mut words, "one two one three")
}

fn use_zones(rt: &impl Print, zones: &mut BiHashMap<Zone>) -> anyhow::Result<()> {
    let id = TypedUuid::<ZoneKind>::new(Uuid::from_u128(7));
    start(zones, Zone { id, number: 1 })?;
    let found = identified(zones, TypedUuid::new(Uuid::from_u128(7))).is_some();
    println!(rt; "zone of the identifier: {found}")?;
    Ok(())
}

fn show_zones(rt: &impl Print, alloc: Global) -> anyhow::Result<()> {
    let mut zones = BiHashMap::new(alloc);
    use_zones(rt, &mut zones)
}

/// Shows the kinds of keys that are fields.
pub fn show_fields(rt: &impl Print, alloc: Global) -> anyhow::Result<()> {
    show_disks(rt, alloc)?;
    show_updates(rt, alloc)?;
    show_zones(rt, alloc)?;
    show_sleds(rt, alloc)?;
    show_links(rt, alloc)?;
    show_services(rt, alloc)?;
    show_notes(rt, alloc)?;
    show_hosts(rt, alloc)?;
    show_words(rt, alloc)?;
    show_racks(rt, alloc)
}
