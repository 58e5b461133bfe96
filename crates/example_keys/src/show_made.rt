//! Keys that an item makes or lends: puts items into maps, finds some of them, and prints what it finds.
use crate::addresses::{External, Ports, give, with_ports};
use crate::artifacts::{Artifact, Entry, enter, versioned};
use crate::frames::{Frame, are_same, keep, numbered, take_from};
use crate::releases::{Listed, Release, find, list, withdraw};
use crate::tiles::{Tile, Tiles, lay, tile_at};
use iddqd_bi::{BiHashMap, WithMadeKeys};
use std::alloc::Global;
use std::net::{IpAddr, Ipv4Addr};

/// Keeps two frames, of which the second has this text.
fn keep_two(
    alloc: Global,
    frames: &mut BiHashMap<WithMadeKeys<Frame>>,
    text: &str,
) -> anyhow::Result<bool> {
    let first = keep(frames, Frame::new(7, 0x35, "first".to_string(alloc)?)).is_ok();
    let second = keep(frames, Frame::new(8, 0x42, text.to_string(alloc)?)).is_ok();
    Ok(first && second)
}

/// Finds a frame by its number, compares two maps whose frames have the same keys, and takes a frame by its port.
fn use_frames(
    rt: &impl Print,
    alloc: Global,
    frames: &mut BiHashMap<WithMadeKeys<Frame>>,
    others: &mut BiHashMap<WithMadeKeys<Frame>>,
) -> anyhow::Result<()> {
    let kept = keep_two(alloc, frames, "second")?;
    let also = keep_two(alloc, others, "other")?;
    println!(rt;
        "frames: kept {kept}, {also}, same {}",
        are_same(frames, others)
    )?;
    if let Some(frame) = numbered(frames, 7) {
        println!(rt; "frame 7: {}", frame.text)?;
    }
    let taken = take_from(frames, 4).is_some();
    println!(rt; "frame from port 4: {taken}")?;
    Ok(())
}

fn show_frames(rt: &impl Print, alloc: Global) -> anyhow::Result<()> {
    let mut frames = BiHashMap::new(alloc);
    let mut others = BiHashMap::new(alloc);
    use_frames(rt, alloc, &mut frames, &mut others)
}

fn use_tiles(rt: &impl Print, tiles: &mut Tiles) -> anyhow::Result<()> {
    lay(
        tiles,
        Tile {
            row: 1,
            column: 2,
            number: 5,
        },
    )?;
    let again = lay(
        tiles,
        Tile {
            row: 1,
            column: 2,
            number: 6,
        },
    )
    .is_ok();
    if let Some(tile) = tile_at(tiles, 1, 2) {
        println!(rt; "tile at 1, 2: {}, again {again}", tile.number)?;
    }
    Ok(())
}

fn show_tiles(rt: &impl Print, alloc: Global) -> anyhow::Result<()> {
    let mut tiles = BiHashMap::new(alloc);
    use_tiles(rt, &mut tiles)
}

fn use_artifacts(
    rt: &impl Print,
    alloc: Global,
    artifacts: &mut BiHashMap<Entry>,
) -> anyhow::Result<()> {
    let entered = enter(
        artifacts,
        Artifact {
            name: "core".to_string(alloc)?,
            version: "1.0".to_string(alloc)?,
            number: 11,
        },
    )
    .is_ok();
    let other = versioned(artifacts, "core", "2.0").is_some();
    if let Some(artifact) = versioned(artifacts, "core", "1.0") {
        println!(rt;
            "core 1.0: {}, entered {entered}, 2.0 {other}",
            artifact.number
        )?;
    }
    Ok(())
}

fn show_artifacts(rt: &impl Print, alloc: Global) -> anyhow::Result<()> {
    let mut artifacts = BiHashMap::new(alloc);
    use_artifacts(rt, alloc, &mut artifacts)
}

fn use_releases(
    rt: &impl Print,
    alloc: Global,
    releases: &mut BiHashMap<Listed>,
) -> anyhow::Result<()> {
    list(
        releases,
        Release {
            name: "core".to_string(alloc)?,
            path: "/a".to_string(alloc)?,
            number: 3,
        },
    )?;
    let found = find(releases, "core", "/a").is_some();
    let other = find(releases, "core", "/b").is_some();
    let gone = withdraw(releases, "/a", 3).is_some();
    println!(rt; "core at /a: {found}, at /b: {other}, withdrawn: {gone}")?;
    Ok(())
}

fn show_releases(rt: &impl Print, alloc: Global) -> anyhow::Result<()> {
    let mut releases = BiHashMap::new(alloc);
    use_releases(rt, alloc, &mut releases)
}

fn use_addresses(
    rt: &impl Print,
    given: &mut BiHashMap<WithMadeKeys<External>>,
) -> anyhow::Result<()> {
    let address = IpAddr::V4(Ipv4Addr::new(10, 0, 0, 1));
    give(given, External::Floating { id: 1, address })?;
    let all = Ports {
        address,
        first: 0,
        last: u16::MAX,
    };
    let some = Ports {
        address,
        first: 0,
        last: 1023,
    };
    let found = with_ports(given, all).is_some();
    println!(rt;
        "all ports: {found}, some ports: {}",
        with_ports(given, some).is_some()
    )?;
    Ok(())
}

fn show_addresses(rt: &impl Print, alloc: Global) -> anyhow::Result<()> {
    let mut given = BiHashMap::new(alloc);
    use_addresses(rt, &mut given)
}

/// Shows the kinds of keys that are made or lent.
pub fn show_made(rt: &impl Print, alloc: Global) -> anyhow::Result<()> {
    show_frames(rt, alloc)?;
    show_tiles(rt, alloc)?;
    show_artifacts(rt, alloc)?;
    show_releases(rt, alloc)?;
    show_addresses(rt, alloc)
}
