//! Puts items of each kind of key into maps, finds some of them, and prints what it finds.
#![tactic(auto)]

mod addresses;
mod artifacts;
mod disks;
mod frames;
mod hosts;
mod links;
mod racks;
mod registry;
mod releases;
mod services;
mod show_fields;
mod show_made;
mod show_registry;
mod sleds;
mod tiles;
mod updates;
mod words;
mod zones;

use crate::show_fields::show_fields;
use crate::show_made::show_made;
use crate::show_registry::show_registry;

fn main(rt: HostRuntime) -> anyhow::Result<()> {
    show_made(&rt, rt.alloc())?;
    show_registry(&rt, rt.alloc())?;
    show_fields(&rt, rt.alloc())
}
