//! Services in a registry: registers some, counts their uses, moves one, and prints what it finds.
use crate::registry::{Region, Registry, Service, at, forget_uses, move_to, note_use, register};
use std::alloc::Global;

/// Registers a service, and returns whether that was done.
fn add(
    alloc: Global,
    services: &mut Registry,
    region: Region,
    name: &str,
    bay: u8,
) -> anyhow::Result<bool> {
    let service = Service {
        region,
        name: name.to_string(alloc)?,
        rack: 1,
        bay,
        uses: 0,
    };
    Ok(register(services, service).is_ok())
}

/// Prints how often the service in a bay of the first rack was used.
fn show_uses(rt: &impl Print, services: &Registry, bay: u8) -> anyhow::Result<()> {
    if let Some(service) = at(services, 1, bay) {
        println!(rt; "{} was used {} times", service.name, service.uses)?;
    }
    Ok(())
}

fn use_registry(rt: &impl Print, alloc: Global, services: &mut Registry) -> anyhow::Result<()> {
    let first = add(alloc, services, Region::North, "mail", 1)?;
    let second = add(alloc, services, Region::Lab(3), "mail", 2)?;
    let again = add(alloc, services, Region::North, "mail", 3)?;
    println!(rt; "registered: {first}, {second}, {again}")?;
    let used = note_use(services, 1, 1) && note_use(services, 1, 1);
    println!(rt; "used: {used}, {}", note_use(services, 1, 9))?;
    show_uses(rt, services, 1)?;
    let moved = move_to(services, 1, 1, 1, 4)?;
    println!(rt; "moved: {moved}, {}", move_to(services, 1, 1, 1, 5)?)?;
    show_uses(rt, services, 4)?;
    forget_uses(services);
    show_uses(rt, services, 4)
}

/// Shows items with data whose keys are made or lent.
pub fn show_registry(rt: &impl Print, alloc: Global) -> anyhow::Result<()> {
    let mut services = Registry::new(alloc);
    use_registry(rt, alloc, &mut services)
}
