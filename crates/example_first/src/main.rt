//! Devices, each known by its serial number and by the port that it is plugged into.
#![tactic(auto)]

mod plugging;

use iddqd_bi::{BiHashItem, BiHashMap};

#[derive(Drop)]
pub struct Device {
    pub serial: u64,
    pub port: u16,
}

impl BiHashItem for Device {
    type K1 = u64;

    type K2 = u16;

    ghost key1 = { λ d. d.serial };

    ghost key2 = { λ d. d.port };

    fn key1(&self) -> &u64 {
        &self.serial
    }

    fn key2(&self) -> &u16 {
        &self.port
    }
}

impl Device {
    fn new(serial: u64, port: u16) -> Self {
        Device { serial, port }
    }
}

fn main(rt: HostRuntime) -> anyhow::Result<()> {
    let mut devices = BiHashMap::new(rt.alloc());
    devices.try_insert(Device::new(1001, 7))?;
    devices.try_insert(Device::new(1002, 8))?;
    if let Err(refused) = devices.try_insert(Device::new(1003, 7)) {
        println!(rt; "1003: {refused}")?;
    }
    if let Some(found) = devices.get1(&1002) {
        println!(rt; "1002 is at port {}", found.port)?;
    }
    if let Some(found) = devices.get2(&7) {
        println!(rt; "{} is at port 7", found.serial)?;
    }
    devices.remove1(&1001);
    for left in &devices {
        println!(rt; "{} is left", left.serial)?;
    }
    Ok(())
}
