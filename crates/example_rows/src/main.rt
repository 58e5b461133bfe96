//! Devices, each with its serial number, its port and its name.
#![tactic(auto)]

ghost use Rattle.std.specs.Prelude.{◌==◌, option_copied};
ghost use Rattle.iddqd_bi.specs.Bag.{IsOnly};
ghost use Rattle.iddqd_bi.specs.Map.{bag};

use iddqd_bi::{BiHashMap, Row2};

type Device = Row2<u64, u16, &'static str>;

/// Returns the device at this port, if there is one.
fn at_port(devices: &BiHashMap<Device>, port: u16) -> Option<&Device>
    ensures { IsOnly (λ d. port == d.key2) (bag devices.now) (option_copied result) }
{
    devices.get2(&port)
}

fn main(rt: HostRuntime) -> anyhow::Result<()> {
    let mut devices = BiHashMap::<Device>::new(rt.alloc());
    devices.try_insert(Row2::new(1001, 7, "lamp"))?;
    if let Err(refused) = devices.try_insert(Row2::new(1002, 7, "fan")) {
        println!(rt; "fan: {refused}")?;
    }
    if let Some(found) = at_port(&devices, 7) {
        println!(rt; "{} is at port 7", found.value)?;
    }
    Ok(())
}
