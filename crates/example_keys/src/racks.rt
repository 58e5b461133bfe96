//! Items that hold a map: racks, each with its machines. The inner map is the data of an item, and is written in place.
ghost use Rattle.std.specs.Prelude.{◌≡◌};
ghost use Rattle.std.specs.Bool.{OnFalse};
ghost use Rattle.std.proofs.Common.{rules};

use iddqd_bi::{BiHashItem, BiHashItemMut, BiHashMap, Rejected};

/// A machine, known by its number and by its place in the rack.
#[derive(Drop)]
pub struct Machine {
    pub number: u64,
    pub place: u8,
}

impl BiHashItem for Machine {
    type K1 = u64;

    type K2 = u8;

    ghost key1 = { λ m. m.number };

    ghost key2 = { λ m. m.place };

    fn key1(&self) -> &u64 {
        &self.number
    }

    fn key2(&self) -> &u8 {
        &self.place
    }
}

/// A rack with its machines, known by its number and by its row.
#[derive(Drop)]
pub struct Rack {
    pub number: u32,
    pub row: u16,
    pub machines: BiHashMap<Machine>,
}

impl BiHashItem for Rack {
    type K1 = u32;

    type K2 = u16;

    ghost key1 = { λ r. r.number };

    ghost key2 = { λ r. r.row };

    fn key1(&self) -> &u32 {
        &self.number
    }

    fn key2(&self) -> &u16 {
        &self.row
    }
}

impl BiHashItemMut for Rack {
    type Data = BiHashMap<Machine>;

    ghost data_of = { λ r. r.machines };

    ghost put = { λ r d. record r { machines = d } };

    ghost keeps_key1 = { Prim.search rules };

    ghost keeps_key2 = { Prim.search rules };

    ghost put_shows = { Prim.search rules };

    fn data_mut(&mut self) -> &mut BiHashMap<Machine> {
        &mut self.machines
    }
}

/// Puts a machine into a rack, and returns whether there is such a rack. The error has the machine.
pub fn put_in(
    racks: &mut BiHashMap<Rack>,
    rack: u32,
    machine: Machine,
) -> Result<bool, Rejected<Machine>> {
    match racks.data1_mut(&rack) {
        Some(machines) => {
            machines.try_insert(machine)?;
            Ok(true)
        }
        None => Ok(false),
    }
}

/// Takes the machine with this number out of a rack, and returns it, if there is one.
pub fn take_out(racks: &mut BiHashMap<Rack>, rack: u32, machine: u64) -> Option<Machine> {
    let machines = racks.data1_mut(&rack)?;
    machines.remove1(&machine)
}
