//! Returning an item's data, borrowed for writing, and data that owns memory.
ghost use Rattle.std.specs.Prelude.{◌≡◌, ◌==◌, ◌∷◌, ◌++◌, [], true, false, if◌then◌else◌, is_some, map, Some, IfSome, IfOk, OnErr, IsPermutation};
ghost use Rattle.std.specs.List.{list_any};
ghost use Rattle.std.specs.Borrow.{sem};
ghost use Rattle.std.specs.Fn.{FnOnceReturnsAtMut};
ghost use Rattle.std.proofs.Common.{rules};
ghost use Rattle.iddqd_id.specs.Bag.{IsOnly, swap};
ghost use Rattle.iddqd_id.specs.Map.{bag};
ghost use Rattle.iddqd_id.specs.Map.Written.{MapsWhere};

use iddqd_id::{IdHashItem, IdHashItemMut, IdHashMap, Ranked};
use std::alloc::AllocError;

/// How a machine is: its temperature, and the numbers of its faults.
#[derive(Drop)]
pub struct Health {
    pub degrees: u32,
    pub faults: Vec<u32>,
}

/// A machine, known by its number, with its rack and its health.
#[derive(Drop)]
pub struct Machine {
    pub number: u64,
    pub rack: u32,
    pub health: Health,
}

impl IdHashItem for Machine {
    type Key = u64;

    ghost key = { λ m. m.number };

    fn key(&self) -> &u64 {
        &self.number
    }
}

impl IdHashItemMut for Machine {
    type Data = Health;

    ghost data_of = { λ m. m.health };

    ghost put = { λ m h. record m { health = h } };

    ghost keeps_key = { Prim.search rules };

    ghost put_shows = { Prim.search rules };

    fn data_mut(&mut self) -> &mut Health {
        &mut self.health
    }
}

/// The machines of a hall.
#[derive(Drop)]
pub struct Hall {
    pub machines: IdHashMap<Machine>,
}

impl Hall {
    ghost use Rattle.example_calls.specs.Health.{lends_health, put_health};

    /// Returns the health of the machine with this number, borrowed for writing, if there is one. What is written
    /// through it is the machine's health afterwards.
    pub fn health_mut(&mut self, number: u64) -> Option<&mut Health>
        ensures value { IfSome result (λ h. (m : Machine)
            × IsOnly (λ m. number == m.number) (bag self.old.machines) (Some m) × (h.now ≡ m.health)) }
        ensures any_found { is_some result ≡ list_any (λ m. number == m.number) (bag self.old.machines) }
        ensures maps { MapsWhere put_health (λ m. number == m.number) self.old.machines (λ m. m.health) result }
        ensures* writes_back { sem 𝓛 (lends_health self.entry (λ m. number == m.number) result) }
    {
        self.machines.data_mut(&number)
    }

    /// Notes the temperature of the machine with this number, and returns whether there is such a machine.
    pub fn note_degrees(&mut self, number: u64, degrees: u32) -> bool
        ensures noted { IsPermutation (bag self.new.machines) (map (λ (m : Machine). if number == m.number
            then record m { health = record m.health { degrees = degrees } } else m) (bag self.old.machines)) }
        ensures found { result ≡ list_any (λ m. number == m.number) (bag self.old.machines) }
        ensures absent { result ≡ false → self.new.machines ≡ self.old.machines }
    {
        match self.health_mut(number) {
            Some(health) => {
                health.degrees = degrees;
                true
            }
            None => false,
        }
    }
}

/// Notes a fault of the machine with this number, and returns whether there is such a machine. If memory runs out, the
/// machine has the faults that it had.
pub fn note_fault(
    machines: &mut IdHashMap<Machine>,
    number: u64,
    fault: u32,
) -> Result<bool, AllocError>
    ensures noted { IfOk result (λ noted. noted ≡ true → (m : Machine) × (h : Health)
        × IsOnly (λ m. number == m.number) (bag machines.old) (Some m) × (h.degrees ≡ m.health.degrees)
        × (h.faults.items ≡ m.health.faults.items ++ fault ∷ [])
        × IsPermutation (bag machines.new)
        (swap ⟦<Machine as Ranked>⟧.ranks (bag machines.old) m (record m { health = h }))) }
    ensures absent { IfOk result (λ noted. noted ≡ false → machines.new ≡ machines.old) }
    ensures out_of_memory { OnErr result ((m : Machine) × (h : Health)
        × IsOnly (λ m. number == m.number) (bag machines.old) (Some m) × (h.degrees ≡ m.health.degrees)
        × (h.faults.items ≡ m.health.faults.items)
        × IsPermutation (bag machines.new)
        (swap ⟦<Machine as Ranked>⟧.ranks (bag machines.old) m (record m { health = h }))) }
{
    match machines.data_mut(&number) {
        Some(health) => {
            health.faults.push(fault)?;
            Ok(true)
        }
        None => Ok(false),
    }
}

/// Calls `f` with the health of the machine with this number, which `f` may change, and returns whether there is such a
/// machine.
pub fn change_health<F: FnOnce(&mut Health)>(
    machines: &mut IdHashMap<Machine>,
    number: u64,
    f: F,
) -> bool
where
    F: Drop,
    requires { F.IsAlwaysCallable f }
    ensures changed { result ≡ true → (m : Machine) × (h : Health)
        × IsOnly (λ m. number == m.number) (bag machines.old) (Some m)
        × FnOnceReturnsAtMut F.FnOnce f m.health tt h
        × IsPermutation (bag machines.new)
        (swap ⟦<Machine as Ranked>⟧.ranks (bag machines.old) m (record m { health = h })) }
    ensures absent { result ≡ false → machines.new ≡ machines.old }
{
    match machines.data_mut(&number) {
        Some(health) => {
            f(health);
            true
        }
        None => false,
    }
}
