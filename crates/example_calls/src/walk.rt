//! Iterating over all items.
ghost use Rattle.std.specs.Prelude.{◌≡◌, ◌-◌, ◌^◌, length, min, nat_lt, sum};
ghost use Rattle.std.specs.Prelude.{map as each};
ghost use Rattle.std.specs.List.{list_any};
ghost use Rattle.iddqd_id.specs.Map.{bag};

use iddqd_id::{IdHashItem, IdHashMap};

/// A sensor, known by its number, with its place and the heat that it measured.
#[derive(Drop)]
pub struct Sensor {
    pub number: u64,
    pub place: u32,
    pub heat: u32,
}

impl IdHashItem for Sensor {
    type Key = u64;

    ghost key = { λ s. s.number };

    fn key(&self) -> &u64 {
        &self.number
    }
}

/// Returns how many sensors there are, counted one by one.
pub fn count(sensors: &IdHashMap<Sensor>) -> usize
    ensures { result ≡ length (bag sensors.now) }
{
    sensors.iter().count()
}

/// Returns whether some sensor is hotter than this.
pub fn is_any_hotter(sensors: &IdHashMap<Sensor>, heat: u32) -> bool
    ensures { result ≡ list_any (λ s. nat_lt heat s.heat) (bag sensors.now) }
{
    sensors.iter().any(|sensor| sensor.heat > heat)
}

/// Returns the sum of all sensors' heat, or the largest `u32` if the sum is larger.
pub fn sum_of_heat(sensors: &IdHashMap<Sensor>) -> u32
    ensures { result ≡ min (sum (each (λ s. s.heat) (bag sensors.now))) (2 ^ 32 - 1) }
{
    let mut sum: u32 = 0;
    for sensor in sensors {
        sum = sum.saturating_add(sensor.heat);
    }
    sum
}
