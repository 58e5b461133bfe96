//! Updating an item that is known by a text.
ghost use Rattle.std.specs.Prelude.{◌≡◌, ◌/◌, false, is_some, if◌then◌else◌, map, nat_eq, string_bytes, IfNone, IfSome, IsPermutation, Some};
ghost use Rattle.std.specs.Cmp.Lexicographic.{pointwise};
ghost use Rattle.std.specs.List.{list_any};
ghost use Rattle.std.proofs.Common.{rules};
ghost use Rattle.iddqd_id.specs.Bag.{IsOnly};
ghost use Rattle.iddqd_id.specs.Map.{bag};

use iddqd_id::{IdHashItem, IdHashItemMut, IdHashMap};

/// A gauge, known by its name, with its place and what it shows.
#[derive(Drop)]
pub struct Gauge {
    pub name: String,
    pub place: u32,
    pub value: u64,
}

impl IdHashItem for Gauge {
    type Key = String;

    ghost key = { λ g. g.name };

    fn key(&self) -> &String {
        &self.name
    }
}

impl IdHashItemMut for Gauge {
    type Data = u64;

    ghost data_of = { λ g. g.value };

    ghost put = { λ g v. record g { value = v } };

    ghost keeps_key = { Prim.search rules };

    ghost put_shows = { Prim.search rules };

    fn data_mut(&mut self) -> &mut u64 {
        &mut self.value
    }
}

/// Halves what the gauge of this name shows, and returns whether there is such a gauge.
pub fn halve(gauges: &mut IdHashMap<Gauge>, name: &str) -> bool
    ensures halved { IsPermutation (bag gauges.new) (map (λ (g : Gauge).
        if pointwise nat_eq name.now (string_bytes g.name) then record g { value = g.value / 2 } else g) (bag gauges.old)) }
    ensures found { result ≡ list_any (λ g. pointwise nat_eq name.now (string_bytes g.name)) (bag gauges.old) }
    ensures absent { result ≡ false → gauges.new ≡ gauges.old }
{
    gauges.update(name, |gauge| gauge.value / 2)
}

/// Sets the gauge of this name to zero, and returns what it showed, or `None` if there is no such gauge.
pub fn reset(gauges: &mut IdHashMap<Gauge>, name: &str) -> Option<u64>
    ensures reset { IsPermutation (bag gauges.new) (map (λ (g : Gauge).
        if pointwise nat_eq name.now (string_bytes g.name) then record g { value = 0 } else g) (bag gauges.old)) }
    ensures shown { IfSome result (λ value. (g : Gauge)
        × IsOnly (λ g. pointwise nat_eq name.now (string_bytes g.name)) (bag gauges.old) (Some g) × (value ≡ g.value)) }
    ensures found { is_some result ≡ list_any (λ g. pointwise nat_eq name.now (string_bytes g.name)) (bag gauges.old) }
    ensures absent { IfNone result (gauges.new ≡ gauges.old) }
{
    let shown = gauges.data_mut(name)?;
    let value = *shown;
    *shown = 0;
    Some(value)
}
