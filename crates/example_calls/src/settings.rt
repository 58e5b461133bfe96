//! A constant text as a key: items hold a `&'static str`, and lookups take any `&str`.
ghost use Rattle.std.specs.Prelude.{◌≡◌, ◌<◌, ◌∷◌, [], nat_eq, length, IsOk, IsPermutation, OnOk, OnErr, IfErr, IfSome, IfNone, option_copied};
ghost use Rattle.std.specs.Cmp.Lexicographic.{pointwise};
ghost use Rattle.std.specs.List.{list_any};
ghost use Rattle.iddqd_id.specs.Bag.{IsOnly, conflicts_of};
ghost use Rattle.iddqd_id.specs.Map.{bag};

use iddqd_id::{IdHashItem, IdHashMap, Ranked, Rejected};
use std::alloc::Global;

/// A setting, known by its name, a constant text, with its value.
#[derive(Drop)]
pub struct Setting {
    pub name: &'static str,
    pub value: u32,
}

impl IdHashItem for Setting {
    type Key = &'static str;

    ghost key = { λ s. s.name };

    fn key(&self) -> &&'static str {
        &self.name
    }
}

/// Makes a map of settings, and returns how many it has: none. A function may own such a map, and drop it.
pub fn count_none(alloc: Global) -> usize
    ensures { result ≡ 0 }
{
    let settings: IdHashMap<Setting> = IdHashMap::new(alloc);
    settings.len()
}

/// Adds a setting. The error has it, and says whether its name is taken.
pub fn add_setting(
    settings: &mut IdHashMap<Setting>,
    setting: Setting,
) -> Result<(), Rejected<Setting>>
    ensures went_in { OnOk result (IsPermutation (bag settings.new) (setting ∷ bag settings.old)) }
    ensures granted { conflicts_of ⟦<Setting as Ranked>⟧.ranks (bag settings.old) setting ≡ []
        → length (bag settings.old) < settings.old.capacity → IsOk result }
    ensures handed_back { IfErr result (λ e. e.item ≡ setting) }
    ensures taken { IfErr result (λ e. e.taken ≡
        list_any (λ s. pointwise nat_eq setting.name.now s.name.now) (bag settings.old)) }
    ensures unchanged { OnErr result (settings.new ≡ settings.old) }
{
    settings.try_insert(setting)
}

/// Returns the setting with this name, if there is one.
pub fn find_setting<'s>(settings: &'s IdHashMap<Setting>, name: &str) -> Option<&'s Setting>
    ensures { IsOnly (λ s. pointwise nat_eq name.now s.name.now) (bag settings.now) (option_copied result) }
{
    settings.get(name)
}

/// Removes the setting with this name, and returns it, if there is one.
pub fn remove_setting(settings: &mut IdHashMap<Setting>, name: &str) -> Option<Setting>
    ensures it { IsOnly (λ s. pointwise nat_eq name.now s.name.now) (bag settings.old) result }
    ensures gone { IfSome result (λ s. IsPermutation (bag settings.old) (s ∷ bag settings.new)) }
    ensures absent { IfNone result (settings.new ≡ settings.old) }
{
    settings.remove(name)
}
