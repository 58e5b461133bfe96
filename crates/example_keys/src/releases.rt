//! Two keys of several fields that share a field: the path is a part of both.
ghost use Rattle.std.specs.Prelude.{◌≡◌, ◌==◌, ◌&&◌, ◌∷◌, nat_eq, string_bytes, OnOk, OnErr, IfNone, IsPermutation, option_copied};
ghost use Rattle.std.specs.Cmp.Lexicographic.{pointwise};
ghost use Rattle.iddqd_bi.specs.Bag.{IsOnly};
ghost use Rattle.iddqd_bi.specs.Map.{bag};

use iddqd_bi::{BiHashMap, ByPair, LendsPair, Rejected, WithKeys};

/// A release, known by its name and path, and by its path and number.
#[derive(Drop)]
pub struct Release {
    pub name: String,
    pub path: String,
    pub number: u32,
}

impl LendsPair<String, String, 1> for Release {
    ghost pair = { λ r. (r.name, r.path) };

    fn lend_pair(&self) -> (&String, &String) {
        (&self.name, &self.path)
    }
}

impl LendsPair<String, u32, 2> for Release {
    ghost pair = { λ r. (r.path, r.number) };

    fn lend_pair(&self) -> (&String, &u32) {
        (&self.path, &self.number)
    }
}

/// A release with both keys.
pub type Listed = WithKeys<ByPair<ByPair<Release, String, u32, 2>, String, String, 1>>;

/// Lists a release. The error has it, and says which of its keys are taken.
pub fn list(releases: &mut BiHashMap<Listed>, release: Release) -> Result<(), Rejected<Listed>>
    ensures went_in { OnOk result (IsPermutation (bag releases.new) (release ∷ bag releases.old)) }
    ensures unchanged { OnErr result (releases.new ≡ releases.old) }
{
    releases.try_insert(Listed::new(release))
}

/// Returns the release with this name and path, if there is one.
pub fn find<'r>(releases: &'r BiHashMap<Listed>, name: &str, path: &str) -> Option<&'r Listed>
    ensures { IsOnly (λ r. pointwise nat_eq name.now (string_bytes r.name)
        && pointwise nat_eq path.now (string_bytes r.path)) (bag releases.now) (option_copied result) }
{
    releases.get1((name, path))
}

/// Removes the release with this path and number, and returns it, if there is one.
pub fn withdraw(releases: &mut BiHashMap<Listed>, path: &str, number: u32) -> Option<Listed>
    ensures it { IsOnly (λ r. pointwise nat_eq path.now (string_bytes r.path) && (number == r.number))
        (bag releases.old) result }
    ensures none { IfNone result (releases.new ≡ releases.old) }
{
    releases.remove2((path, &number))
}
