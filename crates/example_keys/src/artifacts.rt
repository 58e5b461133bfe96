//! A key of two texts that are fields of the item, asked for by two borrowed texts. No text is copied.
ghost use Rattle.std.specs.Prelude.{◌≡◌, ◌==◌, ◌&&◌, ◌∷◌, nat_eq, string_bytes, OnOk, OnErr, IfErr, IsPermutation, option_copied};
ghost use Rattle.std.specs.Cmp.Lexicographic.{pointwise};
ghost use Rattle.iddqd_bi.specs.Bag.{IsOnly};
ghost use Rattle.iddqd_bi.specs.Map.{bag};

use iddqd_bi::{BiHashMap, ByMade, ByPair, LendsPair, MakesKey, WithKeys};

/// An artifact, known by its name and version together, and by its number.
#[derive(Drop)]
pub struct Artifact {
    pub name: String,
    pub version: String,
    pub number: u64,
}

impl LendsPair<String, String, 1> for Artifact {
    ghost pair = { λ a. (a.name, a.version) };

    fn lend_pair(&self) -> (&String, &String) {
        (&self.name, &self.version)
    }
}

impl MakesKey<2> for Artifact {
    type Made = u64;

    ghost made = { λ a. a.number };

    fn make_key(&self) -> u64 {
        self.number
    }
}

/// An artifact with its keys: the first is a pair of texts, the second is made.
pub type Entry = WithKeys<ByPair<ByMade<Artifact, 2>, String, String, 1>>;

/// Enters an artifact, or returns it if one of its keys is taken, or if there is no memory.
pub fn enter(artifacts: &mut BiHashMap<Entry>, artifact: Artifact) -> Result<(), Artifact>
    ensures went_in { OnOk result (IsPermutation (bag artifacts.new) (artifact ∷ bag artifacts.old)) }
    ensures handed_back { IfErr result (λ a. a ≡ artifact) }
    ensures unchanged { OnErr result (artifacts.new ≡ artifacts.old) }
{
    artifacts
        .try_insert(Entry::new(artifact))
        .map_err(|rejected| rejected.item.into_item())
}

/// Returns the artifact with this name and version, if there is one.
pub fn versioned<'a>(
    artifacts: &'a BiHashMap<Entry>,
    name: &str,
    version: &str,
) -> Option<&'a Entry>
    ensures { IsOnly (λ a. pointwise nat_eq name.now (string_bytes a.name)
        && pointwise nat_eq version.now (string_bytes a.version)) (bag artifacts.now) (option_copied result) }
{
    artifacts.get1((name, version))
}
