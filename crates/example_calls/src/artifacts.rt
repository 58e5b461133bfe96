//! A key of two texts, asked for by two texts that the caller borrows. `Hash` of the key says what it feeds to a hasher.
ghost use Rattle.std.specs.Prelude.{◌≡◌, ◌&&◌, ◌++◌, ◌∷◌, nat_eq, string_bytes, OnOk, OnErr, IfErr, IfSome, IfNone, IsPermutation, option_copied};
ghost use Rattle.std.specs.Cmp.Lexicographic.{pointwise};
ghost use Rattle.std.specs.Cmp.Rules.{comparing, hashing};
ghost use Rattle.std.specs.Hash as fed;
ghost use Rattle.std.proofs.Common.{rules};
ghost use Rattle.iddqd_bi.specs.Bag.{IsOnly};
ghost use Rattle.iddqd_bi.specs.Map.{bag};

use iddqd_bi::{BiHashItem, BiHashMap, Equivalent};
use std::hash::{Hash, Hasher};

/// The name of an artifact and its version, as an item owns them.
#[derive(PartialEq, Eq, Drop)]
pub struct Release {
    pub name: String,
    pub version: String,
}

impl Hash for Release {
    ghost hash_input = { λ r. fed.str (string_bytes r.name) ++ fed.str (string_bytes r.version) };

    ghost respects_eq = { Prim.search (hashing, rules) };

    fn hash<H: Hasher>(&self, state: &mut H) {
        self.name.hash(state);
        self.version.hash(state);
    }
}

/// The same, as a caller has them, who borrows the texts.
#[derive(Clone, Copy, PartialEq, Eq, Hash)]
pub struct ReleaseRef<'a> {
    pub name: &'a str,
    pub version: &'a str,
}

impl<'a> Equivalent<Release> for ReleaseRef<'a> {
    ghost equivalent = { λ q r. (pointwise nat_eq q.name.now (string_bytes r.name))
        && (pointwise nat_eq q.version.now (string_bytes r.version)) };

    ghost respects_hash = { Prim.search (hashing, rules) };

    ghost respects_eq = { Prim.search (comparing, rules) };

    fn equivalent(&self, key: &Release) -> bool {
        self.name == key.name.as_str() && self.version == key.version.as_str()
    }
}

/// An artifact, known by its name and its version together, and by its number.
#[derive(Drop)]
pub struct Artifact {
    pub release: Release,
    pub number: u64,
    pub size: u64,
}

impl BiHashItem for Artifact {
    type K1 = Release;

    type K2 = u64;

    ghost key1 = { λ a. a.release };

    ghost key2 = { λ a. a.number };

    fn key1(&self) -> &Release {
        &self.release
    }

    fn key2(&self) -> &u64 {
        &self.number
    }
}

/// Adds an artifact, or returns it if its release or its number is taken, or if there is no memory.
pub fn publish(artifacts: &mut BiHashMap<Artifact>, artifact: Artifact) -> Result<(), Artifact>
    ensures went_in { OnOk result (IsPermutation (bag artifacts.new) (artifact ∷ bag artifacts.old)) }
    ensures handed_back { IfErr result (λ a. a ≡ artifact) }
    ensures unchanged { OnErr result (artifacts.new ≡ artifacts.old) }
{
    artifacts
        .try_insert(artifact)
        .map_err(|rejected| rejected.item)
}

/// Returns the artifact with this name and this version, if there is one.
pub fn released<'a>(
    artifacts: &'a BiHashMap<Artifact>,
    name: &str,
    version: &str,
) -> Option<&'a Artifact>
    ensures { IsOnly (λ a. (pointwise nat_eq name.now (string_bytes a.release.name))
        && (pointwise nat_eq version.now (string_bytes a.release.version))) (bag artifacts.now) (option_copied result) }
{
    artifacts.get1(&ReleaseRef { name, version })
}

/// Removes the artifact with this name and this version, and returns it, if there is one.
pub fn withdraw(artifacts: &mut BiHashMap<Artifact>, name: &str, version: &str) -> Option<Artifact>
    ensures it { IsOnly (λ a. (pointwise nat_eq name.now (string_bytes a.release.name))
        && (pointwise nat_eq version.now (string_bytes a.release.version))) (bag artifacts.old) result }
    ensures gone { IfSome result (λ a. IsPermutation (bag artifacts.old) (a ∷ bag artifacts.new)) }
    ensures absent { IfNone result (artifacts.new ≡ artifacts.old) }
{
    artifacts.remove1(&ReleaseRef { name, version })
}
