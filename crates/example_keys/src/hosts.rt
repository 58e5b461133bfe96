//! A text whose case does not matter: the type of the key folds it once, when a key is made, and derives the rest.
ghost use Rattle.std.specs.Prelude.{◌≡◌, ◌∷◌, OnOk, OnErr, IsPermutation, option_copied, string_bytes, map};
ghost use Rattle.std.specs.Char.{to_ascii_lowercase};
ghost use Rattle.iddqd_bi.specs.Bag.{IsOnly};
ghost use Rattle.iddqd_bi.specs.Map.{bag};

use iddqd_bi::{BiHashItem, BiHashMap, Rejected};

/// The name of a host, in lower case.
#[derive(PartialEq, Eq, Hash, Drop)]
pub struct HostName {
    text: String,
}

impl HostName {
    /// Makes a name of a text, in whatever case its ASCII letters are. It is changed in place: this needs no memory.
    pub fn new(mut text: String) -> Self
        ensures { string_bytes result.text ≡ map to_ascii_lowercase (string_bytes text) }
    {
        text.make_ascii_lowercase();
        HostName { text }
    }
}

/// A host, known by its name and by its address. `shown` is the name as it was written.
#[derive(Drop)]
pub struct Host {
    pub name: HostName,
    pub address: u32,
    pub shown: String,
}

impl BiHashItem for Host {
    type K1 = HostName;

    type K2 = u32;

    ghost key1 = { λ h. h.name };

    ghost key2 = { λ h. h.address };

    fn key1(&self) -> &HostName {
        &self.name
    }

    fn key2(&self) -> &u32 {
        &self.address
    }
}

/// Adds a host. The error has it, and says which of its keys are taken.
pub fn add(hosts: &mut BiHashMap<Host>, host: Host) -> Result<(), Rejected<Host>>
    ensures went_in { OnOk result (IsPermutation (bag hosts.new) (host ∷ bag hosts.old)) }
    ensures unchanged { OnErr result (hosts.new ≡ hosts.old) }
{
    hosts.try_insert(host)
}

/// Returns the host with this name, if there is one.
pub fn named<'h>(hosts: &'h BiHashMap<Host>, name: &HostName) -> Option<&'h Host>
    ensures { IsOnly (λ h. ⟦<HostName as PartialEq>⟧.eq name.now h.name) (bag hosts.now) (option_copied result) }
{
    hosts.get1(name)
}
