//! Keys that may be absent, keys of three parts, and keys that are lists of texts, each asked for without owning it.
ghost use Rattle.std.specs.Prelude.{◌≡◌, ◌==◌, ◌&&◌, ◌∷◌, nat_eq, string_bytes, OnOk, OnErr, IsPermutation, option_copied};
ghost use Rattle.std.specs.Cmp.Lexicographic.{pointwise};
ghost use Rattle.iddqd_bi.specs.Bag.{IsOnly};
ghost use Rattle.iddqd_bi.specs.Map.{bag};
ghost use Rattle.iddqd_bi.specs.Queries.{some_passes};

use iddqd_bi::{BiHashItem, BiHashMap, Rejected};

/// A service, known by its name, which one of them may lack, and by its host, its protocol and its port together.
#[derive(Drop)]
pub struct Service {
    pub name: Option<String>,
    pub place: (String, String, u16),
}

impl BiHashItem for Service {
    type K1 = Option<String>;

    type K2 = (String, String, u16);

    ghost key1 = { λ s. s.name };

    ghost key2 = { λ s. s.place };

    fn key1(&self) -> &Option<String> {
        &self.name
    }

    fn key2(&self) -> &(String, String, u16) {
        &self.place
    }
}

/// Offers a service. The error has it, and says which of its keys are taken.
pub fn offer(services: &mut BiHashMap<Service>, service: Service) -> Result<(), Rejected<Service>>
    ensures went_in { OnOk result (IsPermutation (bag services.new) (service ∷ bag services.old)) }
    ensures unchanged { OnErr result (services.new ≡ services.old) }
{
    services.try_insert(service)
}

/// Returns the service with this name, if there is one.
pub fn named<'s>(services: &'s BiHashMap<Service>, name: &str) -> Option<&'s Service>
    ensures { IsOnly (λ s. some_passes (λ k. pointwise nat_eq name.now (string_bytes k)) s.name)
        (bag services.now) (option_copied result) }
{
    services.get1(Some(name))
}

/// Returns the service at this place, if there is one.
pub fn at_place<'s>(
    services: &'s BiHashMap<Service>,
    host: &str,
    protocol: &str,
    port: u16,
) -> Option<&'s Service>
    ensures { IsOnly (λ s. pointwise nat_eq host.now (string_bytes s.place.0)
        && (pointwise nat_eq protocol.now (string_bytes s.place.1) && (port == s.place.2)))
        (bag services.now) (option_copied result) }
{
    services.get2((host, protocol, &port))
}

/// A note, known by its tags, in their order, and by its number.
#[derive(Drop)]
pub struct Note {
    pub tags: Vec<String>,
    pub number: u32,
}

impl BiHashItem for Note {
    type K1 = Vec<String>;

    type K2 = u32;

    ghost key1 = { λ n. n.tags };

    ghost key2 = { λ n. n.number };

    fn key1(&self) -> &Vec<String> {
        &self.tags
    }

    fn key2(&self) -> &u32 {
        &self.number
    }
}

/// Returns the note with these tags, if there is one.
pub fn tagged<'n>(notes: &'n BiHashMap<Note>, tags: &[&str]) -> Option<&'n Note>
    ensures { IsOnly (λ n. pointwise (λ t s. pointwise nat_eq t.now (string_bytes s)) tags.now n.tags.items)
        (bag notes.now) (option_copied result) }
{
    notes.get1(tags)
}
