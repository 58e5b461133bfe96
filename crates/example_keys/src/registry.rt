//! Services in a registry: one key is lent, the other is computed, and the uses are counted in place.
ghost use Rattle.std.specs.Prelude.{◌≡◌, ◌*◌, ◌+◌, ◌∷◌, ◌==◌, if◌then◌else◌, min, ◌-◌, ◌^◌, true, false, Some, IsPermutation, OnOk, OnErr, IfErr, IfOk, map, List, option_copied};
ghost use Rattle.std.specs.List.{list_any};
ghost use Rattle.std.proofs.Common.{rules};
ghost use Rattle.iddqd_bi.specs.Bag.{IsOnly};
ghost use Rattle.iddqd_bi.specs.Map.{bag};

use iddqd_bi::{
    BiHashMap, ByMade, ByPair, HasData, KeepsMade, KeepsPair, LendsPair, Made, MakesKey, Rejected,
    WithKeys,
};

/// A region.
#[derive(Clone, Copy, PartialEq, Eq, Hash)]
pub enum Region {
    North,
    Lab(u8),
}

/// A service, known by its region and its name, and by its slot, which is computed from its rack and its bay.
#[derive(Drop)]
pub struct Service {
    pub region: Region,
    pub name: String,
    pub rack: u16,
    pub bay: u8,
    pub uses: u64,
}

impl LendsPair<Region, String, 1> for Service {
    ghost pair = { λ s. (s.region, s.name) };

    fn lend_pair(&self) -> (&Region, &String) {
        (&self.region, &self.name)
    }
}

impl MakesKey<2> for Service {
    type Made = u32;

    ghost made = { λ s. s.rack * 256 + s.bay };

    fn make_key(&self) -> u32 {
        self.rack as u32 * 256 + self.bay as u32
    }
}

impl HasData for Service {
    type Data = u64;

    ghost data_of = { λ s. s.uses };

    ghost put = { λ s n. record s { uses = n } };

    fn data_mut(&mut self) -> &mut u64 {
        &mut self.uses
    }

    ghost put_shows = { Prim.search rules };
}

impl KeepsPair<Region, String, 1> for Service {
    ghost keeps_pair = { Prim.search rules };
}

impl KeepsMade<2> for Service {
    ghost keeps_made = { Prim.search rules };
}

/// A service with its keys.
pub type Listed = WithKeys<ByPair<ByMade<Service, 2>, Region, String, 1>>;

/// The services.
pub type Registry = BiHashMap<Listed>;

/// Registers a service. The error has it, and says which of its keys are taken.
pub fn register(services: &mut Registry, service: Service) -> Result<(), Rejected<Listed>>
    ensures went_in { OnOk result (IsPermutation (bag services.new) (service ∷ bag services.old)) }
    ensures handed_back { IfErr result (λ e. e.item ≡ service) }
    ensures unchanged { OnErr result (services.new ≡ services.old) }
{
    services.try_insert(Listed::new(service))
}

/// Returns the service in this bay of a rack, if there is one.
pub fn at(services: &Registry, rack: u16, bay: u8) -> Option<&Service>
    ensures { IsOnly (λ s. rack * 256 + bay == s.rack * 256 + s.bay) (bag services.now) (option_copied result) }
{
    let key = rack as u32 * 256 + bay as u32;
    let found = services.get2(Made { key })?;
    Some(found.item())
}

/// Counts a use of the service in this bay of a rack, and returns whether there is one.
pub fn note_use(services: &mut Registry, rack: u16, bay: u8) -> bool
    ensures found { result ≡ list_any (λ s. rack * 256 + bay == s.rack * 256 + s.bay) (bag services.old) }
    ensures counted { IsPermutation (bag services.new) (map (λ (s : Service).
        if rack * 256 + bay == s.rack * 256 + s.bay then record s { uses = min (s.uses + 1) (2 ^ 64 - 1) } else s)
        (bag services.old)) }
{
    let key = rack as u32 * 256 + bay as u32;
    services.update2(Made { key }, |service| service.uses.saturating_add(1))
}

/// Begins a new day, on which no service was used.
pub fn forget_uses(services: &mut Registry)
    ensures { IsPermutation (bag services.new) (map (λ (s : Service). record s { uses = 0 }) (bag services.old)) }
{
    services.update_all(|_service| 0);
}

/// Moves the service in a bay to another one, and returns whether there is one. If the other bay is taken, the error has
/// the service, which is in no bay then.
pub fn move_to(
    services: &mut Registry,
    rack: u16,
    bay: u8,
    new_rack: u16,
    new_bay: u8,
) -> Result<bool, Rejected<Listed>>
    ensures moved { IfOk result (λ found. found ≡ true → (s : Service) × (others : List Service)
        × IsOnly (λ s. rack * 256 + bay == s.rack * 256 + s.bay) (bag services.old) (Some s)
        × IsPermutation (bag services.old) (s ∷ others)
        × IsPermutation (bag services.new) (record s { rack = new_rack; bay = new_bay } ∷ others)) }
    ensures absent { IfOk result (λ found. found ≡ false → services.new ≡ services.old) }
    ensures handed_back { IfErr result (λ e. (s : Service)
        × IsOnly (λ s. rack * 256 + bay == s.rack * 256 + s.bay) (bag services.old) (Some s)
        × (e.item ≡ record s { rack = new_rack; bay = new_bay }) × IsPermutation (bag services.old) (s ∷ bag services.new)) }
{
    let key = rack as u32 * 256 + bay as u32;
    let Some(old) = services.remove2(Made { key }) else {
        return Ok(false);
    };
    let mut service = old.into_item();
    service.rack = new_rack;
    service.bay = new_bay;
    match register(services, service) {
        Ok(()) => Ok(true),
        Err(refused) => Err(refused),
    }
}
