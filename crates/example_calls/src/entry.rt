//! Looking up two keys at once, and inserting or removing by what they find.
ghost use Rattle.std.specs.Prelude.{◌≡◌, ◌≢◌, ◌<◌, ◌⊎◌, [], ◌∷◌, ◌++◌, length, IsOk, IsErrOf, IsPermutation, OnOk, OnErr};
ghost use Rattle.iddqd_bi.specs.Bag.{conflicts_of, listing};
ghost use Rattle.iddqd_bi.specs.Map.{IsFullFor, bag};

use iddqd_bi::{BiHashItem, BiHashMap, Entry, Ranked, UpToTwo};

/// A visit, known by its number and by the page that is read.
#[derive(Drop)]
pub struct Visit {
    pub number: u64,
    pub page: u32,
}

impl BiHashItem for Visit {
    type K1 = u64;

    type K2 = u32;

    ghost key1 = { λ v. v.number };

    ghost key2 = { λ v. v.page };

    fn key1(&self) -> &u64 {
        &self.number
    }

    fn key2(&self) -> &u32 {
        &self.page
    }
}

/// Why a visit was not noted, with the visit.
#[derive(Drop)]
pub enum NotNoted {
    /// Another visit has its number or its page.
    Occupied(Visit),
    /// No other visit has one of them, but the map is full and there was no memory to grow.
    Memory(Visit),
}

/// Notes a visit if no other has its number or its page. Otherwise, and if there is no memory, the error has the visit.
pub fn note_visit(visits: &mut BiHashMap<Visit>, visit: Visit) -> Result<(), NotNoted>
    ensures noted { OnOk result (IsPermutation (bag visits.new) (visit ∷ bag visits.old)) }
    ensures granted { conflicts_of ⟦<Visit as Ranked>⟧.ranks (bag visits.old) visit ≡ []
        → length (bag visits.old) < visits.old.capacity → IsOk result }
    ensures unchanged { OnErr result (visits.new ≡ visits.old) }
    ensures handed_back { OnErr result (IsErrOf result (NotNoted.Occupied visit)
        ⊎ IsErrOf result (NotNoted.Memory visit)) }
    ensures occupied { IsErrOf result (NotNoted.Occupied visit)
        → conflicts_of ⟦<Visit as Ranked>⟧.ranks (bag visits.old) visit ≢ [] }
    ensures full { IsErrOf result (NotNoted.Memory visit)
        → IsFullFor ⟦<Visit as Ranked>⟧.ranks visits.old visit }
{
    let number = visit.number;
    let page = visit.page;
    match visits.entry(&number, &page) {
        Entry::Vacant(free) => match free.insert(visit) {
            Ok(_lent) => return Ok(()),
            Err(e) => return Err(NotNoted::Memory(e.into_item())),
        },
        Entry::Occupied(_found) => return Err(NotNoted::Occupied(visit)),
    }
}

/// Removes the visit with this number and the visit of this page, which may be the same. Returns them in this order.
pub fn take_visits(visits: &mut BiHashMap<Visit>, number: u64, page: u32) -> UpToTwo<Visit>
    ensures named { result ≡ listing (⟦<Visit as Ranked>⟧.key_tests number page) (bag visits.old) }
    ensures left { IsPermutation (bag visits.old) (result ++ bag visits.new) }
{
    match visits.entry(&number, &page) {
        Entry::Vacant(_free) => UpToTwo::new(),
        Entry::Occupied(found) => found.remove(),
    }
}
