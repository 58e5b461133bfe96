//! Replacing an item by one with other keys.
ghost use Rattle.std.specs.Prelude.{◌≡◌, ◌∷◌, ◌==◌, Some, IsPermutation, IfOk, IfErr, OnErr};
ghost use Rattle.iddqd_bi.specs.Rekeyed.{TellsWhyNot, refused_item};
ghost use Rattle.iddqd_bi.specs.Bag.{IsOnly};
ghost use Rattle.iddqd_bi.specs.Map.{bag};

use iddqd_bi::{BiHashItem, BiHashMap, NotReplaced, Ranked};

/// A desk, known by its number and by who sits at it.
#[derive(Drop)]
pub struct Desk {
    pub number: u32,
    pub person: u64,
}

impl BiHashItem for Desk {
    type K1 = u32;

    type K2 = u64;

    ghost key1 = { λ d. d.number };

    ghost key2 = { λ d. d.person };

    fn key1(&self) -> &u32 {
        &self.number
    }

    fn key2(&self) -> &u64 {
        &self.person
    }
}

/// Moves a person to another desk, and returns the one that is free then. The desk moved to has to be free.
pub fn move_to(
    desks: &mut BiHashMap<Desk>,
    person: u64,
    number: u32,
) -> Result<Desk, NotReplaced<Desk>>
    ensures was { IfOk result (λ d. IsOnly (λ d. person == d.person) (bag desks.old) (Some d)) }
    ensures moved { IfOk result (λ d. IsPermutation (d ∷ bag desks.new)
        (record { number = number; person = person } ∷ bag desks.old)) }
    ensures unchanged { OnErr result (desks.new ≡ desks.old) }
    ensures handed_back { IfErr result (λ e. refused_item e ≡ record { number = number; person = person }) }
    ensures reason { IfErr result (λ e. TellsWhyNot ⟦<Desk as Ranked>⟧.ranks (λ d. person == d.person)
        (bag desks.old) (record { number = number; person = person }) e) }
{
    desks.rekey2(&person, Desk { number, person })
}
