//! Updating items by closures, where two fields can be written.
ghost use Rattle.std.specs.Prelude.{◌≡◌, ◌==◌, ◌<◌, ◌+◌, ◌^◌, true, false, map, Some, All, IsPermutation};
ghost use Rattle.std.proofs.Common.{rules};
ghost use Rattle.iddqd_id.specs.Bag.{IsOnly, swap};
ghost use Rattle.iddqd_id.specs.Map.{bag};

use iddqd_id::{IdHashItem, IdHashItemMut, IdHashMap, Ranked};

/// When and at which door a card was last used.
#[derive(Clone, Copy)]
pub struct LastUse {
    pub time: u64,
    pub door: u32,
}

/// A card, known by its number, with its holder and its last use.
#[derive(Drop)]
pub struct Card {
    pub number: u64,
    pub holder: u32,
    pub last: LastUse,
}

impl IdHashItem for Card {
    type Key = u64;

    ghost key = { λ c. c.number };

    fn key(&self) -> &u64 {
        &self.number
    }
}

impl IdHashItemMut for Card {
    type Data = LastUse;

    ghost data_of = { λ c. c.last };

    ghost put = { λ c u. record c { last = u } };

    ghost keeps_key = { Prim.search rules };

    ghost put_shows = { Prim.search rules };

    fn data_mut(&mut self) -> &mut LastUse {
        &mut self.last
    }
}

/// Notes that a card was used, and returns whether there is such a card.
pub fn note_use(cards: &mut IdHashMap<Card>, number: u64, time: u64, door: u32) -> bool
    ensures noted { result ≡ true → (c : Card) × IsOnly (λ c. number == c.number) (bag cards.old) (Some c)
        × IsPermutation (bag cards.new) (swap ⟦<Card as Ranked>⟧.ranks (bag cards.old) c
        (record c { last = record { time = time; door = door } })) }
    ensures absent { result ≡ false → cards.new ≡ cards.old }
{
    cards.update(&number, |_card| LastUse { time, door })
}

/// Forgets at which doors the cards were used, but not when.
pub fn forget_doors(cards: &mut IdHashMap<Card>)
    ensures { IsPermutation (bag cards.new)
        (map (λ (c : Card). record c { last = record { time = c.last.time; door = 0 } }) (bag cards.old)) }
{
    cards.update_all(|card| LastUse {
        time: card.last.time,
        door: 0,
    });
}

/// Adds one to the time of each last use, for example because a clock was slow. No time may be the largest number of
/// its type.
pub fn correct_times(cards: &mut IdHashMap<Card>)
    requires { All (λ c. c.last.time + 1 < 2 ^ 64) (bag cards.old) }
    ensures { IsPermutation (bag cards.new)
        (map (λ (c : Card). record c { last = record { time = c.last.time + 1; door = c.last.door } }) (bag cards.old)) }
{
    cards.update_all(|card| LastUse {
        time: card.last.time + 1,
        door: card.last.door,
    });
}
