//! An insert whose error owns the item and says which keys are taken. It is returned by `?`, or mapped.
ghost use Rattle.std.specs.Prelude.{◌≡◌, ◌<◌, ◌∷◌, [], true, false, length, IsOk, IsPermutation, OnOk, OnErr, IfErr, IfOk};
ghost use Rattle.iddqd_bi.specs.Bag.{conflicts_of};
ghost use Rattle.iddqd_bi.specs.Map.{bag};

use iddqd_bi::{BiHashItem, BiHashMap, Ranked, Rejected};

/// A badge, known by its number and by the person who wears it.
#[derive(Drop)]
pub struct Badge {
    pub number: u64,
    pub person: u32,
}

impl BiHashItem for Badge {
    type K1 = u64;

    type K2 = u32;

    ghost key1 = { λ b. b.number };

    ghost key2 = { λ b. b.person };

    fn key1(&self) -> &u64 {
        &self.number
    }

    fn key2(&self) -> &u32 {
        &self.person
    }
}

/// Why a badge was not handed out.
#[derive(Drop)]
pub enum NotHandedOut {
    /// Another badge has its number.
    Number,
    /// The person wears another badge.
    Person,
    /// There is no memory.
    Memory,
}

impl From<Rejected<Badge>> for NotHandedOut {
    ghost use Rattle.example_calls.specs.declared.badges.NotHandedOut.{NotHandedOut};

    ghost from_gives = { λ rejected e. (rejected.taken1 ≡ true → e ≡ NotHandedOut.Number)
        × (rejected.taken1 ≡ false → rejected.taken2 ≡ true → e ≡ NotHandedOut.Person)
        × (rejected.taken1 ≡ false → rejected.taken2 ≡ false → e ≡ NotHandedOut.Memory) };

    fn from(rejected: Rejected<Badge>) -> NotHandedOut {
        if rejected.taken1 {
            NotHandedOut::Number
        } else if rejected.taken2 {
            NotHandedOut::Person
        } else {
            NotHandedOut::Memory
        }
    }
}

/// Hands a badge out, and returns how many are out then.
pub fn hand_out(badges: &mut BiHashMap<Badge>, badge: Badge) -> Result<usize, NotHandedOut>
    ensures went_in { OnOk result (IsPermutation (bag badges.new) (badge ∷ bag badges.old)) }
    ensures granted { conflicts_of ⟦<Badge as Ranked>⟧.ranks (bag badges.old) badge ≡ []
        → length (bag badges.old) < badges.old.capacity → IsOk result }
    ensures unchanged { OnErr result (badges.new ≡ badges.old) }
    ensures count { IfOk result (λ n. n ≡ length (bag badges.new)) }
{
    badges.try_insert(badge)?;
    Ok(badges.len())
}

/// Hands a badge out, or returns it.
pub fn hand_out_or_back(badges: &mut BiHashMap<Badge>, badge: Badge) -> Result<(), Badge>
    ensures went_in { OnOk result (IsPermutation (bag badges.new) (badge ∷ bag badges.old)) }
    ensures granted { conflicts_of ⟦<Badge as Ranked>⟧.ranks (bag badges.old) badge ≡ []
        → length (bag badges.old) < badges.old.capacity → IsOk result }
    ensures handed_back { IfErr result (λ b. b ≡ badge) }
    ensures unchanged { OnErr result (badges.new ≡ badges.old) }
{
    badges.try_insert(badge).map_err(|rejected| rejected.item)
}
