//! A map among the traits of std: collected, extended, compared, cloned and printed with the struct that has it.
ghost use Rattle.std.specs.Prelude.{◌≡◌, ◌∷◌, [], IsTrue, IsSome, OnOk, IfOk, IfSome, IfNone, length, IsPermutation, nat_eq};
ghost use Rattle.std.specs.HashMap.{get};
ghost use Rattle.std.proofs.Common.{rules};
ghost use Rattle.iddqd_bi.specs.Bag.{IsCopy, is_same, conflicting, with_items};
ghost use Rattle.iddqd_bi.specs.Map.{bag};

use iddqd_bi::{BiHashItem, BiHashMap, ClonesKeys, Ranked};
use std::alloc::{AllocError, Global};
use std::collections::HashMap;

/// A badge, known by its number and by the name of its holder.
#[derive(Clone, Debug, Drop, PartialEq)]
pub struct DoorBadge {
    pub number: u64,
    pub holder: String,
}

impl BiHashItem for DoorBadge {
    type K1 = u64;

    type K2 = String;

    ghost key1 = { λ b. b.number };

    ghost key2 = { λ b. b.holder };

    fn key1(&self) -> &u64 {
        &self.number
    }

    fn key2(&self) -> &String {
        &self.holder
    }
}

/// What `Clone` asks for of a map's items: a clone has equal keys.
impl ClonesKeys for DoorBadge {
    ghost clone_key1 = { Prim.search rules };

    ghost clone_key2 = { Prim.search rules };
}

/// A floor with the badges that open its doors.
#[derive(Clone, Debug, Drop, PartialEq)]
pub struct Floor {
    pub level: u8,
    pub badges: BiHashMap<DoorBadge>,
}

/// Makes a map of badges. A later badge takes the place of earlier ones with its number or its holder.
pub fn issue(alloc: Global, badges: Vec<DoorBadge>) -> Result<BiHashMap<DoorBadge>, AllocError>
    ensures { IfOk result (λ map. IsPermutation (bag map) (with_items ⟦<DoorBadge as Ranked>⟧.ranks [] badges.items)) }
{
    badges.into_iter().collect::<BiHashMap<DoorBadge>>(alloc)
}

/// Returns a copy of the floor, or an error if there is no memory for it.
pub fn copy_of(floor: &Floor) -> Result<Floor, AllocError>
    ensures level { IfOk result (λ copy. copy.level ≡ floor.now.level) }
    ensures badges { IfOk result (λ copy. IsCopy ⟦<DoorBadge as Clone>⟧.is_clone (bag floor.now.badges) (bag copy.badges)) }
{
    floor.clone()
}

/// Returns whether two floors have the same level and the same badges, however these came to be.
pub fn is_alike(floor: &Floor, other: &Floor) -> bool
    ensures level { IsTrue result → floor.now.level ≡ other.now.level }
    ensures badges { IsTrue result → IsTrue (is_same ⟦<DoorBadge as Ranked>⟧.ranks ⟦<DoorBadge as PartialEq>⟧.eq
        (bag floor.now.badges) (bag other.now.badges)) }
    ensures whole { floor.now.level ≡ other.now.level → IsTrue (is_same ⟦<DoorBadge as Ranked>⟧.ranks
        ⟦<DoorBadge as PartialEq>⟧.eq (bag floor.now.badges) (bag other.now.badges)) → IsTrue result }
{
    floor == other
}

/// Gives a level a map of badges, which is empty, if it has none.
pub fn open_level(
    floors: &mut HashMap<u8, BiHashMap<DoorBadge>>,
    level: u8,
) -> Result<(), AllocError>
    ensures opened { OnOk result (IsSome (get nat_eq floors.new level)) }
    ensures kept { IsSome (get nat_eq floors.old level) → get nat_eq floors.new level ≡ get nat_eq floors.old level }
{
    let _badges = floors.entry(level)?.or_default();
    Ok(())
}

/// Returns how many badges have the number or the holder of this one.
pub fn conflicts(badges: &BiHashMap<DoorBadge>, badge: &DoorBadge) -> usize
    ensures { result ≡ length (conflicting ⟦<DoorBadge as Ranked>⟧.ranks (bag badges.now) badge.now) }
{
    badges.conflicts_with(badge).len()
}

/// Takes some badge back, if there is one.
pub fn take_back(badges: &mut BiHashMap<DoorBadge>) -> Option<DoorBadge>
    ensures taken { IfSome result (λ b. IsPermutation (bag badges.old) (b ∷ bag badges.new)) }
    ensures none { IfNone result (bag badges.old ≡ []) }
{
    badges.pop()
}
