//! Entries that are filled where they are vacant, and items that gather values.
ghost use Rattle.std.specs.Prelude.{◌≡◌, ◌≢◌, ◌<◌, [], ◌∷◌, ◌++◌, if◌then◌else◌, true, false, length, vec_capacity, List, IsOk, IfErr, IfOk, IsPermutation, OnOk, OnErr};
ghost use Rattle.std.proofs.Common.{rules};
ghost use Rattle.std.specs.Bool.{OnTrue, OnFalse};
ghost use Rattle.iddqd_bi.specs.Bag.{conflicts_of, entry, non_unique, swap, unique, vacant};
ghost use Rattle.iddqd_bi.specs.Map.{IsFullFor, bag};

use iddqd_bi::{BiHashItem, BiHashItemMut, BiHashMap, Entry, Ranked, TryEntryError};
use std::alloc::{AllocError, Global};

/// A team, known by its number and by its laboratory, with the numbers of its members.
#[derive(Drop)]
pub struct Team {
    pub id: u64,
    pub lab: u32,
    pub members: Vec<u64>,
}

impl Team {
    /// Makes a team of one member.
    pub fn of(alloc: Global, id: u64, lab: u32, member: u64) -> Result<Team, AllocError>
        ensures { IfOk result (λ t. (t.id ≡ id) × (t.lab ≡ lab) × (t.members.items ≡ member ∷ [])) }
    {
        let mut members = Vec::new(alloc);
        members.push(member)?;
        Ok(Team { id, lab, members })
    }
}

impl BiHashItem for Team {
    type K1 = u64;

    type K2 = u32;

    ghost key1 = { λ t. t.id };

    ghost key2 = { λ t. t.lab };

    fn key1(&self) -> &u64 {
        &self.id
    }

    fn key2(&self) -> &u32 {
        &self.lab
    }
}

impl BiHashItemMut for Team {
    type Data = Vec<u64>;

    ghost data_of = { λ t. t.members };

    ghost put = { λ t m. record t { members = m } };

    ghost keeps_key1 = { Prim.search rules };

    ghost keeps_key2 = { Prim.search rules };

    ghost put_shows = { Prim.search rules };

    fn data_mut(&mut self) -> &mut Vec<u64> {
        &mut self.members
    }
}

/// Opens a team if no other has its number or its laboratory, and otherwise leaves the teams as they are. If there is no
/// memory for it, the error has the team.
pub fn open(teams: &mut BiHashMap<Team>, team: Team) -> Result<(), Team>
    ensures opened { conflicts_of ⟦<Team as Ranked>⟧.ranks (bag teams.old) team ≡ []
        → OnOk result (IsPermutation (bag teams.new) (team ∷ bag teams.old)) }
    ensures kept { conflicts_of ⟦<Team as Ranked>⟧.ranks (bag teams.old) team ≢ [] → IsOk result × (teams.new ≡ teams.old) }
    ensures unchanged { OnErr result (teams.new ≡ teams.old) }
    ensures handed_back { IfErr result (λ t. t ≡ team) }
    ensures full { OnErr result (IsFullFor ⟦<Team as Ranked>⟧.ranks teams.old team) }
{
    let id = team.id;
    let lab = team.lab;
    match teams.entry(&id, &lab).or_insert(team) {
        Ok(_held) => return Ok(()),
        Err(e) => return Err(e.into_item()),
    }
}

/// Adds a member to the team with both keys, which is opened if no team has one of them. Returns whether the member was
/// added: it is not if a team has one of the keys and another key of its own, or if there is no memory. Then each team has
/// the members that it had.
pub fn join(alloc: Global, teams: &mut BiHashMap<Team>, id: u64, lab: u32, member: u64) -> bool
    ensures joined { (t : Team) → entry (⟦<Team as Ranked>⟧.key_tests id lab) (bag teams.old) ≡ unique t
        → (u : Team) × (u.id ≡ t.id) × (u.lab ≡ t.lab)
        × (u.members.items ≡ (if result then t.members.items ++ member ∷ [] else t.members.items))
        × IsPermutation (bag teams.new) (swap ⟦<Team as Ranked>⟧.ranks (bag teams.old) t u) }
    ensures granted { (t : Team) → entry (⟦<Team as Ranked>⟧.key_tests id lab) (bag teams.old) ≡ unique t
        → length t.members.items < vec_capacity t.members → result ≡ true }
    ensures opened { entry (⟦<Team as Ranked>⟧.key_tests id lab) (bag teams.old) ≡ vacant
        → OnTrue result ((u : Team) × (u.id ≡ id) × (u.lab ≡ lab) × (u.members.items ≡ member ∷ [])
        × IsPermutation (bag teams.new) (u ∷ bag teams.old)) }
    ensures not_opened { entry (⟦<Team as Ranked>⟧.key_tests id lab) (bag teams.old) ≡ vacant
        → OnFalse result (teams.new ≡ teams.old) }
    ensures refused { (found : List Team)
        → entry (⟦<Team as Ranked>⟧.key_tests id lab) (bag teams.old) ≡ non_unique found
        → (result ≡ false) × (teams.new ≡ teams.old) }
{
    match teams.entry(&id, &lab) {
        Entry::Vacant(free) => match Team::of(alloc, id, lab, member) {
            Ok(team) => match free.insert(team) {
                Ok(_lent) => return true,
                Err(_refused) => return false,
            },
            Err(_no_memory) => return false,
        },
        Entry::Occupied(found) => {
            let mut held = found.into_mut();
            match held.data_unique_mut() {
                Some(members) => return members.push(member).is_ok(),
                None => return false,
            }
        }
    }
}

/// Opens a team with memory for this many members if no team has one of the keys. Only then is the memory requested.
pub fn open_for(
    alloc: Global,
    teams: &mut BiHashMap<Team>,
    id: u64,
    lab: u32,
    size: usize,
) -> Result<(), AllocError>
    ensures opened { entry (⟦<Team as Ranked>⟧.key_tests id lab) (bag teams.old) ≡ vacant
        → OnOk result ((t : Team) × (t.id ≡ id) × (t.lab ≡ lab) × (t.members.items ≡ [])
        × IsPermutation (bag teams.new) (t ∷ bag teams.old)) }
    ensures kept { entry (⟦<Team as Ranked>⟧.key_tests id lab) (bag teams.old) ≢ vacant
        → IsOk result × (teams.new ≡ teams.old) }
    ensures unchanged { OnErr result (teams.new ≡ teams.old) }
{
    let roomy = ||
        ensures { IfOk result (λ t. (t.id ≡ id) × (t.lab ≡ lab) × (t.members.items ≡ [])) }
    {
        let members = Vec::with_capacity(alloc, size)?;
        Ok(Team { id, lab, members })
    };
    match teams.entry(&id, &lab).or_try_insert_with(roomy) {
        Ok(_held) => return Ok(()),
        Err(e) => match e.into_error() {
            TryEntryError::Closure(error) => return Err(error),
            TryEntryError::Insert(_refused) => return Err(AllocError),
        },
    }
}
