//! Inserting an item in place of all that conflict with it, and using the items that were removed.
ghost use Rattle.std.specs.Prelude.{◌≡◌, ◌≤◌, ◌==◌, [], true, All, IsPermutation, OnOk, OnErr, IfOk, IfErr, IfSome, IfNone, slice_get};
ghost use Rattle.std.specs.List.{list_any};
ghost use Rattle.iddqd_bi.specs.Bag.{conflicting, with_item};
ghost use Rattle.iddqd_bi.specs.Map.{IsFullFor, bag};

use iddqd_bi::{BiHashItem, BiHashMap, MemoryRefused, Ranked, UpToTwo};
use std::alloc::{AllocError, Global};

/// A guest, known by a passport and by a room.
#[derive(Drop)]
pub struct Guest {
    pub passport: u64,
    pub room: u32,
}

impl BiHashItem for Guest {
    type K1 = u64;

    type K2 = u32;

    ghost key1 = { λ g. g.passport };

    ghost key2 = { λ g. g.room };

    fn key1(&self) -> &u64 {
        &self.passport
    }

    fn key2(&self) -> &u32 {
        &self.room
    }
}

/// Opens a house without guests, with memory for as many guests as rooms.
pub fn open_house(alloc: Global, rooms: usize) -> Result<BiHashMap<Guest>, AllocError>
    ensures empty { IfOk result (λ guests. bag guests ≡ []) }
    ensures rooms { IfOk result (λ guests. guests.capacity ≡ rooms) }
{
    let guests = BiHashMap::with_capacity(alloc, rooms)?;
    Ok(guests)
}

/// Checks a guest in. Whoever has the passport or the room is checked out and returned, the one with the passport
/// first.
pub fn check_in(
    guests: &mut BiHashMap<Guest>,
    guest: Guest,
) -> Result<UpToTwo<Guest>, MemoryRefused<Guest>>
    ensures in_and_out { OnOk result (IsPermutation (bag guests.new)
        (with_item ⟦<Guest as Ranked>⟧.ranks (bag guests.old) guest)) }
    ensures gone { IfOk result (λ gone. gone ≡ conflicting ⟦<Guest as Ranked>⟧.ranks (bag guests.old) guest) }
    ensures unchanged { OnErr result (guests.new ≡ guests.old) }
    ensures reason { OnErr result (IsFullFor ⟦<Guest as Ranked>⟧.ranks guests.old guest) }
    ensures handed_back { IfErr result (λ e. e.value ≡ guest) }
{
    guests.insert_overwrite(guest)
}

/// Returns the first of those that were checked out, if there is one.
pub fn first_gone(gone: UpToTwo<Guest>) -> Option<Guest>
    ensures { result ≡ slice_get gone 0 }
{
    let mut gone = gone;
    gone.pop_front()
}

/// Returns the highest room of those that were checked out, if there is one.
pub fn highest_room(gone: &UpToTwo<Guest>) -> Option<u32>
    ensures none { IfNone result (gone.now ≡ []) }
    ensures theirs { IfSome result (λ room. list_any (λ g. room == g.room) gone.now ≡ true) }
    ensures highest { IfSome result (λ room. All (λ g. g.room ≤ room) gone.now) }
{
    gone.iter().map(|guest| guest.room).max()
}
