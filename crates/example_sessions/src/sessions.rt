//! Sessions, each known by its number, by its token and by the peer that it is with, the one that was not seen for longest first.
ghost use Rattle.std.specs.Prelude.{◌≡◌, ◌==◌, false, filter, map, nat_le, not, length, OnOk, OnErr, IfOk, IfErr, option_copied};
ghost use Rattle.std.proofs.Common.{rules};
ghost use Rattle.std.specs.List.{list_any};
ghost use Rattle.std.specs.Ordering.{nat_cmp};
ghost use Rattle.iddqd_store.specs.Bag.{IsOnly, conflicting};
ghost use Rattle.iddqd_sorted.specs.Batches.{with_items};
ghost use Rattle.iddqd_sorted.specs.Items.{IsFullFor, by_sort, items};
ghost use Rattle.iddqd_sorted.specs.Overwriting.{overwritten};

use iddqd_sorted::{Sortable, TriHashOrdMap};
use iddqd_tri::{MemoryRefused, Ranked, TriHashItem, TriHashItemMut, UpToThree};
use std::hash::RandomState;

/// The address of a peer.
#[derive(PartialEq, Eq, Hash, Clone, Copy)]
pub struct Peer {
    pub host: u32,
    pub port: u16,
}

/// A session, with the time at which it was last seen.
#[derive(Drop)]
pub struct Session {
    pub id: u32,
    pub token: u64,
    pub peer: Peer,
    pub seen: u64,
}

impl TriHashItem for Session {
    type K1 = u32;

    type K2 = u64;

    type K3 = Peer;

    ghost key1 = { λ s. s.id };

    ghost key2 = { λ s. s.token };

    ghost key3 = { λ s. s.peer };

    fn key1(&self) -> &u32 {
        &self.id
    }

    fn key2(&self) -> &u64 {
        &self.token
    }

    fn key3(&self) -> &Peer {
        &self.peer
    }
}

impl TriHashItemMut for Session {
    type Data = u64;

    ghost data_of = { λ s. s.seen };

    ghost put = { λ s seen. record s { seen = seen } };

    ghost keeps_key1 = { Prim.search rules };

    ghost keeps_key2 = { Prim.search rules };

    ghost keeps_key3 = { Prim.search rules };

    ghost put_shows = { Prim.search rules };

    fn data_mut(&mut self) -> &mut u64 {
        &mut self.seen
    }
}

impl Sortable for Session {
    type SortKey = u64;

    ghost sort_key = { λ s. s.seen };

    fn sort_key(&self) -> u64 {
        self.seen
    }
}

/// The open sessions. Attackers may choose the tokens and the peers, so the hashes have a random seed. With a fixed
/// seed, attackers could choose keys with the same home bucket in the table, and each lookup would probe them all.
pub type Sessions = TriHashOrdMap<Session, RandomState>;

/// Opens a session. The sessions with its number, its token or its peer are closed, and returned in this order.
pub fn open(
    sessions: &mut Sessions,
    session: Session,
) -> Result<UpToThree<Session>, MemoryRefused<Session>>
    ensures opened { OnOk result (items sessions.new ≡ overwritten ⟦<Session as Ranked>⟧.ranks
        (by_sort (λ s. s.seen) nat_cmp (λ s. s.id) nat_cmp) (items sessions.old) session) }
    ensures closed { IfOk result (λ closed. closed ≡ conflicting ⟦<Session as Ranked>⟧.ranks (items sessions.old) session) }
    ensures unchanged { OnErr result (sessions.new ≡ sessions.old) }
    ensures reason { OnErr result (IsFullFor ⟦<Session as Ranked>⟧.ranks sessions.old session) }
    ensures handed_back { IfErr result (λ e. e.value ≡ session) }
{
    sessions.insert_overwrite(session)
}

/// Returns the session with this token, if there is one.
pub fn by_token(sessions: &Sessions, token: u64) -> Option<&Session>
    ensures { IsOnly (λ s. token == s.token) (items sessions.now) (option_copied result) }
{
    sessions.get2(&token)
}

/// Returns the session with this peer, if there is one.
pub fn with_peer<'s>(sessions: &'s Sessions, peer: &Peer) -> Option<&'s Session>
    ensures { IsOnly (λ s. ⟦<Peer as PartialEq>⟧.eq peer.now s.peer) (items sessions.now) (option_copied result) }
{
    sessions.get3(peer)
}

/// Notes when the session with this token was last seen, and returns whether there is one. It moves to the place of this time.
pub fn touch(sessions: &mut Sessions, token: u64, now: u64) -> bool
    ensures found { result ≡ list_any (λ s. token == s.token) (items sessions.old) }
    ensures moved { items sessions.new ≡ with_items (by_sort (λ s. s.seen) nat_cmp (λ s. s.id) nat_cmp)
        (filter (λ s. not (token == s.token)) (items sessions.old))
        (map (λ (s : Session). record s { seen = now }) (filter (λ s. token == s.token) (items sessions.old))) }
    ensures unchanged { result ≡ false → sessions.new ≡ sessions.old }
{
    sessions.update2(&token, |_| now)
}

/// Closes the sessions that have not been seen since this time. It looks at these alone, and at one more.
pub fn expire(sessions: &mut Sessions, since: u64)
    ensures closed { items sessions.new ≡ filter (λ s. nat_le since s.seen) (items sessions.old) }
    ensures capacity { sessions.new.capacity ≡ sessions.old.capacity }
{
    sessions.drop_before(&since);
}

/// Returns how many sessions are open.
pub fn count(sessions: &Sessions) -> usize
    ensures { result ≡ length (items sessions.now) }
{
    sessions.len()
}
