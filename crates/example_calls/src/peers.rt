//! A struct as a key, and an item with data that can be written.
ghost use Rattle.std.specs.Prelude.{◌≡◌, ◌==◌, Some, None, IsPermutation, option_copied};
ghost use Rattle.std.proofs.Common.{rules};
ghost use Rattle.iddqd_bi.specs.Bag.{IsOnly, swap};
ghost use Rattle.iddqd_bi.specs.Map.{bag};

use iddqd_bi::{BiHashItem, BiHashItemMut, BiHashMap, Ranked};

/// The address of a peer.
#[derive(PartialEq, Eq, Hash, Clone, Copy)]
pub struct Peer {
    pub host: u32,
    pub port: u16,
}

/// A session, known by its token and by its peer, with the time at which it was last seen.
#[derive(Drop)]
pub struct Session {
    pub token: u64,
    pub peer: Peer,
    pub seen: u64,
}

impl BiHashItem for Session {
    type K1 = u64;

    type K2 = Peer;

    ghost key1 = { λ s. s.token };

    ghost key2 = { λ s. s.peer };

    fn key1(&self) -> &u64 {
        &self.token
    }

    fn key2(&self) -> &Peer {
        &self.peer
    }
}

impl BiHashItemMut for Session {
    type Data = u64;

    ghost data_of = { λ s. s.seen };

    ghost put = { λ s t. record s { seen = t } };

    ghost keeps_key1 = { Prim.search rules };

    ghost keeps_key2 = { Prim.search rules };

    ghost put_shows = { Prim.search rules };

    fn data_mut(&mut self) -> &mut u64 {
        &mut self.seen
    }
}

/// Returns the session with this peer, if there is one.
pub fn with_peer<'s>(sessions: &'s BiHashMap<Session>, peer: &Peer) -> Option<&'s Session>
    ensures { IsOnly (λ s. ⟦<Peer as PartialEq>⟧.eq peer.now s.peer) (bag sessions.now) (option_copied result) }
{
    sessions.get2(peer)
}

/// Notes when the session with this token was last seen, if there is one.
pub fn touch(sessions: &mut BiHashMap<Session>, token: u64, now: u64)
    ensures present { (s : Session) → IsOnly (λ s. token == s.token) (bag sessions.old) (Some s)
        → IsPermutation (bag sessions.new)
        (swap ⟦<Session as Ranked>⟧.ranks (bag sessions.old) s (record s { seen = now })) }
    ensures absent { IsOnly (λ s. token == s.token) (bag sessions.old) None → sessions.new ≡ sessions.old }
{
    if let Some(mut session) = sessions.get1_mut(&token) {
        *session.data_mut() = now;
    }
}
