//! Sessions, each known by its number, by its token and by the peer that it is with.
ghost use Rattle.std.specs.Prelude.{◌≡◌, ◌==◌, ◌∷◌, IsPermutation, OnOk, OnErr, IfOk, IfErr, IfSome, IfNone, option_copied};
ghost use Rattle.iddqd_tri.specs.Bag.{IsOnly, conflicting, with_item};
ghost use Rattle.iddqd_tri.specs.Map.{IsFullFor, bag};

use iddqd_tri::{MemoryRefused, Ranked, TriHashItem, TriHashMap, UpToThree};
use serde::{Deserialize, Serialize};
use std::hash::RandomState;

/// The address of a peer.
#[derive(PartialEq, Eq, Hash, Clone, Copy, Serialize, Deserialize)]
pub struct Peer {
    pub host: u32,
    pub port: u16,
}

/// A session, with the time at which it was last seen.
#[derive(Drop, Serialize, Deserialize)]
pub struct Session {
    pub id: u32,
    pub token: u64,
    pub peer: Peer,
    pub seen: u64,
}

impl TriHashItem for Session {
    type K1 = u32;

    type K2 = u64;

    type K3 = Peer;

    ghost key1 = { λ s. s.id };

    ghost key2 = { λ s. s.token };

    ghost key3 = { λ s. s.peer };

    fn key1(&self) -> &u32 {
        &self.id
    }

    fn key2(&self) -> &u64 {
        &self.token
    }

    fn key3(&self) -> &Peer {
        &self.peer
    }
}

/// The open sessions. Attackers may choose the tokens and the peers, so the hashes have a random seed. With a fixed
/// seed, attackers could choose keys with the same home bucket in the table, and each lookup would probe them all.
pub type Sessions = TriHashMap<Session, RandomState>;

/// Opens a session. The sessions with its number, its token or its peer are closed, and returned in this order.
pub fn open(
    sessions: &mut Sessions,
    session: Session,
) -> Result<UpToThree<Session>, MemoryRefused<Session>>
    ensures opened { OnOk result (IsPermutation (bag sessions.new)
        (with_item ⟦<Session as Ranked>⟧.ranks (bag sessions.old) session)) }
    ensures closed { IfOk result (λ closed. closed ≡ conflicting ⟦<Session as Ranked>⟧.ranks (bag sessions.old) session) }
    ensures unchanged { OnErr result (sessions.new ≡ sessions.old) }
    ensures reason { OnErr result (IsFullFor ⟦<Session as Ranked>⟧.ranks sessions.old session) }
    ensures handed_back { IfErr result (λ e. e.value ≡ session) }
{
    sessions.insert_overwrite(session)
}

/// Returns the session with this token, if there is one.
pub fn by_token(sessions: &Sessions, token: u64) -> Option<&Session>
    ensures { IsOnly (λ s. token == s.token) (bag sessions.now) (option_copied result) }
{
    sessions.get2(&token)
}

/// Closes the session with this token, and returns it, if there is one.
pub fn close(sessions: &mut Sessions, token: u64) -> Option<Session>
    ensures it { IsOnly (λ s. token == s.token) (bag sessions.old) result }
    ensures gone { IfSome result (λ s. IsPermutation (bag sessions.old) (s ∷ bag sessions.new)) }
    ensures none { IfNone result (sessions.new ≡ sessions.old) }
{
    sessions.remove2(&token)
}
