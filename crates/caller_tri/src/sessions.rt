//! A table of sessions, each known by its number, by its user and by its token.
ghost use Rattle.std.specs.Prelude.{◌≡◌, ◌<◌, [], ◌∷◌, ◌++◌, ◌==◌, length, IsOk, All, IsPermutation, OnOk, OnErr, IfErr, Some, filter, option_copied};
ghost use Rattle.std.specs.Option.{option_to_list};
ghost use Rattle.iddqd_tri.specs.Bag.{IsOnly, conflicts_of};
ghost use Rattle.iddqd_tri.specs.Callers.{IsRejected};
ghost use Rattle.iddqd_tri.specs.Map.{bag, Loses};

use crate::loading::load;
use iddqd_tri::{InsertReason, Ranked, TriHashItem, TriHashMap};
use std::hash::BuildHasher;

/// A session.
#[derive(Drop)]
pub struct Session {
    id: u64,
    user: u32,
    token: String,
}

impl TriHashItem for Session {
    type K1 = u64;

    type K2 = u32;

    type K3 = String;

    ghost key1 = { λ s. s.id };

    ghost key2 = { λ s. s.user };

    ghost key3 = { λ s. s.token };

    fn key1(&self) -> &u64 {
        &self.id
    }

    fn key2(&self) -> &u32 {
        &self.user
    }

    fn key3(&self) -> &String {
        &self.token
    }
}

/// Opens a session, or returns it if its number, its user or its token is taken, or if there is no memory.
pub fn open<S: BuildHasher>(
    sessions: &mut TriHashMap<Session, S>,
    session: Session,
) -> Result<(), Session>
    ensures opened { OnOk result (IsPermutation (bag sessions.new) (session ∷ bag sessions.old)) }
    ensures granted { conflicts_of ⟦<Session as Ranked>⟧.ranks (bag sessions.old) session ≡ []
        → length (bag sessions.old) < sessions.old.capacity → IsOk result }
    ensures handed_back { IfErr result (λ s. s ≡ session) }
    ensures unchanged { OnErr result (sessions.new ≡ sessions.old) }
{
    match sessions.insert_unique(session) {
        Ok(()) => Ok(()),
        Err(refusal) => Err(refusal.into_item()),
    }
}

/// Opens all of these sessions, each of which is then found by its token, or none of them. The error is the first
/// session that conflicts with an open one or with an earlier one of the list, or for which there was no memory.
pub fn open_all<S: BuildHasher>(
    sessions: &mut TriHashMap<Session, S>,
    batch: Vec<Session>,
) -> Result<(), Session>
    ensures opened { OnOk result (IsPermutation (bag sessions.new) (batch.items ++ bag sessions.old)) }
    ensures found { OnOk result (All (λ s.
        IsOnly (λ t. ⟦<String as PartialEq>⟧.eq s.token t.token) (bag sessions.new) (Some s)) batch.items) }
    ensures unchanged { OnErr result (IsPermutation (bag sessions.new) (bag sessions.old)) }
    ensures rejected { IfErr result (λ s. (reason : InsertReason)
        × IsRejected ⟦<Session as Ranked>⟧.ranks (bag sessions.old) batch.items s reason) }
{
    match load(sessions, batch) {
        Ok(()) => Ok(()),
        Err((session, _reason)) => Err(session),
    }
}

/// Returns the session with this token, if there is one.
pub fn by_token<'s, S: BuildHasher>(
    sessions: &'s TriHashMap<Session, S>,
    token: &String,
) -> Option<&'s Session>
    ensures { option_to_list (option_copied result)
        ≡ filter (λ s. ⟦<String as PartialEq>⟧.eq token.now s.token) (bag sessions.now) }
{
    sessions.get3(token)
}

/// Closes the session of this user, and returns it, if there is one.
pub fn close_of_user<S: BuildHasher>(
    sessions: &mut TriHashMap<Session, S>,
    user: u32,
) -> Option<Session>
    ensures taken { option_to_list result ≡ filter (λ s. user == s.user) (bag sessions.old) }
    ensures loses { Loses sessions.old (option_to_list result) sessions.new }
{
    sessions.remove2(&user)
}
