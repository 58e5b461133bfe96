//! Sessions that were saved, which are opened again as a whole, or not at all.
ghost use Rattle.std.specs.Prelude.{◌≡◌, ◌<◌, ◌==◌, ◌||◌, ◌++◌, ◌∷◌, [], ℕ, true, false, Some, length, take, slice_get, IsPermutation, OnOk, OnErr, IfOk, IfErr, IfSome, IfNone, IsSomeAnd};
ghost use Rattle.std.specs.List.{list_any};
ghost use Rattle.std.specs.Ordering.{nat_cmp};
ghost use Rattle.iddqd_sorted.specs.Batches.{with_items};
ghost use Rattle.iddqd_sorted.specs.Items.{by_sort, items};

use crate::sessions::{Peer, Session, Sessions};
use iddqd_sorted::ExtendUniqueError;
use iddqd_tri::Rejected;
use std::alloc::{AllocError, Global};

/// Opens saved sessions as a whole, each at its place. If that fails, none is opened, and the error has the one that was
/// rejected, those before it, and which of its keys one of these or of the open sessions has. If none is taken, there was no memory.
fn open_all(
    sessions: &mut Sessions,
    saved: Vec<Session>,
) -> Result<(), ExtendUniqueError<Session, Rejected<Session>>>
    ensures all { OnOk result (IsPermutation (items sessions.new) (saved.items ++ items sessions.old)) }
    ensures in_order { OnOk result (items sessions.new
        ≡ with_items (by_sort (λ s. s.seen) nat_cmp (λ s. s.id) nat_cmp) (items sessions.old) saved.items) }
    ensures none { OnErr result (items sessions.new ≡ items sessions.old) }
    ensures which { IfErr result (λ e. slice_get saved.items (length e.before.items) ≡ Some e.rejected.item) }
    ensures before { IfErr result (λ e. take (length e.before.items) saved.items ≡ e.before.items) }
    ensures id_taken { IfErr result (λ e. e.rejected.taken1
        ≡ list_any (λ s. e.rejected.item.id == s.id) (e.before.items ++ items sessions.old)) }
    ensures token_taken { IfErr result (λ e. e.rejected.taken2
        ≡ list_any (λ s. e.rejected.item.token == s.token) (e.before.items ++ items sessions.old)) }
    ensures peer_taken { IfErr result (λ e. e.rejected.taken3
        ≡ list_any (λ s. ⟦<Peer as PartialEq>⟧.eq e.rejected.item.peer s.peer) (e.before.items ++ items sessions.old)) }
{
    match sessions.extend_unique(saved) {
        Ok(()) => Ok(()),
        Err(rejected) => Err(rejected),
    }
}

/// Returns the place of the first of these sessions that has the number, the token or the peer of this one, if there is one.
fn first_like(sessions: &[Session], session: &Session) -> Option<usize>
    ensures found { IfSome result (λ at. IsSomeAnd (slice_get sessions.now at) (λ s.
        ((session.now.id == s.id) || ((session.now.token == s.token)
        || ⟦<Peer as PartialEq>⟧.eq session.now.peer s.peer)) ≡ true)) }
    ensures first { IfSome result (λ at. (before : ℕ) → before < at → IfSome (slice_get sessions.now before) (λ s.
        ((session.now.id == s.id) || ((session.now.token == s.token)
        || ⟦<Peer as PartialEq>⟧.eq session.now.peer s.peer)) ≡ false)) }
    ensures none { IfNone result ((at : ℕ) → IfSome (slice_get sessions.now at) (λ s.
        ((session.now.id == s.id) || ((session.now.token == s.token)
        || ⟦<Peer as PartialEq>⟧.eq session.now.peer s.peer)) ≡ false)) }
{
    sessions.iter().position(|s| session.id == s.id
        || (session.token == s.token || session.peer == s.peer))
}

/// Why the saved sessions were not opened: the line of the one that was rejected, and which of its keys are taken. If none
/// is, there was no memory.
#[derive(Clone, Copy)]
pub struct Fault {
    pub line: u64,
    pub id: bool,
    pub token: bool,
    pub peer: bool,
    /// The line of the first saved session that has one of these keys. If there is none, an open session has it.
    pub earlier: Option<u64>,
}

/// Returns what is wrong with a session that was rejected, behind those before it. The lines are those of the saved sessions.
fn fault_of(before: &[Session], rejected: &Rejected<Session>, lines: &[u64]) -> Fault
    requires { length before.now < length lines.now }
    ensures line { slice_get lines.now (length before.now) ≡ Some result.line }
    ensures keys { (result.id ≡ rejected.now.taken1) × (result.token ≡ rejected.now.taken2)
        × (result.peer ≡ rejected.now.taken3) }
{
    Fault {
        line: lines[before.len()],
        id: rejected.taken1,
        token: rejected.taken2,
        peer: rejected.taken3,
        earlier: match first_like(before, &rejected.item) {
            Some(at) => lines.get(at).copied(),
            None => None,
        },
    }
}

/// Saved sessions, and the line of each.
#[derive(Drop)]
pub struct Saved {
    sessions: Vec<Session>,
    lines: Vec<u64>,
    ghost paired: { length lines.items ≡ length sessions.items },
}

impl Saved {
    /// Makes a list of no sessions.
    pub fn new(alloc: Global) -> Saved {
        Saved {
            sessions: Vec::new(alloc),
            lines: Vec::new(alloc),
        }
    }

    /// Adds the session of this line.
    pub fn add(&mut self, line: u64, session: Session) -> Result<(), AllocError>
        ensures added { OnOk result (self.new.sessions.items ≡ self.old.sessions.items ++ session ∷ []) }
        ensures same { OnErr result (self.new.sessions.items ≡ self.old.sessions.items) }
        ensures lines { OnOk result (self.new.lines.items ≡ self.old.lines.items ++ line ∷ []) }
        ensures same_lines { OnErr result (self.new.lines.items ≡ self.old.lines.items) }
    {
        self.lines.push(line)?;
        if self.sessions.push(session).is_err() {
            self.lines.pop();
            return Err(AllocError);
        }
        Ok(())
    }

    /// Opens all of the sessions, and returns how many they are, or none of them.
    pub fn open(self, sessions: &mut Sessions) -> Result<usize, Fault>
        ensures all { IfOk result (λ count. (count ≡ length self.sessions.items)
            × IsPermutation (items sessions.new) (self.sessions.items ++ items sessions.old)) }
        ensures in_order { OnOk result (items sessions.new
            ≡ with_items (by_sort (λ s. s.seen) nat_cmp (λ s. s.id) nat_cmp) (items sessions.old) self.sessions.items) }
        ensures none { OnErr result (items sessions.new ≡ items sessions.old) }
    {
        match open_all(sessions, self.sessions) {
            Ok(()) => Ok(self.lines.len()),
            Err(e) => Err(fault_of(e.before.as_slice(), &e.rejected, self.lines.as_slice())),
        }
    }
}
