//! What a search by a key asks: the table asks about a slot, and `ByKey` asks about the key of the item there.
ghost use Rattle.std.specs.Prelude.{◌≡◌, refl, false, Some, ⊤};
ghost use Rattle.std.specs.List.{IsDistinct};
ghost use Rattle.std.proofs.Common.{ap, sym, ◌∙◌};
ghost use Rattle.iddqd_store.specs.Slots.{contents, get};
ghost use Rattle.iddqd_store.specs.Rank.{agree};
ghost use Rattle.iddqd_store.specs.Rank.Asking.{passes_kept};
ghost use Rattle.iddqd_store.specs.Rank.Index.{passes_at};

use super::KeyOf;
use crate::index_table::{KeyMatcher, Matcher, Meter};
use crate::item_set::{ItemIndex, ItemSet};
use crate::query::Query;
use std::hash::Hash;
use std::marker::PhantomData;

/// Turns a question about a slot into one about the key of the item there. A slot without an item is not accepted. No two
/// items may have equal keys, so that questions about two slots are about two keys.
#[derive(Drop)]
pub(crate) struct ByKey<'a, T, R: KeyOf<T>, M: KeyMatcher<R::Key>> {
    pub(crate) items: &'a ItemSet<T>,
    pub(crate) keys: &'a mut M,
    pub(crate) rank: PhantomData<R>,
}

impl<'a, T, R: KeyOf<T>, M: KeyMatcher<R::Key>> Matcher for ByKey<'a, T, R, M> {
    ghost accepts = { λ m slot. passes_at (λ x. M.accepts m.keys.now (R.key x)) m.items.now.slots slot };

    ghost asked = { λ m. M.asked m.keys.now };

    ghost MayAsk = { λ m slot. IsDistinct (agree R.key R.Key.eq) (contents m.items.now.slots)
        × ((x : T) → get m.items.now.slots slot ≡ Some x → M.MayAsk m.keys.now (R.key x)) };

    ghost IsKept = { λ m n. (n.items ≡ m.items) × (n.keys.ghost_name ≡ m.keys.ghost_name)
        × M.IsKept m.keys.now n.keys.now };

    ghost accepts_kept = { λ m n slot k. passes_kept _ _
        (λ x. M.accepts_kept m.keys.now n.keys.now (R.key x) k.2) _ _ slot (ap (λ i. i.now.slots) k.0) };

    ghost kept_refl = { λ m. (refl, refl, M.kept_refl m.keys.now) };

    ghost kept_trans = { λ m n o p q. (q.0 ∙ p.0, q.1 ∙ p.1, M.kept_trans m.keys.now n.keys.now o.keys.now p.2 q.2) };

    fn matches(&mut self, slot: ItemIndex) -> bool {
        match self.items.get(slot) {
            Some(item) => self.keys.matches(R::key(item)),
            None => false,
        }
    }
}

/// Accepts the keys that a query stands for, and counts the keys that it was asked about on a meter.
#[derive(Drop)]
pub struct ByQuery<'a, Q> {
    query: &'a Q,
    asked: &'a mut Meter,
}

impl<'a, Q> ByQuery<'a, Q> {
    /// Makes a matcher that counts on this meter.
    #[inline(always)]
    pub fn new(query: &'a Q, asked: &'a mut Meter) -> Self
        ensures query { result.query ≡ query.entry }
        ensures asked { result.asked.ghost_name ≡ asked.entry.ghost_name }
        ensures so_far { result.asked.now ≡ asked.old }
    {
        ByQuery { query, asked }
    }
}

impl<'a, K: Eq + Hash, Q: Query<K>> KeyMatcher<K> for ByQuery<'a, Q> {
    ghost accepts = { λ m key. Q.stands_for m.query.now key };

    ghost asked = { λ m. m.asked.now };

    ghost MayAsk = { λ _ _. ⊤ };

    ghost IsKept = { λ m n. (n.query ≡ m.query) × (n.asked.ghost_name ≡ m.asked.ghost_name) };

    ghost accepts_kept = { λ m n key e. ap (λ q. Q.stands_for q.now key) e.0 };

    ghost kept_refl = { λ m. (refl, refl) };

    ghost kept_trans = { λ m n o p q. (q.0 ∙ p.0, q.1 ∙ p.1) };

    fn matches(&mut self, key: &K) -> bool {
        self.asked.tick();
        self.query.stands_for(key)
    }
}
