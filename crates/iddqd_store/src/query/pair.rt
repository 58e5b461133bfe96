//! A pair of queries is a query for a pair of keys.
ghost use Rattle.std.specs.Prelude.{◌&&◌};
ghost use Rattle.std.specs.Cmp.Rules.{comparing, hashing};
ghost use Rattle.std.proofs.Common.{rules};

use super::Query;
use std::hash::Hash;

impl<A: Eq + Hash, B: Eq + Hash, P: Query<A>, Q: Query<B>> Query<(A, B)> for (P, Q) {
    ghost stands_for = { λ q k. P.stands_for q.0 k.0 && Q.stands_for q.1 k.1 };

    ghost respects_hash = { Prim.search (hashing, rules, P.respects_hash, Q.respects_hash) };

    ghost respects_eq = { Prim.search (comparing, rules, P.Query.respects_eq, Q.Query.respects_eq) };

    fn stands_for(&self, key: &(A, B)) -> bool {
        self.0.stands_for(&key.0) && self.1.stands_for(&key.1)
    }
}
