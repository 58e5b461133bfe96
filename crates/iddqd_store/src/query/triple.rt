//! A tuple of three queries is a query for a tuple of three keys.
ghost use Rattle.std.specs.Prelude.{◌&&◌};
ghost use Rattle.std.specs.Cmp.Rules.{comparing, hashing};
ghost use Rattle.std.proofs.Common.{rules};

use super::Query;
use std::hash::Hash;

/// `get((host, service, &port))`, where the key is a `(String, String, u16)`, and `host` and `service` are texts.
impl<A: Eq + Hash, B: Eq + Hash, C: Eq + Hash, P: Query<A>, Q: Query<B>, R: Query<C>> Query<
    (A, B, C),
> for (P, Q, R) {
    ghost stands_for = { λ q k. P.stands_for q.0 k.0 && (Q.stands_for q.1 k.1 && R.stands_for q.2 k.2) };

    ghost respects_hash = { Prim.search (hashing, rules, P.respects_hash, Q.respects_hash, R.respects_hash) };

    ghost respects_eq = { Prim.search (
      comparing,
      rules,
      P.Query.respects_eq,
      Q.Query.respects_eq,
      R.Query.respects_eq,
    ) };

    fn stands_for(&self, key: &(A, B, C)) -> bool {
        self.0.stands_for(&key.0) && (self.1.stands_for(&key.1) && self.2.stands_for(&key.2))
    }
}
