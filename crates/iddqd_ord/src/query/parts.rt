//! Queries for keys of several parts.
ghost use Rattle.std.specs.Prelude.{◌&&◌};
ghost use Rattle.std.specs.Ordering.{is_eq, ordering_then};
ghost use Rattle.std.specs.Cmp.{both_tied};
ghost use Rattle.std.proofs.Common.{refl};
ghost use Rattle.iddqd_ord.specs.Queries.{IsRising-then, IsRising-part, IsSeeking-then, IsSeeking-first, IsSeeking-part};

use super::{OrdQuery, OrdSeek};
use std::cmp::Ordering;

/// A pair of queries seeks a pair of keys: `map.get((&user, "main"))`.
impl<A: Ord, B: Ord, P: OrdQuery<A>, Q: OrdQuery<B>> OrdQuery<(A, B)> for (P, Q) {
    ghost compare = { λ q k. ordering_then (P.compare q.0 k.0) (Q.compare q.1 k.1) };

    fn compare(&self, key: &(A, B)) -> Ordering {
        match self.0.compare(&key.0) {
            Ordering::Equal => self.1.compare(&key.1),
            side => side,
        }
    }

    ghost rises = { λ q. IsRising-then (IsRising-part (λ k. k.0) (P.rises q.0)) (IsRising-part (λ k. k.1) (Q.rises q.1)) };
}

/// Three queries seek a triple of keys: `map.get((&user, "main", &port))`.
impl<A: Ord, B: Ord, C: Ord, P: OrdQuery<A>, Q: OrdQuery<B>, R: OrdQuery<C>> OrdQuery<(A, B, C)>
    for (P, Q, R) {
    ghost compare = { λ q k. ordering_then (ordering_then (P.compare q.0 k.0) (Q.compare q.1 k.1)) (R.compare q.2 k.2) };

    fn compare(&self, key: &(A, B, C)) -> Ordering {
        match self.0.compare(&key.0) {
            Ordering::Equal => match self.1.compare(&key.1) {
                Ordering::Equal => self.2.compare(&key.2),
                side => side,
            },
            side => side,
        }
    }

    ghost rises = { λ q. IsRising-then
        (IsRising-then (IsRising-part (λ k. k.0) (P.rises q.0)) (IsRising-part (λ k. k.1) (Q.rises q.1)))
        (IsRising-part (λ k. k.2) (R.rises q.2)) };
}

/// Seeks all pairs and triples with one first part, which a query seeks: `map.matching(First(&user))` has the items of one
/// user, and `map.range(First(&3)..=First(&7))` those of several. `First(Prefix("com."))` seeks first parts that begin alike.
#[derive(Clone, Copy)]
pub struct First<Q>(pub Q);

impl<A: Ord, B: Ord, Q: OrdSeek<A>> OrdSeek<(A, B)> for First<Q> {
    ghost side = { λ q k. Q.side q.0 k.0 };

    ghost meets = { λ q k. Q.meets q.0 k.0 };

    fn compare_key(&self, key: &(A, B)) -> Ordering {
        self.0.compare_key(&key.0)
    }

    ghost seeks = { λ q. IsSeeking-first (λ x y. B.cmp x.1 y.1) (IsSeeking-part (λ k. k.0) (Q.seeks q.0)) };

    ghost meets_equal = { λ q k. Q.meets_equal q.0 k.0 };
}

impl<A: Ord, B: Ord, C: Ord, Q: OrdSeek<A>> OrdSeek<(A, B, C)> for First<Q> {
    ghost side = { λ q k. Q.side q.0 k.0 };

    ghost meets = { λ q k. Q.meets q.0 k.0 };

    fn compare_key(&self, key: &(A, B, C)) -> Ordering {
        self.0.compare_key(&key.0)
    }

    ghost seeks = { λ q. IsSeeking-first (λ x y. C.cmp x.2 y.2)
        (IsSeeking-first (λ x y. B.cmp x.1 y.1) (IsSeeking-part (λ k. k.0) (Q.seeks q.0))) };

    ghost meets_equal = { λ q k. Q.meets_equal q.0 k.0 };
}

/// Seeks all pairs and triples with one first part, and with second parts that another query seeks:
/// `map.matching(FirstTwo(&user, &day))`, or `FirstTwo(&user, Prefix("img/"))`.
#[derive(Clone, Copy)]
pub struct FirstTwo<P, Q>(pub P, pub Q);

impl<A: Ord, B: Ord, P: OrdQuery<A>, Q: OrdSeek<B>> OrdSeek<(A, B)> for FirstTwo<P, Q> {
    ghost side = { λ q k. ordering_then (P.compare q.0 k.0) (Q.side q.1 k.1) };

    ghost meets = { λ q k. is_eq (P.compare q.0 k.0) && Q.meets q.1 k.1 };

    fn compare_key(&self, key: &(A, B)) -> Ordering {
        match self.0.compare(&key.0) {
            Ordering::Equal => self.1.compare_key(&key.1),
            side => side,
        }
    }

    ghost seeks = { λ q. IsSeeking-then (IsRising-part (λ k. k.0) (P.rises q.0)) (IsSeeking-part (λ k. k.1) (Q.seeks q.1)) };

    ghost meets_equal = { λ q k. both_tied _ _ (P.compare q.0 k.0) (Q.side q.1 k.1) refl (Q.meets_equal q.1 k.1) };
}

impl<A: Ord, B: Ord, C: Ord, P: OrdQuery<A>, Q: OrdSeek<B>> OrdSeek<(A, B, C)> for FirstTwo<P, Q> {
    ghost side = { λ q k. ordering_then (P.compare q.0 k.0) (Q.side q.1 k.1) };

    ghost meets = { λ q k. is_eq (P.compare q.0 k.0) && Q.meets q.1 k.1 };

    fn compare_key(&self, key: &(A, B, C)) -> Ordering {
        match self.0.compare(&key.0) {
            Ordering::Equal => self.1.compare_key(&key.1),
            side => side,
        }
    }

    ghost seeks = { λ q. IsSeeking-first (λ x y. C.cmp x.2 y.2)
        (IsSeeking-then (IsRising-part (λ k. k.0) (P.rises q.0)) (IsSeeking-part (λ k. k.1) (Q.seeks q.1))) };

    ghost meets_equal = { λ q k. both_tied _ _ (P.compare q.0 k.0) (Q.side q.1 k.1) refl (Q.meets_equal q.1 k.1) };
}
