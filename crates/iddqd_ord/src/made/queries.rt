//! What seeks a key that is made or lent.
ghost use Rattle.std.specs.Ordering.{ordering_then};
ghost use Rattle.iddqd_ord.specs.Ordered.{IsRising-key};
ghost use Rattle.iddqd_ord.specs.Queries.{IsRising-part, IsRising-then, IsSeeking-first, IsSeeking-part};

use super::InOrder;
use crate::query::{First, OrdQuery, OrdSeek};
use iddqd_store::{ByMade, ByPair, Holds, LendsPair, Made, MakesKey};
use std::cmp::Ordering;

/// `map.get(Made { key: 7 })`. If the key is not `Copy`, pass a reference: `map.get(&Made { key })`.
impl<T: MakesKey<RANK>, const RANK: usize> OrdQuery<InOrder<ByMade<T, RANK>>> for Made<T::Made>
where
    T::Made: Ord + Copy,
{
    ghost compare = { λ q x. T.Made.cmp (T.made x) q.key };

    fn compare(&self, key: &InOrder<ByMade<T, RANK>>) -> Ordering {
        key.value.held().make_key().cmp(&self.key)
    }

    ghost rises = { λ q. IsRising-part T.made (IsRising-key T.Made.total (λ k. k) q.key) };
}

impl<T: MakesKey<RANK>, const RANK: usize> OrdQuery<InOrder<ByMade<T, RANK>>> for &Made<T::Made>
where
    T::Made: Ord,
{
    ghost compare = { λ q x. T.Made.cmp (T.made x) q.now.key };

    fn compare(&self, key: &InOrder<ByMade<T, RANK>>) -> Ordering {
        key.value.held().make_key().cmp(&self.key)
    }

    ghost rises = { λ q. IsRising-part T.made (IsRising-key T.Made.total (λ k. k) q.now.key) };
}

/// A pair of queries, one for each part that the item lends: `map.get((name, &number))`.
impl<
    T: LendsPair<A, B, RANK>,
    A: Ord,
    B: Ord,
    P: OrdQuery<A>,
    Q: OrdQuery<B>,
    const RANK: usize,
> OrdQuery<InOrder<ByPair<T, A, B, RANK>>> for (P, Q) {
    ghost compare = { λ q x. ordering_then (P.compare q.0 (T.pair x).0) (Q.compare q.1 (T.pair x).1) };

    fn compare(&self, key: &InOrder<ByPair<T, A, B, RANK>>) -> Ordering {
        let parts = key.value.held().lend_pair();
        match self.0.compare(parts.0) {
            Ordering::Equal => self.1.compare(parts.1),
            side => side,
        }
    }

    ghost rises = { λ q. IsRising-then
        (IsRising-part (λ x. (T.pair x).0) (P.rises q.0)) (IsRising-part (λ x. (T.pair x).1) (Q.rises q.1)) };
}

/// All items that lend one first part: `map.matching(First(name))`.
impl<T: LendsPair<A, B, RANK>, A: Ord, B: Ord, Q: OrdSeek<A>, const RANK: usize> OrdSeek<
    InOrder<ByPair<T, A, B, RANK>>,
> for First<Q> {
    ghost side = { λ q x. Q.side q.0 (T.pair x).0 };

    ghost meets = { λ q x. Q.meets q.0 (T.pair x).0 };

    fn compare_key(&self, key: &InOrder<ByPair<T, A, B, RANK>>) -> Ordering {
        self.0.compare_key(key.value.held().lend_pair().0)
    }

    ghost seeks = { λ q. IsSeeking-first (λ x y. B.cmp (T.pair x).1 (T.pair y).1)
        (IsSeeking-part (λ x. (T.pair x).0) (Q.seeks q.0)) };

    ghost meets_equal = { λ q x. Q.meets_equal q.0 (T.pair x).0 };
}
