//! Keys of two parts of an item, which need not be together in it, and may overlap other keys.
ghost use Rattle.std.specs.Prelude.{◌≡◌, ◌&&◌, ◌++◌};
ghost use Rattle.std.specs.Cmp.Rules.{comparing, hashing};
ghost use Rattle.std.proofs.Common.{rules};

use crate::made::{ByMade, Holds, MakesKey};
use crate::query::Query;
use std::hash::{Hash, Hasher};
use std::marker::{Model, PhantomData};

/// A value with a key of two parts, which it lends. `RANK` is that of `MakesKey`.
///
/// ```text
/// impl LendsPair<String, u32, 1> for Release {
///     ghost pair = { λ r. (r.name, r.number) };
///     fn lend_pair(&self) -> (&String, &u32) { (&self.name, &self.number) }
/// }
/// ```
pub trait LendsPair<A, B, const RANK: usize> {
    // The two parts, as contracts see them.
    ghost pair: { Self → A × B };

    /// Lends both parts.
    fn lend_pair(&self) -> (&A, &B)
        ensures first { result.0.now ≡ (pair self.now).0 }
        ensures second { result.1.now ≡ (pair self.now).1 };
}

/// A value that is a key, equal to those that lend equal parts. Contracts see the value.
///
/// Each comparison calls `lend_pair` of both values, and each hash that of the value. It takes no memory beside the value.
///
/// A lookup takes a pair of queries, one for each part: `get1((name, &number))`.
#[derive(Clone, Drop)]
pub struct ByPair<T, A, B, const RANK: usize> {
    pub(crate) value: T,
    parts: PhantomData<(A, B)>,
}

impl<T, A, B, const RANK: usize> Model for ByPair<T, A, B, RANK> {
    ghost Value = { T };

    ghost view = { λ x. x.value };
}

impl<T, A, B, const RANK: usize> Holds for ByPair<T, A, B, RANK> {
    type Held = T;

    ghost held = { λ x. x };

    fn hold(value: T) -> Self {
        ByPair {
            value,
            parts: PhantomData,
        }
    }

    fn held(&self) -> &T {
        &self.value
    }

    fn into_held(self) -> T {
        self.value
    }
}

impl<T: LendsPair<A, B, RANK>, A: PartialEq, B: PartialEq, const RANK: usize> PartialEq
    for ByPair<T, A, B, RANK> {
    ghost eq = { λ x y. A.eq (T.pair x).0 (T.pair y).0 && B.eq (T.pair x).1 (T.pair y).1 };

    ghost laws = { Prim.search (comparing, rules, A.PartialEq.laws, B.PartialEq.laws) };

    fn eq(&self, other: &ByPair<T, A, B, RANK>) -> bool {
        let (mine, theirs) = (self.value.lend_pair(), other.value.lend_pair());
        *mine.0 == *theirs.0 && *mine.1 == *theirs.1
    }
}

impl<T: LendsPair<A, B, RANK>, A: Eq, B: Eq, const RANK: usize> Eq for ByPair<T, A, B, RANK> {
    ghost laws = { Prim.search (comparing, rules, A.Eq.laws, B.Eq.laws) };
}

impl<T: LendsPair<A, B, RANK>, A: Hash, B: Hash, const RANK: usize> Hash for ByPair<T, A, B, RANK> {
    ghost hash_input = { λ x. A.hash_input (T.pair x).0 ++ B.hash_input (T.pair x).1 };

    ghost respects_eq = { Prim.search (hashing, rules, A.respects_eq, B.respects_eq) };

    fn hash<H: Hasher>(&self, state: &mut H) {
        let (one, two) = self.value.lend_pair();
        one.hash(state);
        two.hash(state);
    }
}

impl<T: MakesKey<RANK>, A, B, const RANK: usize, const OTHER: usize> MakesKey<RANK>
    for ByPair<T, A, B, OTHER> {
    type Made = T::Made;

    ghost made = { λ x. T.made x };

    fn make_key(&self) -> T::Made {
        self.value.make_key()
    }
}

impl<T: LendsPair<A, B, RANK>, A, B, C, D, const RANK: usize, const OTHER: usize> LendsPair<
    A,
    B,
    RANK,
> for ByPair<T, C, D, OTHER> {
    ghost pair = { λ x. T.pair x };

    fn lend_pair(&self) -> (&A, &B) {
        self.value.lend_pair()
    }
}

impl<T: LendsPair<A, B, RANK>, A, B, const RANK: usize, const OTHER: usize> LendsPair<A, B, RANK>
    for ByMade<T, OTHER> {
    ghost pair = { λ x. T.pair x };

    fn lend_pair(&self) -> (&A, &B) {
        self.held().lend_pair()
    }
}

impl<
    T: LendsPair<A, B, RANK>,
    A: Eq + Hash,
    B: Eq + Hash,
    P: Query<A>,
    Q: Query<B>,
    const RANK: usize,
> Query<ByPair<T, A, B, RANK>> for (P, Q) {
    ghost stands_for = { λ q x. P.stands_for q.0 (T.pair x).0 && Q.stands_for q.1 (T.pair x).1 };

    ghost respects_hash = { Prim.search (hashing, rules, P.respects_hash, Q.respects_hash) };

    ghost respects_eq = { Prim.search (comparing, rules, P.Query.respects_eq, Q.Query.respects_eq) };

    fn stands_for(&self, key: &ByPair<T, A, B, RANK>) -> bool {
        let (one, two) = key.value.lend_pair();
        self.0.stands_for(one) && self.1.stands_for(two)
    }
}
