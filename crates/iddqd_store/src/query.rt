//! The trait of what a lookup takes.
ghost use Rattle.std.specs.Prelude.{◌≡◌, Bool, true};

use crate::equivalent::Equivalent;
use std::hash::Hash;

mod numbers;
mod option;
mod pair;
mod slices;
mod texts;
mod triple;

/// What a lookup takes by value: a reference to a key or to any `Equivalent` of it, a number, a `char` or a `bool` by
/// itself, a borrowed text or slice, a tuple of two or three queries for one of keys, an `Option` of a query for one of
/// a key, or a made key. So `get1(&name)`, `get1(7)`, `get1("main")`, `get2((section, offset))`, `get1(Some("main"))`
/// and `get2(Made { key })` all work.
///
/// For a query type of your own implement `Equivalent`, and pass a reference to its value.
pub trait Query<K: Eq + Hash>: Copy + Hash {
    // The result of `stands_for`.
    ghost stands_for: { Self → K → Bool };

    /// Returns whether this query stands for the key.
    fn stands_for(&self, key: &K) -> bool
        ensures { result ≡ stands_for self.now key.now };

    // A query hashes like the keys that it stands for, so that a search by its hash meets them.
    ghost respects_hash: { (q : Self) (k : K) → stands_for q k ≡ true → Self.hash_input q ≡ K.hash_input k };

    // A query that stands for a key stands for the keys that are equal to it, and for no others.
    ghost respects_eq: { (q : Self) (x y : K) → stands_for q x ≡ true → stands_for q y ≡ K.eq x y };
}

impl<K: Eq + Hash, Q: Equivalent<K>> Query<K> for &Q {
    ghost stands_for = { λ q. Q.equivalent q.now };

    ghost respects_hash = { λ q. Q.respects_hash q.now };

    ghost respects_eq = { λ q. Q.Equivalent.respects_eq q.now };

    fn stands_for(&self, key: &K) -> bool {
        (**self).equivalent(key)
    }
}
