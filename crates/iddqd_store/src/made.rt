//! Keys that are made when they are asked for, for an item that has no such key as a part.
ghost use Rattle.std.specs.Prelude.{◌≡◌};
ghost use Rattle.std.specs.Cmp.Rules.{comparing};
ghost use Rattle.std.proofs.Common.{rules};

use crate::equivalent::Equivalent;
use crate::query::Query;
use std::hash::{Hash, Hasher};
use std::marker::Model;

/// What holds a value, and is a key by what this value makes or lends. It takes no memory beside the value, and its calls
/// allocate none.
pub trait Holds {
    /// What is held.
    type Held;

    // What is held, as contracts see it.
    ghost held: { Self → Self.Held };

    /// Holds the value.
    fn hold(value: Self::Held) -> Self
        ensures { held result ≡ value };

    /// Returns what is held.
    fn held(&self) -> &Self::Held
        ensures { result.now ≡ held self.now };

    /// Returns what was held.
    fn into_held(self) -> Self::Held
        ensures { result ≡ held self };
}

/// A value with a key that is no part of it, but is made when it is asked for: computed, or returned by value. `RANK`
/// is 1 for the only or the first key of an item, and 2 and 3 for the others.
///
/// ```text
/// impl MakesKey<1> for Header {
///     type Made = u16;
///     ghost made = { λ h. h.bits / 16 };
///     fn make_key(&self) -> u16 { self.bits / 16 }
/// }
/// ```
pub trait MakesKey<const RANK: usize> {
    /// The type of the key.
    type Made: Eq + Hash + Drop;

    // The key that is made, as contracts see it.
    ghost made: { Self → Self.Made };

    /// Makes the key, which depends on the value alone.
    fn make_key(&self) -> Self::Made
        ensures { result ≡ made self.now };
}

/// A value that is a key, equal to those that make an equal key. Contracts see the value.
///
/// Each comparison calls `make_key` of both values, and each hash that of the value, so let it be cheap. The key is kept
/// nowhere, so it takes no memory beside the value.
///
/// A lookup takes the key, as `Made`.
#[derive(Clone, Drop)]
pub struct ByMade<T, const RANK: usize> {
    pub(crate) value: T,
}

impl<T, const RANK: usize> Model for ByMade<T, RANK> {
    ghost Value = { T };

    ghost view = { λ x. x.value };
}

impl<T, const RANK: usize> Holds for ByMade<T, RANK> {
    type Held = T;

    ghost held = { λ x. x };

    fn hold(value: T) -> Self {
        ByMade { value }
    }

    fn held(&self) -> &T {
        &self.value
    }

    fn into_held(self) -> T {
        self.value
    }
}

impl<T: MakesKey<RANK>, const RANK: usize> PartialEq for ByMade<T, RANK> {
    ghost eq = { λ x y. T.Made.eq (T.made x) (T.made y) };

    ghost laws = { Prim.search (comparing, rules, T.Made.PartialEq.laws) };

    fn eq(&self, other: &ByMade<T, RANK>) -> bool {
        self.value.make_key() == other.value.make_key()
    }
}

impl<T: MakesKey<RANK>, const RANK: usize> Eq for ByMade<T, RANK> {
    ghost laws = { Prim.search (comparing, rules, T.Made.Eq.laws) };
}

impl<T: MakesKey<RANK>, const RANK: usize> Hash for ByMade<T, RANK> {
    ghost hash_input = { λ x. T.Made.hash_input (T.made x) };

    ghost respects_eq = { λ x y. T.Made.respects_eq (T.made x) (T.made y) };

    fn hash<H: Hasher>(&self, state: &mut H) {
        self.value.make_key().hash(state);
    }
}

impl<T: MakesKey<RANK>, const RANK: usize, const OTHER: usize> MakesKey<RANK> for ByMade<T, OTHER> {
    type Made = T::Made;

    ghost made = { λ x. T.made x };

    fn make_key(&self) -> T::Made {
        self.value.make_key()
    }
}

/// A made key, as a query: `get1(Made { key: 7 })`. If the key is not `Copy`, pass a reference: `get1(&Made { key })`.
#[derive(Clone, Copy, PartialEq, Eq, Hash)]
pub struct Made<K> {
    pub key: K,
}

impl<T: MakesKey<RANK>, const RANK: usize> Query<ByMade<T, RANK>> for Made<T::Made>
where
    T::Made: Copy,
{
    ghost stands_for = { λ q x. T.Made.eq q.key (T.made x) };

    ghost respects_hash = { λ q x. T.Made.respects_eq q.key (T.made x) };

    ghost respects_eq = { λ q x y. T.Made.Eq.laws.congr q.key (T.made x) (T.made y) };

    fn stands_for(&self, key: &ByMade<T, RANK>) -> bool {
        self.key == key.value.make_key()
    }
}

impl<T: MakesKey<RANK>, const RANK: usize> Equivalent<ByMade<T, RANK>> for Made<T::Made> {
    ghost equivalent = { λ q x. T.Made.eq q.key (T.made x) };

    ghost respects_hash = { λ q x. T.Made.respects_eq q.key (T.made x) };

    ghost respects_eq = { λ q x y. T.Made.Eq.laws.congr q.key (T.made x) (T.made y) };

    fn equivalent(&self, key: &ByMade<T, RANK>) -> bool {
        self.key == key.value.make_key()
    }
}
